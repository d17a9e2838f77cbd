//! Negations pushed inwards.
ghost use Rattle.std.specs.Prelude.{◌≡◌, IfOk};
ghost use Rattle.normal_forms.specs.Negation.{pushed as pushed_term, signed as signed_term, turned as turned_operator};
ghost use Rattle.normal_forms.specs.Negation.{role_of as operator_role};

use crate::node::{binary, conditional, unary};
use rc_terms::{BinaryOperator, Term, UnaryOperator};
use std::alloc::{AllocError, Global};

/// The term with its negations pushed inwards to the comparisons, or, where `negative`, its negation's.
pub fn pushed(alloc: Global, term: &Term, negative: bool) -> Result<Term, AllocError>
    ensures { IfOk result (λ after. after ≡ pushed_term term.now negative) }
{
    match term {
        Term::Truth(truth) => Ok(Term::Truth(*truth != negative)),
        Term::Unary(operator, operand) => match operator {
            UnaryOperator::Not => pushed(alloc, operand.get(), !negative),
            _ => signed(alloc, term.copy(alloc)?, negative),
        },
        Term::Binary(operator, left, right) => match role_of(*operator) {
            Role::Comparison => {
                Ok(Term::Binary(turned(*operator, negative), left.share()?, right.share()?))
            }
            Role::Connective => {
                let left = pushed(alloc, left.get(), negative)?;
                let right = pushed(alloc, right.get(), negative)?;
                binary(alloc, turned(*operator, negative), left, right)
            }
            Role::Implication => {
                let left = pushed(alloc, left.get(), false)?;
                let right = pushed(alloc, right.get(), negative)?;
                binary(alloc, turned(*operator, negative), left, right)
            }
            Role::Opaque => signed(alloc, term.copy(alloc)?, negative),
        },
        Term::Conditional(test, then, otherwise) => {
            let test = pushed(alloc, test.get(), false)?;
            let then = pushed(alloc, then.get(), negative)?;
            let otherwise = pushed(alloc, otherwise.get(), negative)?;
            conditional(alloc, test, then, otherwise)
        }
        Term::Variable(_) => signed(alloc, term.copy(alloc)?, negative),
        Term::Integer(_) => signed(alloc, term.copy(alloc)?, negative),
        Term::Null => signed(alloc, term.copy(alloc)?, negative),
        Term::List(_) => signed(alloc, term.copy(alloc)?, negative),
        Term::Update(_, _, _) => signed(alloc, term.copy(alloc)?, negative),
    }
}

/// What an operator's node is to a negation.
#[derive(Clone, Copy, Debug, PartialEq, Eq)]
pub enum Role {
    Comparison,
    Connective,
    Implication,
    /// A node that keeps a negation before it.
    Opaque,
}

pub fn role_of(operator: BinaryOperator) -> Role
    ensures { result ≡ operator_role operator }
{
    match operator {
        BinaryOperator::Equal => Role::Comparison,
        BinaryOperator::Unequal => Role::Comparison,
        BinaryOperator::Below => Role::Comparison,
        BinaryOperator::AtMost => Role::Comparison,
        BinaryOperator::Above => Role::Comparison,
        BinaryOperator::AtLeast => Role::Comparison,
        BinaryOperator::And => Role::Connective,
        BinaryOperator::Or => Role::Connective,
        BinaryOperator::Implies => Role::Implication,
        _ => Role::Opaque,
    }
}

/// The operator that a negation makes of a comparison or a connective.
fn turned(operator: BinaryOperator, negative: bool) -> BinaryOperator
    ensures { result ≡ turned_operator negative operator }
{
    if !negative {
        return operator;
    }
    match operator {
        BinaryOperator::Equal => BinaryOperator::Unequal,
        BinaryOperator::Unequal => BinaryOperator::Equal,
        BinaryOperator::Below => BinaryOperator::AtLeast,
        BinaryOperator::AtMost => BinaryOperator::Above,
        BinaryOperator::Above => BinaryOperator::AtMost,
        BinaryOperator::AtLeast => BinaryOperator::Below,
        BinaryOperator::And => BinaryOperator::Or,
        BinaryOperator::Or => BinaryOperator::And,
        BinaryOperator::Implies => BinaryOperator::And,
        _ => operator,
    }
}

/// The term, or its negation.
fn signed(alloc: Global, term: Term, negative: bool) -> Result<Term, AllocError>
    ensures { IfOk result (λ after. after ≡ signed_term negative term) }
{
    if negative {
        unary(alloc, UnaryOperator::Not, term)
    } else {
        Ok(term)
    }
}
