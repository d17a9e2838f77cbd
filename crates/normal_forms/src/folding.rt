//! Nodes of literals as the literals of their values.
ghost use Rattle.std.specs.Prelude.{◌≡◌, [], false, IfOk, IsTrue};
ghost use Rattle.rc_terms.specs.Evaluation.{value_of, passes_width};
ghost use Rattle.normal_forms.specs.Folding.{folded as folded_term, folding_passes, literal_of, chosen as chosen_term};
ghost use Rattle.normal_forms.specs.Folding.{is_literal as is_literal_term, is_computable as is_computable_term};
ghost use Rattle.normal_forms.specs.Folding.{branch as branch_term, truth_literal as truth_of_literal};
ghost use Rattle.normal_forms.specs.Widths.{Forms};

use crate::failure::Failure;
use crate::normal::{parts_binary, parts_unary};
use crate::order::compare_terms;
use rc_terms::{Env, Term, TermRefusal, TermValue, eval};
use std::alloc::{AllocError, Global};
use std::cmp::Ordering;

/// The term as its value's literal where its operands are literals, and as its branch where that is settled.
pub fn folded(alloc: Global, term: Term) -> Result<Term, Failure>
    ensures { Forms result (folded_term term) (folding_passes term) }
{
    if is_computable(&term) {
        computed(alloc, &term)
    } else {
        Ok(chosen(alloc, &term)?)
    }
}

fn is_literal(term: &Term) -> bool
    ensures { result ≡ is_literal_term term.now }
{
    match term {
        Term::Integer(_) => true,
        Term::Truth(_) => true,
        Term::Null => true,
        Term::Variable(_) => false,
        Term::List(_) => false,
        Term::Unary(_, _) => false,
        Term::Binary(_, _, _) => false,
        Term::Conditional(_, _, _) => false,
        Term::Update(_, _, _) => false,
    }
}

/// Whether the term's operands are literals, and it is none of a sum.
fn is_computable(term: &Term) -> bool
    ensures { result ≡ is_computable_term term.now }
{
    match term {
        Term::Unary(operator, operand) => parts_unary(*operator) & is_literal(operand.get()),
        Term::Binary(operator, left, right) => {
            parts_binary(*operator) & (is_literal(left.get()) & is_literal(right.get()))
        }
        _ => false,
    }
}

/// Whether folding leaves the term as it is, whatever its operands are.
pub fn is_plain(term: &Term) -> bool
    ensures term { IsTrue result → folded_term term.now ≡ term.now }
    ensures narrow { IsTrue result → folding_passes term.now ≡ false }
{
    match term {
        Term::Unary(operator, _) => !parts_unary(*operator),
        Term::Binary(operator, _, _) => !parts_binary(*operator),
        Term::Conditional(_, _, _) => false,
        _ => true,
    }
}

/// The literal of the term's value, which hangs on no name.
fn computed(alloc: Global, term: &Term) -> Result<Term, Failure>
    ensures { Forms result (literal_of (value_of [] term.now) term.now) (passes_width [] term.now) }
{
    let env = Env::new(alloc);
    match eval(alloc, term, &env) {
        Ok(TermValue::Integer(number)) => Ok(Term::Integer(number)),
        Ok(TermValue::Truth(truth)) => Ok(Term::Truth(truth)),
        Ok(_) => Ok(term.copy(alloc)?),
        Err(TermRefusal::Width) => Err(Failure::Width),
        Err(_) => Err(Failure::NoMemory),
    }
}

/// A conditional term as its branch, where that is settled.
fn chosen(alloc: Global, term: &Term) -> Result<Term, AllocError>
    ensures { IfOk result (λ after. after ≡ chosen_term term.now) }
{
    match term {
        Term::Conditional(test, then, otherwise) => {
            branch(
                alloc,
                truth_literal(test.get()),
                then.get(),
                otherwise.get(),
                term,
            )
        }
        _ => term.copy(alloc),
    }
}

/// The truth value that a literal is.
fn truth_literal(term: &Term) -> Option<bool>
    ensures { result ≡ truth_of_literal term.now }
{
    match term {
        Term::Truth(truth) => Some(*truth),
        Term::Variable(_) => None,
        Term::Integer(_) => None,
        Term::Null => None,
        Term::List(_) => None,
        Term::Unary(_, _) => None,
        Term::Binary(_, _, _) => None,
        Term::Conditional(_, _, _) => None,
        Term::Update(_, _, _) => None,
    }
}

/// The branch that a test takes, the term that both are, or else the conditional term itself.
fn branch(
    alloc: Global,
    test: Option<bool>,
    then: &Term,
    otherwise: &Term,
    term: &Term,
) -> Result<Term, AllocError>
    ensures { IfOk result (λ after. after ≡ branch_term test then.now otherwise.now term.now) }
{
    match test {
        Some(true) => then.copy(alloc),
        Some(false) => otherwise.copy(alloc),
        None => {
            if compare_terms(alloc, then, otherwise)? == Ordering::Equal {
                then.copy(alloc)
            } else {
                term.copy(alloc)
            }
        }
    }
}
