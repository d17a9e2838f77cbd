//! Nodes of terms round new parts.
ghost use Rattle.std.specs.Prelude.{◌≡◌, IfOk};
ghost use Rattle.rc_terms.specs.declared.term.Term.TheVariants as terms;

use rc_terms::{BinaryOperator, Term, UnaryOperator};
use shared_values::Shared;
use std::alloc::{AllocError, Global};

pub fn unary(alloc: Global, operator: UnaryOperator, operand: Term) -> Result<Term, AllocError>
    ensures { IfOk result (λ node. node ≡ terms.Unary operator operand) }
{
    Ok(Term::Unary(operator, Shared::new(alloc, operand)?))
}

pub fn binary(
    alloc: Global,
    operator: BinaryOperator,
    left: Term,
    right: Term,
) -> Result<Term, AllocError>
    ensures { IfOk result (λ node. node ≡ terms.Binary operator left right) }
{
    Ok(Term::Binary(
        operator,
        Shared::new(alloc, left)?,
        Shared::new(alloc, right)?,
    ))
}

pub fn conditional(
    alloc: Global,
    test: Term,
    then: Term,
    otherwise: Term,
) -> Result<Term, AllocError>
    ensures { IfOk result (λ node. node ≡ terms.Conditional test then otherwise) }
{
    let test = Shared::new(alloc, test)?;
    let then = Shared::new(alloc, then)?;
    Ok(Term::Conditional(test, then, Shared::new(alloc, otherwise)?))
}

pub fn update(alloc: Global, list: Term, index: Term, number: Term) -> Result<Term, AllocError>
    ensures { IfOk result (λ node. node ≡ terms.Update list index number) }
{
    let list = Shared::new(alloc, list)?;
    let index = Shared::new(alloc, index)?;
    Ok(Term::Update(list, index, Shared::new(alloc, number)?))
}
