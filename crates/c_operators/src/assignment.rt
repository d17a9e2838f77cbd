ghost use Rattle.std.specs.Prelude.{◌≡◌, IfOk, if◌then◌else◌};
ghost use Rattle.c_operators.specs.Assignments.{converted_type, assigned_type, number_change, sum_change};
ghost use Rattle.c_operators.specs.Assignments.{change_type, assignment_type};

use crate::operand::{Operand, OperandFault, Typing, moved_type};
use crate::unary::given_type;
use c_syntax::AssignmentOperator;
use c_types::{CType, converts};
use layouts::Layout;
use std::alloc::AllocError;

/// The type itself, where the operands fit.
fn type_where(fits: bool, t: &CType) -> Result<Typing, AllocError>
    ensures { IfOk result (λ typing. typing ≡ (if fits then Ok t.now else Err OperandFault.Clash)) }
{
    if fits {
        return Ok(Ok(t.copy()?));
    }
    Ok(Err(OperandFault::Clash))
}

fn converted_type(value: &Operand, to: &CType) -> Result<Typing, AllocError>
    ensures { IfOk result (λ typing. typing ≡ converted_type value.now to.now) }
{
    type_where(converts(value.null, &value.of, to), to)
}

/// A value that an object of this type is given: by `=`, as an argument, as an initial value or by `return`.
pub fn assigned_type(object: &CType, value: &Operand) -> Result<Typing, AllocError>
    ensures { IfOk result (λ typing. typing ≡ assigned_type object.now value.now) }
{
    match given_type(object)? {
        Some(to) => converted_type(value, &to),
        None => Ok(Err(OperandFault::Clash)),
    }
}

fn number_change(held: &CType, right: &CType) -> Result<Typing, AllocError>
    ensures { IfOk result (λ typing. typing ≡ number_change held.now right.now) }
{
    type_where(held.is_integer() && right.is_integer(), held)
}

fn sum_change(held: &CType, right: &CType, records: &[Option<Layout>]) -> Result<Typing, AllocError>
    ensures { IfOk result (λ typing. typing ≡ sum_change records.now held.now right.now) }
{
    if held.is_integer() {
        return number_change(held, right);
    }
    if right.is_integer() {
        return moved_type(held, records);
    }
    Ok(Err(OperandFault::Clash))
}

fn change_type(
    operator: AssignmentOperator,
    value: &Operand,
    held: &CType,
    records: &[Option<Layout>],
) -> Result<Typing, AllocError>
    ensures { IfOk result (λ typing. typing ≡ change_type operator records.now value.now held.now) }
{
    match operator {
        AssignmentOperator::Assign => converted_type(value, held),
        AssignmentOperator::Add | AssignmentOperator::Subtract => {
            sum_change(held, &value.of, records)
        }
        _ => number_change(held, &value.of),
    }
}

/// An assignment, by the type of the object that is assigned to.
pub fn assignment_type(
    operator: AssignmentOperator,
    object: &CType,
    value: &Operand,
    records: &[Option<Layout>],
) -> Result<Typing, AllocError>
    ensures { IfOk result (λ typing. typing ≡ assignment_type operator records.now object.now value.now) }
{
    match given_type(object)? {
        Some(held) => change_type(operator, value, &held, records),
        None => Ok(Err(OperandFault::Clash)),
    }
}
