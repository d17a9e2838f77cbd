ghost use Rattle.std.specs.Prelude.{◌≡◌, IfOk};
ghost use Rattle.c_operators.specs.Unary.{sign_type, not_type, measure_type, given_type, cast_to, cast_type};
ghost use Rattle.c_operators.specs.Unary.{step_of, step_type};

use crate::operand::{Operand, OperandFault, Typing, integer_if, moved_type, sized_type, truth_if};
use c_types::{CType, casts, promoted_type};
use layouts::{IntType, Layout};
use std::alloc::AllocError;

/// `+e`, `-e` and `~e`.
pub fn sign_type(operand: &CType) -> Typing
    ensures { result ≡ sign_type operand.now }
{
    integer_if(promoted_type(operand))
}

/// `!e`
pub fn not_type(operand: &CType) -> Typing
    ensures { result ≡ not_type operand.now }
{
    truth_if(operand.is_scalar())
}

/// `sizeof e`, `sizeof (T)` and `_Alignof (T)`, by the type of the operand, which isn't evaluated: an array stays
/// one.
pub fn measure_type(t: &CType, records: &[Option<Layout>]) -> Result<Typing, AllocError>
    ensures { IfOk result (λ typing. typing ≡ measure_type records.now t.now) }
{
    Ok(match sized_type(t, records)? {
        Ok(_) => Ok(CType::Integer(IntType::ULong)),
        Err(fault) => Err(fault),
    })
}

/// The type of the values that an object of this type may be given, none for an array.
pub(crate) fn given_type(object: &CType) -> Result<Option<CType>, AllocError>
    ensures { IfOk result (λ given. given ≡ given_type object.now) }
{
    match object {
        CType::Array { .. } => Ok(None),
        _ => Ok(Some(object.value_type()?)),
    }
}

fn cast_to(operand: &Operand, to: &CType) -> Result<Typing, AllocError>
    ensures { IfOk result (λ typing. typing ≡ cast_to operand.now to.now) }
{
    if casts(operand.null, &operand.of, to) {
        return Ok(Ok(to.copy()?));
    }
    Ok(Err(OperandFault::Clash))
}

/// `(T) e`: a cast to an `atomic_bool` gives a `_Bool`.
pub fn cast_type(operand: &Operand, to: &CType) -> Result<Typing, AllocError>
    ensures { IfOk result (λ typing. typing ≡ cast_type operand.now to.now) }
{
    match given_type(to)? {
        Some(to) => cast_to(operand, &to),
        None => Ok(Err(OperandFault::Clash)),
    }
}

fn step_of(held: &CType, records: &[Option<Layout>]) -> Result<Typing, AllocError>
    ensures { IfOk result (λ typing. typing ≡ step_of records.now held.now) }
{
    if held.is_integer() {
        return Ok(Ok(held.copy()?));
    }
    moved_type(held, records)
}

/// `++e`, `--e`, `e++` and `e--`, by the type of the object.
pub fn step_type(object: &CType, records: &[Option<Layout>]) -> Result<Typing, AllocError>
    ensures { IfOk result (λ typing. typing ≡ step_type records.now object.now) }
{
    match given_type(object)? {
        Some(held) => step_of(&held, records),
        None => Ok(Err(OperandFault::Clash)),
    }
}
