ghost use Rattle.std.specs.Prelude.{◌≡◌, IfOk};
ghost use Rattle.std.specs.Option.{option_copied};
ghost use Rattle.c_operators.specs.Operands.{truth_if, integer_if, type_if, sized_type, pointed_type, moved_type};
ghost use Rattle.c_operators.specs.Operands.{unless_missing, pointer_beside_integer};

use c_types::{CType, missing_record};
use layouts::{IntType, Layout};
use std::alloc::AllocError;

/// A value as an operand: its type, and whether it is a null pointer constant (C11 6.3.2.3p3). No value is an array or
/// an `atomic_bool`.
#[derive(Debug, Drop)]
pub struct Operand {
    pub of: CType,
    pub null: bool,
}

/// What is wrong with the operands of an operator.
#[derive(Clone, Copy, Debug, PartialEq, Eq, Hash)]
pub enum OperandFault {
    /// The operator has no rule for operands of these types.
    Clash,
    /// It asks the size of the struct or union of this number, which has no members yet.
    Incomplete(u32),
}

/// The type that an operator gives, or what is wrong with its operands.
pub type Typing = Result<CType, OperandFault>;

/// `int`, where the operands fit.
pub(crate) fn truth_if(fits: bool) -> Typing
    ensures { result ≡ truth_if fits }
{
    if fits {
        Ok(CType::Integer(IntType::Int))
    } else {
        Err(OperandFault::Clash)
    }
}

/// An integer type, where there is one.
pub(crate) fn integer_if(t: Option<IntType>) -> Typing
    ensures { result ≡ integer_if t }
{
    match t {
        Some(t) => Ok(CType::Integer(t)),
        None => Err(OperandFault::Clash),
    }
}

/// A type, where there is one.
pub(crate) fn type_if(t: Option<CType>) -> Typing
    ensures { result ≡ type_if t }
{
    match t {
        Some(t) => Ok(t),
        None => Err(OperandFault::Clash),
    }
}

fn unless_missing(t: &CType, missing: Option<u32>) -> Result<Typing, AllocError>
    ensures { IfOk result (λ typing. typing ≡ unless_missing t.now missing) }
{
    match missing {
        Some(number) => Ok(Err(OperandFault::Incomplete(number))),
        None => Ok(Ok(t.copy()?)),
    }
}

/// The type of an object, where its size is known.
pub(crate) fn sized_type(t: &CType, records: &[Option<Layout>]) -> Result<Typing, AllocError>
    ensures { IfOk result (λ typing. typing ≡ sized_type records.now t.now) }
{
    if t.is_void() {
        return Ok(Err(OperandFault::Clash));
    }
    unless_missing(t, missing_record(t, records))
}

/// `*e`, and the object that `p->m` begins with: what a pointer points to, where its size is known. `records` has the
/// layout of each struct and union by its number, none while it is incomplete.
pub fn pointed_type(pointer: &CType, records: &[Option<Layout>]) -> Result<Typing, AllocError>
    ensures { IfOk result (λ typing. typing ≡ pointed_type records.now pointer.now) }
{
    match pointer.pointee() {
        Some(to) => sized_type(to, records),
        None => Ok(Err(OperandFault::Clash)),
    }
}

/// The pointer itself, where an integer may move it.
pub(crate) fn moved_type(pointer: &CType, records: &[Option<Layout>]) -> Result<Typing, AllocError>
    ensures { IfOk result (λ typing. typing ≡ moved_type records.now pointer.now) }
{
    match pointed_type(pointer, records)? {
        Ok(_) => Ok(Ok(pointer.copy()?)),
        Err(fault) => Ok(Err(fault)),
    }
}

/// The one of two types that is a pointer, where the other is an integer.
pub(crate) fn pointer_beside_integer<'a>(one: &'a CType, other: &'a CType) -> Option<&'a CType>
    ensures { option_copied result ≡ pointer_beside_integer one.now other.now }
{
    if one.is_pointer() && other.is_integer() {
        return Some(one);
    }
    if one.is_integer() && other.is_pointer() {
        return Some(other);
    }
    None
}
