ghost use Rattle.std.specs.Prelude.{◌≡◌, IfOk};
ghost use Rattle.c_operators.specs.Binary.{subscript_type, number_type, shift_type, sum_type, difference_type};
ghost use Rattle.c_operators.specs.Binary.{order_type, equality_type, binary_type, logical_type, choice_type};

use crate::operand::{
    Operand, OperandFault, Typing, integer_if, moved_type, pointed_type, pointer_beside_integer,
    truth_if, type_if,
};
use c_syntax::BinaryOperator;
use c_types::{CType, are_comparable, arithmetic_type, conditional_type, promoted_type};
use layouts::Layout;
use std::alloc::{AllocError, Global};

/// `p[i]`: the type of the object, whichever of the two is the pointer.
pub fn subscript_type(
    one: &CType,
    other: &CType,
    records: &[Option<Layout>],
) -> Result<Typing, AllocError>
    ensures { IfOk result (λ typing. typing ≡ subscript_type records.now one.now other.now) }
{
    match pointer_beside_integer(one, other) {
        Some(pointer) => pointed_type(pointer, records),
        None => Ok(Err(OperandFault::Clash)),
    }
}

fn number_type(left: &CType, right: &CType) -> Typing
    ensures { result ≡ number_type left.now right.now }
{
    integer_if(arithmetic_type(left, right))
}

fn shift_type(left: &CType, right: &CType) -> Typing
    ensures { result ≡ shift_type left.now right.now }
{
    if right.is_integer() {
        integer_if(promoted_type(left))
    } else {
        Err(OperandFault::Clash)
    }
}

fn sum_type(left: &CType, right: &CType, records: &[Option<Layout>]) -> Result<Typing, AllocError>
    ensures { IfOk result (λ typing. typing ≡ sum_type records.now left.now right.now) }
{
    if left.is_integer() && right.is_integer() {
        return Ok(number_type(left, right));
    }
    match pointer_beside_integer(left, right) {
        Some(pointer) => moved_type(pointer, records),
        None => Ok(Err(OperandFault::Clash)),
    }
}

fn difference_type(
    left: &CType,
    right: &CType,
    records: &[Option<Layout>],
) -> Result<Typing, AllocError>
    ensures { IfOk result (λ typing. typing ≡ difference_type records.now left.now right.now) }
{
    if left.is_integer() && right.is_integer() {
        return Ok(number_type(left, right));
    }
    if left.is_pointer() && right.is_integer() {
        return moved_type(left, records);
    }
    Ok(Err(OperandFault::Clash))
}

fn order_type(left: &CType, right: &CType) -> Typing
    ensures { result ≡ order_type left.now right.now }
{
    truth_if(left.is_integer() && right.is_integer())
}

fn equality_type(left: &Operand, right: &Operand) -> Typing
    ensures { result ≡ equality_type left.now right.now }
{
    truth_if(are_comparable(left.null, &left.of, right.null, &right.of))
}

/// An operator between two operands that are both evaluated. `records` has the layout of each struct and union by its
/// number, none while it is incomplete.
pub fn binary_type(
    operator: BinaryOperator,
    left: &Operand,
    right: &Operand,
    records: &[Option<Layout>],
) -> Result<Typing, AllocError>
    ensures { IfOk result (λ typing. typing ≡ binary_type operator records.now left.now right.now) }
{
    match operator {
        BinaryOperator::Add => sum_type(&left.of, &right.of, records),
        BinaryOperator::Subtract => difference_type(&left.of, &right.of, records),
        BinaryOperator::LeftShift | BinaryOperator::RightShift => {
            Ok(shift_type(&left.of, &right.of))
        }
        BinaryOperator::Less
        | BinaryOperator::Greater
        | BinaryOperator::LessOrEqual
        | BinaryOperator::GreaterOrEqual => Ok(order_type(&left.of, &right.of)),
        BinaryOperator::Equal | BinaryOperator::NotEqual => Ok(equality_type(left, right)),
        BinaryOperator::Multiply
        | BinaryOperator::Divide
        | BinaryOperator::Remainder
        | BinaryOperator::And
        | BinaryOperator::Xor
        | BinaryOperator::Or => Ok(number_type(&left.of, &right.of)),
    }
}

/// `&&` and `||`
pub fn logical_type(left: &CType, right: &CType) -> Typing
    ensures { result ≡ logical_type left.now right.now }
{
    truth_if(left.is_scalar() && right.is_scalar())
}

/// `test ? then : otherwise`
pub fn choice_type(
    alloc: Global,
    test: &CType,
    then_branch: &Operand,
    else_branch: &Operand,
) -> Result<Typing, AllocError>
    ensures { IfOk result (λ typing. typing ≡ choice_type test.now then_branch.now else_branch.now) }
{
    if !test.is_scalar() {
        return Ok(Err(OperandFault::Clash));
    }
    let joined = conditional_type(
        alloc,
        then_branch.null,
        &then_branch.of,
        else_branch.null,
        &else_branch.of,
    )?;
    Ok(type_if(joined))
}
