ghost use Rattle.std.specs.Prelude.{◌≡◌, if◌then◌else◌, ◌&&◌, IfOk, pos, neg_ℤ, int_lt};
ghost use Rattle.std.specs.Ordering.{int_eq};
ghost use Rattle.layouts.specs.IntType.{IsInRange, least_of, is_signed as has_sign};
ghost use Rattle.layouts.specs.declared.operator.Operator.TheVariants as operators;
ghost use Rattle.int_ops.specs.Arithmetic.{arithmetic, is_past as passes, wrapped, truth as truth_of, IsRightOperand};
ghost use Rattle.int_ops.specs.Arithmetic.{result_type as type_of_result};

use crate::conversion::{convert, is_signed, low_bits, modulus, width};
use crate::undefined::OpUb;
use layouts::{IntType, Operator, int_range};

/// What the operator gives on two numbers of the type. A unary operator looks at the first alone, and the amount of a
/// shift may be any number. The result is of the type that `result_type` answers.
pub fn apply(operator: Operator, t: IntType, a: i128, b: i128) -> Result<i128, OpUb>
    requires left { IsInRange t a }
    requires right { IsRightOperand operator t b }
    ensures value { result ≡ arithmetic operator t a b }
    ensures in_range { IfOk result (IsInRange (type_of_result operator t)) }
{
    match operator {
        Operator::Neg => fitted(t, -a),
        Operator::Compl => Ok(convert(t, -a - 1)),
        Operator::Add => fitted(t, a + b),
        Operator::Sub => fitted(t, a - b),
        Operator::Mul => product(t, a, b),
        Operator::Div => quotient(t, a, b),
        Operator::Rem => remainder(t, a, b),
        Operator::Shl => shifted_left(t, a, b),
        Operator::Shr => shifted_right(t, a, b),
        Operator::And => Ok(convert(t, i128::from(low_bits(t, a) & low_bits(t, b)))),
        Operator::Or => Ok(convert(t, i128::from(low_bits(t, a) | low_bits(t, b)))),
        Operator::Xor => Ok(convert(t, i128::from(low_bits(t, a) ^ low_bits(t, b)))),
        Operator::Eq => Ok(truth(a == b)),
        Operator::Ne => Ok(truth(a != b)),
        Operator::Lt => Ok(truth(a < b)),
        Operator::Le => Ok(truth(a <= b)),
        Operator::Gt => Ok(truth(a > b)),
        Operator::Ge => Ok(truth(a >= b)),
    }
}

/// The type of what the operator gives on numbers of the type: `int` of a comparison, else the type itself.
pub fn result_type(operator: Operator, t: IntType) -> IntType
    ensures { result ≡ type_of_result operator t }
{
    match operator {
        Operator::Eq | Operator::Ne => IntType::Int,
        Operator::Lt | Operator::Le | Operator::Gt | Operator::Ge => IntType::Int,
        _ => t,
    }
}

/// An exact result at its type: a signed one out of range is refused, and one without sign wraps.
fn fitted(t: IntType, n: i128) -> Result<i128, OpUb>
    ensures value { result ≡ (if passes t n then Err OpUb.Overflow else Ok (wrapped t n)) }
    ensures in_range { IfOk result (IsInRange t) }
{
    if is_past(t, n) {
        return Err(OpUb::Overflow);
    }
    Ok(convert(t, n))
}

/// Whether the type is signed, and the number isn't one of its own.
fn is_past(t: IntType, n: i128) -> bool
    ensures { result ≡ passes t n }
{
    let (least, greatest) = int_range(t);
    is_signed(t) && (n < least || greatest < n)
}

/// A product of unsigned numbers can pass the 128 bits with a sign, and never those without.
fn product(t: IntType, a: i128, b: i128) -> Result<i128, OpUb>
    requires left { IsInRange t a }
    requires right { IsInRange t b }
    ensures value { result ≡ arithmetic operators.Mul t a b }
    ensures in_range { IfOk result (IsInRange t) }
{
    if is_signed(t) {
        fitted(t, a * b)
    } else {
        let low = (a as u128 * b as u128) % modulus(t) as u128;
        Ok(low as i128)
    }
}

/// Division rounds toward zero.
fn quotient(t: IntType, a: i128, b: i128) -> Result<i128, OpUb>
    requires left { IsInRange t a }
    requires right { IsInRange t b }
    ensures value { result ≡ arithmetic operators.Div t a b }
    ensures in_range { IfOk result (IsInRange t) }
{
    if b == 0 {
        return Err(OpUb::ZeroDivisor);
    }
    if is_least_by_minus_one(t, a, b) {
        return Err(OpUb::LeastByMinusOne);
    }
    Ok(convert(t, a / b))
}

/// The remainder has the sign of the dividend.
fn remainder(t: IntType, a: i128, b: i128) -> Result<i128, OpUb>
    requires left { IsInRange t a }
    requires right { IsInRange t b }
    ensures value { result ≡ arithmetic operators.Rem t a b }
    ensures in_range { IfOk result (IsInRange t) }
{
    if b == 0 {
        return Err(OpUb::ZeroDivisor);
    }
    if is_least_by_minus_one(t, a, b) {
        return Err(OpUb::LeastByMinusOne);
    }
    Ok(convert(t, a % b))
}

fn is_least_by_minus_one(t: IntType, a: i128, b: i128) -> bool
    ensures { result ≡ (int_eq a (least_of t) && int_eq b (neg_ℤ (pos 1))) }
{
    let (least, _) = int_range(t);
    a == least && b == -1
}

/// The exact result of a signed number above 0 by the width or more is out of range, before the amount is looked at.
fn shifted_left(t: IntType, a: i128, amount: i128) -> Result<i128, OpUb>
    requires { IsInRange t a }
    ensures value { result ≡ arithmetic operators.Shl t a amount }
    ensures in_range { IfOk result (IsInRange t) }
{
    if a < 0 {
        return Err(OpUb::Overflow);
    }
    if amount < 0 {
        return Err(OpUb::ShiftRange);
    }
    if amount >= i128::from(width(t)) {
        return Err(too_far(t, a));
    }
    fitted(t, a << (amount as u32))
}

fn too_far(t: IntType, a: i128) -> OpUb
    ensures { result ≡ (if has_sign t && int_lt (pos 0) a then OpUb.Overflow else OpUb.ShiftRange) }
{
    if is_signed(t) && a > 0 {
        OpUb::Overflow
    } else {
        OpUb::ShiftRange
    }
}

/// A shift to the right rounds down.
fn shifted_right(t: IntType, a: i128, amount: i128) -> Result<i128, OpUb>
    requires { IsInRange t a }
    ensures value { result ≡ arithmetic operators.Shr t a amount }
    ensures in_range { IfOk result (IsInRange t) }
{
    if amount < 0 || amount >= i128::from(width(t)) {
        return Err(OpUb::ShiftRange);
    }
    Ok(convert(t, a >> (amount as u32)))
}

/// 1 for true and 0 for false.
fn truth(holds: bool) -> i128
    ensures { result ≡ truth_of holds }
{
    i128::from(holds)
}
