//! What the operators of terms give on values.
ghost use Rattle.std.specs.Prelude.{◌≡◌, MatchOption, Ok, Err};
ghost use Rattle.std.specs.Cmp.Lexicographic.{pointwise};
ghost use Rattle.rc_terms.specs.declared.refusal.TermRefusal.TheVariants as refusals;
ghost use Rattle.rc_terms.specs.declared.value.TermValue.TheVariants as values;
ghost use Rattle.rc_terms.specs.Operators.{plus as sum_of, same as is_same, same_location as is_same_location};
ghost use Rattle.rc_terms.specs.Operators.{is_aligned as aligned_by, unary as unary_value, binary as binary_value};
ghost use Rattle.rc_terms.specs.Operators.{Gives, same_byte as is_same_byte};

use crate::byte::MByte;
use crate::lists::{element, first_numbers, joined, numbers_past, reversed, with_front};
use crate::location::Loc;
use crate::numbers;
use crate::operator::{BinaryOperator, UnaryOperator};
use crate::refusal::TermRefusal;
use crate::value::TermValue;
use sqlite_items::Items;
use std::alloc::Global;

/// The number as a value, or a refusal where 128 bits don't hold it.
fn integer(number: Option<i128>) -> Result<TermValue, TermRefusal>
    ensures { MatchOption number (result ≡ Err refusals.Width) (λ found. result ≡ Ok (values.Integer found)) }
{
    match number {
        Some(number) => Ok(TermValue::Integer(number)),
        None => Err(TermRefusal::Width),
    }
}

fn list(alloc: Global, numbers: &[i128]) -> Result<TermValue, TermRefusal>
    ensures { Gives result (values.List numbers.now) }
{
    Ok(TermValue::List(Items::from_slice(alloc, numbers)?))
}

/// A sum of two numbers, or of a location and a number.
fn plus(left: &TermValue, right: &TermValue) -> Result<TermValue, TermRefusal>
    ensures { Gives result (sum_of left.now right.now) }
{
    match left {
        TermValue::Location(Loc::Null) => Ok(TermValue::Location(Loc::Null)),
        TermValue::Location(Loc::At { block, offset }) => {
            match numbers::sum(*offset, right.number()) {
                Some(offset) => Ok(TermValue::Location(Loc::At {
                    block: *block,
                    offset,
                })),
                None => Err(TermRefusal::Width),
            }
        }
        _ => integer(numbers::sum(left.number(), right.number())),
    }
}

fn same_location(left: Loc, right: Loc) -> bool
    ensures { result ≡ is_same_location left right }
{
    match (left, right) {
        (Loc::Null, Loc::Null) => true,
        (
            Loc::At { block, offset },
            Loc::At {
                block: other,
                offset: distance,
            },
        ) => block == other && offset == distance,
        _ => false,
    }
}

fn same_byte(byte: MByte, other: MByte) -> bool
    ensures { result ≡ is_same_byte byte other }
{
    match (byte, other) {
        (MByte::Byte(byte), MByte::Byte(other)) => byte == other,
        (MByte::Frag(location, place), MByte::Frag(other, second)) => {
            same_location(location, other) && place == second
        }
        (MByte::Poison, MByte::Poison) => true,
        _ => false,
    }
}

/// Whether two lists of bytes are one.
fn same_bytes(bytes: &[MByte], others: &[MByte]) -> bool
    ensures { result ≡ pointwise is_same_byte bytes.now others.now }
{
    if bytes.len() != others.len() {
        return false;
    }
    for index in 0..bytes.len() {
        if !same_byte(bytes[index], others[index]) {
            return false;
        }
    }
    true
}

/// Whether two values are one.
fn same(left: &TermValue, right: &TermValue) -> bool
    ensures { result ≡ is_same left.now right.now }
{
    match (left, right) {
        (TermValue::Integer(number), TermValue::Integer(other)) => number == other,
        (TermValue::Truth(truth), TermValue::Truth(other)) => truth == other,
        (TermValue::Location(location), TermValue::Location(other)) => {
            same_location(*location, *other)
        }
        (TermValue::List(list), TermValue::List(other)) => list.as_slice() == other.as_slice(),
        (TermValue::Bytes(bytes), TermValue::Bytes(others)) => {
            same_bytes(bytes.as_slice(), others.as_slice())
        }
        _ => false,
    }
}

/// Whether the location is null or the number divides its offset.
fn is_aligned(location: Loc, alignment: i128) -> bool
    ensures { result ≡ aligned_by location alignment }
{
    match location {
        Loc::Null => true,
        Loc::At { offset, .. } => numbers::divides(alignment, offset),
    }
}

pub fn unary(
    alloc: Global,
    operator: UnaryOperator,
    operand: &TermValue,
) -> Result<TermValue, TermRefusal>
    ensures { Gives result (unary_value operator operand.now) }
{
    match operator {
        UnaryOperator::Negative => integer(numbers::negated(operand.number())),
        UnaryOperator::Not => Ok(TermValue::Truth(!operand.truth())),
        UnaryOperator::Length => Ok(TermValue::Integer(operand.list().len() as i128)),
        UnaryOperator::Reverse => Ok(TermValue::List(reversed(alloc, operand.list())?)),
    }
}

pub fn binary(
    alloc: Global,
    operator: BinaryOperator,
    a: &TermValue,
    b: &TermValue,
) -> Result<TermValue, TermRefusal>
    ensures { Gives result (binary_value operator a.now b.now) }
{
    match operator {
        BinaryOperator::Add => plus(a, b),
        BinaryOperator::Subtract => integer(numbers::difference(a.number(), b.number())),
        BinaryOperator::Multiply => integer(numbers::product(a.number(), b.number())),
        BinaryOperator::Quotient => integer(numbers::quotient(a.number(), b.number())),
        BinaryOperator::Remainder => {
            Ok(TermValue::Integer(numbers::remainder(a.number(), b.number())))
        }
        BinaryOperator::ShiftLeft => integer(numbers::shifted_left(a.number(), b.number())),
        BinaryOperator::ShiftRight => {
            Ok(TermValue::Integer(numbers::shifted_right(a.number(), b.number())))
        }
        BinaryOperator::BitAnd => Ok(TermValue::Integer(numbers::bit_and(a.number(), b.number()))),
        BinaryOperator::BitOr => Ok(TermValue::Integer(numbers::bit_or(a.number(), b.number()))),
        BinaryOperator::BitXor => Ok(TermValue::Integer(numbers::bit_xor(a.number(), b.number()))),
        BinaryOperator::Equal => Ok(TermValue::Truth(same(a, b))),
        BinaryOperator::Unequal => Ok(TermValue::Truth(!same(a, b))),
        BinaryOperator::Below => Ok(TermValue::Truth(a.number() < b.number())),
        BinaryOperator::AtMost => Ok(TermValue::Truth(a.number() <= b.number())),
        BinaryOperator::Above => Ok(TermValue::Truth(a.number() > b.number())),
        BinaryOperator::AtLeast => Ok(TermValue::Truth(a.number() >= b.number())),
        BinaryOperator::And => Ok(TermValue::Truth(a.truth() && b.truth())),
        BinaryOperator::Or => Ok(TermValue::Truth(a.truth() || b.truth())),
        BinaryOperator::Implies => Ok(TermValue::Truth(!a.truth() || b.truth())),
        BinaryOperator::Aligned => Ok(TermValue::Truth(is_aligned(a.location(), b.number()))),
        BinaryOperator::Cons => Ok(TermValue::List(with_front(alloc, a.number(), b.list())?)),
        BinaryOperator::Append => Ok(TermValue::List(joined(alloc, a.list(), b.list())?)),
        BinaryOperator::Element => Ok(TermValue::Integer(element(a.list(), b.number()))),
        BinaryOperator::Take => list(alloc, first_numbers(b.list(), a.number())),
        BinaryOperator::Drop => list(alloc, numbers_past(b.list(), a.number())),
    }
}
