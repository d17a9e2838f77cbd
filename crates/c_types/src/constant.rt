ghost use Rattle.std.specs.Prelude.{◌≡◌, pos};
ghost use Rattle.layouts.specs.IntType.{IsInRange};
ghost use Rattle.c_types.specs.Constants.{candidates, holds, constant_type, negated, converted, range_of};

use crate::ctype::CType;
use c_lexer::{IntegerBase, IntegerConstant, IntegerSuffix};
use int_ops::{convert, convert_to_bool};
use layouts::{IntType, int_range};

fn candidates(base: IntegerBase, suffix: IntegerSuffix) -> &'static [IntType]
    ensures { result.now ≡ candidates base suffix }
{
    match (base, suffix) {
        (IntegerBase::Decimal, IntegerSuffix::Plain) => {
            &[IntType::Int, IntType::Long, IntType::LLong]
        }
        (_, IntegerSuffix::Plain) => &[
            IntType::Int,
            IntType::UInt,
            IntType::Long,
            IntType::ULong,
            IntType::LLong,
            IntType::ULLong,
        ],
        (_, IntegerSuffix::Unsigned) => &[IntType::UInt, IntType::ULong, IntType::ULLong],
        (IntegerBase::Decimal, IntegerSuffix::Long) => &[IntType::Long, IntType::LLong],
        (_, IntegerSuffix::Long) => &[
            IntType::Long,
            IntType::ULong,
            IntType::LLong,
            IntType::ULLong,
        ],
        (_, IntegerSuffix::UnsignedLong) => &[IntType::ULong, IntType::ULLong],
        (IntegerBase::Decimal, IntegerSuffix::LongLong) => &[IntType::LLong],
        (_, IntegerSuffix::LongLong) => &[IntType::LLong, IntType::ULLong],
        (_, IntegerSuffix::UnsignedLongLong) => &[IntType::ULLong],
    }
}

/// Whether the type holds the number.
pub fn holds(t: IntType, number: i128) -> bool
    ensures { result ≡ holds t number }
{
    let (least, greatest) = int_range(t);
    least <= number && number <= greatest
}

fn holds_unsigned(t: IntType, number: u128) -> bool
    ensures { result ≡ holds t (pos number) }
{
    number <= int_range(t).1 as u128
}

/// The type of an integer constant, none where no type that it may have holds it.
pub fn constant_type(constant: IntegerConstant) -> Option<IntType>
    ensures { result ≡ constant_type constant }
{
    candidates(constant.base, constant.suffix)
        .iter()
        .copied()
        .find(|t| holds_unsigned(*t, constant.value))
}

/// The value of a constant of a promoted type behind a minus sign.
pub fn negated(t: IntType, number: i128) -> i128
    requires { IsInRange t number }
    ensures value { result ≡ negated t number }
    ensures in_range { IsInRange t result }
{
    convert(t, -number)
}

/// A number converted to a type; where that is no integer type, the number as it is.
pub fn converted(to: &CType, number: i128) -> i128
    ensures { result ≡ converted to.now number }
{
    match to {
        CType::Bool => i128::from(convert_to_bool(number)),
        CType::Integer(t) => convert(*t, number),
        _ => number,
    }
}

/// The least and the greatest number of an integer type.
pub fn range_of(t: &CType) -> Option<(i128, i128)>
    ensures { result ≡ range_of t.now }
{
    match t {
        CType::Bool => Some((0, 1)),
        CType::Integer(t) => Some(int_range(*t)),
        _ => None,
    }
}
