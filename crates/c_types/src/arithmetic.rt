ghost use Rattle.std.specs.Prelude.{◌≡◌};
ghost use Rattle.layouts.specs.IntType.{is_signed};
ghost use Rattle.c_types.specs.Arithmetic.{rank, holds_all, promoted, unsigned_of, of_higher_rank, of_mixed, common};
ghost use Rattle.c_types.specs.Arithmetic.{promoted_type, arithmetic_type};

use crate::ctype::CType;
use layouts::{IntType, int_range};

fn rank(t: IntType) -> u32
    ensures { result ≡ rank t }
{
    match t {
        IntType::Char | IntType::SChar | IntType::UChar => 1,
        IntType::Short | IntType::UShort => 2,
        IntType::Int | IntType::UInt => 3,
        IntType::Long | IntType::ULong => 4,
        IntType::LLong | IntType::ULLong => 5,
    }
}

fn is_signed(t: IntType) -> bool
    ensures { result ≡ is_signed t }
{
    int_range(t).0 < 0
}

fn holds_all(wide: IntType, narrow: IntType) -> bool
    ensures { result ≡ holds_all wide narrow }
{
    let (least, greatest) = int_range(wide);
    let (low, high) = int_range(narrow);
    least <= low && high <= greatest
}

fn unsigned_of(t: IntType) -> IntType
    ensures { result ≡ unsigned_of t }
{
    match t {
        IntType::Char | IntType::SChar => IntType::UChar,
        IntType::Short => IntType::UShort,
        IntType::Int => IntType::UInt,
        IntType::Long => IntType::ULong,
        IntType::LLong => IntType::ULLong,
        _ => t,
    }
}

/// The integer promotion of a type.
pub fn promoted(t: IntType) -> IntType
    ensures { result ≡ promoted t }
{
    if rank(t) >= rank(IntType::Int) {
        return t;
    }
    if holds_all(IntType::Int, t) {
        IntType::Int
    } else {
        IntType::UInt
    }
}

fn of_higher_rank(left: IntType, right: IntType) -> IntType
    ensures { result ≡ of_higher_rank left right }
{
    if rank(left) < rank(right) {
        right
    } else {
        left
    }
}

fn of_mixed(with_sign: IntType, without: IntType) -> IntType
    ensures { result ≡ of_mixed with_sign without }
{
    if rank(with_sign) <= rank(without) {
        return without;
    }
    if holds_all(with_sign, without) {
        with_sign
    } else {
        unsigned_of(with_sign)
    }
}

fn common(left: IntType, right: IntType) -> IntType
    ensures { result ≡ common left right }
{
    match (is_signed(left), is_signed(right)) {
        (true, false) => of_mixed(left, right),
        (false, true) => of_mixed(right, left),
        _ => of_higher_rank(left, right),
    }
}

/// The promoted type of an operand of this type, none where it is no integer.
pub fn promoted_type(operand: &CType) -> Option<IntType>
    ensures { result ≡ promoted_type operand.now }
{
    match operand {
        CType::Bool => Some(IntType::Int),
        CType::Integer(t) => Some(promoted(*t)),
        _ => None,
    }
}

/// The type to which the operands of an arithmetic operator are converted, none where one is no integer.
pub fn arithmetic_type(left: &CType, right: &CType) -> Option<IntType>
    ensures { result ≡ arithmetic_type left.now right.now }
{
    let left = promoted_type(left)?;
    let right = promoted_type(right)?;
    Some(common(left, right))
}
