ghost use Rattle.std.specs.Prelude.{◌≡◌, ◌≢◌, ◌^◌, ℤ, pos, IsTrue, ◌↔◌};
ghost use Rattle.layouts.specs.IntType.{is_signed as has_sign, IsInRange};
ghost use Rattle.int_ops.specs.Arithmetic.{width_of, low_bits as bits_of, wrapped};

use layouts::{IntType, int_range, size_of_int};

/// The number of the type with the same low bits (C11 6.3.1.3; gcc keeps the low bits also where the type is signed).
pub fn convert(to: IntType, n: i128) -> i128
    ensures value { result ≡ wrapped to n }
    ensures in_range { IsInRange to result }
{
    let low = i128::from(low_bits(to, n));
    let (_, greatest) = int_range(to);
    if low <= greatest {
        low
    } else {
        low - modulus(to)
    }
}

/// What a conversion to `_Bool` gives (C11 6.3.1.2).
pub fn convert_to_bool(n: i128) -> bool
    ensures { IsTrue result ↔ (n ≢ pos 0) }
{
    n != 0
}

/// The low bits of a number in two's complement, as many as the type has.
pub(crate) fn low_bits(t: IntType, n: i128) -> u64
    ensures { result ≡ bits_of t n }
{
    n.rem_euclid(modulus(t)) as u64
}

/// 2 to the width of the type.
pub(crate) fn modulus(t: IntType) -> i128
    ensures { result ≡ pos (2 ^ width_of t) }
{
    match t {
        IntType::Char | IntType::SChar | IntType::UChar => 0x100,
        IntType::Short | IntType::UShort => 0x1_0000,
        IntType::Int | IntType::UInt => 0x1_0000_0000,
        IntType::Long | IntType::ULong => 0x1_0000_0000_0000_0000,
        IntType::LLong | IntType::ULLong => 0x1_0000_0000_0000_0000,
    }
}

/// How many bits a number of the type has.
pub(crate) fn width(t: IntType) -> u32
    ensures { result ≡ width_of t }
{
    8 * size_of_int(t)
}

/// Whether the type has negative numbers.
pub(crate) fn is_signed(t: IntType) -> bool
    ensures { result ≡ has_sign t }
{
    int_range(t).0 < 0
}
