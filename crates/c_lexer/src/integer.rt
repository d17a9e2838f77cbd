ghost use Rattle.std.specs.Prelude.{◌≡◌, ℕ, ◌+◌, ◌*◌, ◌^◌, ◌<◌, ◌≤◌, [], ◌∷◌, length, take, drop, IsTrue, IfSome};
ghost use Rattle.std.specs.Prelude.{IfNone, MatchOption};
ghost use Rattle.std.specs.List.{prefix_len, list_all};
ghost use Rattle.std.specs.Char.{digit_value};
ghost use Rattle.std.specs.Str.Parse.{digits_value};
ghost use Rattle.c_lexer.specs.declared.token.IntegerConstant.{IntegerConstant};
ghost use Rattle.c_lexer.specs.Integers.{radix, is_digit_of, is_u, is_l, suffix_of, HasPrefix, IsInteger};
ghost use Rattle.c_lexer.specs.Scanning.Numbers.{IsBase, begins_hexadecimal, begins_octal};

use crate::byte::{byte_at, is_digit, is_hexadecimal_digit, is_octal_digit};
use crate::token::{IntegerBase, IntegerConstant, IntegerSuffix};

pub(crate) fn is_digit_of(base: IntegerBase, byte: u8) -> bool
    ensures { result ≡ is_digit_of base byte }
{
    match base {
        IntegerBase::Decimal => is_digit(byte),
        IntegerBase::Octal => is_octal_digit(byte),
        IntegerBase::Hexadecimal => is_hexadecimal_digit(byte),
    }
}

/// How many digits of the base the bytes begin with.
pub(crate) fn digits_length(base: IntegerBase, bytes: &[u8]) -> usize
    ensures length { result ≡ prefix_len (is_digit_of base) bytes.now }
    ensures within { result ≤ length bytes.now }
{
    for (index, byte) in bytes.iter().enumerate() {
        if !is_digit_of(base, *byte) {
            return index;
        }
    }
    bytes.len()
}

fn radix(base: IntegerBase) -> u128
    ensures { result ≡ radix base }
{
    match base {
        IntegerBase::Decimal => 10,
        IntegerBase::Octal => 8,
        IntegerBase::Hexadecimal => 16,
    }
}

/// The value of a digit of the base.
fn digit(base: IntegerBase, byte: u8) -> u8
    requires { IsTrue (is_digit_of base byte) }
    ensures { result ≡ digit_value byte }
{
    if is_digit(byte) {
        byte - b'0'
    } else if byte <= b'F' {
        byte - b'A' + 10
    } else {
        byte - b'a' + 10
    }
}

/// The value of digits of the base, if it fits 128 bits.
fn digits_value(base: IntegerBase, digits: &[u8]) -> Option<u128>
    requires { IsTrue (list_all (is_digit_of base) digits.now) }
    ensures { MatchOption result (2 ^ 128 ≤ digits_value (radix base) digits.now)
        (λ value. (value ≡ digits_value (radix base) digits.now) × (value < 2 ^ 128)) }
{
    let mut value: u128 = 0;
    for byte in digits {
        value = with_digit(value, radix(base), digit(base, *byte))?;
    }
    Some(value)
}

/// The number with one more digit behind it, if it fits 128 bits.
fn with_digit(value: u128, radix: u128, digit: u8) -> Option<u128>
    ensures { MatchOption result (2 ^ 128 ≤ value * radix + digit)
        (λ next. (next ≡ value * radix + digit) × (next < 2 ^ 128)) }
{
    value.checked_mul(radix)?.checked_add(u128::from(digit))
}

fn is_u(byte: u8) -> bool
    ensures { result ≡ is_u byte }
{
    byte == b'u' || byte == b'U'
}

fn is_l(byte: u8) -> bool
    ensures { result ≡ is_l byte }
{
    byte == b'l' || byte == b'L'
}

/// What a suffix asks for.
fn suffix_of(suffix: &[u8]) -> Option<IntegerSuffix>
    ensures { result ≡ suffix_of suffix.now }
{
    match *suffix {
        [] => Some(IntegerSuffix::Plain),
        [a] => suffix_of_one(a),
        [a, b] => suffix_of_two(a, b),
        [a, b, c] => suffix_of_three(a, b, c),
        _ => None,
    }
}

fn suffix_of_one(a: u8) -> Option<IntegerSuffix>
    ensures { result ≡ suffix_of (a ∷ []) }
{
    if is_u(a) {
        Some(IntegerSuffix::Unsigned)
    } else if is_l(a) {
        Some(IntegerSuffix::Long)
    } else {
        None
    }
}

fn suffix_of_two(a: u8, b: u8) -> Option<IntegerSuffix>
    ensures { result ≡ suffix_of (a ∷ b ∷ []) }
{
    if (is_u(a) && is_l(b)) || (is_l(a) && is_u(b)) {
        Some(IntegerSuffix::UnsignedLong)
    } else if is_l(a) && a == b {
        Some(IntegerSuffix::LongLong)
    } else {
        None
    }
}

fn suffix_of_three(a: u8, b: u8, c: u8) -> Option<IntegerSuffix>
    ensures { result ≡ suffix_of (a ∷ b ∷ c ∷ []) }
{
    if (is_u(a) && is_l(b) && b == c) || (is_l(a) && a == b && is_u(c)) {
        Some(IntegerSuffix::UnsignedLongLong)
    } else {
        None
    }
}

/// The base of what begins like a number, and how many bytes its prefix has.
fn base_of(word: &[u8]) -> (IntegerBase, usize)
    ensures base { IsBase word.now result.0 result.1 }
    ensures within { result.1 ≤ length word.now }
{
    if begins_hexadecimal(word) {
        (IntegerBase::Hexadecimal, 2)
    } else if begins_octal(word) {
        (IntegerBase::Octal, 0)
    } else {
        (IntegerBase::Decimal, 0)
    }
}

/// Whether a zero and a further digit begin the bytes.
fn begins_octal(bytes: &[u8]) -> bool
    ensures { result ≡ begins_octal bytes.now }
{
    byte_at(bytes, 0) == b'0' && is_digit(byte_at(bytes, 1))
}

/// Whether the bytes begin with `0x` or `0X`.
pub(crate) fn begins_hexadecimal(bytes: &[u8]) -> bool
    ensures { result ≡ begins_hexadecimal bytes.now }
{
    let second = byte_at(bytes, 1);
    byte_at(bytes, 0) == b'0' && (second == b'x' || second == b'X')
}

/// The integer constant that is spelled so (C11 6.4.4.1).
pub(crate) fn integer(word: &[u8]) -> Option<IntegerConstant>
    ensures found { IfSome result (λ constant. IsInteger constant word.now) }
    ensures none { IfNone result ((constant : IntegerConstant) → IsInteger constant word.now → ⊥) }
{
    let (base, start) = base_of(word);
    let rest = &word[start..];
    let count = digits_length(base, rest);
    if count == 0 {
        return None;
    }
    let suffix = suffix_of(&rest[count..])?;
    let value = digits_value(base, &rest[..count])?;
    Some(IntegerConstant {
        value,
        base,
        suffix,
    })
}
