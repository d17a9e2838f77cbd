ghost use Rattle.std.specs.Prelude.{◌≡◌, ◌+◌, ◌<◌, ◌≤◌, length, slice_index, cond};
ghost use Rattle.c_lexer.specs.Floating.{is_exponent_mark, is_sign, is_floating_suffix, IsExponent, IsFloating};
ghost use Rattle.c_lexer.specs.Scanning.Numbers.{IsLongest, IsSignificand, IsLongestScaled, is_suffixed, is_marked};

use crate::integer::{begins_hexadecimal, digits_length};
use crate::token::IntegerBase;

fn is_exponent_mark(base: IntegerBase, byte: u8) -> bool
    ensures { result ≡ is_exponent_mark base byte }
{
    match base {
        IntegerBase::Decimal => byte == b'e' || byte == b'E',
        IntegerBase::Octal => false,
        IntegerBase::Hexadecimal => byte == b'p' || byte == b'P',
    }
}

fn is_sign(byte: u8) -> bool
    ensures { result ≡ is_sign byte }
{
    byte == b'+' || byte == b'-'
}

fn is_floating_suffix(byte: u8) -> bool
    ensures { result ≡ is_floating_suffix byte }
{
    byte == b'f' || byte == b'F' || byte == b'l' || byte == b'L'
}

/// The length of the longest exponent that begins the bytes, or 0.
fn exponent_length(base: IntegerBase, bytes: &[u8]) -> usize
    ensures { IsLongest (IsExponent base) bytes.now result }
{
    if bytes.is_empty() {
        return 0;
    }
    if !is_exponent_mark(base, bytes[0]) {
        return 0;
    }
    let start = exponent_start(bytes);
    let digits = digits_length(IntegerBase::Decimal, &bytes[start..]);
    if digits == 0 { 0 } else { start + digits }
}

/// Where an exponent's digits begin, behind its mark and perhaps a sign.
fn exponent_start(bytes: &[u8]) -> usize
    requires { 0 < length bytes.now }
    ensures start { result ≡ cond (is_sign (slice_index bytes.now 1)) 2 1 }
    ensures within { result ≤ length bytes.now }
{
    if bytes.len() < 2 {
        1
    } else if is_sign(bytes[1]) {
        2
    } else {
        1
    }
}

/// The length of the suffix that begins the bytes, or 0.
fn suffix_length(bytes: &[u8]) -> usize
    ensures { result ≡ cond (is_suffixed bytes.now) 1 0 }
{
    match bytes.first() {
        Some(byte) if is_floating_suffix(*byte) => 1,
        _ => 0,
    }
}

/// Digits of a base with a point among them, or none.
#[derive(Clone, Copy, Debug)]
struct Significand {
    /// How many digits there are.
    digits: usize,
    pointed: bool,
    /// How many bytes, the point included.
    length: usize,
}

/// The longest run of digits with at most one point that begins the bytes.
fn digits_and_point(base: IntegerBase, bytes: &[u8]) -> Significand
    ensures { IsSignificand base bytes.now result }
{
    let whole = digits_length(base, bytes);
    if whole < bytes.len() {
        if bytes[whole] == b'.' {
            let fraction = digits_length(base, &bytes[whole + 1..]);
            return Significand {
                digits: whole + fraction,
                pointed: true,
                length: whole + 1 + fraction,
            };
        }
    }
    Significand {
        digits: whole,
        pointed: false,
        length: whole,
    }
}

/// Whether digits are a floating constant with an exponent of this length: a hexadecimal one needs an
/// exponent, a decimal one an exponent or a point.
fn is_marked(base: IntegerBase, significand: Significand, exponent: usize) -> bool
    ensures { result ≡ is_marked base significand exponent }
{
    match base {
        IntegerBase::Decimal => significand.digits > 0 && (exponent > 0 || significand.pointed),
        IntegerBase::Octal => significand.digits > 0 && exponent > 0,
        IntegerBase::Hexadecimal => significand.digits > 0 && exponent > 0,
    }
}

/// The length of the longest floating constant that begins the bytes, a hexadecimal prefix left aside,
/// or 0.
fn scaled_length(base: IntegerBase, bytes: &[u8]) -> usize
    ensures { IsLongestScaled base bytes.now result }
{
    let significand = digits_and_point(base, bytes);
    let exponent = exponent_length(base, &bytes[significand.length..]);
    if !is_marked(base, significand, exponent) {
        return 0;
    }
    let end = significand.length + exponent;
    end + suffix_length(&bytes[end..])
}

/// The length of the longest floating constant that begins the bytes (C11 6.4.4.2), or 0.
pub(crate) fn floating_length(bytes: &[u8]) -> usize
    ensures { IsLongest IsFloating bytes.now result }
{
    if !begins_hexadecimal(bytes) {
        return scaled_length(IntegerBase::Decimal, bytes);
    }
    let length = scaled_length(IntegerBase::Hexadecimal, &bytes[2..]);
    if length == 0 { 0 } else { length + 2 }
}
