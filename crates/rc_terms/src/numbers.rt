//! The operations of terms on numbers of 128 bits: none where the result doesn't fit.
ghost use Rattle.std.specs.Prelude.{◌≡◌};
ghost use Rattle.rc_terms.specs.Numbers.{in_128_bits, quotient as quotient_of, remainder as remainder_of};
ghost use Rattle.rc_terms.specs.Numbers.{shifted_left as left_shift_of, shifted_right as right_shift_of};
ghost use Rattle.rc_terms.specs.Numbers.{bits_of_both, bits_of_either, bits_of_one, divides as divides_of};
ghost use Rattle.std.specs.Prelude.{neg_ℤ, pos, ◌^◌, ◌+ℤ◌, ◌-ℤ◌, ◌*ℤ◌};

pub fn negated(a: i128) -> Option<i128>
    ensures { result ≡ in_128_bits (neg_ℤ a) }
{
    a.checked_neg()
}

pub fn sum(a: i128, b: i128) -> Option<i128>
    ensures { result ≡ in_128_bits (a +ℤ b) }
{
    a.checked_add(b)
}

pub fn difference(a: i128, b: i128) -> Option<i128>
    ensures { result ≡ in_128_bits (a -ℤ b) }
{
    a.checked_sub(b)
}

pub fn product(a: i128, b: i128) -> Option<i128>
    ensures { result ≡ in_128_bits (a *ℤ b) }
{
    a.checked_mul(b)
}

/// Only the least number by -1 doesn't fit.
pub fn quotient(a: i128, b: i128) -> Option<i128>
    ensures { result ≡ in_128_bits (quotient_of a b) }
{
    if b == 0 { Some(0) } else { a.checked_div(b) }
}

pub fn remainder(a: i128, b: i128) -> i128
    ensures { result ≡ remainder_of a b }
{
    if b == 0 || b == -1 { 0 } else { a % b }
}

/// A number times a power of two. The power is halved first, since the least number times 2 ^ 127 fits.
fn scaled(a: i128, places: u32) -> Option<i128>
    ensures { result ≡ in_128_bits (a *ℤ pos (2 ^ places)) }
{
    if a == 0 || places == 0 {
        return Some(a);
    }
    let half = power_of_two(places - 1)?;
    product(product(a, half)?, 2)
}

fn power_of_two(places: u32) -> Option<i128>
    ensures { result ≡ in_128_bits (pos (2 ^ places)) }
{
    2i128.checked_pow(places)
}

pub fn shifted_left(a: i128, b: i128) -> Option<i128>
    ensures { result ≡ in_128_bits (left_shift_of a b) }
{
    if b < 0 {
        Some(0)
    } else if b < 128 {
        scaled(a, b as u32)
    } else if a == 0 {
        Some(0)
    } else {
        None
    }
}

/// Past 127 places the sign alone is left.
pub fn shifted_right(a: i128, b: i128) -> i128
    ensures { result ≡ right_shift_of a b }
{
    match b {
        i128::MIN..=-1 => 0,
        0..=126 => a >> (b as u32),
        _ => a >> 127,
    }
}

pub fn bit_and(a: i128, b: i128) -> i128
    ensures { result ≡ bits_of_both a b }
{
    a & b
}

pub fn bit_or(a: i128, b: i128) -> i128
    ensures { result ≡ bits_of_either a b }
{
    a | b
}

pub fn bit_xor(a: i128, b: i128) -> i128
    ensures { result ≡ bits_of_one a b }
{
    a ^ b
}

pub fn divides(a: i128, b: i128) -> bool
    ensures { result ≡ divides_of a b }
{
    if a == 0 {
        b == 0
    } else {
        a == -1 || b % a == 0
    }
}
