ghost use Rattle.std.specs.Prelude.{◌≡◌, ◌≢◌, ℕ, ◌^◌, ◌<◌, IfSome, IfNone, MatchOption};
ghost use Rattle.std.specs.Fmt.{decimal};
ghost use Rattle.c_lexer.specs.Headers.{plain_decimal};

use crate::integer::integer;
use crate::token::{IntegerBase, IntegerConstant, IntegerSuffix};

/// The value of a decimal number that an `int` holds.
#[derive(Clone, Copy, Debug, PartialEq, Eq, Hash)]
pub struct DecimalConstant {
    pub value: u32,
}

/// The largest value of an `int`.
const MAXIMUM: u128 = 2147483647;

/// The number below 2 ^ 31 whose decimal the spelling is.
pub fn integer_constant(spelling: &[u8]) -> Option<DecimalConstant>
    ensures found { IfSome result (λ constant. (constant.value < 2 ^ 31) × (spelling.now ≡ decimal constant.value)) }
    ensures none { IfNone result ((value : ℕ) → value < 2 ^ 31 → spelling.now ≢ decimal value) }
{
    let constant = integer(spelling)?;
    let value = plain_value(constant)?;
    Some(DecimalConstant { value })
}

/// The value of a decimal constant without a suffix, if an `int` holds it.
fn plain_value(constant: IntegerConstant) -> Option<u32>
    ensures { MatchOption result ((value : ℕ) → constant ≡ plain_decimal value → value < 2 ^ 31 → ⊥)
        (λ value. (constant ≡ plain_decimal value) × (value < 2 ^ 31)) }
{
    match constant {
        IntegerConstant {
            value,
            base: IntegerBase::Decimal,
            suffix: IntegerSuffix::Plain,
        } if value <= MAXIMUM => Some(value as u32),
        _ => None,
    }
}
