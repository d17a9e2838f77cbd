//! The types of C and all that is said of types alone: the integer promotions and the usual arithmetic conversions, the
//! types of integer constants, which values convert to which types, which may be compared, and how types lie in memory.
//! The layer above says what types the names and expressions of a file have.
#![tactic(auto)]

mod arithmetic;
mod complete;
mod constant;
mod conversion;
mod ctype;
#[cfg(test)]
mod tests;

pub use arithmetic::{arithmetic_type, promoted, promoted_type};
pub use complete::{Unsized, missing_record, type_layout};
pub use constant::{constant_type, converted, holds, negated, range_of};
pub use conversion::{are_comparable, are_like_pointers, casts, conditional_type, converts};
pub use ctype::CType;
