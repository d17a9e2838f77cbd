//! The operators of C on its integer types, in numbers of 128 bits with a sign, and the conversions between the types.
//! The layer above calls `apply` for an operator, `result_type` for the type of what it gives, and `convert` or
//! `convert_to_bool` for a conversion. The table has a cell for each operator at each type.
#![tactic(auto)]

mod arithmetic;
mod cell;
mod conversion;
#[cfg(test)]
mod tests;
mod undefined;

pub use arithmetic::{apply, result_type};
pub use cell::{Cell, table};
pub use conversion::{convert, convert_to_bool};
pub use undefined::OpUb;
