//! Rows `0 <= sum` and `0 = sum` over unknowns, solved over the fractions by elimination of the unknowns (Fourier
//! 1826, Motzkin 1936). The layer above hands rows to `solve`, and gets a certificate that no fractions meet them all,
//! a model that does, or the limit that was passed. `specs/Solutions.antt` says what the answer is and what it is
//! worth; below it stand `specs/Levels.antt`, the elimination, and `specs/Models.antt`, the way back.
#![tactic(auto)]

mod derived;
mod elimination;
mod fraction;
mod laws;
mod level;
mod level_rows;
mod limit;
mod model;
mod numbers;
mod row_parts;
mod solution;
mod step;
mod unknowns;

pub use derived::Derived;
pub use elimination::eliminate;
pub use fraction::Fraction;
pub use laws::{
    certificates_are_valid, failing_rows_give_valid_certificates, models_meet_all_rows,
    refuted_rows_are_closed,
};
pub use limit::{Limit, SolveRefusal};
pub use model::{Model, UnknownValue};
pub use numbers::Numbers;
pub use solution::{Solved, solve};
pub use step::{Eliminated, Step};

#[cfg(test)]
mod tests;
