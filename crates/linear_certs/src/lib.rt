//! Linear certificates: whether rows `0 <= sum`, each times a multiplier, add up to something impossible.
//! The layer above builds rows, and asks `valid` of a certificate; `valid_certificates_refute` is what a
//! yes is worth. `specs/Certificate.antt` is the whole statement, on one page.
#![tactic(auto)]

mod entries;
mod factors;
mod laws;
mod refusal;
mod row;
mod sum;
mod validity;

pub use factors::Factors;
pub use laws::valid_certificates_refute;
pub use refusal::CertRefusal;
pub use row::{Row, RowKind};
pub use validity::valid;

#[cfg(test)]
mod tests;
