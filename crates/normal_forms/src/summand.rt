//! Sums of products of opaque terms.
use rc_terms::Term;
use shared_values::Shared;
use sqlite_items::Items;
use whole_numbers::Whole;

/// A product of terms that are opaque to the laws of rings, with a whole factor.
#[derive(Debug, Drop)]
pub struct Summand {
    pub factor: Whole,
    pub product: Items<Shared<Term>>,
}
