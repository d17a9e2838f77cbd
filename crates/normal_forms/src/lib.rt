//! One form for what is equal by the laws of rings: an order of all terms, negations pushed inwards, and terms in
//! normal form. The layers above compare terms, sizes and offsets by it.
#![tactic(auto)]

mod expansion;
mod failure;
mod folding;
mod key;
mod laws;
mod location;
mod negation;
mod node;
mod normal;
mod order;
mod polynomial;
mod product;
mod proposition;
mod sum;
mod summand;

pub use laws::{
    equal_locations_have_one_normal_form, equal_polynomials_have_one_normal_form,
    expanding_keeps_values, normal_props_are_their_own, normal_props_keep_sorts,
    normal_props_keep_truth, normal_sums_are_their_own, normal_sums_keep_values,
    normal_terms_are_their_own, normal_terms_keep_sorts, normal_terms_keep_values, offsets_add_up,
    pushing_negations_keeps_truth, terms_are_in_one_order,
};
pub use normal::normal_term;
pub use order::compare_terms;
pub use proposition::normal_prop;
pub use sum::normal_sum;
pub use summand::Summand;

#[cfg(test)]
mod tests;
