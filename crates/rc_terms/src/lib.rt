//! The language in which annotations speak of numbers, truth values, locations, lists and values of memory: terms, what
//! they mean, and terms with a name replaced. The layers above write terms, and use `eval` and `subst`. Certificates
//! and bytes of memory stand here too, as plain data that several crates share.
#![tactic(auto)]

mod bindings;
mod byte;
mod cert;
mod equality;
mod evaluation;
mod laws;
mod lists;
mod location;
mod name;
mod numbers;
mod operations;
mod operator;
mod refusal;
mod size;
mod sort;
mod sorting;
mod substitution;
mod term;
mod value;

pub use bindings::{Bindings, Env};
pub use byte::MByte;
pub use cert::{Cert, CertEntry};
pub use equality::is_same_term;
pub use evaluation::eval;
pub use laws::{
    substituting_is_binding, substituting_keeps_sorts, well_sorted_terms_have_values_of_their_sort,
};
pub use location::Loc;
pub use name::Name;
pub use operator::{BinaryOperator, UnaryOperator};
pub use refusal::TermRefusal;
pub use size::{NODE_LIMIT, is_within_limit};
pub use sort::{Binder, Sort, Sorts};
pub use sorting::sort_of;
pub use substitution::subst;
pub use term::{Prop, Term};
pub use value::TermValue;

#[cfg(test)]
mod tests;
