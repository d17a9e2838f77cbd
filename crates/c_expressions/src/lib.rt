//! Expressions of C files and the types that stand in them (C11 6.5, 6.7.7), read by a cursor up to a depth of 200.
//! Each call answers the tree that the reading functions of the grammar give, with its depth, or a refusal where they
//! give none. Declarations and statements read the expressions and types in them by these calls.
#![tactic(auto)]

mod expressions;
mod grammar;
mod nodes;
mod parts;
mod types;
mod words;

pub use expressions::{expression, lengths, single_by, specified};
pub use parts::{Begun, Specified};
pub use words::{all_qualifiers, integers, single_node};

#[cfg(test)]
mod tests;
