//! The reader of whole C files (C11 6.9): from tokens to the tree that the grammar gives them, or why there is none.
//! The layers below read expressions, declarations and statements; a user of the tree calls `parse`.
#![tactic(auto)]

mod items;
mod parser;
#[cfg(test)]
mod tests;

pub use c_cursor::{LeftOut, ParseRefusal};
pub use parser::parse;
