//! Statements of C files (C11 6.8), read by a cursor. Each call answers the trees that the reading functions of the
//! grammar give, with the depth of the deepest, or a refusal where they give none. Statements nest 200 times at most.
#![tactic(auto)]

mod bodies;
mod children;
mod heads;
mod labels;
mod nesting;
mod nodes;
mod position;
mod productions;

pub use bodies::function_body;
