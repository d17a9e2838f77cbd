//! The text of a Caesium program: `print` gives it, and `print_op` the part that is one operation's or block end's.
#![tactic(auto)]

mod declarations;
mod functions;
mod naming;
mod parts;
mod printing;
#[cfg(test)]
mod tests;

pub use parts::print_op;
pub use printing::print;
