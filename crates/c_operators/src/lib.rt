//! What each operator of C asks of the types of its operands, and the type that it gives: one rule of C11 6.5 a
//! function. A rule says a type, or what is wrong with the operands. The layer above asks it at each node of a tree
//! whose parts have types.
#![tactic(auto)]

mod assignment;
mod binary;
mod operand;
#[cfg(test)]
mod tests;
mod unary;

pub use assignment::{assigned_type, assignment_type};
pub use binary::{binary_type, choice_type, logical_type, subscript_type};
pub use c_syntax::{AssignmentOperator, BinaryOperator};
pub use c_types::CType;
pub use operand::{Operand, OperandFault, Typing, pointed_type};
pub use unary::{cast_type, measure_type, not_type, sign_type, step_type};
