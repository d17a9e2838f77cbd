//! Caesium (RefinedC, PLDI 2021): programs as control-flow graphs of blocks, whose operations work on a
//! row of operands. A layer above reads a program by `Program::function` and `Function::block`. Names
//! and labels are bytes.
#![tactic(auto)]

mod block;
mod function;
mod literal;
mod literal_places;
mod operation;
mod program;
mod reference;

pub use block::{Block, Case, End};
pub use function::{Function, Local};
pub use literal::one_literal;
pub use literal_places::LiteralPlaces;
pub use operation::{BinaryOperator, Op, PlacedOp, Scalar};
pub use program::Program;
pub use reference::Reference;
