use crate::operation::PlacedOp;
use crate::reference::Reference;
use layouts::IntType;
use rc_text::{Bytes, Place};
use sqlite_items::Items;

/// A number on which a `switch` goes on with the block of the label.
#[derive(Debug, Drop)]
pub struct Case {
    pub value: i128,
    pub label: Reference,
}

/// How a block ends. A label names a block of the same function.
#[derive(Debug, Drop)]
pub enum End {
    /// Goes on with the block of the label.
    Goto(Reference),
    /// Pops an integer or bool, and goes on with the first label where it isn't zero, else with the second.
    If {
        nonzero: Reference,
        zero: Reference,
    },
    /// Pops an integer of the type, and goes on with the first case of its number, else with `otherwise`.
    Switch {
        of: IntType,
        cases: Items<Case>,
        otherwise: Reference,
    },
    /// Leaves the function, with the top of the row where it has a result.
    Return,
}

/// A block: its label, its operations in order, and its end with the place that it comes from.
#[derive(Debug, Drop)]
pub struct Block {
    pub label: Bytes,
    pub operations: Items<PlacedOp>,
    pub end: End,
    pub end_place: Place,
}
