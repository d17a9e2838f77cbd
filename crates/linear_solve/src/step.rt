use crate::derived::Derived;
use sqlite_items::Items;

/// An unknown that was eliminated, with the rows of its level that have it.
#[derive(Debug, Drop)]
pub struct Step {
    pub unknown: u32,
    pub rows: Items<Derived>,
}

/// What an elimination comes to.
#[derive(Debug, Drop)]
pub enum Eliminated {
    /// A row without unknowns that fails.
    Refuted(Derived),
    /// All unknowns are gone, in this order.
    Steps(Items<Step>),
}
