use crate::bindings::Bindings;
use crate::name::Name;

/// What kind of value a term has.
#[derive(Clone, Copy, Debug, PartialEq, Eq, Hash)]
pub enum Sort {
    /// A whole number.
    Int,
    /// A truth value.
    Bool,
    /// A location.
    Loc,
    /// A list of whole numbers.
    List,
    /// A value of memory: bytes as a place holds them. No text names this sort.
    Val,
}

/// Names with their sorts.
pub type Sorts = Bindings<Sort>;

/// A name that is bound with its sort, as `n: nat`. Where `nat` is true the number isn't negative.
#[derive(Debug, Drop)]
pub struct Binder {
    pub name: Name,
    pub sort: Sort,
    pub nat: bool,
}
