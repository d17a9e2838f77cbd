use crate::int_type::IntType;

/// How a value of a type lies in memory.
#[derive(Clone, Copy, Debug, PartialEq, Eq, Hash)]
pub enum Layout {
    Int(IntType),
    /// `_Bool`
    Bool,
    /// A pointer to any type.
    Ptr,
    /// The struct that the table has under this number.
    Struct(u32),
    /// The union that the table has under this number.
    Union(u32),
    /// An array, of which only the size and the alignment in bytes count.
    Bytes { size: u32, align: u32 },
}
