/// Where a pointer points (RefinedC, PLDI 2021): nowhere, or at a byte of a block of memory. A block is
/// named by its number, and `offset` counts bytes from the block's first byte.
#[derive(Clone, Copy, Debug, PartialEq, Eq, Hash)]
pub enum Loc {
    Null,
    At { block: u64, offset: i128 },
}
