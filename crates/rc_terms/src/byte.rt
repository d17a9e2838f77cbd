use crate::location::Loc;

/// A byte of memory or of a value (RefinedC, PLDI 2021): a plain byte, one of the eight fragments of a
/// location, which count from 0 with the least significant first, or poison, which no operation may use.
#[derive(Clone, Copy, Debug, PartialEq, Eq, Hash)]
pub enum MByte {
    Byte(u8),
    Frag(Loc, u8),
    Poison,
}
