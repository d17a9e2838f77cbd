/// How a byte of an open block is kept: a plain byte, poison, or the place of its own that has the byte.
#[derive(Clone, Copy, Debug)]
pub enum Cell {
    Plain(u8),
    Poison,
    Wide(u32),
}
