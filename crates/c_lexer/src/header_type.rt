/// A type that a header gives under its name (C11 7.19, 7.20.1.1, 7.17.6).
#[derive(Clone, Copy, Debug, PartialEq, Eq, Hash)]
pub enum HeaderType {
    Size,
    Int8,
    Int16,
    Int32,
    Int64,
    Uint8,
    Uint16,
    Uint32,
    Uint64,
    AtomicBool,
}
