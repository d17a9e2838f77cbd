use rc_text::Bytes;

/// What a declaration makes of an ordinary identifier (C11 6.2.3): the name of a type, or of an object, a
/// function or a constant of an enumeration.
#[derive(Clone, Copy, Debug, PartialEq, Eq, Hash)]
pub enum NameKind {
    Typedef,
    Ordinary,
}

/// A declared ordinary identifier.
#[derive(Debug, Drop)]
pub struct NameEntry {
    pub name: Bytes,
    pub kind: NameKind,
}
