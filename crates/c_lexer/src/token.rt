use crate::atomic_operation::AtomicOperation;
use crate::header_type::HeaderType;
use crate::keyword::Keyword;
use crate::punctuator::Punctuator;
use rc_text::{Bytes, Place};

/// How an integer constant's digits are read (C11 6.4.4.1). A zero alone counts as decimal.
#[derive(Clone, Copy, Debug, PartialEq, Eq, Hash)]
pub enum IntegerBase {
    Decimal,
    Octal,
    Hexadecimal,
}

/// What an integer constant's suffix asks for, in whatever spelling: `Plain` is none, `Unsigned` is `u`,
/// `Long` is `l`, `LongLong` is `ll`.
#[derive(Clone, Copy, Debug, PartialEq, Eq, Hash)]
pub enum IntegerSuffix {
    Plain,
    Unsigned,
    Long,
    UnsignedLong,
    LongLong,
    UnsignedLongLong,
}

/// An integer constant (C11 6.4.4.1). Its type is left to a later layer, and no type may hold it.
#[derive(Clone, Copy, Debug, PartialEq, Eq, Hash)]
pub struct IntegerConstant {
    pub value: u128,
    pub base: IntegerBase,
    pub suffix: IntegerSuffix,
}

/// A character constant (C11 6.4.4.4), of type `int`. Its value is at most 126.
#[derive(Clone, Copy, Debug, PartialEq, Eq, Hash)]
pub struct CharacterConstant {
    pub value: u8,
}

/// What kind of token it is, with the value of a constant. A name that a header gives has a kind of its own
/// from the include on: `HeaderType` and `AtomicOperation` are identifiers that the header declares at file
/// scope, so that a local declaration may hide them; what a macro stands for is no identifier any more.
#[derive(Clone, Copy, Debug, PartialEq, Eq, Hash)]
pub enum TokenKind {
    Identifier,
    /// The name of a type that an include gives.
    HeaderType(HeaderType),
    /// The name of an operation that an include gives.
    AtomicOperation(AtomicOperation),
    Keyword(Keyword),
    Integer(IntegerConstant),
    /// A floating constant. No later layer asks for its value.
    Floating,
    Character(CharacterConstant),
    StringLiteral,
    Punctuator(Punctuator),
    /// What `NULL` stands for.
    NullPointer,
}

/// A token: its kind, the place of its first byte, and the text that later layers read. That is the
/// spelling of an identifier (`Identifier`, `HeaderType`, `AtomicOperation`), and of a string with its
/// quotes; every other kind has none. A token that a macro made has the kind that the macro stands for, and
/// the place of the macro's name.
#[derive(Debug, Drop)]
pub struct Token {
    pub kind: TokenKind,
    pub place: Place,
    pub text: Bytes,
}
