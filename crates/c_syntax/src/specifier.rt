use crate::attribute::Attribute;
use crate::declarator::Declarator;
use crate::expr::Expr;
use crate::name::Name;
use c_lexer::HeaderType;
use sqlite_items::Items;

/// The integer types that keywords name, in whatever order and number of words (C11 6.7.2). `char` is a
/// type of its own.
#[derive(Clone, Copy, Debug, PartialEq, Eq, Hash)]
pub enum IntegerType {
    Char,
    SignedChar,
    UnsignedChar,
    Short,
    UnsignedShort,
    Int,
    UnsignedInt,
    Long,
    UnsignedLong,
    LongLong,
    UnsignedLongLong,
}

/// C11's struct-or-union.
#[derive(Clone, Copy, Debug, PartialEq, Eq, Hash)]
pub enum RecordKind {
    Struct,
    Union,
}

/// The type that a declaration or a type name begins with (C11 6.7.2).
#[cycle(expression)]
#[derive(Debug, Drop)]
pub enum TypeSpecifier {
    Void,
    Bool,
    Integer(IntegerType),
    /// A type that an include gives, by the name that no nearer declaration hides.
    Header(HeaderType),
    /// The name of a typedef in scope.
    Typedef(Name),
    /// A struct or union by its tag, with the attributes before the tag.
    Record {
        kind: RecordKind,
        attributes: Items<Attribute>,
        tag: Name,
    },
    RecordDefinition(RecordDefinition),
    /// An enumeration by its tag.
    Enum {
        attributes: Items<Attribute>,
        tag: Name,
    },
    EnumDefinition(EnumDefinition),
}

/// A struct or union with its members, in the order of the text.
#[cycle(expression)]
#[derive(Debug, Drop)]
pub struct RecordDefinition {
    pub kind: RecordKind,
    pub attributes: Items<Attribute>,
    pub tag: Name,
    pub members: Items<MemberDeclaration>,
}

/// C11's struct-declaration: members of one specified type, with the attributes before it. It has no
/// declarator where it only defines or declares a struct, union or enumeration.
#[cycle(expression)]
#[derive(Debug, Drop)]
pub struct MemberDeclaration {
    pub attributes: Items<Attribute>,
    pub specifier: TypeSpecifier,
    pub declarators: Items<Declarator>,
}

/// An enumeration with its constants, which may have no tag.
#[cycle(expression)]
#[derive(Debug, Drop)]
pub struct EnumDefinition {
    pub attributes: Items<Attribute>,
    pub tag: Option<Name>,
    pub enumerators: Items<Enumerator>,
}

/// A constant of an enumeration. Where no value is written, a fault of its value stands at its name.
#[cycle(expression)]
#[derive(Debug, Drop)]
pub struct Enumerator {
    pub name: Name,
    pub value: Option<Expr>,
}
