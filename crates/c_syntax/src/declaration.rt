use crate::declarator::{Declarator, FunctionDeclarator};
use crate::expr::Expr;
use crate::specifier::TypeSpecifier;
use sqlite_items::Items;

/// A declaration without its attributes (C11 6.7). What holds it has the place of its first token.
#[derive(Debug, Drop)]
pub struct Declaration {
    pub specifier: TypeSpecifier,
    pub kind: DeclarationKind,
}

/// What a declaration declares beside the tags and enumeration constants of its specifier.
#[derive(Debug, Drop)]
pub enum DeclarationKind {
    /// No name, as in `struct s;`.
    TypeOnly,
    /// `typedef`, with at least one name.
    Typedef(Items<Declarator>),
    /// Objects and functions, at least one.
    Names(Items<InitDeclarator>),
}

/// C11's init-declarator. A fault of the initialising expression stands at that expression.
#[derive(Debug, Drop)]
pub enum InitDeclarator {
    Object {
        declarator: Declarator,
        initializer: Option<Expr>,
    },
    Function(FunctionDeclarator),
}
