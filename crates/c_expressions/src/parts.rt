use c_cursor::Deep;
use c_lexer::Keyword;
use c_syntax::{Expr, TypeSpecifier};
use sqlite_items::{Boxed, Items};

/// What an expression begins with, and its category.
#[derive(Debug, Drop)]
pub struct Begun {
    pub deep: Deep<Boxed<Expr>>,
    pub level: u8,
}

/// The type that a type's name or a declaration begins with, and the words beside it.
#[derive(Debug, Drop)]
pub struct Specified {
    pub words: Items<Keyword>,
    pub specifier: Deep<TypeSpecifier>,
}
