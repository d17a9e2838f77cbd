use crate::attribute::Attribute;
use crate::declaration::Declaration;
use crate::declarator::FunctionDeclarator;
use crate::specifier::TypeSpecifier;
use crate::stmt::Stmt;
use c_lexer::Include;
use rc_text::Place;
use sqlite_items::Items;

/// A function with its body, a compound (C11 6.9.1). A fault or goal about the function as a whole stands at
/// the declarator's name.
#[derive(Debug, Drop)]
pub struct FunctionDefinition {
    pub specifier: TypeSpecifier,
    pub declarator: FunctionDeclarator,
    pub body: Stmt,
}

/// C11's external-declaration by its production.
#[derive(Debug, Drop)]
pub enum ItemKind {
    Function(FunctionDefinition),
    Declaration(Declaration),
}

/// A declaration or definition at file scope. `place` is that of its first token behind its attributes.
#[derive(Debug, Drop)]
pub struct Item {
    pub place: Place,
    pub attributes: Items<Attribute>,
    pub kind: ItemKind,
}

/// A whole file (C11 6.9, translation-unit), which may be empty.
#[derive(Debug, Drop)]
pub struct Unit {
    pub includes: Items<Include>,
    pub items: Items<Item>,
}
