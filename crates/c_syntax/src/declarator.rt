use crate::expr::Expr;
use crate::name::Name;
use crate::specifier::TypeSpecifier;
use sqlite_items::Items;

/// A declared name with the `*`s before it and the array lengths behind it (C11 6.7.6): the type is that of
/// an array of the first length, of arrays of the second, and so on, of pointers.
#[cycle(expression)]
#[derive(Debug, Drop)]
pub struct Declarator {
    /// How many `*` are written.
    pub pointers: usize,
    pub name: Name,
    /// Each a constant expression, at which a fault of the length stands.
    pub lengths: Items<Expr>,
}

/// A declarator without its name (C11 6.7.7), perhaps of nothing at all.
#[cycle(expression)]
#[derive(Debug, Drop)]
pub struct AbstractDeclarator {
    pub pointers: usize,
    pub lengths: Items<Expr>,
}

/// A parameter's declarator, which in a declaration may lack the name.
#[derive(Debug, Drop)]
pub enum ParameterDeclarator {
    Named(Declarator),
    Unnamed(AbstractDeclarator),
}

/// C11's parameter-declaration.
#[derive(Debug, Drop)]
pub struct Parameter {
    pub specifier: TypeSpecifier,
    pub declarator: ParameterDeclarator,
}

/// A declared function with its parameters, none for `(void)`. `pointers` are those of its result.
#[derive(Debug, Drop)]
pub struct FunctionDeclarator {
    pub pointers: usize,
    pub name: Name,
    pub parameters: Items<Parameter>,
}
