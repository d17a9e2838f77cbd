//! The trees of C files, as the profile of C has them, and the statements that paths name. A tree is plain
//! data: one case for each production of the grammar, with the places that later faults and goals need.
//! The words that are read and ignored (`const`, `restrict`, `inline`, and `static` and `extern` at file
//! scope) stand in no tree. The layer above builds trees, and those above it walk them.
#![tactic(auto)]

mod attribute;
mod declaration;
mod declarator;
mod expr;
mod name;
mod operator;
mod path;
mod specifier;
mod stmt;
#[cfg(test)]
mod tests;
mod unit;

pub use attribute::{Attribute, AttributeText};
pub use c_lexer::{AtomicOperation, HeaderType, Include};
pub use declaration::{Declaration, DeclarationKind, InitDeclarator};
pub use declarator::{
    AbstractDeclarator, Declarator, FunctionDeclarator, Parameter, ParameterDeclarator,
};
pub use expr::{Expr, ExprKind, TypeName};
pub use name::Name;
pub use operator::{
    AssignmentOperator, BinaryOperator, IncrementOperator, LogicalOperator, UnaryOperator,
};
pub use path::{Path, stmt_at};
pub use specifier::{
    EnumDefinition, Enumerator, IntegerType, MemberDeclaration, RecordDefinition, RecordKind,
    TypeSpecifier,
};
pub use stmt::{ForInit, Label, Stmt, StmtKind};
pub use unit::{FunctionDefinition, Item, ItemKind, Unit};
