//! Declared names with their `*`s and array lengths (C11 6.7.6).
ghost use Rattle.c_syntax.specs.Depth.{specifier_depth};
ghost use Rattle.c_grammar.specs.Input.{identifier};
ghost use Rattle.c_grammar.specs.DeclarationReading.{declared_behind, declared};
ghost use Rattle.c_cursor.specs.Deep.{IsDeep};
ghost use Rattle.c_cursor.specs.Reads.{ReadsName};
ghost use Rattle.c_expressions.specs.Parts.{reader};
ghost use Rattle.c_declarations.specs.Parts.{ReadsDeclared};

use crate::depths::derived;
use c_cursor::{Cursor, Deep, ParseRefusal, pointers};
use c_expressions::lengths;
use c_syntax::{Declarator, Name, TypeSpecifier};
use std::alloc::Global;

/// The name of a declarator, behind its `*`s.
pub(crate) fn declared_name(alloc: Global, cursor: &mut Cursor<'_>) -> Result<Name, ParseRefusal>
    ensures { ReadsName (identifier cursor.old) result cursor.new }
{
    match cursor.identifier() {
        Some(found) => found.to_name(alloc),
        None => Err(cursor.unexpected_declarator()),
    }
}

/// A declarator, behind its name.
#[tactic(auto, using(crate::proofs::Depth::depths), unfolding(c_grammar::specs::DeclarationReading::declared_behind))]
pub(crate) fn declared_behind(
    alloc: Global,
    cursor: &mut Cursor<'_>,
    specifier: &Deep<TypeSpecifier>,
    pointers: usize,
    name: Name,
) -> Result<Deep<Declarator>, ParseRefusal>
    requires { IsDeep specifier_depth specifier.now }
    ensures { ReadsDeclared (specifier_depth specifier.now.tree)
        (declared_behind (reader 200) pointers name cursor.old) result cursor.new }
{
    let lengths = lengths(alloc, cursor)?;
    let depth = derived(specifier, pointers, &lengths);
    Ok(Deep {
        tree: Declarator {
            pointers,
            name,
            lengths: lengths.tree,
        },
        depth,
    })
}

/// A declarator, which isn't in scope yet.
#[tactic(auto, unfolding(c_grammar::specs::DeclarationReading::declared))]
pub(crate) fn declared(
    alloc: Global,
    cursor: &mut Cursor<'_>,
    specifier: &Deep<TypeSpecifier>,
) -> Result<Deep<Declarator>, ParseRefusal>
    requires { IsDeep specifier_depth specifier.now }
    ensures { ReadsDeclared (specifier_depth specifier.now.tree) (declared (reader 200) cursor.old) result cursor.new }
{
    let pointers = pointers(alloc, cursor)?;
    let name = declared_name(alloc, cursor)?;
    declared_behind(alloc, cursor, specifier, pointers, name)
}
