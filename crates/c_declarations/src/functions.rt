//! Functions' declarators (C11 6.7.6.3), and functions that are declared without bodies.
ghost use Rattle.c_syntax.specs.Depth.{specifier_depth, function_depth};
ghost use Rattle.c_grammar.specs.Reading.{turns};
ghost use Rattle.c_grammar.specs.DeclarationReading.{function_behind, function_declared, function_names_from};
ghost use Rattle.c_cursor.specs.Deep.{IsDeep, ReadsDeep};
ghost use Rattle.c_expressions.specs.Parts.{reader};
ghost use Rattle.c_declarations.specs.Parts.{initializers_depth};

use crate::declarators::declared_name;
use crate::parameters::parameter_list;
use crate::refusals::open_parameters;
use c_cursor::{Cursor, Deep, ParseRefusal, further, pointers};
use c_grammar::NameKind;
use c_lexer::Punctuator;
use c_syntax::{FunctionDeclarator, InitDeclarator, Name, TypeSpecifier};
use sqlite_items::Items;
use std::alloc::Global;

/// A function's declarator, behind the opening parenthesis.
#[tactic(auto, unfolding(c_grammar::specs::DeclarationReading::function_behind))]
pub(crate) fn function_behind(
    alloc: Global,
    cursor: &mut Cursor<'_>,
    specifier: &Deep<TypeSpecifier>,
    pointers: usize,
    name: Name,
) -> Result<Deep<FunctionDeclarator>, ParseRefusal>
    requires { IsDeep specifier_depth specifier.now }
    ensures { ReadsDeep (function_depth (specifier_depth specifier.now.tree))
        (function_behind (reader 200) pointers name cursor.old) result cursor.new }
{
    let parameters = parameter_list(alloc, cursor)?;
    let depth = further(specifier.depth, pointers).max(parameters.depth);
    Ok(Deep {
        tree: FunctionDeclarator {
            pointers,
            name,
            parameters: parameters.tree,
        },
        depth,
    })
}

/// A function's declarator behind its result's type.
#[tactic(auto, unfolding(c_grammar::specs::DeclarationReading::function_declared))]
pub fn function_declared(
    alloc: Global,
    cursor: &mut Cursor<'_>,
    specifier: &Deep<TypeSpecifier>,
) -> Result<Deep<FunctionDeclarator>, ParseRefusal>
    requires { IsDeep specifier_depth specifier.now }
    ensures { ReadsDeep (function_depth (specifier_depth specifier.now.tree))
        (function_declared (reader 200) cursor.old) result cursor.new }
{
    let pointers = pointers(alloc, cursor)?;
    let name = declared_name(alloc, cursor)?;
    open_parameters(cursor)?;
    function_behind(alloc, cursor, specifier, pointers, name)
}

/// Functions without bodies, with commas between them, and the semicolon.
pub fn function_names(
    alloc: Global,
    cursor: &mut Cursor<'_>,
    specifier: &Deep<TypeSpecifier>,
) -> Result<Deep<Items<InitDeclarator>>, ParseRefusal>
    requires { IsDeep specifier_depth specifier.now }
    ensures { ReadsDeep (initializers_depth (specifier_depth specifier.now.tree))
        (function_names_from (reader 200) (turns cursor.old) cursor.old) result cursor.new }
{
    let mut tree = Items::new(alloc);
    let mut depth = 0;
    for _turn in 0..cursor.turns() {
        let scope = cursor.scope();
        let function = function_declared(alloc, cursor, specifier)?;
        cursor.leave(scope);
        cursor.declare(
            alloc,
            function.tree.name.text.as_slice(),
            NameKind::Ordinary,
        )?;
        depth = function.depth.max(depth);
        tree.push(InitDeclarator::Function(function.tree))?;
        if !cursor.mark(Punctuator::Comma) {
            cursor.expect(Punctuator::Semicolon)?;
            return Ok(Deep { tree, depth });
        }
    }
    Err(cursor.unexpected())
}
