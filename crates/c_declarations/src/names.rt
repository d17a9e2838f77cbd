//! The names that declarations bring into scope (C11 6.7, 6.7.9), each behind its own declarator.
ghost use Rattle.c_syntax.specs.Depth.{specifier_depth, expression_depth, declared_depth, initialized_depth};
ghost use Rattle.c_grammar.specs.Reading.{turns};
ghost use Rattle.c_grammar.specs.DeclarationReading.{typedef_names_from, object_behind, initialized};
ghost use Rattle.c_grammar.specs.DeclarationReading.{initialized_names_from};
ghost use Rattle.c_cursor.specs.Deep.{IsDeep, ReadsDeep};
ghost use Rattle.c_expressions.specs.Parts.{reader};
ghost use Rattle.c_declarations.specs.Parts.{declared_name, declarators_depth, initializers_depth};

use crate::declarators::{declared, declared_behind, declared_name};
use crate::functions::function_behind;
use c_cursor::{ASSIGNMENT_LEVEL, Cursor, Deep, LeftOut, ParseRefusal, pointers};
use c_expressions::expression;
use c_grammar::NameKind;
use c_lexer::Punctuator;
use c_syntax::{Declarator, Expr, InitDeclarator, TypeSpecifier};
use sqlite_items::{Boxed, Items};
use std::alloc::Global;

/// The names of types, with commas between them, and the semicolon.
pub fn typedef_names(
    alloc: Global,
    cursor: &mut Cursor<'_>,
    specifier: &Deep<TypeSpecifier>,
) -> Result<Deep<Items<Declarator>>, ParseRefusal>
    requires { IsDeep specifier_depth specifier.now }
    ensures { ReadsDeep (declarators_depth (specifier_depth specifier.now.tree))
        (typedef_names_from (reader 200) (turns cursor.old) cursor.old) result cursor.new }
{
    let mut tree = Items::new(alloc);
    let mut depth = 0;
    for _turn in 0..cursor.turns() {
        let one = declared(alloc, cursor, specifier)?;
        cursor.declare(alloc, one.tree.name.text.as_slice(), NameKind::Typedef)?;
        depth = one.depth.max(depth);
        tree.push(one.tree)?;
        if !cursor.mark(Punctuator::Comma) {
            cursor.expect(Punctuator::Semicolon)?;
            return Ok(Deep { tree, depth });
        }
    }
    Err(cursor.unexpected())
}

/// An initialising expression; a list in braces is refused by its name.
fn initializer(alloc: Global, cursor: &mut Cursor<'_>) -> Result<Deep<Boxed<Expr>>, ParseRefusal>
    ensures { ReadsDeep expression_depth (reader 200 1 cursor.old) result cursor.new }
{
    let braced = cursor.is_next(Punctuator::OpenBrace);
    match expression(alloc, cursor, ASSIGNMENT_LEVEL) {
        Err(ParseRefusal::Syntax { place }) if braced => Err(ParseRefusal::Refused {
            place,
            name: LeftOut::BraceInitializer,
        }),
        read => read,
    }
}

/// An object behind its declarator, in scope in its own initialising expression.
#[tactic(auto, unfolding(c_grammar::specs::DeclarationReading::object_behind))]
fn object_behind(
    alloc: Global,
    cursor: &mut Cursor<'_>,
    specifier: &Deep<TypeSpecifier>,
    declared: Deep<Declarator>,
) -> Result<Deep<InitDeclarator>, ParseRefusal>
    requires { IsDeep (declared_depth (specifier_depth specifier.now.tree)) declared }
    ensures { ReadsDeep (initialized_depth (specifier_depth specifier.now.tree))
        (object_behind (reader 200) declared.tree (declared_name declared.tree) cursor.old) result cursor.new }
{
    cursor.declare(
        alloc,
        declared.tree.name.text.as_slice(),
        NameKind::Ordinary,
    )?;
    if cursor.mark(Punctuator::Assign) {
        let value = initializer(alloc, cursor)?;
        Ok(Deep {
            tree: InitDeclarator::Object {
                declarator: declared.tree,
                initializer: Some(value.tree.into_inner()),
            },
            depth: declared.depth.max(value.depth),
        })
    } else {
        Ok(Deep {
            tree: InitDeclarator::Object {
                declarator: declared.tree,
                initializer: None,
            },
            depth: declared.depth,
        })
    }
}

/// A declared object or function, which is in scope behind it; of a function's parameters none is.
#[tactic(auto, unfolding(c_grammar::specs::DeclarationReading::initialized))]
fn initialized(
    alloc: Global,
    cursor: &mut Cursor<'_>,
    specifier: &Deep<TypeSpecifier>,
) -> Result<Deep<InitDeclarator>, ParseRefusal>
    requires { IsDeep specifier_depth specifier.now }
    ensures { ReadsDeep (initialized_depth (specifier_depth specifier.now.tree)) (initialized (reader 200) cursor.old)
        result cursor.new }
{
    let scope = cursor.scope();
    let pointers = pointers(alloc, cursor)?;
    let name = declared_name(alloc, cursor)?;
    if cursor.mark(Punctuator::OpenParenthesis) {
        let function = function_behind(alloc, cursor, specifier, pointers, name)?;
        cursor.leave(scope);
        cursor.declare(
            alloc,
            function.tree.name.text.as_slice(),
            NameKind::Ordinary,
        )?;
        Ok(Deep {
            tree: InitDeclarator::Function(function.tree),
            depth: function.depth,
        })
    } else {
        let declared = declared_behind(alloc, cursor, specifier, pointers, name)?;
        object_behind(alloc, cursor, specifier, declared)
    }
}

/// Objects and functions, with commas between them, and the semicolon.
pub(crate) fn initialized_names(
    alloc: Global,
    cursor: &mut Cursor<'_>,
    specifier: &Deep<TypeSpecifier>,
) -> Result<Deep<Items<InitDeclarator>>, ParseRefusal>
    requires { IsDeep specifier_depth specifier.now }
    ensures { ReadsDeep (initializers_depth (specifier_depth specifier.now.tree))
        (initialized_names_from (reader 200) (turns cursor.old) cursor.old) result cursor.new }
{
    let mut tree = Items::new(alloc);
    let mut depth = 0;
    for _turn in 0..cursor.turns() {
        let one = initialized(alloc, cursor, specifier)?;
        depth = one.depth.max(depth);
        tree.push(one.tree)?;
        if !cursor.mark(Punctuator::Comma) {
            cursor.expect(Punctuator::Semicolon)?;
            return Ok(Deep { tree, depth });
        }
    }
    Err(cursor.unexpected())
}
