//! The parts of statements that aren't statements.
ghost use Rattle.std.specs.Prelude.{◌≡◌};
ghost use Rattle.c_syntax.specs.Depth.{expression_depth, init_depth};
ghost use Rattle.c_grammar.specs.StatementReading.{tested, optional, begun_expression, begun_declaration, begun};
ghost use Rattle.c_cursor.specs.Deep.{ReadsDeep};
ghost use Rattle.c_expressions.specs.Parts.{reader};
ghost use Rattle.c_statements.specs.Parts.{optional_depth};
ghost use Rattle.c_statements.specs.Productions.{begun_attributed, begun_other};

use c_cursor::{COMMA_LEVEL, Cursor, Deep, ParseRefusal, attributes};
use c_declarations::local_declaration;
use c_expressions::expression;
use c_lexer::Punctuator;
use c_syntax::{Attribute, Expr, ForInit};
use sqlite_items::{Boxed, Items};
use std::alloc::Global;

/// A test or value in parentheses.
#[tactic(auto, unfolding(c_grammar::specs::StatementReading::tested))]
pub(crate) fn tested(
    alloc: Global,
    cursor: &mut Cursor<'_>,
) -> Result<Deep<Boxed<Expr>>, ParseRefusal>
    ensures { ReadsDeep expression_depth (tested (reader 200) cursor.old) result cursor.new }
{
    cursor.expect(Punctuator::OpenParenthesis)?;
    let found = expression(alloc, cursor, COMMA_LEVEL)?;
    cursor.expect(Punctuator::CloseParenthesis)?;
    Ok(found)
}

/// An expression before the punctuator, or nothing.
#[tactic(auto, unfolding(c_grammar::specs::StatementReading::optional))]
pub(crate) fn optional(
    alloc: Global,
    cursor: &mut Cursor<'_>,
    end: Punctuator,
) -> Result<Deep<Option<Expr>>, ParseRefusal>
    ensures { ReadsDeep optional_depth (optional (reader 200) end cursor.old) result cursor.new }
{
    if cursor.is_next(end) {
        return Ok(Deep {
            tree: None,
            depth: 0,
        });
    }
    let found = expression(alloc, cursor, COMMA_LEVEL)?;
    Ok(Deep {
        depth: found.depth,
        tree: Some(found.tree.into_inner()),
    })
}

/// The first part of a `for` that is an expression.
#[tactic(auto, unfolding(c_grammar::specs::StatementReading::begun_expression))]
fn begun_expression(alloc: Global, cursor: &mut Cursor<'_>) -> Result<Deep<ForInit>, ParseRefusal>
    ensures { ReadsDeep init_depth (begun_expression (reader 200) cursor.old) result cursor.new }
{
    let found = expression(alloc, cursor, COMMA_LEVEL)?;
    cursor.expect(Punctuator::Semicolon)?;
    Ok(Deep {
        depth: found.depth,
        tree: ForInit::Expression(found.tree.into_inner()),
    })
}

/// The first part of a `for` that is a declaration, behind its attributes.
#[tactic(auto, unfolding(c_grammar::specs::StatementReading::begun_declaration))]
fn begun_declaration(
    alloc: Global,
    cursor: &mut Cursor<'_>,
    attributes: Items<Attribute>,
) -> Result<Deep<ForInit>, ParseRefusal>
    ensures { ReadsDeep init_depth (begun_declaration (reader 200) attributes cursor.old) result cursor.new }
{
    match cursor.next_place() {
        Some(place) => {
            let found = local_declaration(alloc, cursor)?;
            Ok(Deep {
                depth: found.depth,
                tree: ForInit::Declaration {
                    place,
                    attributes,
                    declaration: found.tree,
                },
            })
        }
        None => Err(cursor.unexpected()),
    }
}

/// The first part of a `for` that has attributes: a declaration.
#[tactic(auto, unfolding(crate::specs::Productions::begun_attributed))]
fn begun_attributed(alloc: Global, cursor: &mut Cursor<'_>) -> Result<Deep<ForInit>, ParseRefusal>
    ensures { ReadsDeep init_depth (begun_attributed (reader 200) cursor.old) result cursor.new }
{
    let list = attributes(alloc, cursor)?;
    if cursor.begins_type() {
        begun_declaration(alloc, cursor, list)
    } else {
        Err(cursor.unexpected())
    }
}

/// The first part of a `for`, where there is one.
#[tactic(auto, unfolding(crate::specs::Productions::begun_other))]
fn begun_other(alloc: Global, cursor: &mut Cursor<'_>) -> Result<Deep<ForInit>, ParseRefusal>
    ensures { ReadsDeep init_depth (begun_other (reader 200) cursor.old) result cursor.new }
{
    if cursor.is_next(Punctuator::OpenBracket) {
        begun_attributed(alloc, cursor)
    } else if cursor.begins_type() {
        begun_declaration(alloc, cursor, Items::new(alloc))
    } else {
        begun_expression(alloc, cursor)
    }
}

/// The first part of a `for`, with its semicolon.
#[tactic(auto, unfolding(c_grammar::specs::StatementReading::begun))]
pub(crate) fn begun(alloc: Global, cursor: &mut Cursor<'_>) -> Result<Deep<ForInit>, ParseRefusal>
    ensures { ReadsDeep init_depth (begun (reader 200) cursor.old) result cursor.new }
{
    if cursor.mark(Punctuator::Semicolon) {
        Ok(Deep {
            tree: ForInit::Nothing,
            depth: 0,
        })
    } else {
        begun_other(alloc, cursor)
    }
}
