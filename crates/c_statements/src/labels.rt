//! Labels of a switch's children (C11 6.8.1).
ghost use Rattle.std.specs.Prelude.{◌≡◌, ◌||◌};
ghost use Rattle.c_lexer.specs.declared.keyword.Keyword.TheVariants as words;
ghost use Rattle.c_syntax.specs.Depth.{label_depth};
ghost use Rattle.c_grammar.specs.Marks.{is_keyword};
ghost use Rattle.c_grammar.specs.Reading.{turns};
ghost use Rattle.c_grammar.specs.StatementReading.{begins_label, case_behind, default_behind, label, labels_from};
ghost use Rattle.c_cursor.specs.Deep.{ReadsDeep};
ghost use Rattle.c_expressions.specs.Parts.{reader};
ghost use Rattle.c_statements.specs.Parts.{labels_depth};

use c_cursor::{CONDITIONAL_LEVEL, Cursor, Deep, ParseRefusal};
use c_expressions::expression;
use c_lexer::{Keyword, Punctuator, TokenKind};
use c_syntax::Label;
use rc_text::Place;
use sqlite_items::Items;
use std::alloc::Global;

fn is_label_word(kind: TokenKind) -> bool
    ensures { result ≡ is_keyword words.Case kind || is_keyword words.Default kind }
{
    match kind {
        TokenKind::Keyword(word) => Keyword::Case == word || Keyword::Default == word,
        _ => false,
    }
}

/// Whether a label begins at the next token.
#[tactic(auto, unfolding(c_grammar::specs::StatementReading::begins_label, c_grammar::specs::Statements::keyword))]
pub(crate) fn begins_label(cursor: &Cursor<'_>) -> bool
    ensures { result ≡ begins_label cursor.now }
{
    match cursor.peek() {
        Some(token) => is_label_word(token.kind),
        None => false,
    }
}

/// A label behind `case`.
#[tactic(auto, unfolding(c_grammar::specs::StatementReading::case_behind))]
fn case_behind(
    alloc: Global,
    cursor: &mut Cursor<'_>,
    place: Place,
) -> Result<Deep<Label>, ParseRefusal>
    ensures { ReadsDeep label_depth (case_behind (reader 200) place cursor.old) result cursor.new }
{
    let value = expression(alloc, cursor, CONDITIONAL_LEVEL)?;
    cursor.expect(Punctuator::Colon)?;
    Ok(Deep {
        depth: value.depth,
        tree: Label::Case {
            place,
            value: value.tree.into_inner(),
        },
    })
}

/// A label behind `default`.
#[tactic(auto, unfolding(c_grammar::specs::StatementReading::default_behind))]
fn default_behind(cursor: &mut Cursor<'_>, place: Place) -> Result<Deep<Label>, ParseRefusal>
    ensures { ReadsDeep label_depth (default_behind (reader 200) place cursor.old) result cursor.new }
{
    cursor.expect(Punctuator::Colon)?;
    Ok(Deep {
        tree: Label::Default { place },
        depth: 0,
    })
}

#[tactic(auto, unfolding(c_grammar::specs::StatementReading::label))]
fn label(alloc: Global, cursor: &mut Cursor<'_>) -> Result<Deep<Label>, ParseRefusal>
    ensures { ReadsDeep label_depth (label (reader 200) cursor.old) result cursor.new }
{
    match cursor.next_place() {
        Some(place) => {
            if cursor.keyword(Keyword::Case) {
                case_behind(alloc, cursor, place)
            } else if cursor.keyword(Keyword::Default) {
                default_behind(cursor, place)
            } else {
                Err(cursor.unexpected())
            }
        }
        None => Err(cursor.unexpected()),
    }
}

/// The labels that stand next, one at least.
pub(crate) fn labels(
    alloc: Global,
    cursor: &mut Cursor<'_>,
) -> Result<Deep<Items<Label>>, ParseRefusal>
    ensures { ReadsDeep labels_depth (labels_from (reader 200) (turns cursor.old) cursor.old) result cursor.new }
{
    let mut tree = Items::new(alloc);
    let mut depth = 0;
    for _turn in 0..cursor.turns() {
        let one = label(alloc, cursor)?;
        depth = one.depth.max(depth);
        tree.push(one.tree)?;
        if !begins_label(cursor) {
            return Ok(Deep { tree, depth });
        }
    }
    Err(cursor.unexpected())
}
