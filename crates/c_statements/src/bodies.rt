//! Bodies of functions (C11 6.9.1).
ghost use Rattle.c_grammar.specs.Reading.{turns};
ghost use Rattle.c_grammar.specs.Statements.{outermost};
ghost use Rattle.c_grammar.specs.StatementReading.{kind_at, children_from};
ghost use Rattle.c_cursor.specs.Deep.{ReadsDeep};
ghost use Rattle.c_cursor.specs.Reads.{IsRefusal};
ghost use Rattle.c_expressions.specs.Parts.{reader};
ghost use Rattle.c_statements.specs.Parts.{statements_depth};

use crate::nesting::Statements;
use crate::position::Position;
use crate::productions::nested_kind;
use c_cursor::{Cursor, DEPTH_LIMIT, Deep, LeftOut, ParseRefusal};
use c_lexer::{Keyword, Token, TokenKind};
use c_syntax::Stmt;
use rc_text::Place;
use sqlite_items::Items;
use std::alloc::Global;

/// The statements of a function's body behind its opening brace, with the closing one.
///
/// # Errors
///
/// `Depth` where more statements or expressions nest than `DEPTH_LIMIT`, `Syntax` and `Refused` at the first token at
/// which they can't go on.
pub fn function_body(
    alloc: Global,
    cursor: &mut Cursor<'_>,
) -> Result<Deep<Items<Stmt>>, ParseRefusal>
    ensures { ReadsDeep statements_depth (children_from (reader 200) (kind_at (reader 200) 200) outermost
        (turns cursor.old) cursor.old) result cursor.new }
{
    let start = cursor.rest();
    let statements = Statements {
        alloc,
        room: DEPTH_LIMIT,
        read: &nested_kind,
    };
    match statements.children(cursor, Position::outermost()) {
        Err(ParseRefusal::Syntax { place }) => Err(in_body(start, place)),
        read => read,
    }
}

/// The refusal at a token of a body that may not stand there: `static` and `extern` make objects of the whole file.
fn in_body(start: &[Token], place: Place) -> ParseRefusal
    ensures { IsRefusal result }
{
    for token in start {
        if token.place.byte == place.byte && is_file_word(token.kind) {
            return ParseRefusal::Refused {
                place,
                name: LeftOut::FileObject,
            };
        }
    }
    ParseRefusal::Syntax { place }
}

fn is_file_word(kind: TokenKind) -> bool {
    matches!(kind, TokenKind::Keyword(Keyword::Static | Keyword::Extern))
}
