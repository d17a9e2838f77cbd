//! Where forms that the profile leaves out begin in declarations, and the refusals that name them.
ghost use Rattle.c_lexer.specs.declared.punctuator.Punctuator.TheVariants as marks;
ghost use Rattle.c_grammar.specs.Input.{mark};
ghost use Rattle.c_cursor.specs.Reads.{IsRefusal, Expects};

use c_cursor::{Cursor, LeftOut, ParseRefusal, words_before};
use c_lexer::{Keyword, Punctuator, Token, TokenKind};
use rc_text::Place;

/// Why nothing goes on at the next token, behind the declarator of members.
fn behind_member(cursor: &Cursor<'_>) -> ParseRefusal
    ensures { IsRefusal result }
{
    match cursor.peek() {
        Some(token) if token.kind == TokenKind::Punctuator(Punctuator::Colon) =>
            ParseRefusal::Refused {
                place: token.place,
                name: LeftOut::BitField,
            },
        _ => cursor.unexpected(),
    }
}

/// Goes past the semicolon behind members of one type.
pub(crate) fn close_members(cursor: &mut Cursor<'_>) -> Result<(), ParseRefusal>
    ensures { Expects (mark marks.Semicolon cursor.old) result cursor.new }
{
    if cursor.mark(Punctuator::Semicolon) {
        Ok(())
    } else {
        Err(behind_member(cursor))
    }
}

/// Why nothing goes on at the next token, behind a name at file scope that is no function's.
fn behind_file_object(cursor: &Cursor<'_>) -> ParseRefusal
    ensures { IsRefusal result }
{
    match cursor.peek() {
        Some(token) if ends_object(token.kind) => file_object(token.place),
        _ => cursor.unexpected(),
    }
}

/// Whether what stands before it is an object's declarator.
fn ends_object(kind: TokenKind) -> bool {
    matches!(
        kind,
        TokenKind::Punctuator(
            Punctuator::Semicolon | Punctuator::Assign | Punctuator::Comma | Punctuator::OpenBracket
        )
    )
}

/// Goes past the parenthesis behind a function's name at file scope.
pub(crate) fn open_parameters(cursor: &mut Cursor<'_>) -> Result<(), ParseRefusal>
    ensures { Expects (mark marks.OpenParenthesis cursor.old) result cursor.new }
{
    if cursor.mark(Punctuator::OpenParenthesis) {
        Ok(())
    } else {
        Err(behind_file_object(cursor))
    }
}

fn file_object(place: Place) -> ParseRefusal
    ensures { IsRefusal result }
{
    ParseRefusal::Refused {
        place,
        name: LeftOut::FileObject,
    }
}

/// The place of the first `static` or `extern`.
fn file_word(tokens: &[Token]) -> Option<Place> {
    for token in tokens {
        if let TokenKind::Keyword(Keyword::Static | Keyword::Extern) = token.kind {
            return Some(token.place);
        }
    }
    None
}

/// The refusal at the first `static` or `extern`, which make objects of the whole file.
pub(crate) fn at_file_word(start: &[Token]) -> ParseRefusal
    ensures { IsRefusal result }
{
    match file_word(start) {
        Some(place) => file_object(place),
        None => ParseRefusal::Syntax {
            place: Place::START,
        },
    }
}

/// The refusal at this place, or at the first `static` or `extern` before the type.
pub(crate) fn behind_file_words(
    start: &[Token],
    place: Place,
    left_out: Option<LeftOut>,
) -> ParseRefusal
    ensures { IsRefusal result }
{
    match file_word(words_before(start, place)) {
        Some(place) => file_object(place),
        None => ParseRefusal::at(place, left_out),
    }
}
