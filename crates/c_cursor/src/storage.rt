//! Where words stand before a type that stand only where names are declared: `typedef`, `static`, `extern`, `inline`.
ghost use Rattle.c_cursor.specs.Reads.{IsRefusal};

use crate::left_out::LeftOut;
use crate::refusal::ParseRefusal;
use crate::type_words::{WordTest, is_modifier, is_qualifier};
use c_lexer::{Keyword, Token, TokenKind};
use rc_text::Place;

/// The words of a type at the front of tokens, as far as this place.
pub fn words_before(start: &[Token], place: Place) -> &[Token] {
    for (count, token) in start.iter().enumerate() {
        if token.place.byte >= place.byte || !is_specifier_word(token.kind) {
            return &start[..count];
        }
    }
    start
}

/// The place of the first of these words.
fn storage_word(tokens: &[Token]) -> Option<Place> {
    for token in tokens {
        if is_storage_word(token.kind) {
            return Some(token.place);
        }
    }
    None
}

/// The refusal at the first of these words.
pub fn at_storage_word(start: &[Token]) -> ParseRefusal
    ensures { IsRefusal result }
{
    ParseRefusal::Syntax {
        place: storage_word(start).unwrap_or(Place::START),
    }
}

/// The refusal at this place, or at the first of these words before the type.
pub fn behind_storage_words(
    start: &[Token],
    place: Place,
    left_out: Option<LeftOut>,
) -> ParseRefusal
    ensures { IsRefusal result }
{
    match storage_word(words_before(start, place)) {
        Some(place) => ParseRefusal::Syntax { place },
        None => ParseRefusal::at(place, left_out),
    }
}

/// The refusal at the second word of storage (C11 6.7.1).
pub fn at_second_storage(start: &[Token]) -> ParseRefusal
    ensures { IsRefusal result }
{
    let mut before = false;
    for token in start {
        if is_storage(token.kind) {
            if before {
                return ParseRefusal::Syntax { place: token.place };
            }
            before = true;
        }
    }
    ParseRefusal::Syntax {
        place: Place::START,
    }
}

fn is_storage(kind: TokenKind) -> bool {
    matches!(
        kind,
        TokenKind::Keyword(Keyword::Typedef | Keyword::Static | Keyword::Extern)
    )
}

fn is_storage_word(kind: TokenKind) -> bool {
    match kind {
        TokenKind::Keyword(word) => is_modifier(word) && !is_qualifier(word),
        _ => false,
    }
}

/// Whether it is a word beside a type, or one of an integer type.
fn is_specifier_word(kind: TokenKind) -> bool {
    match kind {
        TokenKind::Keyword(word) => WordTest::Specifier.holds(word),
        _ => false,
    }
}
