ghost use Rattle.std.specs.Prelude.{◌≡◌, IsTrue};
ghost use Rattle.std.specs.List.{prefix_len};
ghost use Rattle.c_lexer.specs.Bytes.{is_word_byte};
ghost use Rattle.c_lexer.specs.Spelling.{is_word, Spells};

use crate::byte::is_word_byte;
use crate::keyword::Keyword;
use crate::token::TokenKind;

/// How many letters and digits the bytes begin with.
pub(crate) fn word_length(bytes: &[u8]) -> usize
    ensures { result ≡ prefix_len is_word_byte bytes.now }
{
    for (index, byte) in bytes.iter().enumerate() {
        if !is_word_byte(*byte) {
            return index;
        }
    }
    bytes.len()
}

/// Whether a word is an identifier or a keyword (C11 6.4.1, 6.4.2).
pub(crate) fn word_kind(word: &[u8]) -> TokenKind
    requires { IsTrue (is_word word.now) }
    ensures { Spells result word.now }
{
    match Keyword::from_spelling(word) {
        Some(keyword) => TokenKind::Keyword(keyword),
        None => TokenKind::Identifier,
    }
}
