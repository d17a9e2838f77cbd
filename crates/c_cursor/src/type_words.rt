ghost use Rattle.std.specs.Prelude.{◌≡◌};
ghost use Rattle.c_grammar.specs.Specifiers.{is_integer_word, is_qualifier, is_modifier};
ghost use Rattle.c_grammar.specs.Reading.{words, pointers};
ghost use Rattle.c_cursor.specs.Reads.{Reads};
ghost use Rattle.c_cursor.specs.Words.{test_of};

use crate::cursor::Cursor;
use crate::refusal::ParseRefusal;
use c_lexer::{Keyword, Punctuator};
use sqlite_items::Items;
use std::alloc::Global;

/// A test on keywords that stand among those of a type.
#[derive(Clone, Copy, Debug, PartialEq, Eq, Hash)]
pub enum WordTest {
    /// A qualifier, which is read and ignored.
    Qualifier,
    /// A word that may stand beside a type in a declaration.
    Modifier,
    /// A word of an integer type, or a modifier.
    Specifier,
}

impl WordTest {
    pub fn holds(self, word: Keyword) -> bool
        ensures { result ≡ test_of self word }
    {
        match self {
            WordTest::Qualifier => is_qualifier(word),
            WordTest::Modifier => is_modifier(word),
            WordTest::Specifier => is_integer_word(word) || is_modifier(word),
        }
    }
}

pub fn is_integer_word(word: Keyword) -> bool
    ensures { result ≡ is_integer_word word }
{
    matches!(
        word,
        Keyword::Char
            | Keyword::Short
            | Keyword::Int
            | Keyword::Long
            | Keyword::Signed
            | Keyword::Unsigned
    )
}

pub fn is_qualifier(word: Keyword) -> bool
    ensures { result ≡ is_qualifier word }
{
    matches!(word, Keyword::Const | Keyword::Restrict)
}

pub fn is_modifier(word: Keyword) -> bool
    ensures { result ≡ is_modifier word }
{
    matches!(
        word,
        Keyword::Const
            | Keyword::Restrict
            | Keyword::Inline
            | Keyword::Static
            | Keyword::Extern
            | Keyword::Typedef
    )
}

/// The keywords at the front that pass a test.
pub fn words(
    alloc: Global,
    cursor: &mut Cursor<'_>,
    test: WordTest,
) -> Result<Items<Keyword>, ParseRefusal>
    ensures { Reads (words (test_of test) cursor.old) result cursor.new }
{
    let mut found = Items::new(alloc);
    for _turn in 0..cursor.turns_and_one() {
        match cursor.word(test) {
            Some(word) => found.push(word)?,
            None => return Ok(found),
        }
    }
    Err(cursor.unexpected())
}

/// How many `*` stand next, with the qualifiers behind each.
pub fn pointers(alloc: Global, cursor: &mut Cursor<'_>) -> Result<usize, ParseRefusal>
    ensures { Reads (pointers cursor.old) result cursor.new }
{
    let mut count = 0;
    for _turn in 0..cursor.turns_and_one() {
        if !cursor.mark(Punctuator::Star) {
            return Ok(count);
        }
        words(alloc, cursor, WordTest::Qualifier)?;
        count += 1;
    }
    Err(cursor.unexpected())
}
