//! The words of integer types (C11 6.7.2): which type they name together, in whatever order.
ghost use Rattle.std.specs.Prelude.{◌≡◌};
ghost use Rattle.std.specs.List.{filter, list_any};
ghost use Rattle.c_grammar.specs.Specifiers.{is_integer_word, is_modifier, times, same_words};
ghost use Rattle.c_grammar.specs.Specifiers.{integer_spellings, integer_type};
ghost use Rattle.c_cursor.specs.Integers.{spellings_seen};
ghost use Rattle.c_cursor.specs.Reads.{Keeps};

use crate::refusal::ParseRefusal;
use crate::type_words::{is_integer_word, is_modifier};
use c_lexer::Keyword;
use c_syntax::IntegerType;
use sqlite_items::Items;
use std::alloc::Global;

/// One order of the words of a type.
#[derive(Clone, Copy)]
struct Spelling {
    words: &'static [Keyword],
    named: IntegerType,
}

/// How often a word stands in the list.
pub fn times(word: Keyword, list: &[Keyword]) -> usize
    ensures { result ≡ times word list.now }
{
    let mut count = 0;
    for other in list {
        if word == *other {
            count += 1;
        }
    }
    count
}

/// Whether two lists have the same words of integer types, in whatever order.
fn same_words(one: &[Keyword], other: &[Keyword]) -> bool
    ensures { result ≡ same_words one.now other.now }
{
    times(Keyword::Char, one) == times(Keyword::Char, other)
        && times(Keyword::Short, one) == times(Keyword::Short, other)
        && times(Keyword::Int, one) == times(Keyword::Int, other)
        && times(Keyword::Long, one) == times(Keyword::Long, other)
        && times(Keyword::Signed, one) == times(Keyword::Signed, other)
        && times(Keyword::Unsigned, one) == times(Keyword::Unsigned, other)
}

/// How each integer type is written, in one order of its words.
fn spellings() -> &'static [Spelling]
    ensures { spellings_seen result.now ≡ integer_spellings }
{
    &[
        Spelling {
            words: &[Keyword::Char],
            named: IntegerType::Char,
        },
        Spelling {
            words: &[Keyword::Signed, Keyword::Char],
            named: IntegerType::SignedChar,
        },
        Spelling {
            words: &[Keyword::Unsigned, Keyword::Char],
            named: IntegerType::UnsignedChar,
        },
        Spelling {
            words: &[Keyword::Short],
            named: IntegerType::Short,
        },
        Spelling {
            words: &[Keyword::Signed, Keyword::Short],
            named: IntegerType::Short,
        },
        Spelling {
            words: &[Keyword::Short, Keyword::Int],
            named: IntegerType::Short,
        },
        Spelling {
            words: &[Keyword::Signed, Keyword::Short, Keyword::Int],
            named: IntegerType::Short,
        },
        Spelling {
            words: &[Keyword::Unsigned, Keyword::Short],
            named: IntegerType::UnsignedShort,
        },
        Spelling {
            words: &[Keyword::Unsigned, Keyword::Short, Keyword::Int],
            named: IntegerType::UnsignedShort,
        },
        Spelling {
            words: &[Keyword::Int],
            named: IntegerType::Int,
        },
        Spelling {
            words: &[Keyword::Signed],
            named: IntegerType::Int,
        },
        Spelling {
            words: &[Keyword::Signed, Keyword::Int],
            named: IntegerType::Int,
        },
        Spelling {
            words: &[Keyword::Unsigned],
            named: IntegerType::UnsignedInt,
        },
        Spelling {
            words: &[Keyword::Unsigned, Keyword::Int],
            named: IntegerType::UnsignedInt,
        },
        Spelling {
            words: &[Keyword::Long],
            named: IntegerType::Long,
        },
        Spelling {
            words: &[Keyword::Signed, Keyword::Long],
            named: IntegerType::Long,
        },
        Spelling {
            words: &[Keyword::Long, Keyword::Int],
            named: IntegerType::Long,
        },
        Spelling {
            words: &[Keyword::Signed, Keyword::Long, Keyword::Int],
            named: IntegerType::Long,
        },
        Spelling {
            words: &[Keyword::Unsigned, Keyword::Long],
            named: IntegerType::UnsignedLong,
        },
        Spelling {
            words: &[Keyword::Unsigned, Keyword::Long, Keyword::Int],
            named: IntegerType::UnsignedLong,
        },
        Spelling {
            words: &[Keyword::Long, Keyword::Long],
            named: IntegerType::LongLong,
        },
        Spelling {
            words: &[Keyword::Signed, Keyword::Long, Keyword::Long],
            named: IntegerType::LongLong,
        },
        Spelling {
            words: &[Keyword::Long, Keyword::Long, Keyword::Int],
            named: IntegerType::LongLong,
        },
        Spelling {
            words: &[Keyword::Signed, Keyword::Long, Keyword::Long, Keyword::Int],
            named: IntegerType::LongLong,
        },
        Spelling {
            words: &[Keyword::Unsigned, Keyword::Long, Keyword::Long],
            named: IntegerType::UnsignedLongLong,
        },
        Spelling {
            words: &[
                Keyword::Unsigned,
                Keyword::Long,
                Keyword::Long,
                Keyword::Int,
            ],
            named: IntegerType::UnsignedLongLong,
        },
    ]
}

/// The integer type that the words name; words that name none are left aside.
pub fn integer_type(words: &[Keyword]) -> Option<IntegerType>
    ensures { result ≡ integer_type words.now }
{
    for spelling in spellings() {
        if same_words(words, spelling.words) {
            return Some(spelling.named);
        }
    }
    None
}

/// Whether a word of an integer type is among them.
pub fn has_integer_word(words: &[Keyword]) -> bool
    ensures { result ≡ list_any is_integer_word words.now }
{
    words.iter().any(|word| is_integer_word(*word))
}

/// The words that may stand beside a type.
pub fn modifiers(alloc: Global, words: &[Keyword]) -> Result<Items<Keyword>, ParseRefusal>
    ensures { Keeps (filter is_modifier words.now) result }
{
    let mut found = Items::new(alloc);
    for word in words {
        if is_modifier(*word) {
            found.push(*word)?;
        }
    }
    Ok(found)
}
