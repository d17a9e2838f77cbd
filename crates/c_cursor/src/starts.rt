//! What a token is at the beginning of a type and of an expression.
ghost use Rattle.std.specs.Prelude.{◌≡◌};
ghost use Rattle.c_grammar.specs.Names.{declared_word, word_by};
ghost use Rattle.c_grammar.specs.Operators.{start_word, start_mark, start_by};
ghost use Rattle.c_grammar.specs.Reading.{is_type};
ghost use Rattle.c_grammar.specs.Specifiers.{type_keyword, type_word, type_by};
ghost use Rattle.c_cursor.specs.Starts.{word_seen, type_seen, start_seen};

use crate::names::Names;
use crate::type_words::WordTest;
use c_grammar::NameKind;
use c_lexer::{
    AtomicOperation, CharacterConstant, HeaderType, IntegerConstant, Keyword, Punctuator, TokenKind,
};
use c_syntax::{IncrementOperator, UnaryOperator};
use rc_text::Place;

/// What a token is as a name.
#[derive(Clone, Copy)]
pub enum Word {
    TypedefName,
    HeaderName(HeaderType),
    OperationName(AtomicOperation),
    OrdinaryName,
    NoName,
}

/// What a token is at the beginning of a type.
#[derive(Clone, Copy)]
pub enum TypeStart<'a> {
    Void,
    Boolean,
    Struct,
    Union,
    Enum,
    Typedef { place: Place, text: &'a [u8] },
    Header(HeaderType),
    /// A word of an integer type, or one beside it.
    SpecifierWord,
    NoType,
}

/// What a token is at the beginning of an expression.
#[derive(Clone, Copy)]
pub enum Start<'a> {
    Integer(IntegerConstant),
    Character(CharacterConstant),
    NullPointer,
    Ordinary(&'a [u8]),
    Operation(AtomicOperation),
    Parenthesis,
    Prefix(IncrementOperator),
    Unary(UnaryOperator),
    SizeOf,
    AlignOf,
    Nothing,
}

/// A name by its nearest declaration, where it has one.
fn declared(meaning: Option<NameKind>, otherwise: Word) -> Word
    ensures { word_seen result ≡ declared_word meaning (word_seen otherwise) }
{
    match meaning {
        Some(NameKind::Typedef) => Word::TypedefName,
        Some(NameKind::Ordinary) => Word::OrdinaryName,
        None => otherwise,
    }
}

/// What a token of this kind and text is as a name.
pub fn word_of(names: &Names, kind: TokenKind, text: &[u8]) -> Word
    ensures { word_seen result ≡ word_by names.now kind text.now }
{
    match kind {
        TokenKind::Identifier => declared(names.meaning(text), Word::OrdinaryName),
        TokenKind::HeaderType(named) => declared(names.meaning(text), Word::HeaderName(named)),
        TokenKind::AtomicOperation(operation) => {
            declared(names.meaning(text), Word::OperationName(operation))
        }
        _ => Word::NoName,
    }
}

fn type_keyword<'a>(word: Keyword) -> TypeStart<'a>
    ensures { type_seen result ≡ type_keyword word }
{
    match word {
        Keyword::Void => TypeStart::Void,
        Keyword::Bool => TypeStart::Boolean,
        Keyword::Struct => TypeStart::Struct,
        Keyword::Union => TypeStart::Union,
        Keyword::Enum => TypeStart::Enum,
        _ => {
            if WordTest::Specifier.holds(word) {
                TypeStart::SpecifierWord
            } else {
                TypeStart::NoType
            }
        }
    }
}

fn type_word(word: Word, place: Place, text: &[u8]) -> TypeStart<'_>
    ensures { type_seen result ≡ type_word (word_seen word) (record { place = place; text = text.now }) }
{
    match word {
        Word::TypedefName => TypeStart::Typedef { place, text },
        Word::HeaderName(named) => TypeStart::Header(named),
        Word::OperationName(_) | Word::OrdinaryName | Word::NoName => TypeStart::NoType,
    }
}

/// What a token of this kind, which means this as a name, is at the beginning of a type.
pub fn type_by(kind: TokenKind, word: Word, place: Place, text: &[u8]) -> TypeStart<'_>
    ensures { type_seen result ≡ type_by kind (word_seen word) (record { place = place; text = text.now }) }
{
    match kind {
        TokenKind::Keyword(keyword) => type_keyword(keyword),
        _ => type_word(word, place, text),
    }
}

/// Whether a type begins so.
pub fn is_type(start: TypeStart<'_>) -> bool
    ensures { result ≡ is_type (type_seen start.entry) }
{
    !matches!(start, TypeStart::NoType)
}

fn start_word(word: Word, text: &[u8]) -> Start<'_>
    ensures { start_seen result ≡ start_word (word_seen word) text.now }
{
    match word {
        Word::OrdinaryName => Start::Ordinary(text),
        Word::OperationName(operation) => Start::Operation(operation),
        Word::TypedefName | Word::HeaderName(_) | Word::NoName => Start::Nothing,
    }
}

fn start_mark<'a>(punctuator: Punctuator) -> Start<'a>
    ensures { start_seen result ≡ start_mark punctuator }
{
    match punctuator {
        Punctuator::OpenParenthesis => Start::Parenthesis,
        Punctuator::Increment => Start::Prefix(IncrementOperator::Increment),
        Punctuator::Decrement => Start::Prefix(IncrementOperator::Decrement),
        Punctuator::Ampersand => Start::Unary(UnaryOperator::Address),
        Punctuator::Star => Start::Unary(UnaryOperator::Indirection),
        Punctuator::Plus => Start::Unary(UnaryOperator::Plus),
        Punctuator::Minus => Start::Unary(UnaryOperator::Minus),
        Punctuator::Tilde => Start::Unary(UnaryOperator::Complement),
        Punctuator::Exclamation => Start::Unary(UnaryOperator::Not),
        _ => Start::Nothing,
    }
}

/// What a token of this kind, which is this as a name, is at the beginning of an expression.
pub fn start_by(kind: TokenKind, word: Word, text: &[u8]) -> Start<'_>
    ensures { start_seen result ≡ start_by kind (word_seen word) text.now }
{
    match kind {
        TokenKind::Integer(constant) => Start::Integer(constant),
        TokenKind::Character(constant) => Start::Character(constant),
        TokenKind::NullPointer => Start::NullPointer,
        TokenKind::Punctuator(punctuator) => start_mark(punctuator),
        TokenKind::Keyword(Keyword::Sizeof) => Start::SizeOf,
        TokenKind::Keyword(Keyword::Alignof) => Start::AlignOf,
        TokenKind::Keyword(_) => Start::Nothing,
        TokenKind::Identifier
        | TokenKind::HeaderType(_)
        | TokenKind::AtomicOperation(_)
        | TokenKind::Floating
        | TokenKind::StringLiteral => start_word(word, text),
    }
}
