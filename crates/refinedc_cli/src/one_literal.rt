ghost use Rattle.std.specs.Prelude.{◌≡◌, ◌≢◌, ℕ, ◌^◌, ◌<◌, ◌↔◌, List, map, IsTrue, MatchOption, Some, slice_get};
ghost use Rattle.std.specs.Prelude.{length};
ghost use Rattle.c_lexer.specs.declared.token.Token.{Token};
ghost use Rattle.c_lexer.specs.declared.token.TokenKind.TheVariants.{Integer};
ghost use Rattle.refinedc_cli.specs.OneLiteral.{decimal_constant, form_kinds, declaration, IsSpelledAt, IsOneLiteral};
ghost use Rattle.refinedc_cli.specs.declared.one_literal.OneLiteral.{OneLiteral};

use c_lexer::{
    IntegerBase, IntegerConstant, IntegerSuffix, Keyword, Punctuator, Token, TokenKind,
    integer_constant,
};
use caesium_ir::LiteralPlaces;

/// A function that returns a literal: the value that it is declared to return, the literal, and where
/// its parts stand.
#[derive(Clone, Copy, Debug, PartialEq, Eq, Hash)]
pub struct OneLiteral {
    pub declared: u32,
    pub returned: u32,
    pub places: LiteralPlaces,
}

// Where the tokens stand that differ from file to file.
const PREFIX: usize = 2;

const ATTRIBUTE: usize = 4;

const DECLARATION: usize = 6;

/// Where the function's name stands.
pub const NAME: usize = 11;

const BODY: usize = 15;

const RETURN: usize = 16;

const RETURNED: usize = 17;

/// The number of the form's tokens.
const LENGTH: usize = 20;

/// Reads the literals off the tokens of the form. None where the tokens are others.
pub fn form_of(tokens: &[Token]) -> Option<OneLiteral>
    ensures { MatchOption result ((form : OneLiteral) → IsOneLiteral tokens.now form → ⊥)
        (λ form. IsOneLiteral tokens.now form) }
{
    let returned = returned_constant(tokens)?;
    if !have_kinds(tokens, &form_kinds(returned)) {
        return None;
    }
    if !is_spelled_at(tokens, PREFIX, b"rc") || !is_spelled_at(tokens, ATTRIBUTE, b"returns") {
        return None;
    }
    let declared = declared_value(tokens[DECLARATION].text.as_slice())?;
    Some(OneLiteral {
        declared,
        returned,
        places: LiteralPlaces {
            name: tokens[NAME].place,
            body: tokens[BODY].place,
            return_: tokens[RETURN].place,
            literal: tokens[RETURNED].place,
        },
    })
}

/// The largest value of an `int`.
const MAXIMUM: u128 = 2147483647;

/// The decimal constant that stands behind `return`, if an `int` holds it.
fn returned_constant(tokens: &[Token]) -> Option<u32>
    ensures { MatchOption result
        ((token : Token) (value : ℕ) → slice_get tokens.now RETURNED ≡ Some token
        → token.kind ≡ Integer (decimal_constant value) → value < 2 ^ 31 → ⊥)
        (λ value. (token : Token) × (slice_get tokens.now RETURNED ≡ Some token)
        × (token.kind ≡ Integer (decimal_constant value)) × (value < 2 ^ 31)) }
{
    match tokens.get(RETURNED)?.kind {
        TokenKind::Integer(constant) => in_int(constant),
        _ => None,
    }
}

/// The value of a decimal constant without a suffix, if an `int` holds it.
fn in_int(constant: IntegerConstant) -> Option<u32>
    ensures { MatchOption result ((value : ℕ) → constant ≡ decimal_constant value → value < 2 ^ 31 → ⊥)
        (λ value. (constant ≡ decimal_constant value) × (value < 2 ^ 31)) }
{
    match constant {
        IntegerConstant {
            value,
            base: IntegerBase::Decimal,
            suffix: IntegerSuffix::Plain,
        } if value <= MAXIMUM => Some(value as u32),
        _ => None,
    }
}

/// Whether the tokens have these kinds, one by one.
fn have_kinds(tokens: &[Token], kinds: &[TokenKind]) -> bool
    ensures { IsTrue result ↔ (map (λ token. token.kind) tokens.now ≡ kinds.now) }
{
    if tokens.len() != kinds.len() {
        return false;
    }
    for (index, token) in tokens.iter().enumerate() {
        if !is_same_kind(token.kind, kinds[index]) {
            return false;
        }
    }
    true
}

fn is_same_kind(kind: TokenKind, other: TokenKind) -> bool
    ensures { IsTrue result ↔ (kind ≡ other) }
{
    match kind {
        TokenKind::Identifier => match other {
            TokenKind::Identifier => true,
            _ => false,
        },
        TokenKind::HeaderType(header_type) => match other {
            TokenKind::HeaderType(wanted) => header_type == wanted,
            _ => false,
        },
        TokenKind::AtomicOperation(operation) => match other {
            TokenKind::AtomicOperation(wanted) => operation == wanted,
            _ => false,
        },
        TokenKind::Keyword(keyword) => match other {
            TokenKind::Keyword(wanted) => keyword == wanted,
            _ => false,
        },
        TokenKind::Integer(constant) => match other {
            TokenKind::Integer(wanted) => is_same_constant(constant, wanted),
            _ => false,
        },
        TokenKind::Floating => match other {
            TokenKind::Floating => true,
            _ => false,
        },
        TokenKind::Character(constant) => match other {
            TokenKind::Character(wanted) => constant == wanted,
            _ => false,
        },
        TokenKind::StringLiteral => match other {
            TokenKind::StringLiteral => true,
            _ => false,
        },
        TokenKind::Punctuator(punctuator) => match other {
            TokenKind::Punctuator(wanted) => punctuator == wanted,
            _ => false,
        },
        TokenKind::NullPointer => match other {
            TokenKind::NullPointer => true,
            _ => false,
        },
    }
}

fn is_same_constant(constant: IntegerConstant, other: IntegerConstant) -> bool
    ensures { IsTrue result ↔ (constant ≡ other) }
{
    constant == other
}

/// Whether the token at a position is spelled so.
fn is_spelled_at(tokens: &[Token], position: usize, text: &[u8]) -> bool
    ensures { IsTrue result ↔ IsSpelledAt tokens.now position text.now }
{
    match tokens.get(position) {
        None => false,
        Some(token) => token.text.as_slice() == text,
    }
}

/// The kinds of the form's tokens, in order.
fn form_kinds(returned: u32) -> [TokenKind; LENGTH]
    ensures { result ≡ form_kinds returned }
{
    [
        TokenKind::Punctuator(Punctuator::OpenBracket),
        TokenKind::Punctuator(Punctuator::OpenBracket),
        TokenKind::Identifier,
        TokenKind::Punctuator(Punctuator::DoubleColon),
        TokenKind::Identifier,
        TokenKind::Punctuator(Punctuator::OpenParenthesis),
        TokenKind::StringLiteral,
        TokenKind::Punctuator(Punctuator::CloseParenthesis),
        TokenKind::Punctuator(Punctuator::CloseBracket),
        TokenKind::Punctuator(Punctuator::CloseBracket),
        TokenKind::Keyword(Keyword::Int),
        TokenKind::Identifier,
        TokenKind::Punctuator(Punctuator::OpenParenthesis),
        TokenKind::Keyword(Keyword::Void),
        TokenKind::Punctuator(Punctuator::CloseParenthesis),
        TokenKind::Punctuator(Punctuator::OpenBrace),
        TokenKind::Keyword(Keyword::Return),
        TokenKind::Integer(IntegerConstant {
            value: u128::from(returned),
            base: IntegerBase::Decimal,
            suffix: IntegerSuffix::Plain,
        }),
        TokenKind::Punctuator(Punctuator::Semicolon),
        TokenKind::Punctuator(Punctuator::CloseBrace),
    ]
}

/// The value K of the string `"K @ int<i32>"`, its quotes included. None for another string.
fn declared_value(text: &[u8]) -> Option<u32>
    ensures { MatchOption result
        ((declared : ℕ) → declared < 2 ^ 31 → text.now ≢ declaration declared)
        (λ declared. (declared < 2 ^ 31) × (text.now ≡ declaration declared)) }
{
    let unquoted = text.strip_prefix(b"\"")?;
    let digits = unquoted.strip_suffix(b" @ int<i32>\"")?;
    let constant = integer_constant(digits)?;
    Some(constant.value)
}
