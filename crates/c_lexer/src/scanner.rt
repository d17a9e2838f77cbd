ghost use Rattle.std.specs.Prelude.{◌≡◌, ◌<◌, length, IsTrue, IsFalse, slice_index, Ok};
ghost use Rattle.c_lexer.specs.Bytes.{is_letter, is_blank};
ghost use Rattle.c_lexer.specs.Scanning.Tokens.{IsScanned, begins_number, begins_comment, BeginsOtherwise};

use crate::byte::{byte_at, is_digit, is_letter};
use crate::character::character_constant;
use crate::floating::floating_length;
use crate::integer::integer;
use crate::punctuator::Punctuator;
use crate::string::inside_length;
use crate::token::TokenKind;
use crate::word::{word_kind, word_length};

/// A token at the front of some bytes: its kind, and how many bytes spell it.
#[derive(Clone, Copy, Debug)]
pub(crate) struct Scanned {
    pub kind: TokenKind,
    pub length: usize,
}

/// How bytes begin that no token begins.
#[derive(Clone, Copy, Debug)]
pub(crate) enum Unread {
    Byte,
    Comment,
    Text,
    Number,
    Directive,
}

/// The token that begins the bytes, by longest match (C11 6.4, paragraph 4).
pub(crate) fn scan(bytes: &[u8]) -> Result<Scanned, Unread>
    requires some { 0 < length bytes.now }
    requires no_blank { IsFalse (is_blank (slice_index bytes.now 0)) }
    ensures { IsScanned bytes.now result }
{
    let first = bytes[0];
    if is_letter(first) {
        Ok(scan_word(bytes))
    } else if begins_number(bytes) {
        scan_number(bytes)
    } else if first == b'"' {
        scan_string(bytes)
    } else if first == b'\'' {
        scan_character(bytes)
    } else if begins_comment(bytes) {
        Err(Unread::Comment)
    } else {
        scan_punctuator(bytes)
    }
}

/// Whether a digit begins the bytes, or a point and a digit.
fn begins_number(bytes: &[u8]) -> bool
    ensures { result ≡ begins_number bytes.now }
{
    let first = byte_at(bytes, 0);
    is_digit(first) || (first == b'.' && is_digit(byte_at(bytes, 1)))
}

/// Whether `/*` or `//` begins the bytes.
fn begins_comment(bytes: &[u8]) -> bool
    ensures { result ≡ begins_comment bytes.now }
{
    let second = byte_at(bytes, 1);
    byte_at(bytes, 0) == b'/' && (second == b'*' || second == b'/')
}

#[inline(never)]
fn scan_word(bytes: &[u8]) -> Scanned
    requires some { 0 < length bytes.now }
    requires letter { IsTrue (is_letter (slice_index bytes.now 0)) }
    ensures { IsScanned bytes.now (Ok result) }
{
    let length = word_length(bytes);
    Scanned {
        kind: word_kind(&bytes[..length]),
        length,
    }
}

#[inline(never)]
fn scan_number(bytes: &[u8]) -> Result<Scanned, Unread>
    requires { IsTrue (begins_number bytes.now) }
    ensures { IsScanned bytes.now result }
{
    let floating = floating_length(bytes);
    if floating > 0 {
        return Ok(Scanned {
            kind: TokenKind::Floating,
            length: floating,
        });
    }
    let length = word_length(bytes);
    match integer(&bytes[..length]) {
        Some(constant) => Ok(Scanned {
            kind: TokenKind::Integer(constant),
            length,
        }),
        None => Err(Unread::Number),
    }
}

#[inline(never)]
fn scan_string(bytes: &[u8]) -> Result<Scanned, Unread>
    requires some { 0 < length bytes.now }
    requires quote { slice_index bytes.now 0 ≡ 34 }
    ensures { IsScanned bytes.now result }
{
    let closing = inside_length(&bytes[1..]) + 1;
    if closing < bytes.len() && bytes[closing] == b'"' {
        Ok(Scanned {
            kind: TokenKind::StringLiteral,
            length: closing + 1,
        })
    } else {
        Err(Unread::Text)
    }
}

#[inline(never)]
fn scan_character(bytes: &[u8]) -> Result<Scanned, Unread>
    requires some { 0 < length bytes.now }
    requires quote { slice_index bytes.now 0 ≡ 39 }
    ensures { IsScanned bytes.now result }
{
    match character_constant(bytes) {
        Some(quoted) => Ok(Scanned {
            kind: TokenKind::Character(quoted.constant),
            length: quoted.length,
        }),
        None => Err(Unread::Number),
    }
}

fn scan_punctuator(bytes: &[u8]) -> Result<Scanned, Unread>
    requires { BeginsOtherwise bytes.now }
    ensures { IsScanned bytes.now result }
{
    match Punctuator::at_front(bytes) {
        Some(punctuator) => Ok(Scanned {
            kind: TokenKind::Punctuator(punctuator),
            length: punctuator.text().len(),
        }),
        None => Err(Unread::Byte),
    }
}
