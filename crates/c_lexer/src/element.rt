ghost use Rattle.std.specs.Prelude.{◌<◌, ◌≡◌, ◌==◌, ◌&&◌, ℕ, List, length, slice_index};
ghost use Rattle.c_lexer.specs.Scanning.Elements.{IsFound, IsHashFound, kind_in};
ghost use Rattle.c_lexer.specs.Scanning.Reading.{is_fresh_after, token_count};

use crate::byte::{byte_at, is_blank};
use crate::comment::comment_length;
use crate::directive::{DirectiveKind, directive_body};
use crate::place::has_line_feed;
use crate::scanner::{Unread, scan};
use crate::token::TokenKind;

/// What an element of a file is. The places of a directive count from behind its `#`.
#[derive(Clone, Copy, Debug)]
pub(crate) enum FoundKind {
    Blank,
    Comment,
    DirectiveLine(DirectiveKind),
    SingleToken(TokenKind),
}

/// An element at the front of some bytes, and how many bytes it has.
#[derive(Clone, Copy, Debug)]
pub(crate) struct Found {
    pub kind: FoundKind,
    pub length: usize,
}

/// The element that begins the bytes. Whether no token stands before it on its line decides what a `#` is.
pub(crate) fn element(bytes: &[u8], fresh: bool) -> Result<Found, Unread>
    requires { 0 < length bytes.now }
    ensures { IsFound fresh bytes.now result }
{
    if is_blank(bytes[0]) {
        return Ok(Found {
            kind: FoundKind::Blank,
            length: 1,
        });
    }
    if let Some(length) = comment_length(bytes) {
        return Ok(Found {
            kind: FoundKind::Comment,
            length,
        });
    }
    match scan(bytes) {
        Ok(scanned) => {
            if is_directive(fresh, bytes, scanned.length) {
                directive(bytes)
            } else {
                Ok(Found {
                    kind: FoundKind::SingleToken(scanned.kind),
                    length: scanned.length,
                })
            }
        }
        Err(unread) => Err(unread),
    }
}

/// Whether no token and no directive stands on the line behind an element, given the same before it.
pub(crate) fn is_fresh_after(kind: FoundKind, text: &[u8], fresh: bool) -> bool
    ensures { (bytes : List ℕ) → result ≡ is_fresh_after (kind_in bytes kind) text.now fresh }
{
    match kind {
        FoundKind::Blank | FoundKind::Comment => has_line_feed(text) || fresh,
        FoundKind::DirectiveLine(_) | FoundKind::SingleToken(_) => false,
    }
}

/// How many tokens an element is.
pub(crate) fn token_count(kind: FoundKind) -> usize
    ensures { (bytes : List ℕ) → result ≡ token_count (kind_in bytes kind) }
{
    match kind {
        FoundKind::SingleToken(_) => 1,
        FoundKind::Blank | FoundKind::Comment | FoundKind::DirectiveLine(_) => 0,
    }
}

/// Whether a token of this length is the `#` of a directive.
fn is_directive(fresh: bool, bytes: &[u8], length: usize) -> bool
    ensures { result ≡ (fresh && ((length == 1) && (slice_index bytes.now 0 == 35))) }
{
    fresh && length == 1 && byte_at(bytes, 0) == b'#'
}

/// The directive whose `#` begins the bytes.
#[inline(never)]
fn directive(bytes: &[u8]) -> Result<Found, Unread>
    requires some { 0 < length bytes.now }
    requires hash { slice_index bytes.now 0 ≡ 35 }
    ensures { IsHashFound bytes.now result }
{
    match directive_body(&bytes[1..]) {
        Some(found) => Ok(Found {
            kind: FoundKind::DirectiveLine(found.kind),
            length: found.length + 1,
        }),
        None => Err(Unread::Directive),
    }
}
