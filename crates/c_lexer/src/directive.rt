ghost use Rattle.std.specs.Prelude.{◌≡◌, ◌≤◌, length};
ghost use Rattle.c_lexer.specs.Comments.{is_line_end};
ghost use Rattle.c_lexer.specs.Directives.{is_constant};
ghost use Rattle.c_lexer.specs.Scanning.Tokens.{is_word_kind, is_identifier};
ghost use Rattle.c_lexer.specs.Scanning.Comments.{begins_blank};
ghost use Rattle.c_lexer.specs.Scanning.Directives.{IsLocated, IsLineEnd, IsDirectiveBody, IsIncludeBody};
ghost use Rattle.c_lexer.specs.Scanning.Directives.{IsDefineBody, IsIdentifierBehind, IsConstantBehind, IsNameBehind};
ghost use Rattle.c_lexer.specs.Scanning.Directives.{IsConstantLineBody, IsIncludeBehind, IsDefineBehind};

use crate::byte::is_blank;
use crate::gap::whole_gap;
use crate::header::Header;
use crate::scanner::scan;
use crate::token::TokenKind;

/// A token behind blanks and comments, by where it begins and ends.
#[derive(Clone, Copy, Debug)]
pub(crate) struct Located {
    pub kind: TokenKind,
    pub start: usize,
    pub end: usize,
}

/// What a name stands for, and where the name begins and ends.
#[derive(Clone, Copy, Debug)]
pub(crate) struct Definition {
    pub kind: TokenKind,
    pub start: usize,
    pub end: usize,
}

#[derive(Clone, Copy, Debug)]
pub(crate) enum DirectiveKind {
    Include(Header),
    Define(Definition),
}

/// What stands behind a directive's `#`. Its places and its length count from there.
#[derive(Clone, Copy, Debug)]
pub(crate) struct FoundDirective {
    pub kind: DirectiveKind,
    pub length: usize,
}

/// Whether the bytes are none, or begin with a blank.
fn begins_blank(bytes: &[u8]) -> bool
    ensures { result ≡ begins_blank bytes.now }
{
    match *bytes {
        [] => true,
        [first, ..] => is_blank(first),
    }
}

/// Whether nothing more stands on the line.
fn is_line_end(bytes: &[u8]) -> bool
    ensures { result ≡ is_line_end bytes.now }
{
    match *bytes {
        [] => true,
        [first, ..] => first == b'\n',
    }
}

/// The first token of a line.
fn first_token(bytes: &[u8]) -> Option<Located>
    ensures { IsLocated bytes.now result }
{
    let start = whole_gap(bytes);
    let rest = &bytes[start..];
    if begins_blank(rest) {
        return None;
    }
    match scan(rest) {
        Ok(scanned) => Some(Located {
            kind: scanned.kind,
            start,
            end: start + scanned.length,
        }),
        Err(_) => None,
    }
}

/// Where the line ends, if nothing but blanks and comments comes before.
fn line_end(bytes: &[u8]) -> Option<usize>
    ensures { IsLineEnd bytes.now result }
{
    let end = whole_gap(bytes);
    if is_line_end(&bytes[end..]) {
        Some(end)
    } else {
        None
    }
}

/// Whether a token is an identifier or a keyword.
fn is_word(kind: TokenKind) -> bool
    ensures { result ≡ is_word_kind kind }
{
    matches!(kind, TokenKind::Identifier | TokenKind::Keyword(_))
}

fn is_identifier(kind: TokenKind) -> bool
    ensures { result ≡ is_identifier kind }
{
    matches!(kind, TokenKind::Identifier)
}

fn is_constant(kind: TokenKind) -> bool
    ensures { result ≡ is_constant kind }
{
    matches!(
        kind,
        TokenKind::Integer(_) | TokenKind::Floating | TokenKind::Character(_)
    )
}

/// The identifier or keyword that is the first token of a line, by where it begins and ends.
pub(crate) fn name_behind(bytes: &[u8]) -> Option<(usize, usize)>
    ensures { IsNameBehind bytes.now result }
{
    match first_token(bytes) {
        Some(word) => {
            if is_word(word.kind) {
                Some((word.start, word.end))
            } else {
                None
            }
        }
        None => None,
    }
}

/// The identifier that is the first token of a line.
fn identifier(bytes: &[u8]) -> Option<Located>
    ensures { IsIdentifierBehind bytes.now result }
{
    match first_token(bytes) {
        Some(word) => {
            if is_identifier(word.kind) {
                Some(word)
            } else {
                None
            }
        }
        None => None,
    }
}

/// The constant that is the first token of a line.
fn constant(bytes: &[u8]) -> Option<Located>
    ensures { IsConstantBehind bytes.now result }
{
    match first_token(bytes) {
        Some(token) => {
            if is_constant(token.kind) {
                Some(token)
            } else {
                None
            }
        }
        None => None,
    }
}

/// What stands behind `include`, with its length.
fn include(bytes: &[u8]) -> Option<(Header, usize)>
    ensures { IsIncludeBody bytes.now result }
{
    let start = whole_gap(bytes);
    match Header::at_front(&bytes[start..]) {
        Some(header) => {
            let end = start + header.length();
            match line_end(&bytes[end..]) {
                Some(last) => Some((header, end + last)),
                None => None,
            }
        }
        None => None,
    }
}

/// What stands behind `define`, with its length.
fn define(bytes: &[u8]) -> Option<(Definition, usize)>
    ensures { IsDefineBody bytes.now result }
{
    match identifier(bytes) {
        Some(name) => match constant_line(&bytes[name.end..]) {
            Some((kind, length)) => {
                let definition = Definition {
                    kind,
                    start: name.start,
                    end: name.end,
                };
                Some((definition, name.end + length))
            }
            None => None,
        },
        None => None,
    }
}

/// The constant that alone stands on the line, with the line's length.
fn constant_line(bytes: &[u8]) -> Option<(TokenKind, usize)>
    ensures { IsConstantLineBody bytes.now result }
{
    match constant(bytes) {
        Some(constant) => match line_end(&bytes[constant.end..]) {
            Some(last) => Some((constant.kind, constant.end + last)),
            None => None,
        },
        None => None,
    }
}

/// What stands behind a directive's `#` (C11 6.10).
pub(crate) fn directive_body(bytes: &[u8]) -> Option<FoundDirective>
    ensures { IsDirectiveBody bytes.now result }
{
    match identifier(bytes) {
        Some(word) => {
            let text = &bytes[word.start..word.end];
            if text == b"include".as_slice() {
                include_body(bytes, word.end)
            } else if text == b"define".as_slice() {
                define_body(bytes, word.end)
            } else {
                None
            }
        }
        None => None,
    }
}

/// The include whose word ends at a place.
fn include_body(bytes: &[u8], end: usize) -> Option<FoundDirective>
    requires { end ≤ length bytes.now }
    ensures { IsIncludeBehind bytes.now end result }
{
    match include(&bytes[end..]) {
        Some((header, length)) => Some(FoundDirective {
            kind: DirectiveKind::Include(header),
            length: end + length,
        }),
        None => None,
    }
}

/// The definition whose word ends at a place.
fn define_body(bytes: &[u8], end: usize) -> Option<FoundDirective>
    requires { end ≤ length bytes.now }
    ensures { IsDefineBehind bytes.now end result }
{
    match define(&bytes[end..]) {
        Some((definition, length)) => Some(FoundDirective {
            kind: DirectiveKind::Define(Definition {
                kind: definition.kind,
                start: end + definition.start,
                end: end + definition.end,
            }),
            length: end + length,
        }),
        None => None,
    }
}
