ghost use Rattle.std.specs.Prelude.{◌≡◌, ℕ, ◌<◌, ◌≤◌, List, length, take, drop, IsTrue, MatchOption};
ghost use Rattle.c_lexer.specs.declared.fault.LexFaultKind.{LexFaultKind};
ghost use Rattle.c_lexer.specs.TokenLists.{TokenLists};
ghost use Rattle.c_lexer.specs.Elements.{ElementKind, ElementBegins, NoElementBegins};
ghost use Rattle.c_lexer.specs.Files.{AreTokensOf, Opens, token_limit};
ghost use Rattle.c_lexer.specs.Scanning.Elements.{CanOpen};
ghost use Rattle.c_lexer.specs.Scanning.Reading.{is_fresh_after, token_count, HasPassed};

use crate::directive::name_behind;
use crate::element::{element, is_fresh_after, token_count};
use crate::punctuator::Punctuator;
use crate::reader::TOKEN_LIMIT;
use crate::scanner::Unread;

/// By so many bytes at a file's front it is told whether the whole may have too many tokens.
const SAMPLE: usize = 4096;

/// What was passed of a file: how many bytes, whether what follows is the first of its line, how many tokens.
#[derive(Clone, Copy, Debug)]
pub(crate) struct Passed {
    pub at: usize,
    pub fresh: bool,
    pub tokens: usize,
}

/// Whether the file has more tokens than it may have. It may say no of a file that has a fault, or whose front
/// has few tokens.
pub(crate) fn has_too_many(bytes: &[u8]) -> bool
    ensures { IsTrue result → (tokens : TokenLists) × AreTokensOf bytes.now tokens
        × (token_limit < length tokens.tokens) }
{
    if bytes.len() <= TOKEN_LIMIT {
        return false;
    }
    let front = pass(bytes, SAMPLE);
    if front.tokens <= TOKEN_LIMIT / (bytes.len() / SAMPLE + 1) {
        return false;
    }
    let all = pass(bytes, bytes.len());
    bytes.len() <= all.at && TOKEN_LIMIT < all.tokens
}

/// Passes the elements of a file up to a place, or up to its fault. It keeps nothing of them.
pub(crate) fn pass(bytes: &[u8], end: usize) -> Passed
    requires { end ≤ length bytes.now }
    ensures passed { HasPassed bytes.now result.at result.fresh result.tokens }
    ensures stops { result.at < end → NoElementBegins (IsTrue result.fresh) (drop result.at bytes.now)
        × ((kind : LexFaultKind) × Opens kind (drop result.at bytes.now)) }
{
    let mut passed = Passed {
        at: 0,
        fresh: true,
        tokens: 0,
    };
    while passed.at < end {
        match step(&bytes[passed.at..], passed.fresh) {
            Some(next) => {
                passed = Passed {
                    at: passed.at + next.at,
                    fresh: next.fresh,
                    tokens: passed.tokens + next.tokens,
                };
            }
            None => return passed,
        }
    }
    passed
}

/// What is passed with the element that begins the bytes; where none begins them, a fault does.
fn step(rest: &[u8], fresh: bool) -> Option<Passed>
    requires { 0 < length rest.now }
    ensures { MatchOption result
        (NoElementBegins (IsTrue fresh) rest.now × ((kind : LexFaultKind) × Opens kind rest.now))
        (λ step. (0 < step.at) × (step.at ≤ length rest.now) × ((kind : ElementKind)
        × ElementBegins (IsTrue fresh) rest.now kind (take step.at rest.now) (drop step.at rest.now)
        × (step.fresh ≡ is_fresh_after kind (take step.at rest.now) fresh) × (step.tokens ≡ token_count kind))) }
{
    if let Some(_) = Punctuator::alone(rest[0]) {
        return Some(Passed {
            at: 1,
            fresh: false,
            tokens: 1,
        });
    }
    match element(rest, fresh) {
        Ok(found) => {
            let text = &rest[..found.length];
            Some(Passed {
                at: found.length,
                fresh: is_fresh_after(found.kind, text, fresh),
                tokens: token_count(found.kind),
            })
        }
        Err(unread) => {
            a_fault_opens(unread, rest);
            None
        }
    }
}

/// Bytes that begin no element are those of a fault.
fn a_fault_opens(unread: Unread, bytes: &[u8])
    requires { CanOpen unread bytes.now }
    ensures { (kind : LexFaultKind) × Opens kind bytes.now }
{
    match unread {
        Unread::Byte | Unread::Comment | Unread::Text | Unread::Number => (),
        Unread::Directive => {
            let _ = name_behind(&bytes[1..]);
        }
    }
}
