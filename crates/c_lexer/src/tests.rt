//! Expected values are worked out by hand from the rules.

mod directives;
mod faults;
mod numbers;
mod places;

use crate::{
    CharacterConstant, IntegerBase, IntegerConstant, IntegerSuffix, Keyword, LexFault,
    LexFaultKind, LexRefusal, Punctuator, TokenKind, Tokens, lex,
};
use rc_text::{Bytes, Place};
use std::alloc::Global;
use std::process::Abort;
use std::test::Fail;

pub(crate) fn lexed(rt: &impl Abort, alloc: Global, text: &[u8]) -> Result<Tokens, LexRefusal> {
    assert!(rt; text.len() < 2000000);
    let bytes = Bytes::from_slice(alloc, text)?;
    lex(alloc, &bytes)
}

/// The kinds of a text's tokens are these.
pub(crate) fn expect_kinds(rt: &impl Abort, alloc: Global, text: &[u8], kinds: &[TokenKind]) {
    match lexed(rt, alloc, text) {
        Ok(tokens) => {
            assert!(rt;
                tokens.len() == kinds.len(),
                "the number of tokens of {text:?}"
            );
            for (index, token) in tokens.as_slice().iter().enumerate() {
                assert!(rt;
                    Some(&token.kind) == kinds.get(index),
                    "token {index} of {text:?}"
                );
            }
        }
        Err(_) => assert!(rt; false, "{text:?} is refused"),
    }
}

/// A text's tokens begin where these do: the tokens' spellings in order, parted by blanks.
pub(crate) fn expect_spellings(
    rt: &impl Abort,
    alloc: Global,
    text: &str,
    want: &str,
) -> Result<(), Fail> {
    let tokens = lexed(rt, alloc, text.as_bytes()).ok().ok_or("refused")?;
    let mut count = 0usize;
    let mut behind = 0usize;
    for spelling in want.split(' ') {
        if spelling.is_empty() {
            continue;
        }
        let place = tokens.as_slice().get(count).ok_or("too few")?.place;
        let at = usize::try_from(place.byte)
            .ok()
            .ok_or("a place past all files")?;
        let rest = text.as_bytes().get(at..).ok_or("a place past the end")?;
        assert!(rt;
            rest.starts_with(spelling.as_bytes()),
            "{text} has {spelling}"
        );
        assert!(rt; behind <= at, "{text} has {spelling} too early");
        behind = at.saturating_add(spelling.len());
        count = count.saturating_add(1);
    }
    assert!(rt; tokens.len() == count, "the number of tokens of {text}");
    Ok(())
}

/// The fault of a text, as its kind's name, its byte, line and column.
pub(crate) type Fault = (&'static str, u32, u32, u32);

pub(crate) fn expect_fault(rt: &impl Abort, alloc: Global, text: &[u8], want: Fault) {
    let (kind, byte, line, column) = want;
    match lexed(rt, alloc, text) {
        Err(LexRefusal::Fault(fault)) => {
            assert!(rt;
                fault.place == Place { byte, line, column },
                "{text:?} at {:?}",
                fault.place
            );
            assert!(rt; is_kind(&fault.kind, kind), "{text:?} is {:?}", fault.kind);
        }
        Ok(_) => assert!(rt; false, "{text:?} is accepted"),
        Err(_) => assert!(rt; false, "{text:?} has no fault"),
    }
}

/// Whether a fault is of the kind of this name; a directive's own name stands behind `#`.
fn is_kind(kind: &LexFaultKind, want: &str) -> bool {
    match kind {
        LexFaultKind::BadByte => want == "BadByte",
        LexFaultKind::OpenComment => want == "OpenComment",
        LexFaultKind::OpenString => want == "OpenString",
        LexFaultKind::BadNumber => want == "BadNumber",
        LexFaultKind::Directive(None) => want == "#",
        LexFaultKind::Directive(Some(name)) => {
            want.as_bytes().first() == Some(&b'#')
                && want.as_bytes().get(1..) == Some(name.as_slice())
        }
    }
}

pub(crate) fn integer(value: u128, base: IntegerBase, suffix: IntegerSuffix) -> TokenKind {
    TokenKind::Integer(IntegerConstant {
        value,
        base,
        suffix,
    })
}

pub(crate) fn decimal(value: u128) -> TokenKind {
    integer(value, IntegerBase::Decimal, IntegerSuffix::Plain)
}

pub(crate) fn character(value: u8) -> TokenKind {
    TokenKind::Character(CharacterConstant { value })
}

#[test]
fn reads_words_and_punctuators(rt: HostRuntime) -> Result<(), Fail> {
    let alloc = rt.alloc();
    expect_kinds(
        &rt,
        alloc,
        b"int _Bool asm int7 _x x_1",
        &[
            TokenKind::Keyword(Keyword::Int),
            TokenKind::Keyword(Keyword::Bool),
            TokenKind::Keyword(Keyword::Asm),
            TokenKind::Identifier,
            TokenKind::Identifier,
            TokenKind::Identifier,
        ],
    );
    for punctuator in [
        Punctuator::Ellipsis,
        Punctuator::LeftShiftAssign,
        Punctuator::Arrow,
        Punctuator::Increment,
        Punctuator::HashHash,
        Punctuator::DoubleColon,
        Punctuator::Point,
        Punctuator::Slash,
        Punctuator::Bar,
        Punctuator::Comma,
    ] {
        expect_kinds(
            &rt,
            alloc,
            punctuator.text().as_bytes(),
            &[TokenKind::Punctuator(punctuator)],
        );
    }
    Ok(())
}

#[test]
fn takes_the_longest(rt: HostRuntime) -> Result<(), Fail> {
    for (text, want) in [
        ("a++b", "a ++ b"),
        ("a+ +b", "a + + b"),
        ("a+++b", "a ++ + b"),
        ("a>>=b", "a >>= b"),
        ("a>>>=b", "a >> >= b"),
        ("...", "..."),
        ("....", "... ."),
        ("..", ". ."),
        (":::", ":: :"),
        ("[[rc::x]]", "[ [ rc :: x ] ]"),
        ("p->q-->r", "p -> q -- > r"),
        ("a#b##c", "a # b ## c"),
        ("L'x'", "L 'x'"),
        ("a/b", "a / b"),
        ("a/ *b", "a / * b"),
        ("x/*/y*/z", "x z"),
        ("x/**/y", "x y"),
        ("x/***/y", "x y"),
        ("x/*\n*/y", "x y"),
        ("x//y\nz", "x z"),
        ("x//y", "x"),
        ("//@rc::import x\ny", "y"),
        ("//@rc::import x", ""),
        ("/*/ */", ""),
        ("", ""),
        (" \t\r\n\x0c", ""),
        ("1.5abc", "1.5 abc"),
        ("1e3x", "1e3 x"),
        ("1e3fx", "1e3f x"),
        ("0x1p3q", "0x1p3 q"),
        ("1..2", "1. .2"),
        ("1.e", "1. e"),
        ("0x1.8", "0x1 .8"),
        ("0x1e+5", "0x1e + 5"),
        ("1e+5", "1e+5"),
        ("a.b.5", "a . b .5"),
        ("\"a\tb\"c", "\"a\tb\" c"),
        ("\"@$`\\\"", "\"@$`\\\""),
        ("'a''b'", "'a' 'b'"),
        ("'\\''", "'\\''"),
        ("%:x", "% : x"),
        ("<:x", "< : x"),
    ] {
        expect_spellings(&rt, rt.alloc(), text, want)?;
    }
    Ok(())
}
