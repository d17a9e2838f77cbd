use crate::status::Status;
use crate::tests::{LISTING, SEVEN, expect, expect_fault};
use rc_text::NoMemory;
use std::alloc::Global;
use std::test::Fail;

const DEEP: (Status, &str, &str) = (Status::Limit, "", "limit depth 200\n");

const MANY: (Status, &str, &str) = (Status::Limit, "", "limit tokens 200000\n");

// Blanks fill a file up to the limit, and one byte more passes it.
#[test]
fn a_file_has_at_most_1048576_bytes(rt: HostRuntime) -> Result<(), Fail> {
    let alloc = rt.alloc();
    for (length, want) in [
        (1048576, (Status::Accepted, LISTING, "")),
        (1048577, (Status::Limit, "", "limit file bytes 1048576\n")),
    ] {
        let mut content = SEVEN.as_bytes().to_vec(alloc)?;
        content.resize(length, b'\n')?;
        expect(&rt, alloc, &["check", "f.c"], content.as_slice(), want)?;
    }
    Ok(())
}

/// A function of so many empty statements: each is one token, and seven more stand around them.
fn statements(alloc: Global, count: usize) -> Result<Vec<u8>, NoMemory> {
    let mut content = b"void f(void) {".to_vec(alloc)?;
    for _one in 0..count {
        content.push(b';')?;
    }
    content.push(b'}')?;
    Ok(content)
}

#[test]
fn a_file_has_at_most_200000_tokens(rt: HostRuntime) -> Result<(), Fail> {
    let alloc = rt.alloc();
    let most = statements(alloc, 199993)?;
    expect_fault(&rt, alloc, most.as_slice(), "1:1: NotYet")?;
    let more = statements(alloc, 199994)?;
    expect(&rt, alloc, &["check", "f.c"], more.as_slice(), MANY)?;
    Ok(())
}

// A lexical fault comes before the limit on tokens, and that before each fault of the grammar.
#[test]
fn the_limit_on_tokens_comes_between_the_faults(rt: HostRuntime) -> Result<(), Fail> {
    let alloc = rt.alloc();
    let mut content = Vec::new(alloc);
    content.resize(200001, b'{')?;
    expect(&rt, alloc, &["check", "f.c"], content.as_slice(), MANY)?;
    content.push(b'@')?;
    expect_fault(&rt, alloc, content.as_slice(), "1:200002: BadByte")?;
    Ok(())
}

/// The text with so many times a piece in front of its middle, and as many times another behind it.
fn nested(
    alloc: Global,
    parts: (&[u8], &[u8], &[u8], &[u8], &[u8]),
    count: usize,
) -> Result<Vec<u8>, NoMemory> {
    let (front, open, middle, close, back) = parts;
    let mut content = front.to_vec(alloc)?;
    for _one in 0..count {
        content.extend_from_slice(open)?;
    }
    content.extend_from_slice(middle)?;
    for _one in 0..count {
        content.extend_from_slice(close)?;
    }
    content.extend_from_slice(back)?;
    Ok(content)
}

// A function's body is one node, its statements are the second, and expressions and types in them come from the third
// on.
#[test]
fn a_file_is_at_most_200_deep(rt: HostRuntime) -> Result<(), Fail> {
    let alloc = rt.alloc();
    let rows: [((&[u8], &[u8], &[u8], &[u8], &[u8]), u8); 4] = [
        ((b"void f(void) {", b"{", b"", b"}", b"}"), 199),
        ((b"int f(void) { return ", b"(", b"7", b")", b"; }"), 197),
        ((b"int f(void) { return ", b"- ", b"7", b"", b"; }"), 197),
        ((b"typedef int ", b"*", b"t", b"", b";"), 199),
    ];
    for (parts, most) in rows {
        let most = usize::from(most);
        let content = nested(alloc, parts, most)?;
        expect_fault(&rt, alloc, content.as_slice(), "1:1: NotYet")?;
        let content = nested(alloc, parts, most + 1)?;
        expect(&rt, alloc, &["check", "f.c"], content.as_slice(), DEEP)?;
    }
    Ok(())
}

// Of two things in a file, the depth and a fault of the grammar, the one that comes first in it is told.
#[test]
fn depth_is_passed_where_the_file_gets_too_deep(rt: HostRuntime) -> Result<(), Fail> {
    let alloc = rt.alloc();
    let deep: (&[u8], &[u8], &[u8], &[u8], &[u8]) = (b"void f(void) {", b"{", b"", b"}", b"} int;");
    let content = nested(alloc, deep, 200)?;
    expect(&rt, alloc, &["check", "f.c"], content.as_slice(), DEEP)?;
    let late: (&[u8], &[u8], &[u8], &[u8], &[u8]) = (b"int; void f(void) {", b"{", b"", b"}", b"}");
    let content = nested(alloc, late, 200)?;
    expect_fault(&rt, alloc, content.as_slice(), "1:4: Syntax")?;
    Ok(())
}
