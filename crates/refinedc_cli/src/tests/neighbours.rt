use crate::status::Status;
use crate::tests::{expect, expect_fault, expect_faults};
use rc_text::NoMemory;
use std::alloc::Global;
use std::test::Fail;

// One byte or word away from the form: read to a tree, and not yet checked.
#[test]
fn other_files_are_not_yet_checked(rt: HostRuntime) -> Result<(), Fail> {
    let rows: &[&[u8]] = &[
        b"",
        b" \n\t",
        b"// nothing\n",
        b"#define N 07\n[[rc::returns(\"7 @ int<i32>\")]] int f(void) { return N; }",
        b"[[rc::returns(\"7 @ int<i32>\")]] int f(void) { return '\\n'; }",
        b"int f(void) { return 7; }",
        b"[[rc::returns(\"07 @ int<i32>\")]] int f(void) { return 7; }",
        b"[[rc::returns(\"7 @ int<i32>\")]] int f(void) { return 07; }",
        b"[[rc::returns(\"7 @ int<i32>\")]] int f(void) { return 00; }",
        b"[[rc::returns(\"7 @ int<i32>\")]] int f(void) { return 2147483648; }",
        b"[[rc::returns(\"2147483648 @ int<i32>\")]] int f(void) { return 7; }",
        b"[[rc::returns(\"7 @ int<i32>\")]] int f(void) { return -7; }",
        b"[[rc::returns(\"-7 @ int<i32>\")]] int f(void) { return 7; }",
        b"[[rc::returns(\"7 @ int<i32>\")]] int f(void) { return 7u; }",
        b"[[rc::returns(\"7 @ int<i32>\")]] int f(void) { return 0x7; }",
        b"[[rc::returns(\"7  @ int<i32>\")]] int f(void) { return 7; }",
        b"[[rc::returns(\" 7 @ int<i32>\")]] int f(void) { return 7; }",
        b"[[rc::returns(\"7 @ int<i32> \")]] int f(void) { return 7; }",
        b"[[rc::returns(\"7@int<i32>\")]] int f(void) { return 7; }",
        b"[[rc::returns(\"7 @ int<u32>\")]] int f(void) { return 7; }",
        b"[[rc::returns(\"\")]] int f(void) { return 7; }",
        b"[[rc::args(\"7 @ int<i32>\")]] int f(void) { return 7; }",
        b"[[rd::returns(\"7 @ int<i32>\")]] int f(void) { return 7; }",
        b"[[rc::returns(\"7 @ int<i32>\")]] int f(void) { return7; }",
        b"[[rc::returns(\"7 @ int<i32>\")]] int f(void) { return 7l; }",
    ];
    for content in rows {
        expect_fault(&rt, rt.alloc(), content, "1:1: NotYet")?;
    }
    Ok(())
}

// One byte or word away from the form, and no file of the grammar.
#[test]
fn other_files_have_syntax_faults(rt: HostRuntime) -> Result<(), Fail> {
    let rows: &[(&[u8], &str)] = &[
        (
            b"#define f 7\n[[rc::returns(\"7 @ int<i32>\")]] int f(void) { return 7; }",
            "2:37: Syntax",
        ),
        (
            b"[[rc::return(\"7 @ int<i32>\")]] int f(void) { return 7; }",
            "1:7: Syntax",
        ),
        (
            b"[[rc::returns(\"7 @ int<i32>\")]] int int(void) { return 7; }",
            "1:37: Syntax",
        ),
        (
            b"[[rc::returns(\"7 @ int<i32>\")]] int asm(void) { return 7; }",
            "1:37: Refused asm",
        ),
        (
            b"[[rc::returns(\"7 @ int<i32>\")]] intf(void) { return 7; }",
            "1:33: Syntax",
        ),
        (
            b"[[rc::returns(\"7 @ int<i32>\")]] int f(void) { return 7; } ;",
            "1:59: Syntax",
        ),
        (
            b"[[rc::returns(\"7 @ int<i32>\")]] int f(void) { return 7.0; }",
            "1:54: Refused floating constant",
        ),
    ];
    expect_faults(&rt, rt.alloc(), rows)
}

/// The form's tokens. Beside each stands the fault of the file in which it is missing, in which it is doubled, and in
/// which its first byte is cut off, with a blank behind each token.
const CHANGED: &[(&str, &str, &str, &str)] = &[
    ("[", "1:3: Syntax", "1:5: Syntax", "1:4: Syntax"),
    ("[", "1:3: Syntax", "1:5: Syntax", "1:4: Syntax"),
    ("rc", "1:5: Syntax", "1:8: Syntax", "1:1: NotYet"),
    ("::", "1:8: Syntax", "1:11: Syntax", "1:8: Syntax"),
    ("returns", "1:11: Syntax", "1:19: Syntax", "1:1: NotYet"),
    ("(", "1:19: Syntax", "1:21: Syntax", "1:20: Syntax"),
    (
        "\"8 @ int<i32>\"",
        "1:1: NotYet",
        "1:36: Syntax",
        "1:23: BadByte",
    ),
    (")", "1:36: Syntax", "1:38: Syntax", "1:37: Syntax"),
    ("]", "1:40: Syntax", "1:42: Syntax", "1:41: Syntax"),
    ("]", "1:40: Syntax", "1:42: Syntax", "1:41: Syntax"),
    ("int", "1:42: Syntax", "1:46: Syntax", "1:42: Syntax"),
    ("f", "1:46: Syntax", "1:48: Syntax", "1:47: Syntax"),
    ("(", "1:48: Syntax", "1:50: Syntax", "1:49: Syntax"),
    ("void", "1:50: Syntax", "1:55: Syntax", "1:50: Syntax"),
    (")", "1:55: Syntax", "1:57: Syntax", "1:56: Syntax"),
    ("{", "1:57: Syntax", "1:74: Syntax", "1:58: Syntax"),
    ("return", "1:1: NotYet", "1:66: Syntax", "1:65: Syntax"),
    ("7", "1:1: NotYet", "1:68: Syntax", "1:1: NotYet"),
    (";", "1:68: Syntax", "1:1: NotYet", "1:69: Syntax"),
    ("}", "1:70: Syntax", "1:72: Syntax", "1:71: Syntax"),
];

#[derive(Clone, Copy, Debug, PartialEq, Eq)]
enum Change {
    None,
    Missing,
    Doubled,
    Cut,
}

/// The form's tokens, of which one is changed, with one blank or line feed behind each.
fn changed(alloc: Global, at: usize, change: Change, seam: u8) -> Result<Vec<u8>, NoMemory> {
    let mut content = Vec::new(alloc);
    for (index, (token, ..)) in CHANGED.iter().enumerate() {
        let bytes = token.as_bytes();
        if index == at && change == Change::Missing {
            continue;
        }
        let cut = usize::from(index == at && change == Change::Cut);
        content.extend_from_slice(bytes.get(cut..).unwrap_or(&[]))?;
        content.push(seam)?;
        if index == at && change == Change::Doubled {
            content.extend_from_slice(bytes)?;
            content.push(seam)?;
        }
    }
    Ok(content)
}

#[test]
fn every_token_counts(rt: HostRuntime) -> Result<(), Fail> {
    let alloc = rt.alloc();
    for (at, (_token, missing, doubled, cut)) in CHANGED.iter().enumerate() {
        for (change, fault) in [
            (Change::Missing, missing),
            (Change::Doubled, doubled),
            (Change::Cut, cut),
        ] {
            let content = changed(alloc, at, change, b' ')?;
            expect_fault(&rt, alloc, content.as_slice(), fault)?;
        }
    }
    Ok(())
}

// Before `return` stand 42 bytes of tokens, and a seam behind each of the 16 tokens.
#[test]
fn no_blank_counts(rt: HostRuntime) -> Result<(), Fail> {
    let alloc = rt.alloc();
    for (seam, out) in [
        (b' ', "refused f.c:1:59: unsolved 7 = 8\n"),
        (b'\t', "refused f.c:1:59: unsolved 7 = 8\n"),
        (b'\n', "refused f.c:17:1: unsolved 7 = 8\n"),
    ] {
        let content = changed(alloc, 0, Change::None, seam)?;
        let want = (Status::Refused, out, "");
        expect(&rt, alloc, &["check", "f.c"], content.as_slice(), want)?;
    }
    Ok(())
}
