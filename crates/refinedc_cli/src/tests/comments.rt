use crate::status::Status;
use crate::tests::{LISTING, expect};
use rc_text::NoMemory;
use std::alloc::Global;
use std::test::Fail;

/// The form's tokens: the function returns 7, as it is declared to.
const TOKENS: [&[u8]; 20] = [
    b"[",
    b"[",
    b"rc",
    b"::",
    b"returns",
    b"(",
    b"\"7 @ int<i32>\"",
    b")",
    b"]",
    b"]",
    b"int",
    b"f",
    b"(",
    b"void",
    b")",
    b"{",
    b"return",
    b"7",
    b";",
    b"}",
];

/// Where the declared value stands among them.
const DECLARED: usize = 6;

/// Another declared value.
const EIGHT: &[u8] = b"\"8 @ int<i32>\"";

/// The tokens with a blank before each, and at one of the seams, or at all of them, a comment: the seams are before
/// each token and at the end.
fn commented(
    alloc: Global,
    declared: &[u8],
    comment: &[u8],
    seam: Option<usize>,
) -> Result<Vec<u8>, NoMemory> {
    let mut content = Vec::new(alloc);
    for (index, token) in TOKENS.iter().enumerate() {
        content.push(b' ')?;
        if seam.is_none() || seam == Some(index) {
            content.extend_from_slice(comment)?;
        }
        let piece = if index == DECLARED { declared } else { *token };
        content.extend_from_slice(piece)?;
    }
    if seam.is_none() || seam == Some(TOKENS.len()) {
        content.extend_from_slice(comment)?;
    }
    Ok(content)
}

// The 16 tokens before `return` have 42 bytes, and with the blanks it stands in column 60, behind a comment of 5 bytes
// in column 65.
#[test]
fn a_comment_may_stand_between_any_two_tokens(rt: HostRuntime) -> Result<(), Fail> {
    let alloc = rt.alloc();
    let accepted = (Status::Accepted, LISTING, "");
    for seam in 0..21 {
        let content = commented(alloc, TOKENS[DECLARED], b"/*;*/", Some(seam))?;
        expect(&rt, alloc, &["check", "f.c"], content.as_slice(), accepted)?;
        let content = commented(alloc, EIGHT, b"/*;*/", Some(seam))?;
        let out = if seam <= 16 {
            "refused f.c:1:65: unsolved 7 = 8\n"
        } else {
            "refused f.c:1:60: unsolved 7 = 8\n"
        };
        let refused = (Status::Refused, out, "");
        expect(&rt, alloc, &["check", "f.c"], content.as_slice(), refused)?;
    }
    Ok(())
}

#[test]
fn comments_may_stand_between_all_tokens(rt: HostRuntime) -> Result<(), Fail> {
    let alloc = rt.alloc();
    let accepted = (Status::Accepted, LISTING, "");
    // Behind 17 comments, a blank and a comment of 5 bytes each, stand 42 bytes of tokens; or 17 lines end.
    let rows: [(&[u8], &str); 3] = [
        (b"/*;*/", "refused f.c:1:145: unsolved 7 = 8\n"),
        (b"// }\n", "refused f.c:18:1: unsolved 7 = 8\n"),
        (b"/*\n*/", "refused f.c:18:3: unsolved 7 = 8\n"),
    ];
    for (comment, out) in rows {
        let content = commented(alloc, TOKENS[DECLARED], comment, None)?;
        expect(&rt, alloc, &["check", "f.c"], content.as_slice(), accepted)?;
        let content = commented(alloc, EIGHT, comment, None)?;
        let refused = (Status::Refused, out, "");
        expect(&rt, alloc, &["check", "f.c"], content.as_slice(), refused)?;
    }
    Ok(())
}

// A line that only looks like an attribute changes the places alone.
#[test]
fn a_plain_comment_line_changes_only_the_places(rt: HostRuntime) -> Result<(), Fail> {
    let alloc = rt.alloc();
    let rows: [(&[u8], (Status, &str, &str)); 2] = [
        (
            b"//@rc::import x\n[[rc::returns(\"7 @ int<i32>\")]] int f(void) { return 7; }",
            (Status::Accepted, LISTING, ""),
        ),
        (
            b"//@rc::import x\n[[rc::returns(\"8 @ int<i32>\")]] int f(void) { return 7; }",
            (Status::Refused, "refused f.c:2:47: unsolved 7 = 8\n", ""),
        ),
    ];
    for (content, want) in rows {
        expect(&rt, alloc, &["check", "f.c"], content, want)?;
    }
    Ok(())
}
