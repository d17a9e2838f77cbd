use crate::LexRefusal;
use crate::tests::lexed;
use rc_text::{Bytes, Place};
use std::test::Fail;

#[test]
fn places_count_bytes(rt: HostRuntime) -> Result<(), Fail> {
    let text = "\ta \"b\tc\"\n/*\n\n*/ d\r\n//e\n  f/**/g\n#define h 1\n h";
    let want = [
        (1, 1, 2),
        (3, 1, 4),
        (16, 4, 4),
        (25, 6, 3),
        (30, 6, 8),
        (45, 8, 2),
    ];
    let tokens = lexed(&rt, rt.alloc(), text.as_bytes())
        .ok()
        .ok_or("refused")?;
    assert_eq!(rt; tokens.len(), 6);
    for (index, token) in tokens.as_slice().iter().enumerate() {
        let (byte, line, column) = token.place_row();
        assert!(rt;
            want.get(index) == Some(&(byte, line, column)),
            "token {index} at {:?}",
            token.place
        );
    }
    Ok(())
}

impl crate::Token {
    fn place_row(&self) -> (u32, u32, u32) {
        let Place { byte, line, column } = self.place;
        (byte, line, column)
    }
}

/// A text many times over.
fn repeated(alloc: std::alloc::Global, text: &[u8], times: u32) -> Result<Bytes, Fail> {
    let mut bytes = Bytes::new(alloc);
    for _ in 0..times {
        bytes.append(text)?;
    }
    Ok(bytes)
}

#[test]
fn reads_large_files(rt: HostRuntime) -> Result<(), Fail> {
    let alloc = rt.alloc();
    let bytes = repeated(alloc, b"x /***/\n", 131072)?;
    assert_eq!(rt; bytes.len(), 1048576);
    let tokens = lexed(&rt, alloc, bytes.as_slice()).ok().ok_or("refused")?;
    assert_eq!(rt; tokens.len(), 131072);
    let comment = repeated(alloc, b"/* **** ", 131072)?;
    let answer = lexed(&rt, alloc, comment.as_slice());
    assert!(rt; matches!(answer, Err(LexRefusal::Fault(_))));
    Ok(())
}

#[test]
fn keeps_the_limit(rt: HostRuntime) -> Result<(), Fail> {
    let alloc = rt.alloc();
    let mut bytes = repeated(alloc, b"x;", 100000)?;
    let tokens = lexed(&rt, alloc, bytes.as_slice()).ok().ok_or("refused")?;
    assert_eq!(rt; tokens.len(), 200000);
    bytes.append(b" \n#define X 1\n")?;
    assert!(rt; lexed(&rt, alloc, bytes.as_slice()).is_ok());
    bytes.append(b"x")?;
    let answer = lexed(&rt, alloc, bytes.as_slice());
    assert!(rt; matches!(answer, Err(LexRefusal::TokenLimit)));
    bytes.append(b"@")?;
    let answer = lexed(&rt, alloc, bytes.as_slice());
    assert!(rt; matches!(answer, Err(LexRefusal::Fault(_))));
    Ok(())
}

#[test]
fn the_end_follows_all_bytes(rt: HostRuntime) -> Result<(), Fail> {
    for (text, byte, line, column) in [
        ("", 0, 1, 1),
        ("a", 1, 1, 2),
        ("a\n", 2, 2, 1),
        (" /* b\n\n */ // c", 15, 3, 9),
        ("a\n#define x 1", 13, 2, 12),
    ] {
        let tokens = lexed(&rt, rt.alloc(), text.as_bytes())
            .ok()
            .ok_or("refused")?;
        assert!(rt;
            tokens.end() == Place { byte, line, column },
            "the end of {text}"
        );
    }
    Ok(())
}
