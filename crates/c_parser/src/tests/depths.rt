use crate::tests::outcome;
use rc_text::{Bytes, NoMemory};
use std::alloc::Global;
use std::test::Fail;

/// The text with so many times a piece in front of its middle, and as many times another behind it.
fn nested(
    alloc: Global,
    ends: (&[u8], &[u8]),
    pieces: (&[u8], &[u8]),
    count: usize,
    middle: &[u8],
) -> Result<Bytes, NoMemory> {
    let mut text = Bytes::new(alloc);
    text.append(ends.0)?;
    for _one in 0..count {
        text.append(pieces.0)?;
    }
    text.append(middle)?;
    for _one in 0..count {
        text.append(pieces.1)?;
    }
    text.append(ends.1)?;
    Ok(text)
}

const FUNCTION: (&[u8], &[u8]) = (b"int f(void) {", b"}");

const EXPRESSION: (&[u8], &[u8]) = (b"int f(void) {", b";}");

/// The function's body is one node, and each of these is one in another; an expression stands in a statement.
#[test]
fn trees_are_two_hundred_nodes_deep_at_most(rt: HostRuntime) -> Result<(), Fail> {
    let alloc = rt.alloc();
    let rows: &[((&[u8], &[u8]), (&[u8], &[u8]), &[u8], u8)] = &[
        (FUNCTION, (b"{", b"}"), b"", 199),
        (FUNCTION, (b"if (a) ", b""), b";", 198),
        (FUNCTION, (b"while (a) ", b""), b";", 198),
        (EXPRESSION, (b"(", b")"), b"a", 197),
        (EXPRESSION, (b"- ", b""), b"a", 197),
        (EXPRESSION, (b"*", b""), b"a", 197),
        (EXPRESSION, (b"a[", b"]"), b"a", 197),
        (EXPRESSION, (b"f(", b")"), b"a", 197),
        (EXPRESSION, (b"a ? a : ", b""), b"a", 197),
        (EXPRESSION, (b"a = ", b""), b"a", 197),
        (EXPRESSION, (b"", b" + a"), b"a", 197),
        ((b"typedef int ", b";"), (b"*", b""), b"t", 199),
        ((b"typedef int ", b";"), (b"", b"[1]"), b"t", 199),
        ((b"int ", b"(void);"), (b"*", b""), b"f", 199),
        ((b"", b""), (b"struct s {", b"};"), b"int a;", 199),
    ];
    for (ends, pieces, middle, most) in rows {
        let most = usize::from(*most);
        let text = nested(alloc, *ends, *pieces, most, middle)?;
        let found = outcome(&rt, alloc, text.as_slice())?;
        assert!(rt; !found.ends_with("too deep"), "at the limit");
        let text = nested(alloc, *ends, *pieces, most + 1, middle)?;
        let found = outcome(&rt, alloc, text.as_slice())?;
        assert!(rt; found.as_str() == "too deep", "past the limit: {found}");
    }
    Ok(())
}

/// What nests too deep is answered at once, and the machine's stack is not used up.
#[test]
fn very_deep_files_are_refused(rt: HostRuntime) -> Result<(), Fail> {
    let alloc = rt.alloc();
    let rows: &[(&[u8], usize)] = &[
        (b"(", 100000),
        (b"!", 100000),
        (b"*", 100000),
        (b"{", 100000),
        (b"if (a) ", 40000),
    ];
    for (piece, count) in rows {
        let text = nested(alloc, FUNCTION, (*piece, b""), *count, b"a;")?;
        let found = outcome(&rt, alloc, text.as_slice())?;
        assert!(rt; found.as_str() == "too deep");
    }
    Ok(())
}
