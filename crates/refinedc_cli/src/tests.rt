// Each row runs with ample memory, and the status that it wants is another than want of memory.
mod comments;
mod faults;
mod limits;
mod literals;
mod neighbours;
mod words;

use crate::run::run;
use crate::status::Status;
use rc_text::{Bytes, LastCall, MemoryShelf, MemorySink, NoMemory, Text};
use std::alloc::Global;
use std::process::Abort;
use std::test::Fail;

const SEVEN: &str = "[[rc::returns(\"7 @ int<i32>\")]] int f(void) { return 7; }";

const LISTING: &str = "refinedc 1\n7\n8\n17\n23\n22\n61\n2 t\n1\n1\naccepted\n";

const USAGE: &str = "usage: refinedc COMMAND FILE\n";

/// More calls than any run here makes: no call of this number fails.
const NEVER: u64 = 1000000;

/// What a run leaves.
#[derive(Drop)]
struct Left {
    status: Status,
    /// How many calls the shelf got.
    calls: u64,
    out: MemorySink,
    err: MemorySink,
}

/// Runs the words over a shelf with one file, whose calls of these numbers fail.
fn left_by(
    alloc: Global,
    words: &[&str],
    content: &[u8],
    failing_read: u64,
    failing_write: u64,
    failing_error: u64,
) -> Result<Left, NoMemory> {
    let mut given = Vec::new(alloc);
    for word in words {
        given.push(Text::from_str(alloc, word)?)?;
    }
    let file = (
        Text::from_str(alloc, "f.c")?,
        Bytes::from_slice(alloc, content)?,
    );
    let mut shelf = MemoryShelf {
        files: vec![in alloc; file]?,
        failing: vec![in alloc; failing_read]?,
        calls: 0,
        faults: 0,
        last: LastCall::Answered,
        current: None,
        at: 0,
    };
    let mut out = MemorySink::new(alloc, 1000, &[failing_write])?;
    let mut err = MemorySink::new(alloc, 1000, &[failing_error])?;
    let status = run(alloc, given.as_slice(), &mut shelf, &mut out, &mut err);
    let calls = shelf.calls;
    Ok(Left {
        status,
        calls,
        out,
        err,
    })
}

/// What stands on the two sinks is that of the status, where nothing fails.
fn expect(
    rt: &impl Abort,
    alloc: Global,
    words: &[&str],
    content: &[u8],
    want: (Status, &str, &str),
) -> Result<(), NoMemory> {
    let left = left_by(alloc, words, content, NEVER, NEVER, NEVER)?;
    let (status, out, err) = want;
    assert!(rt; left.status == status, "the status of {content:?}");
    assert!(rt;
        left.out.bytes.as_slice() == out.as_bytes(),
        "the output of {content:?}"
    );
    assert!(rt;
        left.err.bytes.as_slice() == err.as_bytes(),
        "the error of {content:?}"
    );
    Ok(())
}

/// What stands on standard error for a file with a fault, of which this is the text behind the file's name.
fn expect_fault(rt: &impl Abort, alloc: Global, content: &[u8], fault: &str) -> Result<(), Fail> {
    let err = format!(in alloc; "f.c:{fault}\n")?;
    let want = (Status::FileRefused, "", err.as_str());
    Ok(expect(rt, alloc, &["check", "f.c"], content, want)?)
}

fn expect_faults(rt: &impl Abort, alloc: Global, rows: &[(&[u8], &str)]) -> Result<(), Fail> {
    for (content, fault) in rows {
        expect_fault(rt, alloc, content, fault)?;
    }
    Ok(())
}
