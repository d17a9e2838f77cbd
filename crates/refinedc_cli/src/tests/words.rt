use crate::status::Status;
use crate::tests::{LISTING, NEVER, SEVEN, USAGE, expect, left_by};
use std::test::Fail;

// Which words are a command.
#[test]
fn words_are_a_command_or_usage(rt: HostRuntime) -> Result<(), Fail> {
    let alloc = rt.alloc();
    let usage = (Status::Usage, "", USAGE);
    let rows: [(&[&str], (Status, &str, &str)); 12] = [
        (&["check", "f.c"], (Status::Accepted, LISTING, "")),
        (
            &["check", "g.c"],
            (Status::ReadFault, "", "read fault g.c\n"),
        ),
        (&["check", ""], (Status::ReadFault, "", "read fault \n")),
        (&[], usage),
        (&["check"], usage),
        (&["check", "a", "b"], usage),
        (&["check", "f.c", "f.c"], usage),
        (&["check", "-"], usage),
        (&["check", "--brief"], usage),
        (&["check", "-f.c"], usage),
        (&["Check", "f.c"], usage),
        (&["verify", "f.c"], usage),
    ];
    for (words, want) in rows {
        expect(&rt, alloc, words, SEVEN.as_bytes(), want)?;
    }
    Ok(())
}

// The file has 57 bytes and the listing 44, at most 16 a call: call 0 opens, calls 1 to 4 read, and call
// 5 finds the end; and the listing is written in three calls.
#[test]
fn each_call_fails_in_turn(rt: HostRuntime) -> Result<(), Fail> {
    let alloc = rt.alloc();
    for call in 0..8 {
        let left = left_by(
            alloc,
            &["check", "f.c"],
            SEVEN.as_bytes(),
            call,
            NEVER,
            NEVER,
        )?;
        let (status, out, err) = if call < 6 {
            (Status::ReadFault, "", "read fault f.c\n")
        } else {
            (Status::Accepted, LISTING, "")
        };
        assert!(rt; left.status == status, "read {call}");
        // Nothing is called behind the first failure.
        assert!(rt; left.calls == (call + 1).min(6), "read {call}");
        assert!(rt; left.out.bytes.as_slice() == out.as_bytes(), "read {call}");
        assert!(rt; left.err.bytes.as_slice() == err.as_bytes(), "read {call}");
    }
    for (call, written) in [(0, 0), (1, 16), (2, 32)] {
        let left = left_by(
            alloc,
            &["check", "f.c"],
            SEVEN.as_bytes(),
            NEVER,
            call,
            NEVER,
        )?;
        assert!(rt; left.status == Status::WriteFault, "write {call}");
        assert!(rt;
            Some(left.out.bytes.as_slice()) == LISTING.as_bytes().get(..written),
            "write {call}"
        );
        assert!(rt;
            left.err.bytes.as_slice() == b"write fault\n".as_slice(),
            "write {call}"
        );
    }
    // A failing standard error changes no status.
    let left = left_by(alloc, &["check"], SEVEN.as_bytes(), NEVER, NEVER, 1)?;
    assert!(rt; left.status == Status::Usage);
    // No file is asked for where the words are no command.
    assert!(rt; left.calls == 0);
    assert!(rt; Some(left.err.bytes.as_slice()) == USAGE.as_bytes().get(..16));
    Ok(())
}
