mod short_calls;

use crate::{
    Bytes, Got, LastCall, MemoryShelf, MemorySink, NoMemory, Opened, OsShelf, OsSink, ReadRefusal,
    Shelf, Sink, Text, Wrote, joined_lines, read_whole, write_whole,
};
use short_calls::{LENGTH, ShortFile, ShortFiles, ShortStream, text_byte};
use std::alloc::Global;
use std::test::Fail;
use std::{env, fs};

const CONTENT: &str = "The quick brown fox jumps over the lazy dog, twice.";

fn file(alloc: Global, name: &str, content: &str) -> Result<(Text, Bytes), NoMemory> {
    Ok((
        Text::from_str(alloc, name)?,
        Bytes::from_slice(alloc, content.as_bytes())?,
    ))
}

fn shelf(alloc: Global, failing: &[u64]) -> Result<MemoryShelf, NoMemory> {
    let files = vec![in alloc;
        file(alloc, "a", CONTENT)?,
        file(alloc, "b", "")?,
        file(alloc, "a", "other")?,
    ]?;
    Ok(MemoryShelf {
        files,
        failing: Vec::from_slice(alloc, failing)?,
        calls: 0,
        faults: 0,
        current: None,
        at: 0,
        last: LastCall::Answered,
    })
}

#[test]
fn reads_a_name_up_to_the_limit(rt: HostRuntime) -> Result<(), Fail> {
    let alloc = rt.alloc();
    for (name, limit, want) in [
        ("a", 51, Ok(CONTENT)),
        ("a", 50, Err(ReadRefusal::TooLong)),
        ("a", 0, Err(ReadRefusal::TooLong)),
        ("b", 0, Ok("")),
        ("c", 9, Err(ReadRefusal::CannotOpen)),
    ] {
        let mut shelf = shelf(alloc, &[])?;
        match read_whole(alloc, &mut shelf, name, limit) {
            Ok(bytes) => assert_eq!(rt;
                Ok(bytes.as_slice()),
                want.map(|text| text.as_bytes()),
                "{name} {limit}"
            ),
            Err(refusal) => assert_eq!(rt;
                Err(refusal),
                want.map(|text| text.as_bytes()),
                "{name} {limit}"
            ),
        }
    }
    Ok(())
}

// 51 bytes come in four reads, and a fifth finds the end: call 0 opens, calls 1 to 5 read.
#[test]
fn the_first_failure_is_the_last_call(rt: HostRuntime) -> Result<(), Fail> {
    let alloc = rt.alloc();
    for call in 0..7 {
        let mut shelf = shelf(alloc, &[call])?;
        let refusal = read_whole(alloc, &mut shelf, "a", 100).err();
        let want = match call {
            0 => (Some(ReadRefusal::CannotOpen), LastCall::FailedOpening, 1, 1),
            1..=5 => (
                Some(ReadRefusal::ReadFault),
                LastCall::FailedReading,
                1,
                call + 1,
            ),
            _ => (None, LastCall::Answered, 0, 6),
        };
        assert_eq!(rt;
            (refusal, shelf.last, shelf.faults, shelf.calls),
            want,
            "call {call}"
        );
    }
    Ok(())
}

#[test]
fn writes_whole_or_a_prefix(rt: HostRuntime) -> Result<(), Fail> {
    let alloc = rt.alloc();
    for (room, failing, want, length, calls) in [
        (51, 9, Wrote::Whole, 51, 4),
        (50, 9, Wrote::Fault, 50, 5),
        (51, 3, Wrote::Fault, 48, 4),
        (51, 0, Wrote::Fault, 0, 1),
        (0, 9, Wrote::Fault, 0, 1),
    ] {
        let mut sink = MemorySink::new(alloc, room, &[failing])?;
        assert_eq!(rt;
            write_whole(&mut sink, CONTENT.as_bytes()),
            want,
            "{room} {failing}"
        );
        let last = match want {
            Wrote::Whole => (LastCall::Answered, 0, calls),
            Wrote::Fault => (LastCall::FailedWriting, 1, calls),
        };
        assert_eq!(rt;
            (sink.last, sink.faults, sink.calls),
            last,
            "{room} {failing}"
        );
        assert_eq!(rt;
            Some(sink.bytes.as_slice()),
            CONTENT.as_bytes().get(..length),
            "{room} {failing}"
        );
    }
    Ok(())
}

#[test]
fn lines_end_with_line_feeds(rt: HostRuntime) -> Result<(), Fail> {
    let alloc = rt.alloc();
    let lines = vec![in alloc; Text::from_str(alloc, "one")?, Text::new(alloc)]?;
    let text = joined_lines(alloc, lines.as_slice())?;
    assert_eq!(rt; text.as_slice(), b"one\n\n".as_slice());
    assert_eq!(rt; (text.len(), text.is_empty()), (5, false));
    Ok(())
}

fn long_text(alloc: Global) -> Result<Vec<u8>, Fail> {
    let mut text = Vec::new(alloc);
    for at in 0..LENGTH {
        text.push(text_byte(at))?;
    }
    Ok(text)
}

#[test]
fn a_file_that_gives_few_bytes_a_call_is_read_whole(rt: HostRuntime) -> Result<(), Fail> {
    let alloc = rt.alloc();
    let text = long_text(alloc)?;
    for (name, most, cut, limit, want) in [
        ("f.c", 1, None, 10_000, None),
        ("f.c", 7, None, 10_000, None),
        ("f.c", usize::MAX, None, 10_000, None),
        ("f.c", 7, None, 9_999, Some(ReadRefusal::TooLong)),
        ("f.c", 1, Some(4_000), 10_000, Some(ReadRefusal::ReadFault)),
        ("f.c", 7, Some(10_000), 10_000, Some(ReadRefusal::ReadFault)),
        ("f.h", 7, None, 10_000, Some(ReadRefusal::CannotOpen)),
    ] {
        let file = ShortFile { at: 0, most, cut };
        let mut shelf = OsShelf::new(ShortFiles(file));
        match read_whole(alloc, &mut shelf, name, limit) {
            Ok(bytes) => {
                assert_eq!(rt; want, None, "{name} {most} {limit}");
                assert!(rt;
                    bytes.as_slice() == text.as_slice(),
                    "{name} {most} {limit}"
                );
            }
            Err(refusal) => assert_eq!(rt; Some(refusal), want, "{name} {most} {limit}"),
        }
    }
    Ok(())
}

#[test]
fn a_stream_that_takes_few_bytes_a_call_is_written_whole(rt: HostRuntime) -> Result<(), Fail> {
    let alloc = rt.alloc();
    let text = long_text(alloc)?;
    for (most, cut, want, length) in [
        (1, None, Wrote::Whole, 10_000),
        (7, None, Wrote::Whole, 10_000),
        (usize::MAX, None, Wrote::Whole, 10_000),
        (1, Some(5_000), Wrote::Fault, 5_000),
        // The first multiple of 7 past 5,000.
        (7, Some(5_000), Wrote::Fault, 5_005),
        (0, None, Wrote::Fault, 0),
    ] {
        let taken = Vec::new(alloc);
        let mut stream = ShortStream { taken, most, cut };
        let mut sink = OsSink::new(&mut stream);
        assert_eq!(rt; write_whole(&mut sink, text.as_slice()), want, "{most}");
        assert!(rt;
            text.as_slice().get(..length) == Some(stream.taken.as_slice()),
            "{most}"
        );
    }
    Ok(())
}

#[test]
fn the_system_reads_what_it_wrote(rt: HostRuntime) -> Result<(), Fail> {
    let alloc = rt.alloc();
    let text = long_text(alloc)?;
    let path = env::temp_dir(&rt)?.join(alloc, "rc_text_reads_what_it_wrote.txt")?;
    let mut sink = OsSink::new(fs::create(&rt, path.as_path())?);
    assert_eq!(rt; write_whole(&mut sink, text.as_slice()), Wrote::Whole);
    let name = path.to_str().ok_or("no text")?;
    let mut shelf = OsShelf::new(&rt);
    let bytes = read_whole(alloc, &mut shelf, name, 10_000)?;
    assert!(rt; bytes.as_slice() == text.as_slice());
    fs::remove_file(&rt, path.as_path())?;
    assert_eq!(rt; shelf.open_name(name), Opened::Failed);
    assert_eq!(rt; OsSink::new(rt.stdout()).write(b""), Got::Count(0));
    Ok(())
}
