//! Which files are read, as which trees, and where others are refused: by the grammar of C11 and the profile.
mod depths;
mod files;
mod printing;
mod refusals;

use crate::{ParseRefusal, parse};
use c_lexer::lex;
use printing::show;
use rc_text::Bytes;
use std::alloc::Global;
use std::process::Abort;
use std::test::Fail;

/// What a file is read as, in print, or why and at which line and column it is refused.
fn outcome(rt: &impl Abort, alloc: Global, text: &[u8]) -> Result<String, Fail> {
    assert!(rt; text.len() < 2000000);
    let bytes = Bytes::from_slice(alloc, text)?;
    let tokens = lex(alloc, &bytes).ok().ok_or("no tokens")?;
    match parse(alloc, &tokens) {
        Ok(unit) => {
            let mut shown = Bytes::new(alloc);
            show(&mut shown, &unit)?;
            Ok(String::from_utf8_lossy(alloc, shown.as_slice())?)
        }
        Err(ParseRefusal::Syntax { place }) => Ok(format!(in alloc;
            "{}:{} syntax",
            place.line, place.column
        )?),
        Err(ParseRefusal::Refused { place, name }) => Ok(format!(in alloc;
            "{}:{} {}",
            place.line,
            place.column,
            name.text()
        )?),
        Err(ParseRefusal::Depth) => Ok(format!(in alloc; "too deep")?),
        Err(ParseRefusal::NoMemory) => Err("no memory".into()),
    }
}

fn expect_rows(rt: &impl Abort, alloc: Global, rows: &[(&str, &str)]) -> Result<(), Fail> {
    for (text, want) in rows {
        let found = outcome(rt, alloc, text.as_bytes())?;
        assert!(rt; found.as_str() == *want, "{text} is {found}");
    }
    Ok(())
}
