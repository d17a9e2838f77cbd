//! How expressions group, by the grammar of C11 6.5, and where others are refused.
mod grouping;
mod printing;
mod refusals;

use crate::expression;
use c_cursor::{COMMA_LEVEL, Cursor, Names, ParseRefusal};
use c_grammar::NameKind;
use c_lexer::lex;
use printing::show;
use rc_text::Bytes;
use std::alloc::Global;
use std::process::Abort;
use std::test::Fail;

/// What a text is read as, where `T` is the name of a typedef: each operator before its operands, and the number of
/// tokens that are left if there are any; or why it is refused.
fn outcome(rt: &impl Abort, alloc: Global, text: &[u8]) -> Result<String, Fail> {
    assert!(rt; text.len() < 2000000);
    let bytes = Bytes::from_slice(alloc, text)?;
    let tokens = lex(alloc, &bytes).ok().ok_or("no tokens")?;
    let end = tokens.end();
    let tokens = tokens.into_vec();
    let mut names = Names::new(alloc);
    names.declare(alloc, b"T", NameKind::Typedef)?;
    let mut cursor = Cursor::new(tokens.as_slice(), names, end);
    match expression(alloc, &mut cursor, COMMA_LEVEL) {
        Ok(read) => {
            let mut shown = Bytes::new(alloc);
            show(&mut shown, read.tree.get(), 8)?;
            let left = cursor.turns();
            if left > 0 {
                shown.append(format!(in alloc; ", {left} left")?.as_bytes())?;
            }
            Ok(String::from_utf8_lossy(alloc, shown.as_slice())?)
        }
        Err(ParseRefusal::Syntax { place }) => Ok(format!(in alloc; "syntax at {}", place.byte)?),
        Err(ParseRefusal::Refused { place, name }) => Ok(format!(in alloc;
            "{name:?} at {}",
            place.byte
        )?),
        Err(ParseRefusal::Depth) => Ok(format!(in alloc; "too deep")?),
        Err(ParseRefusal::NoMemory) => Err("no memory".into()),
    }
}

fn expect_rows(rt: &impl Abort, alloc: Global, rows: &[(&str, &str)]) -> Result<(), Fail> {
    for (text, want) in rows {
        let found = outcome(rt, alloc, text.as_bytes())?;
        assert!(rt; found.as_str() == *want, "{text} is {found}");
    }
    Ok(())
}
