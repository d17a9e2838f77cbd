//! Which declarations are read, which names are in scope behind them, and where others are refused.
mod reading;
mod refusals;

use crate::{defining, function_declared, function_names, local_declaration, typedef_names};
use c_cursor::{Cursor, Names, ParseRefusal};
use c_grammar::NameKind;
use c_lexer::lex;
use rc_text::Bytes;
use std::alloc::Global;
use std::process::Abort;
use std::test::Fail;

/// What is asked of the reader.
#[derive(Clone, Copy)]
enum Form {
    Type,
    Function,
    Functions,
    Typedefs,
    Local,
}

/// The depth of what is read, or where it is refused.
fn read(alloc: Global, cursor: &mut Cursor<'_>, form: Form) -> Result<usize, ParseRefusal> {
    match form {
        Form::Local => local(alloc, cursor),
        Form::Type => type_alone(alloc, cursor),
        Form::Function => function(alloc, cursor),
        Form::Functions => functions(alloc, cursor),
        Form::Typedefs => typedefs(alloc, cursor),
    }
}

fn local(alloc: Global, cursor: &mut Cursor<'_>) -> Result<usize, ParseRefusal> {
    let read = local_declaration(alloc, cursor)?;
    Ok(read.depth)
}

fn type_alone(alloc: Global, cursor: &mut Cursor<'_>) -> Result<usize, ParseRefusal> {
    let begun = defining(alloc, cursor)?;
    Ok(begun.specifier.depth)
}

fn function(alloc: Global, cursor: &mut Cursor<'_>) -> Result<usize, ParseRefusal> {
    let begun = defining(alloc, cursor)?;
    let read = function_declared(alloc, cursor, &begun.specifier)?;
    Ok(read.depth)
}

fn functions(alloc: Global, cursor: &mut Cursor<'_>) -> Result<usize, ParseRefusal> {
    let begun = defining(alloc, cursor)?;
    let read = function_names(alloc, cursor, &begun.specifier)?;
    Ok(read.depth)
}

fn typedefs(alloc: Global, cursor: &mut Cursor<'_>) -> Result<usize, ParseRefusal> {
    let begun = defining(alloc, cursor)?;
    let read = typedef_names(alloc, cursor, &begun.specifier)?;
    Ok(read.depth)
}

/// What becomes of a text, where `T` is the name of a typedef: its depth, how many tokens are left, and how many names
/// came into scope; or why it is refused.
fn outcome(rt: &impl Abort, alloc: Global, form: Form, text: &[u8]) -> Result<String, Fail> {
    assert!(rt; text.len() < 2000000);
    let bytes = Bytes::from_slice(alloc, text)?;
    let tokens = lex(alloc, &bytes).ok().ok_or("no tokens")?;
    let end = tokens.end();
    let tokens = tokens.into_vec();
    let mut names = Names::new(alloc);
    names.declare(alloc, b"T", NameKind::Typedef)?;
    let mut cursor = Cursor::new(tokens.as_slice(), names, end);
    match read(alloc, &mut cursor, form) {
        Ok(depth) => Ok(format!(in alloc;
            "depth {depth}, {} left, {} new",
            cursor.turns(),
            cursor.scope().saturating_sub(1)
        )?),
        Err(ParseRefusal::Syntax { place }) => Ok(format!(in alloc; "syntax at {}", place.byte)?),
        Err(ParseRefusal::Refused { place, name }) => Ok(format!(in alloc;
            "{name:?} at {}",
            place.byte
        )?),
        Err(ParseRefusal::Depth) => Ok(format!(in alloc; "too deep")?),
        Err(ParseRefusal::NoMemory) => Err("no memory".into()),
    }
}

fn expect_rows(
    rt: &impl Abort,
    alloc: Global,
    form: Form,
    rows: &[(&str, &str)],
) -> Result<(), Fail> {
    for (text, want) in rows {
        let found = outcome(rt, alloc, form, text.as_bytes())?;
        assert!(rt; found.as_str() == *want, "{text} is {found}");
    }
    Ok(())
}
