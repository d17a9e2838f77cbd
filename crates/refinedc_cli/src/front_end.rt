//! Files as commands have them before their own work: read from the shelf to tokens, and those to their tree.
ghost use Rattle.std.specs.Prelude.{◌≡◌, ◌∷◌, [], ◌≤◌, length, IfOk};
ghost use Rattle.refinedc_cli.specs.Limit.{limit_number};
ghost use Rattle.refinedc_cli.specs.Outside.{files_seen, WasAskedFor};
ghost use Rattle.refinedc_cli.specs.FrontEnd.{IsSource, IsSourceOf, AreReadAs};

use crate::limit::Limit;
use crate::outcome::{FileFault, Outcome};
use c_lexer::{LexRefusal, Tokens, lex};
use c_parser::{ParseRefusal, parse};
use c_syntax::Unit;
use rc_text::{Bytes, NoMemory, ReadRefusal, Shelf, Text, read_whole};
use std::alloc::Global;

/// What a file is read as.
#[derive(Debug, Drop)]
pub enum Source {
    /// Its tokens, and the tree that the grammar has for them.
    File { tokens: Tokens, tree: Unit },
    /// It has none: what every command on it comes to.
    NoFile(Outcome),
}

/// Reads the file of a name, which is asked for once.
pub fn read_source<H: Shelf>(alloc: Global, file: &Text, shelf: &mut H) -> Result<Source, NoMemory>
    ensures source { IfOk result (IsSourceOf file.now
        (files_seen (H.holds shelf.old) (H.asked shelf.old) (H.faults shelf.old))
        (files_seen (H.holds shelf.new) (H.asked shelf.new) (H.faults shelf.new))) }
    ensures asked { WasAskedFor (H.asked shelf.old) (H.asked shelf.new) (file.now ∷ []) }
    ensures holds { H.holds shelf.new ≡ H.holds shelf.old }
    ensures rising { H.faults shelf.old ≤ H.faults shelf.new }
{
    match read_whole(alloc, shelf, file.as_str(), Limit::FileBytes.number()) {
        Ok(content) => source_of(alloc, &content),
        Err(ReadRefusal::TooLong) => Ok(Source::NoFile(Outcome::Passed(Limit::FileBytes))),
        Err(ReadRefusal::CannotOpen) => unread(alloc, file),
        Err(ReadRefusal::ReadFault) => unread(alloc, file),
        Err(ReadRefusal::NoMemory) => Err(NoMemory),
    }
}

/// A file that can't be opened or read.
fn unread(alloc: Global, file: &Text) -> Result<Source, NoMemory>
    ensures { IfOk result (λ source. source ≡ Source.NoFile (Outcome.Unread file.now)) }
{
    let name = Text::from_str(alloc, file.as_str())?;
    Ok(Source::NoFile(Outcome::Unread(name)))
}

/// What a content is read as that is no longer than a file may be.
fn source_of(alloc: Global, content: &Bytes) -> Result<Source, NoMemory>
    requires { length content.now ≤ limit_number Limit.FileBytes }
    ensures { IfOk result (IsSource content.now) }
{
    match lex(alloc, content) {
        Ok(tokens) => parsed(alloc, tokens),
        Err(LexRefusal::Fault(fault)) => {
            let kind = FileFault::Lexical(fault.kind);
            Ok(Source::NoFile(Outcome::Faulty(fault.place, kind)))
        }
        Err(LexRefusal::TokenLimit) => Ok(Source::NoFile(Outcome::Passed(Limit::Tokens))),
        Err(LexRefusal::NoMemory) => Err(NoMemory),
    }
}

/// What tokens are read as.
fn parsed(alloc: Global, tokens: Tokens) -> Result<Source, NoMemory>
    ensures { IfOk result (AreReadAs tokens) }
{
    match parse(alloc, &tokens) {
        Ok(tree) => Ok(Source::File { tokens, tree }),
        Err(ParseRefusal::Syntax { place }) => {
            Ok(Source::NoFile(Outcome::Faulty(place, FileFault::Syntax)))
        }
        Err(ParseRefusal::Refused { place, name }) => {
            let kind = FileFault::LeftOutForm(name);
            Ok(Source::NoFile(Outcome::Faulty(place, kind)))
        }
        Err(ParseRefusal::Depth) => Ok(Source::NoFile(Outcome::Passed(Limit::Depth))),
        Err(ParseRefusal::NoMemory) => Err(NoMemory),
    }
}
