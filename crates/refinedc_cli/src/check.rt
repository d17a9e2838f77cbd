ghost use Rattle.std.specs.Prelude.{◌≡◌, ◌∷◌, [], ◌≤◌, IfOk};
ghost use Rattle.refinedc_cli.specs.declared.command.Command.TheVariants.{Check};
ghost use Rattle.refinedc_cli.specs.OneLiteral.{IsReadAs};
ghost use Rattle.refinedc_cli.specs.Outcome.{IsVerdict, IsJudgement};
ghost use Rattle.refinedc_cli.specs.Outside.{files_seen, WasAskedFor};
ghost use Rattle.refinedc_cli.specs.Run.{ComesTo};

use crate::front_end::{Source, read_source};
use crate::listing::literal_lines;
use crate::one_literal::{NAME, OneLiteral, form_of};
use crate::outcome::{FileFault, OpenGoal, Outcome};
use c_lexer::Token;
use caesium_ir::Program;
use rc_text::{NoMemory, Place, Shelf, Text};
use sqlite_items::Items;
use std::alloc::Global;

/// What `check` comes to on the file of a name.
pub fn check<H: Shelf>(alloc: Global, file: &Text, shelf: &mut H) -> Result<Outcome, NoMemory>
    ensures outcome { IfOk result (ComesTo (Check file.now)
        (files_seen (H.holds shelf.old) (H.asked shelf.old) (H.faults shelf.old))
        (files_seen (H.holds shelf.new) (H.asked shelf.new) (H.faults shelf.new))) }
    ensures asked { WasAskedFor (H.asked shelf.old) (H.asked shelf.new) (file.now ∷ []) }
    ensures holds { H.holds shelf.new ≡ H.holds shelf.old }
    ensures rising { H.faults shelf.old ≤ H.faults shelf.new }
{
    match read_source(alloc, file, shelf)? {
        Source::File { tokens, .. } => check_tokens(alloc, tokens.as_slice()),
        Source::NoFile(outcome) => Ok(outcome),
    }
}

/// What `check` finds in the tokens of a file.
fn check_tokens(alloc: Global, tokens: &[Token]) -> Result<Outcome, NoMemory>
    ensures { IfOk result (IsVerdict tokens.now) }
{
    match read_tokens(alloc, tokens)? {
        None => Ok(Outcome::Faulty(Place::START, FileFault::NotYet)),
        Some(read) => judged(alloc, &read.form),
    }
}

/// A file of the form: its literals, and its Caesium program.
#[derive(Debug, Drop)]
pub struct ReadFile {
    pub form: OneLiteral,
    pub program: Program,
}

/// Reads the tokens of the form, and translates them.
fn read_tokens(alloc: Global, tokens: &[Token]) -> Result<Option<ReadFile>, NoMemory>
    ensures { IfOk result (IsReadAs tokens.now) }
{
    let Some(form) = form_of(tokens) else {
        return Ok(None);
    };
    let name = tokens[NAME].text.as_slice();
    let program = caesium_ir::one_literal(alloc, name, form.returned, form.places)?;
    Ok(Some(ReadFile { form, program }))
}

/// Whether the literal is the declared value.
fn judged(alloc: Global, form: &OneLiteral) -> Result<Outcome, NoMemory>
    ensures { IfOk result (IsJudgement form.now) }
{
    if form.returned == form.declared {
        Ok(Outcome::Accepted(Items::from_slice(alloc, &literal_lines())?))
    } else {
        let goal = OpenGoal::Unsolved {
            left: form.returned,
            right: form.declared,
        };
        Ok(Outcome::Refused(form.places.return_, goal))
    }
}
