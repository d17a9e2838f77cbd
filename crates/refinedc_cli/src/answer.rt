ghost use Rattle.std.specs.Prelude.{◌≡◌, ◌≤◌, IfOk};
ghost use Rattle.refinedc_cli.specs.Outside.{files_seen, WasAskedFor};
ghost use Rattle.refinedc_cli.specs.Command.{files_of};
ghost use Rattle.refinedc_cli.specs.Run.{ComesTo, IsAnswer, AsksForItsFiles};

use crate::check::check;
use crate::command::{Command, command_of};
use crate::outcome::Outcome;
use crate::rendering::{Rendering, render, render_usage};
use rc_text::{NoMemory, Shelf, Text};
use std::alloc::Global;

/// The answer to words, over the files of a shelf.
pub fn answer<H: Shelf>(alloc: Global, words: &[Text], shelf: &mut H) -> Result<Rendering, NoMemory>
    ensures answer { IfOk result (IsAnswer words.now
        (files_seen (H.holds shelf.old) (H.asked shelf.old) (H.faults shelf.old))
        (files_seen (H.holds shelf.new) (H.asked shelf.new) (H.faults shelf.new))) }
    ensures asked { AsksForItsFiles words.now (H.asked shelf.old) (H.asked shelf.new) }
    ensures holds { H.holds shelf.new ≡ H.holds shelf.old }
    ensures rising { H.faults shelf.old ≤ H.faults shelf.new }
{
    match command_of(alloc, words)? {
        None => render_usage(alloc),
        Some(command) => {
            let outcome = outcome_of(alloc, &command, shelf)?;
            render(alloc, &command, &outcome)
        }
    }
}

/// What a command comes to.
fn outcome_of<H: Shelf>(
    alloc: Global,
    command: &Command,
    shelf: &mut H,
) -> Result<Outcome, NoMemory>
    ensures outcome { IfOk result (ComesTo command.now
        (files_seen (H.holds shelf.old) (H.asked shelf.old) (H.faults shelf.old))
        (files_seen (H.holds shelf.new) (H.asked shelf.new) (H.faults shelf.new))) }
    ensures asked { WasAskedFor (H.asked shelf.old) (H.asked shelf.new) (files_of command.now) }
    ensures holds { H.holds shelf.new ≡ H.holds shelf.old }
    ensures rising { H.faults shelf.old ≤ H.faults shelf.new }
{
    match command {
        Command::Check { file } => check(alloc, file, shelf),
    }
}
