ghost use Rattle.std.specs.Prelude.{◌≡◌, IfOk, MatchOption};
ghost use Rattle.refinedc_cli.specs.Command.{is_option, Means, MeanNothing};

use rc_text::{NoMemory, Text};
use std::alloc::Global;

/// What the words ask for.
#[derive(Debug, Drop)]
pub enum Command {
    /// `check FILE`: verify the file of the name.
    Check { file: Text },
}

/// The command that the words mean, none where they mean nothing.
pub fn command_of(alloc: Global, words: &[Text]) -> Result<Option<Command>, NoMemory>
    ensures { IfOk result (λ found. MatchOption found (MeanNothing words.now) (Means words.now)) }
{
    match words {
        [command, file] if command.as_str() == "check" && !is_option(file.as_str()) => {
            let file = Text::from_str(alloc, file.as_str())?;
            Ok(Some(Command::Check { file }))
        }
        _ => Ok(None),
    }
}

/// Whether a word is an option: it begins with `-`.
fn is_option(word: &str) -> bool
    ensures { result ≡ is_option word.now }
{
    word.as_bytes().first() == Some(&b'-')
}
