ghost use Rattle.std.specs.Prelude.{◌≡◌, IfOk};
ghost use Rattle.refinedc_cli.specs.Command.{subject_of};
ghost use Rattle.refinedc_cli.specs.Rendering.{on_out, on_err, rendering, usage_rendering};

use crate::command::Command;
use crate::outcome::Outcome;
use crate::status::Status;
use crate::texts::{
    USAGE_TEXT, fault_text, limit_text, listing_text, read_fault_text, refused_text,
};
use rc_text::{Bytes, NoMemory};
use std::alloc::Global;

/// A status, and what is to stand on the two streams.
#[derive(Debug, Drop)]
pub struct Rendering {
    pub status: Status,
    /// For standard output.
    pub out: Bytes,
    /// For standard error.
    pub err: Bytes,
}

impl Rendering {
    /// A text for standard output alone.
    fn on_out(alloc: Global, status: Status, text: Bytes) -> Rendering
        ensures { result ≡ on_out status text }
    {
        Rendering {
            status,
            out: text,
            err: Bytes::new(alloc),
        }
    }

    /// A text for standard error alone.
    fn on_err(alloc: Global, status: Status, text: Bytes) -> Rendering
        ensures { result ≡ on_err status text }
    {
        Rendering {
            status,
            out: Bytes::new(alloc),
            err: text,
        }
    }
}

/// The rendering of an outcome, for the command that came to it.
pub fn render(alloc: Global, command: &Command, outcome: &Outcome) -> Result<Rendering, NoMemory>
    ensures { IfOk result (λ made. made ≡ rendering command.now outcome.now) }
{
    let name = subject_of(command);
    match outcome {
        Outcome::Accepted(lines) => {
            let text = listing_text(alloc, lines.as_slice())?;
            Ok(Rendering::on_out(alloc, Status::Accepted, text))
        }
        Outcome::Refused(place, goal) => {
            let text = refused_text(alloc, name, *place, *goal)?;
            Ok(Rendering::on_out(alloc, Status::Refused, text))
        }
        Outcome::Faulty(place, fault) => {
            let text = fault_text(alloc, name, *place, fault)?;
            Ok(Rendering::on_err(alloc, Status::FileRefused, text))
        }
        Outcome::Unread(unread) => {
            let text = read_fault_text(alloc, unread.as_str())?;
            Ok(Rendering::on_err(alloc, Status::ReadFault, text))
        }
        Outcome::Passed(limit) => {
            let text = limit_text(alloc, *limit)?;
            Ok(Rendering::on_err(alloc, Status::Limit, text))
        }
    }
}

/// The name of the file that a command's texts are about.
fn subject_of(command: &Command) -> &str
    ensures { result.now ≡ subject_of command.now }
{
    match command {
        Command::Check { file } => file.as_str(),
    }
}

/// The rendering of words that mean no command.
pub fn render_usage(alloc: Global) -> Result<Rendering, NoMemory>
    ensures { IfOk result (λ made. made ≡ usage_rendering) }
{
    let text = Bytes::from_slice(alloc, USAGE_TEXT.as_bytes())?;
    Ok(Rendering::on_err(alloc, Status::Usage, text))
}
