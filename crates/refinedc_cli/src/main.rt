//! The command `refinedc`: the words to an answer, and the answer to the two streams. `run` is the whole
//! program, over any shelf and any two sinks; `main` hands it the system's.
#![tactic(auto)]

use rc_text::{OsShelf, OsSink, Text};
use status::Status;
use std::process::ExitCode;
use std::rt::Env;
use std::{env, io};

mod answer;
mod check;
mod command;
mod delivery;
mod front_end;
mod limit;
mod listing;
mod one_literal;
mod outcome;
mod rendering;
mod run;
mod status;
#[cfg(test)]
mod tests;
mod texts;

/// The words behind the program's name.
fn words_given(rt: &(impl Env + AllocGlobal)) -> io::Result<Vec<Text>> {
    let mut words = Vec::new(rt.alloc());
    for word in env::args(rt)?.skip(1) {
        words.push(Text::from_string(word))?;
    }
    Ok(words)
}

fn main(rt: HostRuntime) -> ExitCode {
    let mut err = OsSink::new(rt.stderr());
    let status = match words_given(&rt) {
        Ok(words) => {
            let mut shelf = OsShelf::new(&rt);
            let mut out = OsSink::new(rt.stdout());
            run::run(rt.alloc(), words.as_slice(), &mut shelf, &mut out, &mut err)
        }
        Err(error) if error.kind() == io::ErrorKind::OutOfMemory => {
            delivery::put(&mut err, texts::NO_MEMORY_TEXT.as_bytes());
            Status::NoMemory
        }
        // A word that is no text is in no form of a command.
        Err(_) => {
            delivery::put(&mut err, texts::USAGE_TEXT.as_bytes());
            Status::Usage
        }
    };
    ExitCode::from(status.code())
}
