ghost use Rattle.std.specs.Prelude.{◌≡◌, ◌≤◌, length, None, option_and_then};
ghost use Rattle.rc_text.specs.Faults.{faults_after};
ghost use Rattle.rc_text.specs.Got.{IfCount};
ghost use Rattle.rc_text.specs.Known.{GivesKnown};
ghost use Rattle.rc_text.specs.LastCall.{after_reading};

use crate::answer::{Got, LastCall, Opened};
use crate::calls::record_call;
use crate::shelf::Shelf;
use std::fs;
use std::io::Read;
use std::rt::Files;

/// The system's files. A system call that fails, for want of memory too, counts as a fault. It tells no
/// content, but each read says what the open file gave, where that file knows its bytes.
#[derive(Drop)]
pub struct OsShelf<R: Files> {
    files: R,
    current: Option<R::File>,
    faults: u64,
    last: LastCall,
}

impl<R: Files> OsShelf<R> {
    /// No file is open yet.
    pub fn new(files: R) -> Self
        ensures closed { result.current ≡ None }
        ensures fresh { result.faults ≡ 0 }
        ensures answered { result.last ≡ LastCall.Answered }
    {
        OsShelf {
            files,
            current: None,
            faults: 0,
            last: LastCall::Answered,
        }
    }
}

impl<R: Files + Drop> Shelf for OsShelf<R> {
    ghost use Rattle.std.specs.Prelude.{None};

    ghost holds = { λ _ _. None };

    ghost left = { λ _. None };

    ghost asked = { λ _. None };

    ghost last = { λ shelf. shelf.last };

    ghost faults = { λ shelf. shelf.faults };

    fn open_name(&mut self, name: &str) -> Opened {
        match fs::open(&self.files, name) {
            Ok(file) => {
                self.current = Some(file);
                record_call(&mut self.last, &mut self.faults, LastCall::Answered);
                Opened::Opened
            }
            Err(_) => {
                record_call(&mut self.last, &mut self.faults, LastCall::FailedOpening);
                Opened::Failed
            }
        }
    }

    fn read(&mut self, into: &mut [u8]) -> Got
        ensures within { IfCount result (λ count. count ≤ length into.old) }
        ensures last { self.new.last ≡ after_reading result }
        ensures faults { self.new.faults ≡ faults_after (after_reading result) self.old.faults }

        // What the open file gave.
        ensures given { let old = option_and_then R.File.remaining self.old.current in
            let new = option_and_then R.File.remaining self.new.current in
            GivesKnown result old new into.new }
    {
        let got = read_from(&mut self.current, into);
        match got {
            Got::Count(_) => record_call(&mut self.last, &mut self.faults, LastCall::Answered),
            Got::Failed => record_call(&mut self.last, &mut self.faults, LastCall::FailedReading),
        }
        got
    }
}

/// Reads from the open file. Where none is open there is nothing to read from, and that is a failure.
fn read_from<F: Read>(current: &mut Option<F>, into: &mut [u8]) -> Got
    ensures within { IfCount result (λ count. count ≤ length into.old) }
    ensures given { let old = option_and_then F.remaining current.old in
        let new = option_and_then F.remaining current.new in
        GivesKnown result old new into.new }
{
    match current {
        None => Got::Failed,
        Some(file) => match file.read(into) {
            Ok(count) => Got::Count(count),
            Err(_) => Got::Failed,
        },
    }
}
