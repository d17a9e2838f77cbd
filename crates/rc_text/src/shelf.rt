ghost use Rattle.std.specs.Prelude.{◌≡◌, ℕ, ◌≤◌, ◌<◌, List, length, Option};
ghost use Rattle.rc_text.specs.Faults.{faults_after};
ghost use Rattle.rc_text.specs.Got.{IfCount};
ghost use Rattle.rc_text.specs.LastCall.{after_opening, after_reading};
ghost use Rattle.rc_text.specs.Shelf.{asked_for, TakesFront};
ghost use Rattle.rc_text.specs.declared.answer.LastCall.{LastCall};

use crate::answer::{Got, Opened};

/// Files by name, one of which is open for reading. What a shelf tells of its files and of the names
/// that it was asked for is optional: a real file's bytes are known only once they were read. What its
/// last call came to and its count of faults are told always. The count is at most 2^64 - 1, and each
/// call that fails raises it by one, until it stands at its last number.
pub trait Shelf {
    /// The content of each name, where the shelf tells it.
    ghost holds: { Self → List ℕ → Option (List ℕ) };

    /// What is still to be read of the open file, where the shelf tells it.
    ghost left: { Self → Option (List ℕ) };

    /// The names that it was asked to open, in order, where the shelf tells them.
    ghost asked: { Self → Option (List (List ℕ)) };

    /// What the last call came to.
    ghost last: { Self → LastCall };

    /// How often a call has failed.
    ghost faults: { Self → ℕ };

    /// Opens the file of a name, in place of the one that was open before.
    fn open_name(&mut self, name: &str) -> Opened
        ensures holds { holds self.new ≡ holds self.old }
        ensures asked { asked self.new ≡ asked_for (asked self.old) name.now }
        ensures opened { result ≡ Opened.Opened → left self.new ≡ holds self.old name.now }
        ensures failed { result ≡ Opened.Failed → left self.new ≡ left self.old }
        ensures last { last self.new ≡ after_opening result }
        ensures faults { faults self.new ≡ faults_after (after_opening result) (faults self.old) };

    /// Reads the next bytes into the front of a slice. A count of 0 into a slice that isn't empty is the
    /// end of the file.
    fn read(&mut self, into: &mut [u8]) -> Got
        ensures holds { holds self.new ≡ holds self.old }
        ensures asked { asked self.new ≡ asked self.old }
        ensures within { IfCount result (λ count. count ≤ length into.old) }
        ensures front { IfCount result (TakesFront (left self.old) (left self.new) (length into.old) into.new) }
        ensures failed { result ≡ Got.Failed → left self.new ≡ left self.old }
        ensures last { last self.new ≡ after_reading result }
        ensures faults { faults self.new ≡ faults_after (after_reading result) (faults self.old) };
}
