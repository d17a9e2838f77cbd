ghost use Rattle.std.specs.Prelude.{◌≡◌, ℕ, ◌≤◌, ◌<◌, List, length, Option};
ghost use Rattle.rc_text.specs.Faults.{faults_after};
ghost use Rattle.rc_text.specs.Got.{IfCount};
ghost use Rattle.rc_text.specs.LastCall.{after_writing};
ghost use Rattle.rc_text.specs.Sink.{front_appended};
ghost use Rattle.rc_text.specs.declared.answer.LastCall.{LastCall};

use crate::answer::Got;

/// Where bytes are written to. What was written is told where the sink knows it. What its last call
/// came to and its count of faults are told always, as a shelf tells its own.
pub trait Sink {
    /// All that was written, where the sink tells it.
    ghost written: { Self → Option (List ℕ) };

    /// What the last call came to.
    ghost last: { Self → LastCall };

    /// How often a call has failed.
    ghost faults: { Self → ℕ };

    /// Writes a front of the piece, of at least one byte where there is one.
    fn write(&mut self, piece: &[u8]) -> Got
        ensures within { IfCount result (λ count. count ≤ length piece.now) }
        ensures front { IfCount result (λ count. written self.new ≡ front_appended (written self.old) count piece.now) }
        ensures some { 0 < length piece.now → IfCount result (λ count. 0 < count) }
        ensures failed { result ≡ Got.Failed → written self.new ≡ written self.old }
        ensures last { last self.new ≡ after_writing result }
        ensures faults { faults self.new ≡ faults_after (after_writing result) (faults self.old) };
}
