ghost use Rattle.std.specs.Prelude.{◌≡◌, ◌≤◌, ◌<◌, length};
ghost use Rattle.rc_text.specs.Faults.{faults_after};
ghost use Rattle.rc_text.specs.Got.{IfCount};
ghost use Rattle.rc_text.specs.Known.{TakesKnown};
ghost use Rattle.rc_text.specs.LastCall.{after_writing};

use crate::answer::{Got, LastCall};
use crate::calls::record_call;
use crate::sink::Sink;
use std::io::Write;

/// A stream of the system, such as standard output. A system call that fails, or takes no byte of a
/// piece that has some, counts as a fault. It doesn't tell what was written, but each write says what
/// the stream took, where the stream knows its bytes.
#[derive(Drop)]
pub struct OsSink<W: Write> {
    stream: W,
    faults: u64,
    last: LastCall,
}

impl<W: Write> OsSink<W> {
    pub fn new(stream: W) -> Self
        ensures stream { result.stream ≡ stream }
        ensures fresh { result.faults ≡ 0 }
        ensures answered { result.last ≡ LastCall.Answered }
    {
        OsSink {
            stream,
            faults: 0,
            last: LastCall::Answered,
        }
    }
}

impl<W: Write> Sink for OsSink<W> {
    ghost use Rattle.std.specs.Prelude.{None};

    ghost written = { λ _. None };

    ghost last = { λ sink. sink.last };

    ghost faults = { λ sink. sink.faults };

    fn write(&mut self, piece: &[u8]) -> Got
        ensures within { IfCount result (λ count. count ≤ length piece.now) }
        ensures some { 0 < length piece.now → IfCount result (λ count. 0 < count) }
        ensures last { self.new.last ≡ after_writing result }
        ensures faults { self.new.faults ≡ faults_after (after_writing result) self.old.faults }

        // What the stream took.
        ensures taken { TakesKnown result (W.contents self.old.stream) (W.contents self.new.stream) piece.now }
    {
        match self.stream.write(piece) {
            Ok(count) if count > 0 || piece.is_empty() => {
                record_call(&mut self.last, &mut self.faults, LastCall::Answered);
                Got::Count(count)
            }
            _ => {
                record_call(&mut self.last, &mut self.faults, LastCall::FailedWriting);
                Got::Failed
            }
        }
    }
}
