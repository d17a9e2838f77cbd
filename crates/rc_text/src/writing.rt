ghost use Rattle.std.specs.Prelude.{◌≡◌, ◌<◌, ◌≤◌, length};
ghost use Rattle.rc_text.specs.Faults.{one_more};
ghost use Rattle.rc_text.specs.Sink.{appended, WrotePrefix};
ghost use Rattle.rc_text.specs.declared.answer.LastCall.TheVariants.{Answered, FailedWriting};

use crate::answer::Got;
use crate::sink::Sink;

/// Whether a text was written whole.
#[derive(Clone, Copy, Debug, PartialEq, Eq, Hash)]
pub enum Wrote {
    Whole,
    Fault,
}

/// Writes a text whole, in as many calls as the sink needs. The first call that fails is the last one.
pub fn write_whole<O: Sink>(sink: &mut O, text: &[u8]) -> Wrote
    ensures whole { result ≡ Wrote.Whole → O.written sink.new ≡ appended (O.written sink.old) text.now }
    ensures answered { result ≡ Wrote.Whole → 0 < length text.now → O.last sink.new ≡ Answered }
    ensures quiet { result ≡ Wrote.Whole → O.faults sink.new ≡ O.faults sink.old }
    ensures prefix { result ≡ Wrote.Fault → WrotePrefix (O.written sink.old) (O.written sink.new) text.now }
    ensures failed { result ≡ Wrote.Fault → O.last sink.new ≡ FailedWriting }
    ensures counted { result ≡ Wrote.Fault → O.faults sink.new ≡ one_more (O.faults sink.old) }
{
    let mut done = 0;
    while done < text.len() {
        let (_, rest) = text.split_at(done);
        match sink.write(rest) {
            Got::Failed => return Wrote::Fault,
            Got::Count(count) => done += count,
        }
    }
    Wrote::Whole
}
