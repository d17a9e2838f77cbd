ghost use Rattle.std.specs.Prelude.{◌≡◌};
ghost use Rattle.refinedc_cli.specs.Delivery.{Puts, IsDelivered};
ghost use Rattle.refinedc_cli.specs.Outside.{Files, stream_seen, outside_seen};

use crate::rendering::Rendering;
use crate::status::Status;
use crate::texts::WRITE_FAULT_TEXT;
use rc_text::{Sink, Wrote, write_whole};

/// Puts a text on a sink. Where the sink fails, a prefix of it stands there, and nothing else comes of it.
pub fn put<E: Sink>(sink: &mut E, text: &[u8])
    ensures { Puts (stream_seen (E.written sink.old) (E.faults sink.old))
        (stream_seen (E.written sink.new) (E.faults sink.new)) text.now }
{
    let _ = write_whole(sink, text);
}

/// Writes a rendering. Where standard output fails, the status is `WriteFault`, and standard error says so.
pub fn deliver<O: Sink, E: Sink>(rendering: &Rendering, out: &mut O, err: &mut E) -> Status
    ensures { (before after : Files) → IsDelivered rendering.now
        (outside_seen before (stream_seen (O.written out.old) (O.faults out.old))
        (stream_seen (E.written err.old) (E.faults err.old)))
        (outside_seen after (stream_seen (O.written out.new) (O.faults out.new))
        (stream_seen (E.written err.new) (E.faults err.new))) result }
{
    match write_whole(out, rendering.out.as_slice()) {
        Wrote::Whole => {
            put(err, rendering.err.as_slice());
            rendering.status
        }
        Wrote::Fault => {
            put(err, WRITE_FAULT_TEXT.as_bytes());
            Status::WriteFault
        }
    }
}
