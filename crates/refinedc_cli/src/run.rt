ghost use Rattle.std.specs.Prelude.{◌≡◌, ℕ, ◌≤◌, ◌↔◌, List, Some};
ghost use Rattle.rc_text.specs.Faults.{one_more, Rose};
ghost use Rattle.refinedc_cli.specs.declared.command.Command.TheVariants.{Check};
ghost use Rattle.refinedc_cli.specs.Command.{Means, MeanNothing};
ghost use Rattle.refinedc_cli.specs.Outside.{files_seen, stream_seen, outside_seen};
ghost use Rattle.refinedc_cli.specs.Run.{Runs, UnlessNoMemory, DeliversWhatIsTold, AsksForItsFiles};
ghost use Rattle.refinedc_cli.specs.Soundness.{IsSoundFile};

use crate::answer::answer;
use crate::delivery::{deliver, put};
use crate::status::Status;
use crate::texts::NO_MEMORY_TEXT;
use c_lexer::readings_are_determined;
use rc_text::{NoMemory, Shelf, Sink, Text};
use std::alloc::Global;
use thread_steps::literal_runs_are_sound;

/// Runs the command that the words ask for, over the files of a shelf, with standard output and standard
/// error. The words are those behind the program's name.
pub fn run<H: Shelf, O: Sink, E: Sink>(
    alloc: Global,
    words: &[Text],
    shelf: &mut H,
    out: &mut O,
    err: &mut E,
) -> Status
    // The status, and what then stands on the two sinks.
    ensures runs { Runs words.now
        (outside_seen (files_seen (H.holds shelf.old) (H.asked shelf.old) (H.faults shelf.old))
        (stream_seen (O.written out.old) (O.faults out.old)) (stream_seen (E.written err.old) (E.faults err.old)))
        (outside_seen (files_seen (H.holds shelf.new) (H.asked shelf.new) (H.faults shelf.new))
        (stream_seen (O.written out.new) (O.faults out.new)) (stream_seen (E.written err.new) (E.faults err.new)))
        result }

    // Where the shelf tells the contents of the command's files, what they come to is the answer.
    ensures told { DeliversWhatIsTold words.now
        (outside_seen (files_seen (H.holds shelf.old) (H.asked shelf.old) (H.faults shelf.old))
        (stream_seen (O.written out.old) (O.faults out.old)) (stream_seen (E.written err.old) (E.faults err.old)))
        (outside_seen (files_seen (H.holds shelf.new) (H.asked shelf.new) (H.faults shelf.new))
        (stream_seen (O.written out.new) (O.faults out.new)) (stream_seen (E.written err.new) (E.faults err.new)))
        result }

    // The words mean no command.
    ensures usage { UnlessNoMemory result ((result ≡ Status.Usage) ↔ MeanNothing words.now) }

    // Standard output failed, or else the shelf.
    ensures write_fault { Rose (O.faults out.old) (O.faults out.new)
        → UnlessNoMemory result (result ≡ Status.WriteFault) }
    ensures write_cause { result ≡ Status.WriteFault → O.faults out.new ≡ one_more (O.faults out.old) }
    ensures read_fault { Rose (H.faults shelf.old) (H.faults shelf.new) → O.faults out.new ≡ O.faults out.old
        → UnlessNoMemory result (result ≡ Status.ReadFault) }
    ensures read_cause { result ≡ Status.ReadFault → H.faults shelf.new ≡ one_more (H.faults shelf.old) }

    // The shelf: which names it is asked for, that its contents stay, and that its count never falls.
    ensures asked { AsksForItsFiles words.now (H.asked shelf.old) (H.asked shelf.new) }
    ensures holds { H.holds shelf.new ≡ H.holds shelf.old }
    ensures rising { H.faults shelf.old ≤ H.faults shelf.new }

    // What `check` accepts is sound.
    ensures headline { (file content : List ℕ) → Means words.now (Check file)
        → H.holds shelf.old file ≡ Some content → result ≡ Status.Accepted → IsSoundFile content }
{
    literal_runs_are_sound();
    readings_are_determined();
    match answer(alloc, words, shelf) {
        Ok(rendering) => deliver(&rendering, out, err),
        Err(NoMemory) => {
            put(err, NO_MEMORY_TEXT.as_bytes());
            Status::NoMemory
        }
    }
}
