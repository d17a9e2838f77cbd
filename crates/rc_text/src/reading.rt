ghost use Rattle.std.specs.Prelude.{◌≡◌, ◌≢◌, ◌<◌, ◌≤◌, IfOk, IfSome, length};
ghost use Rattle.rc_text.specs.Faults.{faults_after};
ghost use Rattle.rc_text.specs.ReadWhole.{last_call_of};
ghost use Rattle.rc_text.specs.Shelf.{asked_for};
ghost use Rattle.rc_text.specs.declared.answer.LastCall.TheVariants.{Answered};

use crate::answer::{Got, Opened};
use crate::bytes::Bytes;
use crate::memory::NoMemory;
use crate::shelf::Shelf;
use std::alloc::Global;
use thiserror::Error;

/// Why a file was not read whole.
#[derive(Clone, Copy, Debug, PartialEq, Eq, Hash, Error)]
pub enum ReadRefusal {
    /// The shelf failed to open the name.
    #[error("can't open the file")]
    CannotOpen,
    /// The shelf failed in mid-read.
    #[error("can't read the file")]
    ReadFault,
    /// The file has more bytes than the limit.
    #[error("the file is too long")]
    TooLong,
    #[error("no memory")]
    NoMemory,
}

impl From<NoMemory> for ReadRefusal {
    ghost use Rattle.std.specs.Prelude.{◌≡◌};
    ghost use Rattle.rc_text.specs.declared.reading.ReadRefusal.TheVariants as refusals;

    ghost from_gives = { λ _ refusal. refusal ≡ refusals.NoMemory };

    fn from(_error: NoMemory) -> ReadRefusal {
        ReadRefusal::NoMemory
    }
}

/// How many bytes one read asks for.
const PIECE: usize = 4096;

/// Reads the whole file of a name, of at most `limit` bytes. It asks the shelf for that name, once.
/// `CannotOpen` comes where the opening failed, `ReadFault` where a read did, and the first failure is
/// the shelf's last call.
pub fn read_whole<H: Shelf>(
    alloc: Global,
    shelf: &mut H,
    name: &str,
    limit: u32,
) -> Result<Bytes, ReadRefusal>
    ensures content { IfOk result (λ bytes. IfSome (H.holds shelf.old name.now) (λ content. bytes ≡ content)) }
    ensures within { IfOk result (λ bytes. length bytes ≤ limit) }
    ensures too_long { result ≡ Err ReadRefusal.TooLong
        → IfSome (H.holds shelf.old name.now) (λ content. limit < length content) }
    ensures unopened { result ≡ Err ReadRefusal.CannotOpen → H.left shelf.new ≡ H.left shelf.old }
    ensures holds { H.holds shelf.new ≡ H.holds shelf.old }
    ensures asked { H.asked shelf.new ≡ asked_for (H.asked shelf.old) name.now }
    ensures last { H.last shelf.new ≡ last_call_of result }
    ensures faults { H.faults shelf.new ≡ faults_after (last_call_of result) (H.faults shelf.old) }
{
    match shelf.open_name(name) {
        Opened::Failed => Err(ReadRefusal::CannotOpen),
        Opened::Opened => read_rest(alloc, shelf, limit),
    }
}

/// Reads what is left of the open file.
fn read_rest<H: Shelf>(alloc: Global, shelf: &mut H, limit: u32) -> Result<Bytes, ReadRefusal>
    requires { H.last shelf.old ≡ Answered }
    ensures content { IfOk result (λ bytes. IfSome (H.left shelf.old) (λ left. bytes ≡ left)) }
    ensures within { IfOk result (λ bytes. length bytes ≤ limit) }
    ensures too_long { result ≡ Err ReadRefusal.TooLong → IfSome (H.left shelf.old) (λ left. limit < length left) }
    ensures opened { result ≢ Err ReadRefusal.CannotOpen }
    ensures holds { H.holds shelf.new ≡ H.holds shelf.old }
    ensures asked { H.asked shelf.new ≡ H.asked shelf.old }
    ensures last { H.last shelf.new ≡ last_call_of result }
    ensures faults { H.faults shelf.new ≡ faults_after (last_call_of result) (H.faults shelf.old) }
{
    let mut bytes = Bytes::new(alloc);
    let mut piece = [0; PIECE];
    'reading: while bytes.len() <= limit as usize {
        match shelf.read(&mut piece) {
            Got::Failed => return Err(ReadRefusal::ReadFault),
            Got::Count(0) => return Ok(bytes),
            Got::Count(count) => bytes.append(&piece[..count])?,
        }
    }
    Err(ReadRefusal::TooLong)
}
