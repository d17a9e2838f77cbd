ghost use Rattle.std.specs.Prelude.{◌≡◌, ℕ, ◌≤◌, ◌<◌, ◌+◌, ◌-◌, ◌↔◌, [], length, min, IfOk, Some};
ghost use Rattle.std.specs.Prelude.{vec_len, vec_capacity};
ghost use Rattle.rc_text.specs.Faults.{faults_after, one_more};
ghost use Rattle.rc_text.specs.Got.{IfCount};
ghost use Rattle.rc_text.specs.LastCall.{after_writing};
ghost use Rattle.rc_text.specs.Sink.{front_appended};
ghost use Rattle.rc_text.specs.declared.answer.LastCall.TheVariants.{Answered};

use crate::answer::{Got, LastCall};
use crate::calls::{LARGEST_PIECE, count_call, record_call};
use crate::memory::NoMemory;
use crate::sink::Sink;
use std::alloc::Global;

/// A sink in memory, for tests. A write takes at most 16 bytes, and no memory, since the room was made
/// by `new`. The calls are numbered from 0, and those whose numbers stand in `failing` fail, as does a
/// write where no room is left.
#[derive(Debug, Drop)]
pub struct MemorySink {
    pub bytes: Vec<u8>,
    /// How many bytes it can hold.
    pub room: usize,
    pub failing: Vec<u64>,
    /// How many calls there were, at most 2^64 - 1.
    pub calls: u64,
    pub faults: u64,
    /// What the last call came to; `Answered` before the first one.
    pub last: LastCall,
    ghost within: { vec_len bytes ≤ room },
    ghost reserved: { room ≤ vec_capacity bytes },
}

impl MemorySink {
    /// An empty sink with room for this many bytes.
    pub fn new(alloc: Global, room: usize, failing: &[u64]) -> Result<MemorySink, NoMemory>
        ensures empty { IfOk result (λ sink. sink.bytes.items ≡ []) }
        ensures room { IfOk result (λ sink. sink.room ≡ room) }
        ensures failing { IfOk result (λ sink. sink.failing.items ≡ failing.now) }
        ensures fresh { IfOk result (λ sink. (sink.calls ≡ 0) × (sink.faults ≡ 0) × (sink.last ≡ Answered)) }
    {
        Ok(MemorySink {
            bytes: Vec::with_capacity(alloc, room)?,
            room,
            failing: Vec::from_slice(alloc, failing)?,
            calls: 0,
            faults: 0,
            last: LastCall::Answered,
        })
    }
}

impl Sink for MemorySink {
    ghost use Rattle.std.specs.Prelude.{Some};
    ghost use Rattle.rc_text.specs.MemorySink.{IsWritingFault};

    ghost written = { λ sink. Some (sink.bytes.items) };

    ghost last = { λ sink. sink.last };

    ghost faults = { λ sink. sink.faults };

    fn write(&mut self, piece: &[u8]) -> Got
        ensures within { IfCount result (λ count. count ≤ length piece.now) }
        ensures front { IfCount result (λ count.
            Some (self.new.bytes.items) ≡ front_appended (Some (self.old.bytes.items)) count piece.now) }
        ensures some { 0 < length piece.now → IfCount result (λ count. 0 < count) }
        ensures failed { result ≡ Got.Failed → Some (self.new.bytes.items) ≡ Some (self.old.bytes.items) }
        ensures last { self.new.last ≡ after_writing result }
        ensures faults { self.new.faults ≡ faults_after (after_writing result) self.old.faults }

        // How much it takes, and when it fails.
        ensures count { let room = min (self.old.room - vec_len self.old.bytes) LARGEST_PIECE in
            IfCount result (λ count. count ≡ min (length piece.now) room) }
        ensures fails { (result ≡ Got.Failed) ↔ IsWritingFault self.old piece.now }
        ensures counted { self.new.calls ≡ one_more self.old.calls }
        ensures kept { (self.new.room ≡ self.old.room) × (self.new.failing ≡ self.old.failing) }
    {
        let fails = count_call(&mut self.calls, self.failing.as_slice());
        let room = self.room - self.bytes.len();
        if fails || (room == 0 && !piece.is_empty()) {
            record_call(&mut self.last, &mut self.faults, LastCall::FailedWriting);
            return Got::Failed;
        }
        let count = piece.len().min(room).min(LARGEST_PIECE);
        self.bytes.extend_from_slice(&piece[..count]).unwrap();
        record_call(&mut self.last, &mut self.faults, LastCall::Answered);
        Got::Count(count)
    }
}
