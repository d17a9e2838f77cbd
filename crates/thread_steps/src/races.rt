ghost use Rattle.std.specs.Prelude.{◌≡◌, ◌<◌, length};
ghost use Rattle.caesium_ir.specs.WellFormed.{IsWellFormed};
ghost use Rattle.thread_steps.specs.Access.{accesses_of};
ghost use Rattle.thread_steps.specs.Accesses.{listed, one_or_none};
ghost use Rattle.thread_steps.specs.Race.{IsRaceAnswer, IsRace};
ghost use Rattle.thread_steps.specs.FindRace.{from_zero as natural_part, interval as interval_of};
ghost use Rattle.thread_steps.specs.FindRace.{common as common_of, conflict as conflicting};
ghost use Rattle.thread_steps.specs.FindRace.{is_before as before, earlier as earlier_of};
ghost use Rattle.thread_steps.specs.FindRace.{IsLeastSecond};
ghost use Rattle.thread_steps.specs.FindRace.{IsLeast, Meet, MeetsOne};
ghost use Rattle.std.specs.Prelude.{map};
ghost use Rattle.thread_steps.specs.Access.{closes};
ghost use Rattle.thread_steps.specs.FindRace.{meet as have_common};
ghost use Rattle.std.specs.Prelude.{pos, ◌+ℤ◌, ◌^◌};

use crate::access::{Access, Accesses, Touched, next_access};
use crate::config::Config;
use crate::thread::Thread;
use byte_memory::Memory;
use caesium_ir::Program;
use rc_terms::Loc;

/// A byte of a block of memory.
#[derive(Clone, Copy, Debug)]
struct ByteAt {
    block: u64,
    offset: i128,
}

/// The bytes of a block from one up to another.
#[derive(Clone, Copy, Debug)]
struct Interval {
    block: u64,
    low: u128,
    high: u128,
}

/// The race of the next steps of two threads that has the least first thread, of these the least second, and of these
/// the least byte; none exactly where there is no race.
pub fn race(config: &Config, program: &Program) -> Option<(usize, usize, Loc)>
    requires { IsWellFormed program.now }
    ensures { IsRaceAnswer program.now config.now result }
{
    let threads = config.threads();
    for i in 0..threads.len() {
        if let Some((j, at)) = second_thread(config, program, i) {
            let byte = Loc::At {
                block: at.block,
                offset: at.offset,
            };
            return Some((i, j, byte));
        }
    }
    None
}

/// The least thread that races with thread i, and the least byte for which they race.
fn second_thread(config: &Config, program: &Program, i: usize) -> Option<(usize, ByteAt)>
    requires well_formed { IsWellFormed program.now }
    requires thread { i < length config.now.threads }
    ensures { IsLeastSecond program.now config.now i result }
{
    let threads = config.threads();
    for j in 0..threads.len() {
        if let Some(at) = race_between(config, program, i, j) {
            return Some((j, at));
        }
    }
    None
}

/// The least byte for which threads i and j race.
fn race_between(config: &Config, program: &Program, i: usize, j: usize) -> Option<ByteAt>
    requires well_formed { IsWellFormed program.now }
    requires first { i < length config.now.threads }
    requires second { j < length config.now.threads }
    ensures { IsLeast (IsRace program.now config.now i j) result }
{
    let threads = config.threads();
    if i == j {
        return None;
    }
    shared_byte(&threads[i], &threads[j], config.memory(), program)
}

/// The least byte for which two threads race.
fn shared_byte(one: &Thread, other: &Thread, memory: &Memory, program: &Program) -> Option<ByteAt>
    requires { IsWellFormed program.now }
    ensures { IsLeast (Meet memory.now (accesses_of program.now one.now) (accesses_of program.now other.now)) result }
{
    least_of(
        memory,
        next_access(one, program),
        next_access(other, program),
    )
}

/// The least byte for which two lists of accesses conflict.
fn least_of(memory: &Memory, ones: Accesses<'_>, others: Accesses<'_>) -> Option<ByteAt>
    ensures { IsLeast (Meet memory.now (listed ones.entry) (listed others.entry)) result }
{
    match ones {
        Accesses::Ranges(first, second) => {
            earlier(
                least_at(memory, first, others),
                least_at(memory, second, others),
            )
        }
        Accesses::Closed(blocks) => least_closed(memory, blocks, others),
    }
}

/// What writes all of a block.
fn closing(block: u64) -> Access
    ensures { result ≡ closes block }
{
    Access {
        bytes: Touched::Block(block),
        writes: true,
        atomic: false,
    }
}

/// The least byte for which an access, where there is one, and a list of accesses conflict.
fn least_at(memory: &Memory, one: Option<Access>, others: Accesses<'_>) -> Option<ByteAt>
    ensures { IsLeast (Meet memory.now (one_or_none one) (listed others.entry)) result }
{
    match one {
        Some(one) => least_with(memory, one, others),
        None => None,
    }
}

/// The least byte for which a return and a list of accesses conflict.
fn least_closed(memory: &Memory, blocks: &[u64], others: Accesses<'_>) -> Option<ByteAt>
    ensures { IsLeast (Meet memory.now (map closes blocks.now) (listed others.entry)) result }
{
    let mut least = None;
    for block in blocks {
        least = earlier(least, least_with(memory, closing(*block), others));
    }
    least
}

/// The least byte for which an access and a list of accesses conflict.
fn least_with(memory: &Memory, one: Access, others: Accesses<'_>) -> Option<ByteAt>
    ensures { IsLeast (MeetsOne memory.now one (listed others.entry)) result }
{
    match others {
        Accesses::Ranges(first, second) => {
            earlier(
                common_at(memory, one, first),
                common_at(memory, one, second),
            )
        }
        Accesses::Closed(blocks) => common_closed(memory, one, blocks),
    }
}

/// The least byte for which an access and another, where there is one, conflict.
fn common_at(memory: &Memory, one: Access, other: Option<Access>) -> Option<ByteAt>
    ensures { IsLeast (MeetsOne memory.now one (one_or_none other)) result }
{
    match other {
        Some(other) => common(memory, one, other),
        None => None,
    }
}

/// The least byte for which an access and a return conflict.
fn common_closed(memory: &Memory, one: Access, blocks: &[u64]) -> Option<ByteAt>
    ensures { IsLeast (MeetsOne memory.now one (map closes blocks.now)) result }
{
    let mut least = None;
    for block in blocks {
        least = earlier(least, common(memory, one, closing(*block)));
    }
    least
}

/// The least byte for which two accesses conflict.
fn common(memory: &Memory, one: Access, other: Access) -> Option<ByteAt>
    ensures { result ≡ common_of memory.now one other }
{
    let here = touched_interval(memory, one.bytes);
    let there = touched_interval(memory, other.bytes);
    if conflict(one, other) && meet(here, there) {
        Some(ByteAt {
            block: here.block,
            offset: here.low.max(there.low) as i128,
        })
    } else {
        None
    }
}

/// Whether two accesses to one byte conflict.
fn conflict(one: Access, other: Access) -> bool
    ensures { result ≡ conflicting one other }
{
    (one.writes || other.writes) && !(one.atomic && other.atomic)
}

/// Whether two intervals have a byte in common.
fn meet(one: Interval, other: Interval) -> bool
    ensures { result ≡ have_common one other }
{
    one.block == other.block && one.low.max(other.low) < one.high.min(other.high)
}

/// The bytes of a block that are touched.
fn touched_interval(memory: &Memory, bytes: Touched) -> Interval
    ensures value { result ≡ interval_of memory.now bytes }
    ensures low { result.low < 2 ^ 127 }
{
    match bytes {
        Touched::Range {
            at: Loc::Null,
            size: _,
        } => Interval {
            block: 0,
            low: 0,
            high: 0,
        },
        Touched::Range {
            at: Loc::At { block, offset },
            size,
        } => Interval {
            block,
            low: from_zero(offset),
            high: end(offset, size),
        },
        Touched::Block(block) => Interval {
            block,
            low: 0,
            high: u128::from(memory.length(block)),
        },
    }
}

/// The number, or 0 where it is negative.
fn from_zero(number: i128) -> u128
    ensures value { result ≡ natural_part number }
    ensures bound { result < 2 ^ 127 }
{
    match u128::try_from(number) {
        Ok(natural) => natural,
        Err(_) => 0,
    }
}

/// The end of so many bytes from an offset on, or 0 where it is negative.
fn end(offset: i128, size: u32) -> u128
    ensures { result ≡ natural_part (offset +ℤ pos size) }
{
    match u128::try_from(offset) {
        Ok(start) => start + u128::from(size),
        Err(_) => from_zero(offset + i128::from(size)),
    }
}

/// The earlier of two bytes, where there is one.
fn earlier(one: Option<ByteAt>, other: Option<ByteAt>) -> Option<ByteAt>
    ensures { result ≡ earlier_of one other }
{
    match (one, other) {
        (None, _) => other,
        (Some(_), None) => one,
        (Some(at), Some(before)) => {
            if is_before(before, at) {
                Some(before)
            } else {
                Some(at)
            }
        }
    }
}

/// Whether a byte comes before another.
fn is_before(one: ByteAt, other: ByteAt) -> bool
    ensures { result ≡ before one other }
{
    one.block < other.block || (one.block == other.block && one.offset < other.offset)
}
