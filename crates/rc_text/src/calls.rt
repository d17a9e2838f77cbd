ghost use Rattle.std.specs.Prelude.{◌≡◌, ◌↔◌, IsTrue, Contains};
ghost use Rattle.rc_text.specs.Faults.{faults_after, one_more};

use crate::answer::LastCall;

/// How many bytes a call on a shelf or a sink in memory takes at most.
pub const LARGEST_PIECE: usize = 16;

/// Counts a call, and says whether its number is among those that fail.
pub(crate) fn count_call(calls: &mut u64, failing: &[u64]) -> bool
    ensures fails { IsTrue result ↔ Contains failing.now calls.old }
    ensures counted { calls.new ≡ one_more calls.old }
{
    let fails = failing.contains(calls);
    *calls = calls.saturating_add(1);
    fails
}

/// Keeps what a call came to, and counts it if it failed.
pub(crate) fn record_call(last: &mut LastCall, faults: &mut u64, call: LastCall)
    ensures last { last.new ≡ call }
    ensures faults { faults.new ≡ faults_after call faults.old }
{
    *last = call;
    if call != LastCall::Answered {
        *faults = faults.saturating_add(1);
    }
}
