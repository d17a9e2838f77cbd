use std::alloc::{AllocError, AllocFailed};

/// Why a call on terms gives no result.
#[derive(Clone, Copy, Debug, PartialEq, Eq)]
pub enum TermRefusal {
    /// The result is a term of more than 4,096 nodes.
    TermLimit,
    /// A number leaves 128 bits.
    Width,
    NoMemory,
}

impl From<AllocError> for TermRefusal {
    ghost use Rattle.std.specs.Prelude.{◌≡◌};
    ghost use Rattle.rc_terms.specs.declared.refusal.TermRefusal.TheVariants as refusals;

    ghost from_gives = { λ _ refusal. refusal ≡ refusals.NoMemory };

    fn from(_error: AllocError) -> TermRefusal {
        TermRefusal::NoMemory
    }
}

impl<T: Drop> From<AllocFailed<T>> for TermRefusal {
    ghost use Rattle.std.specs.Prelude.{◌≡◌};
    ghost use Rattle.rc_terms.specs.declared.refusal.TermRefusal.TheVariants as refusals;

    ghost from_gives = { λ _ refusal. refusal ≡ refusals.NoMemory };

    fn from(_error: AllocFailed<T>) -> TermRefusal {
        TermRefusal::NoMemory
    }
}
