use rc_text::NoMemory;
use std::alloc::AllocFailed;

/// What a system of rows may have too much of.
#[derive(Clone, Copy, Debug, PartialEq, Eq, Hash)]
pub enum Limit {
    /// More than 128 unknowns.
    Columns,
    /// More than 200,000 rows, those that are formed among them.
    Rows,
    /// A number beyond 2^120.
    Width,
}

/// Why rows aren't solved.
#[derive(Clone, Copy, Debug, PartialEq, Eq, Hash)]
pub enum SolveRefusal {
    Limit(Limit),
    NoMemory,
}

impl<T: Drop> From<AllocFailed<T>> for SolveRefusal {
    ghost use Rattle.std.specs.Prelude.{◌≡◌};
    ghost use Rattle.linear_solve.specs.declared.limit.SolveRefusal.TheVariants as refusals;

    ghost from_gives = { λ _ refusal. refusal ≡ refusals.NoMemory };

    fn from(_error: AllocFailed<T>) -> SolveRefusal {
        SolveRefusal::NoMemory
    }
}

impl From<NoMemory> for SolveRefusal {
    ghost use Rattle.std.specs.Prelude.{◌≡◌};
    ghost use Rattle.linear_solve.specs.declared.limit.SolveRefusal.TheVariants as refusals;

    ghost from_gives = { λ _ refusal. refusal ≡ refusals.NoMemory };

    fn from(_error: NoMemory) -> SolveRefusal {
        SolveRefusal::NoMemory
    }
}
