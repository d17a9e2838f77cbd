use byte_memory::MemoryUb;
use int_ops::OpUb;
use rc_text::NoMemory as WantOfMemory;

/// Why a thread has no next step. Where several stand together, operands come before what pointers point to, and the
/// first operand before the second.
#[derive(Clone, Copy, Debug, PartialEq, Eq, Hash)]
pub enum Ub {
    /// An operand that the step needs has a byte that isn't plain, or isn't the fragments of one pointer, has another
    /// length than its layout, or is missing. What stands nowhere in the program counts as it too.
    PoisonUsed,
    /// A bool operand is a plain byte other than 0 and 1 (C11 6.2.6.1, paragraph 5).
    BadBool,
    /// A pointer is moved from null, or out of its block (C11 6.5.6, paragraph 8).
    PtrBounds,
    /// Two pointers are compared of which one isn't null and points into a closed block, or that point into different
    /// blocks and one not before its block's end.
    PtrCompare,
    /// An operator has no result (C11 6.5).
    Arithmetic(OpUb),
    /// An access to memory is undefined.
    Access(MemoryUb),
}

/// Why an operation gives nothing.
#[derive(Clone, Copy, Debug, PartialEq, Eq, Hash)]
pub enum Stop {
    /// It is undefined.
    Undefined(Ub),
    /// There is no memory.
    NoMemory,
}

impl From<Ub> for Stop {
    ghost use Rattle.std.specs.Prelude.{◌≡◌};
    ghost use Rattle.thread_steps.specs.declared.answer.Stop.TheVariants as stops;

    ghost from_gives = { λ ub stop. stop ≡ stops.Undefined ub };

    fn from(ub: Ub) -> Stop {
        Stop::Undefined(ub)
    }
}

impl From<WantOfMemory> for Stop {
    ghost use Rattle.std.specs.Prelude.{◌≡◌};
    ghost use Rattle.thread_steps.specs.declared.answer.Stop.TheVariants as stops;

    ghost from_gives = { λ _ stop. stop ≡ stops.NoMemory };

    fn from(_error: WantOfMemory) -> Stop {
        Stop::NoMemory
    }
}

/// What came of a call of `step`.
#[derive(Clone, Copy, Debug, PartialEq, Eq, Hash)]
pub enum Stepped {
    /// The thread took its next step.
    Stepped,
    /// The thread has returned from its first function, and nothing changed.
    Finished,
    /// The thread has no next step, and nothing changed.
    Undefined(Ub),
}
