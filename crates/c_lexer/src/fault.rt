use rc_text::{Bytes, NoMemory, Place};
use std::alloc::AllocFailed;

/// What is wrong at a place where no token begins.
#[derive(Debug, Drop)]
pub enum LexFaultKind {
    /// A byte that stands in no token.
    BadByte,
    /// A comment without its end.
    OpenComment,
    /// A string without its closing quote on the line.
    OpenString,
    /// What begins like a number or a character constant and is none.
    BadNumber,
    /// A directive that isn't read, with the identifier or keyword behind its `#`.
    Directive(Option<Bytes>),
}

/// The first fault of a file.
#[derive(Debug, Drop)]
pub struct LexFault {
    pub place: Place,
    pub kind: LexFaultKind,
}

/// Why there are no tokens.
#[derive(Debug, Drop)]
pub enum LexRefusal {
    Fault(LexFault),
    /// There is no fault, and more than `TOKEN_LIMIT` tokens.
    TokenLimit,
    NoMemory,
}

impl From<NoMemory> for LexRefusal {
    ghost use Rattle.std.specs.Prelude.{◌≡◌};
    ghost use Rattle.c_lexer.specs.declared.fault.LexRefusal.TheVariants as refusals;

    ghost from_gives = { λ _ refusal. refusal ≡ refusals.NoMemory };

    fn from(_error: NoMemory) -> LexRefusal {
        LexRefusal::NoMemory
    }
}

impl<T: Drop> From<AllocFailed<T>> for LexRefusal {
    ghost use Rattle.std.specs.Prelude.{◌≡◌};
    ghost use Rattle.c_lexer.specs.declared.fault.LexRefusal.TheVariants as refusals;

    ghost from_gives = { λ _ refusal. refusal ≡ refusals.NoMemory };

    fn from(_error: AllocFailed<T>) -> LexRefusal {
        LexRefusal::NoMemory
    }
}
