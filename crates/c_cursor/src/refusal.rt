ghost use Rattle.c_cursor.specs.Reads.{IsRefusal};

use crate::left_out::LeftOut;
use rc_text::{NoMemory, Place};
use std::alloc::AllocError;

/// Why there is no tree. `place` is that of the first token at which nothing goes on, or of the file's end.
#[derive(Clone, Copy, Debug, PartialEq, Eq, Hash)]
pub enum ParseRefusal {
    /// Nothing of the grammar stands there.
    Syntax { place: Place },
    /// A form begins there that the profile leaves out by name.
    Refused { place: Place, name: LeftOut },
    /// More than `DEPTH_LIMIT` statements, expressions and types lie in one another.
    Depth,
    NoMemory,
}

impl ParseRefusal {
    /// The refusal at this place, by the name of the form that begins there, if it has one.
    pub fn at(place: Place, left_out: Option<LeftOut>) -> ParseRefusal
        ensures { IsRefusal result }
    {
        match left_out {
            Some(name) => ParseRefusal::Refused { place, name },
            None => ParseRefusal::Syntax { place },
        }
    }
}

impl From<NoMemory> for ParseRefusal {
    ghost use Rattle.std.specs.Prelude.{◌≡◌};
    ghost use Rattle.c_cursor.specs.declared.refusal.ParseRefusal.TheVariants as refusals;

    ghost from_gives = { λ _ refusal. refusal ≡ refusals.NoMemory };

    fn from(_error: NoMemory) -> ParseRefusal {
        ParseRefusal::NoMemory
    }
}

impl From<AllocError> for ParseRefusal {
    ghost use Rattle.std.specs.Prelude.{◌≡◌};
    ghost use Rattle.c_cursor.specs.declared.refusal.ParseRefusal.TheVariants as refusals;

    ghost from_gives = { λ _ refusal. refusal ≡ refusals.NoMemory };

    fn from(_error: AllocError) -> ParseRefusal {
        ParseRefusal::NoMemory
    }
}
