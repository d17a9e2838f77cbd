use rc_text::NoMemory;
use thiserror::Error;

/// Why an access to memory is undefined (C11 6.5.3.2 and 6.3.2.3; the four kinds are this project's own).
#[derive(Clone, Copy, Debug, PartialEq, Eq, Hash, Error)]
pub enum MemoryUb {
    /// The block was closed, or never opened.
    #[error("the block isn't alive")]
    Dead,
    /// The range isn't inside the block.
    #[error("out of bounds")]
    OutOfBounds,
    /// The alignment doesn't divide the offset.
    #[error("misaligned")]
    Misaligned,
    /// The location is null.
    #[error("null access")]
    NullAccess,
}

/// Why a load gives no value.
#[derive(Clone, Copy, Debug, PartialEq, Eq, Hash, Error)]
pub enum LoadFault {
    #[error(transparent)]
    Undefined(MemoryUb),
    #[error("no memory")]
    NoMemory,
}

impl From<NoMemory> for LoadFault {
    ghost use Rattle.std.specs.Prelude.{◌≡◌};
    ghost use Rattle.byte_memory.specs.declared.fault.LoadFault.TheVariants as faults;

    ghost from_gives = { λ _ fault. fault ≡ faults.NoMemory };

    fn from(_error: NoMemory) -> LoadFault {
        LoadFault::NoMemory
    }
}

impl From<MemoryUb> for LoadFault {
    ghost use Rattle.std.specs.Prelude.{◌≡◌};
    ghost use Rattle.byte_memory.specs.declared.fault.LoadFault.TheVariants as faults;

    ghost from_gives = { λ ub fault. fault ≡ faults.Undefined ub };

    fn from(ub: MemoryUb) -> LoadFault {
        LoadFault::Undefined(ub)
    }
}
