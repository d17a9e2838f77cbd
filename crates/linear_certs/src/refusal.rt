use std::alloc::AllocFailed;

/// Why a certificate isn't judged.
#[derive(Clone, Copy, Debug, PartialEq, Eq)]
pub enum CertRefusal {
    /// A number of a partial sum is beyond 2^120.
    Width,
    NoMemory,
}

impl<T: Drop> From<AllocFailed<T>> for CertRefusal {
    ghost use Rattle.std.specs.Prelude.{◌≡◌};
    ghost use Rattle.linear_certs.specs.declared.refusal.CertRefusal.TheVariants as refusals;

    ghost from_gives = { λ _ refusal. refusal ≡ refusals.NoMemory };

    fn from(_error: AllocFailed<T>) -> CertRefusal {
        CertRefusal::NoMemory
    }
}
