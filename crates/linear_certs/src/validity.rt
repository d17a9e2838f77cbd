ghost use Rattle.std.specs.Prelude.{◌≡◌, ◌↔◌, IsTrue, IfOk, OnOk};
ghost use Rattle.linear_certs.specs.declared.refusal.CertRefusal.TheVariants as refusals;
ghost use Rattle.linear_certs.specs.Certificate.{IsValid, PassesWidth};

use crate::entries::{are_ascending, are_multiples};
use crate::refusal::CertRefusal;
use crate::row::Row;
use crate::sum::Sum;
use rc_terms::Cert;
use std::alloc::Global;

/// Whether the certificate refutes the rows, which are numbered from 0. A refusal for width stands before a no.
pub fn valid(alloc: Global, rows: &[Row], cert: &Cert) -> Result<bool, CertRefusal>
    ensures judged { IfOk result (λ yes. IsTrue yes ↔ IsValid rows.now cert.now) }
    ensures width { result ≡ Err refusals.Width → PassesWidth rows.now cert.now }
    ensures within_width { OnOk result (¬ PassesWidth rows.now cert.now) }
{
    let sum = Sum::of(alloc, rows, cert)?;
    let entries = cert.entries.as_slice();
    Ok(sum.is_impossible() && are_ascending(entries) && are_multiples(rows, entries))
}
