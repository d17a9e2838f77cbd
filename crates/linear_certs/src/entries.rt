ghost use Rattle.std.specs.Prelude.{◌↔◌, map, All, IsTrue};
ghost use Rattle.std.specs.List.Sorted.{IsStrictlyIncreasing};
ghost use Rattle.linear_certs.specs.Certificate.{MultipliesRow};

use crate::row::Row;
use rc_terms::CertEntry;

/// Whether each entry's row is above that of the entry before.
pub fn are_ascending(entries: &[CertEntry]) -> bool
    ensures { IsTrue result ↔ IsStrictlyIncreasing (map (λ entry. entry.row) entries.now) }
{
    entries.is_sorted_by(|entry, next| entry.row < next.row)
}

/// Whether each entry names a row, and a number that this row may be multiplied by.
pub fn are_multiples(rows: &[Row], entries: &[CertEntry]) -> bool
    ensures { IsTrue result ↔ All (MultipliesRow rows.now) entries.now }
{
    entries.iter().all(|entry| is_multiple(rows, *entry))
}

/// Whether the entry does.
fn is_multiple(rows: &[Row], entry: CertEntry) -> bool
    ensures { IsTrue result ↔ MultipliesRow rows.now entry }
{
    match rows.get(entry.row as usize) {
        Some(row) => row.kind.may_be_multiplied(entry.multiplier),
        None => false,
    }
}
