ghost use Rattle.std.specs.Prelude.{◌≡◌, ◌≢◌, ◌≤◌, ◌<◌, ◌^◌, ◌↔◌, ℕ, pos, ◌+ℤ◌, ◌*ℤ◌, ◌<ℤ◌};
ghost use Rattle.std.specs.Prelude.{unsigned_abs, All, IsTrue, IfOk, OnOk, MatchResult};
ghost use Rattle.std.specs.BTreeMap as tree;
ghost use Rattle.std.specs.Ordering.{nat_cmp};
ghost use Rattle.linear_certs.specs.declared.refusal.CertRefusal.TheVariants as refusals;
ghost use Rattle.linear_certs.specs.Certificate.{Column, constants, factors, multiple_in, sum_in, IsWide, PassesWidth};
ghost use Rattle.linear_certs.specs.Sum.{running_factor, running_number, number_plus, IsNarrow};

use crate::refusal::CertRefusal;
use crate::row::Row;
use rc_terms::{Cert, CertEntry};
use std::alloc::Global;
use std::collections::BTreeMap;

/// No number of a partial sum may be beyond this, on either side of 0.
const WIDTH_LIMIT: u128 = 1 << 120;

/// What multiples of rows add up to so far. A factor may be 0 here.
#[derive(Debug, Drop)]
pub struct Sum {
    constant: i128,
    factors: BTreeMap<u32, i128>,
}

impl Sum {
    /// The sum of no row. It takes no memory.
    fn new(alloc: Global) -> Self
        ensures { (column : Column) → running_number column result ≡ pos 0 }
    {
        Sum {
            constant: 0,
            factors: BTreeMap::new(alloc),
        }
    }

    /// The sum of all entries of the certificate.
    pub fn of(alloc: Global, rows: &[Row], cert: &Cert) -> Result<Self, CertRefusal>
        ensures sum { IfOk result
            (λ sum. (column : Column) → running_number column sum ≡ sum_in column rows.now cert.now.entries) }
        ensures narrow { OnOk result (¬ PassesWidth rows.now cert.now) }
        ensures wide { result ≡ Err refusals.Width → PassesWidth rows.now cert.now }
    {
        let mut sum = Sum::new(alloc);
        for entry in cert.entries.as_slice() {
            sum.add_entry(rows, *entry)?;
        }
        Ok(sum)
    }

    /// Adds the multiple that an entry names, and nothing where it names no row. After an error nothing is known
    /// of the sum.
    fn add_entry(&mut self, rows: &[Row], entry: CertEntry) -> Result<(), CertRefusal>
        requires { IsNarrow self.old }
        ensures sum { OnOk result ((column : Column) →
            running_number column self.new ≡ running_number column self.old +ℤ multiple_in column rows.now entry) }
        ensures narrow { OnOk result (IsNarrow self.new) }
        ensures wide { result ≡ Err refusals.Width →
            (column : Column) × IsWide (running_number column self.old +ℤ multiple_in column rows.now entry) }
    {
        match rows.get(entry.row as usize) {
            Some(row) => self.add(entry.multiplier, row),
            None => Ok(()),
        }
    }

    /// Adds a multiple of a row. After an error nothing is known of the sum.
    fn add(&mut self, multiplier: i128, row: &Row) -> Result<(), CertRefusal>
        requires { IsNarrow self.old }
        ensures sum { OnOk result
            ((column : Column) → running_number column self.new ≡ number_plus self.old multiplier row.now column) }
        ensures narrow { OnOk result (IsNarrow self.new) }
        ensures wide { result ≡ Err refusals.Width →
            (column : Column) × IsWide (number_plus self.old multiplier row.now column) }
    {
        self.constant = plus_multiple(self.constant, multiplier, row.constant)?;
        for &(unknown, factor) in row.factors.as_slice() {
            add_factor(&mut self.factors, unknown, multiplier, factor)?;
        }
        Ok(())
    }

    /// Whether it says `0 <= c` or `0 = c` for a constant c below 0.
    pub fn is_impossible(&self) -> bool
        ensures { IsTrue result ↔ (((unknown : ℕ) → running_number (factors unknown) self.now ≡ pos 0)
            × (running_number constants self.now <ℤ pos 0)) }
    {
        self.constant < 0 && are_zero(&self.factors)
    }
}

/// Adds a multiple of a factor to an unknown's. After an error nothing is known of the factors.
fn add_factor(
    factors: &mut BTreeMap<u32, i128>,
    unknown: u32,
    multiplier: i128,
    factor: i128,
) -> Result<(), CertRefusal>
    requires { unsigned_abs (running_factor factors.old unknown) ≤ 2 ^ 120 }
    ensures here { OnOk result
        (running_factor factors.new unknown ≡ running_factor factors.old unknown +ℤ multiplier *ℤ factor) }
    ensures narrow { OnOk result (unsigned_abs (running_factor factors.new unknown) ≤ 2 ^ 120) }
    ensures others { OnOk result
        ((other : ℕ) → other ≢ unknown → running_factor factors.new other ≡ running_factor factors.old other) }
    ensures wide { result ≡ Err refusals.Width →
        IsWide (running_factor factors.old unknown +ℤ multiplier *ℤ factor) }
{
    let before = factors.get(&unknown).copied().unwrap_or(0);
    let after = plus_multiple(before, multiplier, factor)?;
    factors.insert(unknown, after)?;
    Ok(())
}

/// Whether all factors are 0.
fn are_zero(factors: &BTreeMap<u32, i128>) -> bool
    ensures zero { IsTrue result ↔ All (λ factor. factor ≡ pos 0) (tree.values factors.now) }
    ensures ordered { tree.IsOrdered nat_cmp factors.now }
{
    factors.values().all(|factor| *factor == 0)
}

/// The sum of a number and a multiple of another, where it is not beyond the limit.
fn plus_multiple(number: i128, multiplier: i128, other: i128) -> Result<i128, CertRefusal>
    requires { unsigned_abs number ≤ 2 ^ 120 }
    ensures { MatchResult result
        (λ sum. (sum ≡ number +ℤ multiplier *ℤ other) × (unsigned_abs sum ≤ 2 ^ 120))
        (λ refusal. (refusal ≡ refusals.Width) × IsWide (number +ℤ multiplier *ℤ other)) }
{
    let sum = multiplier
        .checked_mul(other)
        .and_then(|product| number.checked_add(product));
    match sum {
        Some(sum) if sum.unsigned_abs() <= WIDTH_LIMIT => Ok(sum),
        _ => Err(CertRefusal::Width),
    }
}
