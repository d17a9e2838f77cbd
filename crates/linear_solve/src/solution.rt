ghost use Rattle.std.specs.Prelude.{◌≡◌, false, IsTrue, map, IfOk, IfErr, OnOk, Ok, Err, ◌*ℤ◌, ◌↔◌, nat_le};
ghost use Rattle.std.specs.Prelude.{◌^◌, unsigned_abs, All};
ghost use Rattle.linear_solve.specs.Unknowns.{HasNoZero};
ghost use Rattle.std.specs.List.{list_any};
ghost use Rattle.linear_certs.specs.Certificate.{IsValid};
ghost use Rattle.linear_solve.specs.declared.limit.Limit.TheVariants as limits;
ghost use Rattle.linear_solve.specs.Limits.{OnLimit};
ghost use Rattle.linear_solve.specs.Failing.{direction, certificate_of};
ghost use Rattle.linear_solve.specs.Models.{values_of};
ghost use Rattle.linear_solve.specs.Solutions.{has_long_multiplier, ClosesBy, opened, Answers, MeetsAll};
ghost use Rattle.linear_solve.specs.Solutions.{AreRefuted, OnClosed, OnOpen, IsClosed};

use crate::derived::Derived;
use crate::elimination::eliminate;
use crate::limit::{Limit, SolveRefusal};
use crate::model::{Model, values_of};
use crate::step::{Eliminated, Step};
use crate::unknowns::unknowns_of;
use linear_certs::{CertRefusal, Row, valid};
use rc_terms::{Cert, CertEntry};
use sqlite_items::Items;
use std::alloc::Global;
use whole_numbers::Whole;

/// How many unknowns there may be.
const COLUMN_LIMIT: usize = 128;

/// What rows come to.
#[derive(Debug, Drop)]
pub enum Solved {
    /// No fractions meet all rows, as the certificate shows.
    Closed(Cert),
    /// The model meets all rows.
    Open(Model),
}

/// Closes rows with a certificate, or opens them with a model. Unknowns are eliminated in ascending order (Fourier
/// 1826, Motzkin 1936). The unknowns are counted first, then rows are counted and numbers looked at as they are formed.
pub fn solve(alloc: Global, rows: &[Row]) -> Result<Solved, SolveRefusal>
    ensures ok { IfOk result (λ solved. Answers rows.now (Ok solved)) }
    ensures limit { IfErr result (λ refusal. OnLimit refusal (λ limit. Answers rows.now (Err limit))) }
    ensures certificate { IfOk result (λ solved. OnClosed solved (IsValid rows.now)) }
    ensures model { IfOk result (λ solved. OnOpen solved (λ model. MeetsAll model rows.now)) }
    ensures exactly { IfOk result (λ solved. IsClosed solved ↔ AreRefuted rows.now) }
{
    answer(alloc, rows)
}

fn answer(alloc: Global, rows: &[Row]) -> Result<Solved, SolveRefusal>
    ensures ok { IfOk result (λ solved. Answers rows.now (Ok solved)) }
    ensures limit { IfErr result (λ refusal. OnLimit refusal (λ limit. Answers rows.now (Err limit))) }
    ensures no_zero { OnOk result (All HasNoZero rows.now) }
{
    let unknowns = unknowns_of(alloc, rows)?;
    if unknowns.len() > COLUMN_LIMIT {
        return Err(SolveRefusal::Limit(Limit::Columns));
    }
    match eliminate(alloc, rows, unknowns.as_slice())? {
        Eliminated::Refuted(failing) => closed(alloc, rows, &failing),
        Eliminated::Steps(steps) => opened(alloc, steps.as_slice()),
    }
}

/// Closes rows with the certificate of a failing row.
fn closed(alloc: Global, rows: &[Row], failing: &Derived) -> Result<Solved, SolveRefusal>
    ensures ok { IfOk result (λ solved. ClosesBy rows.now (certificate_of failing.now) (Ok solved)) }
    ensures limit { IfErr result (λ refusal. OnLimit refusal (λ limit.
        ClosesBy rows.now (certificate_of failing.now) (Err limit))) }
{
    let cert = certificate_of(alloc, failing)?;
    match valid(alloc, rows, &cert) {
        Ok(_) => Ok(Solved::Closed(cert)),
        Err(CertRefusal::Width) => Err(SolveRefusal::Limit(Limit::Width)),
        Err(CertRefusal::NoMemory) => Err(SolveRefusal::NoMemory),
    }
}

/// The certificate of a failing row.
fn certificate_of(alloc: Global, failing: &Derived) -> Result<Cert, SolveRefusal>
    ensures ok { IfOk result (λ cert. cert ≡ certificate_of failing.now) }
    ensures short { OnOk result (has_long_multiplier (certificate_of failing.now) ≡ false) }
    ensures long { IfErr result (λ refusal. OnLimit refusal (λ limit.
        (limit ≡ limits.Width) × IsTrue (has_long_multiplier (certificate_of failing.now)))) }
{
    let shared = failing.multipliers.shared_divisor(alloc, &Whole::new(0))?;
    let lowest = failing.multipliers.quotients(alloc, &shared)?;
    let sign = direction(failing.row.constant);
    let entries = entries_of(alloc, sign, lowest.as_slice())?;
    Ok(Cert {
        entries: Items::from_vec(entries),
    })
}

/// The sign by which a failing row's constant becomes negative.
fn direction(constant: i128) -> i128
    ensures { result ≡ direction constant }
{
    if 0 < constant { -1 } else { 1 }
}

fn entries_of(
    alloc: Global,
    sign: i128,
    multipliers: &[(u32, Whole)],
) -> Result<Vec<CertEntry>, SolveRefusal>
    ensures ok { IfOk result (λ entries. entries.items ≡
        map (λ entry. record { row = entry.0; multiplier = sign *ℤ entry.1 }) multipliers.now) }
    ensures short { OnOk result
        (list_any (λ entry. nat_le (2 ^ 127) (unsigned_abs (sign *ℤ entry.1))) multipliers.now ≡ false) }
    ensures long { IfErr result (λ refusal. OnLimit refusal (λ limit. (limit ≡ limits.Width)
        × IsTrue (list_any (λ entry. nat_le (2 ^ 127) (unsigned_abs (sign *ℤ entry.1))) multipliers.now))) }
{
    let mut entries = Vec::new(alloc);
    for (row, multiplier) in multipliers {
        let row = *row;
        let multiplier = multiplied(alloc, sign, multiplier)?;
        entries.push(CertEntry { row, multiplier })?;
    }
    Ok(entries)
}

/// The multiplier with its sign, where it has 128 bits.
fn multiplied(alloc: Global, sign: i128, multiplier: &Whole) -> Result<i128, SolveRefusal>
    ensures ok { IfOk result (λ product. product ≡ sign *ℤ multiplier.now) }
    ensures short { OnOk result (nat_le (2 ^ 127) (unsigned_abs (sign *ℤ multiplier.now)) ≡ false) }
    ensures long { IfErr result (λ refusal. OnLimit refusal (λ limit. (limit ≡ limits.Width)
        × IsTrue (nat_le (2 ^ 127) (unsigned_abs (sign *ℤ multiplier.now))))) }
{
    let product = Whole::new(sign).times(alloc, multiplier)?;
    match product.to_i128() {
        Some(product) => Ok(product),
        None => Err(SolveRefusal::Limit(Limit::Width)),
    }
}

/// Opens rows with the model of an elimination that went on.
fn opened(alloc: Global, steps: &[Step]) -> Result<Solved, SolveRefusal>
    ensures ok { IfOk result (λ solved. opened (values_of steps.now) ≡ Ok solved) }
    ensures limit { IfErr result (λ refusal. OnLimit refusal (λ limit. opened (values_of steps.now) ≡ Err limit)) }
{
    let values = values_of(alloc, steps)?;
    Ok(Solved::Open(Model {
        values: Items::from_vec(values),
    }))
}
