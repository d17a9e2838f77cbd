ghost use Rattle.std.specs.Prelude.{◌≡◌, ℤ, pos, ◌<ℤ◌, ◌≢◌, false, int_div, IsTrue, IfOk, OnOk, IfErr};
ghost use Rattle.std.specs.FinMap as map;
ghost use Rattle.linear_solve.specs.declared.limit.Limit.TheVariants as limits;
ghost use Rattle.linear_solve.specs.Derived.{row_of_sums};
ghost use Rattle.linear_solve.specs.Limits.{is_wide, is_wide_row, OnLimit, PassesWidth};

use crate::limit::{Limit, SolveRefusal};
use crate::numbers::Numbers;
use linear_certs::{Factors, Row, RowKind};
use rc_text::NoMemory;
use std::alloc::Global;
use whole_numbers::Whole;

pub fn copy_of(alloc: Global, row: &Row) -> Result<Row, NoMemory>
    ensures { IfOk result (λ copy. copy ≡ row.now) }
{
    let mut factors = Factors::new(alloc);
    for &(unknown, factor) in row.factors.as_slice() {
        factors.insert(unknown, factor)?;
    }
    Ok(Row {
        kind: row.kind,
        constant: row.constant,
        factors,
    })
}

/// The row that a sum is, divided.
pub fn row_of(
    alloc: Global,
    kind: RowKind,
    constant: &Whole,
    sums: &Numbers,
    divisor: &Whole,
) -> Result<Row, SolveRefusal>
    requires { pos 0 <ℤ divisor.now }
    ensures ok { IfOk result (λ row. row ≡ row_of_sums kind constant.now (map.entries sums.now) divisor.now) }
    ensures narrow { OnOk result
        (is_wide_row (row_of_sums kind constant.now (map.entries sums.now) divisor.now) ≡ false) }
    ensures wide { IfErr result (λ refusal. OnLimit refusal
        (PassesWidth (row_of_sums kind constant.now (map.entries sums.now) divisor.now))) }
{
    let constant = narrow_quotient(alloc, constant, divisor)?;
    let mut factors = Factors::new(alloc);
    for (unknown, sum) in sums.as_slice() {
        let factor = narrow_quotient(alloc, sum, divisor)?;
        insert_unless_zero(&mut factors, *unknown, factor)?;
    }
    Ok(Row {
        kind,
        constant,
        factors,
    })
}

/// The quotient, where it isn't beyond 2^120.
fn narrow_quotient(alloc: Global, number: &Whole, divisor: &Whole) -> Result<i128, SolveRefusal>
    requires { pos 0 <ℤ divisor.now }
    ensures ok { IfOk result (λ quotient. quotient ≡ int_div number.now divisor.now) }
    ensures narrow { OnOk result (is_wide (int_div number.now divisor.now) ≡ false) }
    ensures wide { IfErr result (λ refusal. OnLimit refusal
        (λ limit. (limit ≡ limits.Width) × IsTrue (is_wide (int_div number.now divisor.now)))) }
{
    let quotient = number.divided_by(alloc, divisor)?;
    narrow(&quotient)
}

fn insert_unless_zero(factors: &mut Factors, unknown: u32, factor: i128) -> Result<(), NoMemory>
    ensures kept { OnOk result (factor ≢ pos 0 → factors.new ≡ map.insert factors.old unknown factor) }
    ensures left_out { OnOk result (factor ≡ pos 0 → factors.new ≡ factors.old) }
{
    if factor == 0 {
        return Ok(());
    }
    factors.insert(unknown, factor)
}

/// The number, where it isn't beyond 2^120.
pub fn narrow(number: &Whole) -> Result<i128, SolveRefusal>
    ensures ok { IfOk result (λ narrow. narrow ≡ number.now) }
    ensures narrow { OnOk result (is_wide number.now ≡ false) }
    ensures wide { IfErr result (λ refusal. OnLimit refusal
        (λ limit. (limit ≡ limits.Width) × IsTrue (is_wide number.now))) }
{
    match number.to_i128() {
        Some(narrow) if narrow.unsigned_abs() <= 1 << 120 => Ok(narrow),
        _ => Err(SolveRefusal::Limit(Limit::Width)),
    }
}
