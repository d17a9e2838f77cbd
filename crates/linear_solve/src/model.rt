ghost use Rattle.std.specs.Prelude.{◌≡◌, ◌==◌, IfOk, IfErr, Ok, Err, find, None, option_map};
ghost use Rattle.linear_solve.specs.Limits.{OnLimit};
ghost use Rattle.linear_solve.specs.Models.{value_of, product_at, plus_product, plus_products, sum_at, bound_of};
ghost use Rattle.linear_solve.specs.Models.{sets_bound, is_better, better_of, best_of, best_bound, else_least};
ghost use Rattle.linear_solve.specs.Models.{value_by, step_value, values_of};
ghost use Rattle.linear_solve.specs.Levels.{is_equation};

use crate::derived::Derived;
use crate::fraction::Fraction;
use crate::limit::SolveRefusal;
use crate::step::Step;
use rc_text::NoMemory;
use sqlite_items::Items;
use std::alloc::Global;

/// An unknown's value.
#[derive(Clone, Copy, Debug, PartialEq, Eq)]
pub struct UnknownValue {
    pub unknown: u32,
    pub value: Fraction,
}

/// Values of unknowns, by ascending unknown. An unknown that isn't there has 0.
#[derive(Debug, Drop)]
pub struct Model {
    pub values: Items<UnknownValue>,
}

impl Model {
    pub fn value(&self, unknown: u32) -> Fraction
        ensures { result ≡ value_of self.now.values unknown }
    {
        value_of(self.values.as_slice(), unknown)
    }
}

/// Which bounds of an unknown.
#[derive(Clone, Copy, Debug, PartialEq, Eq)]
enum Side {
    Lower,
    Upper,
}

fn value_of(values: &[UnknownValue], unknown: u32) -> Fraction
    ensures { result ≡ value_of values.now unknown }
{
    match entry_of(values, unknown) {
        Some(found) => found.value,
        None => Fraction::whole(0),
    }
}

fn entry_of(values: &[UnknownValue], unknown: u32) -> Option<&UnknownValue>
    ensures { option_map (λ entry. entry.now) result ≡ find (λ entry. entry.unknown == unknown) values.now }
{
    values.iter().find(|entry| entry.unknown == unknown)
}

/// A factor's product with its unknown's value, added to a sum.
fn plus_product(
    alloc: Global,
    values: &[UnknownValue],
    sum: Fraction,
    factor: &(u32, i128),
) -> Result<Fraction, SolveRefusal>
    ensures ok { IfOk result (λ next. plus_product values.now sum factor.now ≡ Ok next) }
    ensures limit { IfErr result (λ refusal. OnLimit refusal (λ limit.
        plus_product values.now sum factor.now ≡ Err limit)) }
{
    let product = value_of(values, factor.0).times(alloc, factor.1)?;
    sum.plus(alloc, product)
}

fn plus_products(
    alloc: Global,
    values: &[UnknownValue],
    start: Fraction,
    factors: &[(u32, i128)],
) -> Result<Fraction, SolveRefusal>
    ensures ok { IfOk result (λ sum. plus_products values.now start factors.now ≡ Ok sum) }
    ensures limit { IfErr result (λ refusal. OnLimit refusal (λ limit.
        plus_products values.now start factors.now ≡ Err limit)) }
{
    let mut sum = start;
    for factor in factors {
        sum = plus_product(alloc, values, sum, factor)?;
    }
    Ok(sum)
}

/// A row's sum at these values.
fn sum_at(alloc: Global, values: &[UnknownValue], row: &Derived) -> Result<Fraction, SolveRefusal>
    ensures ok { IfOk result (λ sum. sum_at values.now row.now ≡ Ok sum) }
    ensures limit { IfErr result (λ refusal. OnLimit refusal (λ limit. sum_at values.now row.now ≡ Err limit)) }
{
    let constant = Fraction::whole(row.row.constant);
    plus_products(alloc, values, constant, row.row.factors.as_slice())
}

/// The bound that a row sets to an unknown which has no value yet.
fn bound_of(
    alloc: Global,
    values: &[UnknownValue],
    unknown: u32,
    row: &Derived,
) -> Result<Fraction, SolveRefusal>
    ensures ok { IfOk result (λ bound. bound_of values.now unknown row.now ≡ Ok bound) }
    ensures limit { IfErr result (λ refusal. OnLimit refusal (λ limit.
        bound_of values.now unknown row.now ≡ Err limit)) }
{
    let rest = sum_at(alloc, values, row)?;
    rest.root(alloc, row.factor(unknown))
}

fn sets_bound(side: Side, unknown: u32, row: &Derived) -> bool
    ensures { result ≡ sets_bound side unknown row.now }
{
    match side {
        Side::Lower => row.is_positive(unknown),
        Side::Upper => row.is_negative(unknown),
    }
}

fn is_better(alloc: Global, side: Side, bound: Fraction, best: Fraction) -> Result<bool, NoMemory>
    ensures { IfOk result (λ better. better ≡ is_better side bound best) }
{
    match side {
        Side::Lower => best.is_below(alloc, bound),
        Side::Upper => bound.is_below(alloc, best),
    }
}

fn better_of(
    alloc: Global,
    side: Side,
    best: Option<Fraction>,
    bound: Fraction,
) -> Result<Fraction, NoMemory>
    ensures { IfOk result (λ better. better ≡ better_of side best bound) }
{
    let Some(best) = best else {
        return Ok(bound);
    };
    if is_better(alloc, side, bound, best)? {
        Ok(bound)
    } else {
        Ok(best)
    }
}

/// The greatest lower bound that rows set, or the least upper bound.
fn best_bound(
    alloc: Global,
    side: Side,
    values: &[UnknownValue],
    unknown: u32,
    rows: &[Derived],
) -> Result<Option<Fraction>, SolveRefusal>
    ensures ok { IfOk result (λ best. best_bound side values.now unknown rows.now ≡ Ok best) }
    ensures limit { IfErr result (λ refusal. OnLimit refusal (λ limit.
        best_bound side values.now unknown rows.now ≡ Err limit)) }
{
    let mut best = None;
    for row in rows {
        if sets_bound(side, unknown, row) {
            let bound = bound_of(alloc, values, unknown, row)?;
            best = Some(better_of(alloc, side, best, bound)?);
        }
    }
    Ok(best)
}

/// The least upper bound, where there is no lower bound.
fn else_least(
    alloc: Global,
    values: &[UnknownValue],
    unknown: u32,
    rows: &[Derived],
    greatest: Option<Fraction>,
) -> Result<Fraction, SolveRefusal>
    ensures ok { IfOk result (λ value. else_least values.now unknown rows.now greatest ≡ Ok value) }
    ensures limit { IfErr result (λ refusal. OnLimit refusal (λ limit.
        else_least values.now unknown rows.now greatest ≡ Err limit)) }
{
    let Some(greatest) = greatest else {
        let least = best_bound(alloc, Side::Upper, values, unknown, rows)?;
        return Ok(least.unwrap_or(Fraction::whole(0)));
    };
    Ok(greatest)
}

fn value_by_bounds(
    alloc: Global,
    values: &[UnknownValue],
    unknown: u32,
    rows: &[Derived],
) -> Result<Fraction, SolveRefusal>
    ensures ok { IfOk result (λ value. value_by values.now unknown rows.now None ≡ Ok value) }
    ensures limit { IfErr result (λ refusal. OnLimit refusal (λ limit.
        value_by values.now unknown rows.now None ≡ Err limit)) }
{
    let greatest = best_bound(alloc, Side::Lower, values, unknown, rows)?;
    else_least(alloc, values, unknown, rows, greatest)
}

/// The value of the unknown that a step eliminated.
fn step_value(alloc: Global, values: &[UnknownValue], step: &Step) -> Result<Fraction, SolveRefusal>
    ensures ok { IfOk result (λ value. step_value values.now step.now ≡ Ok value) }
    ensures limit { IfErr result (λ refusal. OnLimit refusal (λ limit. step_value values.now step.now ≡ Err limit)) }
{
    let rows = step.rows.as_slice();
    match equation_of(rows) {
        Some(equation) => bound_of(alloc, values, step.unknown, equation),
        None => value_by_bounds(alloc, values, step.unknown, rows),
    }
}

/// The first equation among the rows.
fn equation_of(rows: &[Derived]) -> Option<&Derived>
    ensures { option_map (λ row. row.now) result ≡ find is_equation rows.now }
{
    rows.iter().find(|row| row.row.is_equation())
}

/// The values of the unknowns that steps eliminated, in the steps' order.
pub fn values_of(alloc: Global, steps: &[Step]) -> Result<Vec<UnknownValue>, SolveRefusal>
    ensures ok { IfOk result (λ values. values_of steps.now ≡ Ok values.items) }
    ensures limit { IfErr result (λ refusal. OnLimit refusal (λ limit. values_of steps.now ≡ Err limit)) }
{
    let mut values = Vec::new(alloc);
    let mut left = steps.len();
    while left > 0 {
        left -= 1;
        let step = &steps[left];
        let value = step_value(alloc, values.as_slice(), step)?;
        let unknown = step.unknown;
        values.insert(0, UnknownValue { unknown, value })?;
    }
    Ok(values)
}
