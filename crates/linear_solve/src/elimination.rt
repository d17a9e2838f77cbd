ghost use Rattle.std.specs.Prelude.{◌≡◌, Ok, Err, IfOk, IfErr, ◌++◌};
ghost use Rattle.linear_solve.specs.declared.limit.SolveRefusal.TheVariants as refusals;
ghost use Rattle.linear_solve.specs.Limits.{OnLimit};
ghost use Rattle.linear_solve.specs.Levels.{first_level, elimination, rows_with, rows_without};

use crate::derived::Derived;
use crate::level::Level;
use crate::level_rows::LevelRows;
use crate::limit::SolveRefusal;
use crate::step::{Eliminated, Step};
use linear_certs::Row;
use sqlite_items::Items;
use std::alloc::Global;

/// Eliminates unknowns from rows, in this order.
pub fn eliminate(alloc: Global, rows: &[Row], unknowns: &[u32]) -> Result<Eliminated, SolveRefusal>
    ensures ok { IfOk result (λ outcome. elimination unknowns.now (first_level rows.now) ≡ Ok outcome) }
    ensures limit { IfErr result (λ refusal. OnLimit refusal
        (λ limit. elimination unknowns.now (first_level rows.now) ≡ Err limit)) }
{
    let mut level = Level {
        rows: LevelRows::new(alloc),
        count: 0,
    };
    let mut steps = Vec::new(alloc);
    if let Some(failing) = level.take_given(alloc, rows)? {
        return Ok(Eliminated::Refuted(failing));
    }
    for &unknown in unknowns {
        let Parts { with, without } = parted(alloc, level.rows, unknown)?;
        level = Level {
            rows: without,
            count: level.count,
        };
        if let Some(failing) = level.take_formed(alloc, unknown, &with)? {
            return Ok(Eliminated::Refuted(failing));
        }
        steps.push(Step {
            unknown,
            rows: Items::from_vec(with),
        })?;
    }
    Ok(Eliminated::Steps(Items::from_vec(steps)))
}

/// The rows with an unknown, and those without it.
#[derive(Drop)]
struct Parts {
    with: Vec<Derived>,
    without: LevelRows,
}

fn parted(alloc: Global, rows: LevelRows, unknown: u32) -> Result<Parts, SolveRefusal>
    ensures with { IfOk result (λ parts. parts.with.items ≡ rows_with unknown rows) }
    ensures without { IfOk result (λ parts. parts.without ≡ rows_without unknown rows) }
    ensures memory { IfErr result (λ refusal. refusal ≡ refusals.NoMemory) }
{
    let mut with = Vec::new(alloc);
    let mut without = LevelRows::new(alloc);
    for row in rows.into_vec() {
        if row.has(unknown) {
            with.push(row)?;
        } else {
            without.push(alloc, row)?;
        }
    }
    Ok(Parts { with, without })
}
