ghost use Rattle.std.specs.Prelude.{◌≡◌, All, IfOk, OnOk};
ghost use Rattle.std.specs.FinMap as map;
ghost use Rattle.linear_solve.specs.Unknowns.{with_factors, unknowns_of, HasNoZero};

use linear_certs::Row;
use rc_text::NoMemory;
use std::alloc::Global;
use std::collections::BTreeSet;

/// All unknowns of rows, ascending.
pub fn unknowns_of(alloc: Global, rows: &[Row]) -> Result<Vec<u32>, NoMemory>
    ensures ascending { IfOk result (λ unknowns. unknowns.items ≡ unknowns_of rows.now) }
    ensures no_zero { OnOk result (All HasNoZero rows.now) }
{
    let mut known = BTreeSet::new(alloc);
    for row in rows {
        add_unknowns(&mut known, row)?;
    }
    Ok(known.iter().copied().collect(alloc)?)
}

fn add_unknowns(known: &mut BTreeSet<u32>, row: &Row) -> Result<(), NoMemory>
    ensures added { OnOk result (known.new.keys ≡ with_factors known.old.keys (map.entries row.now.factors)) }
    ensures no_zero { HasNoZero row.now }
{
    for &(unknown, _) in row.factors.as_slice() {
        known.insert(unknown)?;
    }
    Ok(())
}
