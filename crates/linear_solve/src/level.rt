ghost use Rattle.std.specs.Prelude.{◌≡◌, ◌≤◌, ◌+◌, ◌<◌, false, fold, [], position};
ghost use Rattle.std.specs.Prelude.{IfOk, IfErr, MatchOption, if◌then◌else◌};
ghost use Rattle.std.specs.List.{list_any};
ghost use Rattle.linear_solve.specs.Limits.{is_wide, is_wide_row, OnLimit};
ghost use Rattle.linear_solve.specs.Levels.{taken_next, taken, kept, failing, passed, says_truly};
ghost use Rattle.linear_solve.specs.Levels.{first_level};
ghost use Rattle.linear_solve.specs.Levels.{formed, cleared_by, pairs, paired, negative_rows, is_equation};

use crate::derived::Derived;
use crate::level_rows::LevelRows;
use crate::limit::{Limit, SolveRefusal};
use linear_certs::{Row, RowKind};
use std::alloc::Global;

/// How many rows may be counted.
const ROW_LIMIT: u32 = 200_000;

/// Rows of a level, taken one by one.
#[derive(Debug, Drop)]
pub struct Level {
    pub rows: LevelRows,
    pub count: u32,
}

impl Level {
    /// Takes given rows as level 0, until one fails.
    pub fn take_given(
        &mut self,
        alloc: Global,
        rows: &[Row],
    ) -> Result<Option<Derived>, SolveRefusal>
        requires empty { self.old.rows ≡ [] }
        requires uncounted { self.old.count ≡ 0 }
        ensures ok { IfOk result (λ row. MatchOption row
            (first_level rows.now ≡ kept self.new.rows self.new.count)
            (λ row. first_level rows.now ≡ failing row)) }
        ensures limit { IfErr result (λ refusal. OnLimit refusal (λ limit. first_level rows.now ≡ passed limit)) }
    {
        for row in rows {
            if is_wide_row(row) {
                return Err(SolveRefusal::Limit(Limit::Width));
            }
            let derived = Derived::given(alloc, self.count, row)?;
            if let Some(failing) = self.take(alloc, derived)? {
                return Ok(Some(failing));
            }
        }
        Ok(None)
    }

    /// Takes the rows that are formed to eliminate an unknown from rows that all have it.
    pub fn take_formed(
        &mut self,
        alloc: Global,
        unknown: u32,
        rows: &[Derived],
    ) -> Result<Option<Derived>, SolveRefusal>
        ensures ok { IfOk result (λ row. MatchOption row
            (fold taken (kept self.old.rows self.old.count) (formed unknown rows.now)
            ≡ kept self.new.rows self.new.count)
            (λ row. fold taken (kept self.old.rows self.old.count) (formed unknown rows.now) ≡ failing row)) }
        ensures limit { IfErr result (λ refusal. OnLimit refusal (λ limit.
            fold taken (kept self.old.rows self.old.count) (formed unknown rows.now) ≡ passed limit)) }
    {
        let Some(at) = first_equation(rows) else {
            return self.take_pairs(alloc, unknown, rows);
        };
        let equation = &rows[at];
        if let Some(failing) = self.take_cleared(alloc, unknown, &rows[..at], equation)? {
            return Ok(Some(failing));
        }
        self.take_cleared(alloc, unknown, &rows[at + 1..], equation)
    }

    /// Takes rows, each cleared by an equation.
    fn take_cleared(
        &mut self,
        alloc: Global,
        unknown: u32,
        rows: &[Derived],
        equation: &Derived,
    ) -> Result<Option<Derived>, SolveRefusal>
        ensures ok { IfOk result (λ row. MatchOption row
            (fold taken (kept self.old.rows self.old.count) (cleared_by unknown equation.now rows.now)
            ≡ kept self.new.rows self.new.count)
            (λ row. fold taken (kept self.old.rows self.old.count) (cleared_by unknown equation.now rows.now)
            ≡ failing row)) }
        ensures limit { IfErr result (λ refusal. OnLimit refusal (λ limit.
            fold taken (kept self.old.rows self.old.count) (cleared_by unknown equation.now rows.now)
            ≡ passed limit)) }
    {
        for row in rows {
            let derived = row.cleared(alloc, unknown, equation)?;
            if let Some(failing) = self.take(alloc, derived)? {
                return Ok(Some(failing));
            }
        }
        Ok(None)
    }

    /// Takes each positive row, cleared by each negative one.
    fn take_pairs(
        &mut self,
        alloc: Global,
        unknown: u32,
        rows: &[Derived],
    ) -> Result<Option<Derived>, SolveRefusal>
        ensures ok { IfOk result (λ row. MatchOption row
            (fold taken (kept self.old.rows self.old.count) (pairs unknown rows.now)
            ≡ kept self.new.rows self.new.count)
            (λ row. fold taken (kept self.old.rows self.old.count) (pairs unknown rows.now) ≡ failing row)) }
        ensures limit { IfErr result (λ refusal. OnLimit refusal (λ limit.
            fold taken (kept self.old.rows self.old.count) (pairs unknown rows.now) ≡ passed limit)) }
    {
        for row in rows {
            if row.is_positive(unknown) {
                if let Some(failing) = self.take_paired(alloc, unknown, row, rows)? {
                    return Ok(Some(failing));
                }
            }
        }
        Ok(None)
    }

    /// Takes one row, cleared by each negative one.
    fn take_paired(
        &mut self,
        alloc: Global,
        unknown: u32,
        row: &Derived,
        rows: &[Derived],
    ) -> Result<Option<Derived>, SolveRefusal>
        ensures ok { IfOk result (λ failing_row. MatchOption failing_row
            (fold taken (kept self.old.rows self.old.count)
            (paired unknown row.now (negative_rows unknown rows.now))
            ≡ kept self.new.rows self.new.count)
            (λ failing_row.
            fold taken (kept self.old.rows self.old.count)
            (paired unknown row.now (negative_rows unknown rows.now))
            ≡ failing failing_row)) }
        ensures limit { IfErr result (λ refusal. OnLimit refusal (λ limit.
            fold taken (kept self.old.rows self.old.count)
            (paired unknown row.now (negative_rows unknown rows.now))
            ≡ passed limit)) }
    {
        for other in rows {
            if other.is_negative(unknown) {
                let derived = row.cleared(alloc, unknown, other)?;
                if let Some(failing) = self.take(alloc, derived)? {
                    return Ok(Some(failing));
                }
            }
        }
        Ok(None)
    }

    /// Takes one row more, and gives it back where it has no unknowns and fails. After an error nothing is known
    /// of the level.
    pub fn take(&mut self, alloc: Global, derived: Derived) -> Result<Option<Derived>, SolveRefusal>
        requires { is_wide_row derived.row ≡ false }
        ensures ok { IfOk result (λ row. MatchOption row
            (taken_next self.old.rows self.old.count derived ≡ kept self.new.rows self.new.count)
            (λ row. taken_next self.old.rows self.old.count derived ≡ failing row)) }
        ensures limit { IfErr result (λ refusal. OnLimit refusal
            (λ limit. taken_next self.old.rows self.old.count derived ≡ passed limit)) }
    {
        if self.count >= ROW_LIMIT {
            return Err(SolveRefusal::Limit(Limit::Rows));
        }
        self.count += 1;
        if derived.row.factors.as_slice().is_empty() {
            return Ok(failing_constant(derived));
        }
        if !self.rows.has(alloc, &derived.row)? {
            self.rows.push(alloc, derived)?;
        }
        Ok(None)
    }
}

/// The row, if it fails without unknowns.
fn failing_constant(derived: Derived) -> Option<Derived>
    ensures { result ≡ (if says_truly derived.row.kind derived.row.constant then None else Some derived) }
{
    if says_truly(derived.row.kind, derived.row.constant) {
        None
    } else {
        Some(derived)
    }
}

/// What a row without unknowns says of its constant.
fn says_truly(kind: RowKind, constant: i128) -> bool
    ensures { result ≡ says_truly kind constant }
{
    match kind {
        RowKind::Inequality => constant >= 0,
        RowKind::Equation => constant == 0,
    }
}

/// Whether a number of the row is beyond 2^120.
fn is_wide_row(row: &Row) -> bool
    ensures { result ≡ is_wide_row row.now }
{
    is_wide(row.constant) || have_wide(row.factors.as_slice())
}

fn have_wide(factors: &[(u32, i128)]) -> bool
    ensures { result ≡ list_any (λ factor. is_wide factor.1) factors.now }
{
    factors.iter().any(|factor| is_wide(factor.1))
}

fn is_wide(number: i128) -> bool
    ensures { result ≡ is_wide number }
{
    number.unsigned_abs() > 1 << 120
}

/// Where the first equation stands.
fn first_equation(rows: &[Derived]) -> Option<usize>
    ensures { result ≡ position is_equation rows.now }
{
    rows.iter().position(|row| row.row.is_equation())
}
