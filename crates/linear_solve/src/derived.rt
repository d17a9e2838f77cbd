ghost use Rattle.std.specs.Prelude.{◌≡◌, ℤ, pos, ◌+ℤ◌, ◌*ℤ◌, ◌<ℤ◌, int_lt, false, IfOk, OnOk, IfErr};
ghost use Rattle.std.specs.FinMap as map;
ghost use Rattle.linear_solve.specs.Numbers.{shared_divisor};
ghost use Rattle.linear_solve.specs.Derived.{given, factor_of, has_unknown, combined, cleared, sums_of, other_multiple};
ghost use Rattle.linear_solve.specs.Limits.{is_wide_row, OnLimit, PassesWidth};

use crate::limit::SolveRefusal;
use crate::numbers::Numbers;
use crate::row_parts::{copy_of, row_of};
use linear_certs::Row;
use rc_text::NoMemory;
use std::alloc::Global;
use whole_numbers::Whole;

/// A row that is the sum of given rows, each times its multiplier, over one divisor.
#[derive(Debug, Drop)]
pub struct Derived {
    pub row: Row,
    pub multipliers: Numbers,
    pub divisor: Whole,
}

impl Derived {
    /// A given row, by its number.
    pub fn given(alloc: Global, index: u32, row: &Row) -> Result<Self, NoMemory>
        ensures { IfOk result (λ derived. derived ≡ given index row.now) }
    {
        let mut multipliers = Numbers::new(alloc);
        multipliers.insert(index, Whole::new(1))?;
        Ok(Derived {
            row: copy_of(alloc, row)?,
            multipliers,
            divisor: Whole::new(1),
        })
    }

    /// The factor of an unknown, 0 where the row doesn't have it.
    pub fn factor(&self, unknown: u32) -> i128
        ensures { result ≡ factor_of unknown self.now }
    {
        self.row.factors.get(unknown)
    }

    pub fn has(&self, unknown: u32) -> bool
        ensures { result ≡ has_unknown unknown self.now }
    {
        self.factor(unknown) != 0
    }

    /// Whether the factor of an unknown is positive.
    pub fn is_positive(&self, unknown: u32) -> bool
        ensures { result ≡ int_lt (pos 0) (factor_of unknown self.now) }
    {
        self.factor(unknown) > 0
    }

    /// Whether the factor of an unknown is negative.
    pub fn is_negative(&self, unknown: u32) -> bool
        ensures { result ≡ int_lt (factor_of unknown self.now) (pos 0) }
    {
        self.factor(unknown) < 0
    }

    /// This row cleared of an unknown by another that has it.
    pub fn cleared(&self, alloc: Global, unknown: u32, by: &Derived) -> Result<Self, SolveRefusal>
        ensures ok { IfOk result (λ derived. derived ≡ cleared unknown self.now by.now) }
        ensures narrow { OnOk result (is_wide_row (cleared unknown self.now by.now).row ≡ false) }
        ensures wide { IfErr result (λ refusal. OnLimit refusal (PassesWidth (cleared unknown self.now by.now).row)) }
    {
        let factor = Whole::new(by.factor(unknown));
        let own = Whole::new(self.factor(unknown));
        let times = other_multiple(alloc, &factor, own)?;
        self.combined(alloc, &factor.absolute(alloc)?, by, &times)
    }

    fn combined(
        &self,
        alloc: Global,
        by: &Whole,
        right: &Derived,
        times: &Whole,
    ) -> Result<Self, SolveRefusal>
        ensures ok { IfOk result (λ derived. derived ≡ combined by.now self.now times.now right.now) }
        ensures narrow { OnOk result (is_wide_row (combined by.now self.now times.now right.now).row ≡ false) }
        ensures wide { IfErr result (λ refusal.
            OnLimit refusal (PassesWidth (combined by.now self.now times.now right.now).row)) }
    {
        let constant = weighted(alloc, by, self.row.constant, times, right.row.constant)?;
        let sums = self.factor_sums(alloc, by, right, times)?;
        let shared = sums.shared_divisor(alloc, &constant)?;
        let row = row_of(alloc, self.row.kind, &constant, &sums, &shared)?;
        let shares = self.share_sums(alloc, by, right, times)?;
        let whole = self
            .divisor
            .times(alloc, &right.divisor)?
            .times(alloc, &shared)?;
        let common = shares.shared_divisor(alloc, &whole)?;
        Ok(Derived {
            row,
            multipliers: shares.quotients(alloc, &common)?,
            divisor: whole.divided_by(alloc, &common)?,
        })
    }

    fn factor_sums(
        &self,
        alloc: Global,
        by: &Whole,
        right: &Derived,
        times: &Whole,
    ) -> Result<Numbers, NoMemory>
        ensures { IfOk result (λ sums. sums ≡ sums_of by.now (map.entries self.now.row.factors)
            times.now (map.entries right.now.row.factors)) }
    {
        let mut sums = Numbers::new(alloc);
        sums.add_factors(alloc, by, self.row.factors.as_slice())?;
        sums.add_factors(alloc, times, right.row.factors.as_slice())?;
        Ok(sums)
    }

    fn share_sums(
        &self,
        alloc: Global,
        by: &Whole,
        right: &Derived,
        times: &Whole,
    ) -> Result<Numbers, NoMemory>
        ensures { IfOk result (λ sums. sums ≡
            sums_of (by.now *ℤ right.now.divisor) (map.entries self.now.multipliers)
            (times.now *ℤ self.now.divisor) (map.entries right.now.multipliers)) }
    {
        let by = by.times(alloc, &right.divisor)?;
        let times = times.times(alloc, &self.divisor)?;
        let mut sums = Numbers::new(alloc);
        sums.add_multiple(alloc, &by, self.multipliers.as_slice())?;
        sums.add_multiple(alloc, &times, right.multipliers.as_slice())?;
        Ok(sums)
    }
}

/// What the other row is multiplied by, where it has `factor` and the row that is cleared has `own`.
pub fn other_multiple(alloc: Global, factor: &Whole, own: Whole) -> Result<Whole, NoMemory>
    ensures { IfOk result (λ multiple. multiple ≡ other_multiple factor.now own) }
{
    if factor.is_negative() {
        Ok(own)
    } else {
        own.times(alloc, &Whole::new(-1))
    }
}

/// The sum of two products.
pub fn weighted(
    alloc: Global,
    by: &Whole,
    left: i128,
    times: &Whole,
    right: i128,
) -> Result<Whole, NoMemory>
    ensures { IfOk result (λ sum. sum ≡ by.now *ℤ left +ℤ times.now *ℤ right) }
{
    let right = times.times(alloc, &Whole::new(right))?;
    by.times(alloc, &Whole::new(left))?.plus(alloc, &right)
}
