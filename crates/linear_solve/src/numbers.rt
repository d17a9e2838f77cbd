ghost use Rattle.std.specs.Prelude.{◌≡◌, ℤ, pos, ◌<ℤ◌, ◌+ℤ◌, ◌*ℤ◌, unsigned_abs, unwrap_or, max, fold};
ghost use Rattle.std.specs.Prelude.{OnOk, IfOk, option_map};
ghost use Rattle.std.specs.Prelude.{◌≢◌};
ghost use Rattle.std.specs.FinMap as map;
ghost use Rattle.std.specs.Int.{IsGcd};
ghost use Rattle.linear_solve.specs.Divisors.{common_divisor};
ghost use Rattle.linear_solve.specs.Numbers.{number_at, plus_at, plus_multiple, shared_divisor, quotients};

use rc_text::NoMemory;
use std::alloc::Global;
use std::marker::Model;
use whole_numbers::Whole;

/// Whole numbers by index, which contracts see as a finite map.
#[derive(Debug, Drop)]
pub struct Numbers {
    entries: Vec<(u32, Whole)>,
}

impl Model for Numbers {
    ghost use Rattle.std.specs.Prelude.{ℤ, IsTrue};
    ghost use Rattle.std.specs.Ordering.{nat_cmp};
    ghost use Rattle.std.specs.Coded.{coded_ℕ, coded_ℤ};
    ghost use Rattle.std.specs.FinMap as map;

    ghost Value = { map.FinMap nat_cmp ℤ };

    ghost coded = { map.code coded_ℕ coded_ℤ };

    ghost view = { λ numbers. map.from_sorted numbers.entries.items };

    ghost invariant = { λ numbers. IsTrue (map.is_sorted nat_cmp numbers.entries.items) };
}

impl Numbers {
    /// No numbers. It takes no memory.
    pub fn new(alloc: Global) -> Self
        ensures { result ≡ map.empty }
    {
        Numbers {
            entries: Vec::new(alloc),
        }
    }

    /// The indices with their numbers, in ascending order.
    pub fn as_slice(&self) -> &[(u32, Whole)]
        ensures { result.now ≡ map.entries self.now }
    {
        self.entries.as_slice()
    }

    /// Puts a number at an index, in place of one that stood there.
    pub fn insert(&mut self, index: u32, number: Whole) -> Result<(), NoMemory>
        ensures { OnOk result (self.new ≡ map.insert self.old index number) }
    {
        match self.entries.binary_search_by_key(&index, |entry| entry.0) {
            Ok(at) => self.entries[at] = (index, number),
            Err(at) => self.entries.insert(at, (index, number))?,
        }
        Ok(())
    }

    fn get(&self, index: u32) -> Option<&Whole>
        ensures { option_map (λ number. number.now) result ≡ map.get self.now index }
    {
        match self.entries.binary_search_by_key(&index, |entry| entry.0) {
            Ok(at) => Some(&self.entries[at].1),
            Err(_) => None,
        }
    }

    /// Adds a number at an index.
    pub fn add(&mut self, alloc: Global, index: u32, number: Whole) -> Result<(), NoMemory>
        ensures { OnOk result (self.new ≡ plus_at self.old index number) }
    {
        let sum = match self.get(index) {
            Some(before) => before.plus(alloc, &number)?,
            None => number,
        };
        self.insert(index, sum)
    }

    /// Adds a multiple of each entry.
    pub fn add_multiple(
        &mut self,
        alloc: Global,
        by: &Whole,
        entries: &[(u32, Whole)],
    ) -> Result<(), NoMemory>
        ensures { OnOk result (self.new ≡ plus_multiple by.now entries.now self.old) }
    {
        for (index, number) in entries {
            self.add(alloc, *index, by.times(alloc, number)?)?;
        }
        Ok(())
    }

    /// The same, of factors of a row.
    pub fn add_factors(
        &mut self,
        alloc: Global,
        by: &Whole,
        factors: &[(u32, i128)],
    ) -> Result<(), NoMemory>
        ensures { OnOk result (self.new ≡ plus_multiple by.now factors.now self.old) }
    {
        for &(index, factor) in factors {
            self.add(alloc, index, by.times(alloc, &Whole::new(factor))?)?;
        }
        Ok(())
    }

    /// The greatest common divisor of a number and of all these.
    pub fn shared_divisor(&self, alloc: Global, number: &Whole) -> Result<Whole, NoMemory>
        ensures { IfOk result (λ divisor. divisor ≡ shared_divisor number.now (map.entries self.now)) }
    {
        let mut divisor = number.absolute(alloc)?;
        for (_, number) in self.as_slice() {
            divisor = divisor.common_divisor(alloc, number)?;
        }
        if divisor.is_zero() {
            divisor = Whole::new(1);
        }
        Ok(divisor)
    }

    /// These numbers, each divided, without those that are 0.
    pub fn quotients(&self, alloc: Global, divisor: &Whole) -> Result<Numbers, NoMemory>
        requires { pos 0 <ℤ divisor.now }
        ensures { IfOk result (λ kept. kept ≡ map.from_sorted (quotients divisor.now (map.entries self.now))) }
    {
        let mut kept = Numbers::new(alloc);
        for (index, number) in self.as_slice() {
            let quotient = number.divided_by(alloc, divisor)?;
            kept.insert_unless_zero(*index, quotient)?;
        }
        Ok(kept)
    }

    fn insert_unless_zero(&mut self, index: u32, number: Whole) -> Result<(), NoMemory>
        ensures kept { OnOk result (number ≢ pos 0 → self.new ≡ map.insert self.old index number) }
        ensures left_out { OnOk result (number ≡ pos 0 → self.new ≡ self.old) }
    {
        if number.is_zero() {
            Ok(())
        } else {
            self.insert(index, number)
        }
    }
}
