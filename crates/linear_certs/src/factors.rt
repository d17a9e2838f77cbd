ghost use Rattle.std.specs.Prelude.{◌≡◌, ◌≢◌, ◌<◌, pos, unwrap_or, All, OnOk, OnErr};
ghost use Rattle.std.specs.FinMap as map;

use rc_text::NoMemory;
use std::alloc::Global;
use std::marker::Model;

/// The factors of a row, which contracts see as a finite map from unknowns. No factor is 0.
#[derive(Debug, Drop)]
pub struct Factors {
    entries: Vec<(u32, i128)>,
}

impl Model for Factors {
    ghost use Rattle.std.specs.Prelude.{ℤ, pos, ◌≢◌, All, IsTrue};
    ghost use Rattle.std.specs.Ordering.{nat_cmp};
    ghost use Rattle.std.specs.Coded.{coded_ℕ, coded_ℤ};
    ghost use Rattle.std.specs.FinMap as map;

    ghost Value = { map.FinMap nat_cmp ℤ };

    ghost coded = { map.code coded_ℕ coded_ℤ };

    ghost view = { λ factors. map.from_sorted factors.entries.items };

    ghost invariant = { λ factors. IsTrue (map.is_sorted nat_cmp factors.entries.items)
        × All (λ entry. entry.1 ≢ pos 0) factors.entries.items };
}

impl Factors {
    /// No factor. It takes no memory.
    pub fn new(alloc: Global) -> Self
        ensures { result ≡ map.empty }
    {
        Factors {
            entries: Vec::new(alloc),
        }
    }

    /// Gives an unknown this factor, in place of one that it had.
    pub fn insert(&mut self, unknown: u32, factor: i128) -> Result<(), NoMemory>
        requires { factor ≢ pos 0 }
        ensures ok { OnOk result (self.new ≡ map.insert self.old unknown factor) }
        ensures err { OnErr result (self.new ≡ self.old) }
    {
        match self.entries.binary_search_by_key(&unknown, |entry| entry.0) {
            Ok(at) => self.entries[at] = (unknown, factor),
            Err(at) => self.entries.insert(at, (unknown, factor))?,
        }
        Ok(())
    }

    /// The factor of an unknown, 0 where there is none.
    pub fn get(&self, unknown: u32) -> i128
        ensures { result ≡ unwrap_or (map.get self.now unknown) (pos 0) }
    {
        match self.entries.binary_search_by_key(&unknown, |entry| entry.0) {
            Ok(at) => self.entries[at].1,
            Err(_) => 0,
        }
    }

    /// The unknowns with their factors, in ascending order.
    pub fn as_slice(&self) -> &[(u32, i128)]
        ensures value { result.now ≡ map.entries self.now }
        ensures not_zero { All (λ entry. entry.1 ≢ pos 0) result.now }
    {
        self.entries.as_slice()
    }
}
