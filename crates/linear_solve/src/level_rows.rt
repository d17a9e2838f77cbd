ghost use Rattle.std.specs.Prelude.{◌≡◌, ◌++◌, ◌∷◌, [], map, pos, IfOk, OnOk};
ghost use Rattle.std.specs.List.{list_any};
ghost use Rattle.linear_solve.specs.Levels.{same_row};
ghost use Rattle.linear_solve.specs.Keys.{kind_number, key_of};

use crate::derived::Derived;
use linear_certs::{Row, RowKind};
use rc_text::NoMemory;
use std::alloc::Global;
use std::collections::BTreeSet;
use std::marker::Model;

/// The rows of a level, in order, with an index of their numbers. Contracts see the list.
#[derive(Debug, Drop)]
pub struct LevelRows {
    rows: Vec<Derived>,
    keys: BTreeSet<Vec<i128>>,
}

impl Model for LevelRows {
    ghost use Rattle.std.specs.Prelude.{List, map};
    ghost use Rattle.linear_solve.specs.declared.derived.Derived.{Derived};
    ghost use Rattle.linear_solve.specs.Keys.{AreKeysOf};
    ghost use Rattle.std.specs.Coded.{coded_list};
    ghost use Rattle.linear_solve.specs.Codes.{derived_code};

    ghost Value = { List Derived };

    ghost coded = { coded_list derived_code };

    ghost view = { λ level. level.rows.items };

    ghost invariant = { λ level. AreKeysOf (map (λ key. key.items) level.keys.keys) level.rows.items };
}

impl LevelRows {
    /// No rows. It takes no memory.
    pub fn new(alloc: Global) -> Self
        ensures { result ≡ [] }
    {
        LevelRows {
            rows: Vec::new(alloc),
            keys: BTreeSet::new(alloc),
        }
    }

    pub fn into_vec(self) -> Vec<Derived>
        ensures { result.items ≡ self }
    {
        let LevelRows { rows, .. } = self;
        rows
    }

    /// Whether a row is among these.
    pub fn has(&self, alloc: Global, row: &Row) -> Result<bool, NoMemory>
        ensures { IfOk result (λ has. has ≡ list_any (λ other. same_row other.row row.now) self.now) }
    {
        let key = key_of(alloc, row)?;
        Ok(self.keys.contains(key.as_slice()))
    }

    pub fn push(&mut self, alloc: Global, derived: Derived) -> Result<(), NoMemory>
        ensures { OnOk result (self.new ≡ self.old ++ derived ∷ []) }
    {
        let key = key_of(alloc, &derived.row)?;
        self.add(key, derived)
    }

    fn add(&mut self, key: Vec<i128>, derived: Derived) -> Result<(), NoMemory>
        requires { key.items ≡ key_of derived.row }
        ensures { OnOk result (self.new ≡ self.old ++ derived ∷ []) }
    {
        self.rows.push(derived)?;
        match self.keys.insert(key) {
            Ok(_) => Ok(()),
            Err(_) => {
                self.rows.pop();
                Err(NoMemory)
            }
        }
    }
}

/// All numbers of a row.
fn key_of(alloc: Global, row: &Row) -> Result<Vec<i128>, NoMemory>
    ensures { IfOk result (λ key. key.items ≡ key_of row.now) }
{
    let mut key = Vec::new(alloc);
    key.push(kind_number(row.kind))?;
    key.push(row.constant)?;
    for factor in row.factors.as_slice() {
        push_factor(&mut key, factor)?;
    }
    Ok(key)
}

/// Pushes an unknown and its factor. After an error nothing is known of the key.
fn push_factor(key: &mut Vec<i128>, factor: &(u32, i128)) -> Result<(), NoMemory>
    ensures { OnOk result (key.new.items ≡ key.old.items ++ pos factor.now.0 ∷ factor.now.1 ∷ []) }
{
    key.push(i128::from(factor.0))?;
    key.push(factor.1)?;
    Ok(())
}

fn kind_number(kind: RowKind) -> i128
    ensures { result ≡ kind_number kind }
{
    match kind {
        RowKind::Inequality => 0,
        RowKind::Equation => 1,
    }
}
