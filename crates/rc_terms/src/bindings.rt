ghost use Rattle.std.specs.Prelude.{◌≡◌, [], ◌∷◌, ◌++◌, option_copied, OnOk, OnErr};
ghost use Rattle.rc_terms.specs.Bindings.{binding_of};

use crate::name::Name;
use crate::value::TermValue;
use std::alloc::{AllocError, Global};
use std::collections::BTreeMap;
use std::marker::Model;

/// Names with what each stands for. Of two entries of one name the later one counts. A name is looked up among those of
/// its like by order, so in steps of the logarithm of their number.
#[derive(Debug, Drop)]
pub struct Bindings<T> {
    entries: Vec<(Name, T)>,
    /// The place of the last entry of each name.
    newest: BTreeMap<String, usize>,
}

/// Names with their values: what a term is evaluated under.
pub type Env = Bindings<TermValue>;

impl<T> Model for Bindings<T> {
    ghost use Rattle.std.specs.Prelude.{ℕ, List};
    ghost use Rattle.std.specs.Coded.{coded_list, coded_ℕ, coded×};
    ghost use Rattle.rc_terms.specs.Bindings.{IsIndexOf};

    ghost Value = { List (List ℕ × T) };

    ghost coded = { coded_list (coded× (coded_list coded_ℕ) T.code) };

    ghost view = { λ bindings. bindings.entries.items };

    ghost invariant = { λ bindings. IsIndexOf bindings.newest bindings.entries.items };
}

impl<T> Bindings<T> {
    /// No name. It takes no memory.
    pub fn new(alloc: Global) -> Self
        ensures { result ≡ [] }
    {
        Bindings {
            entries: Vec::new(alloc),
            newest: BTreeMap::new(alloc),
        }
    }

    /// What the name stands for, or none where it isn't bound.
    pub fn get(&self, name: &Name) -> Option<&T>
        ensures { option_copied result ≡ binding_of name.now self.now }
    {
        match self.newest.get(name.as_str()) {
            Some(place) => Some(&self.entries[*place].1),
            None => None,
        }
    }
}

impl<T: Drop> Bindings<T> {
    /// Lets the name stand for this from now on.
    pub fn bind(&mut self, name: Name, meaning: T) -> Result<(), AllocError>
        ensures ok { OnOk result (self.new ≡ self.old ++ (name, meaning) ∷ []) }
        ensures err { OnErr result (self.new ≡ self.old) }
    {
        let key = name.text()?;
        let place = self.entries.len();
        self.entries.push((name, meaning))?;
        match self.newest.insert(key, place) {
            Ok(_) => Ok(()),
            Err(_) => {
                self.entries.pop();
                Err(AllocError)
            }
        }
    }
}
