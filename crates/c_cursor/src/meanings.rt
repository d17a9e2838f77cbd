ghost use Rattle.std.specs.Prelude.{◌≡◌, ℕ, List, Some, None, IfOk, OnErr, IsSome, if◌then◌else◌};
ghost use Rattle.std.specs.Str.{bytes_eq};
ghost use Rattle.c_cursor.specs.Scope.{kind_of, Sets};

use c_grammar::NameKind;
use rc_text::NoMemory;
use std::alloc::Global;
use std::collections::BTreeMap;

/// A table of names, each with what its newest declaration makes of it.
#[derive(Debug, Drop)]
pub(crate) struct Meanings {
    pub by_name: BTreeMap<Vec<u8>, NameKind>,
}

impl Meanings {
    pub(crate) fn new(alloc: Global) -> Self
        ensures { (name : List ℕ) → kind_of result name ≡ None }
    {
        Meanings {
            by_name: BTreeMap::new(alloc),
        }
    }

    pub(crate) fn get(&self, name: &[u8]) -> Option<NameKind>
        ensures { result ≡ kind_of self.now name.now }
    {
        self.by_name.get(name).copied()
    }

    /// Gives a name a meaning, and answers the one that it had.
    pub(crate) fn insert(
        &mut self,
        alloc: Global,
        name: &[u8],
        kind: NameKind,
    ) -> Result<Option<NameKind>, NoMemory>
        ensures hidden { IfOk result (λ hidden. hidden ≡ kind_of self.old name.now) }
        ensures ok { IfOk result (λ _. Sets self.old name.now (Some kind) self.new) }
        ensures err { OnErr result ((other : List ℕ) → kind_of self.new other ≡ kind_of self.old other) }
    {
        let key = Vec::from_slice(alloc, name)?;
        Ok(self.by_name.insert(key, kind)?)
    }

    /// Gives a name that the table has this meaning, or takes it out.
    pub(crate) fn restore(&mut self, name: &[u8], hidden: Option<NameKind>)
        requires { IsSome (kind_of self.old name.now) }
        ensures { Sets self.old name.now hidden self.new }
    {
        match hidden {
            Some(kind) => self.replace(name, kind),
            None => self.remove(name),
        }
    }

    fn replace(&mut self, name: &[u8], kind: NameKind)
        requires { IsSome (kind_of self.old name.now) }
        ensures { Sets self.old name.now (Some kind) self.new }
    {
        if let Some(meaning) = self.by_name.get_mut(name) {
            *meaning = kind;
        }
    }

    fn remove(&mut self, name: &[u8])
        ensures { Sets self.old name.now None self.new }
    {
        self.by_name.remove(name);
    }
}
