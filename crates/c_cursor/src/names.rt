ghost use Rattle.std.specs.Prelude.{◌≡◌, ◌-◌, [], ◌∷◌, length, drop, IfOk};
ghost use Rattle.c_grammar.specs.Names.{meaning_of};

use crate::meanings::Meanings;
use c_grammar::{NameEntry, NameKind};
use rc_text::{Bytes, NoMemory};
use std::alloc::Global;
use std::marker::Model;

/// The ordinary identifiers in scope. Contracts see the entries, the newest first.
#[derive(Debug, Drop)]
pub struct Names {
    /// The newest last.
    declared: Vec<Declared>,
    /// What the newest declaration of each name makes of it.
    meanings: Meanings,
}

/// A declaration in scope.
#[derive(Debug, Drop)]
struct Declared {
    entry: NameEntry,
    /// What its name meant before it.
    hidden: Option<NameKind>,
}

impl Model for Names {
    ghost use Rattle.std.specs.Prelude.{List, reverse};
    ghost use Rattle.c_grammar.specs.declared.names.NameEntry.{NameEntry};

    ghost Value = { List NameEntry };

    ghost use Rattle.c_cursor.specs.Scope.{entries, KeepsHidden, IsTableOf};

    ghost view = { λ names. entries (reverse names.declared.items) };

    ghost invariant = { λ names. KeepsHidden (reverse names.declared.items)
        × IsTableOf (entries (reverse names.declared.items)) names.meanings };
}

impl Names {
    /// No name is in scope.
    pub fn new(alloc: Global) -> Self
        ensures { result ≡ [] }
    {
        Names {
            declared: Vec::new(alloc),
            meanings: Meanings::new(alloc),
        }
    }

    /// How many declarations are in scope, hidden ones too.
    pub fn len(&self) -> usize
        ensures { result ≡ length self.now }
    {
        self.declared.len()
    }

    /// What the newest declaration of a name makes of it.
    pub fn meaning(&self, name: &[u8]) -> Option<NameKind>
        ensures { result ≡ meaning_of self.now name.now }
    {
        self.meanings.get(name)
    }

    /// Brings a name into scope.
    pub fn declare(&mut self, alloc: Global, name: &[u8], kind: NameKind) -> Result<(), NoMemory>
        ensures { IfOk result (λ _. self.new ≡ record { name = name.now; kind = kind } ∷ self.old) }
    {
        let entry = NameEntry {
            name: Bytes::from_slice(alloc, name)?,
            kind,
        };
        self.declared.reserve(1)?;
        let hidden = self.meanings.insert(alloc, name, kind)?;
        self.declared.push_reserved(Declared { entry, hidden });
        Ok(())
    }

    /// Goes back to the first so many declarations, as at the end of a block.
    pub fn truncate(&mut self, len: usize)
        ensures { self.new ≡ drop (length self.old - len) self.old }
    {
        for _ in len..self.len() {
            self.drop_newest();
        }
    }

    /// Takes the newest declaration out of scope, if there is one.
    fn drop_newest(&mut self)
        ensures { self.new ≡ drop 1 self.old }
    {
        if let Some(Declared { entry, hidden }) = self.declared.pop() {
            self.meanings.restore(entry.name.as_slice(), hidden);
        }
    }
}
