ghost use Rattle.std.specs.Prelude.{◌≡◌, IfOk};

use rc_text::{Bytes, NoMemory};
use std::alloc::Global;
use std::marker::Model;

/// The name of a function or the label of a block, with the number at which it is looked for first. Contracts see
/// the name alone: a number at which it doesn't stand costs a walk and changes no answer.
#[derive(Debug, Drop)]
pub struct Reference {
    name: Bytes,
    number: usize,
}

impl Model for Reference {
    ghost use Rattle.std.specs.Prelude.{ℕ, List};

    ghost Value = { List ℕ };

    ghost view = { λ reference. reference.name };
}

impl Reference {
    /// A reference to the function or block that has this name and stands at this number.
    pub fn new(alloc: Global, name: &[u8], number: usize) -> Result<Self, NoMemory>
        ensures { IfOk result (λ reference. reference ≡ name.now) }
    {
        Ok(Reference {
            name: Bytes::from_slice(alloc, name)?,
            number,
        })
    }

    pub fn name(&self) -> &[u8]
        ensures { result.now ≡ self.now }
    {
        self.name.as_slice()
    }

    /// The number at which the name is looked for first.
    pub fn number(&self) -> usize {
        let _ = &self.name;
        self.number
    }

    /// A copy of the name, with the same number.
    pub fn copy(&self, alloc: Global) -> Result<Self, NoMemory>
        ensures { IfOk result (λ reference. reference ≡ self.now) }
    {
        Reference::new(alloc, self.name(), self.number)
    }
}
