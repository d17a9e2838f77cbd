ghost use Rattle.std.specs.Prelude.{◌≡◌, ◌<◌, ◌+◌, ◌^◌, IfOk, OnOk, drop};
ghost use Rattle.thread_steps.specs.Frame.{entering_frame, starting_frame, entered, given, operated};

use crate::stack::Stack;
use byte_memory::Value;
use caesium_ir::Reference;
use rc_text::NoMemory;
use sqlite_items::Items;
use std::alloc::Global;

/// A call that has not returned: its function, the label of the block that it is in, the number of the
/// operation there that comes next (that of all operations at the block's end), the numbers of the memory blocks of
/// its locals in the order of the function's parameters and further locals, and its row of operands.
#[derive(Debug, Drop)]
pub struct Frame {
    pub function: Reference,
    pub label: Reference,
    pub operation: usize,
    pub locals: Items<u64>,
    pub row: Stack<Value>,
}

impl Frame {
    /// A call of the function that has done nothing yet, with these blocks for its locals.
    pub fn entering(
        alloc: Global,
        function: Reference,
        locals: Items<u64>,
    ) -> Result<Self, NoMemory>
        ensures { IfOk result (λ frame. frame ≡ entering_frame function locals) }
    {
        Ok(Frame {
            function,
            label: Reference::new(alloc, b".", 0)?,
            operation: 0,
            locals,
            row: Stack::new(alloc),
        })
    }

    /// A call of a function without locals that has done nothing yet.
    pub fn start(alloc: Global, function: &[u8]) -> Result<Self, NoMemory>
        ensures { IfOk result (λ frame. frame ≡ starting_frame function.now) }
    {
        Frame::entering(
            alloc,
            Reference::new(alloc, function, 0)?,
            Items::new(alloc),
        )
    }

    /// Goes on with the block of the label.
    pub(crate) fn enter(&mut self, alloc: Global, label: &Reference) -> Result<(), NoMemory>
        ensures { OnOk result (self.new ≡ entered label.now self.old.row self.old) }
    {
        self.label = label.copy(alloc)?;
        self.operation = 0;
        Ok(())
    }

    /// Takes the top off the row and goes on with the block of the label.
    pub(crate) fn branch(&mut self, alloc: Global, label: &Reference) -> Result<(), NoMemory>
        ensures { OnOk result (self.new ≡ entered label.now (drop 1 self.old.row) self.old) }
    {
        self.row.drop_topmost(1);
        self.enter(alloc, label)
    }

    /// Puts the value on the row, where there is one.
    pub(crate) fn give(&mut self, value: Option<Value>) -> Result<(), NoMemory>
        ensures { OnOk result (self.new ≡ given value self.old) }
    {
        match value {
            None => Ok(()),
            Some(value) => self.row.push(value),
        }
    }

    /// Goes on after an operation that took this many operands and gave this value.
    pub(crate) fn operate(&mut self, count: usize, value: Option<Value>) -> Result<(), NoMemory>
        requires { self.old.operation + 1 < 2 ^ 64 }
        ensures { OnOk result (self.new ≡ operated count value self.old) }
    {
        self.operation += 1;
        self.row.drop_topmost(count);
        self.give(value)
    }
}
