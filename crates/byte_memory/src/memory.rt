ghost use Rattle.std.specs.Prelude.{◌≡◌, ℕ, ◌<◌, ◌≤◌, [], length, slice_get, slice_set, IfOk, OnOk, OnErr, Some, None};
ghost use Rattle.std.specs.Prelude.{IsTrue, ◌↔◌};
ghost use Rattle.byte_memory.specs.declared.fault.MemoryUb.{MemoryUb};
ghost use Rattle.byte_memory.specs.Memory.{bytes_at, IsAlive, length_at, byte_at, IsBeside};
ghost use Rattle.byte_memory.specs.Memory.{fault_of, range_of, stored, opened, closed};
ghost use Rattle.layouts.specs.Table.{bytes_of, align_of as alignment_of, IsKnown};

use crate::block::{Block, BlockBytes};
use crate::fault::{LoadFault, MemoryUb};
use crate::value::Value;
use layouts::{Layout, Table, align_of, size_of};
use rc_terms::Loc;
use rc_text::NoMemory;
use std::alloc::Global;
use std::marker::Model;

/// Byte memory. Contracts see it as the list of all blocks that were ever opened, in which a block stands at its
/// number; a number past its end was never opened.
#[derive(Debug, Drop)]
pub struct Memory {
    blocks: Vec<Block>,
}

impl Model for Memory {
    ghost use Rattle.std.specs.Prelude.{List};
    ghost use Rattle.byte_memory.specs.declared.block.Block.{Block};

    ghost Value = { List Block };

    ghost view = { λ memory. memory.blocks.items };
}

impl Memory {
    /// Memory in which no block was ever opened. It takes no memory of the machine.
    pub fn new(alloc: Global) -> Self
        ensures { result ≡ [] }
    {
        Memory {
            blocks: Vec::new(alloc),
        }
    }

    /// How many blocks were ever opened; the number of the next one.
    pub fn len(&self) -> usize
        ensures { result ≡ length self.now }
    {
        self.blocks.len()
    }

    pub fn is_empty(&self) -> bool
        ensures { IsTrue result ↔ (self.now ≡ []) }
    {
        self.blocks.is_empty()
    }

    /// Whether the block was opened and not closed since.
    pub fn is_alive(&self, block: u64) -> bool
        ensures { IsTrue result ↔ IsAlive self.now block }
    {
        match self.blocks.get(block as usize) {
            Some(Block::Open(_)) => true,
            Some(Block::Closed(_)) | None => false,
        }
    }

    /// The length of the block in bytes, also of a closed one; 0 where it was never opened.
    pub fn length(&self, block: u64) -> u32
        ensures { result ≡ length_at self.now block }
    {
        match self.blocks.get(block as usize) {
            Some(Block::Open(bytes)) => bytes.len(),
            Some(Block::Closed(len)) => *len,
            None => 0,
        }
    }

    /// Opens a block of this many bytes, all of them poison, and gives its number, the next unused one.
    pub fn open_block(&mut self, len: u32) -> Result<u64, NoMemory>
        ensures number { IfOk result (λ number. number ≡ length self.old) }
        ensures opened { OnOk result (self.new ≡ opened self.old len) }
        ensures kept { OnErr result (self.new ≡ self.old) }
    {
        let number = self.blocks.len() as u64;
        let bytes = BlockBytes::poison(*self.blocks.allocator(), len)?;
        self.blocks.push(Block::Open(bytes))?;
        Ok(number)
    }

    /// Closes a block and gives the memory of its bytes back.
    pub fn close_block(&mut self, block: u64)
        requires { IsAlive self.old block }
        ensures { self.new ≡ closed self.old block }
    {
        let len = self.length(block);
        self.blocks[block as usize] = Block::Closed(len);
    }

    /// A copy of the bytes of a layout's size at a location.
    pub fn load(
        &self,
        alloc: Global,
        at: Loc,
        layout: Layout,
        table: &Table,
    ) -> Result<Value, LoadFault>
        requires { IsKnown table.now layout }
        ensures defined { IfOk result (λ _.
            fault_of self.now at (bytes_of table.now layout) (alignment_of table.now layout) ≡ None) }
        ensures value { IfOk result (λ value. value ≡ range_of self.now at (bytes_of table.now layout)) }
        ensures undefined { (ub : MemoryUb) → result ≡ Err (LoadFault.Undefined ub) →
            fault_of self.now at (bytes_of table.now layout) (alignment_of table.now layout) ≡ Some ub }
    {
        let size = size_of(layout, table) as usize;
        let Loc::At { block, offset } = at else {
            return Err(LoadFault::Undefined(MemoryUb::NullAccess));
        };
        let Some(Block::Open(bytes)) = self.blocks.get(block as usize) else {
            return Err(LoadFault::Undefined(MemoryUb::Dead));
        };
        let start = bytes.start(offset, size, align_of(layout, table))?;
        Ok(bytes.read(alloc, start, size)?)
    }

    /// Puts a value at a location, an offset that the alignment is to divide.
    pub fn store(&mut self, at: Loc, value: &Value, align: u32) -> Result<(), MemoryUb>
        requires { 0 < align }
        ensures defined { OnOk result (fault_of self.old at (length value.now) align ≡ None) }
        ensures stored { OnOk result (self.new ≡ stored self.old at value.now) }
        ensures elsewhere { OnOk result ((block offset : ℕ) → IsBeside at (length value.now) block offset →
            byte_at self.new block offset ≡ byte_at self.old block offset) }
        ensures undefined { (ub : MemoryUb) → result ≡ Err ub →
            fault_of self.old at (length value.now) align ≡ Some ub }
        ensures kept { OnErr result (self.new ≡ self.old) }
    {
        let Loc::At { block, offset } = at else {
            return Err(MemoryUb::NullAccess);
        };
        let Some(Block::Open(bytes)) = self.blocks.get(block as usize) else {
            return Err(MemoryUb::Dead);
        };
        let start = bytes.start(offset, value.len(), align)?;
        self.blocks[block as usize].overwrite(start, value.as_slice());
        Ok(())
    }
}
