ghost use Rattle.std.specs.Prelude.{◌≡◌, ◌+◌, ◌≤◌, ◌<◌, ◌++◌, ◌^◌, length, take, drop, replicate, IfOk};
ghost use Rattle.std.specs.Prelude.{slice_get, slice_set};
ghost use Rattle.std.specs.Prelude.{None, Some, OnOk, pos};
ghost use Rattle.rc_terms.specs.declared.byte.MByte.TheVariants as bytes;
ghost use Rattle.byte_memory.specs.declared.fault.MemoryUb.{MemoryUb};

use crate::cell::Cell;
use crate::fault::MemoryUb;
use crate::value::Value;
use rc_terms::MByte;
use rc_text::NoMemory;
use std::alloc::Global;
use std::marker::Model;

/// A block of memory: open with its bytes, or closed, of which only the length stays.
#[derive(Debug, Drop)]
pub enum Block {
    Open(BlockBytes),
    Closed(u32),
}

ghost use Rattle.byte_memory.specs.Memory.{fault_within, block_length, overwritten};

impl Block {
    /// Puts a value in the place of the bytes from an offset on. A closed block stays as it is.
    pub fn overwrite(&mut self, offset: usize, value: &[MByte])
        requires { offset + length value.now ≤ block_length self.old }
        ensures { self.new ≡ overwritten self.old (pos offset) value.now }
    {
        match self {
            Block::Open(bytes) => bytes.write(offset, value),
            Block::Closed(_) => {}
        }
    }
}

/// The bytes of an open block, which contracts see as a list. A byte takes the room of one `Cell`, and where it has
/// ever been a fragment, a place in `wide` from then on. Room for all places is reserved when the block is opened, so
/// that no write takes memory; it isn't touched before it is used.
#[derive(Debug, Drop)]
pub struct BlockBytes {
    cells: Vec<Cell>,
    wide: Vec<MByte>,
}

impl Model for BlockBytes {
    ghost use Rattle.std.specs.Prelude.{List, ◌≤◌, ◌<◌, ◌^◌, length, vec_capacity};
    ghost use Rattle.rc_terms.specs.declared.byte.MByte.{MByte};
    ghost use Rattle.byte_memory.specs.Cells.{bytes_seen, AreInPlace};

    ghost Value = { List MByte };

    ghost view = { λ block. bytes_seen block.wide.items block.cells.items };

    ghost invariant = { λ block. AreInPlace block.wide.items block.cells.items ×
        (length block.cells.items ≤ vec_capacity block.wide) × (length block.cells.items < 2 ^ 32) };
}

impl BlockBytes {
    /// Bytes that are all poison.
    pub fn poison(alloc: Global, len: u32) -> Result<Self, NoMemory>
        ensures { IfOk result (λ block. block ≡ replicate len bytes.Poison) }
    {
        let cells = vec![in alloc; Cell::Poison; len as usize]?;
        let wide = Vec::with_capacity(alloc, len as usize)?;
        Ok(BlockBytes { cells, wide })
    }

    pub fn len(&self) -> u32
        ensures { result ≡ length self.now }
    {
        self.cells.len() as u32
    }

    /// The byte at an offset.
    pub fn get(&self, offset: usize) -> MByte
        requires { offset < length self.now }
        ensures { slice_get self.now offset ≡ Some result }
    {
        match self.cells[offset] {
            Cell::Plain(byte) => MByte::Byte(byte),
            Cell::Poison => MByte::Poison,
            Cell::Wide(place) => self.wide[place as usize],
        }
    }

    /// Puts a byte at an offset.
    pub fn set(&mut self, offset: usize, byte: MByte)
        requires { offset < length self.old }
        ensures { self.new ≡ slice_set self.old offset byte }
    {
        if let Cell::Wide(place) = self.cells[offset] {
            self.wide[place as usize] = byte;
            return;
        }
        match byte {
            MByte::Byte(plain) => self.cells[offset] = Cell::Plain(plain),
            MByte::Poison => self.cells[offset] = Cell::Poison,
            MByte::Frag(_, _) => {
                let place = self.wide.len() as u32;
                self.wide.push_reserved(byte);
                self.cells[offset] = Cell::Wide(place);
            }
        }
    }

    /// Where an access to so many bytes at an offset starts, or its fault.
    pub fn start(&self, offset: i128, size: usize, align: u32) -> Result<usize, MemoryUb>
        requires { 0 < align }
        ensures start { IfOk result (λ start. offset ≡ pos start) }
        ensures inside { IfOk result (λ start. start + size ≤ length self.now) }
        ensures defined { OnOk result (fault_within self.now offset size align ≡ None) }
        ensures undefined { (ub : MemoryUb) → result ≡ Err ub → fault_within self.now offset size align ≡ Some ub }
    {
        let len = self.cells.len();
        let Ok(start) = usize::try_from(offset) else {
            return Err(MemoryUb::OutOfBounds);
        };
        if start.saturating_add(size) > len {
            return Err(MemoryUb::OutOfBounds);
        }
        if start % align as usize != 0 {
            return Err(MemoryUb::Misaligned);
        }
        Ok(start)
    }

    /// A copy of so many bytes from an offset on.
    pub fn read(&self, alloc: Global, offset: usize, size: usize) -> Result<Value, NoMemory>
        requires { offset + size ≤ length self.now }
        ensures { IfOk result (λ value. value ≡ take size (drop offset self.now)) }
    {
        let mut value = Value::new(alloc);
        let _ = &self.cells;
        for i in 0..size {
            value.push(self.get(offset + i))?;
        }
        Ok(value)
    }

    /// Puts a value in the place of the bytes from an offset on.
    pub fn write(&mut self, offset: usize, value: &[MByte])
        requires { offset + length value.now ≤ length self.old }
        ensures { self.new ≡ take offset self.old ++ (value.now ++ drop (offset + length value.now) self.old) }
    {
        let _ = &self.cells;
        for (i, byte) in value.iter().enumerate() {
            self.set(offset + i, *byte);
        }
    }
}
