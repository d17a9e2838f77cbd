//! Loads, stores and their faults at the edges of blocks.

use crate::{LoadFault, MByte, Memory, MemoryUb, Value};
use layouts::{Declaration, IntType, Kind, Layout, Table};
use rc_terms::Loc;
use rc_text::Bytes;
use sqlite_items::Items;
use std::alloc::Global;
use std::process::Abort;
use std::test::Fail;

const INT: Layout = Layout::Int(IntType::Int);

/// What a load of the layout gives, its bytes or its fault.
fn loaded(
    rt: &impl Abort,
    alloc: Global,
    memory: &Memory,
    at: Loc,
    layout: Layout,
) -> Result<Value, LoadFault> {
    let table = Table::new(alloc);
    assert!(rt; table.has(layout));
    memory.load(alloc, at, layout, &table)
}

/// Each access of an `int` has this fault, as a load and as a store.
#[test]
fn faults_in_their_order(rt: HostRuntime) -> Result<(), Fail> {
    let alloc = rt.alloc();
    let mut memory = Memory::new(alloc);
    let open = memory.open_block(8)?;
    let closed = memory.open_block(8)?;
    let empty = memory.open_block(0)?;
    assert_eq!(rt; [open, closed, empty], [0, 1, 2]);
    assert!(rt; memory.is_alive(closed));
    memory.close_block(closed);
    assert!(rt; !memory.is_alive(closed));
    assert_eq!(rt; memory.length(closed), 8);
    let value = Value::of_int(alloc, IntType::Int, 7)?;
    let at = |block, offset| Loc::At { block, offset };
    for (place, fault) in [
        (at(open, 0), None),
        (at(open, 4), None),
        (at(open, 1), Some(MemoryUb::Misaligned)),
        (at(open, 5), Some(MemoryUb::OutOfBounds)),
        (at(open, 6), Some(MemoryUb::OutOfBounds)),
        (at(open, 8), Some(MemoryUb::OutOfBounds)),
        (at(open, 9), Some(MemoryUb::OutOfBounds)),
        (at(open, -1), Some(MemoryUb::OutOfBounds)),
        (at(open, -4), Some(MemoryUb::OutOfBounds)),
        (at(open, i128::MAX), Some(MemoryUb::OutOfBounds)),
        (at(open, i128::MIN), Some(MemoryUb::OutOfBounds)),
        (
            at(open, 0x1_0000_0000_0000_0000),
            Some(MemoryUb::OutOfBounds),
        ),
        (at(empty, 0), Some(MemoryUb::OutOfBounds)),
        (at(closed, 0), Some(MemoryUb::Dead)),
        (at(closed, 1), Some(MemoryUb::Dead)),
        (at(closed, 9), Some(MemoryUb::Dead)),
        (at(3, 0), Some(MemoryUb::Dead)),
        (at(u64::MAX, -1), Some(MemoryUb::Dead)),
        (Loc::Null, Some(MemoryUb::NullAccess)),
    ] {
        assert_eq!(rt;
            memory.store(place, &value, 4).err(),
            fault,
            "a store at {place:?}"
        );
        let load = loaded(&rt, alloc, &memory, place, INT);
        assert_eq!(rt;
            load.err(),
            fault.map(LoadFault::Undefined),
            "a load at {place:?}"
        );
    }
    Ok(())
}

/// An access to no byte is defined up to the end of a block, the end included.
#[test]
fn accesses_to_no_byte(rt: HostRuntime) -> Result<(), Fail> {
    let alloc = rt.alloc();
    let mut memory = Memory::new(alloc);
    let block = memory.open_block(4)?;
    let empty = memory.open_block(0)?;
    let nothing = Layout::Bytes { size: 0, align: 1 };
    for (block, offset, fault) in [
        (block, 0, None),
        (block, 4, None),
        (block, 5, Some(MemoryUb::OutOfBounds)),
        (empty, 0, None),
        (empty, 1, Some(MemoryUb::OutOfBounds)),
    ] {
        let place = Loc::At { block, offset };
        let load = loaded(&rt, alloc, &memory, place, nothing);
        assert_eq!(rt; load.err(), fault.map(LoadFault::Undefined));
        assert_eq!(rt; memory.store(place, &Value::new(alloc), 1).err(), fault);
    }
    Ok(())
}

/// The copy of a struct of char and int whose bytes 1 to 3 are poison leaves poison there.
#[test]
fn copies_a_gap(rt: HostRuntime) -> Result<(), Fail> {
    let alloc = rt.alloc();
    let mut table = Table::new(alloc);
    let members = Items::from_slice(alloc, &[Layout::Int(IntType::Char), INT])?;
    assert!(rt; table.has_all(members.as_slice()));
    table.add(Declaration {
        kind: Kind::Struct,
        name: Bytes::from_slice(alloc, b"s")?,
        members,
    })?;
    let layout = Layout::Struct(0);
    assert!(rt; table.has(layout));
    let mut memory = Memory::new(alloc);
    let from = memory.open_block(8)?;
    let to = memory.open_block(8)?;
    let start = |block| Loc::At { block, offset: 0 };
    memory.store(start(from), &Value::of_int(alloc, IntType::Char, -1)?, 1)?;
    memory.store(
        Loc::At {
            block: from,
            offset: 4,
        },
        &Value::of_int(alloc, IntType::Int, 7)?,
        4,
    )?;
    memory.store(start(to), &Value::of_int(alloc, IntType::Long, 0)?, 8)?;
    let copied = memory.load(alloc, start(from), layout, &table)?;
    memory.store(start(to), &copied, 4)?;
    let bytes = [
        MByte::Byte(0xff),
        MByte::Poison,
        MByte::Poison,
        MByte::Poison,
        MByte::Byte(7),
        MByte::Byte(0),
        MByte::Byte(0),
        MByte::Byte(0),
    ];
    assert_eq!(rt;
        memory.load(alloc, start(to), layout, &table)?.as_slice(),
        bytes.as_slice()
    );
    Ok(())
}

/// Fragments, plain bytes and poison come back as they were stored, also where they were stored over one another.
#[test]
fn overwrites_fragments(rt: HostRuntime) -> Result<(), Fail> {
    let alloc = rt.alloc();
    let mut memory = Memory::new(alloc);
    let block = memory.open_block(8)?;
    let place = Loc::At { block, offset: 0 };
    let pointed = Loc::At {
        block: 9,
        offset: -3,
    };
    for turn in 0..4u8 {
        let mut value = Value::new(alloc);
        for n in 0..8u8 {
            let byte = match (n ^ turn) % 4 {
                0 => MByte::Byte(n),
                1 => MByte::Frag(pointed, n),
                2 => MByte::Poison,
                _ => MByte::Frag(Loc::Null, 7 - n),
            };
            value.push(byte)?;
        }
        memory.store(place, &value, 8)?;
        let back = loaded(
            &rt,
            alloc,
            &memory,
            place,
            Layout::Bytes { size: 8, align: 1 },
        )?;
        assert_eq!(rt; back.as_slice(), value.as_slice());
    }
    Ok(())
}
