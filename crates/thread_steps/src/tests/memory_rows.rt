//! Each operation on pointers and memory.

ghost use Rattle.std.specs.Prelude.{[]};
ghost use Rattle.caesium_ir.specs.WellFormed.{IsOfTable};

use super::operation_rows::{expect_undefined, expect_value};
use crate::*;
use byte_memory::{Memory, MemoryUb, Value};
use caesium_ir::Op;
use layouts::{IntType, Layout};
use rc_terms::Loc;
use rc_text::NoMemory;
use std::alloc::Global;
use std::process::Abort;
use std::test::Fail;

/// A memory of the blocks 0 and 1 of 8 bytes each, and of the closed block 2 of 4 bytes.
fn three_blocks(alloc: Global) -> Result<Memory, NoMemory> {
    let mut memory = Memory::new(alloc);
    memory.open_block(8)?;
    memory.open_block(8)?;
    let closed = memory.open_block(4)?;
    if memory.is_alive(closed) {
        memory.close_block(closed);
    }
    Ok(memory)
}

fn pointer_to(alloc: Global, block: u64, offset: i128) -> Result<Value, NoMemory> {
    Value::of_pointer(alloc, Loc::At { block, offset })
}

fn one(alloc: Global, first: Value) -> Result<Vec<Value>, NoMemory> {
    let mut operands = Vec::new(alloc);
    operands.push(first)?;
    Ok(operands)
}

fn two(alloc: Global, first: Value, second: Value) -> Result<Vec<Value>, NoMemory> {
    let mut operands = one(alloc, first)?;
    operands.push(second)?;
    Ok(operands)
}

fn three(alloc: Global, first: Value, second: Value, third: Value) -> Result<Vec<Value>, NoMemory> {
    let mut operands = two(alloc, first, second)?;
    operands.push(third)?;
    Ok(operands)
}

/// A load of an `int` at a location of the three blocks.
fn expect_load(rt: &impl Abort, alloc: Global, at: Value, ub: Ub) -> Result<(), Fail> {
    let op = Op::Load {
        layout: Layout::Int(IntType::Int),
    };
    let operands = one(alloc, at)?;
    expect_undefined(rt, alloc, &mut three_blocks(alloc)?, &op, &operands, ub)
}

#[test]
fn undefined_loads(rt: HostRuntime) -> Result<(), Fail> {
    let alloc = rt.alloc();
    let null = Value::of_pointer(alloc, Loc::Null)?;
    expect_load(&rt, alloc, null, Ub::Access(MemoryUb::NullAccess))?;
    expect_load(
        &rt,
        alloc,
        pointer_to(alloc, 2, 2)?,
        Ub::Access(MemoryUb::Dead),
    )?;
    expect_load(
        &rt,
        alloc,
        pointer_to(alloc, 0, 6)?,
        Ub::Access(MemoryUb::OutOfBounds),
    )?;
    expect_load(
        &rt,
        alloc,
        pointer_to(alloc, 0, 2)?,
        Ub::Access(MemoryUb::Misaligned),
    )?;
    expect_load(&rt, alloc, Value::poison(alloc, 8)?, Ub::PoisonUsed)
}

/// Stores, loads again, and finds the value.
#[test]
fn stored_is_loaded_again(rt: HostRuntime) -> Result<(), Fail> {
    let alloc = rt.alloc();
    let mut memory = three_blocks(alloc)?;
    let store = Op::Store {
        layout: Layout::Int(IntType::Int),
    };
    let seven = Value::of_int(alloc, IntType::Int, 7)?;
    let operands = two(
        alloc,
        pointer_to(alloc, 0, 4)?,
        Value::of_int(alloc, IntType::Int, 7)?,
    )?;
    expect_value(&rt, alloc, &mut memory, &store, &operands, &seven)?;
    let load = Op::Load {
        layout: Layout::Int(IntType::Int),
    };
    let there = one(alloc, pointer_to(alloc, 0, 4)?)?;
    expect_value(&rt, alloc, &mut memory, &load, &there, &seven)?;
    let before = one(alloc, pointer_to(alloc, 0, 0)?)?;
    expect_value(
        &rt,
        alloc,
        &mut memory,
        &load,
        &before,
        &Value::poison(alloc, 4)?,
    )
}

#[test]
fn undefined_stores(rt: HostRuntime) -> Result<(), Fail> {
    let alloc = rt.alloc();
    let mut memory = three_blocks(alloc)?;
    let op = Op::Store {
        layout: Layout::Int(IntType::Int),
    };
    let long = two(alloc, pointer_to(alloc, 9, 0)?, Value::poison(alloc, 8)?)?;
    expect_undefined(&rt, alloc, &mut memory, &op, &long, Ub::PoisonUsed)?;
    let dead = two(alloc, pointer_to(alloc, 9, 0)?, Value::poison(alloc, 4)?)?;
    expect_undefined(
        &rt,
        alloc,
        &mut memory,
        &op,
        &dead,
        Ub::Access(MemoryUb::Dead),
    )?;
    let atomic = two(alloc, pointer_to(alloc, 0, 8)?, Value::poison(alloc, 1)?)?;
    let out = Ub::Access(MemoryUb::OutOfBounds);
    expect_undefined(&rt, alloc, &mut memory, &Op::StoreAtomic, &atomic, out)
}

fn index() -> Op
    ensures { IsOfTable [] result }
{
    Op::Index {
        size: 4,
        of: IntType::Int,
    }
}

fn expect_index(
    rt: &impl Abort,
    alloc: Global,
    at: Value,
    n: i128,
    expected: &Value,
) -> Result<(), Fail> {
    let operands = two(alloc, at, Value::of_int(alloc, IntType::Int, n)?)?;
    expect_value(
        rt,
        alloc,
        &mut three_blocks(alloc)?,
        &index(),
        &operands,
        expected,
    )
}

fn expect_no_index(rt: &impl Abort, alloc: Global, at: Value, n: i128) -> Result<(), Fail> {
    let operands = two(alloc, at, Value::of_int(alloc, IntType::Int, n)?)?;
    expect_undefined(
        rt,
        alloc,
        &mut three_blocks(alloc)?,
        &index(),
        &operands,
        Ub::PtrBounds,
    )
}

/// A pointer moves up to the end of its block, also of a closed one, and from null nowhere.
#[test]
fn moved_pointers(rt: HostRuntime) -> Result<(), Fail> {
    let alloc = rt.alloc();
    expect_index(
        &rt,
        alloc,
        pointer_to(alloc, 0, 0)?,
        2,
        &pointer_to(alloc, 0, 8)?,
    )?;
    expect_index(
        &rt,
        alloc,
        pointer_to(alloc, 0, 8)?,
        -1,
        &pointer_to(alloc, 0, 4)?,
    )?;
    expect_index(
        &rt,
        alloc,
        pointer_to(alloc, 2, 0)?,
        1,
        &pointer_to(alloc, 2, 4)?,
    )?;
    expect_no_index(&rt, alloc, pointer_to(alloc, 0, 0)?, 3)?;
    expect_no_index(&rt, alloc, pointer_to(alloc, 0, 0)?, -1)?;
    expect_no_index(&rt, alloc, Value::of_pointer(alloc, Loc::Null)?, 0)
}

fn expect_equal(
    rt: &impl Abort,
    alloc: Global,
    left: Value,
    right: Value,
    equal: bool,
) -> Result<(), Fail> {
    let operands = two(alloc, left, right)?;
    let mut memory = three_blocks(alloc)?;
    let same = Value::of_int(alloc, IntType::Int, i128::from(equal))?;
    expect_value(rt, alloc, &mut memory, &Op::PtrEq, &operands, &same)?;
    let other = Value::of_int(alloc, IntType::Int, i128::from(!equal))?;
    expect_value(rt, alloc, &mut memory, &Op::PtrNe, &operands, &other)
}

fn expect_not_compared(
    rt: &impl Abort,
    alloc: Global,
    left: Value,
    right: Value,
) -> Result<(), Fail> {
    let operands = two(alloc, left, right)?;
    expect_undefined(
        rt,
        alloc,
        &mut three_blocks(alloc)?,
        &Op::PtrEq,
        &operands,
        Ub::PtrCompare,
    )
}

#[test]
fn compared_pointers(rt: HostRuntime) -> Result<(), Fail> {
    let alloc = rt.alloc();
    let null = Value::of_pointer(alloc, Loc::Null)?;
    expect_equal(
        &rt,
        alloc,
        pointer_to(alloc, 0, 8)?,
        pointer_to(alloc, 0, 8)?,
        true,
    )?;
    expect_equal(
        &rt,
        alloc,
        pointer_to(alloc, 0, 7)?,
        pointer_to(alloc, 1, 7)?,
        false,
    )?;
    expect_equal(&rt, alloc, null, pointer_to(alloc, 2, 0)?, false)?;
    expect_not_compared(
        &rt,
        alloc,
        pointer_to(alloc, 0, 8)?,
        pointer_to(alloc, 1, 0)?,
    )?;
    expect_not_compared(
        &rt,
        alloc,
        pointer_to(alloc, 2, 0)?,
        pointer_to(alloc, 2, 0)?,
    )
}

/// Puts a byte at the start of a block.
fn put(memory: &mut Memory, alloc: Global, block: u64, byte: i128) -> Result<(), Fail> {
    let value = Value::of_int(alloc, IntType::UChar, byte)?;
    match memory.store(Loc::At { block, offset: 0 }, &value, 1) {
        Ok(()) => Ok(()),
        Err(_) => Err("no store".into()),
    }
}

fn expect_byte(
    rt: &impl Abort,
    alloc: Global,
    memory: &mut Memory,
    block: u64,
    byte: i128,
) -> Result<(), Fail> {
    let there = one(alloc, pointer_to(alloc, block, 0)?)?;
    let expected = Value::of_int(alloc, IntType::UChar, byte)?;
    expect_value(rt, alloc, memory, &Op::LoadAtomic, &there, &expected)
}

/// The operands of a `cas` of the object in block 0 against the bool in block 1, with true desired.
fn cas_operands(alloc: Global) -> Result<Vec<Value>, NoMemory> {
    let desired = Value::of_bool(alloc, true)?;
    three(
        alloc,
        pointer_to(alloc, 0, 0)?,
        pointer_to(alloc, 1, 0)?,
        desired,
    )
}

/// A `cas` of these two bools leaves these two and pushes whether they agreed.
fn expect_cas(
    rt: &impl Abort,
    alloc: Global,
    before: (i128, i128),
    after: (i128, i128),
    agree: bool,
) -> Result<(), Fail> {
    let mut memory = three_blocks(alloc)?;
    put(&mut memory, alloc, 0, before.0)?;
    put(&mut memory, alloc, 1, before.1)?;
    let pushed = Value::of_bool(alloc, agree)?;
    expect_value(
        rt,
        alloc,
        &mut memory,
        &Op::Cas,
        &cas_operands(alloc)?,
        &pushed,
    )?;
    expect_byte(rt, alloc, &mut memory, 0, after.0)?;
    expect_byte(rt, alloc, &mut memory, 1, after.1)
}

#[test]
fn compare_and_swap(rt: HostRuntime) -> Result<(), Fail> {
    let alloc = rt.alloc();
    expect_cas(&rt, alloc, (0, 0), (1, 0), true)?;
    expect_cas(&rt, alloc, (1, 1), (1, 1), true)?;
    expect_cas(&rt, alloc, (0, 1), (0, 0), false)?;
    expect_cas(&rt, alloc, (1, 0), (1, 1), false)
}

/// The object's byte is judged before the expected one.
#[test]
fn undefined_compare_and_swap(rt: HostRuntime) -> Result<(), Fail> {
    let alloc = rt.alloc();
    let mut memory = three_blocks(alloc)?;
    put(&mut memory, alloc, 1, 2)?;
    let operands = cas_operands(alloc)?;
    expect_undefined(&rt, alloc, &mut memory, &Op::Cas, &operands, Ub::PoisonUsed)?;
    put(&mut memory, alloc, 0, 0)?;
    expect_undefined(&rt, alloc, &mut memory, &Op::Cas, &operands, Ub::BadBool)?;
    let far = three(
        alloc,
        pointer_to(alloc, 0, 8)?,
        pointer_to(alloc, 2, 0)?,
        Value::of_bool(alloc, true)?,
    )?;
    let out = Ub::Access(MemoryUb::OutOfBounds);
    expect_undefined(&rt, alloc, &mut memory, &Op::Cas, &far, out)?;
    let dead = three(
        alloc,
        pointer_to(alloc, 0, 0)?,
        pointer_to(alloc, 2, 0)?,
        Value::of_bool(alloc, true)?,
    )?;
    expect_undefined(
        &rt,
        alloc,
        &mut memory,
        &Op::Cas,
        &dead,
        Ub::Access(MemoryUb::Dead),
    )
}

/// An exchange hands bytes on without judging them.
#[test]
fn exchanged(rt: HostRuntime) -> Result<(), Fail> {
    let alloc = rt.alloc();
    let mut memory = three_blocks(alloc)?;
    let operands = two(
        alloc,
        pointer_to(alloc, 0, 0)?,
        Value::of_int(alloc, IntType::UChar, 2)?,
    )?;
    expect_value(
        &rt,
        alloc,
        &mut memory,
        &Op::Exchange,
        &operands,
        &Value::poison(alloc, 1)?,
    )?;
    expect_byte(&rt, alloc, &mut memory, 0, 2)?;
    let wide = two(alloc, pointer_to(alloc, 0, 0)?, Value::poison(alloc, 2)?)?;
    expect_undefined(
        &rt,
        alloc,
        &mut memory,
        &Op::Exchange,
        &wide,
        Ub::PoisonUsed,
    )
}
