//! Races of two threads, each of which is about to do one operation, in both orders of the threads.

ghost use Rattle.std.specs.Prelude.{◌≡◌, IfOk};
ghost use Rattle.caesium_ir.specs.declared.function.Function.{Function as FunctionOf};
ghost use Rattle.caesium_ir.specs.declared.program.Program.{Program as ProgramOf};
ghost use Rattle.caesium_ir.specs.WellFormed.{IsWellFormed, IsWellFormedOp};
ghost use Rattle.thread_steps.specs.TestPrograms.{operation_function, operations_program};

use crate::*;
use byte_memory::{Memory, Value};
use caesium_ir::{Block, End, Function, Op, PlacedOp, Program};
use layouts::{IntType, Layout, Table};
use rc_terms::Loc;
use rc_text::{Bytes, NoMemory, Place};
use sqlite_items::Items;
use std::alloc::Global;
use std::process::Abort;
use std::test::Fail;

/// Two void functions `a` and `b`, each of which does one operation.
fn two_operations(alloc: Global, first: Op, second: Op) -> Result<Program, NoMemory>
    requires first { (program : ProgramOf) (function : FunctionOf) → IsWellFormedOp program function first }
    requires second { (program : ProgramOf) (function : FunctionOf) → IsWellFormedOp program function second }
    ensures { IfOk result (λ program. IsWellFormed program) }
{
    program_of(alloc, first, second)
}

fn program_of(alloc: Global, first: Op, second: Op) -> Result<Program, NoMemory>
    ensures { IfOk result (λ program. program ≡ operations_program first second) }
{
    let mut functions = Items::new(alloc);
    functions.push(one_operation(alloc, b"a", first)?)?;
    functions.push(one_operation(alloc, b"b", second)?)?;
    Ok(Program {
        table: Table::new(alloc),
        functions,
    })
}

/// A void function of one block, which does one operation and returns.
fn one_operation(alloc: Global, name: &[u8], op: Op) -> Result<Function, NoMemory>
    ensures { IfOk result (λ function. function ≡ operation_function name.now op) }
{
    let mut operations = Items::new(alloc);
    operations.push(PlacedOp {
        op,
        place: Place::START,
    })?;
    let mut blocks = Items::new(alloc);
    blocks.push(Block {
        label: Bytes::from_slice(alloc, b".")?,
        operations,
        end: End::Return,
        end_place: Place::START,
    })?;
    Ok(Function {
        name: Bytes::from_slice(alloc, name)?,
        result: None,
        parameters: Items::new(alloc),
        locals: Items::new(alloc),
        blocks,
        place: Place::START,
    })
}

/// A thread of the function that is about to do its operation on these operands.
fn about_to(alloc: Global, name: &[u8], operands: Vec<Value>) -> Result<Thread, NoMemory> {
    let mut top = Frame::start(alloc, name)?;
    for operand in operands {
        top.row.push(operand)?;
    }
    Ok(Thread::Running {
        top,
        callers: Stack::new(alloc),
    })
}

/// A thread of the function that is about to return, and then closes this block.
fn about_to_close(alloc: Global, name: &[u8], block: u64) -> Result<Thread, NoMemory> {
    let mut top = Frame::start(alloc, name)?;
    top.operation = 1;
    top.locals.push(block)?;
    Ok(Thread::Running {
        top,
        callers: Stack::new(alloc),
    })
}

/// Two threads over a memory of one block of 8 bytes.
fn two_threads(alloc: Global, first: Thread, second: Thread) -> Result<Config, NoMemory> {
    let mut memory = Memory::new(alloc);
    memory.open_block(8)?;
    let mut threads = Vec::new(alloc);
    threads.push(first)?;
    threads.push(second)?;
    Ok(Config::new(threads, memory))
}

/// The offset of the byte of block 0 for which the threads 0 and 1 race; none where they don't.
fn raced(config: &Config, program: &Program) -> Option<i128>
    requires { IsWellFormed program.now }
{
    match race(config, program) {
        Some((0, 1, Loc::At { block: 0, offset })) => Some(offset),
        _ => None,
    }
}

/// The two threads race at this offset, in whichever order they stand.
fn expect_race(
    rt: &impl Abort,
    alloc: Global,
    program: &Program,
    first: (Thread, Thread),
    expected: Option<i128>,
) -> Result<(), Fail>
    requires { IsWellFormed program.now }
{
    let config = two_threads(alloc, first.0, first.1)?;
    assert_eq!(rt; raced(&config, program), expected);
    Ok(())
}

fn at(alloc: Global, offset: i128) -> Result<Vec<Value>, NoMemory> {
    let mut operands = Vec::new(alloc);
    operands.push(Value::of_pointer(alloc, Loc::At { block: 0, offset })?)?;
    Ok(operands)
}

fn at_with(alloc: Global, offset: i128, size: u32) -> Result<Vec<Value>, NoMemory> {
    let mut operands = at(alloc, offset)?;
    operands.push(Value::poison(alloc, size)?)?;
    Ok(operands)
}

fn load_int() -> Op
    ensures { result ≡ Op.Load (Layout.Int IntType.Int) }
{
    Op::Load {
        layout: Layout::Int(IntType::Int),
    }
}

fn store_short() -> Op
    ensures { result ≡ Op.Store (Layout.Int IntType.Short) }
{
    Op::Store {
        layout: Layout::Int(IntType::Short),
    }
}

/// A load of bytes 0 to 3 and a store of two bytes at an offset.
fn expect_load_and_store(
    rt: &impl Abort,
    alloc: Global,
    offset: i128,
    expected: Option<i128>,
) -> Result<(), Fail> {
    let program = two_operations(alloc, load_int(), store_short())?;
    let load = about_to(alloc, b"a", at(alloc, 0)?)?;
    let store = about_to(alloc, b"b", at_with(alloc, offset, 2)?)?;
    expect_race(rt, alloc, &program, (load, store), expected)?;
    let store = about_to(alloc, b"b", at_with(alloc, offset, 2)?)?;
    let load = about_to(alloc, b"a", at(alloc, 0)?)?;
    expect_race(rt, alloc, &program, (store, load), expected)
}

#[test]
fn loads_and_stores(rt: HostRuntime) -> Result<(), Fail> {
    let alloc = rt.alloc();
    expect_load_and_store(&rt, alloc, 0, Some(0))?;
    expect_load_and_store(&rt, alloc, 2, Some(2))?;
    expect_load_and_store(&rt, alloc, 4, None)
}

/// An atomic load and an atomic store don't race, and a plain store races with both.
#[test]
fn atomic_accesses(rt: HostRuntime) -> Result<(), Fail> {
    let alloc = rt.alloc();
    let atomic = two_operations(alloc, Op::LoadAtomic, Op::StoreAtomic)?;
    let load = about_to(alloc, b"a", at(alloc, 1)?)?;
    let store = about_to(alloc, b"b", at_with(alloc, 1, 1)?)?;
    expect_race(&rt, alloc, &atomic, (load, store), None)?;
    let plain = two_operations(alloc, store_short(), Op::StoreAtomic)?;
    let store = about_to(alloc, b"a", at_with(alloc, 0, 2)?)?;
    let other = about_to(alloc, b"b", at_with(alloc, 1, 1)?)?;
    expect_race(&rt, alloc, &plain, (store, other), Some(1))
}

/// Two loads don't race.
#[test]
fn two_loads(rt: HostRuntime) -> Result<(), Fail> {
    let alloc = rt.alloc();
    let program = two_operations(alloc, load_int(), load_int())?;
    let first = about_to(alloc, b"a", at(alloc, 0)?)?;
    let second = about_to(alloc, b"b", at(alloc, 0)?)?;
    expect_race(&rt, alloc, &program, (first, second), None)
}

/// A return writes every byte of the block that it closes.
#[test]
fn load_and_return(rt: HostRuntime) -> Result<(), Fail> {
    let alloc = rt.alloc();
    let program = two_operations(alloc, load_int(), Op::LoadAtomic)?;
    let load = about_to(alloc, b"a", at(alloc, 4)?)?;
    let close = about_to_close(alloc, b"b", 0)?;
    expect_race(&rt, alloc, &program, (load, close), Some(4))?;
    let close = about_to_close(alloc, b"b", 0)?;
    let load = about_to(alloc, b"a", at(alloc, 4)?)?;
    expect_race(&rt, alloc, &program, (close, load), Some(4))
}

/// The operands of a `cas` of an object and an expected place.
fn cas_at(alloc: Global, object: i128, expected: i128) -> Result<Vec<Value>, NoMemory> {
    let mut operands = at(alloc, object)?;
    operands.push(Value::of_pointer(
        alloc,
        Loc::At {
            block: 0,
            offset: expected,
        },
    )?)?;
    operands.push(Value::of_bool(alloc, true)?)?;
    Ok(operands)
}

/// A `cas` is atomic at its object and plain at its expected place.
#[test]
fn compare_and_swap_races(rt: HostRuntime) -> Result<(), Fail> {
    let alloc = rt.alloc();
    let program = two_operations(alloc, Op::Cas, Op::LoadAtomic)?;
    let cas = about_to(alloc, b"a", cas_at(alloc, 1, 2)?)?;
    let object = about_to(alloc, b"b", at(alloc, 1)?)?;
    expect_race(&rt, alloc, &program, (cas, object), None)?;
    let expected = about_to(alloc, b"b", at(alloc, 2)?)?;
    let cas = about_to(alloc, b"a", cas_at(alloc, 1, 2)?)?;
    expect_race(&rt, alloc, &program, (expected, cas), Some(2))
}
