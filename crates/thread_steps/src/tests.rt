ghost use Rattle.std.specs.Prelude.{◌≡◌, IfOk, IfSome};
ghost use Rattle.caesium_ir.specs.WellFormed.{IsWellFormed};

mod call_rows;
mod memory_rows;
mod operation_rows;
mod race_rows;

use super::*;
use byte_memory::{MByte, Memory, Value};
use caesium_ir::{Block, End, Function, LiteralPlaces, Op, PlacedOp, Program, one_literal};
use layouts::{IntType, Layout, Table};
use rc_text::{Bytes, NoMemory, Place};
use sqlite_items::Items;
use std::alloc::Global;
use std::process::Abort;
use std::test::Fail;

const NOWHERE: LiteralPlaces = LiteralPlaces {
    name: Place::START,
    body: Place::START,
    return_: Place::START,
    literal: Place::START,
};

/// Where a thread of a program for a literal can be.
#[derive(Clone, Copy)]
enum At {
    Start,
    Constant,
    Return,
    End,
}

/// Two functions, each of which returns a literal of its own.
fn seven_and_eight(alloc: Global) -> Result<Program, NoMemory>
    ensures { IfOk result (λ program. IsWellFormed program) }
{
    let Program {
        table,
        mut functions,
    } = one_literal(alloc, b"seven", 7, NOWHERE)?;
    let eight = one_literal(alloc, b"eight", 8, NOWHERE)?;
    functions.append(eight.functions)?;
    Ok(Program { table, functions })
}

/// A function with one block, which may push poison of some bytes before it returns.
fn one_block(
    alloc: Global,
    result_layout: Option<Layout>,
    poison: Option<u32>,
) -> Result<Program, NoMemory>
    requires { IfSome result_layout (λ layout. layout ≡ Layout.Int IntType.Int) }
    ensures { IfOk result (λ program. IsWellFormed program) }
{
    let mut operations = Items::new(alloc);
    if let Some(size) = poison {
        operations.push(PlacedOp {
            op: Op::Poison { size },
            place: Place::START,
        })?;
    }
    let mut blocks = Items::new(alloc);
    blocks.push(Block {
        label: Bytes::from_slice(alloc, b".")?,
        operations,
        end: End::Return,
        end_place: Place::START,
    })?;
    let mut functions = Items::new(alloc);
    functions.push(Function {
        name: Bytes::from_slice(alloc, b"short")?,
        result: result_layout,
        parameters: Items::new(alloc),
        locals: Items::new(alloc),
        blocks,
        place: Place::START,
    })?;
    Ok(Program {
        table: Table::new(alloc),
        functions,
    })
}

/// A thread for each of the names.
fn threads_of(alloc: Global, names: &[&[u8]]) -> Result<Config, NoMemory> {
    let mut functions = Vec::new(alloc);
    for name in names {
        functions.push(Bytes::from_slice(alloc, name)?)?;
    }
    start(alloc, functions.as_slice())
}

fn step_at(
    rt: &impl Abort,
    alloc: Global,
    config: &mut Config,
    i: usize,
    program: &Program,
) -> Result<Stepped, NoMemory>
    requires { IsWellFormed program.now }
{
    assert!(rt; i < config.threads().len());
    step(alloc, config, i, program)
}

/// The bytes of the literal as an `int`.
fn is_literal(value: &Value, literal: u8) -> bool {
    let zero = MByte::Byte(0);
    value.as_slice() == [MByte::Byte(literal), zero, zero, zero].as_slice()
}

/// The innermost call of a running thread that has no other.
fn only_frame(thread: &Thread) -> Result<&Frame, Fail> {
    match thread {
        Thread::Running { top, callers } if callers.is_empty() => Ok(top),
        _ => Err("another thread".into()),
    }
}

fn expect_frame(
    rt: &impl Abort,
    thread: &Thread,
    label: &[u8],
    operation: usize,
    literal: Option<u8>,
) -> Result<(), Fail> {
    let frame = only_frame(thread)?;
    assert!(rt; frame.label.name() == label);
    assert_eq!(rt; frame.operation, operation);
    match literal {
        None => assert!(rt; frame.row.is_empty()),
        Some(literal) => {
            assert_eq!(rt; frame.row.len(), 1);
            let value = frame.row.top().ok_or("no value")?;
            assert!(rt; is_literal(value, literal));
        }
    }
    Ok(())
}

fn expect_finished(rt: &impl Abort, thread: &Thread, literal: u8) -> Result<(), Fail> {
    let Thread::Finished(Some(value)) = thread else {
        return Err("no value".into());
    };
    assert!(rt; is_literal(value, literal));
    Ok(())
}

fn expect_at(rt: &impl Abort, config: &Config, i: usize, at: At, literal: u8) -> Result<(), Fail> {
    let thread = config.threads().get(i).ok_or("no thread")?;
    match at {
        At::Start => expect_frame(rt, thread, b".", 0, None),
        At::Constant => expect_frame(rt, thread, b".0", 0, None),
        At::Return => expect_frame(rt, thread, b".0", 1, Some(literal)),
        At::End => expect_finished(rt, thread, literal),
    }
}

/// Runs `seven` and `eight` as threads: each row says which thread steps, and where both are then.
fn run(rt: &impl Abort, alloc: Global, schedule: &[(usize, At, At)]) -> Result<(), Fail> {
    let program = seven_and_eight(alloc)?;
    let mut config = threads_of(alloc, &[b"seven", b"eight"])?;
    assert_eq!(rt; config.threads().len(), 2);
    for (i, first, second) in schedule {
        let answer = step_at(rt, alloc, &mut config, *i, &program)?;
        assert_eq!(rt; answer, Stepped::Stepped);
        expect_at(rt, &config, 0, *first, 7)?;
        expect_at(rt, &config, 1, *second, 8)?;
    }
    let answer = step_at(rt, alloc, &mut config, 0, &program)?;
    assert_eq!(rt; answer, Stepped::Finished);
    expect_at(rt, &config, 0, At::End, 7)
}

#[test]
fn two_threads(rt: HostRuntime) -> Result<(), Fail> {
    let in_turn = [
        (0, At::Constant, At::Start),
        (1, At::Constant, At::Constant),
        (0, At::Return, At::Constant),
        (1, At::Return, At::Return),
        (0, At::End, At::Return),
        (1, At::End, At::End),
    ];
    let second_first = [
        (1, At::Start, At::Constant),
        (1, At::Start, At::Return),
        (1, At::Start, At::End),
        (0, At::Constant, At::End),
        (0, At::Return, At::End),
        (0, At::End, At::End),
    ];
    run(&rt, rt.alloc(), &in_turn)?;
    run(&rt, rt.alloc(), &second_first)
}

/// Takes so many steps of a thread of the name, and expects the next one undefined, and nothing changed.
fn expect_undefined(
    rt: &impl Abort,
    alloc: Global,
    poison: Option<u32>,
    name: &[u8],
    steps: usize,
) -> Result<(), Fail> {
    let program = one_block(alloc, Some(Layout::Int(IntType::Int)), poison)?;
    let mut config = threads_of(alloc, &[name])?;
    for _step in 0..steps {
        let answer = step_at(rt, alloc, &mut config, 0, &program)?;
        assert_eq!(rt; answer, Stepped::Stepped);
    }
    let answer = step_at(rt, alloc, &mut config, 0, &program)?;
    assert_eq!(rt; answer, Stepped::Undefined(Ub::PoisonUsed));
    let frame = only_frame(config.threads().get(0).ok_or("no thread")?)?;
    assert_eq!(rt; frame.operation, steps);
    assert_eq!(rt; frame.row.len(), steps);
    Ok(())
}

#[test]
fn undefined_at_return(rt: HostRuntime) -> Result<(), Fail> {
    let alloc = rt.alloc();
    expect_undefined(&rt, alloc, None, b"short", 0)?;
    expect_undefined(&rt, alloc, Some(2), b"short", 1)?;
    expect_undefined(&rt, alloc, None, b"absent", 0)
}

#[test]
fn nothing_is_returned(rt: HostRuntime) -> Result<(), Fail> {
    let alloc = rt.alloc();
    let program = one_block(alloc, None, Some(1))?;
    let mut config = threads_of(alloc, &[b"short"])?;
    for _step in 0..2 {
        let answer = step_at(&rt, alloc, &mut config, 0, &program)?;
        assert_eq!(rt; answer, Stepped::Stepped);
    }
    let thread = config.threads().get(0).ok_or("no thread")?;
    assert!(rt; matches!(thread, Thread::Finished(None)));
    Ok(())
}

/// A thread in a call of `short`, which returns 7, from the function `outer`.
fn called(alloc: Global) -> Result<Thread, NoMemory> {
    let mut callers = Stack::new(alloc);
    callers.push(Frame::start(alloc, b"outer")?)?;
    let mut top = Frame::start(alloc, b"short")?;
    top.row.push(Value::of_int(alloc, IntType::Int, 7)?)?;
    Ok(Thread::Running { top, callers })
}

/// Returns to the function `outer`, and expects this on its row.
fn expect_caller(
    rt: &impl Abort,
    alloc: Global,
    program: &Program,
    literal: Option<u8>,
) -> Result<(), Fail>
    requires { IsWellFormed program.now }
{
    let mut thread = called(alloc)?;
    let taken = thread.step(alloc, program, &mut Memory::new(alloc))?;
    assert!(rt; matches!(taken, Taken::Stepped(None)));
    expect_frame(rt, &thread, b".", 0, literal)
}

#[test]
fn value_for_the_caller(rt: HostRuntime) -> Result<(), Fail> {
    let alloc = rt.alloc();
    let with_value = one_block(alloc, Some(Layout::Int(IntType::Int)), None)?;
    expect_caller(&rt, alloc, &with_value, Some(7))?;
    let void = one_block(alloc, None, None)?;
    expect_caller(&rt, alloc, &void, None)
}

#[test]
fn stack_of_numbers(rt: HostRuntime) -> Result<(), Fail> {
    let mut stack = Stack::new(rt.alloc());
    assert!(rt; stack.is_empty());
    for number in [1, 2, 3, 4] {
        stack.push(number)?;
    }
    assert_eq!(rt; stack.topmost(2), [3, 4].as_slice());
    assert_eq!(rt; stack.topmost(9), [1, 2, 3, 4].as_slice());
    stack.drop_topmost(2);
    assert_eq!(rt; stack.top().copied(), Some(2));
    stack.drop_topmost(9);
    assert_eq!(rt; stack.pop(), None);
    Ok(())
}
