ghost use Rattle.std.specs.Prelude.{◌≡◌, ◌+◌, ◌<◌, ◌^◌, Ok, IfOk, slice_get};
ghost use Rattle.byte_memory.specs.declared.memory.Memory.{Memory as Blocks};
ghost use Rattle.caesium_ir.specs.WellFormed.{IsWellFormed, IsOfTable};
ghost use Rattle.thread_steps.specs.Operands.{and_then};
ghost use Rattle.thread_steps.specs.Step.{step_op, step_plain as plain_step, after_op, address, entered_on};
ghost use Rattle.thread_steps.specs.Step.{called, forked};
ghost use Rattle.thread_steps.specs.Answer.{IsAnswerTo};

use crate::answer::{Stop, Ub};
use crate::calls::enter;
use crate::frame::Frame;
use crate::operations::{operand_count, operate};
use crate::stack::Stack;
use crate::thread::{Taken, Thread, stuck};
use byte_memory::{Memory, Value};
use caesium_ir::{Op, Program, Reference};
use layouts::Table;
use rc_terms::Loc;
use rc_text::NoMemory;
use std::alloc::Global;

/// The step of an operation.
pub(crate) fn step_operation(
    alloc: Global,
    program: &Program,
    op: &Op,
    top: Frame,
    callers: Stack<Frame>,
    memory: &mut Memory,
) -> Result<(Thread, Taken), NoMemory>
    requires well_formed { IsWellFormed program.now }
    requires of_table { IsOfTable program.now.table op.now }
    requires room { top.operation + 1 < 2 ^ 64 }
    ensures { let expected = step_op program.now op.now top callers memory.old in
        let old = Thread.Running top callers in
        IfOk result (λ after. IsAnswerTo expected old memory.old after.0 memory.new after.1) }
{
    match op {
        Op::Local { number } => step_local(alloc, *number, top, callers, memory),
        Op::Call {
            function,
            arguments,
        } => { step_call(alloc, program, function, *arguments, top, callers, memory) }
        Op::Fork {
            function,
            arguments,
        } => { step_fork(alloc, program, function, *arguments, top, callers, memory) }
        _ => step_plain(alloc, &program.table, op, top, callers, memory),
    }
}

/// `local x`
fn step_local(
    alloc: Global,
    number: u32,
    mut top: Frame,
    callers: Stack<Frame>,
    memory: &Memory,
) -> Result<(Thread, Taken), NoMemory>
    requires { top.operation + 1 < 2 ^ 64 }
    ensures { let expected = and_then (address (slice_get top.locals number) memory.now)
        (λ made. Ok (after_op 0 top callers made)) in
        let old = Thread.Running top callers in
        IfOk result (λ after. IsAnswerTo expected old memory.now after.0 memory.now after.1) }
{
    let _ = memory;
    let Some(block) = top.locals.get(number as usize) else {
        return Ok(stuck(Ub::PoisonUsed, top, callers));
    };
    let at = Loc::At {
        block: *block,
        offset: 0,
    };
    top.operate(0, Some(Value::of_pointer(alloc, at)?))?;
    Ok((Thread::Running { top, callers }, Taken::Stepped(None)))
}

/// An operation that needs no frame and no program.
fn step_plain(
    alloc: Global,
    table: &Table,
    op: &Op,
    mut top: Frame,
    callers: Stack<Frame>,
    memory: &mut Memory,
) -> Result<(Thread, Taken), NoMemory>
    requires of_table { IsOfTable table.now op.now }
    requires room { top.operation + 1 < 2 ^ 64 }
    ensures { let expected = plain_step table.now op.now top callers memory.old in
        let old = Thread.Running top callers in
        IfOk result (λ after. IsAnswerTo expected old memory.old after.0 memory.new after.1) }
{
    let count = operand_count(op);
    match operate(alloc, table, op, top.row.topmost(count), memory) {
        Ok(value) => {
            top.operate(count, value)?;
            Ok((Thread::Running { top, callers }, Taken::Stepped(None)))
        }
        Err(Stop::Undefined(ub)) => Ok(stuck(ub, top, callers)),
        Err(Stop::NoMemory) => Err(NoMemory),
    }
}

/// `call f`
fn step_call(
    alloc: Global,
    program: &Program,
    name: &Reference,
    arguments: u32,
    mut top: Frame,
    mut callers: Stack<Frame>,
    memory: &mut Memory,
) -> Result<(Thread, Taken), NoMemory>
    requires well_formed { IsWellFormed program.now }
    requires room { top.operation + 1 < 2 ^ 64 }
    ensures { let expected = and_then (entered_on program.now name.now arguments top memory.old)
        (λ made. Ok (called arguments top callers made)) in
        let old = Thread.Running top callers in
        IfOk result (λ after. IsAnswerTo expected old memory.old after.0 memory.new after.1) }
{
    let count = arguments as usize;
    match enter(alloc, program, name, top.row.topmost(count), memory) {
        Ok(callee) => {
            top.operate(count, None)?;
            callers.push(top)?;
            Ok((
                Thread::Running {
                    top: callee,
                    callers,
                },
                Taken::Stepped(None),
            ))
        }
        Err(Stop::Undefined(ub)) => Ok(stuck(ub, top, callers)),
        Err(Stop::NoMemory) => Err(NoMemory),
    }
}

/// `fork f`
fn step_fork(
    alloc: Global,
    program: &Program,
    name: &Reference,
    arguments: u32,
    mut top: Frame,
    callers: Stack<Frame>,
    memory: &mut Memory,
) -> Result<(Thread, Taken), NoMemory>
    requires well_formed { IsWellFormed program.now }
    requires room { top.operation + 1 < 2 ^ 64 }
    ensures { let expected = and_then (entered_on program.now name.now arguments top memory.old)
        (λ made. Ok (forked arguments top callers made)) in
        let old = Thread.Running top callers in
        IfOk result (λ after. IsAnswerTo expected old memory.old after.0 memory.new after.1) }
{
    let count = arguments as usize;
    match enter(alloc, program, name, top.row.topmost(count), memory) {
        Ok(first) => {
            top.operate(count, None)?;
            let started = Thread::Running {
                top: first,
                callers: Stack::new(alloc),
            };
            Ok((
                Thread::Running { top, callers },
                Taken::Stepped(Some(started)),
            ))
        }
        Err(Stop::Undefined(ub)) => Ok(stuck(ub, top, callers)),
        Err(Stop::NoMemory) => Err(NoMemory),
    }
}
