ghost use Rattle.std.specs.Prelude.{◌≡◌, Ok, IfOk};
ghost use Rattle.caesium_ir.specs.WellFormed.{IsWellFormedFunction, IsWellFormedResult};
ghost use Rattle.thread_steps.specs.Step.{step_end, step_if as if_step, step_switch as switch_step};
ghost use Rattle.thread_steps.specs.Step.{step_return as return_step, label_for as label_of_number, goes_to};
ghost use Rattle.thread_steps.specs.Step.{handed_on as value_handed_on};
ghost use Rattle.thread_steps.specs.Step.{condition as condition_on, selector as selector_on};
ghost use Rattle.thread_steps.specs.Thread.{returned};
ghost use Rattle.thread_steps.specs.Answer.{IsAnswerTo};

use crate::answer::Ub;
use crate::calls::close_blocks;
use crate::frame::Frame;
use crate::operands::{has_size, integer, is_nonzero};
use crate::stack::Stack;
use crate::thread::{Taken, Thread, stuck};
use byte_memory::{Memory, Value};
use caesium_ir::{Case, End, Function, Program, Reference};
use layouts::{IntType, Layout, Table, size_of};
use rc_text::NoMemory;
use std::alloc::Global;

/// The step of the end of a block.
pub(crate) fn step_ending(
    alloc: Global,
    program: &Program,
    function: &Function,
    end: &End,
    mut top: Frame,
    callers: Stack<Frame>,
    memory: &mut Memory,
) -> Result<(Thread, Taken), NoMemory>
    requires { IsWellFormedFunction program.now function.now }
    ensures { let expected = step_end program.now.table function.now end.now top callers memory.old in
        let old = Thread.Running top callers in
        IfOk result (λ after. IsAnswerTo expected old memory.old after.0 memory.new after.1) }
{
    match end {
        End::Goto(label) => {
            top.enter(alloc, label)?;
            Ok((Thread::Running { top, callers }, Taken::Stepped(None)))
        }
        End::If { nonzero, zero } => step_if(alloc, nonzero, zero, top, callers, memory),
        End::Switch {
            of,
            cases,
            otherwise,
        } => {
            step_switch(
                alloc,
                *of,
                cases.as_slice(),
                otherwise,
                top,
                callers,
                memory,
            )
        }
        End::Return => step_return(&program.table, function.result, top, callers, memory),
    }
}

/// An `if`.
fn step_if(
    alloc: Global,
    nonzero: &Reference,
    zero: &Reference,
    mut top: Frame,
    callers: Stack<Frame>,
    memory: &Memory,
) -> Result<(Thread, Taken), NoMemory>
    ensures { let expected = if_step nonzero.now zero.now top callers memory.now in
        let old = Thread.Running top callers in
        IfOk result (λ after. IsAnswerTo expected old memory.now after.0 memory.now after.1) }
{
    let _ = memory;
    match condition(&top.row) {
        Ok(holds) => {
            top.branch(alloc, if holds { nonzero } else { zero })?;
            Ok((Thread::Running { top, callers }, Taken::Stepped(None)))
        }
        Err(ub) => Ok(stuck(ub, top, callers)),
    }
}

/// Whether the top of a row isn't zero.
fn condition(row: &Stack<Value>) -> Result<bool, Ub>
    ensures { result ≡ condition_on row.now }
{
    let Some(value) = row.top() else {
        return Err(Ub::PoisonUsed);
    };
    match is_nonzero(value) {
        Some(holds) => Ok(holds),
        None => Err(Ub::PoisonUsed),
    }
}

/// A `switch` on an integer of the type.
fn step_switch(
    alloc: Global,
    t: IntType,
    cases: &[Case],
    otherwise: &Reference,
    mut top: Frame,
    callers: Stack<Frame>,
    memory: &Memory,
) -> Result<(Thread, Taken), NoMemory>
    ensures { let expected = switch_step t cases.now otherwise.now top callers memory.now in
        let old = Thread.Running top callers in
        IfOk result (λ after. IsAnswerTo expected old memory.now after.0 memory.now after.1) }
{
    let _ = memory;
    match selector(t, &top.row) {
        Ok(number) => {
            top.branch(alloc, label_for(number, cases, otherwise))?;
            Ok((Thread::Running { top, callers }, Taken::Stepped(None)))
        }
        Err(ub) => Ok(stuck(ub, top, callers)),
    }
}

/// The number of the type that the top of a row is.
fn selector(t: IntType, row: &Stack<Value>) -> Result<i128, Ub>
    ensures { result ≡ selector_on t row.now }
{
    match row.top() {
        Some(value) => integer(t, value),
        None => Err(Ub::PoisonUsed),
    }
}

/// The label of the first case of the number, else the last label.
fn label_for<'a>(number: i128, cases: &'a [Case], otherwise: &'a Reference) -> &'a Reference
    ensures { result.now ≡ label_of_number number cases.now otherwise.now }
{
    for case in cases {
        if case.value == number {
            return &case.label;
        }
    }
    otherwise
}

/// A return from a function of this result.
fn step_return(
    table: &Table,
    result_layout: Option<Layout>,
    top: Frame,
    callers: Stack<Frame>,
    memory: &mut Memory,
) -> Result<(Thread, Taken), NoMemory>
    requires { IsWellFormedResult table.now result_layout }
    ensures { let expected = return_step table.now result_layout top callers memory.old in
        let old = Thread.Running top callers in
        IfOk result (λ after. IsAnswerTo expected old memory.old after.0 memory.new after.1) }
{
    match check_result(table, result_layout, &top.row) {
        Ok(()) => {
            close_blocks(top.locals.as_slice(), memory);
            let thread = return_to(callers, result_of(result_layout, top))?;
            Ok((thread, Taken::Stepped(None)))
        }
        Err(ub) => Ok(stuck(ub, top, callers)),
    }
}

ghost use Rattle.std.specs.Prelude.{OnOk, Err};
ghost use Rattle.thread_steps.specs.declared.answer.Ub.{Ub};
ghost use Rattle.thread_steps.specs.Step.{result_on};

/// Whether the row has at its top what the function is to return.
fn check_result(table: &Table, result_layout: Option<Layout>, row: &Stack<Value>) -> Result<(), Ub>
    requires { IsWellFormedResult table.now result_layout }
    ensures ok { OnOk result (value_handed_on table.now result_layout row.now ≡ Ok (result_on result_layout row.now)) }
    ensures err { (ub : Ub) → result ≡ Err ub → value_handed_on table.now result_layout row.now ≡ Err ub }
{
    let Some(layout) = result_layout else {
        return Ok(());
    };
    match row.top() {
        Some(value) => has_size(size_of(layout, table), value),
        None => Err(Ub::PoisonUsed),
    }
}

/// The top of the row, where the function has a result.
fn result_of(result_layout: Option<Layout>, mut top: Frame) -> Option<Value>
    ensures { result ≡ result_on result_layout top.row }
{
    match result_layout {
        Some(_) => top.row.pop(),
        None => None,
    }
}

/// The thread after a return to these callers.
fn return_to(mut callers: Stack<Frame>, value: Option<Value>) -> Result<Thread, NoMemory>
    ensures { IfOk result (λ thread. thread ≡ returned value callers) }
{
    match callers.pop() {
        None => Ok(Thread::Finished(value)),
        Some(mut caller) => {
            caller.give(value)?;
            Ok(Thread::Running {
                top: caller,
                callers,
            })
        }
    }
}
