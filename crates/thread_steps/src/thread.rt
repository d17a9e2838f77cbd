ghost use Rattle.std.specs.Prelude.{◌≡◌, IfOk};
ghost use Rattle.caesium_ir.specs.WellFormed.{IsWellFormed};
ghost use Rattle.thread_steps.specs.Thread.{starting_thread};
ghost use Rattle.thread_steps.specs.Step.{step_of};
ghost use Rattle.thread_steps.specs.Answer.{IsThreadAnswer, IsAnswerTo};

use crate::answer::Ub;
use crate::block_ends::step_ending;
use crate::frame::Frame;
use crate::next::{Next, find_next};
use crate::op_steps::step_operation;
use crate::stack::Stack;
use byte_memory::{Memory, Value};
use caesium_ir::Program;
use rc_text::NoMemory;
use std::alloc::Global;
use std::mem;

/// A thread.
#[derive(Debug, Drop)]
pub enum Thread {
    /// It is in this call, whose callers wait for it.
    Running { top: Frame, callers: Stack<Frame> },
    /// Its first function has returned, with this value where it is not void.
    Finished(Option<Value>),
}

/// What came of a thread's step.
#[derive(Debug, Drop)]
pub enum Taken {
    /// It took its next step, which may have started a thread.
    Stepped(Option<Thread>),
    /// It is finished, and nothing changed.
    Finished,
    /// It has no next step, and nothing changed.
    Undefined(Ub),
}

impl Thread {
    /// A thread that calls the function and has done nothing yet.
    pub fn start(alloc: Global, function: &[u8]) -> Result<Self, NoMemory>
        ensures { IfOk result (λ thread. thread ≡ starting_thread function.now) }
    {
        Ok(Thread::Running {
            top: Frame::start(alloc, function)?,
            callers: Stack::new(alloc),
        })
    }

    /// Takes the thread's next step. After an error nothing is known of the thread and the memory.
    pub(crate) fn step(
        &mut self,
        alloc: Global,
        program: &Program,
        memory: &mut Memory,
    ) -> Result<Taken, NoMemory>
        requires { IsWellFormed program.now }
        ensures { IfOk result (λ taken. IsThreadAnswer program.now self.old memory.old self.new memory.new taken) }
    {
        let (thread, taken) = match mem::replace(self, Thread::Finished(None)) {
            Thread::Running { top, callers } => step_frame(alloc, program, top, callers, memory)?,
            finished => (finished, Taken::Finished),
        };
        *self = thread;
        Ok(taken)
    }
}

/// The step of a thread with these frames.
fn step_frame(
    alloc: Global,
    program: &Program,
    top: Frame,
    callers: Stack<Frame>,
    memory: &mut Memory,
) -> Result<(Thread, Taken), NoMemory>
    requires { IsWellFormed program.now }
    ensures { let expected = step_of program.now top callers memory.old in
        let old = Thread.Running top callers in
        IfOk result (λ after. IsAnswerTo expected old memory.old after.0 memory.new after.1) }
{
    match find_next(program, &top) {
        None => Ok(stuck(Ub::PoisonUsed, top, callers)),
        Some(Next::Operation(_, op)) => step_operation(alloc, program, op, top, callers, memory),
        Some(Next::Ending(function, end)) => {
            step_ending(alloc, program, function, end, top, callers, memory)
        }
    }
}

/// These frames as they were, without a next step.
pub(crate) fn stuck(ub: Ub, top: Frame, callers: Stack<Frame>) -> (Thread, Taken)
    ensures thread { result.0 ≡ Thread.Running top callers }
    ensures taken { result.1 ≡ Taken.Undefined ub }
{
    (Thread::Running { top, callers }, Taken::Undefined(ub))
}
