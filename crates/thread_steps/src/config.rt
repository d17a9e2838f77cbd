ghost use Rattle.std.specs.Prelude.{◌≡◌, ◌<◌, length, IfOk};
ghost use Rattle.caesium_ir.specs.WellFormed.{IsWellFormed};
ghost use Rattle.thread_steps.specs.Configuration.{starting};
ghost use Rattle.thread_steps.specs.Answer.{IsAnswer};

use crate::answer::Stepped;
use crate::thread::{Taken, Thread};
use byte_memory::Memory;
use caesium_ir::Program;
use rc_text::{Bytes, NoMemory};
use std::alloc::Global;
use std::marker::Model;

/// All that a run of a program changes: its threads by their numbers, and the memory that they share.
#[derive(Debug, Drop)]
pub struct Config {
    threads: Vec<Thread>,
    memory: Memory,
}

impl Model for Config {
    ghost use Rattle.thread_steps.specs.Configuration.{Configuration};

    ghost Value = { Configuration };

    ghost view = { λ config. record { threads = config.threads.items; memory = config.memory } };
}

impl Config {
    pub fn new(threads: Vec<Thread>, memory: Memory) -> Self
        ensures { result ≡ record { threads = threads.items; memory = memory } }
    {
        Config { threads, memory }
    }

    pub fn threads(&self) -> &[Thread]
        ensures { result.now ≡ self.now.threads }
    {
        self.threads.as_slice()
    }

    pub fn memory(&self) -> &Memory
        ensures { result.now ≡ self.now.memory }
    {
        &self.memory
    }
}

/// A configuration of a thread for each of these names, which calls the function of the name and has done
/// nothing yet, and of a memory of which no block was ever opened.
pub fn start(alloc: Global, functions: &[Bytes]) -> Result<Config, NoMemory>
    ensures { IfOk result (λ config. config ≡ starting functions.now) }
{
    let mut threads = Vec::new(alloc);
    for function in functions {
        threads.push(Thread::start(alloc, function.as_slice())?)?;
    }
    Ok(Config {
        threads,
        memory: Memory::new(alloc),
    })
}

/// Takes the next step of thread i, which the program and the configuration determine. After an error
/// nothing is known of the configuration.
pub fn step(
    alloc: Global,
    config: &mut Config,
    i: usize,
    program: &Program,
) -> Result<Stepped, NoMemory>
    requires thread { i < length config.old.threads }
    requires well_formed { IsWellFormed program.now }
    ensures { IfOk result (λ answer. IsAnswer program.now i config.old config.new answer) }
{
    let thread = &mut config.threads[i];
    match thread.step(alloc, program, &mut config.memory)? {
        Taken::Stepped(None) => Ok(Stepped::Stepped),
        Taken::Stepped(Some(started)) => {
            config.threads.push(started)?;
            Ok(Stepped::Stepped)
        }
        Taken::Finished => Ok(Stepped::Finished),
        Taken::Undefined(ub) => Ok(Stepped::Undefined(ub)),
    }
}
