//! How threads run a Caesium program (RefinedC, PLDI 2021), one step of one thread at a time. A layer
//! above makes a configuration by `start`, and moves it by `step`; a semantics of structured C takes the
//! operations by `operate`.
#![tactic(auto)]

mod access;
mod accesses;
mod answer;
mod arithmetic;
mod block_ends;
mod calls;
mod config;
mod frame;
mod laws;
mod next;
mod op_steps;
mod operands;
mod operations;
mod pointers;
mod races;
mod stack;
mod thread;

pub use access::{Access, Accesses, Touched, next_access};
pub use answer::{Stepped, Stop, Ub};
pub use config::{Config, start, step};
pub use frame::Frame;
pub use laws::{
    literal_runs_are_sound, running_threads_step_or_are_stuck, steps_are_determined,
    steps_write_what_they_access,
};
pub use next::{Next, find_next};
pub use operations::{operand_count, operate};
pub use races::race;
pub use stack::Stack;
pub use thread::{Taken, Thread};

#[cfg(test)]
mod tests;
