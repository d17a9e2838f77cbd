ghost use Rattle.std.specs.Prelude.{◌≡◌, ℕ, ◌<◌, ◌^◌, ◌⊎◌, List, length, pos, Some, slice_get};
ghost use Rattle.byte_memory.specs.Memory.{byte_at};
ghost use Rattle.thread_steps.specs.Access.{accesses_of, IsWritten};
ghost use Rattle.std.specs.List.{AllByRecursion};
ghost use Rattle.byte_memory.specs.declared.memory.Memory.{Memory};
ghost use Rattle.caesium_ir.specs.declared.literal_places.LiteralPlaces.{LiteralPlaces};
ghost use Rattle.caesium_ir.specs.declared.program.Program.{Program};
ghost use Rattle.caesium_ir.specs.Literal.{literal_program};
ghost use Rattle.thread_steps.specs.declared.answer.Ub.{Ub};
ghost use Rattle.thread_steps.specs.declared.frame.Frame.{Frame};
ghost use Rattle.thread_steps.specs.declared.thread.Thread.{Thread};
ghost use Rattle.thread_steps.specs.declared.thread.Thread.TheVariants.{Running};
ghost use Rattle.thread_steps.specs.Step.{After, Step};
ghost use Rattle.thread_steps.specs.Configuration.{Configuration, starting, StepsAt};
ghost use Rattle.thread_steps.specs.Undefined.{IsStuck};
ghost use Rattle.thread_steps.specs.Run.{Run};
ghost use Rattle.thread_steps.specs.Start.{Start, functions_of};
ghost use Rattle.thread_steps.specs.LiteralStart.{IsLiteralStart};
ghost use Rattle.thread_steps.specs.Soundness.{AreSound};

/// Whatever the function's name, the literal, the places and the starts that call the function, and in
/// whichever order the threads take their steps: no configuration of a run, the first included, is
/// undefined, and each finished thread has returned the literal as an `int`.
pub fn literal_runs_are_sound()
    ensures { (name : List ℕ) (literal : ℕ) (places : LiteralPlaces) (starts : List Start)
        (configs : List Configuration) → literal < 2 ^ 31 →
        AllByRecursion (IsLiteralStart name literal) starts →
        let program = literal_program name literal places in
        let first = starting (functions_of starts) in
        Run program first configs → AreSound program starts first configs }
{}

/// A thread has one next step at most, and so has a configuration at each of its threads.
pub fn steps_are_determined()
    ensures threads { (program : Program) (thread : Thread) (memory : Memory) (after other : After) →
        Step program thread memory after → Step program thread memory other → after ≡ other }
    ensures configurations { (program : Program) (i : ℕ) (old new other : Configuration) →
        StepsAt program i old new → StepsAt program i old other → new ≡ other }
{}

/// A running thread has a next step, or it has none and one kind of undefined behaviour. A finished thread
/// has neither.
pub fn running_threads_step_or_are_stuck()
    ensures either { (program : Program) (top : Frame) (callers : List Frame) (memory : Memory) →
        ((after : After) × Step program (Running top callers) memory after)
        ⊎ ((ub : Ub) × IsStuck program (Running top callers) memory ub) }
    ensures no_step { (program : Program) (thread : Thread) (memory : Memory) (ub : Ub) →
        IsStuck program thread memory ub → (after : After) → ¬ Step program thread memory after }
    ensures stuck { (program : Program) (top : Frame) (callers : List Frame) (memory : Memory) →
        ((after : After) → ¬ Step program (Running top callers) memory after) →
        (ub : Ub) × IsStuck program (Running top callers) memory ub }
    ensures one_kind { (program : Program) (thread : Thread) (memory : Memory) (ub other : Ub) →
        IsStuck program thread memory ub → IsStuck program thread memory other → ub ≡ other }
{}

/// A step changes no byte of a block that was there before but those that its accesses write, and so does a step of a
/// configuration.
pub fn steps_write_what_they_access()
    ensures threads { (program : Program) (thread : Thread) (memory : Memory) (after : After) (block offset : ℕ) →
        Step program thread memory after → block < length memory →
        ¬ IsWritten memory (accesses_of program thread) block offset →
        byte_at after.memory block offset ≡ byte_at memory block offset }
    ensures configurations { (program : Program) (i : ℕ) (old new : Configuration) (thread : Thread)
        (block offset : ℕ) → StepsAt program i old new → slice_get old.threads i ≡ Some thread →
        block < length old.memory → ¬ IsWritten old.memory (accesses_of program thread) block offset →
        byte_at new.memory block offset ≡ byte_at old.memory block offset }
{}
