ghost use Rattle.std.specs.Prelude.{◌≡◌, ◌≤◌, ◌+◌, ◌++◌, length, pos, None, Some, OnOk, IfOk, IsTrue};
ghost use Rattle.rc_terms.specs.declared.location.Loc.{Loc};
ghost use Rattle.rc_terms.specs.declared.location.Loc.TheVariants.{At};
ghost use Rattle.byte_memory.specs.Memory.{opened, stored, closed};
ghost use Rattle.caesium_ir.specs.Function.{function_named, locals_of};
ghost use Rattle.caesium_ir.specs.WellFormed.{IsWellFormed, IsWellFormedFunction, AreWellFormedLocals};
ghost use Rattle.thread_steps.specs.Calls.{are_arguments as fit, with_arguments, with_locals, blocks_from};
ghost use Rattle.thread_steps.specs.Calls.{entering, enter as entered_by, without_blocks};
ghost use Rattle.thread_steps.specs.Gives.{Enters};

use crate::answer::{Stop, Ub};
use crate::frame::Frame;
use crate::next::find_function;
use byte_memory::{Memory, Value};
use caesium_ir::{Function, Local, Program, Reference};
use layouts::{Table, size_of};
use rc_terms::Loc;
use rc_text::NoMemory;
use sqlite_items::Items;
use std::alloc::Global;

/// What a call of the function of this name on these arguments begins with, and its blocks in memory.
pub(crate) fn enter(
    alloc: Global,
    program: &Program,
    name: &Reference,
    arguments: &[Value],
    memory: &mut Memory,
) -> Result<Frame, Stop>
    requires { IsWellFormed program.now }
    ensures { let found = function_named program.now.functions name.now in
        Enters (entered_by program.now.table name.now found arguments.now memory.old) memory.old memory.new result }
{
    let Some(function) = find_function(program, name) else {
        return Err(Stop::Undefined(Ub::PoisonUsed));
    };
    if !are_arguments(&program.table, function.parameters.as_slice(), arguments) {
        return Err(Stop::Undefined(Ub::PoisonUsed));
    }
    Ok(enter_function(alloc, program, name, function, arguments, memory)?)
}

fn enter_function(
    alloc: Global,
    program: &Program,
    name: &Reference,
    function: &Function,
    arguments: &[Value],
    memory: &mut Memory,
) -> Result<Frame, NoMemory>
    requires well_formed { IsWellFormedFunction program.now function.now }
    requires fit { IsTrue (fit program.now.table function.now.parameters arguments.now) }
    ensures { IfOk result (λ frame. entering program.now.table name.now function.now arguments.now memory.old
        ≡ record { frame = frame; memory = memory.new }) }
{
    let blocks = open_blocks(alloc, program, function, arguments, memory)?;
    Frame::entering(alloc, name.copy(alloc)?, blocks)
}

/// Opens the blocks of a call, and stores the arguments in those of the parameters.
fn open_blocks(
    alloc: Global,
    program: &Program,
    function: &Function,
    arguments: &[Value],
    memory: &mut Memory,
) -> Result<Items<u64>, NoMemory>
    requires well_formed { IsWellFormedFunction program.now function.now }
    requires fit { IsTrue (fit program.now.table function.now.parameters arguments.now) }
    ensures blocks { IfOk result (λ blocks. blocks ≡ blocks_from (length memory.old) (locals_of function.now)) }
    ensures memory { OnOk result (memory.new ≡ with_locals program.now.table function.now.locals
        (with_arguments program.now.table function.now.parameters arguments.now memory.old)) }
{
    let table = &program.table;
    let mut blocks = Items::new(alloc);
    open_parameters(
        table,
        function.parameters.as_slice(),
        arguments,
        memory,
        &mut blocks,
    )?;
    open_locals(table, function.locals.as_slice(), memory, &mut blocks)?;
    Ok(blocks)
}

/// Whether there are as many arguments as parameters, and each is as long as the layout of its own.
fn are_arguments(table: &Table, parameters: &[Local], arguments: &[Value]) -> bool
    requires { AreWellFormedLocals table.now parameters.now }
    ensures { result ≡ fit table.now parameters.now arguments.now }
{
    if parameters.len() != arguments.len() {
        return false;
    }
    for (i, parameter) in parameters.iter().enumerate() {
        if arguments[i].len() != size_of(parameter.layout, table) as usize {
            return false;
        }
    }
    true
}

/// Opens a block for each parameter and stores its argument there.
fn open_parameters(
    table: &Table,
    parameters: &[Local],
    arguments: &[Value],
    memory: &mut Memory,
    blocks: &mut Items<u64>,
) -> Result<(), NoMemory>
    requires known { AreWellFormedLocals table.now parameters.now }
    requires fit { IsTrue (fit table.now parameters.now arguments.now) }
    ensures memory { OnOk result (memory.new ≡ with_arguments table.now parameters.now arguments.now memory.old) }
    ensures blocks { OnOk result (blocks.new ≡ blocks.old ++ blocks_from (length memory.old) parameters.now) }
    ensures length { OnOk result (length memory.new ≡ length memory.old + length parameters.now) }
{
    for (i, parameter) in parameters.iter().enumerate() {
        let block = open_with(size_of(parameter.layout, table), &arguments[i], memory)?;
        blocks.push(block)?;
    }
    Ok(())
}

/// Opens a block of this size and stores a value of the same size in it.
fn open_with(size: u32, value: &Value, memory: &mut Memory) -> Result<u64, NoMemory>
    requires { length value.now ≡ size }
    ensures number { IfOk result (λ block. block ≡ length memory.old) }
    ensures memory { OnOk result
        (memory.new ≡ stored (opened memory.old size) (At (length memory.old) (pos 0)) value.now) }
    ensures length { OnOk result (length memory.new ≡ length memory.old + 1) }
{
    let block = memory.open_block(size)?;
    let is_stored = memory.store(Loc::At { block, offset: 0 }, value, 1).is_ok();
    prove!(is_stored);
    Ok(block)
}

/// Opens a block for each of these locals.
fn open_locals(
    table: &Table,
    locals: &[Local],
    memory: &mut Memory,
    blocks: &mut Items<u64>,
) -> Result<(), NoMemory>
    requires { AreWellFormedLocals table.now locals.now }
    ensures memory { OnOk result (memory.new ≡ with_locals table.now locals.now memory.old) }
    ensures blocks { OnOk result (blocks.new ≡ blocks.old ++ blocks_from (length memory.old) locals.now) }
{
    for local in locals {
        let block = memory.open_block(size_of(local.layout, table))?;
        blocks.push(block)?;
    }
    Ok(())
}

/// Closes these blocks.
pub(crate) fn close_blocks(blocks: &[u64], memory: &mut Memory)
    ensures { memory.new ≡ without_blocks blocks.now memory.old }
{
    for block in blocks {
        close(*block, memory);
    }
}

/// Closes a block; a closed one, or one that was never opened, stays.
fn close(block: u64, memory: &mut Memory)
    ensures { memory.new ≡ closed memory.old block }
{
    if memory.is_alive(block) {
        memory.close_block(block);
    }
}
