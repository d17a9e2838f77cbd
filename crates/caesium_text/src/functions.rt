ghost use Rattle.std.specs.Prelude.{◌≡◌, ◌++◌, map, IfOk, OnOk};
ghost use Rattle.std.specs.List.{flat_map};
ghost use Rattle.caesium_text.specs.Naming.{named_local};
ghost use Rattle.caesium_text.specs.Text.{op_line, block_lines, local_line, function_line, function_lines, lines_text};

use crate::naming::{name_end, name_local, name_op, name_result};
use crate::printing::append_whole_line;
use caesium_ir::{Block, Function, Local, PlacedOp};
use caesium_lines::{Line, NamedLocal};
use layouts::Table;
use rc_text::{Bytes, NoMemory};
use sqlite_items::Items;
use std::alloc::Global;

/// Puts the lines of the functions at the end.
pub fn append_functions(
    alloc: Global,
    text: &mut Bytes,
    table: &Table,
    functions: &[Function],
) -> Result<(), NoMemory>
    ensures { OnOk result (text.new ≡ text.old ++ lines_text (flat_map (function_lines table.now) functions.now)) }
{
    for function in functions {
        append_function(alloc, text, table, function)?;
    }
    Ok(())
}

fn append_function(
    alloc: Global,
    text: &mut Bytes,
    table: &Table,
    function: &Function,
) -> Result<(), NoMemory>
    ensures { OnOk result (text.new ≡ text.old ++ lines_text (function_lines table.now function.now)) }
{
    let parameters = function.parameters.as_slice();
    let locals = function.locals.as_slice();
    let line = function_line(alloc, table, function)?;
    append_whole_line(alloc, text, line)?;
    append_locals(alloc, text, table, locals)?;
    append_blocks(
        alloc,
        text,
        table,
        parameters,
        locals,
        function.blocks.as_slice(),
    )
}

/// What a function begins with.
fn function_line(alloc: Global, table: &Table, function: &Function) -> Result<Line, NoMemory>
    ensures { IfOk result (λ line. line ≡ function_line table.now function.now) }
{
    Ok(Line::Function {
        name: Bytes::from_slice(alloc, function.name.as_slice())?,
        parameters: name_locals(alloc, table, function.parameters.as_slice())?,
        result: name_result(alloc, table, function.result)?,
    })
}

fn name_locals(
    alloc: Global,
    table: &Table,
    locals: &[Local],
) -> Result<Items<NamedLocal>, NoMemory>
    ensures { IfOk result (λ named. named ≡ map (named_local table.now) locals.now) }
{
    let mut named = Vec::new(alloc);
    for local in locals {
        named.push(name_local(alloc, table, local)?)?;
    }
    Ok(Items::from_vec(named))
}

fn append_locals(
    alloc: Global,
    text: &mut Bytes,
    table: &Table,
    locals: &[Local],
) -> Result<(), NoMemory>
    ensures { OnOk result (text.new ≡ text.old ++ lines_text (map (local_line table.now) locals.now)) }
{
    for local in locals {
        let line = Line::Local(name_local(alloc, table, local)?);
        append_whole_line(alloc, text, line)?;
    }
    Ok(())
}

fn append_blocks(
    alloc: Global,
    text: &mut Bytes,
    table: &Table,
    parameters: &[Local],
    locals: &[Local],
    blocks: &[Block],
) -> Result<(), NoMemory>
    ensures { OnOk result (text.new ≡ text.old
        ++ lines_text (flat_map (block_lines table.now (parameters.now ++ locals.now)) blocks.now)) }
{
    for block in blocks {
        append_block(alloc, text, table, parameters, locals, block)?;
    }
    Ok(())
}

fn append_block(
    alloc: Global,
    text: &mut Bytes,
    table: &Table,
    parameters: &[Local],
    locals: &[Local],
    block: &Block,
) -> Result<(), NoMemory>
    ensures { OnOk result (text.new ≡ text.old
        ++ lines_text (block_lines table.now (parameters.now ++ locals.now) block.now)) }
{
    let label = Line::Label(Bytes::from_slice(alloc, block.label.as_slice())?);
    append_whole_line(alloc, text, label)?;
    append_operations(
        alloc,
        text,
        table,
        parameters,
        locals,
        block.operations.as_slice(),
    )?;
    let end = Line::End(name_end(alloc, &block.end)?);
    append_whole_line(alloc, text, end)
}

fn append_operations(
    alloc: Global,
    text: &mut Bytes,
    table: &Table,
    parameters: &[Local],
    locals: &[Local],
    operations: &[PlacedOp],
) -> Result<(), NoMemory>
    ensures { OnOk result (text.new ≡ text.old
        ++ lines_text (map (op_line table.now (parameters.now ++ locals.now)) operations.now)) }
{
    for placed in operations {
        let line = Line::Operation(name_op(alloc, table, parameters, locals, &placed.op)?);
        append_whole_line(alloc, text, line)?;
    }
    Ok(())
}
