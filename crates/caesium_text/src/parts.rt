ghost use Rattle.std.specs.Prelude.{◌≡◌, ◌++◌, IsTrue, IsSome, IfOk, Some};
ghost use Rattle.caesium_ir.specs.Function.{labels_of, locals_of};
ghost use Rattle.caesium_ir.specs.Names.{are_distinct};
ghost use Rattle.caesium_ir.specs.WellFormed.{IsWellFormed};
ghost use Rattle.caesium_lines.specs.Operation.{op_text};
ghost use Rattle.caesium_lines.specs.End.{end_text};
ghost use Rattle.caesium_text.specs.Naming.{named_op, named_end};
ghost use Rattle.caesium_text.specs.Parts.{part_text, function_part_text, block_part_text};

use crate::naming::{name_end, name_op};
use caesium_ir::{Block, End, Function, Local, Op, Program, Reference};
use caesium_lines::{append_end, append_op};
use layouts::Table;
use rc_text::{Bytes, NoMemory};
use std::alloc::Global;

/// The text of an operation of the block of the label in the function of the name, as it stands in the program's text,
/// without the indent; or of the block's end, where the number is that of its operations.
pub fn print_op(
    alloc: Global,
    program: &Program,
    function: &Reference,
    label: &Reference,
    operation: u32,
) -> Result<Bytes, NoMemory>
    requires well_formed { IsWellFormed program.now }
    requires has { IsSome (part_text program.now function.now label.now operation) }
    ensures { IfOk result (λ text. part_text program.now function.now label.now operation ≡ Some text) }
{
    match program.function(function) {
        Some(found) => part_of_function(alloc, &program.table, found, label, operation),
        None => unreachable!(),
    }
}

fn part_of_function(
    alloc: Global,
    table: &Table,
    function: &Function,
    label: &Reference,
    operation: u32,
) -> Result<Bytes, NoMemory>
    requires distinct { IsTrue (are_distinct (labels_of function.now)) }
    requires has { IsSome (function_part_text table.now label.now operation function.now) }
    ensures { IfOk result (λ text. function_part_text table.now label.now operation function.now ≡ Some text) }
{
    match function.block(label) {
        Some(block) => part_of_block(alloc, table, function, block, operation),
        None => unreachable!(),
    }
}

fn part_of_block(
    alloc: Global,
    table: &Table,
    function: &Function,
    block: &Block,
    operation: u32,
) -> Result<Bytes, NoMemory>
    requires { IsSome (block_part_text table.now (locals_of function.now) operation block.now) }
    ensures { IfOk result (λ text. block_part_text table.now (locals_of function.now) operation block.now ≡ Some text) }
{
    let parameters = function.parameters.as_slice();
    let locals = function.locals.as_slice();
    let number = operation as usize;
    match block.operations.get(number) {
        Some(placed) => op_text(alloc, table, parameters, locals, &placed.op),
        None => end_text(alloc, &block.end),
    }
}

fn op_text(
    alloc: Global,
    table: &Table,
    parameters: &[Local],
    locals: &[Local],
    op: &Op,
) -> Result<Bytes, NoMemory>
    ensures { IfOk result (λ text. text ≡ op_text (named_op table.now (parameters.now ++ locals.now) op.now)) }
{
    let mut text = Bytes::new(alloc);
    let named = name_op(alloc, table, parameters, locals, op)?;
    append_op(alloc, &mut text, &named)?;
    Ok(text)
}

fn end_text(alloc: Global, end: &End) -> Result<Bytes, NoMemory>
    ensures { IfOk result (λ text. text ≡ end_text (named_end end.now)) }
{
    let mut text = Bytes::new(alloc);
    let named = name_end(alloc, end)?;
    append_end(alloc, &mut text, &named)?;
    Ok(text)
}
