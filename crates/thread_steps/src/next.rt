ghost use Rattle.std.specs.Prelude.{◌≡◌, ◌<◌, ◌+◌, ◌^◌, IfSome};
ghost use Rattle.std.specs.Option.{option_map, option_copied};
ghost use Rattle.caesium_ir.specs.Block.{block_labelled};
ghost use Rattle.caesium_ir.specs.Function.{function_named};
ghost use Rattle.caesium_ir.specs.WellFormed.{IsWellFormed, IsWellFormedFunction, IsWellFormedBlock};
ghost use Rattle.thread_steps.specs.FindNext.{meaning_of, HasRoom, IsWellFormedNext};
ghost use Rattle.thread_steps.specs.Next.{next_of, next_in};

use crate::frame::Frame;
use caesium_ir::{Block, End, Function, Op, Program, Reference};

/// What a frame does next: an operation, or the end of its block, in this function.
#[derive(Clone, Copy, Debug)]
pub enum Next<'p> {
    Operation(&'p Function, &'p Op),
    Ending(&'p Function, &'p End),
}

/// What the frame does next; nothing where its function or its block is not in the program, or its number
/// is past the block's end.
pub fn find_next<'p>(program: &'p Program, frame: &Frame) -> Option<Next<'p>>
    requires { IsWellFormed program.now }
    ensures value { option_map meaning_of result ≡ next_of program.now frame.now }
    ensures room { IfSome result (λ next. HasRoom next frame.now.operation) }
    ensures well_formed { IfSome result (IsWellFormedNext program.now) }
{
    let function = find_function(program, &frame.function)?;
    let block = find_block(program, function, &frame.label)?;
    next_at(program, function, block, frame.operation)
}

/// The function of the name.
pub(crate) fn find_function<'p>(program: &'p Program, name: &Reference) -> Option<&'p Function>
    requires { IsWellFormed program.now }
    ensures value { option_copied result ≡ function_named program.now.functions name.now }
    ensures well_formed { IfSome result (λ function. IsWellFormedFunction program.now function.now) }
{
    program.function(name)
}

fn find_block<'p>(program: &Program, function: &'p Function, label: &Reference) -> Option<&'p Block>
    requires { IsWellFormedFunction program.now function.now }
    ensures value { option_copied result ≡ block_labelled function.now.blocks label.now }
    ensures well_formed { IfSome result (λ block. IsWellFormedBlock program.now function.now block.now) }
{
    let _ = program;
    function.block(label)
}

fn next_at<'p>(
    program: &Program,
    function: &'p Function,
    block: &'p Block,
    operation: usize,
) -> Option<Next<'p>>
    requires function { IsWellFormedFunction program.now function.now }
    requires block { IsWellFormedBlock program.now function.now block.now }
    ensures value { option_map meaning_of result ≡ next_in function.now block.now operation }
    ensures room { IfSome result (λ next. HasRoom next operation) }
    ensures well_formed { IfSome result (IsWellFormedNext program.now) }
{
    let _ = program;
    let operations = block.operations.as_slice();
    if operation < operations.len() {
        Some(Next::Operation(function, &operations[operation].op))
    } else if operation == operations.len() {
        Some(Next::Ending(function, &block.end))
    } else {
        None
    }
}
