//! Calls and returns: a function that calls itself, to a depth of 10,000.

ghost use Rattle.std.specs.Prelude.{◌≡◌, ◌<◌, ◌^◌, [], ◌∷◌, IfOk};
ghost use Rattle.caesium_ir.specs.WellFormed.{IsWellFormed};
ghost use Rattle.thread_steps.specs.TestPrograms.{placed as placed_op, block_of, function_of};
ghost use Rattle.thread_steps.specs.TestPrograms.{test_block as the_test, call_block as the_call};
ghost use Rattle.thread_steps.specs.TestPrograms.{last_block as the_last};
ghost use Rattle.thread_steps.specs.TestPrograms.{down as the_down, main as the_main};

use super::{expect_finished, step_at, threads_of};
use crate::*;
use caesium_ir::{BinaryOperator, Block, End, Function, Local, Op, PlacedOp, Program, Reference};
use layouts::{IntType, Layout, Table};
use rc_text::{Bytes, NoMemory, Place};
use sqlite_items::Items;
use std::alloc::Global;
use std::process::Abort;
use std::test::Fail;

fn placed(op: Op) -> PlacedOp
    ensures { result ≡ placed_op op }
{
    PlacedOp {
        op,
        place: Place::START,
    }
}

fn block(
    alloc: Global,
    label: &[u8],
    operations: Vec<PlacedOp>,
    end: End,
) -> Result<Block, NoMemory>
    ensures { IfOk result (λ block. block ≡ block_of label.now operations.items end) }
{
    Ok(Block {
        label: Bytes::from_slice(alloc, label)?,
        operations: Items::from_vec(operations),
        end,
        end_place: Place::START,
    })
}

fn function(
    alloc: Global,
    name: &[u8],
    parameters: Items<Local>,
    blocks: Vec<Block>,
) -> Result<Function, NoMemory>
    ensures { IfOk result (λ function. function ≡ function_of name.now parameters blocks.items) }
{
    Ok(Function {
        name: Bytes::from_slice(alloc, name)?,
        result: Some(Layout::Int(IntType::Int)),
        parameters,
        locals: Items::new(alloc),
        blocks: Items::from_vec(blocks),
        place: Place::START,
    })
}

const INT: Layout = Layout::Int(IntType::Int);

fn test_block(alloc: Global) -> Result<Block, NoMemory>
    ensures { IfOk result (λ block. block ≡ the_test) }
{
    let operations = [
        placed(Op::Local { number: 0 }),
        placed(Op::Load { layout: INT }),
    ];
    let end = End::If {
        nonzero: Reference::new(alloc, b".0", 1)?,
        zero: Reference::new(alloc, b".1", 2)?,
    };
    block(alloc, b".", Vec::from_array(alloc, operations)?, end)
}

fn call_block(alloc: Global) -> Result<Block, NoMemory>
    ensures { IfOk result (λ block. block ≡ the_call) }
{
    let operations = [
        placed(Op::Local { number: 0 }),
        placed(Op::Load { layout: INT }),
        placed(Op::Const {
            of: IntType::Int,
            value: 1,
        }),
        placed(Op::Binary {
            operator: BinaryOperator::Sub,
            of: IntType::Int,
        }),
        placed(Op::Call {
            function: Reference::new(alloc, b"down", 1)?,
            arguments: 1,
        }),
    ];
    block(
        alloc,
        b".0",
        Vec::from_array(alloc, operations)?,
        End::Return,
    )
}

fn last_block(alloc: Global) -> Result<Block, NoMemory>
    ensures { IfOk result (λ block. block ≡ the_last) }
{
    let operations = [placed(Op::Const {
        of: IntType::Int,
        value: 0,
    })];
    block(
        alloc,
        b".1",
        Vec::from_array(alloc, operations)?,
        End::Return,
    )
}

fn down(alloc: Global) -> Result<Function, NoMemory>
    ensures { IfOk result (λ function. function ≡ the_down) }
{
    let mut parameters = Items::new(alloc);
    parameters.push(Local {
        name: Bytes::from_slice(alloc, b"n")?,
        layout: INT,
    })?;
    let blocks = [test_block(alloc)?, call_block(alloc)?, last_block(alloc)?];
    function(alloc, b"down", parameters, Vec::from_array(alloc, blocks)?)
}

fn main(alloc: Global, depth: u32) -> Result<Function, NoMemory>
    ensures { IfOk result (λ function. function ≡ the_main depth) }
{
    let operations = [
        placed(Op::Const {
            of: IntType::Int,
            value: i128::from(depth),
        }),
        placed(Op::Call {
            function: Reference::new(alloc, b"down", 1)?,
            arguments: 1,
        }),
    ];
    let blocks = [block(
        alloc,
        b".",
        Vec::from_array(alloc, operations)?,
        End::Return,
    )?];
    function(
        alloc,
        b"main",
        Items::new(alloc),
        Vec::from_array(alloc, blocks)?,
    )
}

fn down_program(alloc: Global, depth: u32) -> Result<Program, NoMemory>
    requires { depth < 2 ^ 31 }
    ensures { IfOk result (λ program. IsWellFormed program) }
{
    let functions = [main(alloc, depth)?, down(alloc)?];
    Ok(Program {
        table: Table::new(alloc),
        functions: Items::from_vec(Vec::from_array(alloc, functions)?),
    })
}

/// `main` takes 2 steps to its call. Each call takes 3 steps to its branch, and all but the last 5 more to the next
/// call; the last one takes 1 more, and then each of them and `main` returns by one.
#[test]
fn recursion(rt: HostRuntime) -> Result<(), Fail> {
    let alloc = rt.alloc();
    let program = down_program(alloc, 10_000)?;
    let mut config = threads_of(alloc, &[b"main"])?;
    for _step in 0..2 + 10_000 * (3 + 5) + (3 + 1) + 10_001 + 1 {
        let answer = step_at(&rt, alloc, &mut config, 0, &program)?;
        assert_eq!(rt; answer, Stepped::Stepped);
    }
    let answer = step_at(&rt, alloc, &mut config, 0, &program)?;
    assert_eq!(rt; answer, Stepped::Finished);
    expect_finished(&rt, config.threads().get(0).ok_or("no thread")?, 0)?;
    assert_eq!(rt; config.memory().len(), 10_001);
    Ok(())
}
