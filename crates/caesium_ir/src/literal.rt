ghost use Rattle.std.specs.Prelude.{◌≡◌, ◌<◌, ◌^◌, IfOk};
ghost use Rattle.caesium_ir.specs.Literal.{entry_block, literal_block, ending_block, literal_function, literal_program};
ghost use Rattle.caesium_ir.specs.WellFormed.{IsWellFormed, HasEntries};

use crate::block::{Block, End};
use crate::function::Function;
use crate::literal_places::LiteralPlaces;
use crate::operation::{Op, PlacedOp};
use crate::program::Program;
use crate::reference::Reference;
use layouts::{IntType, Layout, Table};
use rc_text::{Bytes, NoMemory, Place};
use sqlite_items::Items;
use std::alloc::Global;

/// The program of a file whose one function returns one literal.
pub fn one_literal(
    alloc: Global,
    name: &[u8],
    literal: u32,
    places: LiteralPlaces,
) -> Result<Program, NoMemory>
    requires { literal < 2 ^ 31 }
    ensures exact { IfOk result (λ program. program ≡ literal_program name.now literal places) }
    ensures well_formed { IfOk result (λ program. IsWellFormed program) }
    ensures entries { IfOk result (λ program. HasEntries program) }
{
    let mut functions = Items::new(alloc);
    functions.push(new_function(alloc, name, literal, places)?)?;
    Ok(Program {
        table: Table::new(alloc),
        functions,
    })
}

fn new_function(
    alloc: Global,
    name: &[u8],
    literal: u32,
    places: LiteralPlaces,
) -> Result<Function, NoMemory>
    ensures { IfOk result (λ function. function ≡ literal_function name.now literal places) }
{
    let mut blocks = Items::new(alloc);
    blocks.push(new_entry(alloc, places.body)?)?;
    blocks.push(new_body(alloc, literal, places.literal, places.return_)?)?;
    blocks.push(new_ending(alloc, places.body)?)?;
    Ok(Function {
        name: Bytes::from_slice(alloc, name)?,
        result: Some(Layout::Int(IntType::Int)),
        parameters: Items::new(alloc),
        locals: Items::new(alloc),
        blocks,
        place: places.name,
    })
}

fn new_entry(alloc: Global, body: Place) -> Result<Block, NoMemory>
    ensures { IfOk result (λ block. block ≡ entry_block body) }
{
    Ok(Block {
        label: Bytes::from_slice(alloc, b".")?,
        operations: Items::new(alloc),
        end: End::Goto(Reference::new(alloc, b".0", 1)?),
        end_place: body,
    })
}

fn new_body(
    alloc: Global,
    literal: u32,
    literal_place: Place,
    return_place: Place,
) -> Result<Block, NoMemory>
    ensures { IfOk result (λ block. block ≡ literal_block literal literal_place return_place) }
{
    let mut operations = Items::new(alloc);
    operations.push(PlacedOp {
        op: Op::Const {
            of: IntType::Int,
            value: i128::from(literal),
        },
        place: literal_place,
    })?;
    Ok(Block {
        label: Bytes::from_slice(alloc, b".0")?,
        operations,
        end: End::Return,
        end_place: return_place,
    })
}

fn new_ending(alloc: Global, body: Place) -> Result<Block, NoMemory>
    ensures { IfOk result (λ block. block ≡ ending_block body) }
{
    let mut operations = Items::new(alloc);
    operations.push(PlacedOp {
        op: Op::Poison { size: 4 },
        place: body,
    })?;
    Ok(Block {
        label: Bytes::from_slice(alloc, b".end")?,
        operations,
        end: End::Return,
        end_place: body,
    })
}

#[cfg(test)]
mod tests {
    use super::*;
    use std::process::Abort;
    use std::test::Fail;

    const NAME: Place = Place {
        byte: 4,
        line: 1,
        column: 5,
    };

    const BODY: Place = Place {
        byte: 15,
        line: 1,
        column: 16,
    };

    const RETURN: Place = Place {
        byte: 19,
        line: 2,
        column: 3,
    };

    const LITERAL: Place = Place {
        byte: 26,
        line: 2,
        column: 10,
    };

    fn expect_block(rt: &impl Abort, block: &Block, label: &[u8], places: &[Place], end: Place) {
        assert!(rt; block.label.as_slice() == label);
        assert_eq!(rt; block.operations.len(), places.len());
        for (placed, place) in block.operations.as_slice().iter().zip(places) {
            assert_eq!(rt; placed.place, *place);
        }
        assert_eq!(rt; block.end_place, end);
    }

    fn expect_block_of(
        rt: &impl Abort,
        alloc: Global,
        program: &Program,
        label: &[u8],
        number: usize,
        expected: bool,
    ) -> Result<(), Fail>
        requires { IsWellFormed program.now }
    {
        let name = Reference::new(alloc, b"seven", number)?;
        let function = program.function(&name).ok_or("no function")?;
        let reference = Reference::new(alloc, label, number)?;
        let found = function.block(&reference);
        assert_eq!(rt; found.is_some(), expected);
        if let Some(block) = found {
            assert!(rt; block.label.as_slice() == label);
        }
        Ok(())
    }

    #[test]
    fn blocks_of_a_literal(rt: HostRuntime) -> Result<(), Fail> {
        let places = LiteralPlaces {
            name: NAME,
            body: BODY,
            return_: RETURN,
            literal: LITERAL,
        };
        let alloc = rt.alloc();
        let program = one_literal(alloc, b"seven", 7, places)?;
        assert_eq!(rt; program.functions.len(), 1);
        let eight = Reference::new(alloc, b"eight", 0)?;
        assert!(rt; program.function(&eight).is_none());
        let seven = Reference::new(alloc, b"seven", 0)?;
        let function = program.function(&seven).ok_or("no function")?;
        assert_eq!(rt; function.result, Some(Layout::Int(IntType::Int)));
        assert_eq!(rt; function.place, NAME);

        let blocks = function.blocks.as_slice();
        assert_eq!(rt; blocks.len(), 3);
        expect_block(&rt, &blocks[0], b".", &[], BODY);
        expect_block(&rt, &blocks[1], b".0", &[LITERAL], RETURN);
        expect_block(&rt, &blocks[2], b".end", &[BODY], BODY);
        assert!(rt; matches!(&blocks[1].end, End::Return));
        assert!(rt; matches!(&blocks[2].end, End::Return));
        for number in [0, 1, 2, 9] {
            expect_block_of(&rt, alloc, &program, b".end", number, true)?;
            expect_block_of(&rt, alloc, &program, b".1", number, false)?;
        }
        Ok(())
    }
}
