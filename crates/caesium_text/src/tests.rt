ghost use Rattle.std.specs.Prelude.{codes, IsSome};
ghost use Rattle.caesium_ir.specs.WellFormed.{IsWellFormed};
ghost use Rattle.caesium_text.specs.Parts.{part_text};

use crate::{print, print_op};
use caesium_ir::{
    BinaryOperator, Block, Case, End, Function, LiteralPlaces, Local, Op, PlacedOp, Program,
    Reference, Scalar, one_literal,
};
use layouts::{Declaration, IntType, Kind, Layout, Table};
use rc_text::{Bytes, NoMemory, Place};
use sqlite_items::Items;
use std::alloc::Global;
use std::process::Abort;
use std::test::Fail;

const PLACE: Place = Place {
    byte: 4,
    line: 1,
    column: 5,
};

const PLACES: LiteralPlaces = LiteralPlaces {
    name: PLACE,
    body: PLACE,
    return_: PLACE,
    literal: PLACE,
};

fn expect_part(
    rt: &impl Abort,
    alloc: Global,
    program: &Program,
    label: &[u8],
    operation: u32,
    text: &[u8],
) -> Result<(), Fail>
    requires well_formed { IsWellFormed program.now }
    requires has { IsSome (part_text program.now (codes "f") label.now operation) }
{
    let function = Reference::new(alloc, b"f", 0)?;
    let label = Reference::new(alloc, label, 0)?;
    let part = print_op(alloc, program, &function, &label, operation)?;
    assert!(rt; part.as_slice() == text);
    Ok(())
}

#[test]
fn parts_of_a_literal(rt: HostRuntime) -> Result<(), Fail> {
    let alloc = rt.alloc();
    let program = one_literal(alloc, b"f", 7, PLACES)?;
    expect_part(&rt, alloc, &program, b".", 0, b"goto .0")?;
    expect_part(&rt, alloc, &program, b".0", 0, b"const int 7")?;
    expect_part(&rt, alloc, &program, b".0", 1, b"return")?;
    expect_part(&rt, alloc, &program, b".end", 0, b"const poison 4")?;
    Ok(())
}

#[test]
fn a_function_that_returns_seven(rt: HostRuntime) -> Result<(), Fail> {
    let alloc = rt.alloc();
    let program = one_literal(alloc, b"f", 7, PLACES)?;
    let text = print(alloc, &program)?;
    assert!(rt; text.as_slice() == SEVEN_TEXT);
    Ok(())
}

fn local(alloc: Global, name: &[u8], layout: Layout) -> Result<Local, NoMemory> {
    Ok(Local {
        name: Bytes::from_slice(alloc, name)?,
        layout,
    })
}

fn placed(op: Op) -> PlacedOp {
    PlacedOp { op, place: PLACE }
}

/// A struct of a char and a pointer, a union of it and an array of three ints, and an array of the union's size.
fn table(alloc: Global) -> Result<Table, Fail> {
    let mut table = Table::new(alloc);
    table.add(Declaration {
        kind: Kind::Struct,
        name: Bytes::from_slice(alloc, b"pair")?,
        members: Items::from_slice(alloc, &[Layout::Int(IntType::Char), Layout::Ptr])?,
    })?;
    let members = [Layout::Struct(0), Layout::Bytes { size: 12, align: 4 }];
    if table.has_all(&members) {
        table.add(Declaration {
            kind: Kind::Union,
            name: Bytes::from_slice(alloc, b"either")?,
            members: Items::from_slice(alloc, &members)?,
        })?;
    }
    Ok(table)
}

fn memory_operations(alloc: Global) -> Result<Items<PlacedOp>, Fail> {
    let operations = [
        placed(Op::Local { number: 0 }),
        placed(Op::Load {
            layout: Layout::Ptr,
        }),
        placed(Op::Field { of: 0, member: 1 }),
        placed(Op::Local { number: 2 }),
        placed(Op::Index {
            size: 16,
            of: IntType::ULong,
        }),
        placed(Op::Store {
            layout: Layout::Struct(0),
        }),
        placed(Op::Load {
            layout: Layout::Union(1),
        }),
        placed(Op::Store {
            layout: Layout::Bytes { size: 12, align: 4 },
        }),
        placed(Op::LoadAtomic),
        placed(Op::StoreAtomic),
        placed(Op::PtrEq),
        placed(Op::PtrNe),
        placed(Op::Cas),
        placed(Op::Exchange),
    ];
    Ok(Items::from_vec(Vec::from_array(alloc, operations)?))
}

fn number_operations(alloc: Global) -> Result<Items<PlacedOp>, Fail> {
    let operations = [
        placed(Op::Const {
            of: IntType::SChar,
            value: -128,
        }),
        placed(Op::ConstBool { value: true }),
        placed(Op::ConstBool { value: false }),
        placed(Op::Null),
        placed(Op::Poison { size: 24 }),
        placed(Op::Neg { of: IntType::Long }),
        placed(Op::Compl { of: IntType::UInt }),
        placed(Op::Binary {
            operator: BinaryOperator::Le,
            of: IntType::LLong,
        }),
        placed(Op::Shl {
            of: IntType::UShort,
            amount: IntType::Int,
        }),
        placed(Op::Shr {
            of: IntType::ULLong,
            amount: IntType::UChar,
        }),
        placed(Op::Cast {
            from: Scalar::Bool,
            to: Scalar::Int(IntType::Short),
        }),
        placed(Op::Call {
            function: Reference::new(alloc, b"g", 1)?,
            arguments: 0,
        }),
        placed(Op::Fork {
            function: Reference::new(alloc, b"g", 1)?,
            arguments: 0,
        }),
        placed(Op::Drop),
    ];
    Ok(Items::from_vec(Vec::from_array(alloc, operations)?))
}

fn switch(alloc: Global) -> Result<End, Fail> {
    let cases = [
        Case {
            value: -1,
            label: Reference::new(alloc, b".0", 1)?,
        },
        Case {
            value: 20,
            label: Reference::new(alloc, b".", 0)?,
        },
    ];
    Ok(End::Switch {
        of: IntType::Int,
        cases: Items::from_vec(Vec::from_array(alloc, cases)?),
        otherwise: Reference::new(alloc, b".end", 2)?,
    })
}

fn blocks(alloc: Global) -> Result<Items<Block>, Fail> {
    let blocks = [
        Block {
            label: Bytes::from_slice(alloc, b".")?,
            operations: memory_operations(alloc)?,
            end: End::If {
                nonzero: Reference::new(alloc, b".0", 1)?,
                zero: Reference::new(alloc, b".end", 2)?,
            },
            end_place: PLACE,
        },
        Block {
            label: Bytes::from_slice(alloc, b".0")?,
            operations: number_operations(alloc)?,
            end: switch(alloc)?,
            end_place: PLACE,
        },
        Block {
            label: Bytes::from_slice(alloc, b".end")?,
            operations: Items::new(alloc),
            end: End::Return,
            end_place: PLACE,
        },
    ];
    Ok(Items::from_vec(Vec::from_array(alloc, blocks)?))
}

fn every_kind(alloc: Global) -> Result<Function, Fail> {
    let parameters = [
        local(alloc, b"p", Layout::Ptr)?,
        local(alloc, b"flag", Layout::Bool)?,
    ];
    let locals = [
        local(alloc, b"x", Layout::Union(1))?,
        local(alloc, b"x#1", Layout::Bytes { size: 8, align: 1 })?,
    ];
    Ok(Function {
        name: Bytes::from_slice(alloc, b"every_kind")?,
        result: None,
        parameters: Items::from_vec(Vec::from_array(alloc, parameters)?),
        locals: Items::from_vec(Vec::from_array(alloc, locals)?),
        blocks: blocks(alloc)?,
        place: PLACE,
    })
}

fn empty(alloc: Global) -> Result<Function, Fail> {
    Ok(Function {
        name: Bytes::from_slice(alloc, b"g")?,
        result: Some(Layout::Struct(0)),
        parameters: Items::new(alloc),
        locals: Items::new(alloc),
        blocks: Items::new(alloc),
        place: PLACE,
    })
}

const SEVEN_TEXT: &[u8] = b"fn f() -> int
.:
  goto .0
.0:
  const int 7
  return
.end:
  const poison 4
  return
";

const TABLE_TEXT: &[u8] = b"struct pair 16 8: 0 char, 8 ptr
union either 16 8: struct pair, bytes 12 4
";

const MEMORY_TEXT: &[u8] = b"fn every_kind(p ptr, flag bool) -> void
local x union either
local x#1 bytes 8 1
.:
  local p
  load ptr
  field pair.1
  local x
  index 16 ulong
  store struct pair
  load union either
  store bytes 12 4
  load atomic bool
  store atomic bool
  ptr_eq
  ptr_ne
  cas
  exchange
  if .0 .end
";

const NUMBER_TEXT: &[u8] = b".0:
  const schar -128
  const bool 1
  const bool 0
  const null
  const poison 24
  neg long
  compl uint
  le llong
  shl ushort int
  shr ullong uchar
  cast bool short
  call g
  fork g
  drop
  switch int -1:.0 20:. else .end
.end:
  return
fn g() -> struct pair
";

#[test]
fn every_kind_of_line(rt: HostRuntime) -> Result<(), Fail> {
    let alloc = rt.alloc();
    let functions = [every_kind(alloc)?, empty(alloc)?];
    let program = Program {
        table: table(alloc)?,
        functions: Items::from_vec(Vec::from_array(alloc, functions)?),
    };
    let text = print(alloc, &program)?;
    let mut expected = Bytes::from_slice(alloc, TABLE_TEXT)?;
    expected.append(MEMORY_TEXT)?;
    expected.append(NUMBER_TEXT)?;
    assert!(rt; text.as_slice() == expected.as_slice());
    Ok(())
}
