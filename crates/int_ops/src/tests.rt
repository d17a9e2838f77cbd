//! The results of each cell on edge numbers, against those of gcc's programs.
ghost use Rattle.std.specs.Prelude.{IsTrue, ◌↔◌};
ghost use Rattle.layouts.specs.IntType.{IsInRange};

mod gcc_results;

use crate::{OpUb, apply, convert, convert_to_bool, result_type, table};
use gcc_results::{INT, LONG, SCHAR, SHORT, UCHAR, UINT, ULONG, USHORT};
use layouts::{IntType, Operator, int_range, size_of_int};
use std::alloc::{AllocError, Global};
use std::process::Abort;
use std::test::Fail;

const UNARY: [(Operator, &str); 2] = [(Operator::Neg, "neg"), (Operator::Compl, "compl")];

const BINARY: [(Operator, &str); 16] = [
    (Operator::Add, "add"),
    (Operator::Sub, "sub"),
    (Operator::Mul, "mul"),
    (Operator::Div, "div"),
    (Operator::Rem, "rem"),
    (Operator::Shl, "shl"),
    (Operator::Shr, "shr"),
    (Operator::And, "and"),
    (Operator::Or, "or"),
    (Operator::Xor, "xor"),
    (Operator::Eq, "eq"),
    (Operator::Ne, "ne"),
    (Operator::Lt, "lt"),
    (Operator::Le, "le"),
    (Operator::Gt, "gt"),
    (Operator::Ge, "ge"),
];

const CONVERTED: [[i128; 6]; 3] = [
    [-0x8000_0000_0000_0000, -0x8000_0001, -32769, -129, -1, 0],
    [1, 127, 128, 200, 255, 256],
    [
        32768,
        65535,
        65536,
        0x8000_0000,
        0x1_0000_0005,
        0x7fff_ffff_ffff_ffff,
    ],
];

fn in_range(t: IntType, n: i128) -> bool
    ensures { IsTrue result ↔ IsInRange t n }
{
    let (least, greatest) = int_range(t);
    least <= n && n <= greatest
}

/// The least number, -1, 0, 1, the greatest, the width less 1 and the width, of a type without sign from 0 on.
fn edges(alloc: Global, t: IntType) -> Result<Vec<i128>, AllocError> {
    let (least, greatest) = int_range(t);
    let width = 8 * i128::from(size_of_int(t));
    let mut edges = Vec::new(alloc);
    if least < 0 {
        edges.push(least)?;
        edges.push(-1)?;
    }
    for n in [0, 1, greatest, width - 1, width] {
        edges.push(n)?;
    }
    Ok(edges)
}

/// Writes the result, or the letter of the refusal.
fn write_cell(
    text: &mut String,
    operator: Operator,
    t: IntType,
    a: i128,
    b: i128,
) -> Result<(), Fail> {
    if !in_range(t, a) || !in_range(t, b) {
        return Ok(());
    }
    match apply(operator, t, a, b) {
        Ok(n) => write!(text, " {n}")?,
        Err(OpUb::Overflow) => text.push_str(" O")?,
        Err(OpUb::ZeroDivisor) => text.push_str(" Z")?,
        Err(OpUb::LeastByMinusOne) => text.push_str(" M")?,
        Err(OpUb::ShiftRange) => text.push_str(" S")?,
    }
    Ok(())
}

/// The lines of the type, as the file of gcc's results has them.
fn results(alloc: Global, t: IntType) -> Result<String, Fail> {
    let edges = edges(alloc, t)?;
    let mut text = String::new(alloc);
    for (operator, name) in UNARY {
        text.push_str(name)?;
        for a in &edges {
            write_cell(&mut text, operator, t, *a, 0)?;
        }
        text.push('\n')?;
    }
    for (operator, name) in BINARY {
        for a in &edges {
            text.push_str(name)?;
            for b in &edges {
                write_cell(&mut text, operator, t, *a, *b)?;
            }
            text.push('\n')?;
        }
    }
    for line in CONVERTED {
        text.push_str("convert")?;
        for n in line {
            write!(text, " {}", convert(t, n))?;
        }
        text.push('\n')?;
    }
    Ok(text)
}

fn compare(rt: &impl Abort, alloc: Global, t: IntType, gcc: &str) -> Result<(), Fail> {
    let text = results(alloc, t)?;
    assert_eq!(rt; text.as_str(), gcc);
    Ok(())
}

#[test]
fn edge_operands_as_gcc(rt: HostRuntime) -> Result<(), Fail> {
    let alloc = rt.alloc();
    compare(&rt, alloc, IntType::Char, SCHAR)?;
    compare(&rt, alloc, IntType::SChar, SCHAR)?;
    compare(&rt, alloc, IntType::UChar, UCHAR)?;
    compare(&rt, alloc, IntType::Short, SHORT)?;
    compare(&rt, alloc, IntType::UShort, USHORT)?;
    compare(&rt, alloc, IntType::Int, INT)?;
    compare(&rt, alloc, IntType::UInt, UINT)?;
    compare(&rt, alloc, IntType::Long, LONG)?;
    compare(&rt, alloc, IntType::ULong, ULONG)?;
    compare(&rt, alloc, IntType::LLong, LONG)?;
    compare(&rt, alloc, IntType::ULLong, ULONG)
}

#[test]
fn results_of_single_cells(rt: HostRuntime) {
    assert_eq!(rt; apply(Operator::Add, IntType::UChar, 255, 1), Ok(0));
    assert_eq!(rt;
        apply(Operator::Add, IntType::Int, 2147483647, 1),
        Err(OpUb::Overflow)
    );
    assert_eq!(rt;
        apply(Operator::Div, IntType::Int, -2147483648, -1),
        Err(OpUb::LeastByMinusOne)
    );
    assert_eq!(rt; apply(Operator::Div, IntType::Int, -7, 2), Ok(-3));
    assert_eq!(rt;
        apply(Operator::Shl, IntType::UInt, 1, 32),
        Err(OpUb::ShiftRange)
    );
    assert_eq!(rt;
        apply(Operator::Shl, IntType::Int, -1, 40),
        Err(OpUb::Overflow)
    );
    assert_eq!(rt; convert(IntType::SChar, 200), -56);
    assert!(rt; convert_to_bool(256));
    assert!(rt; !convert_to_bool(0));
    assert_eq!(rt; result_type(Operator::Lt, IntType::ULong), IntType::Int);
    assert_eq!(rt; result_type(Operator::Sub, IntType::ULong), IntType::ULong);
    let cells = table::<198>();
    let cell = cells[10];
    assert_eq!(rt;
        (cell.operator, cell.operands),
        (Operator::Neg, IntType::ULLong)
    );
    assert_eq!(rt; cell.apply(1, 0), Ok(18446744073709551615));
}
