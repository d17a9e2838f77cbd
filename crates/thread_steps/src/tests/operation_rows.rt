//! Each operation on operands of its own. Expected numbers are those of gcc on x86-64.

ghost use Rattle.std.specs.Prelude.{[]};
ghost use Rattle.caesium_ir.specs.WellFormed.{IsOfTable};

use crate::*;
use byte_memory::{Memory, Value};
use caesium_ir::{BinaryOperator, Op, Scalar};
use int_ops::OpUb;
use layouts::{IntType, Table};
use rc_terms::Loc;
use rc_text::NoMemory;
use std::alloc::Global;
use std::process::Abort;
use std::test::Fail;

/// The operation on these operands gives this value.
pub(super) fn expect_value(
    rt: &impl Abort,
    alloc: Global,
    memory: &mut Memory,
    op: &Op,
    operands: &[Value],
    expected: &Value,
) -> Result<(), Fail>
    requires { IsOfTable [] op.now }
{
    match operate(alloc, &Table::new(alloc), op, operands, memory) {
        Ok(Some(value)) => assert!(rt; value.as_slice() == expected.as_slice()),
        _ => return Err("no value".into()),
    }
    Ok(())
}

/// The operation on these operands is undefined in this way.
pub(super) fn expect_undefined(
    rt: &impl Abort,
    alloc: Global,
    memory: &mut Memory,
    op: &Op,
    operands: &[Value],
    expected: Ub,
) -> Result<(), Fail>
    requires { IsOfTable [] op.now }
{
    match operate(alloc, &Table::new(alloc), op, operands, memory) {
        Err(stop) => assert_eq!(rt; stop, Stop::Undefined(expected)),
        Ok(_) => return Err("defined".into()),
    }
    Ok(())
}

/// The pair of numbers of the type.
fn pair(alloc: Global, t: IntType, a: i128, b: i128) -> Result<Vec<Value>, NoMemory> {
    let mut operands = Vec::new(alloc);
    operands.push(Value::of_int(alloc, t, a)?)?;
    operands.push(Value::of_int(alloc, t, b)?)?;
    Ok(operands)
}

/// An operator on two numbers of the type gives a number of another.
fn expect_number(
    rt: &impl Abort,
    alloc: Global,
    operator: BinaryOperator,
    t: IntType,
    a: i128,
    b: i128,
    expected: (IntType, i128),
) -> Result<(), Fail> {
    let op = Op::Binary { operator, of: t };
    let operands = pair(alloc, t, a, b)?;
    let expected = Value::of_int(alloc, expected.0, expected.1)?;
    expect_value(
        rt,
        alloc,
        &mut Memory::new(alloc),
        &op,
        &operands,
        &expected,
    )
}

#[test]
fn operators(rt: HostRuntime) -> Result<(), Fail> {
    let int = IntType::Int;
    let rows = [
        (
            BinaryOperator::Add,
            IntType::UChar,
            255,
            1,
            (IntType::UChar, 0),
        ),
        (BinaryOperator::Sub, int, 3, 5, (int, -2)),
        (BinaryOperator::Mul, int, -3, 5, (int, -15)),
        (BinaryOperator::Div, int, -7, 2, (int, -3)),
        (BinaryOperator::Rem, int, -7, 2, (int, -1)),
        (BinaryOperator::And, int, 12, 10, (int, 8)),
        (BinaryOperator::Or, int, 12, 10, (int, 14)),
        (BinaryOperator::Xor, int, 12, 10, (int, 6)),
        (BinaryOperator::Eq, IntType::Long, 2, 2, (int, 1)),
        (BinaryOperator::Ne, IntType::Long, 2, 2, (int, 0)),
        (BinaryOperator::Lt, IntType::UInt, 1, 4294967295, (int, 1)),
        (BinaryOperator::Le, int, 1, -1, (int, 0)),
        (BinaryOperator::Gt, int, 1, -1, (int, 1)),
        (BinaryOperator::Ge, int, -1, -1, (int, 1)),
    ];
    for (operator, t, a, b, result) in rows {
        expect_number(&rt, rt.alloc(), operator, t, a, b, result)?;
    }
    Ok(())
}

/// An operator on two numbers of the type is undefined in this way.
fn expect_no_number(
    rt: &impl Abort,
    alloc: Global,
    operator: BinaryOperator,
    a: i128,
    b: i128,
    ub: OpUb,
) -> Result<(), Fail> {
    let op = Op::Binary {
        operator,
        of: IntType::Int,
    };
    let operands = pair(alloc, IntType::Int, a, b)?;
    expect_undefined(
        rt,
        alloc,
        &mut Memory::new(alloc),
        &op,
        &operands,
        Ub::Arithmetic(ub),
    )
}

#[test]
fn undefined_operators(rt: HostRuntime) -> Result<(), Fail> {
    let rows = [
        (BinaryOperator::Add, 2147483647, 1, OpUb::Overflow),
        (BinaryOperator::Sub, -2147483648, 1, OpUb::Overflow),
        (BinaryOperator::Mul, 65536, 65536, OpUb::Overflow),
        (BinaryOperator::Div, 1, 0, OpUb::ZeroDivisor),
        (BinaryOperator::Rem, 1, 0, OpUb::ZeroDivisor),
        (BinaryOperator::Div, -2147483648, -1, OpUb::LeastByMinusOne),
        (BinaryOperator::Rem, -2147483648, -1, OpUb::LeastByMinusOne),
    ];
    for (operator, a, b, ub) in rows {
        expect_no_number(&rt, rt.alloc(), operator, a, b, ub)?;
    }
    Ok(())
}

/// A missing operand, one of another length, and one with a byte of poison.
#[test]
fn operands_that_are_no_numbers(rt: HostRuntime) -> Result<(), Fail> {
    let alloc = rt.alloc();
    let op = Op::Binary {
        operator: BinaryOperator::Div,
        of: IntType::Int,
    };
    let mut memory = Memory::new(alloc);
    expect_undefined(&rt, alloc, &mut memory, &op, &[], Ub::PoisonUsed)?;
    let mut poisoned = Vec::new(alloc);
    poisoned.push(Value::poison(alloc, 4)?)?;
    poisoned.push(int(alloc, 0)?)?;
    expect_undefined(&rt, alloc, &mut memory, &op, &poisoned, Ub::PoisonUsed)?;
    let long = pair(alloc, IntType::Long, 1, 0)?;
    expect_undefined(&rt, alloc, &mut memory, &op, &long, Ub::PoisonUsed)
}

fn expect_shift(
    rt: &impl Abort,
    alloc: Global,
    op: Op,
    a: i128,
    amount: i128,
    shifted: i128,
) -> Result<(), Fail>
    requires { IsOfTable [] op }
{
    let operands = pair(alloc, IntType::Int, a, amount)?;
    let expected = Value::of_int(alloc, IntType::Int, shifted)?;
    expect_value(
        rt,
        alloc,
        &mut Memory::new(alloc),
        &op,
        &operands,
        &expected,
    )
}

fn expect_no_shift(
    rt: &impl Abort,
    alloc: Global,
    op: Op,
    a: i128,
    amount: i128,
    ub: OpUb,
) -> Result<(), Fail>
    requires { IsOfTable [] op }
{
    let operands = pair(alloc, IntType::Int, a, amount)?;
    expect_undefined(
        rt,
        alloc,
        &mut Memory::new(alloc),
        &op,
        &operands,
        Ub::Arithmetic(ub),
    )
}

fn shl() -> Op
    ensures { IsOfTable [] result }
{
    Op::Shl {
        of: IntType::Int,
        amount: IntType::Int,
    }
}

fn shr() -> Op
    ensures { IsOfTable [] result }
{
    Op::Shr {
        of: IntType::Int,
        amount: IntType::Int,
    }
}

#[test]
fn shifts(rt: HostRuntime) -> Result<(), Fail> {
    let alloc = rt.alloc();
    expect_shift(&rt, alloc, shl(), 3, 4, 48)?;
    expect_shift(&rt, alloc, shr(), -7, 1, -4)?;
    expect_no_shift(&rt, alloc, shl(), -1, 0, OpUb::Overflow)?;
    expect_no_shift(&rt, alloc, shl(), 1, 31, OpUb::Overflow)?;
    expect_no_shift(&rt, alloc, shl(), 0, 32, OpUb::ShiftRange)?;
    expect_no_shift(&rt, alloc, shr(), 1, -1, OpUb::ShiftRange)
}

/// An operation on one operand.
fn expect_one(
    rt: &impl Abort,
    alloc: Global,
    op: Op,
    operand: Value,
    expected: Value,
) -> Result<(), Fail>
    requires { IsOfTable [] op }
{
    let mut operands = Vec::new(alloc);
    operands.push(operand)?;
    expect_value(
        rt,
        alloc,
        &mut Memory::new(alloc),
        &op,
        &operands,
        &expected,
    )
}

fn expect_no_one(rt: &impl Abort, alloc: Global, op: Op, operand: Value, ub: Ub) -> Result<(), Fail>
    requires { IsOfTable [] op }
{
    let mut operands = Vec::new(alloc);
    operands.push(operand)?;
    expect_undefined(rt, alloc, &mut Memory::new(alloc), &op, &operands, ub)
}

fn int(alloc: Global, n: i128) -> Result<Value, NoMemory> {
    Value::of_int(alloc, IntType::Int, n)
}

#[test]
fn operators_on_one_number(rt: HostRuntime) -> Result<(), Fail> {
    let alloc = rt.alloc();
    let overflow = Ub::Arithmetic(OpUb::Overflow);
    expect_one(
        &rt,
        alloc,
        Op::Neg { of: IntType::Int },
        int(alloc, 5)?,
        int(alloc, -5)?,
    )?;
    expect_one(
        &rt,
        alloc,
        Op::Compl { of: IntType::Int },
        int(alloc, 0)?,
        int(alloc, -1)?,
    )?;
    expect_no_one(
        &rt,
        alloc,
        Op::Neg { of: IntType::Int },
        int(alloc, -2147483648)?,
        overflow,
    )?;
    expect_no_one(
        &rt,
        alloc,
        Op::Compl { of: IntType::Int },
        Value::poison(alloc, 4)?,
        Ub::PoisonUsed,
    )
}

fn cast(from: Scalar, to: Scalar) -> Op
    ensures { IsOfTable [] result }
{
    Op::Cast { from, to }
}

#[test]
fn casts(rt: HostRuntime) -> Result<(), Fail> {
    let alloc = rt.alloc();
    let to_int = cast(Scalar::Bool, Scalar::Int(IntType::Int));
    let to_bool = cast(Scalar::Int(IntType::Int), Scalar::Bool);
    let narrow = cast(Scalar::Int(IntType::Int), Scalar::Int(IntType::SChar));
    let least = Value::of_int(alloc, IntType::SChar, -56)?;
    expect_one(&rt, alloc, narrow, int(alloc, 200)?, least)?;
    expect_one(
        &rt,
        alloc,
        to_bool,
        int(alloc, 256)?,
        Value::of_bool(alloc, true)?,
    )?;
    let two = Value::of_int(alloc, IntType::UChar, 2)?;
    expect_no_one(&rt, alloc, to_int, two, Ub::BadBool)?;
    let from_bool = cast(Scalar::Bool, Scalar::Int(IntType::Int));
    expect_one(
        &rt,
        alloc,
        from_bool,
        Value::of_bool(alloc, true)?,
        int(alloc, 1)?,
    )?;
    let from_poison = cast(Scalar::Bool, Scalar::Bool);
    expect_no_one(
        &rt,
        alloc,
        from_poison,
        Value::poison(alloc, 1)?,
        Ub::PoisonUsed,
    )
}

#[test]
fn constants(rt: HostRuntime) -> Result<(), Fail> {
    let alloc = rt.alloc();
    let mut memory = Memory::new(alloc);
    let seven = Op::Const {
        of: IntType::Int,
        value: 7,
    };
    expect_value(&rt, alloc, &mut memory, &seven, &[], &int(alloc, 7)?)?;
    let yes = Op::ConstBool { value: true };
    expect_value(
        &rt,
        alloc,
        &mut memory,
        &yes,
        &[],
        &Value::of_bool(alloc, true)?,
    )?;
    let null = Value::of_pointer(alloc, Loc::Null)?;
    expect_value(&rt, alloc, &mut memory, &Op::Null, &[], &null)?;
    let poison = Op::Poison { size: 3 };
    expect_value(
        &rt,
        alloc,
        &mut memory,
        &poison,
        &[],
        &Value::poison(alloc, 3)?,
    )?;
    assert!(rt; memory.is_empty());
    Ok(())
}
