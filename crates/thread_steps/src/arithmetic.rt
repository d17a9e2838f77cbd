ghost use Rattle.std.specs.Prelude.{◌≡◌, ◌⊎◌, pos, IfOk};
ghost use Rattle.layouts.specs.IntType.{IsInRange};
ghost use Rattle.layouts.specs.declared.operator.Operator.TheVariants as operators;
ghost use Rattle.int_ops.specs.Arithmetic.{arithmetic, result_type as type_of_result, IsRightOperand};
ghost use Rattle.thread_steps.specs.Operands.{integer as integer_operand};
ghost use Rattle.thread_steps.specs.Operations.{unary as unary_result, binary as binary_result, cast as cast_result};
ghost use Rattle.thread_steps.specs.Operations.{scalar_value as value_of_scalar, converted as bytes_converted, encoded};
ghost use Rattle.thread_steps.specs.Gives.{Gives};

use crate::answer::{Stop, Ub};
use crate::operands::{boolean, integer};
use byte_memory::Value;
use caesium_ir::{BinaryOperator, Scalar};
use int_ops::{apply, convert, convert_to_bool, result_type};
use layouts::{IntType, Operator};
use rc_text::NoMemory;
use std::alloc::Global;

/// `neg T`
pub(crate) fn negated(alloc: Global, t: IntType, operand: &Value) -> Result<Value, Stop>
    ensures { Gives (unary_result operators.Neg t operand.now) result }
{
    let number = integer(t, operand)?;
    applied(alloc, Operator::Neg, t, number, 0)
}

/// `compl T`
pub(crate) fn complemented(alloc: Global, t: IntType, operand: &Value) -> Result<Value, Stop>
    ensures { Gives (unary_result operators.Compl t operand.now) result }
{
    let number = integer(t, operand)?;
    applied(alloc, Operator::Compl, t, number, 0)
}

ghost use Rattle.caesium_ir.specs.Operation.{operator_of};

/// An operator on two integers of the type.
pub(crate) fn binary(
    alloc: Global,
    operator: BinaryOperator,
    t: IntType,
    left: &Value,
    right: &Value,
) -> Result<Value, Stop>
    ensures { Gives (binary_result (operator_of operator) t t left.now right.now) result }
{
    let a = integer(t, left)?;
    let b = integer(t, right)?;
    applied(alloc, operator.operator(), t, a, b)
}

/// `shl T U`
pub(crate) fn shifted_left(
    alloc: Global,
    t: IntType,
    amount: IntType,
    left: &Value,
    right: &Value,
) -> Result<Value, Stop>
    ensures { Gives (binary_result operators.Shl t amount left.now right.now) result }
{
    let a = integer(t, left)?;
    let b = integer(amount, right)?;
    applied(alloc, Operator::Shl, t, a, b)
}

/// `shr T U`
pub(crate) fn shifted_right(
    alloc: Global,
    t: IntType,
    amount: IntType,
    left: &Value,
    right: &Value,
) -> Result<Value, Stop>
    ensures { Gives (binary_result operators.Shr t amount left.now right.now) result }
{
    let a = integer(t, left)?;
    let b = integer(amount, right)?;
    applied(alloc, Operator::Shr, t, a, b)
}

/// The bytes of what the operator gives on two numbers.
fn applied(alloc: Global, operator: Operator, t: IntType, a: i128, b: i128) -> Result<Value, Stop>
    requires left { IsInRange t a }
    requires right { IsRightOperand operator t b }
    ensures { Gives (encoded (type_of_result operator t) (arithmetic operator t a b)) result }
{
    match apply(operator, t, a, b) {
        Ok(number) => Ok(Value::of_int(alloc, result_type(operator, t), number)?),
        Err(ub) => Err(Stop::Undefined(Ub::Arithmetic(ub))),
    }
}

/// `cast A B`
pub(crate) fn cast(alloc: Global, from: Scalar, to: Scalar, operand: &Value) -> Result<Value, Stop>
    ensures { Gives (cast_result from to operand.now) result }
{
    let number = scalar_value(from, operand)?;
    Ok(converted(alloc, to, number)?)
}

/// The number that a value of the type is.
fn scalar_value(from: Scalar, operand: &Value) -> Result<i128, Ub>
    ensures { result ≡ value_of_scalar from operand.now }
{
    match from {
        Scalar::Int(t) => integer(t, operand),
        Scalar::Bool => Ok(i128::from(boolean(operand)?)),
    }
}

/// The bytes of a number after its conversion.
fn converted(alloc: Global, to: Scalar, number: i128) -> Result<Value, NoMemory>
    ensures { IfOk result (λ value. value ≡ bytes_converted to number) }
{
    match to {
        Scalar::Int(t) => Value::of_int(alloc, t, convert(t, number)),
        Scalar::Bool => Value::of_bool(alloc, convert_to_bool(number)),
    }
}
