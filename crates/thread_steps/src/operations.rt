ghost use Rattle.std.specs.Prelude.{◌≡◌};
ghost use Rattle.caesium_ir.specs.WellFormed.{IsOfTable};
ghost use Rattle.thread_steps.specs.Operations.{operand_count as count_of, result_of};
ghost use Rattle.thread_steps.specs.Gives.{Makes};

use crate::accesses::{cas, exchange, load, store};
use crate::answer::{Stop, Ub};
use crate::arithmetic::{binary, cast, complemented, negated, shifted_left, shifted_right};
use crate::pointers::{field, index, pointers_differ, pointers_equal};
use byte_memory::{Memory, Value};
use caesium_ir::Op;
use layouts::{Layout, Table};
use rc_terms::Loc;
use std::alloc::Global;

/// How many operands the operation takes.
pub fn operand_count(op: &Op) -> usize
    ensures { result ≡ count_of op.now }
{
    match op {
        Op::Const { .. } | Op::ConstBool { .. } | Op::Null | Op::Poison { .. } | Op::Local { .. } =>
            0,
        Op::Field { .. } | Op::Load { .. } | Op::LoadAtomic | Op::Drop => 1,
        Op::Neg { .. } | Op::Compl { .. } | Op::Cast { .. } => 1,
        Op::Index { .. } | Op::Store { .. } | Op::StoreAtomic | Op::Binary { .. } => 2,
        Op::Shl { .. } | Op::Shr { .. } | Op::PtrEq | Op::PtrNe | Op::Exchange => 2,
        Op::Cas => 3,
        Op::Call { arguments, .. } | Op::Fork { arguments, .. } => *arguments as usize,
    }
}

/// The value that the operation pushes, where it pushes one, on these operands in the order in which they
/// were pushed; or the kind of its undefined behaviour, which leaves the memory as it was. After want of memory
/// nothing is known of it.
pub fn operate(
    alloc: Global,
    table: &Table,
    op: &Op,
    operands: &[Value],
    memory: &mut Memory,
) -> Result<Option<Value>, Stop>
    requires { IsOfTable table.now op.now }
    ensures { Makes (result_of table.now op.now operands.now memory.old) memory.old memory.new result }
{
    match operands {
        [] => constant(alloc, table, op, memory),
        [operand] => on_one(alloc, table, op, operand, memory),
        [left, right] => on_two(alloc, table, op, left, right, memory),
        [object, expected, desired] => on_three(
            alloc, table, op, object, expected, desired, memory,
        ),
        _ => Err(Stop::Undefined(Ub::PoisonUsed)),
    }
}

ghost use Rattle.std.specs.Prelude.{[], ◌∷◌};

/// An operation without operands. It touches no memory.
fn constant(alloc: Global, table: &Table, op: &Op, memory: &Memory) -> Result<Option<Value>, Stop>
    ensures { Makes (result_of table.now op.now [] memory.now) memory.now memory.now result }
{
    let _ = table;
    let _ = memory;
    match op {
        Op::Const { of, value } => Ok(Some(Value::of_int(alloc, *of, *value)?)),
        Op::ConstBool { value } => Ok(Some(Value::of_bool(alloc, *value)?)),
        Op::Null => Ok(Some(Value::of_pointer(alloc, Loc::Null)?)),
        Op::Poison { size } => Ok(Some(Value::poison(alloc, *size)?)),
        _ => Err(Stop::Undefined(Ub::PoisonUsed)),
    }
}

/// An operation on one operand. It changes no memory.
fn on_one(
    alloc: Global,
    table: &Table,
    op: &Op,
    operand: &Value,
    memory: &Memory,
) -> Result<Option<Value>, Stop>
    requires { IsOfTable table.now op.now }
    ensures { Makes (result_of table.now op.now (operand.now ∷ []) memory.now) memory.now memory.now result }
{
    match op {
        Op::Field { of, member } => Ok(Some(field(alloc, table, *of, *member, operand, memory)?)),
        Op::Load { layout } => Ok(Some(load(alloc, table, *layout, operand, memory)?)),
        Op::LoadAtomic => Ok(Some(load(alloc, table, Layout::Bool, operand, memory)?)),
        Op::Neg { of } => Ok(Some(negated(alloc, *of, operand)?)),
        Op::Compl { of } => Ok(Some(complemented(alloc, *of, operand)?)),
        Op::Cast { from, to } => Ok(Some(cast(alloc, *from, *to, operand)?)),
        Op::Drop => Ok(None),
        _ => Err(Stop::Undefined(Ub::PoisonUsed)),
    }
}

/// An operation on two operands.
fn on_two(
    alloc: Global,
    table: &Table,
    op: &Op,
    left: &Value,
    right: &Value,
    memory: &mut Memory,
) -> Result<Option<Value>, Stop>
    requires { IsOfTable table.now op.now }
    ensures { Makes (result_of table.now op.now (left.now ∷ right.now ∷ []) memory.old) memory.old memory.new result }
{
    match op {
        Op::Store { layout } => store(alloc, table, *layout, left, right, memory),
        Op::StoreAtomic => store(alloc, table, Layout::Bool, left, right, memory),
        Op::Exchange => exchange(alloc, table, left, right, memory),
        Op::PtrEq => Ok(Some(pointers_equal(alloc, left, right, memory)?)),
        Op::PtrNe => Ok(Some(pointers_differ(alloc, left, right, memory)?)),
        Op::Index { size, of } => Ok(Some(index(alloc, *size, *of, left, right, memory)?)),
        Op::Binary { operator, of } => { Ok(Some(binary(alloc, *operator, *of, left, right)?)) }
        Op::Shl { of, amount } => Ok(Some(shifted_left(alloc, *of, *amount, left, right)?)),
        Op::Shr { of, amount } => Ok(Some(shifted_right(alloc, *of, *amount, left, right)?)),
        _ => Err(Stop::Undefined(Ub::PoisonUsed)),
    }
}

/// An operation on three operands.
fn on_three(
    alloc: Global,
    table: &Table,
    op: &Op,
    object: &Value,
    expected: &Value,
    desired: &Value,
    memory: &mut Memory,
) -> Result<Option<Value>, Stop>
    ensures { Makes (result_of table.now op.now (object.now ∷ expected.now ∷ desired.now ∷ []) memory.old)
        memory.old memory.new result }
{
    match op {
        Op::Cas => cas(alloc, table, object, expected, desired, memory),
        _ => Err(Stop::Undefined(Ub::PoisonUsed)),
    }
}
