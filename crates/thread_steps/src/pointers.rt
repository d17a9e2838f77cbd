ghost use Rattle.std.specs.Prelude.{◌≡◌};
ghost use Rattle.caesium_ir.specs.WellFormed.{HasMember};
ghost use Rattle.thread_steps.specs.Operations.{field as field_result, index as index_result};
ghost use Rattle.thread_steps.specs.Operations.{member_offset as offset_of};
ghost use Rattle.thread_steps.specs.Operations.{same_pointers as are_same, pointers_equal as equal_result};
ghost use Rattle.thread_steps.specs.Operations.{pointers_differ as differ_result};
ghost use Rattle.thread_steps.specs.Gives.{Gives};

use crate::answer::{Stop, Ub};
use crate::operands::{can_compare, integer, moved, pointer, same_location};
use byte_memory::{Memory, Value};
use layouts::{IntType, Table, field_offset};
use std::alloc::Global;

/// `field s.i`
pub(crate) fn field(
    alloc: Global,
    table: &Table,
    of: u32,
    member: u32,
    operand: &Value,
    memory: &Memory,
) -> Result<Value, Stop>
    requires { HasMember table.now of member }
    ensures { Gives (field_result table.now of member operand.now memory.now) result }
{
    let at = pointer(operand)?;
    let to = moved(memory, at, i128::from(member_offset(table, of, member)))?;
    Ok(Value::of_pointer(alloc, to)?)
}

/// The offset of a member in bytes.
fn member_offset(table: &Table, of: u32, member: u32) -> u32
    requires { HasMember table.now of member }
    ensures { result ≡ offset_of table.now of member }
{
    field_offset(table.layout(of), member as usize)
}

/// `index k T`
pub(crate) fn index(
    alloc: Global,
    size: u32,
    t: IntType,
    operand: &Value,
    number: &Value,
    memory: &Memory,
) -> Result<Value, Stop>
    ensures { Gives (index_result size t operand.now number.now memory.now) result }
{
    let at = pointer(operand)?;
    let count = integer(t, number)?;
    let to = moved(memory, at, bytes_of_items(size, t, count))?;
    Ok(Value::of_pointer(alloc, to)?)
}

ghost use Rattle.std.specs.Prelude.{pos, ◌*ℤ◌};
ghost use Rattle.layouts.specs.IntType.{IsInRange};

/// How many bytes so many items of this size take.
fn bytes_of_items(size: u32, t: IntType, count: i128) -> i128
    requires { IsInRange t count }
    ensures { result ≡ pos size *ℤ count }
{
    let _ = t;
    i128::from(size) * count
}

/// Whether two pointers are the same.
fn same_pointers(left: &Value, right: &Value, memory: &Memory) -> Result<bool, Ub>
    ensures { result ≡ are_same left.now right.now memory.now }
{
    let one = pointer(left)?;
    let other = pointer(right)?;
    if can_compare(memory, one, other) {
        Ok(same_location(one, other))
    } else {
        Err(Ub::PtrCompare)
    }
}

/// `ptr_eq`
pub(crate) fn pointers_equal(
    alloc: Global,
    left: &Value,
    right: &Value,
    memory: &Memory,
) -> Result<Value, Stop>
    ensures { Gives (equal_result left.now right.now memory.now) result }
{
    let same = same_pointers(left, right, memory)?;
    Ok(Value::of_int(alloc, IntType::Int, i128::from(same))?)
}

/// `ptr_ne`
pub(crate) fn pointers_differ(
    alloc: Global,
    left: &Value,
    right: &Value,
    memory: &Memory,
) -> Result<Value, Stop>
    ensures { Gives (differ_result left.now right.now memory.now) result }
{
    let same = same_pointers(left, right, memory)?;
    Ok(Value::of_int(alloc, IntType::Int, i128::from(!same))?)
}
