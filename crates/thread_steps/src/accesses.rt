ghost use Rattle.std.specs.Prelude.{◌≡◌, Some, None, Ok, Err, length, OnOk, IfOk};
ghost use Rattle.layouts.specs.Table.{bytes_of, align_of as alignment_of, IsKnown};
ghost use Rattle.byte_memory.specs.Memory.{fault_of, stored};
ghost use Rattle.byte_memory.specs.Values.{bool_bytes};
ghost use Rattle.thread_steps.specs.declared.answer.Ub.{Ub};
ghost use Rattle.thread_steps.specs.Operations.{load as load_result, load_at as load_at_result, store as store_result};
ghost use Rattle.thread_steps.specs.Operations.{store_at as store_at_result, exchange as exchange_result};
ghost use Rattle.thread_steps.specs.Operations.{cas as cas_result, cas_at as cas_at_result};
ghost use Rattle.thread_steps.specs.Gives.{Gives, Makes};

use crate::answer::{Stop, Ub};
use crate::operands::{boolean, copied, has_size, pointer};
use byte_memory::{LoadFault, Memory, Value};
use layouts::{Layout, Table, align_of, size_of};
use rc_terms::Loc;
use std::alloc::Global;

/// `load L`, `load atomic bool`
pub(crate) fn load(
    alloc: Global,
    table: &Table,
    layout: Layout,
    operand: &Value,
    memory: &Memory,
) -> Result<Value, Stop>
    requires { IsKnown table.now layout }
    ensures { Gives (load_result table.now layout operand.now memory.now) result }
{
    let at = pointer(operand)?;
    load_at(alloc, table, layout, at, memory)
}

/// The bytes of a layout at a location.
fn load_at(
    alloc: Global,
    table: &Table,
    layout: Layout,
    at: Loc,
    memory: &Memory,
) -> Result<Value, Stop>
    requires { IsKnown table.now layout }
    ensures value { Gives (load_at_result table.now layout at memory.now) result }
    ensures defined { IfOk result (λ _.
        fault_of memory.now at (bytes_of table.now layout) (alignment_of table.now layout) ≡ None) }
{
    match memory.load(alloc, at, layout, table) {
        Ok(value) => Ok(value),
        Err(LoadFault::Undefined(ub)) => Err(Stop::Undefined(Ub::Access(ub))),
        Err(LoadFault::NoMemory) => Err(Stop::NoMemory),
    }
}

/// `store L`, `store atomic bool`
pub(crate) fn store(
    alloc: Global,
    table: &Table,
    layout: Layout,
    operand: &Value,
    value: &Value,
    memory: &mut Memory,
) -> Result<Option<Value>, Stop>
    requires { IsKnown table.now layout }
    ensures { Makes (store_result table.now layout operand.now value.now memory.old) memory.old memory.new result }
{
    let at = pointer(operand)?;
    has_size(size_of(layout, table), value)?;
    let result = copied(alloc, value)?;
    store_at(table, layout, at, value, result, memory)
}

/// Puts a value of the layout at a location, and hands another on.
fn store_at(
    table: &Table,
    layout: Layout,
    at: Loc,
    value: &Value,
    result_value: Value,
    memory: &mut Memory,
) -> Result<Option<Value>, Stop>
    requires known { IsKnown table.now layout }
    requires size { length value.now ≡ bytes_of table.now layout }
    ensures { Makes (store_at_result table.now layout at value.now result_value memory.old)
        memory.old memory.new result }
{
    match memory.store(at, value, align_of(layout, table)) {
        Ok(()) => Ok(Some(result_value)),
        Err(ub) => Err(Stop::Undefined(Ub::Access(ub))),
    }
}

/// `exchange`
pub(crate) fn exchange(
    alloc: Global,
    table: &Table,
    operand: &Value,
    value: &Value,
    memory: &mut Memory,
) -> Result<Option<Value>, Stop>
    ensures { Makes (exchange_result table.now operand.now value.now memory.old) memory.old memory.new result }
{
    let at = pointer(operand)?;
    has_size(1, value)?;
    let old = load_at(alloc, table, Layout::Bool, at, memory)?;
    store_at(table, Layout::Bool, at, value, old, memory)
}

/// `cas`
pub(crate) fn cas(
    alloc: Global,
    table: &Table,
    object: &Value,
    expected: &Value,
    desired: &Value,
    memory: &mut Memory,
) -> Result<Option<Value>, Stop>
    ensures { Makes (cas_result table.now object.now expected.now desired.now memory.old)
        memory.old memory.new result }
{
    let object = pointer(object)?;
    let expected = pointer(expected)?;
    has_size(1, desired)?;
    cas_at(alloc, table, object, expected, desired, memory)
}

fn cas_at(
    alloc: Global,
    table: &Table,
    object: Loc,
    expected: Loc,
    desired: &Value,
    memory: &mut Memory,
) -> Result<Option<Value>, Stop>
    requires { length desired.now ≡ 1 }
    ensures { Makes (cas_at_result table.now object expected desired.now memory.old) memory.old memory.new result }
{
    let actual = load_at(alloc, table, Layout::Bool, object, memory)?;
    let other = load_at(alloc, table, Layout::Bool, expected, memory)?;
    let holds = boolean(&actual)?;
    let wanted = boolean(&other)?;
    let agree = Value::of_bool(alloc, holds == wanted)?;
    if holds == wanted {
        put(object, desired, memory);
    } else {
        put(expected, &actual, memory);
    }
    Ok(Some(agree))
}

/// Puts a byte at a location where this is defined.
fn put(at: Loc, value: &Value, memory: &mut Memory)
    requires { fault_of memory.old at (length value.now) 1 ≡ None }
    ensures { memory.new ≡ stored memory.old at value.now }
{
    let stored_it = memory.store(at, value, 1).is_ok();
    prove!(stored_it);
}
