ghost use Rattle.std.specs.Prelude.{◌≡◌, IfOk, OnOk, IsTrue, ◌↔◌, Ok, Err, length};
ghost use Rattle.layouts.specs.IntType.{IsInRange};
ghost use Rattle.thread_steps.specs.declared.answer.Ub.{Ub};
ghost use Rattle.thread_steps.specs.Operands.{pointer as pointer_operand, integer as integer_operand};
ghost use Rattle.thread_steps.specs.Operands.{boolean as bool_operand, is_nonzero as nonzero, sized};
ghost use Rattle.thread_steps.specs.Operands.{moved as moved_by, same_location as are_same};
ghost use Rattle.thread_steps.specs.Operations.{can_compare as comparable};

use crate::answer::Ub;
use byte_memory::{MByte, Memory, Value};
use layouts::IntType;
use rc_terms::Loc;
use rc_text::NoMemory;
use std::alloc::Global;

/// A pointer operand.
pub(crate) fn pointer(operand: &Value) -> Result<Loc, Ub>
    ensures { result ≡ pointer_operand operand.now }
{
    match operand.to_pointer() {
        Some(at) => Ok(at),
        None => Err(Ub::PoisonUsed),
    }
}

/// An integer operand of the type.
pub(crate) fn integer(t: IntType, operand: &Value) -> Result<i128, Ub>
    ensures value { result ≡ integer_operand t operand.now }
    ensures in_range { IfOk result (IsInRange t) }
{
    match operand.to_int(t) {
        Some(number) => Ok(number),
        None => Err(Ub::PoisonUsed),
    }
}

/// A bool operand.
pub(crate) fn boolean(operand: &Value) -> Result<bool, Ub>
    ensures { result ≡ bool_operand operand.now }
{
    let [MByte::Byte(byte)] = operand.as_slice() else {
        return Err(Ub::PoisonUsed);
    };
    match *byte {
        0 => Ok(false),
        1 => Ok(true),
        _ => Err(Ub::BadBool),
    }
}

/// Whether the number that an operand's plain bytes are isn't zero; none where a byte isn't plain.
pub(crate) fn is_nonzero(operand: &Value) -> Option<bool>
    ensures { result ≡ nonzero operand.now }
{
    has_nonzero(operand.as_slice())
}

fn has_nonzero(bytes: &[MByte]) -> Option<bool>
    ensures { result ≡ nonzero bytes.now }
{
    let mut found = false;
    for byte in bytes {
        match byte {
            MByte::Byte(plain) => found = found || *plain != 0,
            MByte::Frag(_, _) | MByte::Poison => return None,
        }
    }
    Some(found)
}

/// An operand of so many bytes, whatever they are.
pub(crate) fn has_size(size: u32, operand: &Value) -> Result<(), Ub>
    ensures ok { OnOk result (sized size operand.now ≡ Ok operand.now) }
    ensures length { OnOk result (length operand.now ≡ size) }
    ensures err { (ub : Ub) → result ≡ Err ub → sized size operand.now ≡ Err ub }
{
    if operand.len() == size as usize {
        Ok(())
    } else {
        Err(Ub::PoisonUsed)
    }
}

/// The pointer moved by so many bytes.
pub(crate) fn moved(memory: &Memory, at: Loc, by: i128) -> Result<Loc, Ub>
    ensures { result ≡ moved_by memory.now at by }
{
    let Loc::At { block, offset } = at else {
        return Err(Ub::PtrBounds);
    };
    let length = memory.length(block);
    let Some(to) = offset.checked_add(by) else {
        return Err(Ub::PtrBounds);
    };
    if 0 <= to && to <= i128::from(length) {
        Ok(Loc::At { block, offset: to })
    } else {
        Err(Ub::PtrBounds)
    }
}

/// Whether two locations are the same.
pub(crate) fn same_location(one: Loc, other: Loc) -> bool
    ensures { result ≡ are_same one other }
{
    match (one, other) {
        (Loc::Null, Loc::Null) => true,
        (
            Loc::At { block, offset },
            Loc::At {
                block: of,
                offset: at,
            },
        ) => block == of && offset == at,
        _ => false,
    }
}

/// Whether two locations can be compared.
pub(crate) fn can_compare(memory: &Memory, one: Loc, other: Loc) -> bool
    ensures { result ≡ comparable memory.now one other }
{
    match (one, other) {
        (
            Loc::At { block, offset },
            Loc::At {
                block: of,
                offset: at,
            },
        ) => {
            memory.is_alive(block)
                && memory.is_alive(of)
                && (block == of
                    || (is_before_end(memory, block, offset) && is_before_end(memory, of, at)))
        }
        _ => true,
    }
}

ghost use Rattle.std.specs.Prelude.{int_lt, pos};
ghost use Rattle.byte_memory.specs.Memory.{length_at};

fn is_before_end(memory: &Memory, block: u64, offset: i128) -> bool
    ensures { result ≡ int_lt offset (pos (length_at memory.now block)) }
{
    offset < i128::from(memory.length(block))
}

/// A copy of a value.
pub(crate) fn copied(alloc: Global, value: &Value) -> Result<Value, NoMemory>
    ensures { IfOk result (λ copy. copy ≡ value.now) }
{
    let mut copy = Value::new(alloc);
    let bytes = value.as_slice();
    for byte in bytes {
        copy.push(*byte)?;
    }
    Ok(copy)
}
