ghost use Rattle.std.specs.Prelude.{◌≡◌, ◌++◌};
ghost use Rattle.layouts.specs.Table.{IsKnown};
ghost use Rattle.caesium_ir.specs.WellFormed.{IsWellFormed, IsOfTable};
ghost use Rattle.thread_steps.specs.Operands.{pointer_of};
ghost use Rattle.thread_steps.specs.Access.{access_at, op_accesses as accesses_of_op, accesses_of};
ghost use Rattle.thread_steps.specs.Accesses.{listed, one_or_none};

use crate::next::{Next, find_next};
use crate::operands::pointer;
use crate::operations::operand_count;
use crate::thread::Thread;
use byte_memory::Value;
use caesium_ir::{End, Op, Program};
use layouts::{Table, size_of};
use rc_terms::Loc;

/// Bytes of memory.
#[derive(Clone, Copy, Debug, PartialEq, Eq, Hash)]
pub enum Touched {
    /// So many from a location on.
    Range { at: Loc, size: u32 },
    /// All of the block of this number.
    Block(u64),
}

/// What a step touches: bytes, whether they are written, and whether atomically.
#[derive(Clone, Copy, Debug, PartialEq, Eq, Hash)]
pub struct Access {
    pub bytes: Touched,
    pub writes: bool,
    pub atomic: bool,
}

/// All that a step touches.
#[derive(Clone, Copy, Debug)]
pub enum Accesses<'a> {
    /// What an operation touches, at two places at most.
    Ranges(Option<Access>, Option<Access>),
    /// The blocks that a return closes, each of which it writes whole and not atomically.
    Closed(&'a [u64]),
}

/// What the next step of the thread touches. It looks at no memory: a thread that is stuck touches what its pointers
/// lead to.
pub fn next_access<'a>(thread: &'a Thread, program: &Program) -> Accesses<'a>
    requires { IsWellFormed program.now }
    ensures { listed result ≡ accesses_of program.now thread.now }
{
    let Thread::Running { top, callers: _ } = thread else {
        return Accesses::Ranges(None, None);
    };
    match find_next(program, top) {
        Some(Next::Operation(_, op)) => {
            let (first, second) = op_accesses(
                &program.table,
                op,
                top.row.topmost(operand_count(op)),
            );
            Accesses::Ranges(first, second)
        }
        Some(Next::Ending(_, End::Return)) => Accesses::Closed(top.locals.as_slice()),
        _ => Accesses::Ranges(None, None),
    }
}

/// What an operation on these operands touches.
fn op_accesses(table: &Table, op: &Op, operands: &[Value]) -> (Option<Access>, Option<Access>)
    requires { IsOfTable table.now op.now }
    ensures { one_or_none result.0 ++ one_or_none result.1 ≡ accesses_of_op table.now op.now operands.now }
{
    match (op, operands) {
        (Op::Load { layout }, [at]) => (access_to(size_of(*layout, table), false, false, at), None),
        (Op::LoadAtomic, [at]) => (access_to(1, false, true, at), None),
        (Op::Store { layout }, [at, _]) => (
            access_to(size_of(*layout, table), true, false, at),
            None,
        ),
        (Op::StoreAtomic | Op::Exchange, [at, _]) => (access_to(1, true, true, at), None),
        (Op::Cas, [object, expected, _]) => {
            (
                access_to(1, true, true, object),
                access_to(1, true, false, expected),
            )
        }
        _ => (None, None),
    }
}

/// An access to so many bytes at a pointer; none where the value is no pointer.
fn access_to(size: u32, writes: bool, atomic: bool, operand: &Value) -> Option<Access>
    ensures { one_or_none result ≡ access_at size writes atomic (pointer_of operand.now) }
{
    match pointer(operand) {
        Ok(at) => Some(Access {
            bytes: Touched::Range { at, size },
            writes,
            atomic,
        }),
        Err(_) => None,
    }
}
