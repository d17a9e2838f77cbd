ghost use Rattle.std.specs.Prelude.{◌≡◌, ◌++◌, map, IfOk};
ghost use Rattle.caesium_text.specs.Naming.{tag_at, local_at, named_layout, named_result, named_local};
ghost use Rattle.caesium_text.specs.Naming.{named_op, named_case, named_end};

use caesium_ir::{Case, End, Local, Op};
use caesium_lines::{NamedCase, NamedEnd, NamedLayout, NamedLocal, NamedOp};
use layouts::{Layout, Table};
use rc_text::{Bytes, NoMemory};
use sqlite_items::Items;
use std::alloc::Global;

fn tag(alloc: Global, table: &Table, number: u32) -> Result<Bytes, NoMemory>
    ensures { IfOk result (λ tag. tag ≡ tag_at table.now number) }
{
    if (number as usize) < table.len() {
        Bytes::from_slice(alloc, table.name(number))
    } else {
        Ok(Bytes::new(alloc))
    }
}

/// The name of the local under a number, the parameters before the others.
fn local_name(
    alloc: Global,
    parameters: &[Local],
    locals: &[Local],
    number: u32,
) -> Result<Bytes, NoMemory>
    ensures { IfOk result (λ name. name ≡ local_at (parameters.now ++ locals.now) number) }
{
    let number = number as usize;
    let found = if number < parameters.len() {
        parameters.get(number)
    } else {
        locals.get(number - parameters.len())
    };
    match found {
        Some(local) => Bytes::from_slice(alloc, local.name.as_slice()),
        None => Ok(Bytes::new(alloc)),
    }
}

/// A layout with the tag of its struct or union.
pub fn name_layout(alloc: Global, table: &Table, layout: Layout) -> Result<NamedLayout, NoMemory>
    ensures { IfOk result (λ named. named ≡ named_layout table.now layout) }
{
    Ok(match layout {
        Layout::Int(of) => NamedLayout::Int(of),
        Layout::Bool => NamedLayout::Bool,
        Layout::Ptr => NamedLayout::Ptr,
        Layout::Struct(number) => NamedLayout::Struct(tag(alloc, table, number)?),
        Layout::Union(number) => NamedLayout::Union(tag(alloc, table, number)?),
        Layout::Bytes { size, align } => NamedLayout::Bytes { size, align },
    })
}

/// The layout of a function's result, none for void.
pub fn name_result(
    alloc: Global,
    table: &Table,
    layout: Option<Layout>,
) -> Result<Option<NamedLayout>, NoMemory>
    ensures { IfOk result (λ named. named ≡ named_result table.now layout) }
{
    match layout {
        Some(layout) => Ok(Some(name_layout(alloc, table, layout)?)),
        None => Ok(None),
    }
}

/// A parameter or another local.
pub fn name_local(alloc: Global, table: &Table, local: &Local) -> Result<NamedLocal, NoMemory>
    ensures { IfOk result (λ named. named ≡ named_local table.now local.now) }
{
    Ok(NamedLocal {
        name: Bytes::from_slice(alloc, local.name.as_slice())?,
        layout: name_layout(alloc, table, local.layout)?,
    })
}

/// An operation of a function that has these parameters and further locals.
pub fn name_op(
    alloc: Global,
    table: &Table,
    parameters: &[Local],
    locals: &[Local],
    op: &Op,
) -> Result<NamedOp, NoMemory>
    ensures { IfOk result (λ named. named ≡ named_op table.now (parameters.now ++ locals.now) op.now) }
{
    Ok(match op {
        Op::Const { of, value } => NamedOp::Const {
            of: *of,
            value: *value,
        },
        Op::ConstBool { value } => NamedOp::ConstBool { value: *value },
        Op::Null => NamedOp::Null,
        Op::Poison { size } => NamedOp::Poison { size: *size },
        Op::Local { number } => NamedOp::Local {
            name: local_name(alloc, parameters, locals, *number)?,
        },
        Op::Field { of, member } => NamedOp::Field {
            of: tag(alloc, table, *of)?,
            member: *member,
        },
        Op::Index { size, of } => NamedOp::Index {
            size: *size,
            of: *of,
        },
        Op::Load { layout } => NamedOp::Load {
            layout: name_layout(alloc, table, *layout)?,
        },
        Op::LoadAtomic => NamedOp::LoadAtomic,
        Op::Store { layout } => NamedOp::Store {
            layout: name_layout(alloc, table, *layout)?,
        },
        Op::StoreAtomic => NamedOp::StoreAtomic,
        Op::Neg { of } => NamedOp::Neg { of: *of },
        Op::Compl { of } => NamedOp::Compl { of: *of },
        Op::Binary { operator, of } => NamedOp::Binary {
            operator: *operator,
            of: *of,
        },
        Op::Shl { of, amount } => NamedOp::Shl {
            of: *of,
            amount: *amount,
        },
        Op::Shr { of, amount } => NamedOp::Shr {
            of: *of,
            amount: *amount,
        },
        Op::Cast { from, to } => NamedOp::Cast {
            from: *from,
            to: *to,
        },
        Op::PtrEq => NamedOp::PtrEq,
        Op::PtrNe => NamedOp::PtrNe,
        Op::Cas => NamedOp::Cas,
        Op::Exchange => NamedOp::Exchange,
        Op::Call {
            function,
            arguments: _,
        } => NamedOp::Call {
            function: Bytes::from_slice(alloc, function.name())?,
        },
        Op::Fork {
            function,
            arguments: _,
        } => NamedOp::Fork {
            function: Bytes::from_slice(alloc, function.name())?,
        },
        Op::Drop => NamedOp::Drop,
    })
}

/// The end of a block.
pub fn name_end(alloc: Global, end: &End) -> Result<NamedEnd, NoMemory>
    ensures { IfOk result (λ named. named ≡ named_end end.now) }
{
    Ok(match end {
        End::Goto(label) => NamedEnd::Goto(Bytes::from_slice(alloc, label.name())?),
        End::If { nonzero, zero } => NamedEnd::If {
            nonzero: Bytes::from_slice(alloc, nonzero.name())?,
            zero: Bytes::from_slice(alloc, zero.name())?,
        },
        End::Switch {
            of,
            cases,
            otherwise,
        } => NamedEnd::Switch {
            of: *of,
            cases: name_cases(alloc, cases.as_slice())?,
            otherwise: Bytes::from_slice(alloc, otherwise.name())?,
        },
        End::Return => NamedEnd::Return,
    })
}

fn name_cases(alloc: Global, cases: &[Case]) -> Result<Items<NamedCase>, NoMemory>
    ensures { IfOk result (λ named. named ≡ map named_case cases.now) }
{
    let mut named = Vec::new(alloc);
    for case in cases {
        named.push(name_case(alloc, case)?)?;
    }
    Ok(Items::from_vec(named))
}

fn name_case(alloc: Global, case: &Case) -> Result<NamedCase, NoMemory>
    ensures { IfOk result (λ named. named ≡ named_case case.now) }
{
    Ok(NamedCase {
        value: case.value,
        label: Bytes::from_slice(alloc, case.label.name())?,
    })
}
