//! Sizes, alignments and offsets from gcc, and the greatest size from both sides.

mod gcc_rows;

use crate::tests::gcc_rows::ROWS;
use crate::{
    Declaration, IntType, Kind, Layout, LayoutRefusal, Table, align_of, field_offset, size_of,
    struct_layout, union_layout,
};
use rc_text::Bytes;
use sqlite_items::Items;
use std::alloc::Global;
use std::process::Abort;
use std::test::Fail;

/// What gcc says of a struct or union with these members.
#[derive(Clone, Copy)]
pub struct Row {
    pub kind: Kind,
    pub members: &'static [Layout],
    pub size: u32,
    pub align: u32,
    pub offsets: &'static [u32],
}

/// The table's next struct or union is laid out as the row says.
fn expect_row(
    rt: &impl Abort,
    alloc: Global,
    table: &mut Table,
    number: u32,
    row: &Row,
) -> Result<(), Fail> {
    assert!(rt; table.has_all(row.members));
    let layout = match row.kind {
        Kind::Struct => struct_layout(alloc, row.members, table)?,
        Kind::Union => union_layout(alloc, row.members, table)?,
    };
    assert_eq!(rt; layout.size, row.size, "the size of row {number}");
    assert_eq!(rt; layout.align, row.align, "the alignment of row {number}");
    assert_eq!(rt;
        layout.offsets.as_slice(),
        row.offsets,
        "the offsets of row {number}"
    );
    assert_eq!(rt;
        layout.members.as_slice(),
        row.members,
        "the members of row {number}"
    );
    for (i, offset) in row.offsets.iter().enumerate() {
        assert!(rt; i < layout.offsets.len());
        assert_eq!(rt; field_offset(&layout, i), *offset);
    }
    table.add(Declaration {
        kind: row.kind,
        name: Bytes::from_slice(alloc, b"s")?,
        members: Items::from_slice(alloc, row.members)?,
    })?;
    let named = match row.kind {
        Kind::Struct => Layout::Struct(number),
        Kind::Union => Layout::Union(number),
    };
    assert!(rt; table.has(named));
    assert_eq!(rt; size_of(named, table), row.size);
    assert_eq!(rt; align_of(named, table), row.align);
    Ok(())
}

#[test]
fn lays_out_as_gcc_does(rt: HostRuntime) -> Result<(), Fail> {
    let mut table = Table::new(rt.alloc());
    for (number, row) in ROWS.iter().enumerate() {
        assert!(rt; number < 1000);
        expect_row(&rt, rt.alloc(), &mut table, number as u32, row)?;
    }
    assert_eq!(rt; table.len(), ROWS.len());
    Ok(())
}

#[test]
fn sizes_of_scalars(rt: HostRuntime) {
    let table = Table::new(rt.alloc());
    for (layout, size) in [
        (Layout::Int(IntType::Char), 1),
        (Layout::Int(IntType::SChar), 1),
        (Layout::Int(IntType::UChar), 1),
        (Layout::Int(IntType::Short), 2),
        (Layout::Int(IntType::UShort), 2),
        (Layout::Int(IntType::Int), 4),
        (Layout::Int(IntType::UInt), 4),
        (Layout::Int(IntType::Long), 8),
        (Layout::Int(IntType::ULong), 8),
        (Layout::Int(IntType::LLong), 8),
        (Layout::Int(IntType::ULLong), 8),
        (Layout::Bool, 1),
        (Layout::Ptr, 8),
    ] {
        assert!(rt; table.has(layout));
        assert_eq!(rt; size_of(layout, &table), size);
        assert_eq!(rt; align_of(layout, &table), size);
    }
}

/// The size of a struct or union of these members, 0 where it is too large.
fn size_or_zero(
    rt: &impl Abort,
    alloc: Global,
    kind: Kind,
    members: &[Layout],
) -> Result<u32, Fail> {
    let table = Table::new(alloc);
    assert!(rt; table.has_all(members));
    let layout = match kind {
        Kind::Struct => struct_layout(alloc, members, &table),
        Kind::Union => union_layout(alloc, members, &table),
    };
    match layout {
        Ok(layout) => Ok(layout.size),
        Err(LayoutRefusal::TooLarge) => Ok(0),
        Err(LayoutRefusal::NoMemory) => Err(LayoutRefusal::NoMemory.into()),
    }
}

#[test]
fn too_large_past_the_greatest_size(rt: HostRuntime) -> Result<(), Fail> {
    let bytes = |size, align| Layout::Bytes { size, align };
    let largest = 0x8000_0000;
    for (kind, members, size) in [
        (Kind::Struct, [bytes(largest, 1), bytes(0, 1)], largest),
        (Kind::Struct, [bytes(largest, 1), bytes(1, 1)], 0),
        (Kind::Struct, [bytes(largest + 1, 1), bytes(0, 1)], 0),
        (
            Kind::Struct,
            [bytes(0xffff_ffff, 1), bytes(0xffff_ffff, 0xffff_ffff)],
            0,
        ),
        (Kind::Struct, [bytes(largest - 1, 1), bytes(0, 4)], largest),
        (Kind::Struct, [bytes(largest - 3, 4), bytes(0, 1)], largest),
        (Kind::Struct, [bytes(1, largest), bytes(0, 1)], largest),
        (Kind::Struct, [bytes(1, largest + 1), bytes(0, 1)], 0),
        (Kind::Union, [bytes(largest, 1), bytes(3, 4)], largest),
        (Kind::Union, [bytes(3, 4), bytes(largest + 1, 1)], 0),
        (Kind::Union, [bytes(largest - 1, 1), bytes(0, 8)], largest),
        (Kind::Union, [bytes(1, 1), bytes(0, 0xffff_ffff)], 0),
    ] {
        assert_eq!(rt; size_or_zero(&rt, rt.alloc(), kind, &members)?, size);
    }
    Ok(())
}

#[test]
fn has_what_it_declares(rt: HostRuntime) -> Result<(), Fail> {
    let alloc = rt.alloc();
    let mut table = Table::new(alloc);
    assert!(rt; table.is_empty());
    assert!(rt; !table.has(Layout::Struct(0)));
    let members = Items::from_slice(alloc, &[Layout::Int(IntType::Int)])?;
    let name = Bytes::from_slice(alloc, b"cell")?;
    assert!(rt; table.has_all(members.as_slice()));
    table.add(Declaration {
        kind: Kind::Struct,
        name,
        members,
    })?;
    assert!(rt; table.has(Layout::Struct(0)));
    assert!(rt; !table.has(Layout::Union(0)));
    assert!(rt; !table.has(Layout::Struct(1)));
    assert!(rt; !table.has(Layout::Bytes { size: 1, align: 0 }));
    assert!(rt; table.len() == 1);
    assert_eq!(rt; table.kind(0), Kind::Struct);
    assert_eq!(rt; table.name(0), b"cell".as_slice());
    assert_eq!(rt; table.layout(0).size, 4);
    Ok(())
}
