ghost use Rattle.std.specs.Prelude.{◌≡◌, ◌<◌, ◌≤◌, ◌^◌, ◌++◌, ◌∷◌, [], All, length, slice_get};
ghost use Rattle.std.specs.Prelude.{option_map, IfOk, OnOk, OnErr, IsTrue, ◌↔◌};
ghost use Rattle.layouts.specs.Table.{bytes_of, align_of as alignment_of, IsKnown, Declares, kind_of, name_of};
ghost use Rattle.layouts.specs.Table.{layout_of, declared_layout};

use crate::aggregate::{LayoutRefusal, StructLayout, struct_layout, union_layout};
use crate::int_type::IntType;
use crate::layout::Layout;
use rc_text::Bytes;
use sqlite_items::Items;
use std::alloc::Global;
use std::marker::Model;

/// The two kinds of types that have members.
#[derive(Clone, Copy, Debug, PartialEq, Eq, Hash)]
pub enum Kind {
    Struct,
    Union,
}

/// A complete struct or union: its kind, its tag, and the layouts of its members in the order of declaration.
#[derive(Debug, Drop)]
pub struct Declaration {
    pub kind: Kind,
    pub name: Bytes,
    pub members: Items<Layout>,
}

/// The complete structs and unions of a program in the order in which they were completed, which contracts see as
/// the list of their declarations. A declaration names earlier ones alone.
#[derive(Debug, Drop)]
pub struct Table {
    entries: Vec<Entry>,
}

#[derive(Debug, Drop)]
struct Entry {
    kind: Kind,
    name: Bytes,
    layout: StructLayout,
}

impl Model for Table {
    ghost use Rattle.std.specs.Prelude.{List, map};
    ghost use Rattle.layouts.specs.declared.table.Declaration.{Declaration};

    ghost Value = { List Declaration };

    ghost use Rattle.layouts.specs.Entry.{declaration_of, AreLaidOut};

    ghost view = { λ table. map declaration_of table.entries.items };

    ghost invariant = { λ table. AreLaidOut table.entries.items };
}

impl Table {
    /// No struct and no union. It takes no memory.
    pub fn new(alloc: Global) -> Self
        ensures { result ≡ [] }
    {
        Table {
            entries: Vec::new(alloc),
        }
    }

    /// How many structs and unions it has.
    pub fn len(&self) -> usize
        ensures { result ≡ length self.now }
    {
        self.entries.len()
    }

    pub fn is_empty(&self) -> bool
        ensures { IsTrue result ↔ (self.now ≡ []) }
    {
        self.entries.is_empty()
    }

    /// Lays out a struct or union and puts it at the end.
    pub fn add(&mut self, declaration: Declaration) -> Result<(), LayoutRefusal>
        requires { All (IsKnown self.old) declaration.members }
        ensures added { OnOk result (self.new ≡ self.old ++ declaration ∷ []) }
        ensures kept { OnErr result (self.new ≡ self.old) }
        ensures fits { OnOk result ((declared_layout self.old declaration).size ≤ 2 ^ 31) }
        ensures too_large { result ≡ Err LayoutRefusal.TooLarge → 2 ^ 31 < (declared_layout self.old declaration).size }
    {
        let alloc = *self.entries.allocator();
        let Declaration {
            kind,
            name,
            members,
        } = declaration;
        let layout = layout_of_kind(alloc, kind, members.as_slice(), self)?;
        self.entries.push(Entry { kind, name, layout })?;
        Ok(())
    }

    /// The kind under a number.
    pub fn kind(&self, number: u32) -> Kind
        requires { number < length self.now }
        ensures { option_map kind_of (slice_get self.now number) ≡ Some result }
    {
        self.entries[number as usize].kind
    }

    /// The tag under a number.
    pub fn name(&self, number: u32) -> &[u8]
        requires { number < length self.now }
        ensures { option_map name_of (slice_get self.now number) ≡ Some result.now }
    {
        self.entries[number as usize].name.as_slice()
    }

    /// The layout under a number.
    pub fn layout(&self, number: u32) -> &StructLayout
        requires { number < length self.now }
        ensures { option_map (declared_layout self.now) (slice_get self.now number) ≡ Some result.now }
    {
        &self.entries[number as usize].layout
    }

    /// Whether it has the struct or union that the layout names, and the layout's alignment isn't 0.
    pub fn has(&self, layout: Layout) -> bool
        ensures { IsTrue result ↔ IsKnown self.now layout }
    {
        match layout {
            Layout::Int(_) | Layout::Bool | Layout::Ptr => true,
            Layout::Struct(number) => self.declares(number, Kind::Struct),
            Layout::Union(number) => self.declares(number, Kind::Union),
            Layout::Bytes { size: _, align } => align > 0,
        }
    }

    /// Whether it has all of these.
    pub fn has_all(&self, layouts: &[Layout]) -> bool
        ensures { IsTrue result ↔ All (IsKnown self.now) layouts.now }
    {
        layouts.iter().all(|layout| self.has(*layout))
    }

    fn declares(&self, number: u32, kind: Kind) -> bool
        ensures { IsTrue result ↔ Declares self.now number kind }
    {
        match self.entries.get(number as usize) {
            Some(entry) => entry.kind == kind,
            None => false,
        }
    }
}

fn layout_of_kind(
    alloc: Global,
    kind: Kind,
    members: &[Layout],
    table: &Table,
) -> Result<StructLayout, LayoutRefusal>
    requires { All (IsKnown table.now) members.now }
    ensures layout { IfOk result (λ layout. layout ≡ layout_of kind table.now members.now) }
    ensures fits { IfOk result (λ layout. layout.size ≤ 2 ^ 31) }
    ensures too_large { result ≡ Err LayoutRefusal.TooLarge → 2 ^ 31 < (layout_of kind table.now members.now).size }
{
    match kind {
        Kind::Struct => struct_layout(alloc, members, table),
        Kind::Union => union_layout(alloc, members, table),
    }
}

/// The size in bytes.
pub fn size_of(layout: Layout, table: &Table) -> u32
    requires { IsKnown table.now layout }
    ensures { result ≡ bytes_of table.now layout }
{
    match layout {
        Layout::Int(t) => size_of_int(t),
        Layout::Bool => 1,
        Layout::Ptr => 8,
        Layout::Struct(number) | Layout::Union(number) => table.entries[number as usize]
            .layout
            .size,
        Layout::Bytes { size, align: _ } => size,
    }
}

/// The alignment in bytes, of which each offset of a value of the layout is a multiple.
pub fn align_of(layout: Layout, table: &Table) -> u32
    requires { IsKnown table.now layout }
    ensures value { result ≡ alignment_of table.now layout }
    ensures positive { 0 < result }
{
    match layout {
        Layout::Int(t) => size_of_int(t),
        Layout::Bool => 1,
        Layout::Ptr => 8,
        Layout::Struct(number) | Layout::Union(number) => table.entries[number as usize]
            .layout
            .align,
        Layout::Bytes { size: _, align } => align,
    }
}

ghost use Rattle.layouts.specs.IntType.{int_bytes_of};

/// The size in bytes of an integer type.
pub fn size_of_int(t: IntType) -> u32
    ensures { result ≡ int_bytes_of t }
{
    match t {
        IntType::Char | IntType::SChar | IntType::UChar => 1,
        IntType::Short | IntType::UShort => 2,
        IntType::Int | IntType::UInt => 4,
        IntType::Long | IntType::ULong => 8,
        IntType::LLong | IntType::ULLong => 8,
    }
}
