ghost use Rattle.std.specs.Prelude.{◌≡◌, ◌≤◌, ◌<◌, ◌^◌, length, slice_get, All, IfOk};
ghost use Rattle.layouts.specs.declared.table.Kind.TheVariants as kinds;
ghost use Rattle.std.specs.Int.{next_multiple_of};
ghost use Rattle.layouts.specs.Table.{layout_of, IsKnown};

use crate::layout::Layout;
use crate::table::{Table, align_of, size_of};
use rc_text::NoMemory;
use sqlite_items::Items;
use std::alloc::{AllocError, AllocFailed, Global};
use thiserror::Error;

/// How a struct or union lies in memory: its size and alignment in bytes, and for each member, in the order of
/// declaration, its offset in bytes and its layout.
#[derive(Debug, Drop)]
pub struct StructLayout {
    pub size: u32,
    pub align: u32,
    pub offsets: Items<u32>,
    pub members: Items<Layout>,
}

/// Why a struct or union has no layout.
#[derive(Clone, Copy, Debug, PartialEq, Eq, Hash, Error)]
pub enum LayoutRefusal {
    /// The size is above `LARGEST_OBJECT`.
    #[error("the object is too large")]
    TooLarge,
    #[error("no memory")]
    NoMemory,
}

impl From<AllocError> for LayoutRefusal {
    ghost use Rattle.std.specs.Prelude.{◌≡◌};
    ghost use Rattle.layouts.specs.declared.aggregate.LayoutRefusal.TheVariants as refusals;

    ghost from_gives = { λ _ refusal. refusal ≡ refusals.NoMemory };

    fn from(_error: AllocError) -> LayoutRefusal {
        LayoutRefusal::NoMemory
    }
}

impl<T: Drop> From<AllocFailed<T>> for LayoutRefusal {
    ghost use Rattle.std.specs.Prelude.{◌≡◌};
    ghost use Rattle.layouts.specs.declared.aggregate.LayoutRefusal.TheVariants as refusals;

    ghost from_gives = { λ _ refusal. refusal ≡ refusals.NoMemory };

    fn from(_error: AllocFailed<T>) -> LayoutRefusal {
        LayoutRefusal::NoMemory
    }
}

/// The greatest size of a struct or union in bytes, 2^31.
pub const LARGEST_OBJECT: u32 = 0x8000_0000;

/// The layout of a struct of these members. A struct without members has size 0 and alignment 1.
pub fn struct_layout(
    alloc: Global,
    members: &[Layout],
    table: &Table,
) -> Result<StructLayout, LayoutRefusal>
    requires { All (IsKnown table.now) members.now }
    ensures layout { IfOk result (λ layout. layout ≡ layout_of kinds.Struct table.now members.now) }
    ensures fits { IfOk result (λ layout. layout.size ≤ 2 ^ 31) }
    ensures too_large { result ≡ Err LayoutRefusal.TooLarge →
        2 ^ 31 < (layout_of kinds.Struct table.now members.now).size }
{
    let mut offsets = Vec::with_capacity(alloc, members.len())?;
    let mut end: u64 = 0;
    let mut align: u32 = 1;
    for member in members {
        let member_align = align_of(*member, table);
        let offset = end.next_multiple_of(u64::from(member_align));
        end = offset + u64::from(size_of(*member, table));
        if end > u64::from(LARGEST_OBJECT) {
            return Err(LayoutRefusal::TooLarge);
        }
        offsets.push_reserved(offset as u32);
        align = align.max(member_align);
    }
    rounded(
        end,
        align,
        Items::from_vec(offsets),
        Items::from_slice(alloc, members)?,
    )
}

/// The layout of a union of these members, each at offset 0. A union without members has size 0 and alignment 1.
pub fn union_layout(
    alloc: Global,
    members: &[Layout],
    table: &Table,
) -> Result<StructLayout, LayoutRefusal>
    requires { All (IsKnown table.now) members.now }
    ensures layout { IfOk result (λ layout. layout ≡ layout_of kinds.Union table.now members.now) }
    ensures fits { IfOk result (λ layout. layout.size ≤ 2 ^ 31) }
    ensures too_large { result ≡ Err LayoutRefusal.TooLarge →
        2 ^ 31 < (layout_of kinds.Union table.now members.now).size }
{
    let mut size: u32 = 0;
    let mut align: u32 = 1;
    for member in members {
        size = size.max(size_of(*member, table));
        align = align.max(align_of(*member, table));
    }
    let offsets = vec![in alloc; 0u32; members.len()]?;
    rounded(
        u64::from(size),
        align,
        Items::from_vec(offsets),
        Items::from_slice(alloc, members)?,
    )
}

/// The layout with the size rounded up to the alignment.
fn rounded(
    end: u64,
    align: u32,
    offsets: Items<u32>,
    members: Items<Layout>,
) -> Result<StructLayout, LayoutRefusal>
    requires small { end < 2 ^ 32 }
    requires positive { 0 < align }
    ensures layout { IfOk result (λ layout. layout ≡ record {
      size = next_multiple_of end align;
      align = align;
      offsets = offsets;
      members = members;
    }) }
    ensures fits { IfOk result (λ layout. layout.size ≤ 2 ^ 31) }
    ensures too_large { result ≡ Err LayoutRefusal.TooLarge → 2 ^ 31 < next_multiple_of end align }
{
    let size = end.next_multiple_of(u64::from(align));
    if size > u64::from(LARGEST_OBJECT) {
        return Err(LayoutRefusal::TooLarge);
    }
    Ok(StructLayout {
        size: size as u32,
        align,
        offsets,
        members,
    })
}

/// The offset in bytes of the member with this number.
pub fn field_offset(s: &StructLayout, i: usize) -> u32
    requires { i < length s.now.offsets }
    ensures { slice_get s.now.offsets i ≡ Some result }
{
    s.offsets.as_slice()[i]
}
