ghost use Rattle.std.specs.Prelude.{◌≡◌, All, IfOk, if◌then◌else◌};
ghost use Rattle.std.specs.Prelude.{slice_get, true, false};
ghost use Rattle.layouts.specs.Table.{IsKnown, bytes_of};
ghost use Rattle.c_types.specs.Layouts.{layout_under, array_layout, type_layout, is_too_large, missing_record};
ghost use Rattle.c_types.specs.Layouts.{IsKnownWhere, is_past_largest};

use crate::ctype::CType;
use layouts::{LARGEST_OBJECT, Layout, Table, align_of, size_of};

/// Why a type has no layout.
#[derive(Clone, Copy, Debug, PartialEq, Eq, Hash)]
pub enum Unsized {
    /// It is void, or a struct or union without members, or an array of one.
    Incomplete,
    /// It is an array of more than `LARGEST_OBJECT` bytes, or of such arrays.
    TooLarge,
}

fn layout_under(records: &[Option<Layout>], number: u32) -> Option<Layout>
    ensures { result ≡ layout_under (slice_get records.now number) }
{
    *records.get(number as usize)?
}

/// So many elements of this layout, unless they are too large.
fn array_layout(length: u64, element: Layout, table: &Table) -> Result<Layout, Unsized>
    requires { IsKnown table.now element }
    ensures layout { result ≡ (let layout = array_layout table.now length element in
        if is_past_largest table.now (Some layout) then Err Unsized.TooLarge else Ok layout) }
    ensures known { IfOk result (λ layout. IsKnown table.now layout) }
{
    let size = u128::from(length) * u128::from(size_of(element, table));
    if size > u128::from(LARGEST_OBJECT) {
        return Err(Unsized::TooLarge);
    }
    Ok(Layout::Bytes {
        size: size as u32,
        align: align_of(element, table),
    })
}

/// The layout of a type. `records` has that of each struct and union by its number, none while it is incomplete.
pub fn type_layout(t: &CType, records: &[Option<Layout>], table: &Table) -> Result<Layout, Unsized>
    requires { All (IsKnownWhere table.now) records.now }
    ensures layout { IfOk result (λ layout. type_layout table.now records.now t.now ≡ Some layout) }
    ensures known { IfOk result (λ layout. IsKnown table.now layout) }
    ensures incomplete { result ≡ Err Unsized.Incomplete → type_layout table.now records.now t.now ≡ None }
    ensures too_large { result ≡ Err Unsized.TooLarge → is_too_large table.now records.now t.now ≡ true }
    ensures fits { IfOk result (λ _. is_too_large table.now records.now t.now ≡ false) }
{
    match t {
        CType::Void => Err(Unsized::Incomplete),
        CType::Bool | CType::AtomicBool => Ok(Layout::Bool),
        CType::Integer(t) => Ok(Layout::Int(*t)),
        CType::Pointer(_) => Ok(Layout::Ptr),
        CType::Array { element, length } => {
            let element = type_layout(element.get(), records, table)?;
            array_layout(*length, element, table)
        }
        CType::Record(number) => layout_under(records, *number).ok_or(Unsized::Incomplete),
    }
}

/// The number of the struct or union for whose lack of members the type is incomplete.
pub fn missing_record(t: &CType, records: &[Option<Layout>]) -> Option<u32>
    ensures { result ≡ missing_record records.now t.now }
{
    match t {
        CType::Array { element, .. } => missing_record(element.get(), records),
        CType::Record(number) => match layout_under(records, *number) {
            Some(_) => None,
            None => Some(*number),
        },
        _ => None,
    }
}
