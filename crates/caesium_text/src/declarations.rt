ghost use Rattle.std.specs.Prelude.{◌≡◌, ◌<◌, ◌++◌, map, length, slice_get, IfOk, OnOk, Some};
ghost use Rattle.std.specs.Option.{option_map};
ghost use Rattle.caesium_text.specs.Naming.{named_layout};
ghost use Rattle.caesium_text.specs.Text.{named_members, declaration_line, lines_text};

use crate::naming::name_layout;
use crate::printing::append_whole_line;
use caesium_lines::{Line, NamedLayout, NamedMember};
use layouts::{Kind, Layout, Table};
use rc_text::{Bytes, NoMemory};
use sqlite_items::Items;
use std::alloc::Global;

/// Puts the lines of the structs and unions at the end.
pub fn append_declarations(alloc: Global, text: &mut Bytes, table: &Table) -> Result<(), NoMemory>
    ensures { OnOk result (text.new ≡ text.old ++ lines_text (map (declaration_line table.now) table.now)) }
{
    let count = count_of(table)?;
    for number in 0..count {
        let line = declaration_of(alloc, table, number)?;
        append_whole_line(alloc, text, line)?;
    }
    Ok(())
}

/// How many structs and unions there are. No memory holds more than their numbers count.
fn count_of(table: &Table) -> Result<u32, NoMemory>
    ensures { IfOk result (λ count. count ≡ length table.now) }
{
    let count = table.len();
    if count > u32::MAX as usize {
        return Err(NoMemory);
    }
    Ok(count as u32)
}

fn declaration_of(alloc: Global, table: &Table, number: u32) -> Result<Line, NoMemory>
    requires { number < length table.now }
    ensures { IfOk result (λ line. option_map (declaration_line table.now) (slice_get table.now number) ≡ Some line) }
{
    let tag = Bytes::from_slice(alloc, table.name(number))?;
    let layout = table.layout(number);
    let size = layout.size;
    let align = layout.align;
    let members = layout.members.as_slice();
    Ok(match table.kind(number) {
        Kind::Struct => Line::Struct {
            tag,
            size,
            align,
            members: name_members(alloc, table, layout.offsets.as_slice(), members)?,
        },
        Kind::Union => Line::Union {
            tag,
            size,
            align,
            members: name_layouts(alloc, table, members)?,
        },
    })
}

fn name_members(
    alloc: Global,
    table: &Table,
    offsets: &[u32],
    members: &[Layout],
) -> Result<Items<NamedMember>, NoMemory>
    ensures { IfOk result (λ named. named ≡ named_members table.now offsets.now members.now) }
{
    let mut named = Vec::new(alloc);
    for (number, offset) in offsets.iter().enumerate() {
        if number >= members.len() {
            return Ok(Items::from_vec(named));
        }
        let layout = name_layout(alloc, table, members[number])?;
        named.push(NamedMember {
            offset: *offset,
            layout,
        })?;
    }
    Ok(Items::from_vec(named))
}

fn name_layouts(
    alloc: Global,
    table: &Table,
    layouts: &[Layout],
) -> Result<Items<NamedLayout>, NoMemory>
    ensures { IfOk result (λ named. named ≡ map (named_layout table.now) layouts.now) }
{
    let mut named = Vec::new(alloc);
    for layout in layouts {
        named.push(name_layout(alloc, table, *layout)?)?;
    }
    Ok(Items::from_vec(named))
}
