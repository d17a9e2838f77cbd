ghost use Rattle.std.specs.Prelude.{◌≡◌, ◌++◌, ◌∷◌, [], map, flat_map, codes, Option, OnOk};
ghost use Rattle.std.specs.Fmt.{decimal};
ghost use Rattle.caesium_lines.specs.Words.{spaced, words_text};
ghost use Rattle.caesium_lines.specs.Layout.{layout_words, local_words, member_words};
ghost use Rattle.caesium_lines.specs.Line.{line_text, head_text, listed, result_text, parameters_text, led};

use crate::end::{NamedEnd, append_end};
use crate::layout::{
    NamedLayout, NamedLocal, NamedMember, append_layout, append_local, append_member,
};
use crate::operation::{NamedOp, append_op};
use crate::words::{append_number, append_word};
use rc_text::{Bytes, NoMemory};
use sqlite_items::Items;
use std::alloc::Global;

/// A line of the text of a program.
#[derive(Debug, Drop)]
pub enum Line {
    /// A struct: its tag, its size and alignment in bytes, and its members in order.
    Struct {
        tag: Bytes,
        size: u32,
        align: u32,
        members: Items<NamedMember>,
    },
    /// A union, whose members all stand at offset 0.
    Union {
        tag: Bytes,
        size: u32,
        align: u32,
        members: Items<NamedLayout>,
    },
    /// What a function begins with: its name, its parameters, and the layout of its result, none for void.
    Function {
        name: Bytes,
        parameters: Items<NamedLocal>,
        result: Option<NamedLayout>,
    },
    /// A further local of the function.
    Local(NamedLocal),
    /// What a block begins with.
    Label(Bytes),
    /// An operation of the block.
    Operation(NamedOp),
    /// The end of the block.
    End(NamedEnd),
}

/// Puts the text of a line at the end, without a line feed.
pub fn append_line(alloc: Global, text: &mut Bytes, line: &Line) -> Result<(), NoMemory>
    ensures { OnOk result (text.new ≡ text.old ++ line_text line.now) }
{
    match line {
        Line::Struct {
            tag,
            size,
            align,
            members,
        } => {
            append_head(alloc, text, b"struct", tag.as_slice(), *size, *align)?;
            append_members(alloc, text, members.as_slice())
        }
        Line::Union {
            tag,
            size,
            align,
            members,
        } => {
            append_head(alloc, text, b"union", tag.as_slice(), *size, *align)?;
            append_layouts(alloc, text, members.as_slice())
        }
        Line::Function {
            name,
            parameters,
            result,
        } => append_function(alloc, text, name.as_slice(), parameters.as_slice(), result),
        Line::Local(local) => append_further(alloc, text, local),
        Line::Label(label) => append_label(text, label.as_slice()),
        Line::Operation(op) => {
            text.append(b"  ")?;
            append_op(alloc, text, op)
        }
        Line::End(end) => {
            text.append(b"  ")?;
            append_end(alloc, text, end)
        }
    }
}

fn append_head(
    alloc: Global,
    text: &mut Bytes,
    kind: &[u8],
    tag: &[u8],
    size: u32,
    align: u32,
) -> Result<(), NoMemory>
    ensures { OnOk result (text.new ≡ text.old ++ head_text kind.now tag.now size align) }
{
    text.append(kind)?;
    append_word(text, tag)?;
    append_number(alloc, text, size)?;
    append_number(alloc, text, align)?;
    text.append(b":")
}

fn append_members(alloc: Global, text: &mut Bytes, members: &[NamedMember]) -> Result<(), NoMemory>
    ensures { OnOk result (text.new ≡ text.old ++ listed (map member_words members.now)) }
{
    let Some((first, others)) = members.split_first() else {
        return Ok(());
    };
    append_member(alloc, text, first)?;
    append_other_members(alloc, text, others)
}

fn append_other_members(
    alloc: Global,
    text: &mut Bytes,
    members: &[NamedMember],
) -> Result<(), NoMemory>
    ensures { OnOk result (text.new ≡ text.old ++ led (map member_words members.now)) }
{
    for member in members {
        text.append(b",")?;
        append_member(alloc, text, member)?;
    }
    Ok(())
}

fn append_layouts(alloc: Global, text: &mut Bytes, layouts: &[NamedLayout]) -> Result<(), NoMemory>
    ensures { OnOk result (text.new ≡ text.old ++ listed (map layout_words layouts.now)) }
{
    let Some((first, others)) = layouts.split_first() else {
        return Ok(());
    };
    append_layout(alloc, text, first)?;
    append_other_layouts(alloc, text, others)
}

fn append_other_layouts(
    alloc: Global,
    text: &mut Bytes,
    layouts: &[NamedLayout],
) -> Result<(), NoMemory>
    ensures { OnOk result (text.new ≡ text.old ++ led (map layout_words layouts.now)) }
{
    for layout in layouts {
        text.append(b",")?;
        append_layout(alloc, text, layout)?;
    }
    Ok(())
}

fn append_function(
    alloc: Global,
    text: &mut Bytes,
    name: &[u8],
    parameters: &[NamedLocal],
    returned: &Option<NamedLayout>,
) -> Result<(), NoMemory>
    ensures { OnOk result (text.new ≡ text.old
        ++ (codes "fn " ++ name.now ++ codes "(" ++ parameters_text parameters.now
        ++ codes ") ->" ++ result_text returned.now)) }
{
    text.append(b"fn ")?;
    text.append(name)?;
    text.append(b"(")?;
    append_parameters(alloc, text, parameters)?;
    text.append(b") ->")?;
    append_result(alloc, text, returned)
}

fn append_parameters(
    alloc: Global,
    text: &mut Bytes,
    parameters: &[NamedLocal],
) -> Result<(), NoMemory>
    ensures { OnOk result (text.new ≡ text.old ++ parameters_text parameters.now) }
{
    let Some((first, others)) = parameters.split_first() else {
        return Ok(());
    };
    text.append(first.name.as_slice())?;
    append_layout(alloc, text, &first.layout)?;
    append_other_parameters(alloc, text, others)
}

fn append_other_parameters(
    alloc: Global,
    text: &mut Bytes,
    parameters: &[NamedLocal],
) -> Result<(), NoMemory>
    ensures { OnOk result (text.new ≡ text.old ++ led (map local_words parameters.now)) }
{
    for parameter in parameters {
        text.append(b",")?;
        append_local(alloc, text, parameter)?;
    }
    Ok(())
}

fn append_result(
    alloc: Global,
    text: &mut Bytes,
    returned: &Option<NamedLayout>,
) -> Result<(), NoMemory>
    ensures { OnOk result (text.new ≡ text.old ++ result_text returned.now) }
{
    match returned {
        Some(layout) => append_layout(alloc, text, layout),
        None => append_word(text, b"void"),
    }
}

fn append_further(alloc: Global, text: &mut Bytes, local: &NamedLocal) -> Result<(), NoMemory>
    ensures { OnOk result (text.new ≡ text.old ++ words_text (codes "local" ∷ local_words local.now)) }
{
    text.append(b"local")?;
    append_local(alloc, text, local)
}

fn append_label(text: &mut Bytes, label: &[u8]) -> Result<(), NoMemory>
    ensures { OnOk result (text.new ≡ text.old ++ label.now ++ codes ":") }
{
    text.append(label)?;
    text.append(b":")
}
