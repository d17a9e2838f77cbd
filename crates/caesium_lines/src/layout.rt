ghost use Rattle.std.specs.Prelude.{◌≡◌, ◌++◌, ◌∷◌, [], codes, OnOk};
ghost use Rattle.std.specs.Fmt.{decimal};
ghost use Rattle.caesium_lines.specs.Words.{spaced};
ghost use Rattle.caesium_lines.specs.Layout.{layout_words, local_words, member_words};

use crate::words::{append_number, append_word, int_word};
use layouts::IntType;
use rc_text::{Bytes, NoMemory};
use std::alloc::Global;

/// A layout, in which a struct or union goes by its tag.
#[derive(Debug, Drop)]
pub enum NamedLayout {
    Int(IntType),
    Bool,
    Ptr,
    Struct(Bytes),
    Union(Bytes),
    Bytes { size: u32, align: u32 },
}

/// A parameter or another local of a function.
#[derive(Debug, Drop)]
pub struct NamedLocal {
    pub name: Bytes,
    pub layout: NamedLayout,
}

/// A member of a struct, and its offset in bytes.
#[derive(Debug, Drop)]
pub struct NamedMember {
    pub offset: u32,
    pub layout: NamedLayout,
}

/// Puts a layout at the end, each of its words with a blank before it.
pub fn append_layout(alloc: Global, text: &mut Bytes, layout: &NamedLayout) -> Result<(), NoMemory>
    ensures { OnOk result (text.new ≡ text.old ++ spaced (layout_words layout.now)) }
{
    match layout {
        NamedLayout::Int(of) => append_word(text, int_word(*of)),
        NamedLayout::Bool => append_word(text, b"bool"),
        NamedLayout::Ptr => append_word(text, b"ptr"),
        NamedLayout::Struct(tag) => append_words(text, b"struct", tag.as_slice()),
        NamedLayout::Union(tag) => append_words(text, b"union", tag.as_slice()),
        NamedLayout::Bytes { size, align } => append_array(alloc, text, *size, *align),
    }
}

fn append_words(text: &mut Bytes, first: &[u8], second: &[u8]) -> Result<(), NoMemory>
    ensures { OnOk result (text.new ≡ text.old ++ spaced (first.now ∷ second.now ∷ [])) }
{
    append_word(text, first)?;
    append_word(text, second)
}

fn append_array(alloc: Global, text: &mut Bytes, size: u32, align: u32) -> Result<(), NoMemory>
    ensures { OnOk result (text.new ≡ text.old ++ spaced (codes "bytes" ∷ decimal size ∷ decimal align ∷ [])) }
{
    append_word(text, b"bytes")?;
    append_number(alloc, text, size)?;
    append_number(alloc, text, align)
}

/// Puts a local at the end, each of its words with a blank before it.
pub fn append_local(alloc: Global, text: &mut Bytes, local: &NamedLocal) -> Result<(), NoMemory>
    ensures { OnOk result (text.new ≡ text.old ++ spaced (local_words local.now)) }
{
    append_word(text, local.name.as_slice())?;
    append_layout(alloc, text, &local.layout)
}

/// Puts a member of a struct at the end, each of its words with a blank before it.
pub fn append_member(alloc: Global, text: &mut Bytes, member: &NamedMember) -> Result<(), NoMemory>
    ensures { OnOk result (text.new ≡ text.old ++ spaced (member_words member.now)) }
{
    append_number(alloc, text, member.offset)?;
    append_layout(alloc, text, &member.layout)
}
