ghost use Rattle.std.specs.Prelude.{◌≡◌, ◌++◌, ◌∷◌, [], map, codes, OnOk};
ghost use Rattle.std.specs.Fmt.{signed_decimal};
ghost use Rattle.caesium_lines.specs.Words.{int_word, words_text, spaced};
ghost use Rattle.caesium_lines.specs.End.{end_text, case_word};

use crate::words::{append_signed, append_word, int_word};
use layouts::IntType;
use rc_text::{Bytes, NoMemory};
use sqlite_items::Items;
use std::alloc::Global;

/// A number on which a `switch` goes on with the block of the label.
#[derive(Debug, Drop)]
pub struct NamedCase {
    pub value: i128,
    pub label: Bytes,
}

/// How a block ends, with labels alone.
#[derive(Debug, Drop)]
pub enum NamedEnd {
    Goto(Bytes),
    If {
        nonzero: Bytes,
        zero: Bytes,
    },
    Switch {
        of: IntType,
        cases: Items<NamedCase>,
        otherwise: Bytes,
    },
    Return,
}

/// Puts the text of the end of a block at the end.
pub fn append_end(alloc: Global, text: &mut Bytes, end: &NamedEnd) -> Result<(), NoMemory>
    ensures { OnOk result (text.new ≡ text.old ++ end_text end.now) }
{
    match end {
        NamedEnd::Goto(label) => append_goto(text, label.as_slice()),
        NamedEnd::If { nonzero, zero } => append_if(text, nonzero.as_slice(), zero.as_slice()),
        NamedEnd::Switch {
            of,
            cases,
            otherwise,
        } => append_switch(alloc, text, *of, cases.as_slice(), otherwise.as_slice()),
        NamedEnd::Return => text.append(b"return"),
    }
}

fn append_goto(text: &mut Bytes, label: &[u8]) -> Result<(), NoMemory>
    ensures { OnOk result (text.new ≡ text.old ++ words_text (codes "goto" ∷ label.now ∷ [])) }
{
    text.append(b"goto")?;
    append_word(text, label)
}

fn append_if(text: &mut Bytes, nonzero: &[u8], zero: &[u8]) -> Result<(), NoMemory>
    ensures { OnOk result (text.new ≡ text.old ++ words_text (codes "if" ∷ nonzero.now ∷ zero.now ∷ [])) }
{
    text.append(b"if")?;
    append_word(text, nonzero)?;
    append_word(text, zero)
}

fn append_switch(
    alloc: Global,
    text: &mut Bytes,
    of: IntType,
    cases: &[NamedCase],
    otherwise: &[u8],
) -> Result<(), NoMemory>
    ensures { OnOk result (text.new ≡ text.old ++ words_text (codes "switch" ∷ int_word of
        ∷ (map case_word cases.now ++ codes "else" ∷ otherwise.now ∷ []))) }
{
    text.append(b"switch")?;
    append_word(text, int_word(of))?;
    append_cases(alloc, text, cases)?;
    append_word(text, b"else")?;
    append_word(text, otherwise)
}

fn append_cases(alloc: Global, text: &mut Bytes, cases: &[NamedCase]) -> Result<(), NoMemory>
    ensures { OnOk result (text.new ≡ text.old ++ spaced (map case_word cases.now)) }
{
    for case in cases {
        append_case(alloc, text, case)?;
    }
    Ok(())
}

fn append_case(alloc: Global, text: &mut Bytes, case: &NamedCase) -> Result<(), NoMemory>
    ensures { OnOk result (text.new ≡ text.old ++ 32 ∷ case_word case.now) }
{
    append_signed(alloc, text, case.value)?;
    text.append(b":")?;
    text.append(case.label.as_slice())
}
