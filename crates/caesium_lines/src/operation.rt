ghost use Rattle.std.specs.Prelude.{◌≡◌, ◌++◌, ◌∷◌, [], codes, OnOk};
ghost use Rattle.std.specs.Fmt.{decimal, signed_decimal};
ghost use Rattle.caesium_lines.specs.Words.{int_word, words_text};
ghost use Rattle.caesium_lines.specs.Layout.{layout_words};
ghost use Rattle.caesium_lines.specs.Operation.{op_words, op_text};

use crate::layout::{NamedLayout, append_layout};
use crate::words::{
    append_number, append_signed, append_word, int_word, operator_word, scalar_word, truth_word,
};
use caesium_ir::{BinaryOperator, Scalar};
use layouts::IntType;
use rc_text::{Bytes, NoMemory};
use std::alloc::Global;

/// An operation, in which locals, structs, unions and functions go by their names. A call has no number of arguments:
/// the function of the name has it.
#[derive(Debug, Drop)]
pub enum NamedOp {
    Const {
        of: IntType,
        value: i128,
    },
    ConstBool {
        value: bool,
    },
    Null,
    Poison {
        size: u32,
    },
    Local {
        name: Bytes,
    },
    Field {
        of: Bytes,
        member: u32,
    },
    Index {
        size: u32,
        of: IntType,
    },
    Load {
        layout: NamedLayout,
    },
    LoadAtomic,
    Store {
        layout: NamedLayout,
    },
    StoreAtomic,
    Neg {
        of: IntType,
    },
    Compl {
        of: IntType,
    },
    Binary {
        operator: BinaryOperator,
        of: IntType,
    },
    Shl {
        of: IntType,
        amount: IntType,
    },
    Shr {
        of: IntType,
        amount: IntType,
    },
    Cast {
        from: Scalar,
        to: Scalar,
    },
    PtrEq,
    PtrNe,
    Cas,
    Exchange,
    Call {
        function: Bytes,
    },
    Fork {
        function: Bytes,
    },
    Drop,
}

/// Puts the text of an operation at the end.
pub fn append_op(alloc: Global, text: &mut Bytes, op: &NamedOp) -> Result<(), NoMemory>
    ensures { OnOk result (text.new ≡ text.old ++ op_text op.now) }
{
    match op {
        NamedOp::Const { of, value } => append_const(alloc, text, *of, *value),
        NamedOp::ConstBool { value } => append_three(text, b"const", b"bool", truth_word(*value)),
        NamedOp::Null => append_two(text, b"const", b"null"),
        NamedOp::Poison { size } => append_poison(alloc, text, *size),
        NamedOp::Local { name } => append_two(text, b"local", name.as_slice()),
        NamedOp::Field { of, member } => append_field(alloc, text, of.as_slice(), *member),
        NamedOp::Index { size, of } => append_index(alloc, text, *size, *of),
        NamedOp::Load { layout } => append_access(alloc, text, b"load", layout),
        NamedOp::LoadAtomic => append_three(text, b"load", b"atomic", b"bool"),
        NamedOp::Store { layout } => append_access(alloc, text, b"store", layout),
        NamedOp::StoreAtomic => append_three(text, b"store", b"atomic", b"bool"),
        NamedOp::Neg { of } => append_two(text, b"neg", int_word(*of)),
        NamedOp::Compl { of } => append_two(text, b"compl", int_word(*of)),
        NamedOp::Binary { operator, of } => {
            append_two(text, operator_word(*operator), int_word(*of))
        }
        NamedOp::Shl { of, amount } => {
            append_three(text, b"shl", int_word(*of), int_word(*amount))
        }
        NamedOp::Shr { of, amount } => {
            append_three(text, b"shr", int_word(*of), int_word(*amount))
        }
        NamedOp::Cast { from, to } => {
            append_three(text, b"cast", scalar_word(*from), scalar_word(*to))
        }
        NamedOp::PtrEq => text.append(b"ptr_eq"),
        NamedOp::PtrNe => text.append(b"ptr_ne"),
        NamedOp::Cas => text.append(b"cas"),
        NamedOp::Exchange => text.append(b"exchange"),
        NamedOp::Call { function } => append_two(text, b"call", function.as_slice()),
        NamedOp::Fork { function } => append_two(text, b"fork", function.as_slice()),
        NamedOp::Drop => text.append(b"drop"),
    }
}

fn append_two(text: &mut Bytes, first: &[u8], second: &[u8]) -> Result<(), NoMemory>
    ensures { OnOk result (text.new ≡ text.old ++ words_text (first.now ∷ second.now ∷ [])) }
{
    text.append(first)?;
    append_word(text, second)
}

fn append_three(text: &mut Bytes, first: &[u8], second: &[u8], third: &[u8]) -> Result<(), NoMemory>
    ensures { OnOk result (text.new ≡ text.old ++ words_text (first.now ∷ second.now ∷ third.now ∷ [])) }
{
    append_two(text, first, second)?;
    append_word(text, third)
}

fn append_const(alloc: Global, text: &mut Bytes, of: IntType, value: i128) -> Result<(), NoMemory>
    ensures { OnOk result (text.new ≡ text.old
        ++ words_text (codes "const" ∷ int_word of ∷ signed_decimal value ∷ [])) }
{
    append_two(text, b"const", int_word(of))?;
    append_signed(alloc, text, value)
}

fn append_poison(alloc: Global, text: &mut Bytes, size: u32) -> Result<(), NoMemory>
    ensures { OnOk result (text.new ≡ text.old ++ words_text (codes "const" ∷ codes "poison" ∷ decimal size ∷ [])) }
{
    append_two(text, b"const", b"poison")?;
    append_number(alloc, text, size)
}

fn append_field(alloc: Global, text: &mut Bytes, of: &[u8], member: u32) -> Result<(), NoMemory>
    ensures { OnOk result (text.new ≡ text.old ++ words_text (codes "field" ∷ (of.now ++ 46 ∷ decimal member) ∷ [])) }
{
    append_two(text, b"field", of)?;
    let number = format!(in alloc; ".{member}")?;
    text.append(number.as_bytes())
}

fn append_index(alloc: Global, text: &mut Bytes, size: u32, of: IntType) -> Result<(), NoMemory>
    ensures { OnOk result (text.new ≡ text.old ++ words_text (codes "index" ∷ decimal size ∷ int_word of ∷ [])) }
{
    text.append(b"index")?;
    append_number(alloc, text, size)?;
    append_word(text, int_word(of))
}

fn append_access(
    alloc: Global,
    text: &mut Bytes,
    word: &[u8],
    layout: &NamedLayout,
) -> Result<(), NoMemory>
    ensures { OnOk result (text.new ≡ text.old ++ words_text (word.now ∷ layout_words layout.now)) }
{
    text.append(word)?;
    append_layout(alloc, text, layout)
}
