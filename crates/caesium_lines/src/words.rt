ghost use Rattle.std.specs.Prelude.{◌≡◌, ◌++◌, ◌∷◌, OnOk};
ghost use Rattle.std.specs.Fmt.{decimal, signed_decimal};
ghost use Rattle.caesium_lines.specs.Words.{int_word, operator_word, scalar_word, truth_word};

use caesium_ir::{BinaryOperator, Scalar};
use layouts::IntType;
use rc_text::{Bytes, NoMemory};
use std::alloc::Global;

/// The word of an integer type.
pub fn int_word(of: IntType) -> &'static [u8]
    ensures { result.now ≡ int_word of }
{
    match of {
        IntType::Char => b"char",
        IntType::SChar => b"schar",
        IntType::UChar => b"uchar",
        IntType::Short => b"short",
        IntType::UShort => b"ushort",
        IntType::Int => b"int",
        IntType::UInt => b"uint",
        IntType::Long => b"long",
        IntType::ULong => b"ulong",
        IntType::LLong => b"llong",
        IntType::ULLong => b"ullong",
    }
}

/// The word of a type that `cast` converts from or to.
pub fn scalar_word(of: Scalar) -> &'static [u8]
    ensures { result.now ≡ scalar_word of }
{
    match of {
        Scalar::Int(of) => int_word(of),
        Scalar::Bool => b"bool",
    }
}

/// The word of an operator on two integers.
pub fn operator_word(operator: BinaryOperator) -> &'static [u8]
    ensures { result.now ≡ operator_word operator }
{
    match operator {
        BinaryOperator::Add => b"add",
        BinaryOperator::Sub => b"sub",
        BinaryOperator::Mul => b"mul",
        BinaryOperator::Div => b"div",
        BinaryOperator::Rem => b"rem",
        BinaryOperator::And => b"and",
        BinaryOperator::Or => b"or",
        BinaryOperator::Xor => b"xor",
        BinaryOperator::Eq => b"eq",
        BinaryOperator::Ne => b"ne",
        BinaryOperator::Lt => b"lt",
        BinaryOperator::Le => b"le",
        BinaryOperator::Gt => b"gt",
        BinaryOperator::Ge => b"ge",
    }
}

/// The word of a truth value.
pub fn truth_word(value: bool) -> &'static [u8]
    ensures { result.now ≡ truth_word value }
{
    if value { b"1" } else { b"0" }
}

/// Puts a word at the end, with a blank before it.
pub fn append_word(text: &mut Bytes, word: &[u8]) -> Result<(), NoMemory>
    ensures { OnOk result (text.new ≡ text.old ++ 32 ∷ word.now) }
{
    text.append(b" ")?;
    text.append(word)
}

/// Puts a number at the end, with a blank before it.
pub fn append_number(alloc: Global, text: &mut Bytes, number: u32) -> Result<(), NoMemory>
    ensures { OnOk result (text.new ≡ text.old ++ 32 ∷ decimal number) }
{
    let word = format!(in alloc; "{number}")?;
    append_word(text, word.as_bytes())
}

/// Puts a number with its sign at the end, with a blank before it.
pub fn append_signed(alloc: Global, text: &mut Bytes, number: i128) -> Result<(), NoMemory>
    ensures { OnOk result (text.new ≡ text.old ++ 32 ∷ signed_decimal number) }
{
    let word = format!(in alloc; "{number}")?;
    append_word(text, word.as_bytes())
}
