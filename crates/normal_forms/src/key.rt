//! The key of a term: a list of numbers that no other term has.
ghost use Rattle.std.specs.Prelude.{◌≡◌, ◌++◌, ◌∷◌, OnOk, length};
ghost use Rattle.normal_forms.specs.Order.{key_of, unary_place as place_of_unary, binary_place as place_of_binary};
ghost use Rattle.normal_forms.specs.Order.{number_key};

use rc_terms::{BinaryOperator, Name, Term, UnaryOperator};
use sqlite_items::Items;
use std::alloc::AllocError;

fn unary_place(operator: UnaryOperator) -> u128
    ensures { result ≡ place_of_unary operator }
{
    match operator {
        UnaryOperator::Negative => 0,
        UnaryOperator::Not => 1,
        UnaryOperator::Length => 2,
        UnaryOperator::Reverse => 3,
    }
}

fn binary_place(operator: BinaryOperator) -> u128
    ensures { result ≡ place_of_binary operator }
{
    match operator {
        BinaryOperator::Add => 0,
        BinaryOperator::Subtract => 1,
        BinaryOperator::Multiply => 2,
        BinaryOperator::Quotient => 3,
        BinaryOperator::Remainder => 4,
        BinaryOperator::ShiftLeft => 5,
        BinaryOperator::ShiftRight => 6,
        BinaryOperator::BitAnd => 7,
        BinaryOperator::BitOr => 8,
        BinaryOperator::BitXor => 9,
        BinaryOperator::Equal => 10,
        BinaryOperator::Unequal => 11,
        BinaryOperator::Below => 12,
        BinaryOperator::AtMost => 13,
        BinaryOperator::Above => 14,
        BinaryOperator::AtLeast => 15,
        BinaryOperator::And => 16,
        BinaryOperator::Or => 17,
        BinaryOperator::Implies => 18,
        BinaryOperator::Aligned => 19,
        BinaryOperator::Cons => 20,
        BinaryOperator::Append => 21,
        BinaryOperator::Element => 22,
        BinaryOperator::Take => 23,
        BinaryOperator::Drop => 24,
    }
}

/// Writes a number's sign, and how far it is from 0 or from -1.
fn push_number(key: &mut Items<u128>, number: i128) -> Result<(), AllocError>
    ensures { OnOk result (key.new ≡ key.old ++ number_key number) }
{
    if number < 0 {
        key.push(1)?;
        key.push(number.unsigned_abs() - 1)
    } else {
        key.push(0)?;
        key.push(number.unsigned_abs())
    }
}

/// Writes how long a name is, and its bytes.
fn push_name(key: &mut Items<u128>, name: &Name) -> Result<(), AllocError>
    ensures { OnOk result (key.new ≡ key.old ++ length name.now ∷ name.now) }
{
    let bytes = name.as_str().as_bytes();
    key.push(bytes.len() as u128)?;
    for byte in bytes {
        key.push(u128::from(*byte))?;
    }
    Ok(())
}

/// Writes a term's key behind what is there.
pub fn push_key(key: &mut Items<u128>, term: &Term) -> Result<(), AllocError>
    ensures { OnOk result (key.new ≡ key.old ++ key_of term.now) }
{
    match term {
        Term::Variable(name) => {
            key.push(0)?;
            push_name(key, name)
        }
        Term::Integer(number) => {
            key.push(1)?;
            push_number(key, *number)
        }
        Term::Truth(truth) => {
            key.push(2)?;
            key.push(u128::from(*truth))
        }
        Term::Null => key.push(3),
        Term::List(elements) => {
            key.push(4)?;
            key.push(elements.len() as u128)?;
            for element in elements.as_slice() {
                push_key(key, element.get())?;
            }
            Ok(())
        }
        Term::Unary(operator, operand) => {
            key.push(5)?;
            key.push(unary_place(*operator))?;
            push_key(key, operand.get())
        }
        Term::Binary(operator, left, right) => {
            key.push(6)?;
            key.push(binary_place(*operator))?;
            push_key(key, left.get())?;
            push_key(key, right.get())
        }
        Term::Conditional(first, second, third) => {
            key.push(7)?;
            push_key(key, first.get())?;
            push_key(key, second.get())?;
            push_key(key, third.get())
        }
        Term::Update(first, second, third) => {
            key.push(8)?;
            push_key(key, first.get())?;
            push_key(key, second.get())?;
            push_key(key, third.get())
        }
    }
}
