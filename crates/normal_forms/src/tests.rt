//! Small terms with their normal forms, worked out by hand.
mod limits;
mod literals;
mod pairs;
mod propositions;

use super::*;
use rc_terms::{BinaryOperator, Name, Sort, Sorts, Term, UnaryOperator, is_same_term};
use shared_values::Shared;
use std::alloc::Global;
use std::process::Abort;
use std::test::Fail;

/// Terms, and their normal forms, each operator behind its operands. A constant comes first, and names come by length
/// and bytes; a product comes behind its own first factors. A location comes before the one sum that is added to it.
const NORMAL: [(&str, &str); 69] = [
    ("7", "7"),
    ("x", "x"),
    ("x y +", "x y +"),
    ("y x +", "x y +"),
    ("x 3 +", "3 x +"),
    ("3 x +", "3 x +"),
    ("3 4 +", "7"),
    ("3 4 -", "-1"),
    ("3 4 *", "12"),
    ("3 neg", "-3"),
    ("x neg", "-1 x *"),
    ("x neg neg", "x"),
    ("x x +", "2 x *"),
    ("x x -", "0"),
    ("x x + x -", "x"),
    ("x y -", "x -1 y * +"),
    ("y x -", "-1 x * y +"),
    ("2 x * 3 x * +", "5 x *"),
    ("2 x * 3 x * -", "-1 x *"),
    ("x 0 *", "0"),
    ("x 1 *", "x"),
    ("1 x *", "x"),
    ("x 2 *", "2 x *"),
    ("y x *", "x y *"),
    ("x y *", "x y *"),
    ("y x * x y * -", "0"),
    ("x x *", "x x *"),
    ("x 1 + 2 *", "2 2 x * +"),
    ("x n 1 + *", "n x * x +"),
    ("x y + x y - *", "x x * -1 y * y * +"),
    ("x y + x y + *", "x x * 2 x * y * + y y * +"),
    ("x 1 + x 1 - *", "-1 x x * +"),
    ("x y z + *", "x y * x z * +"),
    ("x y quot y x quot +", "x y quot y x quot +"),
    ("y x quot x y quot +", "x y quot y x quot +"),
    ("x y + 2 quot y x + 2 quot -", "0"),
    ("l y x + nth", "l x y + nth"),
    ("t x x + y if", "t 2 x * y if"),
    ("x x - y <", "0 y <"),
    ("l len l len +", "2 l len *"),
    ("3 x * 4 *", "12 x *"),
    ("x neg y neg *", "x y *"),
    ("x neg y *", "-1 x * y *"),
    ("x y + neg", "-1 x * -1 y * +"),
    ("x 1 - x 1 - *", "1 -2 x * + x x * +"),
    ("x y - x y - *", "x x * -2 x * y * + y y * +"),
    ("x y + z *", "x z * y z * +"),
    ("z y * x *", "x y * z *"),
    ("x 2 * y 3 * *", "6 x * y *"),
    ("0 x -", "-1 x *"),
    ("x y quot 1 *", "x y quot"),
    ("x 1 + y quot 1 x + y quot -", "0"),
    ("p", "p"),
    ("p 0 +", "p"),
    ("p 8 +", "p 8 +"),
    ("p 4 + 4 +", "p 8 +"),
    ("p 4 + 4 -1 * +", "p"),
    ("p x + 4 +", "p 4 x + +"),
    ("p x 4 + +", "p 4 x + +"),
    ("p 4 + x +", "p 4 x + +"),
    ("p y + x +", "p x y + +"),
    ("p x + x neg +", "p"),
    ("p x + x +", "p 2 x * +"),
    ("p x 1 + 2 * + y x * +", "p 2 2 x * + x y * + +"),
    ("t p q if 4 + x + 4 +", "t p q if 8 x + +"),
    ("t p 4 + 4 + q if", "t p 8 + q if"),
    ("t p 4 + 4 + q if 1 + 1 +", "t p 8 + q if 2 +"),
    ("p 4 + 4 + q x + 1 + =", "p 8 + q 1 x + + ="),
    ("p 4 + 4 + 8 aligned", "p 8 + 8 aligned"),
];

const BINARY: [(BinaryOperator, &str); 21] = [
    (BinaryOperator::Add, "+"),
    (BinaryOperator::Subtract, "-"),
    (BinaryOperator::Multiply, "*"),
    (BinaryOperator::Quotient, "quot"),
    (BinaryOperator::Remainder, "rem"),
    (BinaryOperator::ShiftLeft, "shl"),
    (BinaryOperator::ShiftRight, "shr"),
    (BinaryOperator::BitAnd, "band"),
    (BinaryOperator::BitOr, "bor"),
    (BinaryOperator::BitXor, "bxor"),
    (BinaryOperator::Element, "nth"),
    (BinaryOperator::Below, "<"),
    (BinaryOperator::AtMost, "<="),
    (BinaryOperator::Above, ">"),
    (BinaryOperator::AtLeast, ">="),
    (BinaryOperator::Equal, "="),
    (BinaryOperator::Unequal, "!="),
    (BinaryOperator::And, "&&"),
    (BinaryOperator::Or, "||"),
    (BinaryOperator::Implies, "->"),
    (BinaryOperator::Aligned, "aligned"),
];

fn popped(alloc: Global, stack: &mut Vec<Term>) -> Result<Shared<Term>, Fail> {
    Ok(Shared::new(alloc, stack.pop().ok_or("no operand")?)?)
}

/// The term that a word makes of those before it.
pub fn term_of(alloc: Global, word: &str, stack: &mut Vec<Term>) -> Result<Term, Fail> {
    for (operator, spelling) in BINARY {
        if word == spelling {
            let right = popped(alloc, stack)?;
            return Ok(Term::Binary(operator, popped(alloc, stack)?, right));
        }
    }
    leaf_or_other(alloc, word, stack)
}

fn leaf_or_other(alloc: Global, word: &str, stack: &mut Vec<Term>) -> Result<Term, Fail> {
    Ok(match word {
        "neg" => Term::Unary(UnaryOperator::Negative, popped(alloc, stack)?),
        "!" => Term::Unary(UnaryOperator::Not, popped(alloc, stack)?),
        "true" => Term::Truth(true),
        "false" => Term::Truth(false),
        "null" => Term::Null,
        "G" => Term::Integer(i128::MAX),
        "len" => Term::Unary(UnaryOperator::Length, popped(alloc, stack)?),
        "if" => {
            let third = popped(alloc, stack)?;
            let second = popped(alloc, stack)?;
            Term::Conditional(popped(alloc, stack)?, second, third)
        }
        _ => match word.parse::<i128>() {
            Ok(number) => Term::Integer(number),
            Err(_) => Term::Variable(Name::from_str(alloc, word)?),
        },
    })
}

/// The term that the words spell.
pub fn term(alloc: Global, text: &str) -> Result<Term, Fail> {
    let mut stack = Vec::new(alloc);
    for word in text.split_whitespace() {
        let term = term_of(alloc, word, &mut stack)?;
        stack.push(term)?;
    }
    Ok(stack.pop().ok_or("no term")?)
}

/// `x`, `y`, `z`, `n` are numbers, `t` and `u` truth values, `l` a list, `p` and `q` locations.
pub fn sorts(alloc: Global) -> Result<Sorts, Fail> {
    let mut sorts = Sorts::new(alloc);
    for name in ["x", "y", "z", "n"] {
        sorts.bind(Name::from_str(alloc, name)?, Sort::Int)?;
    }
    sorts.bind(Name::from_str(alloc, "t")?, Sort::Bool)?;
    sorts.bind(Name::from_str(alloc, "u")?, Sort::Bool)?;
    sorts.bind(Name::from_str(alloc, "l")?, Sort::List)?;
    sorts.bind(Name::from_str(alloc, "p")?, Sort::Loc)?;
    sorts.bind(Name::from_str(alloc, "q")?, Sort::Loc)?;
    Ok(sorts)
}

/// Whether the second text spells the normal form of the first.
pub fn is_normal(alloc: Global, text: &str, wanted: &str, sorts: &Sorts) -> Result<bool, Fail> {
    let term_given = term(alloc, text)?;
    let Ok(normal) = normal_term(alloc, &term_given, sorts) else {
        return Ok(false);
    };
    Ok(is_same_term(&normal, &term(alloc, wanted)?))
}

#[test]
fn brings_small_terms_to_normal_form(rt: HostRuntime) -> Result<(), Fail> {
    let alloc = rt.alloc();
    let sorts = sorts(alloc)?;
    for (text, wanted) in NORMAL {
        let holds = is_normal(alloc, text, wanted, &sorts)?;
        assert!(rt; holds, "{text} becomes {wanted}");
    }
    Ok(())
}
