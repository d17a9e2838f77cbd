//! Each operator on edge numbers against Python's, and small terms worked out by hand.
mod python_results;

use super::*;
use crate::tests::python_results as python;
use shared_values::Shared;
use sqlite_items::Items;
use std::alloc::Global;
use std::process::Abort;
use std::test::Fail;

const EDGES: [i128; 12] = [
    i128::MIN,
    -129,
    -7,
    -1,
    0,
    1,
    3,
    7,
    127,
    128,
    129,
    i128::MAX,
];

/// The operators by their words in the rows.
const BINARY: [(BinaryOperator, &str); 25] = [
    (BinaryOperator::Add, "add"),
    (BinaryOperator::Subtract, "sub"),
    (BinaryOperator::Multiply, "mul"),
    (BinaryOperator::Quotient, "quot"),
    (BinaryOperator::Remainder, "rem"),
    (BinaryOperator::ShiftLeft, "shl"),
    (BinaryOperator::ShiftRight, "shr"),
    (BinaryOperator::BitAnd, "band"),
    (BinaryOperator::BitOr, "bor"),
    (BinaryOperator::BitXor, "bxor"),
    (BinaryOperator::Equal, "="),
    (BinaryOperator::Unequal, "!="),
    (BinaryOperator::Below, "<"),
    (BinaryOperator::AtMost, "<="),
    (BinaryOperator::Above, ">"),
    (BinaryOperator::AtLeast, ">="),
    (BinaryOperator::And, "and"),
    (BinaryOperator::Or, "or"),
    (BinaryOperator::Implies, "implies"),
    (BinaryOperator::Aligned, "aligned"),
    (BinaryOperator::Cons, "cons"),
    (BinaryOperator::Append, "append"),
    (BinaryOperator::Element, "nth"),
    (BinaryOperator::Take, "take"),
    (BinaryOperator::Drop, "drop"),
];

const UNARY: [(UnaryOperator, &str); 4] = [
    (UnaryOperator::Negative, "neg"),
    (UnaryOperator::Not, "not"),
    (UnaryOperator::Length, "len"),
    (UnaryOperator::Reverse, "rev"),
];

fn name(alloc: Global, text: &str) -> Result<Name, Fail> {
    Ok(Name::from_str(alloc, text)?)
}

fn popped(alloc: Global, stack: &mut Vec<Term>) -> Result<Shared<Term>, Fail> {
    Ok(Shared::new(alloc, stack.pop().ok_or("no operand")?)?)
}

/// The term that a word makes of those before it: an operator stands behind its operands.
fn term_of(alloc: Global, word: &str, stack: &mut Vec<Term>) -> Result<Term, Fail> {
    for (operator, spelling) in BINARY {
        if word == spelling {
            let right = popped(alloc, stack)?;
            return Ok(Term::Binary(operator, popped(alloc, stack)?, right));
        }
    }
    for (operator, spelling) in UNARY {
        if word == spelling {
            return Ok(Term::Unary(operator, popped(alloc, stack)?));
        }
    }
    Ok(match word {
        "null" => Term::Null,
        "true" => Term::Truth(true),
        "false" => Term::Truth(false),
        "[]" => Term::List(Items::new(alloc)),
        "[.]" => {
            let mut elements = Items::new(alloc);
            elements.push(popped(alloc, stack)?)?;
            Term::List(elements)
        }
        "if" | "upd" => {
            let third = popped(alloc, stack)?;
            let second = popped(alloc, stack)?;
            let first = popped(alloc, stack)?;
            if word == "if" {
                Term::Conditional(first, second, third)
            } else {
                Term::Update(first, second, third)
            }
        }
        _ => match word.parse::<i128>() {
            Ok(number) => Term::Integer(number),
            Err(_) => Term::Variable(name(alloc, word)?),
        },
    })
}

/// The term that the words spell, each operator behind its operands.
fn term(alloc: Global, text: &str) -> Result<Term, Fail> {
    let mut stack = Vec::new(alloc);
    for word in text.split_whitespace() {
        let term = term_of(alloc, word, &mut stack)?;
        stack.push(term)?;
    }
    let term = stack.pop().ok_or("no term")?;
    if stack.is_empty() {
        Ok(term)
    } else {
        Err(Fail::from("too many terms"))
    }
}

/// `x` is 5, `t` is true, `p` is byte 12 of block 3, `q` the byte at this offset of block 3, and `l` is `[4; 5; 6]`.
fn environment(alloc: Global, offset: i128) -> Result<Env, Fail> {
    let mut env = Env::new(alloc);
    let p = Loc::At {
        block: 3,
        offset: 12,
    };
    env.bind(name(alloc, "x")?, TermValue::Integer(1))?;
    env.bind(name(alloc, "t")?, TermValue::Truth(true))?;
    env.bind(name(alloc, "p")?, TermValue::Location(p))?;
    env.bind(
        name(alloc, "q")?,
        TermValue::Location(Loc::At { block: 3, offset }),
    )?;
    let list = Items::from_slice(alloc, &[4, 5, 6])?;
    env.bind(name(alloc, "l")?, TermValue::List(list))?;
    env.bind(name(alloc, "x")?, TermValue::Integer(5))?;
    Ok(env)
}

/// A result in the spelling of the tables, or `W` where it was refused.
fn number_of(word: &str) -> Result<Option<i128>, Fail> {
    if word == "W" {
        return Ok(None);
    }
    if let Some(above) = word.strip_prefix("m+") {
        return Ok(i128::MIN.checked_add(above.parse::<i128>()?));
    }
    if let Some(below) = word.strip_prefix("M-") {
        return Ok(i128::MAX.checked_sub(below.parse::<i128>()?));
    }
    Ok(Some(word.parse::<i128>()?))
}

/// The number that the term is, 1 for true and 0 for false, or none where a number leaves 128 bits.
fn answer(alloc: Global, term: &Term, offset: i128) -> Result<Option<i128>, Fail> {
    match eval(alloc, term, &environment(alloc, offset)?) {
        Ok(TermValue::Integer(number)) => Ok(Some(number)),
        Ok(TermValue::Truth(true)) => Ok(Some(1)),
        Ok(TermValue::Truth(false)) => Ok(Some(0)),
        Ok(_) => Err(Fail::from("no number")),
        Err(TermRefusal::Width) => Ok(None),
        Err(_) => Err(Fail::from("no memory")),
    }
}

/// Each result of the table; the left operand of an alignment is the location at that offset.
fn expect_table(
    rt: &impl Abort,
    alloc: Global,
    operator: BinaryOperator,
    results: &str,
) -> Result<(), Fail> {
    let mut words = results.split_whitespace();
    for a in EDGES {
        for b in EDGES {
            let left = if operator == BinaryOperator::Aligned {
                Term::Variable(name(alloc, "q")?)
            } else {
                Term::Integer(a)
            };
            let left = Shared::new(alloc, left)?;
            let term = Term::Binary(operator, left, Shared::new(alloc, Term::Integer(b))?);
            let wanted = number_of(words.next().ok_or("too few results")?)?;
            let given = answer(alloc, &term, a)?;
            assert!(rt; given == wanted, "{operator:?} of {a} and {b} is {given:?}");
        }
    }
    Ok(())
}

#[test]
fn computes_as_python_does(rt: HostRuntime) -> Result<(), Fail> {
    let alloc = rt.alloc();
    expect_table(&rt, alloc, BinaryOperator::Add, python::ADD)?;
    expect_table(&rt, alloc, BinaryOperator::Subtract, python::SUBTRACT)?;
    expect_table(&rt, alloc, BinaryOperator::Multiply, python::MULTIPLY)?;
    expect_table(&rt, alloc, BinaryOperator::Quotient, python::QUOTIENT)?;
    expect_table(&rt, alloc, BinaryOperator::Remainder, python::REMAINDER)?;
    expect_table(&rt, alloc, BinaryOperator::ShiftLeft, python::SHIFT_LEFT)?;
    expect_table(&rt, alloc, BinaryOperator::ShiftRight, python::SHIFT_RIGHT)?;
    expect_table(&rt, alloc, BinaryOperator::Aligned, python::ALIGNED)
}

#[test]
fn takes_bits_and_compares_as_python_does(rt: HostRuntime) -> Result<(), Fail> {
    let alloc = rt.alloc();
    expect_table(&rt, alloc, BinaryOperator::BitAnd, python::BIT_AND)?;
    expect_table(&rt, alloc, BinaryOperator::BitOr, python::BIT_OR)?;
    expect_table(&rt, alloc, BinaryOperator::BitXor, python::BIT_XOR)?;
    expect_table(&rt, alloc, BinaryOperator::Equal, python::EQUAL)?;
    expect_table(&rt, alloc, BinaryOperator::Unequal, python::UNEQUAL)?;
    expect_table(&rt, alloc, BinaryOperator::Below, python::BELOW)?;
    expect_table(&rt, alloc, BinaryOperator::AtMost, python::AT_MOST)?;
    expect_table(&rt, alloc, BinaryOperator::Above, python::ABOVE)?;
    expect_table(&rt, alloc, BinaryOperator::AtLeast, python::AT_LEAST)
}

/// Terms with what they are, `W` where a number leaves 128 bits.
const EVALUATED: [(&str, &str); 58] = [
    ("x", "5"),
    ("unbound", "0"),
    ("7 neg", "-7"),
    ("-170141183460469231731687303715884105728 neg", "W"),
    ("true not", "0"),
    ("t", "1"),
    ("true true and", "1"),
    ("true false and", "0"),
    ("false true and", "0"),
    ("false false or", "0"),
    ("false true or", "1"),
    ("true false or", "1"),
    ("true false implies", "0"),
    ("false true implies", "1"),
    ("false false implies", "1"),
    ("true true implies", "1"),
    ("t true =", "1"),
    ("t false =", "0"),
    ("false t !=", "1"),
    ("null null =", "1"),
    ("null 4 add null =", "1"),
    ("p null =", "0"),
    ("p p =", "1"),
    ("p 0 add p =", "1"),
    ("p 4 add p =", "0"),
    ("p 4 add q =", "1"),
    ("p -4 add 4 add p =", "1"),
    ("p 170141183460469231731687303715884105727 add p =", "W"),
    ("p -170141183460469231731687303715884105728 add p =", "0"),
    (
        "null 170141183460469231731687303715884105727 add null =",
        "1",
    ),
    ("null 3 aligned", "1"),
    ("p 4 aligned", "1"),
    ("p 8 aligned", "0"),
    ("p 0 aligned", "0"),
    ("l len", "3"),
    ("[] len", "0"),
    ("9 [.] len", "1"),
    ("l [] =", "0"),
    ("[] [] =", "1"),
    ("4 5 6 [.] cons cons l =", "1"),
    ("l rev 6 5 4 [.] cons cons =", "1"),
    ("l l append len", "6"),
    ("l 0 nth", "4"),
    ("l 2 nth", "6"),
    ("l 3 nth", "0"),
    ("l -1 nth", "0"),
    ("l 1 9 upd 1 nth", "9"),
    ("l 3 9 upd l =", "1"),
    ("l -1 9 upd l =", "1"),
    ("2 l take 4 5 [.] cons =", "1"),
    ("-1 l take [] =", "1"),
    ("4 l take l =", "1"),
    ("1 l drop 5 6 [.] cons =", "1"),
    ("-1 l drop l =", "1"),
    ("3 l drop [] =", "1"),
    ("t x 1 if", "5"),
    ("t x 170141183460469231731687303715884105727 1 add if", "5"),
    (
        "true not 170141183460469231731687303715884105727 1 add 2 if",
        "2",
    ),
];

#[test]
fn evaluates_small_terms(rt: HostRuntime) -> Result<(), Fail> {
    let alloc = rt.alloc();
    for (text, wanted) in EVALUATED {
        let given = answer(alloc, &term(alloc, text)?, 16)?;
        assert!(rt; given == number_of(wanted)?, "{text} is {given:?}");
    }
    Ok(())
}

/// Terms, what stands in the place of `x`, and what comes of it.
const SUBSTITUTED: [(&str, &str, &str); 12] = [
    ("x", "3", "3"),
    ("y", "3", "y"),
    ("x 1 add", "x 1 add", "x 1 add 1 add"),
    ("x x mul", "y 2 sub", "y 2 sub y 2 sub mul"),
    ("y neg x neg add", "7", "y neg 7 neg add"),
    ("t x y if", "0", "t 0 y if"),
    ("x 0 < x y if", "y", "y 0 < y y if"),
    ("l x y upd", "2", "l 2 y upd"),
    ("x [.] l append", "4", "4 [.] l append"),
    ("y [.] l append", "4", "y [.] l append"),
    ("x len", "[]", "[] len"),
    ("x null =", "p 8 add", "p 8 add null ="),
];

#[test]
fn puts_terms_in_a_names_place(rt: HostRuntime) -> Result<(), Fail> {
    let alloc = rt.alloc();
    for (before, by, after) in SUBSTITUTED {
        let given = subst(
            alloc,
            &term(alloc, before)?,
            &name(alloc, "x")?,
            &term(alloc, by)?,
        )?;
        let given = format!(in alloc; "{given:?}")?;
        let wanted = format!(in alloc; "{:?}", term(alloc, after)?)?;
        assert_eq!(rt; given, wanted, "{before} with {by}");
    }
    Ok(())
}

/// The sum of 2,048 times `x`, which has 4,095 nodes.
fn large_sum(alloc: Global) -> Result<Term, Fail> {
    let x = name(alloc, "x")?;
    let twice = term(alloc, "x x add")?;
    let mut sum = term(alloc, "x")?;
    for _ in 0..11 {
        sum = subst(alloc, &sum, &x, &twice)?;
    }
    Ok(sum)
}

fn negative(alloc: Global, operand: Term) -> Result<Term, Fail> {
    let operand = Shared::new(alloc, operand)?;
    Ok(Term::Unary(UnaryOperator::Negative, operand))
}

/// Whether `y` in the place of `x` passes the limit on nodes.
fn passes_the_limit(alloc: Global, term: &Term, x: &Name, y: &Term) -> bool {
    match subst(alloc, term, x, y) {
        Ok(_) => false,
        Err(refusal) => refusal == TermRefusal::TermLimit,
    }
}

/// A minus before a term adds a node.
#[test]
fn stops_past_the_greatest_size(rt: HostRuntime) -> Result<(), Fail> {
    let alloc = rt.alloc();
    let x = name(alloc, "x")?;
    let y = term(alloc, "y")?;
    let most = negative(alloc, large_sum(alloc)?)?;
    assert!(rt; is_within_limit(&most));
    assert!(rt; !passes_the_limit(alloc, &most, &x, &y));
    let more = negative(alloc, most)?;
    assert!(rt; !is_within_limit(&more));
    assert!(rt; passes_the_limit(alloc, &more, &x, &y));
    Ok(())
}

/// Terms with their sorts, none where they aren't well sorted.
const SORTED: [(&str, Option<Sort>); 18] = [
    ("x", Some(Sort::Int)),
    ("unbound", None),
    ("p 4 add", Some(Sort::Loc)),
    ("4 p add", None),
    ("p 4 sub", None),
    ("x 1 add", Some(Sort::Int)),
    ("x t add", None),
    ("x 1 <", Some(Sort::Bool)),
    ("p p <", None),
    ("p null =", Some(Sort::Bool)),
    ("p x !=", None),
    ("t not", Some(Sort::Bool)),
    ("x not", None),
    ("t p null if", Some(Sort::Loc)),
    ("t p 0 if", None),
    ("x [.] l append", Some(Sort::List)),
    ("t [.]", None),
    ("l 1 x upd", Some(Sort::List)),
];

#[test]
fn finds_sorts(rt: HostRuntime) -> Result<(), Fail> {
    let alloc = rt.alloc();
    let mut sorts = Sorts::new(alloc);
    sorts.bind(name(alloc, "x")?, Sort::Int)?;
    sorts.bind(name(alloc, "t")?, Sort::Bool)?;
    sorts.bind(name(alloc, "p")?, Sort::Loc)?;
    sorts.bind(name(alloc, "l")?, Sort::List)?;
    for (text, wanted) in SORTED {
        let given = sort_of(&term(alloc, text)?, &sorts);
        assert!(rt; given == wanted, "{text} is of sort {given:?}");
    }
    Ok(())
}

/// A term as deep as the limit on nodes lets it be is let go: each level takes its share of the stack.
#[test]
fn lets_go_of_the_deepest_term(rt: HostRuntime) -> Result<(), Fail> {
    let alloc = rt.alloc();
    let mut deepest = Term::Truth(true);
    for _ in 1..NODE_LIMIT {
        deepest = Term::Unary(UnaryOperator::Not, Shared::new(alloc, deepest)?);
    }
    assert!(rt; is_within_limit(&deepest));
    Ok(())
}
