//! Terms that are equal by the laws of rings, made of ten laws and ten terms for each of their three letters.
use crate::tests::{sorts, term, term_of};
use crate::*;
use rc_terms::{Env, Name, Sorts, Term, TermValue, eval, is_same_term};
use std::alloc::Global;
use std::process::Abort;
use std::test::Fail;

const LAWS: [(&str, &str); 10] = [
    ("a b +", "b a +"),
    ("a b *", "b a *"),
    ("a b c + +", "a b + c +"),
    ("a b c * *", "a b * c *"),
    ("a b c + *", "a b * a c * +"),
    ("a b -", "b a - neg"),
    ("a b - c *", "a c * b c * -"),
    ("a b + a b - * c +", "c a a * b b * - +"),
    ("a b + c + a -", "c b +"),
    ("a b neg * c -", "c a b * + neg"),
];

const PARTS: [&str; 10] = [
    "x",
    "3",
    "y neg",
    "x y *",
    "x 1 +",
    "x y -",
    "2 x * y +",
    "x y quot",
    "-1",
    "z z * 2 -",
];

/// What a law's side is, with parts in place of its letters.
fn instance(alloc: Global, side: &str, a: &str, b: &str, c: &str) -> Result<Term, Fail> {
    let mut stack = Vec::new(alloc);
    for word in side.split_whitespace() {
        let part = match word {
            "a" => term(alloc, a)?,
            "b" => term(alloc, b)?,
            "c" => term(alloc, c)?,
            _ => term_of(alloc, word, &mut stack)?,
        };
        stack.push(part)?;
    }
    Ok(stack.pop().ok_or("no term")?)
}

fn have_one_form(alloc: Global, left: &Term, right: &Term, sorts: &Sorts) -> bool {
    match (
        normal_term(alloc, left, sorts),
        normal_term(alloc, right, sorts),
    ) {
        (Ok(first), Ok(second)) => is_same_term(&first, &second),
        _ => false,
    }
}

fn number(alloc: Global, term: &Term, env: &Env) -> Option<i128> {
    match eval(alloc, term, env) {
        Ok(TermValue::Integer(number)) => Some(number),
        _ => None,
    }
}

fn are_alike(alloc: Global, left: &Term, right: &Term, env: &Env) -> bool {
    match (number(alloc, left, env), number(alloc, right, env)) {
        (Some(first), Some(second)) => first == second,
        _ => false,
    }
}

fn env(alloc: Global) -> Result<Env, Fail> {
    let mut env = Env::new(alloc);
    env.bind(Name::from_str(alloc, "x")?, TermValue::Integer(17))?;
    env.bind(Name::from_str(alloc, "y")?, TermValue::Integer(-5))?;
    env.bind(Name::from_str(alloc, "z")?, TermValue::Integer(101))?;
    Ok(env)
}

/// Whether the pair of that number is equal in both ways.
fn agrees(alloc: Global, pair: usize, sorts: &Sorts, env: &Env) -> Result<bool, Fail> {
    let (left, right) = LAWS[pair % 10];
    let a = PARTS[pair / 10 % 10];
    let b = PARTS[pair / 100 % 10];
    let c = PARTS[pair / 1000 % 10];
    let first = instance(alloc, left, a, b, c)?;
    let second = instance(alloc, right, a, b, c)?;
    Ok(have_one_form(alloc, &first, &second, sorts) && are_alike(alloc, &first, &second, env))
}

/// The first pair that isn't equal in both ways, of 2,000 pairs from a number on.
fn first_unlike(alloc: Global, from: usize) -> Result<Option<usize>, Fail> {
    let sorts = sorts(alloc)?;
    let env = env(alloc)?;
    for pair in 0..2000usize {
        let number = from.saturating_add(pair);
        if !agrees(alloc, number, &sorts, &env)? {
            return Ok(Some(number));
        }
    }
    Ok(None)
}

#[test]
fn brings_2000_equal_pairs_to_one_form(rt: HostRuntime) -> Result<(), Fail> {
    assert_eq!(rt; first_unlike(rt.alloc(), 0)?, None);
    Ok(())
}

#[test]
fn brings_2000_more_pairs_to_one_form(rt: HostRuntime) -> Result<(), Fail> {
    assert_eq!(rt; first_unlike(rt.alloc(), 2000)?, None);
    Ok(())
}

#[test]
fn brings_a_third_2000_pairs_to_one_form(rt: HostRuntime) -> Result<(), Fail> {
    assert_eq!(rt; first_unlike(rt.alloc(), 4000)?, None);
    Ok(())
}

#[test]
fn brings_a_fourth_2000_pairs_to_one_form(rt: HostRuntime) -> Result<(), Fail> {
    assert_eq!(rt; first_unlike(rt.alloc(), 6000)?, None);
    Ok(())
}

#[test]
fn brings_a_fifth_2000_pairs_to_one_form(rt: HostRuntime) -> Result<(), Fail> {
    assert_eq!(rt; first_unlike(rt.alloc(), 8000)?, None);
    Ok(())
}
