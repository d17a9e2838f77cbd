mod solutions;
mod solving;
mod tables;

use crate::tests::tables::{CHANCE_1, CHANCE_2, CHANCE_3, CHANCE_4, Case, HAND_1, HAND_2, HAND_3};
use crate::{Derived, Eliminated, SolveRefusal, Step, eliminate};
use linear_certs::{Factors, Row, RowKind};
use std::alloc::{AllocError, Global};
use std::process::Abort;
use std::test::Fail;
use whole_numbers::Whole;

fn row(alloc: Global, text: &str) -> Result<Row, Fail> {
    let mut words = text.split_whitespace();
    let kind = match words.next() {
        Some("<=") => RowKind::Inequality,
        Some("=") => RowKind::Equation,
        _ => return Err(Fail::from("no kind of row")),
    };
    let constant = words.next().ok_or("no constant")?.parse::<i128>()?;
    let mut factors = Factors::new(alloc);
    for word in words {
        let (unknown, factor) = word.split_once(':').ok_or("no colon")?;
        let factor = factor.parse::<i128>()?;
        if factor != 0 {
            factors.insert(unknown.parse::<u32>()?, factor)?;
        }
    }
    Ok(Row {
        kind,
        constant,
        factors,
    })
}

fn rows(alloc: Global, text: &str) -> Result<Vec<Row>, Fail> {
    let mut rows = Vec::new(alloc);
    for part in text.split(';') {
        if !part.is_empty() {
            rows.push(row(alloc, part)?)?;
        }
    }
    Ok(rows)
}

fn unknowns(alloc: Global, text: &str) -> Result<Vec<u32>, Fail> {
    let mut unknowns = Vec::new(alloc);
    for word in text.split_whitespace() {
        unknowns.push(word.parse::<u32>()?)?;
    }
    Ok(unknowns)
}

fn push_row(text: &mut String, row: &Row) -> Result<(), AllocError> {
    text.push_str(match row.kind {
        RowKind::Inequality => "<= ",
        RowKind::Equation => "= ",
    })?;
    let constant = row.constant;
    write!(text, "{constant}")?;
    for (unknown, factor) in row.factors.as_slice() {
        write!(text, " {unknown}:{factor}")?;
    }
    Ok(())
}

fn push_whole(text: &mut String, number: &Whole) -> Result<(), AllocError> {
    match number.to_i128() {
        Some(number) => write!(text, "{number}"),
        None => text.push_str("beyond 128 bits"),
    }
}

fn push_failing(text: &mut String, failing: &Derived) -> Result<(), AllocError> {
    text.push_str("fails ")?;
    push_row(text, &failing.row)?;
    text.push_str(" by")?;
    for (number, multiplier) in failing.multipliers.as_slice() {
        write!(text, " {number}:")?;
        push_whole(text, multiplier)?;
    }
    text.push_str(" over ")?;
    push_whole(text, &failing.divisor)
}

fn push_steps(text: &mut String, steps: &[Step]) -> Result<(), AllocError> {
    for step in steps {
        let unknown = step.unknown;
        write!(text, " {unknown} [")?;
        for (at, derived) in step.rows.as_slice().iter().enumerate() {
            if at > 0 {
                text.push_str("; ")?;
            }
            push_row(text, &derived.row)?;
        }
        text.push_str("]")?;
    }
    Ok(())
}

fn answer(alloc: Global, rows: &[Row], unknowns: &[u32]) -> Result<String, Fail> {
    let mut text = String::new(alloc);
    match eliminate(alloc, rows, unknowns) {
        Ok(Eliminated::Refuted(failing)) => push_failing(&mut text, &failing)?,
        Ok(Eliminated::Steps(steps)) => push_steps(&mut text, steps.as_slice())?,
        Err(SolveRefusal::Limit(limit)) => write!(&mut text, "{limit:?}")?,
        Err(SolveRefusal::NoMemory) => return Err(Fail::from("no memory")),
    }
    Ok(text)
}

/// Whether two texts have the same words.
fn same_words(text: &str, other: &str) -> bool {
    text.split_whitespace().eq(other.split_whitespace())
}

fn expect(rt: &impl Abort, alloc: Global, cases: &[Case]) -> Result<(), Fail> {
    for (rows_text, unknowns_text, expected) in cases {
        let rows = rows(alloc, rows_text)?;
        let unknowns = unknowns(alloc, unknowns_text)?;
        let given = answer(alloc, &rows, &unknowns)?;
        assert!(rt;
            same_words(given.as_str(), expected),
            "{rows_text} by {unknowns_text} comes to {given}"
        );
    }
    Ok(())
}

#[test]
fn eliminates_by_hand(rt: HostRuntime) -> Result<(), Fail> {
    expect(&rt, rt.alloc(), &HAND_1)?;
    expect(&rt, rt.alloc(), &HAND_2)?;
    expect(&rt, rt.alloc(), &HAND_3)
}

#[test]
fn eliminates_by_chance(rt: HostRuntime) -> Result<(), Fail> {
    expect(&rt, rt.alloc(), &CHANCE_1)?;
    expect(&rt, rt.alloc(), &CHANCE_2)?;
    expect(&rt, rt.alloc(), &CHANCE_3)?;
    expect(&rt, rt.alloc(), &CHANCE_4)
}
