use crate::tests::solutions::{
    CHANCE_1, CHANCE_2, CHANCE_3, CHANCE_4, CHANCE_5, HAND_1, HAND_2, HAND_3, HAND_4, HAND_5,
    Solution,
};
use crate::tests::{rows, same_words};
use crate::{Fraction, Limit, Model, SolveRefusal, Solved, UnknownValue, solve};
use linear_certs::{Factors, Row, RowKind};
use rc_terms::Cert;
use std::alloc::{AllocError, Global};
use std::process::Abort;
use std::test::Fail;

fn push_cert(text: &mut String, cert: &Cert) -> Result<(), AllocError> {
    text.push_str("closed")?;
    for entry in cert.entries.as_slice() {
        let row = entry.row;
        let multiplier = entry.multiplier;
        write!(text, " {row}:{multiplier}")?;
    }
    Ok(())
}

fn push_fraction(text: &mut String, fraction: Fraction) -> Result<(), AllocError> {
    let numerator = fraction.numerator;
    let denominator = fraction.denominator;
    write!(text, "{numerator}")?;
    if denominator != 1 {
        write!(text, "/{denominator}")?;
    }
    Ok(())
}

fn push_model(text: &mut String, model: &Model) -> Result<(), AllocError> {
    text.push_str("open")?;
    for entry in model.values.as_slice() {
        push_value(text, *entry)?;
    }
    Ok(())
}

fn push_value(text: &mut String, entry: UnknownValue) -> Result<(), AllocError> {
    let unknown = entry.unknown;
    write!(text, " {unknown}=")?;
    push_fraction(text, entry.value)
}

fn answer(alloc: Global, rows: &[Row]) -> Result<String, Fail> {
    let mut text = String::new(alloc);
    match solve(alloc, rows) {
        Ok(Solved::Closed(cert)) => push_cert(&mut text, &cert)?,
        Ok(Solved::Open(model)) => push_model(&mut text, &model)?,
        Err(SolveRefusal::Limit(limit)) => write!(&mut text, "{limit:?}")?,
        Err(SolveRefusal::NoMemory) => return Err(Fail::from("no memory")),
    }
    Ok(text)
}

fn expect(rt: &impl Abort, alloc: Global, cases: &[Solution]) -> Result<(), Fail> {
    for (rows_text, expected) in cases {
        let rows = rows(alloc, rows_text)?;
        let given = answer(alloc, &rows)?;
        assert!(rt;
            same_words(given.as_str(), expected),
            "{rows_text} comes to {given}"
        );
    }
    Ok(())
}

#[test]
fn solves_by_hand(rt: HostRuntime) -> Result<(), Fail> {
    expect(&rt, rt.alloc(), &HAND_1)?;
    expect(&rt, rt.alloc(), &HAND_2)?;
    expect(&rt, rt.alloc(), &HAND_3)?;
    expect(&rt, rt.alloc(), &HAND_4)?;
    expect(&rt, rt.alloc(), &HAND_5)
}

#[test]
fn solves_by_chance(rt: HostRuntime) -> Result<(), Fail> {
    expect(&rt, rt.alloc(), &CHANCE_1)?;
    expect(&rt, rt.alloc(), &CHANCE_2)?;
    expect(&rt, rt.alloc(), &CHANCE_3)?;
    expect(&rt, rt.alloc(), &CHANCE_4)?;
    expect(&rt, rt.alloc(), &CHANCE_5)
}

/// A row `0 <= constant + unknown`, for each unknown below a number.
fn rows_of_unknowns(alloc: Global, count: u32) -> Result<Vec<Row>, Fail> {
    let mut rows = Vec::new(alloc);
    for unknown in 0..count {
        let mut factors = Factors::new(alloc);
        factors.insert(unknown, 1)?;
        rows.push(Row {
            kind: RowKind::Inequality,
            constant: i128::from(unknown),
            factors,
        })?;
    }
    Ok(rows)
}

/// That many rows `0 <= 0`.
fn rows_without_unknowns(alloc: Global, count: u32) -> Result<Vec<Row>, Fail> {
    let mut rows = Vec::new(alloc);
    for _ in 0..count {
        rows.push(Row {
            kind: RowKind::Inequality,
            constant: 0,
            factors: Factors::new(alloc),
        })?;
    }
    Ok(rows)
}

/// Whether the rows are open, and the model has that many values.
fn is_open(alloc: Global, rows: &[Row], values: usize) -> bool {
    match solve(alloc, rows) {
        Ok(Solved::Open(model)) => model.values.len() == values,
        _ => false,
    }
}

fn passes(alloc: Global, rows: &[Row], limit: Limit) -> bool {
    match solve(alloc, rows) {
        Err(SolveRefusal::Limit(passed)) => passed == limit,
        _ => false,
    }
}

#[test]
fn counts_unknowns(rt: HostRuntime) -> Result<(), Fail> {
    let most = rows_of_unknowns(rt.alloc(), 128)?;
    assert!(rt; is_open(rt.alloc(), &most, 128));
    let more = rows_of_unknowns(rt.alloc(), 129)?;
    assert!(rt; passes(rt.alloc(), &more, Limit::Columns));
    Ok(())
}

#[test]
fn counts_rows(rt: HostRuntime) -> Result<(), Fail> {
    let mut rows = rows_without_unknowns(rt.alloc(), 200_000)?;
    assert!(rt; is_open(rt.alloc(), &rows, 0));
    rows.push(Row {
        kind: RowKind::Inequality,
        constant: 0,
        factors: Factors::new(rt.alloc()),
    })?;
    assert!(rt; passes(rt.alloc(), &rows, Limit::Rows));
    Ok(())
}

/// That many rows that set a lower bound, each with one that sets an upper bound.
fn rows_of_bounds(alloc: Global, count: u32) -> Result<Vec<Row>, Fail> {
    let mut rows = Vec::new(alloc);
    for number in 0..count {
        rows.push(bound(alloc, number, 1)?)?;
        rows.push(bound(alloc, number, -1)?)?;
    }
    Ok(rows)
}

fn bound(alloc: Global, constant: u32, factor: i128) -> Result<Row, Fail> {
    let mut factors = Factors::new(alloc);
    if factor != 0 {
        factors.insert(0, factor)?;
    }
    Ok(Row {
        kind: RowKind::Inequality,
        constant: i128::from(constant),
        factors,
    })
}

#[test]
fn counts_formed_rows(rt: HostRuntime) -> Result<(), Fail> {
    let most = rows_of_bounds(rt.alloc(), 446)?;
    assert!(rt; is_open(rt.alloc(), &most, 1));
    let more = rows_of_bounds(rt.alloc(), 447)?;
    assert!(rt; passes(rt.alloc(), &more, Limit::Rows));
    Ok(())
}

#[test]
fn gives_an_unknown_without_rows_zero(rt: HostRuntime) -> Result<(), Fail> {
    let rows = rows_of_unknowns(rt.alloc(), 3)?;
    let Ok(Solved::Open(model)) = solve(rt.alloc(), &rows) else {
        return Err(Fail::from("not open"));
    };
    assert!(rt; model.value(2) == Fraction::whole(-2));
    assert!(rt; model.value(3) == Fraction::whole(0));
    Ok(())
}
