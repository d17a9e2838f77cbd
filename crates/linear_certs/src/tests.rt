mod tables;

use crate::tests::tables::{
    Answer, CANCELLED_AT_THE_END, Case, EQUATIONS, INEQUALITIES, ROWS_WITHOUT_UNKNOWNS, WIDTHS,
};
use crate::{CertRefusal, Factors, Row, RowKind, valid};
use rc_terms::{Cert, CertEntry};
use sqlite_items::Items;
use std::alloc::Global;
use std::process::Abort;
use std::test::Fail;

/// The two numbers of `LEFT:RIGHT`.
fn pair(text: &str) -> Result<(u32, i128), Fail> {
    let (left, right) = text.split_once(':').ok_or("no colon")?;
    Ok((left.parse::<u32>()?, right.parse::<i128>()?))
}

fn row(alloc: Global, text: &str) -> Result<Row, Fail> {
    let mut words = text.split_whitespace();
    let kind = match words.next() {
        Some("<=") => RowKind::Inequality,
        Some("=") => RowKind::Equation,
        _ => return Err(Fail::from("no kind of row")),
    };
    let constant = words.next().ok_or("no constant")?.parse::<i128>()?;
    let mut factors = Factors::new(alloc);
    for word in words {
        let (unknown, factor) = pair(word)?;
        if factor != 0 {
            factors.insert(unknown, factor)?;
        }
    }
    Ok(Row {
        kind,
        constant,
        factors,
    })
}

fn rows(alloc: Global, text: &str) -> Result<Vec<Row>, Fail> {
    let mut rows = Vec::new(alloc);
    for part in text.split(';') {
        if !part.is_empty() {
            rows.push(row(alloc, part)?)?;
        }
    }
    Ok(rows)
}

fn cert(alloc: Global, text: &str) -> Result<Cert, Fail> {
    let mut entries = Items::new(alloc);
    for word in text.split_whitespace() {
        let (row, multiplier) = pair(word)?;
        entries.push(CertEntry { row, multiplier })?;
    }
    Ok(Cert { entries })
}

fn expect(rt: &impl Abort, alloc: Global, cases: &[Case]) -> Result<(), Fail> {
    for (rows_text, cert_text, answer) in cases {
        let rows = rows(alloc, rows_text)?;
        let cert = cert(alloc, cert_text)?;
        let given = match valid(alloc, &rows, &cert) {
            Ok(true) => Answer::Valid,
            Ok(false) => Answer::Invalid,
            Err(CertRefusal::Width) => Answer::Width,
            Err(CertRefusal::NoMemory) => return Err(Fail::from("no memory")),
        };
        assert!(rt;
            given == *answer,
            "{cert_text} for {rows_text} is {given:?}"
        );
    }
    Ok(())
}

#[test]
fn judges_certificates(rt: HostRuntime) -> Result<(), Fail> {
    let alloc = rt.alloc();
    expect(&rt, alloc, &ROWS_WITHOUT_UNKNOWNS)?;
    expect(&rt, alloc, &INEQUALITIES)?;
    expect(&rt, alloc, &CANCELLED_AT_THE_END)?;
    expect(&rt, alloc, &EQUATIONS)?;
    expect(&rt, alloc, &WIDTHS)
}

#[test]
fn keeps_factors_in_order(rt: HostRuntime) -> Result<(), Fail> {
    let mut factors = Factors::new(rt.alloc());
    for (unknown, factor) in [(7, 1), (4, -2), (9, 5), (7, 3)] {
        factors.insert(unknown, factor)?;
    }
    assert_eq!(rt; factors.as_slice(), [(4, -2), (7, 3), (9, 5)].as_slice());
    assert_eq!(rt; factors.get(7), 3);
    assert_eq!(rt; factors.get(8), 0);
    Ok(())
}
