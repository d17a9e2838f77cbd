//! The limit on nodes of a result.
use crate::*;
use rc_terms::{Sorts, Term, TermRefusal};
use shared_values::Shared;
use sqlite_items::Items;
use std::alloc::Global;
use std::process::Abort;
use std::test::Fail;

/// A list of so many numbers: one node more.
fn list_of(alloc: Global, count: usize) -> Result<Term, Fail> {
    let mut elements = Items::new(alloc);
    for _element in 0..count {
        elements.push(Shared::new(alloc, Term::Integer(7))?)?;
    }
    Ok(Term::List(elements))
}

/// How a list of so many numbers is refused, if it is.
fn list_refusal(alloc: Global, count: usize) -> Result<Option<TermRefusal>, Fail> {
    let given = list_of(alloc, count)?;
    let sorts = Sorts::new(alloc);
    Ok(match normal_term(alloc, &given, &sorts) {
        Ok(_) => None,
        Err(refusal) => Some(refusal),
    })
}

#[test]
fn takes_4096_nodes_and_no_more(rt: HostRuntime) -> Result<(), Fail> {
    let alloc = rt.alloc();
    assert_eq!(rt; list_refusal(alloc, 4095)?, None);
    assert_eq!(rt; list_refusal(alloc, 4096)?, Some(TermRefusal::TermLimit));
    Ok(())
}
