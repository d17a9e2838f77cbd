//! Locations as a root and one sum.
ghost use Rattle.std.specs.Prelude.{◌≡◌, ◌++◌, IfOk, OnOk, pos};
ghost use Rattle.std.specs.Ordering.{int_eq};
ghost use Rattle.normal_forms.specs.Locations.{root as root_term, offset as offset_of, moved as moved_term};
ghost use Rattle.normal_forms.specs.Locations.{normal_location};
ghost use Rattle.normal_forms.specs.Sums.{present};
ghost use Rattle.normal_forms.specs.Scanning.{is_empty};
ghost use Rattle.normal_forms.specs.Widths.{Forms, is_wide, offset_passes};

use crate::expansion::expand;
use crate::failure::Failure;
use crate::node::binary;
use crate::polynomial::{gathered, summed};
use crate::product::Product;
use crate::summand::Summand;
use rc_terms::{BinaryOperator, Term};
use rc_text::NoMemory;
use sqlite_items::Items;
use std::alloc::{AllocError, Global};
use std::collections::BTreeMap;
use whole_numbers::Whole;

/// The location as its root plus one sum of all that is added to it, of any size.
pub fn written_location(alloc: Global, term: &Term) -> Result<Term, Failure>
    ensures { Forms result (normal_location term.now) (offset_passes term.now) }
{
    let mut summands = Items::new(alloc);
    push_offset(alloc, &mut summands, term)?;
    let polynomial = gathered(alloc, summands.as_slice())?;
    moved(alloc, term, &polynomial)
}

/// Writes the summands of what is added to the location's root behind what is there.
fn push_offset(alloc: Global, summands: &mut Items<Summand>, term: &Term) -> Result<(), NoMemory>
    ensures { OnOk result (summands.new ≡ summands.old ++ offset_of term.now) }
{
    match term {
        Term::Binary(operator, left, right) => match operator {
            BinaryOperator::Add => {
                push_offset(alloc, summands, left.get())?;
                expand(alloc, summands, right.get(), false)
            }
            _ => Ok(()),
        },
        Term::Variable(_) => Ok(()),
        Term::Integer(_) => Ok(()),
        Term::Truth(_) => Ok(()),
        Term::Null => Ok(()),
        Term::List(_) => Ok(()),
        Term::Unary(_, _) => Ok(()),
        Term::Conditional(_, _, _) => Ok(()),
        Term::Update(_, _, _) => Ok(()),
    }
}

/// The location to which numbers are added.
fn root(alloc: Global, term: &Term) -> Result<Term, AllocError>
    ensures { IfOk result (λ root. root ≡ root_term term.now) }
{
    match term {
        Term::Binary(operator, left, _) => match operator {
            BinaryOperator::Add => root(alloc, left.get()),
            _ => term.copy(alloc),
        },
        Term::Variable(_) => term.copy(alloc),
        Term::Integer(_) => term.copy(alloc),
        Term::Truth(_) => term.copy(alloc),
        Term::Null => term.copy(alloc),
        Term::List(_) => term.copy(alloc),
        Term::Unary(_, _) => term.copy(alloc),
        Term::Conditional(_, _, _) => term.copy(alloc),
        Term::Update(_, _, _) => term.copy(alloc),
    }
}

/// The location's root plus a sum.
fn moved(alloc: Global, term: &Term, polynomial: &BTreeMap<Product, Whole>) -> Result<Term, Failure>
    ensures { Forms result (moved_term (root_term term.now) (present polynomial.now.entries))
        (is_wide (present polynomial.now.entries)) }
{
    if is_nothing(polynomial) {
        return Ok(root(alloc, term)?);
    }
    let offset = summed(alloc, polynomial)?;
    let root = root(alloc, term)?;
    Ok(binary(alloc, BinaryOperator::Add, root, offset)?)
}

/// Whether each product's factor is 0.
#[tactic(auto, using(crate::proofs::Gathering::entry_left, crate::proofs::Gathering::entry_stays))]
fn is_nothing(polynomial: &BTreeMap<Product, Whole>) -> bool
    ensures { result ≡ is_empty (present polynomial.now.entries) }
{
    for (_product, factor) in polynomial.iter() {
        if !is_zero(factor) {
            return false;
        }
    }
    true
}

fn is_zero(number: &Whole) -> bool
    ensures { result ≡ int_eq number.now (pos 0) }
{
    number.is_zero()
}
