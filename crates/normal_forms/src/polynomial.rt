//! Sums of products with like products added up, and the terms that write them.
ghost use Rattle.std.specs.Prelude.{◌≡◌, [], not, IfOk, OnOk, unwrap_or, pos, negsuc, ◌-◌, ◌^◌, ◌+ℤ◌, ◌↔◌, IsTrue};
ghost use Rattle.std.specs.BTreeMap as tree;
ghost use Rattle.rc_terms.specs.declared.term.Term.TheVariants as terms;
ghost use Rattle.rc_terms.specs.Numbers.{holds_in_128_bits};
ghost use Rattle.normal_forms.specs.Sums.{present, product_order};
ghost use Rattle.normal_forms.specs.Sums.{added as with_added, gathered as with_gathered};
ghost use Rattle.normal_forms.specs.Sums.{multiplied_by as product_term, multiple as multiple_term};
ghost use Rattle.normal_forms.specs.Sums.{summed as summed_term};
ghost use Rattle.normal_forms.specs.Scanning.{plus_maybe, after_entry};
ghost use Rattle.normal_forms.specs.Widths.{Forms, is_wide};

use crate::failure::Failure;
use crate::node::binary;
use crate::product::{Product, make_product};
use crate::summand::Summand;
use rc_terms::{BinaryOperator, Term};
use rc_text::NoMemory;
use shared_values::Shared;
use std::alloc::{AllocError, Global};
use std::collections::BTreeMap;
use whole_numbers::Whole;

/// The summands added up: products in order, each with its factor.
pub fn gathered(alloc: Global, summands: &[Summand]) -> Result<BTreeMap<Product, Whole>, NoMemory>
    ensures { IfOk result (λ polynomial. polynomial.entries ≡ with_gathered [] summands.now) }
{
    let mut polynomial = BTreeMap::new(alloc);
    for summand in summands {
        let product = make_product(alloc, summand.product.as_slice())?;
        add(alloc, &mut polynomial, product, &summand.factor)?;
    }
    Ok(polynomial)
}

/// Adds a multiple of a product.
fn add(
    alloc: Global,
    polynomial: &mut BTreeMap<Product, Whole>,
    product: Product,
    factor: &Whole,
) -> Result<(), NoMemory>
    ensures { OnOk result (polynomial.new.entries ≡ with_added polynomial.old.entries product factor.now) }
{
    let after = factor_after(alloc, polynomial, &product, factor)?;
    polynomial.insert(product, after)?;
    Ok(())
}

/// A product's factor, 0 where the product isn't there, with a further one added.
fn factor_after(
    alloc: Global,
    polynomial: &BTreeMap<Product, Whole>,
    product: &Product,
    factor: &Whole,
) -> Result<Whole, NoMemory>
    ensures { IfOk result (λ after.
        after ≡ unwrap_or (tree.get product_order polynomial.now product.now) (pos 0) +ℤ factor.now) }
{
    match polynomial.get(product) {
        Some(before) => before.plus(alloc, factor),
        None => Whole::new(0).plus(alloc, factor),
    }
}

/// The term that writes the sum.
#[tactic(auto, using(crate::proofs::Gathering::entry_taken))]
pub fn summed(alloc: Global, polynomial: &BTreeMap<Product, Whole>) -> Result<Term, Failure>
    ensures { Forms result (summed_term (present polynomial.now.entries)) (is_wide (present polynomial.now.entries)) }
{
    let mut sum = None;
    for (product, factor) in polynomial.iter() {
        sum = with_entry(alloc, sum, product, factor)?;
    }
    match sum {
        Some(term) => Ok(term),
        None => Ok(Term::Integer(0)),
    }
}

/// The sum so far, if there is one, and an entry, which isn't written where its factor is 0.
fn with_entry(
    alloc: Global,
    sum: Option<Term>,
    product: &Product,
    factor: &Whole,
) -> Result<Option<Term>, Failure>
    ensures { Forms result (after_entry sum product.now factor.now) (not (holds_in_128_bits factor.now)) }
{
    let factor = narrow(alloc, factor)?;
    if factor == 0 {
        return Ok(sum);
    }
    let term = multiple(alloc, factor, product.factors.as_slice())?;
    Ok(Some(plus(alloc, sum, term)?))
}

/// The number in 128 bits.
fn narrow(alloc: Global, number: &Whole) -> Result<i128, Failure>
    ensures { Forms result number.now (not (holds_in_128_bits number.now)) }
{
    if let Some(narrow) = number.to_i128() {
        return Ok(narrow);
    }
    if is_least(alloc, number)? {
        Ok(i128::MIN)
    } else {
        Err(Failure::Width)
    }
}

/// Whether it is the least number of 128 bits.
fn is_least(alloc: Global, number: &Whole) -> Result<bool, NoMemory>
    ensures { IfOk result (λ least. IsTrue least ↔ (number.now ≡ negsuc (2 ^ 127 - 1))) }
{
    let rest = number
        .plus(alloc, &Whole::new(i128::MAX))?
        .plus(alloc, &Whole::new(1))?;
    Ok(rest.is_zero())
}

/// The sum so far, if there is one, and a further term.
fn plus(alloc: Global, sum: Option<Term>, term: Term) -> Result<Term, AllocError>
    ensures { IfOk result (λ total. total ≡ plus_maybe sum term) }
{
    match sum {
        Some(sum) => binary(alloc, BinaryOperator::Add, sum, term),
        None => Ok(term),
    }
}

/// A number times a product of terms.
fn multiple(alloc: Global, number: i128, factors: &[Shared<Term>]) -> Result<Term, AllocError>
    ensures { IfOk result (λ term. term ≡ multiple_term number factors.now) }
{
    match factors {
        [] => Ok(Term::Integer(number)),
        [factor, more @ ..] => {
            let first = factor.get().copy(alloc)?;
            if number == 1 {
                multiplied_by(alloc, first, more)
            } else {
                let first = binary(
                    alloc,
                    BinaryOperator::Multiply,
                    Term::Integer(number),
                    first,
                )?;
                multiplied_by(alloc, first, more)
            }
        }
    }
}

/// A term times further ones.
fn multiplied_by(alloc: Global, term: Term, factors: &[Shared<Term>]) -> Result<Term, AllocError>
    ensures { IfOk result (λ total. total ≡ product_term term factors.now) }
{
    let mut total = term;
    for factor in factors {
        let factor = factor.get().copy(alloc)?;
        total = binary(alloc, BinaryOperator::Multiply, total, factor)?;
    }
    Ok(total)
}
