//! Products of opaque terms, with their factors in order.
ghost use Rattle.std.specs.Prelude.{◌≡◌, ◌++◌, [], ◌∷◌, IfOk, OnOk};
ghost use Rattle.std.proofs.Common.{rules};
ghost use Rattle.std.specs.Cmp.{partial_order_from_own_ties, partial_equiv_from_equiv, eq_by_cmp_equiv, on_total};
ghost use Rattle.std.specs.Cmp.Rules.{comparing};
ghost use Rattle.std.specs.Cmp.Lexicographic.{slice_cmp, nat_list_cmp_total};
ghost use Rattle.std.specs.Ordering.{nat_cmp, on, as_partial_cmp, eq_by_cmp, is_gt};
ghost use Rattle.normal_forms.specs.Sums.{keyed, placed, product_of, product_with};
ghost use Rattle.normal_forms.specs.Sums.{arranged as arranged_factors};

use crate::key::push_key;
use rc_terms::Term;
use shared_values::Shared;
use sqlite_items::Items;
use std::alloc::{AllocError, Global};
use std::cmp::Ordering;

/// A factor of a product, with its key.
#[derive(Debug, Drop)]
pub struct Factor {
    pub key: Items<u128>,
    pub term: Shared<Term>,
}

/// A product of terms, whose key tells it from all others.
#[derive(Debug, Drop)]
pub struct Product {
    pub key: Items<u128>,
    pub factors: Items<Shared<Term>>,
}

impl Ord for Product {
    ghost cmp = { on (λ p. p.key) (slice_cmp nat_cmp) };

    ghost total = { Prim.search (comparing, rules) };

    ghost matches_partial_cmp = { Prim.search (comparing, rules) };

    ghost matches_eq = { Prim.search (comparing, rules) };

    fn cmp(&self, other: &Product) -> Ordering {
        self.key.as_slice().cmp(other.key.as_slice())
    }
}

impl PartialOrd for Product {
    ghost partial_cmp = { as_partial_cmp (on (λ p. p.key) (slice_cmp nat_cmp)) };

    ghost laws = { partial_order_from_own_ties (Prim.search (comparing, rules)) (Prim.search (comparing, rules)) };

    fn partial_cmp(&self, other: &Product) -> Option<Ordering> {
        Some(self.cmp(other))
    }
}

impl PartialEq for Product {
    ghost eq = { eq_by_cmp (on (λ p. p.key) (slice_cmp nat_cmp)) };

    ghost laws = { partial_equiv_from_equiv (eq_by_cmp_equiv (on_total (λ p. p.key) nat_list_cmp_total)) };

    fn eq(&self, other: &Product) -> bool {
        self.key.as_slice().cmp(other.key.as_slice()) == Ordering::Equal
    }
}

impl Eq for Product {
    ghost laws = { eq_by_cmp_equiv (on_total (λ p. p.key) nat_list_cmp_total) };
}

/// The product of terms, in whatever order they come.
pub fn make_product(alloc: Global, terms: &[Shared<Term>]) -> Result<Product, AllocError>
    ensures { IfOk result (λ product. product ≡ product_of terms.now) }
{
    let arranged = arranged(alloc, terms)?;
    let mut key = Items::new(alloc);
    let mut factors = Items::new(alloc);
    for factor in arranged.as_slice() {
        push_numbers(&mut key, factor.key.as_slice())?;
        factors.push(factor.term.share()?)?;
    }
    Ok(Product { key, factors })
}

/// Writes a list of numbers behind what is there.
fn push_numbers(key: &mut Items<u128>, numbers: &[u128]) -> Result<(), AllocError>
    ensures { OnOk result (key.new ≡ key.old ++ numbers.now) }
{
    for number in numbers {
        key.push(*number)?;
    }
    Ok(())
}

/// The terms with their keys, in order.
fn arranged(alloc: Global, terms: &[Shared<Term>]) -> Result<Items<Factor>, AllocError>
    ensures { IfOk result (λ factors. factors ≡ arranged_factors [] terms.now) }
{
    let mut factors = Vec::new(alloc);
    for term in terms {
        let factor = make_factor(alloc, term)?;
        place(&mut factors, factor)?;
    }
    Ok(Items::from_vec(factors))
}

fn make_factor(alloc: Global, term: &Shared<Term>) -> Result<Factor, AllocError>
    ensures { IfOk result (λ factor. factor ≡ keyed term.now) }
{
    let mut key = Items::new(alloc);
    push_key(&mut key, term.get())?;
    Ok(Factor {
        key,
        term: term.share()?,
    })
}

/// Puts a factor at its place among those in order.
fn place(factors: &mut Vec<Factor>, factor: Factor) -> Result<(), AllocError>
    ensures { OnOk result (factors.new.items ≡ placed factor factors.old.items) }
{
    let mut at = 0;
    while at < factors.len() && !is_above(&factors[at], &factor) {
        at += 1;
    }
    factors.insert(at, factor)?;
    Ok(())
}

/// Whether a factor stands behind another.
fn is_above(other: &Factor, factor: &Factor) -> bool
    ensures { result ≡ is_gt (slice_cmp nat_cmp other.now.key factor.now.key) }
{
    other.key.as_slice().cmp(factor.key.as_slice()) == Ordering::Greater
}
