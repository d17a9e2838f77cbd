ghost use Rattle.std.specs.Prelude.{◌≡◌, ◌<◌, ◌≤◌, true, false, Err, IfOk, OnOk};
ghost use Rattle.rc_terms.specs.declared.refusal.TermRefusal.TheVariants as refusals;
ghost use Rattle.rc_terms.specs.Nodes.{nodes, most_nodes};
ghost use Rattle.rc_terms.specs.Sorting.{sort_under};
ghost use Rattle.normal_forms.specs.Normal.{finished, staged as staged_term, normal_term as normal_of};
ghost use Rattle.normal_forms.specs.Normal.{folded_by_sort, written_by_sort};
ghost use Rattle.normal_forms.specs.Polynomials.{parts_unary as unary_parts, parts_binary as binary_parts};
ghost use Rattle.normal_forms.specs.Widths.{Forms, staging_passes, finishing_passes, sorted_folding_passes};
ghost use Rattle.normal_forms.specs.Widths.{writing_passes};

use crate::failure::Failure;
use crate::folding::{folded, is_plain};
use crate::location::written_location;
use crate::node::{binary, conditional, unary, update};
use crate::sum::written;
use rc_terms::{
    BinaryOperator, Sort, Sorts, Term, TermRefusal, UnaryOperator, is_within_limit, sort_of,
};
use shared_values::Shared;
use sqlite_items::Items;
use std::alloc::Global;

/// The term in normal form, under the sorts of its names: each part of the sort of numbers is one sum of multiples of
/// products, with like products added up and in order, and each location is a root plus one such sum; another node
/// whose operands are literals is its value. `Width` comes where the normal form of the term or of one of its parts has
/// a number beyond 128 bits.
pub fn normal_term(alloc: Global, term: &Term, sorts: &Sorts) -> Result<Term, TermRefusal>
    ensures value { IfOk result (λ normal. normal ≡ normal_of sorts.now term.now) }
    ensures within { OnOk result (nodes (normal_of sorts.now term.now) ≤ most_nodes) }
    ensures limit { result ≡ Err refusals.TermLimit → most_nodes < nodes (normal_of sorts.now term.now) }
    ensures width { result ≡ Err refusals.Width → staging_passes sorts.now term.now true ≡ true }
    ensures narrow { OnOk result (staging_passes sorts.now term.now true ≡ false) }
    ensures narrow_limit { result ≡ Err refusals.TermLimit → staging_passes sorts.now term.now true ≡ false }
{
    let normal = match staged(alloc, term, sorts, true) {
        Ok(normal) => normal,
        Err(Failure::Width) => return Err(TermRefusal::Width),
        Err(Failure::NoMemory) => return Err(TermRefusal::NoMemory),
    };
    if is_within_limit(&normal) {
        Ok(normal)
    } else {
        Err(TermRefusal::TermLimit)
    }
}

/// The term with its parts in normal form, and itself as well where it is `whole` and no part of a sum.
pub fn staged(alloc: Global, term: &Term, sorts: &Sorts, whole: bool) -> Result<Term, Failure>
    ensures { Forms result (staged_term sorts.now term.now whole) (staging_passes sorts.now term.now whole) }
{
    match term {
        Term::List(elements) => {
            let mut parts = Items::new(alloc);
            for element in elements.as_slice() {
                let part = staged(alloc, element.get(), sorts, true)?;
                parts.push(Shared::new(alloc, part)?)?;
            }
            finish(alloc, term, sorts, Term::List(parts), whole)
        }
        Term::Unary(operator, operand) => {
            let part = staged(alloc, operand.get(), sorts, parts_unary(*operator))?;
            let inner = unary(alloc, *operator, part)?;
            finish(alloc, term, sorts, inner, whole)
        }
        Term::Binary(operator, left, right) => {
            let left = staged(alloc, left.get(), sorts, parts_binary(*operator))?;
            let right = staged(alloc, right.get(), sorts, parts_binary(*operator))?;
            let inner = binary(alloc, *operator, left, right)?;
            finish(alloc, term, sorts, inner, whole)
        }
        Term::Conditional(first, second, third) => {
            let first = staged(alloc, first.get(), sorts, true)?;
            let second = staged(alloc, second.get(), sorts, true)?;
            let third = staged(alloc, third.get(), sorts, true)?;
            let inner = conditional(alloc, first, second, third)?;
            finish(alloc, term, sorts, inner, whole)
        }
        Term::Update(first, second, third) => {
            let first = staged(alloc, first.get(), sorts, true)?;
            let second = staged(alloc, second.get(), sorts, true)?;
            let third = staged(alloc, third.get(), sorts, true)?;
            let inner = update(alloc, first, second, third)?;
            finish(alloc, term, sorts, inner, whole)
        }
        Term::Variable(_) => finish(alloc, term, sorts, term.copy(alloc)?, whole),
        Term::Integer(_) => finish(alloc, term, sorts, term.copy(alloc)?, whole),
        Term::Truth(_) => finish(alloc, term, sorts, term.copy(alloc)?, whole),
        Term::Null => finish(alloc, term, sorts, term.copy(alloc)?, whole),
    }
}

/// A term whose parts are in normal form, by the sort of the term that it is made of.
fn finish(
    alloc: Global,
    term: &Term,
    sorts: &Sorts,
    inner: Term,
    whole: bool,
) -> Result<Term, Failure>
    ensures { Forms result (finished (sort_under sorts.now term.now) inner whole)
        (finishing_passes (sort_under sorts.now term.now) inner whole) }
{
    if !whole && is_plain(&inner) {
        return Ok(inner);
    }
    let sort = sort_of(term, sorts);
    let folded = fold(alloc, sort, inner)?;
    if whole {
        write(alloc, sort, folded)
    } else {
        Ok(folded)
    }
}

/// A term whose parts are in normal form, with its literals folded where it is well sorted.
fn fold(alloc: Global, sort: Option<Sort>, inner: Term) -> Result<Term, Failure>
    ensures { Forms result (folded_by_sort sort inner) (sorted_folding_passes sort inner) }
{
    match sort {
        Some(_) => folded(alloc, inner),
        None => Ok(inner),
    }
}

/// A number as one sum, a location as its root and one sum, and other terms as they are.
fn write(alloc: Global, sort: Option<Sort>, inner: Term) -> Result<Term, Failure>
    ensures { Forms result (written_by_sort sort inner) (writing_passes sort inner) }
{
    match sort {
        Some(Sort::Int) => written(alloc, &inner),
        Some(Sort::Loc) => written_location(alloc, &inner),
        _ => Ok(inner),
    }
}

pub fn parts_unary(operator: UnaryOperator) -> bool
    ensures { result ≡ unary_parts operator }
{
    match operator {
        UnaryOperator::Negative => false,
        _ => true,
    }
}

pub fn parts_binary(operator: BinaryOperator) -> bool
    ensures { result ≡ binary_parts operator }
{
    match operator {
        BinaryOperator::Add => false,
        BinaryOperator::Subtract => false,
        BinaryOperator::Multiply => false,
        _ => true,
    }
}
