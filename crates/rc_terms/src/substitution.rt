ghost use Rattle.std.specs.Prelude.{◌≡◌, ◌<◌, ◌≤◌, Err, false, IfOk, OnOk, map, cond};
ghost use Rattle.rc_terms.specs.declared.refusal.TermRefusal.TheVariants as refusals;
ghost use Rattle.rc_terms.specs.Nodes.{nodes, most_nodes};
ghost use Rattle.rc_terms.specs.Substitution.{substituted};

use crate::name::Name;
use crate::refusal::TermRefusal;
use crate::size::is_within_limit;
use crate::term::Term;
use shared_values::Shared;
use sqlite_items::Items;
use std::alloc::{AllocError, Global};

/// What became of a term or of several, and whether that is anything else than before.
#[derive(Drop)]
struct Rewritten<T> {
    after: T,
    changed: bool,
}

/// The term with another in a name's place. What doesn't change is shared with the term, and what is put in is shared
/// by all its places.
pub fn subst(alloc: Global, term: &Term, name: &Name, by: &Term) -> Result<Term, TermRefusal>
    ensures value { IfOk result (λ changed. changed ≡ substituted name.now by.now term.now) }
    ensures within { OnOk result (nodes (substituted name.now by.now term.now) ≤ most_nodes) }
    ensures limit { result ≡ Err refusals.TermLimit → most_nodes < nodes (substituted name.now by.now term.now) }
    ensures width { result ≡ Err refusals.Width → ⊥ }
{
    let by = Shared::new(alloc, by.copy(alloc)?)?;
    let before = Shared::new(alloc, term.copy(alloc)?)?;
    let after = replaced(alloc, &before, name, &by)?.after;
    let changed = after.get().copy(alloc)?;
    if is_within_limit(&changed) {
        Ok(changed)
    } else {
        Err(TermRefusal::TermLimit)
    }
}

/// The term with another in a name's place, and the term itself where the name doesn't stand in it.
#[cycle(replaced)]
fn replaced(
    alloc: Global,
    term: &Shared<Term>,
    name: &Name,
    by: &Shared<Term>,
) -> Result<Rewritten<Shared<Term>>, AllocError>
    ensures value { IfOk result (λ replaced. replaced.after ≡ substituted name.now by.now term.now) }
    ensures same { IfOk result (λ replaced. replaced.changed ≡ false → replaced.after ≡ term.now) }
{
    match term.get() {
        Term::Variable(other) => named(term, name.is(other), by),
        Term::Integer(_) | Term::Truth(_) | Term::Null => named(term, false, by),
        Term::List(elements) => {
            let elements = all_replaced(alloc, elements.as_slice(), name, by)?;
            rebuilt(alloc, term, Term::List(elements.after), elements.changed)
        }
        Term::Unary(operator, operand) => {
            let operand = replaced(alloc, operand, name, by)?;
            rebuilt(
                alloc,
                term,
                Term::Unary(*operator, operand.after),
                operand.changed,
            )
        }
        Term::Binary(operator, left, right) => {
            let left = replaced(alloc, left, name, by)?;
            let right = replaced(alloc, right, name, by)?;
            let after = Term::Binary(*operator, left.after, right.after);
            rebuilt(alloc, term, after, left.changed || right.changed)
        }
        Term::Conditional(first, second, third) => {
            let first = replaced(alloc, first, name, by)?;
            let second = replaced(alloc, second, name, by)?;
            let third = replaced(alloc, third, name, by)?;
            let changed = first.changed || second.changed || third.changed;
            let after = Term::Conditional(first.after, second.after, third.after);
            rebuilt(alloc, term, after, changed)
        }
        Term::Update(first, second, third) => {
            let first = replaced(alloc, first, name, by)?;
            let second = replaced(alloc, second, name, by)?;
            let third = replaced(alloc, third, name, by)?;
            let changed = first.changed || second.changed || third.changed;
            let after = Term::Update(first.after, second.after, third.after);
            rebuilt(alloc, term, after, changed)
        }
    }
}

/// The terms with another in a name's place.
#[cycle(replaced)]
fn all_replaced(
    alloc: Global,
    terms: &[Shared<Term>],
    name: &Name,
    by: &Shared<Term>,
) -> Result<Rewritten<Items<Shared<Term>>>, AllocError>
    ensures value { IfOk result (λ replaced. replaced.after ≡ map (substituted name.now by.now) terms.now) }
    ensures same { IfOk result (λ replaced. replaced.changed ≡ false → replaced.after ≡ terms.now) }
{
    let mut after = Items::new(alloc);
    let mut changed = false;
    for term in terms {
        let replaced = replaced(alloc, term, name, by)?;
        changed |= replaced.changed;
        after.push(replaced.after)?;
    }
    Ok(Rewritten { after, changed })
}

/// What stands in the name's place, where the term is that name, or else one more owner of the term itself.
fn named(
    term: &Shared<Term>,
    is_it: bool,
    by: &Shared<Term>,
) -> Result<Rewritten<Shared<Term>>, AllocError>
    ensures value { IfOk result (λ replaced. replaced.after ≡ cond is_it by.now term.now) }
    ensures changed { IfOk result (λ replaced. replaced.changed ≡ is_it) }
{
    let after = if is_it { by.share()? } else { term.share()? };
    Ok(Rewritten {
        after,
        changed: is_it,
    })
}

/// The term with its parts replaced, and one more owner of the term itself where no part changed.
fn rebuilt(
    alloc: Global,
    term: &Shared<Term>,
    after: Term,
    changed: bool,
) -> Result<Rewritten<Shared<Term>>, AllocError>
    requires { changed ≡ false → after ≡ term.now }
    ensures value { IfOk result (λ replaced. replaced.after ≡ after) }
    ensures changed { IfOk result (λ replaced. replaced.changed ≡ changed) }
{
    let after = if changed {
        Shared::new(alloc, after)?
    } else {
        term.share()?
    };
    Ok(Rewritten { after, changed })
}
