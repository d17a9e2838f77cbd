ghost use Rattle.std.specs.Prelude.{◌≡◌, IfOk};
ghost use Rattle.normal_forms.specs.Order.{term_order};

use crate::key::push_key;
use rc_terms::Term;
use sqlite_items::Items;
use std::alloc::{AllocError, Global};
use std::cmp::Ordering;

/// Which of two terms comes first in the one order of all terms: by shape, then by parts. The order is this project's
/// own. It takes memory for what it compares.
pub fn compare_terms(alloc: Global, term: &Term, other: &Term) -> Result<Ordering, AllocError>
    ensures { IfOk result (λ ordering. ordering ≡ term_order term.now other.now) }
{
    let mut key = Items::new(alloc);
    push_key(&mut key, term)?;
    let mut second = Items::new(alloc);
    push_key(&mut second, other)?;
    Ok(key.as_slice().cmp(second.as_slice()))
}
