ghost use Rattle.std.specs.Prelude.{◌≡◌, ◌<◌, ◌≤◌, true, false, Err, IfOk, OnOk};
ghost use Rattle.rc_terms.specs.declared.refusal.TermRefusal.TheVariants as refusals;
ghost use Rattle.rc_terms.specs.Nodes.{nodes, most_nodes};
ghost use Rattle.normal_forms.specs.Sums.{normal_sum as sum_in_order};
ghost use Rattle.normal_forms.specs.Widths.{Forms, sum_passes};

use crate::expansion::expand;
use crate::failure::Failure;
use crate::polynomial::{gathered, summed};
use rc_terms::{Term, TermRefusal, is_within_limit};
use sqlite_items::Items;
use std::alloc::Global;

/// The one sum of multiples of products that a number is by the laws of commutative rings: products multiplied out,
/// like ones added up, in order. Terms that aren't sums, differences, products or minuses stay as they are. `Width`
/// comes where a factor of that sum leaves 128 bits.
pub fn normal_sum(alloc: Global, term: &Term) -> Result<Term, TermRefusal>
    ensures value { IfOk result (λ sum. sum ≡ sum_in_order term.now) }
    ensures within { OnOk result (nodes (sum_in_order term.now) ≤ most_nodes) }
    ensures limit { result ≡ Err refusals.TermLimit → most_nodes < nodes (sum_in_order term.now) }
    ensures width { result ≡ Err refusals.Width → sum_passes term.now ≡ true }
    ensures narrow { OnOk result (sum_passes term.now ≡ false) }
    ensures narrow_limit { result ≡ Err refusals.TermLimit → sum_passes term.now ≡ false }
{
    let sum = match written(alloc, term) {
        Ok(sum) => sum,
        Err(Failure::Width) => return Err(TermRefusal::Width),
        Err(Failure::NoMemory) => return Err(TermRefusal::NoMemory),
    };
    if is_within_limit(&sum) {
        Ok(sum)
    } else {
        Err(TermRefusal::TermLimit)
    }
}

/// The same, of any size.
pub fn written(alloc: Global, term: &Term) -> Result<Term, Failure>
    ensures { Forms result (sum_in_order term.now) (sum_passes term.now) }
{
    let mut summands = Items::new(alloc);
    expand(alloc, &mut summands, term, false)?;
    let polynomial = gathered(alloc, summands.as_slice())?;
    summed(alloc, &polynomial)
}
