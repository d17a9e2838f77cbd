ghost use Rattle.std.specs.Prelude.{◌≡◌, ◌<◌, ◌≤◌, true, false, Err, IfOk, OnOk};
ghost use Rattle.rc_terms.specs.declared.refusal.TermRefusal.TheVariants as refusals;
ghost use Rattle.rc_terms.specs.Nodes.{nodes, most_nodes};
ghost use Rattle.normal_forms.specs.Negation.{pushed as pushed_term};
ghost use Rattle.normal_forms.specs.Propositions.{normal_prop as prop_in_order};
ghost use Rattle.normal_forms.specs.Widths.{staging_passes};

use crate::negation::pushed;
use crate::normal::normal_term;
use rc_terms::{Prop, Sorts, TermRefusal};
use std::alloc::Global;

/// The proposition in normal form, under the sorts of its names: negations pushed to comparisons, and then its term in
/// normal form, so that comparisons of literals are decided. `Width` comes as it does for that term.
pub fn normal_prop(alloc: Global, prop: &Prop, sorts: &Sorts) -> Result<Prop, TermRefusal>
    ensures value { IfOk result (λ normal. normal.term ≡ prop_in_order sorts.now prop.now.term) }
    ensures within { OnOk result (nodes (prop_in_order sorts.now prop.now.term) ≤ most_nodes) }
    ensures limit { result ≡ Err refusals.TermLimit → most_nodes < nodes (prop_in_order sorts.now prop.now.term) }
    ensures width { result ≡ Err refusals.Width →
        staging_passes sorts.now (pushed_term prop.now.term false) true ≡ true }
    ensures narrow { OnOk result (staging_passes sorts.now (pushed_term prop.now.term false) true ≡ false) }
    ensures narrow_limit { result ≡ Err refusals.TermLimit →
        staging_passes sorts.now (pushed_term prop.now.term false) true ≡ false }
{
    let pushed = pushed(alloc, &prop.term, false)?;
    let term = normal_term(alloc, &pushed, sorts)?;
    Ok(Prop { term })
}
