ghost use Rattle.std.specs.Prelude.{◌≡◌, ◌+◌, map};
ghost use Rattle.c_syntax.specs.Depth.{specifier_depth, expression_depth, array_depth};
ghost use Rattle.c_cursor.specs.Deep.{IsDeep, counted};
ghost use Rattle.c_expressions.specs.Parts.{lengths_depth};

use c_cursor::{Deep, further};
use c_syntax::{Expr, TypeSpecifier};
use sqlite_items::Items;

/// The depth of a declared type: so many `*`s round the type that the declaration begins with, and arrays of that.
#[tactic(auto, using(crate::proofs::Depth::depths))]
pub(crate) fn derived(
    specifier: &Deep<TypeSpecifier>,
    pointers: usize,
    lengths: &Deep<Items<Expr>>,
) -> usize
    requires specifier { IsDeep specifier_depth specifier.now }
    requires lengths { IsDeep lengths_depth lengths.now }
    ensures { result ≡ counted (array_depth (map expression_depth lengths.now.tree)
        (pointers + specifier_depth specifier.now.tree)) }
{
    let element = further(further(specifier.depth, pointers), lengths.tree.len());
    element.max(lengths.depth)
}
