ghost use Rattle.std.specs.Prelude.{◌≡◌, ◌<◌, ◌≤◌, ◌⊎◌, ◌↔◌, length, IfOk, Ok, Err};
ghost use Rattle.c_syntax.specs.declared.unit.Unit.{Unit};
ghost use Rattle.c_syntax.specs.Depth.{unit_depth};
ghost use Rattle.c_grammar.specs.Grammar.{Derives};
ghost use Rattle.c_grammar.specs.FileReading.{unit_of};
ghost use Rattle.c_cursor.specs.declared.refusal.ParseRefusal.TheVariants as refusals;
ghost use Rattle.c_parser.specs.Items.{Finds};

use crate::items::items;
use c_cursor::{Cursor, DEPTH_LIMIT, Names, ParseRefusal};
use c_grammar::files_are_read_exactly;
use c_lexer::Tokens;
use c_syntax::Unit;
use sqlite_items::Items;
use std::alloc::Global;

/// What is read of a file.
#[tactic(auto, unfolding(c_grammar::specs::FileReading::unit_of))]
fn unit(alloc: Global, tokens: &Tokens) -> Result<Unit, ParseRefusal>
    ensures { Finds (unit_of 200 tokens.now) result }
{
    let mut cursor = Cursor::new(tokens.as_slice(), Names::new(alloc), tokens.end());
    let items = items(alloc, &mut cursor)?;
    Ok(Unit {
        includes: Items::from_slice(alloc, tokens.includes())?,
        items,
    })
}

/// Hands `Depth` on for a file of many tokens alone: that no other is so deep isn't proved, so they are counted.
fn deep_only_of_many(tokens: &Tokens, refusal: ParseRefusal) -> ParseRefusal
    ensures many { result ≡ refusals.Depth → 100 < length tokens.now.tokens }
    ensures memory { (result ≡ refusals.NoMemory) ↔ (refusal ≡ refusals.NoMemory) }
{
    match refusal {
        ParseRefusal::Depth if tokens.len() <= DEPTH_LIMIT / 2 => ParseRefusal::Syntax {
            place: tokens.end(),
        },
        _ => refusal,
    }
}

/// The tree of a file whose tokens these are (C11 6.9).
///
/// # Errors
///
/// `Syntax` and `Refused` at a token at which the file can't go on, or at its end; `Depth` where more than 200
/// statements, expressions and types lie in one another.
pub fn parse(alloc: Global, tokens: &Tokens) -> Result<Unit, ParseRefusal>
    // A tree that is given is the file's.
    ensures sound { IfOk result (λ tree. Derives tokens.now tree × (unit_depth tree ≤ 200)) }
    // A file's tree is given, unless memory runs out: so a refusal comes only where there is none within the depth.
    ensures complete { (tree : Unit) → Derives tokens.now tree → unit_depth tree ≤ 200
        → (result ≡ Ok tree) ⊎ (result ≡ Err refusals.NoMemory) }
    ensures deep { result ≡ Err refusals.Depth → 100 < length tokens.now.tokens }
{
    files_are_read_exactly();
    match unit(alloc, tokens) {
        Ok(tree) => Ok(tree),
        Err(refusal) => Err(deep_only_of_many(tokens, refusal)),
    }
}
