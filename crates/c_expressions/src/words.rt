//! The words beside types, and where those of no integer type are refused.
ghost use Rattle.std.specs.Prelude.{◌≡◌, Some, option_and_then};
ghost use Rattle.std.specs.List.{list_all, filter};
ghost use Rattle.c_syntax.specs.Depth.{specifier_depth};
ghost use Rattle.c_grammar.specs.Specifiers.{is_qualifier, is_modifier, integer_type};
ghost use Rattle.c_expressions.specs.Parts.{ReadsSpecified};
ghost use Rattle.c_syntax.specs.declared.specifier.TypeSpecifier.TheVariants as specifiers;
ghost use Rattle.c_grammar.specs.Input.{Input};
ghost use Rattle.c_cursor.specs.Reads.{IsRefusal};

use crate::parts::Specified;
use c_cursor::{Deep, ParseRefusal, integer_type, is_integer_word, is_qualifier, modifiers};
use c_lexer::{Keyword, Token};
use c_syntax::TypeSpecifier;
use rc_text::Place;
use sqlite_items::Items;
use std::alloc::Global;

pub fn all_qualifiers(words: &[Keyword]) -> bool
    ensures { result ≡ list_all is_qualifier words.now }
{
    words.iter().all(|word| is_qualifier(*word))
}

/// A specified type that is one node.
#[tactic(auto, using(crate::proofs::TypeDepths::type_depths))]
pub fn single_node(tree: TypeSpecifier) -> Deep<TypeSpecifier>
    requires { specifier_depth tree ≡ 1 }
    ensures tree { result.tree ≡ tree }
    ensures depth { result.depth ≡ 1 }
{
    Deep { tree, depth: 1 }
}

/// The integer type that the words name, which stand at these tokens.
#[tactic(auto, using(crate::proofs::TypeDepths::type_depths))]
pub fn integers(
    alloc: Global,
    before: Items<Keyword>,
    start: &[Token],
) -> Result<Specified, ParseRefusal>
    ensures { (rest : Input) → ReadsSpecified (option_and_then (λ type.
        Some ((filter is_modifier before, specifiers.Integer type), rest)) (integer_type before)) result rest }
{
    match integer_type(before.as_slice()) {
        Some(named) => Ok(Specified {
            words: modifiers(alloc, before.as_slice())?,
            specifier: single_node(TypeSpecifier::Integer(named)),
        }),
        None => Err(at_wrong_word(before.as_slice(), start)),
    }
}

/// The refusal at the first word with which those before it name no type.
fn at_wrong_word(words: &[Keyword], start: &[Token]) -> ParseRefusal
    ensures { IsRefusal result }
{
    for (at, token) in start.iter().enumerate() {
        if at < words.len() && is_integer_word(words[at]) {
            if integer_type(&words[..at + 1]).is_none() {
                return ParseRefusal::Syntax { place: token.place };
            }
        }
    }
    ParseRefusal::Syntax {
        place: Place::START,
    }
}
