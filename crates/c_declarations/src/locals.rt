//! Declarations inside functions (C11 6.7).
ghost use Rattle.std.specs.Prelude.{◌≡◌};
ghost use Rattle.c_syntax.specs.Depth.{specifier_depth, names_depth, declaration_depth};
ghost use Rattle.c_grammar.specs.Declarations.{declaration};
ghost use Rattle.c_grammar.specs.Reading.{specified};
ghost use Rattle.c_grammar.specs.DeclarationReading.{local_behind, local_declaration};
ghost use Rattle.c_cursor.specs.Deep.{IsDeep, ReadsDeep};
ghost use Rattle.c_expressions.specs.Parts.{reader, ReadsSpecified};

use crate::names::{initialized_names, typedef_names};
use crate::refusals::{at_file_word, behind_file_words};
use crate::words::{agrees, declares_tag, is_local, is_typedef};
use c_cursor::{Cursor, Deep, ParseRefusal, at_second_storage};
use c_expressions::{Specified, specified};
use c_lexer::{Keyword, Punctuator, Token};
use c_syntax::{Declaration, DeclarationKind, TypeSpecifier};
use std::alloc::Global;

/// A declaration of what its type begins with and of its names, whose depth is that of the deepest.
pub fn declaration(specifier: Deep<TypeSpecifier>, kind: Deep<DeclarationKind>) -> Deep<Declaration>
    requires specifier { IsDeep specifier_depth specifier }
    requires kind { IsDeep (names_depth (specifier_depth specifier.tree)) kind }
    ensures tree { result.tree ≡ declaration specifier.tree kind.tree }
    ensures depth { IsDeep declaration_depth result }
{
    Deep {
        tree: Declaration {
            specifier: specifier.tree,
            kind: kind.tree,
        },
        depth: specifier.depth.max(kind.depth),
    }
}

/// A declaration behind its type, which begins at these tokens.
#[tactic(auto, unfolding(c_grammar::specs::DeclarationReading::local_behind))]
fn local_behind(
    alloc: Global,
    cursor: &mut Cursor<'_>,
    words: &[Keyword],
    specifier: Deep<TypeSpecifier>,
    start: &[Token],
) -> Result<Deep<Declaration>, ParseRefusal>
    requires { IsDeep specifier_depth specifier }
    ensures { ReadsDeep declaration_depth (local_behind (reader 200) words.now specifier.tree cursor.old)
        result cursor.new }
{
    let otherwise = cursor.unexpected();
    if is_typedef(words) {
        if !agrees(words) {
            return Err(at_second_storage(start));
        }
        let list = typedef_names(alloc, cursor, &specifier)?;
        let kind = Deep {
            tree: DeclarationKind::Typedef(list.tree),
            depth: list.depth,
        };
        Ok(declaration(specifier, kind))
    } else if cursor.mark(Punctuator::Semicolon) {
        if !declares_tag(&specifier.tree) {
            return Err(otherwise);
        }
        let kind = Deep {
            tree: DeclarationKind::TypeOnly,
            depth: 0,
        };
        Ok(declaration(specifier, kind))
    } else {
        let list = initialized_names(alloc, cursor, &specifier)?;
        let kind = Deep {
            tree: DeclarationKind::Names(list.tree),
            depth: list.depth,
        };
        Ok(declaration(specifier, kind))
    }
}

/// What a declaration inside a function begins with.
fn local_type(alloc: Global, cursor: &mut Cursor<'_>) -> Result<Specified, ParseRefusal>
    ensures { ReadsSpecified (specified (reader 200) cursor.old) result cursor.new }
{
    let start = cursor.rest();
    match specified(alloc, cursor) {
        Err(ParseRefusal::Syntax { place }) => Err(behind_file_words(start, place, None)),
        Err(ParseRefusal::Refused { place, name }) => {
            Err(behind_file_words(start, place, Some(name)))
        }
        read => read,
    }
}

/// A declaration inside a function.
#[tactic(auto, unfolding(c_grammar::specs::DeclarationReading::local_declaration))]
pub fn local_declaration(
    alloc: Global,
    cursor: &mut Cursor<'_>,
) -> Result<Deep<Declaration>, ParseRefusal>
    ensures { ReadsDeep declaration_depth (local_declaration (reader 200) cursor.old) result cursor.new }
{
    let start = cursor.rest();
    let Specified { words, specifier } = local_type(alloc, cursor)?;
    if is_local(words.as_slice()) {
        local_behind(alloc, cursor, words.as_slice(), specifier, start)
    } else {
        Err(at_file_word(start))
    }
}
