//! The parameters of functions (C11 6.7.6.3), each in scope behind its declarator.
ghost use Rattle.std.specs.Prelude.{◌≡◌};
ghost use Rattle.c_lexer.specs.declared.punctuator.Punctuator.TheVariants as marks;
ghost use Rattle.c_syntax.specs.Depth.{specifier_depth, parameter_depth};
ghost use Rattle.c_grammar.specs.Input.{mark};
ghost use Rattle.c_grammar.specs.Marks.{is_mark};
ghost use Rattle.c_grammar.specs.Declarations.{is_bare, is_void, is_void_alone};
ghost use Rattle.c_grammar.specs.Reading.{turns, specified};
ghost use Rattle.c_grammar.specs.DeclarationReading.{parameter_behind, parameter, parameters_from, parameter_list};
ghost use Rattle.c_cursor.specs.Cursor.{skipped};
ghost use Rattle.c_cursor.specs.Deep.{IsDeep, ReadsDeep};
ghost use Rattle.c_cursor.specs.Reads.{IsRefusal, Expects};
ghost use Rattle.c_expressions.specs.Parts.{reader, ReadsSpecified};
ghost use Rattle.c_declarations.specs.Parts.{parameters_depth, is_found, FindsVoidAlone};

use crate::declarators::declared_behind;
use crate::depths::derived;
use c_cursor::{
    Cursor, Deep, LeftOut, ParseRefusal, TypeStart, at_storage_word, behind_storage_words, pointers,
};
use c_expressions::{Specified, all_qualifiers, lengths, specified};
use c_grammar::NameKind;
use c_lexer::{Punctuator, Token, TokenKind};
use c_syntax::{AbstractDeclarator, Parameter, ParameterDeclarator, TypeSpecifier};
use rc_text::Place;
use sqlite_items::Items;
use std::alloc::Global;

/// What a parameter begins with; `...` is refused by its name.
fn parameter_type(alloc: Global, cursor: &mut Cursor<'_>) -> Result<Specified, ParseRefusal>
    ensures { ReadsSpecified (specified (reader 200) cursor.old) result cursor.new }
{
    let start = cursor.rest();
    let variadic = cursor.is_next(Punctuator::Ellipsis);
    match specified(alloc, cursor) {
        Err(ParseRefusal::Syntax { place }) if variadic => Err(ParseRefusal::Refused {
            place,
            name: LeftOut::Variadic,
        }),
        Err(ParseRefusal::Syntax { place }) => Err(behind_storage_words(start, place, None)),
        Err(ParseRefusal::Refused { place, name }) => {
            Err(behind_storage_words(start, place, Some(name)))
        }
        read => read,
    }
}

/// A parameter behind its type.
#[tactic(auto, using(crate::proofs::Depth::depths), unfolding(c_grammar::specs::DeclarationReading::parameter_behind))]
fn parameter_behind(
    alloc: Global,
    cursor: &mut Cursor<'_>,
    specifier: Deep<TypeSpecifier>,
) -> Result<Deep<Parameter>, ParseRefusal>
    requires { IsDeep specifier_depth specifier }
    ensures { ReadsDeep parameter_depth (parameter_behind (reader 200) specifier.tree cursor.old) result cursor.new }
{
    let pointers = pointers(alloc, cursor)?;
    match cursor.identifier() {
        Some(found) => {
            let name = found.to_name(alloc)?;
            let declared = declared_behind(alloc, cursor, &specifier, pointers, name)?;
            cursor.declare(
                alloc,
                declared.tree.name.text.as_slice(),
                NameKind::Ordinary,
            )?;
            Ok(Deep {
                tree: Parameter {
                    specifier: specifier.tree,
                    declarator: ParameterDeclarator::Named(declared.tree),
                },
                depth: declared.depth,
            })
        }
        None => {
            let lengths = lengths(alloc, cursor)?;
            let depth = derived(&specifier, pointers, &lengths);
            Ok(Deep {
                tree: Parameter {
                    specifier: specifier.tree,
                    declarator: ParameterDeclarator::Unnamed(AbstractDeclarator {
                        pointers,
                        lengths: lengths.tree,
                    }),
                },
                depth,
            })
        }
    }
}

/// One parameter.
#[tactic(auto, unfolding(c_grammar::specs::DeclarationReading::parameter))]
fn parameter(alloc: Global, cursor: &mut Cursor<'_>) -> Result<Deep<Parameter>, ParseRefusal>
    ensures { ReadsDeep parameter_depth (parameter (reader 200) cursor.old) result cursor.new }
{
    let start = cursor.rest();
    let found = parameter_type(alloc, cursor)?;
    if all_qualifiers(found.words.as_slice()) {
        parameter_behind(alloc, cursor, found.specifier)
    } else {
        Err(at_storage_word(start))
    }
}

/// Whether a declarator might begin behind it.
fn is_nameless(declarator: &ParameterDeclarator) -> bool {
    match declarator {
        ParameterDeclarator::Named(_) => false,
        ParameterDeclarator::Unnamed(parts) => parts.lengths.is_empty(),
    }
}

/// Goes past the closing parenthesis behind a parameter.
fn close_parameters(cursor: &mut Cursor<'_>, nameless: bool) -> Result<(), ParseRefusal>
    ensures { Expects (mark marks.CloseParenthesis cursor.old) result cursor.new }
{
    if nameless {
        cursor.close_type()
    } else {
        cursor.expect(Punctuator::CloseParenthesis)
    }
}

/// Parameters with commas between them, and the closing parenthesis.
fn parameters(
    alloc: Global,
    cursor: &mut Cursor<'_>,
) -> Result<Deep<Items<Parameter>>, ParseRefusal>
    ensures { ReadsDeep parameters_depth (parameters_from (reader 200) (turns cursor.old) cursor.old)
        result cursor.new }
{
    let mut tree = Items::new(alloc);
    let mut depth = 0;
    for _turn in 0..cursor.turns() {
        let one = parameter(alloc, cursor)?;
        let nameless = is_nameless(&one.tree.declarator);
        depth = one.depth.max(depth);
        tree.push(one.tree)?;
        if !cursor.mark(Punctuator::Comma) {
            close_parameters(cursor, nameless)?;
            return Ok(Deep { tree, depth });
        }
    }
    Err(cursor.unexpected())
}

/// Parameters behind the opening parenthesis, none for `void` alone.
#[tactic(auto, using(crate::proofs::Void::alone), unfolding(c_grammar::specs::DeclarationReading::parameter_list))]
pub(crate) fn parameter_list(
    alloc: Global,
    cursor: &mut Cursor<'_>,
) -> Result<Deep<Items<Parameter>>, ParseRefusal>
    ensures { ReadsDeep parameters_depth (parameter_list (reader 200) cursor.old) result cursor.new }
{
    if begins_void_alone(cursor) {
        cursor.skip();
        cursor.expect(Punctuator::CloseParenthesis)?;
        return Ok(Deep {
            tree: Items::new(alloc),
            depth: 0,
        });
    }
    let start = cursor.rest();
    let list = parameters(alloc, cursor)?;
    if is_void_alone(list.tree.as_slice()) {
        Err(at_last_taken(start, cursor))
    } else {
        Ok(list)
    }
}

/// Whether `void` stands next, with the closing parenthesis behind it.
#[tactic(auto, unfolding(c_grammar::specs::DeclarationReading::void_alone))]
fn begins_void_alone(cursor: &Cursor<'_>) -> bool
    ensures { FindsVoidAlone cursor.now result }
{
    match cursor.type_start() {
        Some(TypeStart::Void) => closes_behind(cursor),
        _ => false,
    }
}

/// Whether the closing parenthesis stands behind the next token.
#[tactic(auto, unfolding(c_grammar::specs::Input::mark))]
fn closes_behind(cursor: &Cursor<'_>) -> bool
    ensures { result ≡ is_found (mark marks.CloseParenthesis (skipped cursor.now)) }
{
    match cursor.rest().split_first() {
        Some((_, behind)) => match behind.split_first() {
            Some((token, _)) => is_close(token.kind),
            None => false,
        },
        None => false,
    }
}

fn is_close(kind: TokenKind) -> bool
    ensures { result ≡ is_mark marks.CloseParenthesis kind }
{
    match kind {
        TokenKind::Punctuator(punctuator) => punctuator == Punctuator::CloseParenthesis,
        _ => false,
    }
}

/// The refusal at the last token that was read, behind this beginning.
fn at_last_taken(start: &[Token], cursor: &Cursor<'_>) -> ParseRefusal
    ensures { IsRefusal result }
{
    let taken = start.len().saturating_sub(cursor.rest().len());
    match start.get(taken.saturating_sub(1)) {
        Some(token) => ParseRefusal::Syntax { place: token.place },
        None => ParseRefusal::Syntax {
            place: Place::START,
        },
    }
}

/// Whether the list is one parameter that is `void` and nothing else.
fn is_void_alone(list: &[Parameter]) -> bool
    ensures { result ≡ is_void_alone list.now }
{
    match list.split_first() {
        Some((first, others)) => others.is_empty() && is_void(first),
        None => false,
    }
}

fn is_void(parameter: &Parameter) -> bool
    ensures { result ≡ is_void parameter.now }
{
    matches!(parameter.specifier, TypeSpecifier::Void) && is_bare(&parameter.declarator)
}

/// Whether it has neither a name nor `*`s nor lengths.
fn is_bare(declarator: &ParameterDeclarator) -> bool
    ensures { result ≡ is_bare declarator.now }
{
    match declarator {
        ParameterDeclarator::Named(_) => false,
        ParameterDeclarator::Unnamed(parts) => parts.pointers == 0 && parts.lengths.is_empty(),
    }
}
