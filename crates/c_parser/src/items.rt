//! Definitions and declarations at file scope (C11 6.9).
ghost use Rattle.std.specs.Prelude.{◌≡◌, ◌+◌, suc};
ghost use Rattle.std.specs.List.{list_all};
ghost use Rattle.c_syntax.specs.Depth.{specifier_depth, function_depth, item_depth};
ghost use Rattle.c_grammar.specs.Grammar.{is_named};
ghost use Rattle.c_grammar.specs.Declarations.{declaration};
ghost use Rattle.c_grammar.specs.FileReading.{functions_behind, functions, item_behind, any_item, item, items_from};
ghost use Rattle.c_grammar.specs.Reading.{turns};
ghost use Rattle.c_cursor.specs.Deep.{IsDeep, ReadsDeep};
ghost use Rattle.c_cursor.specs.Reads.{Reads};
ghost use Rattle.c_syntax.specs.declared.unit.ItemKind.TheVariants as items;
ghost use Rattle.c_parser.specs.Items.{with_body, one_item, Finds, BeginsBody};

use c_cursor::{Cursor, DEPTH_LIMIT, Deep, ParseRefusal, at_second_storage, attributes, further};
use c_declarations::{
    agrees, declares_tag, defining, function_declared, function_names, is_typedef, typedef_names,
};
use c_expressions::Specified;
use c_grammar::NameKind;
use c_lexer::{Keyword, Punctuator, TokenKind};
use c_statements::function_body;
use c_syntax::{
    Declaration, DeclarationKind, FunctionDeclarator, FunctionDefinition, InitDeclarator, Item,
    ItemKind, Parameter, ParameterDeclarator, Stmt, StmtKind, TypeSpecifier,
};
use rc_text::{Bytes, Place};
use sqlite_items::Items;
use std::alloc::Global;

fn is_named(parameter: &Parameter) -> bool
    ensures { result ≡ is_named parameter.now.declarator }
{
    matches!(&parameter.declarator, ParameterDeclarator::Named(_))
}

fn all_named(parameters: &[Parameter]) -> bool
    ensures { result ≡ list_all (λ parameter. is_named parameter.declarator) parameters.now }
{
    parameters.iter().all(|parameter| is_named(parameter))
}

/// Functions without bodies, behind the first.
#[tactic(auto, using(crate::proofs::ItemDepths::item_depths), unfolding(c_grammar::specs::FileReading::functions_behind))]
fn functions_behind(
    alloc: Global,
    cursor: &mut Cursor<'_>,
    specifier: Deep<TypeSpecifier>,
    first: Deep<FunctionDeclarator>,
) -> Result<Deep<ItemKind>, ParseRefusal>
    requires specifier { IsDeep specifier_depth specifier }
    requires first { IsDeep (function_depth (specifier_depth specifier.tree)) first }
    ensures { ReadsDeep item_depth (functions_behind 200 specifier.tree first.tree cursor.old) result cursor.new }
{
    let mut names = Items::new(alloc);
    names.push(InitDeclarator::Function(first.tree))?;
    let mut depth = first.depth;
    if cursor.mark(Punctuator::Comma) {
        let others = function_names(alloc, cursor, &specifier)?;
        names.append(others.tree)?;
        depth = others.depth.max(depth);
    } else {
        cursor.expect(Punctuator::Semicolon)?;
    }
    Ok(Deep {
        depth: specifier.depth.max(depth),
        tree: ItemKind::Declaration(Declaration {
            specifier: specifier.tree,
            kind: DeclarationKind::Names(names),
        }),
    })
}

/// A function with its body, behind the opening brace at this place. What it declares is still in scope.
#[tactic(auto, using(crate::proofs::ItemDepths::item_depths), unfolding(crate::specs::Items::with_body))]
fn with_body(
    alloc: Global,
    cursor: &mut Cursor<'_>,
    specifier: Deep<TypeSpecifier>,
    declarator: Deep<FunctionDeclarator>,
    place: Place,
) -> Result<Deep<ItemKind>, ParseRefusal>
    requires specifier { IsDeep specifier_depth specifier }
    requires declarator { IsDeep (function_depth (specifier_depth specifier.tree)) declarator }
    ensures { ReadsDeep item_depth (with_body specifier.tree declarator.tree place cursor.old) result cursor.new }
{
    let children = function_body(alloc, cursor)?;
    let body = Stmt {
        place,
        labels: Items::new(alloc),
        attributes: Items::new(alloc),
        kind: StmtKind::Compound(children.tree),
    };
    Ok(Deep {
        depth: further(children.depth, 1).max(declarator.depth),
        tree: ItemKind::Function(FunctionDefinition {
            specifier: specifier.tree,
            declarator: declarator.tree,
            body,
        }),
    })
}

/// Functions behind the words of their result's type, the first perhaps with a body.
#[tactic(auto, unfolding(c_grammar::specs::FileReading::functions, c_grammar::specs::FileReading::defined, c_grammar::specs::FileReading::function_body, crate::specs::Items::with_body))]
fn functions(
    alloc: Global,
    cursor: &mut Cursor<'_>,
    specifier: Deep<TypeSpecifier>,
) -> Result<Deep<ItemKind>, ParseRefusal>
    requires { IsDeep specifier_depth specifier }
    ensures { ReadsDeep item_depth (functions 200 specifier.tree cursor.old) result cursor.new }
{
    let scope = cursor.scope();
    let first = function_declared(alloc, cursor, &specifier)?;
    let name = Bytes::from_slice(alloc, first.tree.name.text.as_slice())?;
    cursor.declare(alloc, name.as_slice(), NameKind::Ordinary)?;
    match body_place(cursor) {
        Some(place) => {
            if !all_named(first.tree.parameters.as_slice()) {
                return Err(cursor.unexpected());
            }
            cursor.skip();
            let item = with_body(alloc, cursor, specifier, first, place)?;
            cursor.leave(scope);
            cursor.declare(alloc, name.as_slice(), NameKind::Ordinary)?;
            Ok(item)
        }
        None => {
            cursor.leave(scope);
            cursor.declare(alloc, name.as_slice(), NameKind::Ordinary)?;
            functions_behind(alloc, cursor, specifier, first)
        }
    }
}

/// An item behind the words of its type.
#[tactic(auto, using(crate::proofs::ItemDepths::item_depths), unfolding(c_grammar::specs::FileReading::item_behind))]
fn item_behind(
    alloc: Global,
    cursor: &mut Cursor<'_>,
    words: &[Keyword],
    specifier: Deep<TypeSpecifier>,
) -> Result<Deep<ItemKind>, ParseRefusal>
    requires { IsDeep specifier_depth specifier }
    ensures { ReadsDeep item_depth (item_behind 200 words.now specifier.tree cursor.old) result cursor.new }
{
    if is_typedef(words) {
        let names = typedef_names(alloc, cursor, &specifier)?;
        return Ok(Deep {
            depth: specifier.depth.max(names.depth),
            tree: declared(specifier.tree, DeclarationKind::Typedef(names.tree)),
        });
    }
    let alone = cursor.unexpected();
    if !cursor.mark(Punctuator::Semicolon) {
        return functions(alloc, cursor, specifier);
    }
    if !declares_tag(&specifier.tree) {
        return Err(alone);
    }
    Ok(Deep {
        depth: specifier.depth,
        tree: declared(specifier.tree, DeclarationKind::TypeOnly),
    })
}

fn declared(specifier: TypeSpecifier, kind: DeclarationKind) -> ItemKind
    ensures { result ≡ items.Declaration (declaration specifier kind) }
{
    ItemKind::Declaration(Declaration { specifier, kind })
}

/// A definition or declaration at file scope behind its attributes, however deep.
#[tactic(auto, unfolding(c_grammar::specs::FileReading::any_item))]
fn any_item(alloc: Global, cursor: &mut Cursor<'_>) -> Result<Deep<ItemKind>, ParseRefusal>
    ensures { ReadsDeep item_depth (any_item 200 cursor.old) result cursor.new }
{
    let start = cursor.rest();
    let Specified { words, specifier } = defining(alloc, cursor)?;
    if !agrees(words.as_slice()) {
        return Err(at_second_storage(start));
    }
    item_behind(alloc, cursor, words.as_slice(), specifier)
}

/// A definition or declaration at file scope behind its attributes.
#[tactic(auto, unfolding(c_grammar::specs::FileReading::item))]
fn item(alloc: Global, cursor: &mut Cursor<'_>) -> Result<ItemKind, ParseRefusal>
    ensures { Reads (item 200 cursor.old) result cursor.new }
{
    let read = any_item(alloc, cursor)?;
    if read.depth > DEPTH_LIMIT {
        return Err(ParseRefusal::Depth);
    }
    Ok(read.tree)
}

/// A definition or declaration at file scope with its attributes.
#[tactic(auto, unfolding(crate::specs::Items::one_item))]
fn one_item(alloc: Global, cursor: &mut Cursor<'_>) -> Result<Item, ParseRefusal>
    ensures { Reads (one_item cursor.old) result cursor.new }
{
    let attributes = attributes(alloc, cursor)?;
    match cursor.next_place() {
        Some(place) => Ok(Item {
            place,
            attributes,
            kind: item(alloc, cursor)?,
        }),
        None => Err(cursor.unexpected()),
    }
}

/// The definitions and declarations up to the end of the file.
pub(crate) fn items(alloc: Global, cursor: &mut Cursor<'_>) -> Result<Items<Item>, ParseRefusal>
    ensures { Finds (items_from 200 (suc (turns cursor.old)) cursor.old) result }
{
    let mut found = Items::new(alloc);
    for _turn in 0..cursor.turns_and_one() {
        if cursor.peek().is_none() {
            return Ok(found);
        }
        found.push(one_item(alloc, cursor)?)?;
    }
    Err(cursor.unexpected())
}

/// Where the next token stands, if it opens a body.
#[tactic(auto, unfolding(c_grammar::specs::Input::mark, c_grammar::specs::Statements::place_of))]
fn body_place(cursor: &Cursor<'_>) -> Option<Place>
    ensures { BeginsBody cursor.now result }
{
    match cursor.peek() {
        Some(token) if token.kind == TokenKind::Punctuator(Punctuator::OpenBrace) => {
            Some(token.place)
        }
        _ => None,
    }
}
