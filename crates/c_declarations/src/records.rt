//! Structs and unions with their members (C11 6.7.2.1), and what declarations at file scope begin with.
ghost use Rattle.std.specs.Prelude.{◌≡◌};
ghost use Rattle.c_syntax.specs.Depth.{specifier_depth};
ghost use Rattle.c_syntax.specs.declared.specifier.TypeSpecifier.TheVariants as specifiers;
ghost use Rattle.c_grammar.specs.Declarations.{definition, member_declaration};
ghost use Rattle.c_grammar.specs.Depths.{member_depth};
ghost use Rattle.c_grammar.specs.Reading.{turns};
ghost use Rattle.c_grammar.specs.DeclarationReading.{declared, member_names_from, members_behind, member, members_from};
ghost use Rattle.c_grammar.specs.DeclarationReading.{record_behind, record_or_definition, defining_type, defining_with};
ghost use Rattle.c_grammar.specs.DeclarationReading.{defining};
ghost use Rattle.c_cursor.specs.Deep.{IsDeep, ReadsDeep};
ghost use Rattle.c_expressions.specs.Parts.{reader, ReadsSpecified};
ghost use Rattle.c_declarations.specs.Parts.{ReadsDeclared, declarators_depth, members_depth, member_types};

use crate::declarators::declared;
use crate::refusals::close_members;
use crate::words::declares_tag;
use c_cursor::{
    Cursor, DEPTH_LIMIT, Deep, LeftOut, ParseRefusal, TypeStart, WordTest, at_storage_word,
    attributes, behind_storage_words, further, has_integer_word, name, words,
};
use c_expressions::{Specified, all_qualifiers, integers, single_by, single_node};
use c_lexer::Punctuator;
use c_syntax::{
    Attribute, Declarator, MemberDeclaration, Name, RecordDefinition, RecordKind, TypeSpecifier,
};
use sqlite_items::Items;
use std::alloc::Global;

/// What a declaration at file scope begins with.
pub fn defining(alloc: Global, cursor: &mut Cursor<'_>) -> Result<Specified, ParseRefusal>
    ensures { ReadsSpecified (defining (reader 200) 201 cursor.old) result cursor.new }
{
    nested(alloc, cursor, DEPTH_LIMIT + 1)
}

/// The same where definitions may nest in one another so often.
#[cycle(records)]
#[tactic(auto, unfolding(c_grammar::specs::DeclarationReading::defining))]
fn nested(alloc: Global, cursor: &mut Cursor<'_>, room: usize) -> Result<Specified, ParseRefusal>
    ensures { ReadsSpecified (defining (reader 200) room cursor.old) result cursor.new }
{
    if room == 0 {
        Err(ParseRefusal::Depth)
    } else {
        words_round(alloc, cursor, room - 1)
    }
}

/// A type with the words that stand round it, where so many definitions may nest in its members.
#[cycle(records)]
#[tactic(auto, unfolding(c_grammar::specs::DeclarationReading::defining_with, c_grammar::specs::DeclarationReading::specified_with))]
fn words_round(
    alloc: Global,
    cursor: &mut Cursor<'_>,
    room: usize,
) -> Result<Specified, ParseRefusal>
    ensures { ReadsSpecified (defining_with (reader 200) (member_types room) cursor.old) result cursor.new }
{
    let start = cursor.rest();
    let mut before = words(alloc, cursor, WordTest::Specifier)?;
    if has_integer_word(before.as_slice()) {
        return integers(alloc, before, start);
    }
    let specifier = defining_type(alloc, cursor, room)?;
    let after = words(alloc, cursor, WordTest::Modifier)?;
    before.append(after)?;
    Ok(Specified {
        words: before,
        specifier,
    })
}

/// A type of one word, or a struct, union or enumeration.
#[cycle(records)]
#[tactic(auto, unfolding(c_grammar::specs::DeclarationReading::defining_type))]
fn defining_type(
    alloc: Global,
    cursor: &mut Cursor<'_>,
    room: usize,
) -> Result<Deep<TypeSpecifier>, ParseRefusal>
    ensures { ReadsDeep specifier_depth (defining_type (reader 200) (member_types room) cursor.old) result cursor.new }
{
    let otherwise = cursor.unexpected();
    match cursor.type_start() {
        Some(start) => {
            cursor.skip();
            match start {
                TypeStart::Struct => record(alloc, cursor, RecordKind::Struct, room),
                TypeStart::Union => record(alloc, cursor, RecordKind::Union, room),
                _ => single_by(alloc, cursor, start, otherwise),
            }
        }
        None => Err(otherwise),
    }
}

/// A struct or union behind its keyword, with members or without.
#[cycle(records)]
#[tactic(auto, unfolding(c_grammar::specs::DeclarationReading::record_or_definition))]
fn record(
    alloc: Global,
    cursor: &mut Cursor<'_>,
    kind: RecordKind,
    room: usize,
) -> Result<Deep<TypeSpecifier>, ParseRefusal>
    ensures { ReadsDeep specifier_depth (record_or_definition (reader 200) (member_types room) kind cursor.old)
        result cursor.new }
{
    let attributes = attributes(alloc, cursor)?;
    let tag = name(alloc, cursor)?;
    record_behind(alloc, cursor, kind, attributes, tag, room)
}

/// The same behind the tag.
#[cycle(records)]
#[tactic(auto, using(crate::proofs::Depth::depths), unfolding(c_grammar::specs::DeclarationReading::record_behind))]
fn record_behind(
    alloc: Global,
    cursor: &mut Cursor<'_>,
    kind: RecordKind,
    attributes: Items<Attribute>,
    tag: Name,
    room: usize,
) -> Result<Deep<TypeSpecifier>, ParseRefusal>
    ensures { ReadsDeep specifier_depth (record_behind (reader 200) (member_types room) kind attributes tag cursor.old)
        result cursor.new }
{
    if cursor.mark(Punctuator::OpenBrace) {
        let members = members(alloc, cursor, room)?;
        Ok(definition(kind, attributes, tag, members))
    } else {
        Ok(single_node(TypeSpecifier::Record {
            kind,
            attributes,
            tag,
        }))
    }
}

/// Members and the closing brace.
#[cycle(records)]
fn members(
    alloc: Global,
    cursor: &mut Cursor<'_>,
    room: usize,
) -> Result<Deep<Items<MemberDeclaration>>, ParseRefusal>
    ensures { ReadsDeep members_depth (members_from (reader 200) (member_types room) (turns cursor.old) cursor.old)
        result cursor.new }
{
    let mut tree = Items::new(alloc);
    let mut depth = 0;
    for _turn in 0..cursor.turns() {
        let one = member(alloc, cursor, room)?;
        depth = one.depth.max(depth);
        tree.push(one.tree)?;
        if cursor.mark(Punctuator::CloseBrace) {
            return Ok(Deep { tree, depth });
        }
    }
    Err(cursor.unexpected())
}

/// Members of one type, with their attributes.
#[cycle(records)]
#[tactic(auto, unfolding(c_grammar::specs::DeclarationReading::member, c_grammar::specs::DeclarationReading::members_behind))]
fn member(
    alloc: Global,
    cursor: &mut Cursor<'_>,
    room: usize,
) -> Result<Deep<MemberDeclaration>, ParseRefusal>
    ensures { ReadsDeep member_depth (member (reader 200) (member_types room) cursor.old) result cursor.new }
{
    let attributes = attributes(alloc, cursor)?;
    let start = cursor.rest();
    let found = match nested(alloc, cursor, room) {
        Ok(found) => found,
        Err(ParseRefusal::Syntax { place }) => {
            return Err(behind_storage_words(start, place, None));
        }
        Err(ParseRefusal::Refused { place, name }) => {
            return Err(behind_storage_words(start, place, Some(name)));
        }
        Err(refusal) => return Err(refusal),
    };
    if all_qualifiers(found.words.as_slice()) {
        members_behind(alloc, cursor, attributes, found.specifier)
    } else {
        Err(at_storage_word(start))
    }
}

/// Members behind their type.
#[tactic(auto, unfolding(c_grammar::specs::DeclarationReading::members_behind))]
fn members_behind(
    alloc: Global,
    cursor: &mut Cursor<'_>,
    attributes: Items<Attribute>,
    specifier: Deep<TypeSpecifier>,
) -> Result<Deep<MemberDeclaration>, ParseRefusal>
    requires { IsDeep specifier_depth specifier }
    ensures { ReadsDeep member_depth
        (members_behind (reader 200) (member_types 0) attributes specifier.tree cursor.old) result cursor.new }
{
    let otherwise = cursor.unexpected();
    if cursor.mark(Punctuator::Semicolon) {
        if !declares_tag(&specifier.tree) {
            return Err(otherwise);
        }
        let nothing = Deep {
            tree: Items::new(alloc),
            depth: 0,
        };
        Ok(member_declaration(attributes, specifier, nothing))
    } else {
        let declarators = member_names(alloc, cursor, &specifier)?;
        Ok(member_declaration(attributes, specifier, declarators))
    }
}

/// The declarator of a member; a bit field without a name is refused by its name.
fn member_declared(
    alloc: Global,
    cursor: &mut Cursor<'_>,
    specifier: &Deep<TypeSpecifier>,
) -> Result<Deep<Declarator>, ParseRefusal>
    requires { IsDeep specifier_depth specifier.now }
    ensures { ReadsDeclared (specifier_depth specifier.now.tree) (declared (reader 200) cursor.old) result cursor.new }
{
    let bit_field = cursor.is_next(Punctuator::Colon);
    match declared(alloc, cursor, specifier) {
        Err(ParseRefusal::Syntax { place }) if bit_field => Err(ParseRefusal::Refused {
            place,
            name: LeftOut::BitField,
        }),
        read => read,
    }
}

/// The declarators of members, with commas between them, and the semicolon.
fn member_names(
    alloc: Global,
    cursor: &mut Cursor<'_>,
    specifier: &Deep<TypeSpecifier>,
) -> Result<Deep<Items<Declarator>>, ParseRefusal>
    requires { IsDeep specifier_depth specifier.now }
    ensures { ReadsDeep (declarators_depth (specifier_depth specifier.now.tree))
        (member_names_from (reader 200) (turns cursor.old) cursor.old) result cursor.new }
{
    let mut tree = Items::new(alloc);
    let mut depth = 0;
    for _turn in 0..cursor.turns() {
        let one = member_declared(alloc, cursor, specifier)?;
        depth = one.depth.max(depth);
        tree.push(one.tree)?;
        if !cursor.mark(Punctuator::Comma) {
            close_members(cursor)?;
            return Ok(Deep { tree, depth });
        }
    }
    Err(cursor.unexpected())
}

/// Members of one type, which are as deep as the deepest of their types.
#[tactic(auto, using(crate::proofs::Depth::member_depths))]
fn member_declaration(
    attributes: Items<Attribute>,
    specifier: Deep<TypeSpecifier>,
    declarators: Deep<Items<Declarator>>,
) -> Deep<MemberDeclaration>
    requires specifier { IsDeep specifier_depth specifier }
    requires declarators { IsDeep (declarators_depth (specifier_depth specifier.tree)) declarators }
    ensures tree { result.tree ≡ member_declaration attributes specifier.tree declarators.tree }
    ensures depth { IsDeep member_depth result }
{
    Deep {
        tree: MemberDeclaration {
            attributes,
            specifier: specifier.tree,
            declarators: declarators.tree,
        },
        depth: specifier.depth.max(declarators.depth),
    }
}

/// A struct or union with its members.
#[tactic(auto, using(crate::proofs::Depth::depths))]
fn definition(
    kind: RecordKind,
    attributes: Items<Attribute>,
    tag: Name,
    members: Deep<Items<MemberDeclaration>>,
) -> Deep<TypeSpecifier>
    requires { IsDeep members_depth members }
    ensures tree { result.tree ≡ specifiers.RecordDefinition (definition kind attributes tag members.tree) }
    ensures depth { IsDeep specifier_depth result }
{
    Deep {
        tree: TypeSpecifier::RecordDefinition(RecordDefinition {
            kind,
            attributes,
            tag,
            members: members.tree,
        }),
        depth: further(members.depth, 1),
    }
}
