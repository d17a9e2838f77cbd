//! Attributes (C23 6.7.13, as the profile has them): those of prefix `rc` are kept.
ghost use Rattle.c_grammar.specs.Input.{identifier};
ghost use Rattle.c_grammar.specs.Attributes.{string};
ghost use Rattle.c_grammar.specs.Reading.{turns, texts_from, clause_inside, clause, single, group_from, attributes};
ghost use Rattle.c_cursor.specs.Attributes.{kept_under, prefixed};
ghost use Rattle.c_cursor.specs.Reads.{Reads, ReadsName, ReadsText, Keeps};

use crate::cursor::{Cursor, Identifier};
use crate::refusal::ParseRefusal;
use c_lexer::Punctuator;
use c_syntax::{Attribute, AttributeText, Name};
use rc_text::Bytes;
use sqlite_items::Items;
use std::alloc::Global;

/// The identifier that stands next, as a name.
pub fn name(alloc: Global, cursor: &mut Cursor<'_>) -> Result<Name, ParseRefusal>
    ensures { ReadsName (identifier cursor.old) result cursor.new }
{
    match cursor.identifier() {
        Some(found) => found.to_name(alloc),
        None => Err(cursor.unexpected()),
    }
}

fn text(alloc: Global, cursor: &mut Cursor<'_>) -> Result<AttributeText, ParseRefusal>
    ensures { ReadsText (string cursor.old) result cursor.new }
{
    match cursor.string() {
        Some(found) => Ok(AttributeText {
            place: found.place,
            text: Bytes::from_slice(alloc, found.text)?,
        }),
        None => Err(cursor.unexpected()),
    }
}

/// Strings with commas between them, and the closing parenthesis.
fn texts(alloc: Global, cursor: &mut Cursor<'_>) -> Result<Items<AttributeText>, ParseRefusal>
    ensures { Reads (texts_from (turns cursor.old) cursor.old) result cursor.new }
{
    let mut found = Items::new(alloc);
    for _turn in 0..cursor.turns() {
        found.push(text(alloc, cursor)?)?;
        if !cursor.mark(Punctuator::Comma) {
            cursor.expect(Punctuator::CloseParenthesis)?;
            return Ok(found);
        }
    }
    Err(cursor.unexpected())
}

/// The strings of an attribute, behind the opening parenthesis.
#[tactic(auto, unfolding(c_grammar::specs::Reading::clause_inside))]
fn clause_inside(
    alloc: Global,
    cursor: &mut Cursor<'_>,
) -> Result<Items<AttributeText>, ParseRefusal>
    ensures { Reads (clause_inside cursor.old) result cursor.new }
{
    if cursor.mark(Punctuator::CloseParenthesis) {
        Ok(Items::new(alloc))
    } else {
        texts(alloc, cursor)
    }
}

/// The strings of an attribute, in parentheses where there are parentheses.
#[tactic(auto, unfolding(c_grammar::specs::Reading::clause))]
fn clause(alloc: Global, cursor: &mut Cursor<'_>) -> Result<Items<AttributeText>, ParseRefusal>
    ensures { Reads (clause cursor.old) result cursor.new }
{
    if cursor.mark(Punctuator::OpenParenthesis) {
        clause_inside(alloc, cursor)
    } else {
        Ok(Items::new(alloc))
    }
}

/// The attribute, where its prefix is one that is kept.
fn kept(
    alloc: Global,
    prefix: &[u8],
    name: Identifier<'_>,
    texts: Items<AttributeText>,
) -> Result<Items<Attribute>, ParseRefusal>
    ensures { Keeps (kept_under prefix.now name.entry.place name.entry.text.now texts) result }
{
    let mut found = Items::new(alloc);
    if prefix == b"rc".as_slice() {
        found.push(Attribute {
            place: name.place,
            name: Bytes::from_slice(alloc, name.text)?,
            texts,
        })?;
    }
    Ok(found)
}

/// An attribute behind its prefix.
#[tactic(auto, unfolding(crate::specs::Attributes::prefixed))]
fn prefixed(
    alloc: Global,
    cursor: &mut Cursor<'_>,
    prefix: Identifier<'_>,
) -> Result<Items<Attribute>, ParseRefusal>
    ensures { Reads (prefixed prefix.entry.text.now cursor.old) result cursor.new }
{
    match cursor.identifier() {
        Some(name) => {
            let texts = clause(alloc, cursor)?;
            kept(alloc, prefix.text, name, texts)
        }
        None => Err(cursor.unexpected()),
    }
}

/// One attribute, with a prefix or without one.
#[tactic(auto, unfolding(c_grammar::specs::Reading::single, crate::specs::Attributes::prefixed))]
fn single(alloc: Global, cursor: &mut Cursor<'_>) -> Result<Items<Attribute>, ParseRefusal>
    ensures { Reads (single cursor.old) result cursor.new }
{
    match cursor.identifier() {
        Some(first) => {
            if cursor.mark(Punctuator::DoubleColon) {
                prefixed(alloc, cursor, first)
            } else {
                clause(alloc, cursor)?;
                Ok(Items::new(alloc))
            }
        }
        None => Err(cursor.unexpected()),
    }
}

/// Attributes with commas between them, and the two closing brackets.
fn group(alloc: Global, cursor: &mut Cursor<'_>) -> Result<Items<Attribute>, ParseRefusal>
    ensures { Reads (group_from (turns cursor.old) cursor.old) result cursor.new }
{
    let mut found = Items::new(alloc);
    for _turn in 0..cursor.turns() {
        found.append(single(alloc, cursor)?)?;
        if !cursor.mark(Punctuator::Comma) {
            cursor.expect(Punctuator::CloseBracket)?;
            cursor.expect(Punctuator::CloseBracket)?;
            return Ok(found);
        }
    }
    Err(cursor.unexpected())
}

/// All attributes that stand next, as one list.
pub fn attributes(alloc: Global, cursor: &mut Cursor<'_>) -> Result<Items<Attribute>, ParseRefusal>
    ensures { Reads (attributes cursor.old) result cursor.new }
{
    let mut found = Items::new(alloc);
    for _turn in 0..cursor.turns_and_one() {
        if !cursor.mark(Punctuator::OpenBracket) {
            return Ok(found);
        }
        cursor.expect(Punctuator::OpenBracket)?;
        found.append(group(alloc, cursor)?)?;
    }
    Err(cursor.unexpected())
}
