//! Types as they stand in expressions (C11 6.7.2, 6.7.7): what they begin with, `*`s and array lengths.
ghost use Rattle.std.specs.Prelude.{◌≡◌, ◌+◌, min, Some, option_and_then};
ghost use Rattle.std.specs.List.{list_all, filter};
ghost use Rattle.c_syntax.specs.Depth.{specifier_depth};
ghost use Rattle.c_grammar.specs.Depths.{enumerator_depth, type_name_depth};
ghost use Rattle.c_grammar.specs.Reading.{nested, turns, lengths, constant, enumerators_from, enumeration, tagged};
ghost use Rattle.c_grammar.specs.Reading.{enum_type, record_type, single_by, single_type, specified, type_named};
ghost use Rattle.c_grammar.specs.Specifiers.{is_qualifier, is_modifier, integer_type};
ghost use Rattle.c_cursor.specs.Deep.{ReadsDeep};
ghost use Rattle.c_expressions.specs.Parts.{ReadsSpecified, among, reader, enumerators_depth, lengths_depth};
ghost use Rattle.c_cursor.specs.Deep.{IsDeep, KeepsDeep};
ghost use Rattle.c_syntax.specs.declared.specifier.TypeSpecifier.TheVariants as specifiers;
ghost use Rattle.c_grammar.specs.Expressions.{type_name};
ghost use Rattle.c_grammar.specs.Input.{Input};
ghost use Rattle.c_expressions.specs.Nests.{Nests};
ghost use Rattle.c_cursor.specs.Reads.{IsRefusal};
ghost use Rattle.c_cursor.specs.Starts.{type_seen};

use crate::grammar::Grammar;
use crate::parts::Specified;
use crate::words::{all_qualifiers, integers, single_node};
use c_cursor::{
    CONDITIONAL_LEVEL, Cursor, Deep, ParseRefusal, TypeStart, WordTest, at_storage_word,
    attributes, behind_storage_words, further, has_integer_word, name, pointers, words,
};
use c_grammar::NameKind;
use c_lexer::{Keyword, Punctuator};
use c_syntax::{
    AbstractDeclarator, Attribute, EnumDefinition, Enumerator, Expr, Name, RecordKind, TypeName,
    TypeSpecifier,
};
use rc_text::{Bytes, Place};
use sqlite_items::{Boxed, Items};
use std::alloc::Global;

impl<
    'g,
    F: Fn(Global, &mut Cursor<'_>, usize, u8) -> Result<Deep<Boxed<Expr>>, ParseRefusal>,
> Grammar<'g, F> {
    /// Array lengths, each between brackets.
    pub(crate) fn lengths(&self, cursor: &mut Cursor<'_>) -> Result<Deep<Items<Expr>>, ParseRefusal>
        requires { Nests self.now.room (F.pre self.now.read.now) (F.post self.now.read.now) }
        ensures { ReadsDeep lengths_depth (lengths (reader self.now.room) cursor.old) result cursor.new }
    {
        let mut tree = Items::new(self.alloc);
        let mut depth = 0;
        for _turn in 0..cursor.turns_and_one() {
            if !cursor.mark(Punctuator::OpenBracket) {
                return Ok(Deep { tree, depth });
            }
            let length = self.expression(cursor, CONDITIONAL_LEVEL)?;
            cursor.expect(Punctuator::CloseBracket)?;
            depth = further(further(length.depth, tree.len()), 1).max(depth);
            tree.push(length.tree.into_inner())?;
        }
        Err(cursor.unexpected())
    }

    /// A constant of an enumeration, which is in scope from then on.
    #[tactic(auto, using(crate::proofs::TypeDepths::type_depths), unfolding(c_grammar::specs::Reading::constant))]
    fn constant(&self, cursor: &mut Cursor<'_>) -> Result<Deep<Enumerator>, ParseRefusal>
        requires { Nests self.now.room (F.pre self.now.read.now) (F.post self.now.read.now) }
        ensures { ReadsDeep enumerator_depth (constant (reader self.now.room) cursor.old) result cursor.new }
    {
        match cursor.identifier() {
            Some(found) => {
                let name = found.to_name(self.alloc)?;
                if cursor.mark(Punctuator::Assign) {
                    let value = self.expression(cursor, CONDITIONAL_LEVEL)?;
                    cursor.declare(self.alloc, found.text, NameKind::Ordinary)?;
                    Ok(Deep {
                        tree: Enumerator {
                            name,
                            value: Some(value.tree.into_inner()),
                        },
                        depth: value.depth,
                    })
                } else {
                    cursor.declare(self.alloc, found.text, NameKind::Ordinary)?;
                    Ok(Deep {
                        tree: Enumerator { name, value: None },
                        depth: 0,
                    })
                }
            }
            None => Err(cursor.unexpected()),
        }
    }

    /// The constants of an enumeration, behind the opening brace, and the closing one.
    fn enumerators(&self, cursor: &mut Cursor<'_>) -> Result<Deep<Items<Enumerator>>, ParseRefusal>
        requires { Nests self.now.room (F.pre self.now.read.now) (F.post self.now.read.now) }
        ensures { ReadsDeep enumerators_depth (enumerators_from (reader self.now.room) (turns cursor.old) cursor.old)
            result cursor.new }
    {
        let mut tree = Items::new(self.alloc);
        let mut depth = 0;
        for _turn in 0..cursor.turns() {
            let one = self.constant(cursor)?;
            depth = one.depth.max(depth);
            tree.push(one.tree)?;
            if !cursor.mark(Punctuator::Comma) {
                cursor.expect(Punctuator::CloseBrace)?;
                return Ok(Deep { tree, depth });
            }
            if cursor.mark(Punctuator::CloseBrace) {
                return Ok(Deep { tree, depth });
            }
        }
        Err(cursor.unexpected())
    }

    /// An enumeration with its constants, behind the opening brace.
    #[tactic(auto, using(crate::proofs::TypeDepths::type_depths), unfolding(c_grammar::specs::Reading::enumeration))]
    fn enumeration(
        &self,
        cursor: &mut Cursor<'_>,
        attributes: Items<Attribute>,
        tag: Option<Name>,
    ) -> Result<Deep<TypeSpecifier>, ParseRefusal>
        requires { Nests self.now.room (F.pre self.now.read.now) (F.post self.now.read.now) }
        ensures { ReadsDeep specifier_depth (enumeration (reader self.now.room) attributes tag cursor.old)
            result cursor.new }
    {
        let enumerators = self.enumerators(cursor)?;
        let depth = further(enumerators.depth, 1);
        Ok(Deep {
            tree: TypeSpecifier::EnumDefinition(EnumDefinition {
                attributes,
                tag,
                enumerators: enumerators.tree,
            }),
            depth,
        })
    }

    /// An enumeration, behind its tag.
    #[tactic(auto, using(crate::proofs::TypeDepths::type_depths), unfolding(c_grammar::specs::Reading::tagged))]
    fn tagged(
        &self,
        cursor: &mut Cursor<'_>,
        attributes: Items<Attribute>,
        tag: Name,
    ) -> Result<Deep<TypeSpecifier>, ParseRefusal>
        requires { Nests self.now.room (F.pre self.now.read.now) (F.post self.now.read.now) }
        ensures { ReadsDeep specifier_depth (tagged (reader self.now.room) attributes tag cursor.old)
            result cursor.new }
    {
        if cursor.mark(Punctuator::OpenBrace) {
            self.enumeration(cursor, attributes, Some(tag))
        } else {
            Ok(single_node(TypeSpecifier::Enum { attributes, tag }))
        }
    }

    /// An enumeration, behind `enum`.
    #[tactic(auto, using(crate::proofs::TypeDepths::type_depths), unfolding(c_grammar::specs::Reading::enum_type))]
    fn enum_type(&self, cursor: &mut Cursor<'_>) -> Result<Deep<TypeSpecifier>, ParseRefusal>
        requires { Nests self.now.room (F.pre self.now.read.now) (F.post self.now.read.now) }
        ensures { ReadsDeep specifier_depth (enum_type (reader self.now.room) cursor.old) result cursor.new }
    {
        let attributes = attributes(self.alloc, cursor)?;
        match cursor.identifier() {
            Some(found) => {
                let tag = found.to_name(self.alloc)?;
                self.tagged(cursor, attributes, tag)
            }
            None => {
                cursor.expect(Punctuator::OpenBrace)?;
                self.enumeration(cursor, attributes, None)
            }
        }
    }

    /// A struct or union by its tag, behind its keyword.
    #[tactic(auto, using(crate::proofs::TypeDepths::type_depths), unfolding(c_grammar::specs::Reading::record_type))]
    fn record_type(
        &self,
        cursor: &mut Cursor<'_>,
        kind: RecordKind,
    ) -> Result<Deep<TypeSpecifier>, ParseRefusal>
        ensures { ReadsDeep specifier_depth (record_type (reader self.now.room) kind cursor.old) result cursor.new }
    {
        let attributes = attributes(self.alloc, cursor)?;
        let tag = name(self.alloc, cursor)?;
        Ok(single_node(TypeSpecifier::Record {
            kind,
            attributes,
            tag,
        }))
    }

    /// The type that begins with this token, behind it; the refusal stands at it.
    #[tactic(auto, using(crate::proofs::TypeDepths::type_depths))]
    pub(crate) fn single_by(
        &self,
        cursor: &mut Cursor<'_>,
        start: TypeStart<'_>,
        otherwise: ParseRefusal,
    ) -> Result<Deep<TypeSpecifier>, ParseRefusal>
        requires nests { Nests self.now.room (F.pre self.now.read.now) (F.post self.now.read.now) }
        requires otherwise { IsRefusal otherwise }
        ensures { ReadsDeep specifier_depth (single_by (reader self.now.room) (type_seen start.entry) cursor.old)
            result cursor.new }
    {
        match start {
            TypeStart::Void => Ok(single_node(TypeSpecifier::Void)),
            TypeStart::Boolean => Ok(single_node(TypeSpecifier::Bool)),
            TypeStart::Typedef { place, text } => typedef_name(self.alloc, place, text),
            TypeStart::Header(named) => Ok(single_node(TypeSpecifier::Header(named))),
            TypeStart::Struct => self.record_type(cursor, RecordKind::Struct),
            TypeStart::Union => self.record_type(cursor, RecordKind::Union),
            TypeStart::Enum => self.enum_type(cursor),
            TypeStart::SpecifierWord | TypeStart::NoType => Err(otherwise),
        }
    }

    /// A type of one word or one definition.
    #[tactic(auto, unfolding(c_grammar::specs::Reading::single_type))]
    fn single_type(&self, cursor: &mut Cursor<'_>) -> Result<Deep<TypeSpecifier>, ParseRefusal>
        requires { Nests self.now.room (F.pre self.now.read.now) (F.post self.now.read.now) }
        ensures { ReadsDeep specifier_depth (single_type (reader self.now.room) cursor.old) result cursor.new }
    {
        let otherwise = cursor.unexpected();
        match cursor.type_start() {
            Some(start) => {
                cursor.skip();
                self.single_by(cursor, start, otherwise)
            }
            None => Err(otherwise),
        }
    }

    /// What a type's name or a declaration begins with.
    #[tactic(auto, unfolding(c_grammar::specs::Reading::specified))]
    pub(crate) fn specified(&self, cursor: &mut Cursor<'_>) -> Result<Specified, ParseRefusal>
        requires { Nests self.now.room (F.pre self.now.read.now) (F.post self.now.read.now) }
        ensures { ReadsSpecified (specified (reader self.now.room) cursor.old) result cursor.new }
    {
        let start = cursor.rest();
        let before = words(self.alloc, cursor, WordTest::Specifier)?;
        if has_integer_word(before.as_slice()) {
            return integers(self.alloc, before, start);
        }
        self.among(cursor, before)
    }

    /// A type that is no integer type, behind these words, with the modifiers behind it.
    fn among(
        &self,
        cursor: &mut Cursor<'_>,
        mut before: Items<Keyword>,
    ) -> Result<Specified, ParseRefusal>
        requires { Nests self.now.room (F.pre self.now.read.now) (F.post self.now.read.now) }
        ensures { ReadsSpecified (among (reader self.now.room) before cursor.old) result cursor.new }
    {
        let specifier = self.single_type(cursor)?;
        let after = words(self.alloc, cursor, WordTest::Modifier)?;
        before.append(after)?;
        Ok(Specified {
            words: before,
            specifier,
        })
    }

    /// What a type's name begins with: words of storage may not.
    fn named_type(&self, cursor: &mut Cursor<'_>) -> Result<Specified, ParseRefusal>
        requires { Nests self.now.room (F.pre self.now.read.now) (F.post self.now.read.now) }
        ensures { ReadsSpecified (specified (reader self.now.room) cursor.old) result cursor.new }
    {
        let start = cursor.rest();
        match self.specified(cursor) {
            Err(ParseRefusal::Syntax { place }) => Err(behind_storage_words(start, place, None)),
            Err(ParseRefusal::Refused { place, name }) => {
                Err(behind_storage_words(start, place, Some(name)))
            }
            read => read,
        }
    }

    /// A type's name, where no more may nest in it than in this.
    #[tactic(auto, using(crate::proofs::TypeDepths::type_depths), unfolding(c_grammar::specs::Reading::type_named))]
    fn type_named(&self, cursor: &mut Cursor<'_>) -> Result<Deep<Boxed<TypeName>>, ParseRefusal>
        requires { Nests self.now.room (F.pre self.now.read.now) (F.post self.now.read.now) }
        ensures { ReadsDeep type_name_depth (type_named (reader self.now.room) cursor.old) result cursor.new }
    {
        let start = cursor.rest();
        let found = self.named_type(cursor)?;
        if !all_qualifiers(found.words.as_slice()) {
            return Err(at_storage_word(start));
        }
        let pointers = pointers(self.alloc, cursor)?;
        let lengths = self.lengths(cursor)?;
        type_name(self.alloc, found.specifier, pointers, lengths)
    }

    /// A type's name that is nested in an expression.
    pub(crate) fn type_name(
        &self,
        cursor: &mut Cursor<'_>,
    ) -> Result<Deep<Boxed<TypeName>>, ParseRefusal>
        requires { Nests self.now.room (F.pre self.now.read.now) (F.post self.now.read.now) }
        ensures { ReadsDeep type_name_depth ((nested 200 self.now.room).type_name cursor.old) result cursor.new }
    {
        if self.room == 0 {
            return Err(ParseRefusal::Depth);
        }
        Grammar {
            alloc: self.alloc,
            room: self.room - 1,
            read: self.read,
        }
        .type_named(cursor)
    }
}

#[tactic(auto, using(crate::proofs::TypeDepths::type_depths))]
fn typedef_name(
    alloc: Global,
    place: Place,
    text: &[u8],
) -> Result<Deep<TypeSpecifier>, ParseRefusal>
    ensures { KeepsDeep specifier_depth (specifiers.Typedef (record { place = place; text = text.now })) result }
{
    let text = Bytes::from_slice(alloc, text)?;
    Ok(single_node(TypeSpecifier::Typedef(Name { place, text })))
}

/// A type's name with its `*`s and array lengths.
#[tactic(auto, using(crate::proofs::TypeDepths::type_depths))]
fn type_name(
    alloc: Global,
    specifier: Deep<TypeSpecifier>,
    pointers: usize,
    lengths: Deep<Items<Expr>>,
) -> Result<Deep<Boxed<TypeName>>, ParseRefusal>
    requires specifier { IsDeep specifier_depth specifier }
    requires lengths { IsDeep lengths_depth lengths }
    ensures { KeepsDeep type_name_depth (type_name specifier.tree pointers lengths.tree) result }
{
    let element = further(further(specifier.depth, pointers), lengths.tree.len());
    let depth = element.max(lengths.depth);
    let name = TypeName {
        specifier: specifier.tree,
        declarator: AbstractDeclarator {
            pointers,
            lengths: lengths.tree,
        },
    };
    Ok(Deep {
        tree: Boxed::new(alloc, name)?,
        depth,
    })
}
