//! Expressions (C11 6.5), from the first operand on: each operator by how tightly it binds.
ghost use Rattle.std.specs.Prelude.{◌≡◌, suc};
ghost use Rattle.c_syntax.specs.Depth.{expression_depth, specifier_depth};
ghost use Rattle.c_grammar.specs.Expressions.{node};
ghost use Rattle.c_grammar.specs.Operators.{comma_level, postfix_level};
ghost use Rattle.c_grammar.specs.Reading.{nested, turns, made, arguments_from, arguments, call, parenthesized, cast};
ghost use Rattle.c_grammar.specs.Reading.{of_type, operand, size_of, begun_by, begun, joined, conditional, subscript};
ghost use Rattle.c_grammar.specs.Reading.{member, grown, climb, expression_with, specified, single_by, lengths};
ghost use Rattle.c_grammar.specs.Input.{Input};
ghost use Rattle.c_grammar.specs.Operators as operators;
ghost use Rattle.c_syntax.specs.declared.expr.ExprKind.TheVariants as kinds;
ghost use Rattle.c_cursor.specs.Deep.{IsDeep, ReadsDeep};
ghost use Rattle.c_expressions.specs.Parts.{ReadsBegun, ReadsSpecified, reader, lengths_depth};
ghost use Rattle.c_expressions.specs.Nests.{Nests};
ghost use Rattle.c_expressions.specs.Nodes.{before_kind, before_level, of_type_kind, call_kind, member_kind};
ghost use Rattle.c_expressions.specs.Nodes.{joint_kind, joint_level, right_level, expressions_depth};
ghost use Rattle.c_cursor.specs.Reads.{IsRefusal};
ghost use Rattle.c_cursor.specs.Starts.{start_seen, infix_seen, type_seen};

use crate::grammar::Grammar;
use crate::nodes;
use crate::nodes::{Before, Callee, Joint, MemberOf, OfType};
use crate::parts::{Begun, Specified};
use c_cursor::{
    ASSIGNMENT_LEVEL, CAST_LEVEL, COMMA_LEVEL, CONDITIONAL_LEVEL, Cursor, DEPTH_LIMIT, Deep, Infix,
    POSTFIX_LEVEL, ParseRefusal, Start, TypeStart, UNARY_LEVEL,
};
use c_lexer::Punctuator;
use c_syntax::{Expr, ExprKind, IncrementOperator, TypeSpecifier};
use rc_text::{Bytes, Place};
use sqlite_items::{Boxed, Items};
use std::alloc::Global;

/// A primary expression of one token.
#[tactic(auto, unfolding(c_grammar::specs::Reading::made))]
fn primary(alloc: Global, place: Place, kind: ExprKind) -> Result<Begun, ParseRefusal>
    requires { expression_depth (node place kind) ≡ 1 }
    ensures { (rest : Input) → ReadsBegun (made 200 postfix_level place kind rest) result rest }
{
    Ok(Begun {
        deep: nodes::leaf(alloc, place, kind)?,
        level: POSTFIX_LEVEL,
    })
}

/// The name of an object, a function or a constant, which is not called.
#[tactic(auto, using(crate::proofs::Depths::depths))]
fn named(alloc: Global, place: Place, text: &[u8]) -> Result<Begun, ParseRefusal>
    ensures { (rest : Input) → ReadsBegun (made 200 postfix_level place (kinds.Name text.now) rest) result rest }
{
    let text = Bytes::from_slice(alloc, text)?;
    primary(alloc, place, ExprKind::Name(text))
}

/// The expression with `++` or `--` behind it.
#[tactic(auto, unfolding(c_grammar::specs::Reading::made))]
fn stepped(
    alloc: Global,
    operator: IncrementOperator,
    operand: Deep<Boxed<Expr>>,
) -> Result<Begun, ParseRefusal>
    requires { IsDeep expression_depth operand }
    ensures { (rest : Input) → ReadsBegun (made 200 postfix_level operand.tree.place
        (kinds.Postfix operand.tree operator) rest) result rest }
{
    Ok(Begun {
        deep: nodes::postfix(alloc, operator, operand)?,
        level: POSTFIX_LEVEL,
    })
}

impl<
    'g,
    F: Fn(Global, &mut Cursor<'_>, usize, u8) -> Result<Deep<Boxed<Expr>>, ParseRefusal>,
> Grammar<'g, F> {
    /// Arguments with commas between them, and the closing parenthesis.
    fn arguments_inside(&self, cursor: &mut Cursor<'_>) -> Result<Deep<Items<Expr>>, ParseRefusal>
        requires { Nests self.now.room (F.pre self.now.read.now) (F.post self.now.read.now) }
        ensures { ReadsDeep expressions_depth (arguments_from 200 (nested 200 self.now.room) (turns cursor.old)
            cursor.old) result cursor.new }
    {
        let mut tree = Items::new(self.alloc);
        let mut depth = 0;
        for _turn in 0..cursor.turns() {
            let argument = self.expression(cursor, ASSIGNMENT_LEVEL)?;
            depth = argument.depth.max(depth);
            tree.push(argument.tree.into_inner())?;
            if !cursor.mark(Punctuator::Comma) {
                cursor.expect(Punctuator::CloseParenthesis)?;
                return Ok(Deep { tree, depth });
            }
        }
        Err(cursor.unexpected())
    }

    /// The arguments of a call, behind the opening parenthesis.
    #[tactic(auto, unfolding(c_grammar::specs::Reading::arguments))]
    fn arguments(&self, cursor: &mut Cursor<'_>) -> Result<Deep<Items<Expr>>, ParseRefusal>
        requires { Nests self.now.room (F.pre self.now.read.now) (F.post self.now.read.now) }
        ensures { ReadsDeep expressions_depth (arguments 200 (nested 200 self.now.room) cursor.old) result cursor.new }
    {
        if cursor.mark(Punctuator::CloseParenthesis) {
            Ok(Deep {
                tree: Items::new(self.alloc),
                depth: 0,
            })
        } else {
            self.arguments_inside(cursor)
        }
    }

    /// A call, behind the opening parenthesis.
    #[tactic(auto, unfolding(c_grammar::specs::Reading::call, c_grammar::specs::Reading::made))]
    fn call(
        &self,
        cursor: &mut Cursor<'_>,
        callee: Callee<'_>,
        place: Place,
    ) -> Result<Begun, ParseRefusal>
        requires { Nests self.now.room (F.pre self.now.read.now) (F.post self.now.read.now) }
        ensures { ReadsBegun (call 200 (nested 200 self.now.room) (call_kind callee.entry) place cursor.old)
            result cursor.new }
    {
        let arguments = self.arguments(cursor)?;
        Ok(Begun {
            deep: nodes::call(self.alloc, callee, place, arguments)?,
            level: POSTFIX_LEVEL,
        })
    }

    #[tactic(auto, unfolding(c_grammar::specs::Reading::parenthesized, c_grammar::specs::Reading::made))]
    fn parenthesized(&self, cursor: &mut Cursor<'_>, place: Place) -> Result<Begun, ParseRefusal>
        requires { Nests self.now.room (F.pre self.now.read.now) (F.post self.now.read.now) }
        ensures { ReadsBegun (parenthesized 200 (nested 200 self.now.room) place cursor.old) result cursor.new }
    {
        let inner = self.expression(cursor, COMMA_LEVEL)?;
        cursor.expect(Punctuator::CloseParenthesis)?;
        Ok(Begun {
            deep: nodes::parenthesized(self.alloc, place, inner)?,
            level: POSTFIX_LEVEL,
        })
    }

    /// A cast, behind the opening parenthesis.
    #[tactic(auto, unfolding(c_grammar::specs::Reading::cast, c_grammar::specs::Reading::made))]
    fn cast(&self, cursor: &mut Cursor<'_>, place: Place) -> Result<Begun, ParseRefusal>
        requires { Nests self.now.room (F.pre self.now.read.now) (F.post self.now.read.now) }
        ensures { ReadsBegun (cast 200 (nested 200 self.now.room) place cursor.old) result cursor.new }
    {
        let target = self.type_name(cursor)?;
        cursor.close_type()?;
        let operand = self.expression(cursor, CAST_LEVEL)?;
        Ok(Begun {
            deep: nodes::cast(self.alloc, place, target, operand)?,
            level: CAST_LEVEL,
        })
    }

    /// A type's name between parentheses, behind the first.
    #[tactic(auto, unfolding(c_grammar::specs::Reading::of_type, c_grammar::specs::Reading::made))]
    fn of_type(
        &self,
        cursor: &mut Cursor<'_>,
        operator: OfType,
        place: Place,
    ) -> Result<Begun, ParseRefusal>
        requires { Nests self.now.room (F.pre self.now.read.now) (F.post self.now.read.now) }
        ensures { ReadsBegun (of_type 200 (nested 200 self.now.room) (of_type_kind operator) place cursor.old)
            result cursor.new }
    {
        let name = self.type_name(cursor)?;
        cursor.close_type()?;
        Ok(Begun {
            deep: nodes::of_type(self.alloc, operator, place, name)?,
            level: UNARY_LEVEL,
        })
    }

    /// An operand behind an operator.
    #[tactic(auto, unfolding(c_grammar::specs::Reading::operand, c_grammar::specs::Reading::made))]
    fn operand(
        &self,
        cursor: &mut Cursor<'_>,
        operator: Before,
        place: Place,
    ) -> Result<Begun, ParseRefusal>
        requires { Nests self.now.room (F.pre self.now.read.now) (F.post self.now.read.now) }
        ensures { ReadsBegun (operand 200 (nested 200 self.now.room) (before_level operator) (before_kind operator)
            place cursor.old) result cursor.new }
    {
        let operand = self.expression(cursor, operator.level())?;
        Ok(Begun {
            deep: nodes::prefixed(self.alloc, operator, place, operand)?,
            level: UNARY_LEVEL,
        })
    }

    #[tactic(auto, unfolding(c_grammar::specs::Reading::size_of))]
    fn size_of(&self, cursor: &mut Cursor<'_>, place: Place) -> Result<Begun, ParseRefusal>
        requires { Nests self.now.room (F.pre self.now.read.now) (F.post self.now.read.now) }
        ensures { ReadsBegun (size_of 200 (nested 200 self.now.room) place cursor.old) result cursor.new }
    {
        if cursor.begins_cast() {
            cursor.expect(Punctuator::OpenParenthesis)?;
            self.of_type(cursor, OfType::Size, place)
        } else {
            self.operand(cursor, Before::SizeOf, place)
        }
    }

    fn name_or_call(
        &self,
        cursor: &mut Cursor<'_>,
        text: &[u8],
        place: Place,
    ) -> Result<Begun, ParseRefusal>
        requires { Nests self.now.room (F.pre self.now.read.now) (F.post self.now.read.now) }
        ensures { ReadsBegun (begun_by 200 (nested 200 self.now.room) (operators.Ordinary text.now) place cursor.old)
            result cursor.new }
    {
        if cursor.mark(Punctuator::OpenParenthesis) {
            self.call(cursor, Callee::Function(text), place)
        } else {
            named(self.alloc, place, text)
        }
    }

    /// What begins with this token, behind it; the refusal stands at it.
    #[tactic(auto, using(crate::proofs::Depths::depths))]
    fn begun_by(
        &self,
        cursor: &mut Cursor<'_>,
        start: Start<'_>,
        place: Place,
        otherwise: ParseRefusal,
    ) -> Result<Begun, ParseRefusal>
        requires nests { Nests self.now.room (F.pre self.now.read.now) (F.post self.now.read.now) }
        requires otherwise { IsRefusal otherwise }
        ensures { ReadsBegun (begun_by 200 (nested 200 self.now.room) (start_seen start.entry) place cursor.old)
            result cursor.new }
    {
        match start {
            Start::Integer(constant) => { primary(self.alloc, place, ExprKind::Integer(constant)) }
            Start::Character(constant) => {
                primary(self.alloc, place, ExprKind::Character(constant))
            }
            Start::NullPointer => primary(self.alloc, place, ExprKind::NullPointer),
            Start::Ordinary(text) => self.name_or_call(cursor, text, place),
            Start::Operation(operation) => {
                cursor.expect(Punctuator::OpenParenthesis)?;
                self.call(cursor, Callee::Operation(operation), place)
            }
            Start::Parenthesis => {
                if cursor.begins_type() {
                    self.cast(cursor, place)
                } else {
                    self.parenthesized(cursor, place)
                }
            }
            Start::Prefix(operator) => self.operand(cursor, Before::Prefix(operator), place),
            Start::Unary(operator) => self.operand(cursor, Before::Unary(operator), place),
            Start::SizeOf => self.size_of(cursor, place),
            Start::AlignOf => {
                cursor.expect(Punctuator::OpenParenthesis)?;
                self.of_type(cursor, OfType::Align, place)
            }
            Start::Nothing => Err(otherwise),
        }
    }

    /// The first operand with the operators before it.
    #[tactic(auto, unfolding(c_grammar::specs::Reading::begun))]
    fn begun(&self, cursor: &mut Cursor<'_>) -> Result<Begun, ParseRefusal>
        requires { Nests self.now.room (F.pre self.now.read.now) (F.post self.now.read.now) }
        ensures { ReadsBegun (begun 200 (nested 200 self.now.room) cursor.old) result cursor.new }
    {
        let otherwise = cursor.unexpected_operand();
        match cursor.start() {
            Some(first) => {
                cursor.skip();
                self.begun_by(cursor, first.start, first.place, otherwise)
            }
            None => Err(otherwise),
        }
    }

    /// The second operand of an operator.
    #[tactic(auto, unfolding(c_grammar::specs::Reading::joined, c_grammar::specs::Reading::made))]
    fn joined(
        &self,
        cursor: &mut Cursor<'_>,
        joint: Joint,
        left: Deep<Boxed<Expr>>,
    ) -> Result<Begun, ParseRefusal>
        requires nests { Nests self.now.room (F.pre self.now.read.now) (F.post self.now.read.now) }
        requires left { IsDeep expression_depth left }
        ensures { ReadsBegun (joined 200 (nested 200 self.now.room) (joint_level joint) (right_level joint)
            (joint_kind joint left.tree) left.tree.place cursor.old) result cursor.new }
    {
        let right = self.expression(cursor, joint.right_level())?;
        Ok(Begun {
            deep: nodes::joined(self.alloc, joint, left, right)?,
            level: joint.level(),
        })
    }

    #[tactic(auto, unfolding(c_grammar::specs::Reading::conditional, c_grammar::specs::Reading::joined, c_grammar::specs::Reading::made))]
    fn conditional(
        &self,
        cursor: &mut Cursor<'_>,
        test: Deep<Boxed<Expr>>,
    ) -> Result<Begun, ParseRefusal>
        requires nests { Nests self.now.room (F.pre self.now.read.now) (F.post self.now.read.now) }
        requires test { IsDeep expression_depth test }
        ensures { ReadsBegun (conditional 200 (nested 200 self.now.room) test.tree cursor.old) result cursor.new }
    {
        let then = self.expression(cursor, COMMA_LEVEL)?;
        cursor.expect(Punctuator::Colon)?;
        let otherwise = self.expression(cursor, CONDITIONAL_LEVEL)?;
        Ok(Begun {
            deep: nodes::conditional(self.alloc, test, then, otherwise)?,
            level: CONDITIONAL_LEVEL,
        })
    }

    #[tactic(auto, unfolding(c_grammar::specs::Reading::subscript, c_grammar::specs::Reading::made))]
    fn subscript(
        &self,
        cursor: &mut Cursor<'_>,
        array: Deep<Boxed<Expr>>,
    ) -> Result<Begun, ParseRefusal>
        requires nests { Nests self.now.room (F.pre self.now.read.now) (F.post self.now.read.now) }
        requires array { IsDeep expression_depth array }
        ensures { ReadsBegun (subscript 200 (nested 200 self.now.room) array.tree cursor.old) result cursor.new }
    {
        let index = self.expression(cursor, COMMA_LEVEL)?;
        cursor.expect(Punctuator::CloseBracket)?;
        Ok(Begun {
            deep: nodes::subscript(self.alloc, array, index)?,
            level: POSTFIX_LEVEL,
        })
    }

    #[tactic(auto, unfolding(c_grammar::specs::Reading::member, c_grammar::specs::Reading::made))]
    fn member(
        &self,
        cursor: &mut Cursor<'_>,
        form: MemberOf,
        operand: Deep<Boxed<Expr>>,
    ) -> Result<Begun, ParseRefusal>
        requires { IsDeep expression_depth operand }
        ensures { ReadsBegun (member 200 (nested 200 self.now.room) (member_kind form operand.tree)
            operand.tree.place cursor.old) result cursor.new }
    {
        match cursor.identifier() {
            Some(name) => Ok(Begun {
                deep: nodes::member(self.alloc, form, operand, name)?,
                level: POSTFIX_LEVEL,
            }),
            None => Err(cursor.unexpected()),
        }
    }

    /// The expression with one more operator behind it, past which the cursor has gone.
    fn grown(
        &self,
        cursor: &mut Cursor<'_>,
        operator: Infix,
        left: Deep<Boxed<Expr>>,
    ) -> Result<Begun, ParseRefusal>
        requires nests { Nests self.now.room (F.pre self.now.read.now) (F.post self.now.read.now) }
        requires left { IsDeep expression_depth left }
        ensures { ReadsBegun (grown 200 (nested 200 self.now.room) (infix_seen operator) left.tree cursor.old)
            result cursor.new }
    {
        match operator {
            Infix::Subscript => self.subscript(cursor, left),
            Infix::Member => self.member(cursor, MemberOf::Object, left),
            Infix::PointerMember => self.member(cursor, MemberOf::Pointer, left),
            Infix::Step(step) => stepped(self.alloc, step, left),
            Infix::Binary(operator) => self.joined(cursor, Joint::Binary(operator), left),
            Infix::Logical(operator) => self.joined(cursor, Joint::Logical(operator), left),
            Infix::Question => self.conditional(cursor, left),
            Infix::Assign(operator) => self.joined(cursor, Joint::Assignment(operator), left),
            Infix::Comma => self.joined(cursor, Joint::Comma, left),
        }
    }

    /// The expression with all operators behind it that belong to one of the wanted category.
    fn climb(
        &self,
        cursor: &mut Cursor<'_>,
        wanted: u8,
        first: Begun,
    ) -> Result<Deep<Boxed<Expr>>, ParseRefusal>
        requires nests { Nests self.now.room (F.pre self.now.read.now) (F.post self.now.read.now) }
        requires first { IsDeep expression_depth first.deep }
        ensures { ReadsDeep expression_depth (climb 200 (nested 200 self.now.room) wanted (suc (turns cursor.old))
            (record { tree = first.deep.tree; level = first.level; rest = cursor.old })) result cursor.new }
    {
        let Begun {
            mut deep,
            mut level,
        } = first;
        for _turn in 0..cursor.turns_and_one() {
            match cursor.infix() {
                Some(infix) if infix.goes_on(wanted, level) => {
                    cursor.skip();
                    let more = self.grown(cursor, infix, deep)?;
                    deep = more.deep;
                    level = more.level;
                }
                _ => return Ok(deep),
            }
        }
        Err(cursor.unexpected())
    }

    /// An expression of the wanted category.
    #[tactic(auto, unfolding(c_grammar::specs::Reading::expression_with))]
    pub(crate) fn whole(
        &self,
        cursor: &mut Cursor<'_>,
        wanted: u8,
    ) -> Result<Deep<Boxed<Expr>>, ParseRefusal>
        requires { Nests self.now.room (F.pre self.now.read.now) (F.post self.now.read.now) }
        ensures { ReadsDeep expression_depth (expression_with 200 (nested 200 self.now.room) wanted cursor.old)
            result cursor.new }
    {
        // A cast can't be an operand of `++` or `--`, whose parenthesis an expression would stand in.
        let no_cast = cursor.unexpected_behind();
        let first = self.begun(cursor)?;
        if first.level < wanted {
            return Err(no_cast);
        }
        self.climb(cursor, wanted, first)
    }
}

/// An expression of the category, in which so many may nest.
fn nested_expression(
    alloc: Global,
    cursor: &mut Cursor<'_>,
    room: usize,
    level: u8,
) -> Result<Deep<Boxed<Expr>>, ParseRefusal>
    ensures { ReadsDeep expression_depth (reader room level cursor.old) result cursor.new }
{
    if room == 0 {
        return Err(ParseRefusal::Depth);
    }
    Grammar {
        alloc,
        room: room - 1,
        read: &nested_expression,
    }
    .whole(cursor, level)
}

/// The expression of the category that stands next, with its depth.
///
/// # Errors
///
/// `Depth` where the expression or a part of it is deeper than `DEPTH_LIMIT`, `Syntax` and `Refused` at the first token
/// at which it can't go on.
pub fn expression(
    alloc: Global,
    cursor: &mut Cursor<'_>,
    level: u8,
) -> Result<Deep<Boxed<Expr>>, ParseRefusal>
    ensures { ReadsDeep expression_depth (reader 200 level cursor.old) result cursor.new }
{
    nested_expression(alloc, cursor, DEPTH_LIMIT, level)
}

/// The words and the type that a declaration begins with.
pub fn specified(alloc: Global, cursor: &mut Cursor<'_>) -> Result<Specified, ParseRefusal>
    ensures { ReadsSpecified (specified (reader 200) cursor.old) result cursor.new }
{
    Grammar {
        alloc,
        room: DEPTH_LIMIT,
        read: &nested_expression,
    }
    .specified(cursor)
}

/// The type that begins with this token, behind it; the refusal stands at it.
pub fn single_by(
    alloc: Global,
    cursor: &mut Cursor<'_>,
    start: TypeStart<'_>,
    otherwise: ParseRefusal,
) -> Result<Deep<TypeSpecifier>, ParseRefusal>
    requires { IsRefusal otherwise }
    ensures { ReadsDeep specifier_depth (single_by (reader 200) (type_seen start.entry) cursor.old) result cursor.new }
{
    Grammar {
        alloc,
        room: DEPTH_LIMIT,
        read: &nested_expression,
    }
    .single_by(cursor, start, otherwise)
}

/// The array lengths behind a declarator, each between brackets.
pub fn lengths(alloc: Global, cursor: &mut Cursor<'_>) -> Result<Deep<Items<Expr>>, ParseRefusal>
    ensures { ReadsDeep lengths_depth (lengths (reader 200) cursor.old) result cursor.new }
{
    Grammar {
        alloc,
        room: DEPTH_LIMIT,
        read: &nested_expression,
    }
    .lengths(cursor)
}
