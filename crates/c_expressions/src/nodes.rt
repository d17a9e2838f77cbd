//! Nodes of expressions, each made only where it is within the limit.
ghost use Rattle.std.specs.Prelude.{◌≡◌, ◌≤◌};
ghost use Rattle.c_grammar.specs.Expressions.{node};
ghost use Rattle.c_grammar.specs.Depths.{type_name_depth};
ghost use Rattle.c_syntax.specs.Depth.{expression_depth};
ghost use Rattle.c_syntax.specs.declared.expr.ExprKind.TheVariants as kinds;
ghost use Rattle.c_cursor.specs.Deep.{IsDeep};
ghost use Rattle.c_expressions.specs.Parts.{Makes};
ghost use Rattle.c_expressions.specs.Nodes.{before_kind, before_level, of_type_kind, call_kind, member_kind};
ghost use Rattle.c_expressions.specs.Nodes.{joint_kind, joint_level, right_level, expressions_depth};
ghost use Rattle.c_cursor.specs.Cursor.{name_seen};
ghost use Rattle.c_cursor.specs.Reads.{Keeps};

use c_cursor::{
    ASSIGNMENT_LEVEL, CAST_LEVEL, COMMA_LEVEL, Deep, Identifier, ParseRefusal, UNARY_LEVEL,
    binary_level, deeper, logical_level,
};
use c_lexer::AtomicOperation;
use c_syntax::{
    AssignmentOperator, BinaryOperator, Expr, ExprKind, IncrementOperator, LogicalOperator,
    TypeName, UnaryOperator,
};
use rc_text::{Bytes, Place};
use sqlite_items::{Boxed, Items};
use std::alloc::Global;

/// An operator before its operand.
#[derive(Clone, Copy)]
pub(crate) enum Before {
    Prefix(IncrementOperator),
    Unary(UnaryOperator),
    SizeOf,
}

impl Before {
    /// The category of the operand.
    pub(crate) fn level(self) -> u8
        ensures { result ≡ before_level self }
    {
        match self {
            Before::Prefix(_) | Before::SizeOf => UNARY_LEVEL,
            Before::Unary(_) => CAST_LEVEL,
        }
    }
}

/// An operator on a type's name.
#[derive(Clone, Copy)]
pub(crate) enum OfType {
    Size,
    Align,
}

/// What is called.
#[derive(Clone, Copy)]
pub(crate) enum Callee<'a> {
    Function(&'a [u8]),
    Operation(AtomicOperation),
}

/// How a member is named.
#[derive(Clone, Copy)]
pub(crate) enum MemberOf {
    Object,
    Pointer,
}

/// An operator between two operands.
#[derive(Clone, Copy)]
pub(crate) enum Joint {
    Binary(BinaryOperator),
    Logical(LogicalOperator),
    Assignment(AssignmentOperator),
    Comma,
}

impl Joint {
    /// The category that the operator makes.
    pub(crate) fn level(self) -> u8
        ensures { result ≡ joint_level self }
    {
        match self {
            Joint::Binary(operator) => binary_level(operator),
            Joint::Logical(operator) => logical_level(operator),
            Joint::Assignment(_) => ASSIGNMENT_LEVEL,
            Joint::Comma => COMMA_LEVEL,
        }
    }

    /// The category of the second operand.
    pub(crate) fn right_level(self) -> u8
        ensures { result ≡ right_level self }
    {
        match self {
            Joint::Binary(operator) => binary_level(operator) + 1,
            Joint::Logical(operator) => logical_level(operator) + 1,
            Joint::Assignment(_) | Joint::Comma => ASSIGNMENT_LEVEL,
        }
    }
}

/// The node, whose depth this is.
fn boxed(
    alloc: Global,
    place: Place,
    kind: ExprKind,
    depth: usize,
) -> Result<Deep<Boxed<Expr>>, ParseRefusal>
    requires depth { depth ≡ expression_depth (node place kind) }
    requires within { depth ≤ 200 }
    ensures { Makes place kind result }
{
    Ok(Deep {
        tree: Boxed::new(alloc, Expr { place, kind })?,
        depth,
    })
}

/// A node without operands.
#[tactic(auto, using(crate::proofs::Depths::depths))]
pub(crate) fn leaf(
    alloc: Global,
    place: Place,
    kind: ExprKind,
) -> Result<Deep<Boxed<Expr>>, ParseRefusal>
    requires { expression_depth (node place kind) ≡ 1 }
    ensures { Makes place kind result }
{
    boxed(alloc, place, kind, 1)
}

#[tactic(auto, using(crate::proofs::Depths::depths))]
pub(crate) fn parenthesized(
    alloc: Global,
    place: Place,
    inner: Deep<Boxed<Expr>>,
) -> Result<Deep<Boxed<Expr>>, ParseRefusal>
    requires { IsDeep expression_depth inner }
    ensures { Makes place (kinds.Parenthesized inner.tree) result }
{
    let depth = deeper(inner.depth)?;
    boxed(alloc, place, ExprKind::Parenthesized(inner.tree), depth)
}

#[tactic(auto, using(crate::proofs::Depths::depths))]
pub(crate) fn prefixed(
    alloc: Global,
    operator: Before,
    place: Place,
    operand: Deep<Boxed<Expr>>,
) -> Result<Deep<Boxed<Expr>>, ParseRefusal>
    requires { IsDeep expression_depth operand }
    ensures { Makes place (before_kind operator operand.tree) result }
{
    let depth = deeper(operand.depth)?;
    let operand = operand.tree;
    let kind = match operator {
        Before::Prefix(operator) => ExprKind::Prefix { operator, operand },
        Before::Unary(operator) => ExprKind::Unary { operator, operand },
        Before::SizeOf => ExprKind::SizeOfExpr(operand),
    };
    boxed(alloc, place, kind, depth)
}

#[tactic(auto, using(crate::proofs::Depths::depths))]
pub(crate) fn postfix(
    alloc: Global,
    operator: IncrementOperator,
    operand: Deep<Boxed<Expr>>,
) -> Result<Deep<Boxed<Expr>>, ParseRefusal>
    requires { IsDeep expression_depth operand }
    ensures { Makes operand.tree.place (kinds.Postfix operand.tree operator) result }
{
    let depth = deeper(operand.depth)?;
    let operand = operand.tree;
    let place = operand.get().place;
    let kind = ExprKind::Postfix { operand, operator };
    boxed(alloc, place, kind, depth)
}

#[tactic(auto, using(crate::proofs::Depths::depths))]
pub(crate) fn member(
    alloc: Global,
    form: MemberOf,
    operand: Deep<Boxed<Expr>>,
    name: Identifier<'_>,
) -> Result<Deep<Boxed<Expr>>, ParseRefusal>
    requires { IsDeep expression_depth operand }
    ensures { Makes operand.tree.place (member_kind form operand.tree (name_seen name.entry)) result }
{
    let depth = deeper(operand.depth)?;
    let member = name.to_name(alloc)?;
    let operand = operand.tree;
    let place = operand.get().place;
    let kind = match form {
        MemberOf::Object => ExprKind::Member {
            object: operand,
            member,
        },
        MemberOf::Pointer => ExprKind::PointerMember {
            pointer: operand,
            member,
        },
    };
    boxed(alloc, place, kind, depth)
}

#[tactic(auto, using(crate::proofs::Depths::depths))]
pub(crate) fn subscript(
    alloc: Global,
    array: Deep<Boxed<Expr>>,
    index: Deep<Boxed<Expr>>,
) -> Result<Deep<Boxed<Expr>>, ParseRefusal>
    requires array { IsDeep expression_depth array }
    requires index { IsDeep expression_depth index }
    ensures { Makes array.tree.place (kinds.Subscript array.tree index.tree) result }
{
    let depth = deeper(array.depth.max(index.depth))?;
    let array = array.tree;
    let index = index.tree;
    let place = array.get().place;
    let kind = ExprKind::Subscript { array, index };
    boxed(alloc, place, kind, depth)
}

#[tactic(auto, using(crate::proofs::Depths::depths))]
pub(crate) fn conditional(
    alloc: Global,
    test: Deep<Boxed<Expr>>,
    then: Deep<Boxed<Expr>>,
    otherwise: Deep<Boxed<Expr>>,
) -> Result<Deep<Boxed<Expr>>, ParseRefusal>
    requires test { IsDeep expression_depth test }
    requires then { IsDeep expression_depth then }
    requires otherwise { IsDeep expression_depth otherwise }
    ensures { Makes test.tree.place (kinds.Conditional test.tree then.tree otherwise.tree) result }
{
    let depth = deeper(test.depth.max(then.depth.max(otherwise.depth)))?;
    let test = test.tree;
    let place = test.get().place;
    let kind = ExprKind::Conditional {
        test,
        then: then.tree,
        otherwise: otherwise.tree,
    };
    boxed(alloc, place, kind, depth)
}

#[tactic(auto, using(crate::proofs::Depths::depths))]
pub(crate) fn joined(
    alloc: Global,
    joint: Joint,
    left: Deep<Boxed<Expr>>,
    right: Deep<Boxed<Expr>>,
) -> Result<Deep<Boxed<Expr>>, ParseRefusal>
    requires left { IsDeep expression_depth left }
    requires right { IsDeep expression_depth right }
    ensures { Makes left.tree.place (joint_kind joint left.tree right.tree) result }
{
    let depth = deeper(left.depth.max(right.depth))?;
    let left = left.tree;
    let right = right.tree;
    let place = left.get().place;
    let kind = match joint {
        Joint::Binary(operator) => ExprKind::Binary {
            left,
            operator,
            right,
        },
        Joint::Logical(operator) => ExprKind::Logical {
            left,
            operator,
            right,
        },
        Joint::Assignment(operator) => ExprKind::Assignment {
            target: left,
            operator,
            value: right,
        },
        Joint::Comma => ExprKind::Comma {
            first: left,
            second: right,
        },
    };
    boxed(alloc, place, kind, depth)
}

#[tactic(auto, using(crate::proofs::Depths::depths))]
pub(crate) fn call(
    alloc: Global,
    callee: Callee<'_>,
    place: Place,
    arguments: Deep<Items<Expr>>,
) -> Result<Deep<Boxed<Expr>>, ParseRefusal>
    requires { IsDeep expressions_depth arguments }
    ensures { Makes place (call_kind callee.entry arguments.tree) result }
{
    let depth = deeper(arguments.depth)?;
    let kind = call_kind(alloc, callee, arguments.tree)?;
    boxed(alloc, place, kind, depth)
}

fn call_kind(
    alloc: Global,
    callee: Callee<'_>,
    arguments: Items<Expr>,
) -> Result<ExprKind, ParseRefusal>
    ensures { Keeps (call_kind callee.entry arguments) result }
{
    match callee {
        Callee::Function(text) => Ok(ExprKind::Call {
            function: Bytes::from_slice(alloc, text)?,
            arguments,
        }),
        Callee::Operation(operation) => Ok(ExprKind::Atomic {
            operation,
            arguments,
        }),
    }
}

#[tactic(auto, using(crate::proofs::Depths::depths))]
pub(crate) fn of_type(
    alloc: Global,
    operator: OfType,
    place: Place,
    name: Deep<Boxed<TypeName>>,
) -> Result<Deep<Boxed<Expr>>, ParseRefusal>
    requires { IsDeep type_name_depth name }
    ensures { Makes place (of_type_kind operator name.tree) result }
{
    let depth = deeper(name.depth)?;
    let name = name.tree;
    let kind = match operator {
        OfType::Size => ExprKind::SizeOfType(name),
        OfType::Align => ExprKind::AlignOf(name),
    };
    boxed(alloc, place, kind, depth)
}

#[tactic(auto, using(crate::proofs::Depths::depths))]
pub(crate) fn cast(
    alloc: Global,
    place: Place,
    target: Deep<Boxed<TypeName>>,
    operand: Deep<Boxed<Expr>>,
) -> Result<Deep<Boxed<Expr>>, ParseRefusal>
    requires target { IsDeep type_name_depth target }
    requires operand { IsDeep expression_depth operand }
    ensures { Makes place (kinds.Cast target.tree operand.tree) result }
{
    let depth = deeper(target.depth.max(operand.depth))?;
    let kind = ExprKind::Cast {
        target: target.tree,
        operand: operand.tree,
    };
    boxed(alloc, place, kind, depth)
}
