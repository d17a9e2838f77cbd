use crate::declarator::AbstractDeclarator;
use crate::name::Name;
use crate::operator::{
    AssignmentOperator, BinaryOperator, IncrementOperator, LogicalOperator, UnaryOperator,
};
use crate::specifier::TypeSpecifier;
use c_lexer::{AtomicOperation, CharacterConstant, IntegerConstant};
use rc_text::{Bytes, Place};
use sqlite_items::{Boxed, Items};

/// An expression (C11 6.5). `place` is that of its first byte, at which its faults and goals stand; for
/// `a + b` it is that of `a`.
#[cycle(expression)]
#[derive(Debug, Drop)]
pub struct Expr {
    pub place: Place,
    pub kind: ExprKind,
}

/// An expression by its outermost production.
#[cycle(expression)]
#[derive(Debug, Drop)]
pub enum ExprKind {
    /// An identifier.
    Name(Bytes),
    Integer(IntegerConstant),
    Character(CharacterConstant),
    /// What `NULL` stands for.
    NullPointer,
    /// `(e)`
    Parenthesized(Boxed<Expr>),
    /// `array[index]`, whichever of the two is the pointer.
    Subscript {
        array: Boxed<Expr>,
        index: Boxed<Expr>,
    },
    /// A call by the function's name, whose place is the call's.
    Call {
        function: Bytes,
        arguments: Items<Expr>,
    },
    /// An operation of `<stdatomic.h>`, by the name that no nearer declaration hides.
    Atomic {
        operation: AtomicOperation,
        arguments: Items<Expr>,
    },
    /// `object.member`
    Member {
        object: Boxed<Expr>,
        member: Name,
    },
    /// `pointer->member`
    PointerMember {
        pointer: Boxed<Expr>,
        member: Name,
    },
    /// `e++` and `e--`
    Postfix {
        operand: Boxed<Expr>,
        operator: IncrementOperator,
    },
    /// `++e` and `--e`
    Prefix {
        operator: IncrementOperator,
        operand: Boxed<Expr>,
    },
    Unary {
        operator: UnaryOperator,
        operand: Boxed<Expr>,
    },
    /// `sizeof e`
    SizeOfExpr(Boxed<Expr>),
    /// `sizeof (T)`
    SizeOfType(Boxed<TypeName>),
    /// `_Alignof (T)`
    AlignOf(Boxed<TypeName>),
    /// `(T) e`
    Cast {
        target: Boxed<TypeName>,
        operand: Boxed<Expr>,
    },
    Binary {
        left: Boxed<Expr>,
        operator: BinaryOperator,
        right: Boxed<Expr>,
    },
    Logical {
        left: Boxed<Expr>,
        operator: LogicalOperator,
        right: Boxed<Expr>,
    },
    /// `test ? then : otherwise`
    Conditional {
        test: Boxed<Expr>,
        then: Boxed<Expr>,
        otherwise: Boxed<Expr>,
    },
    Assignment {
        target: Boxed<Expr>,
        operator: AssignmentOperator,
        value: Boxed<Expr>,
    },
    /// `first, second`
    Comma {
        first: Boxed<Expr>,
        second: Boxed<Expr>,
    },
}

/// A type written without a name to declare (C11 6.7.7).
#[cycle(expression)]
#[derive(Debug, Drop)]
pub struct TypeName {
    pub specifier: TypeSpecifier,
    pub declarator: AbstractDeclarator,
}
