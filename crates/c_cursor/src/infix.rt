//! What goes on with an expression, and how tightly it binds (C11 6.5).
ghost use Rattle.std.specs.Prelude.{◌≡◌, ◌<◌};
ghost use Rattle.c_grammar.specs.Operators.{binary_level, logical_level, level_of, left_level, infix_mark, infix_by};
ghost use Rattle.c_grammar.specs.Reading.{goes_on};
ghost use Rattle.c_cursor.specs.Starts.{infix_seen, infix_found, assignment_mark};

use c_lexer::{Punctuator, TokenKind};
use c_syntax::{AssignmentOperator, BinaryOperator, IncrementOperator, LogicalOperator};

/// The syntactic categories of expressions, by how tightly their operators bind.
pub const COMMA_LEVEL: u8 = 0;

pub const ASSIGNMENT_LEVEL: u8 = 1;

pub const CONDITIONAL_LEVEL: u8 = 2;

pub const CAST_LEVEL: u8 = 13;

pub const UNARY_LEVEL: u8 = 14;

pub const POSTFIX_LEVEL: u8 = 15;

/// What goes on with an expression.
#[derive(Clone, Copy)]
pub enum Infix {
    Subscript,
    Member,
    PointerMember,
    Step(IncrementOperator),
    Binary(BinaryOperator),
    Logical(LogicalOperator),
    Question,
    Assign(AssignmentOperator),
    Comma,
}

pub fn binary_level(operator: BinaryOperator) -> u8
    ensures value { result ≡ binary_level operator }
    ensures small { result < 16 }
{
    match operator {
        BinaryOperator::Multiply | BinaryOperator::Divide | BinaryOperator::Remainder => 12,
        BinaryOperator::Add | BinaryOperator::Subtract => 11,
        BinaryOperator::LeftShift | BinaryOperator::RightShift => 10,
        BinaryOperator::Less
        | BinaryOperator::Greater
        | BinaryOperator::LessOrEqual
        | BinaryOperator::GreaterOrEqual => 9,
        BinaryOperator::Equal | BinaryOperator::NotEqual => 8,
        BinaryOperator::And => 7,
        BinaryOperator::Xor => 6,
        BinaryOperator::Or => 5,
    }
}

pub fn logical_level(operator: LogicalOperator) -> u8
    ensures value { result ≡ logical_level operator }
    ensures small { result < 16 }
{
    match operator {
        LogicalOperator::And => 4,
        LogicalOperator::Or => 3,
    }
}

impl Infix {
    /// The category that the operator makes.
    fn level(self) -> u8
        ensures { result ≡ level_of (infix_seen self) }
    {
        match self {
            Infix::Subscript | Infix::Member | Infix::PointerMember | Infix::Step(_) => {
                POSTFIX_LEVEL
            }
            Infix::Binary(operator) => binary_level(operator),
            Infix::Logical(operator) => logical_level(operator),
            Infix::Question => CONDITIONAL_LEVEL,
            Infix::Assign(_) => ASSIGNMENT_LEVEL,
            Infix::Comma => COMMA_LEVEL,
        }
    }

    /// The category of what stands before the operator.
    fn left_level(self) -> u8
        ensures { result ≡ left_level (infix_seen self) }
    {
        match self {
            Infix::Question => CONDITIONAL_LEVEL + 1,
            Infix::Assign(_) => UNARY_LEVEL,
            _ => self.level(),
        }
    }

    /// Whether an expression of a category goes on with the operator, in one of the wanted category.
    pub fn goes_on(self, wanted: u8, level: u8) -> bool
        ensures { result ≡ goes_on wanted (infix_seen self) level }
    {
        wanted <= self.level() && self.left_level() <= level
    }

    /// What a token of this kind goes on with.
    pub fn of(kind: TokenKind) -> Option<Infix>
        ensures { infix_found result ≡ infix_by kind }
    {
        match kind {
            TokenKind::Punctuator(punctuator) => Infix::of_mark(punctuator),
            _ => None,
        }
    }

    fn of_mark(punctuator: Punctuator) -> Option<Infix>
        ensures { infix_found result ≡ infix_mark punctuator }
    {
        Some(match punctuator {
            Punctuator::OpenBracket => Infix::Subscript,
            Punctuator::Point => Infix::Member,
            Punctuator::Arrow => Infix::PointerMember,
            Punctuator::Increment => Infix::Step(IncrementOperator::Increment),
            Punctuator::Decrement => Infix::Step(IncrementOperator::Decrement),
            Punctuator::Star => Infix::Binary(BinaryOperator::Multiply),
            Punctuator::Slash => Infix::Binary(BinaryOperator::Divide),
            Punctuator::Percent => Infix::Binary(BinaryOperator::Remainder),
            Punctuator::Plus => Infix::Binary(BinaryOperator::Add),
            Punctuator::Minus => Infix::Binary(BinaryOperator::Subtract),
            Punctuator::LeftShift => Infix::Binary(BinaryOperator::LeftShift),
            Punctuator::RightShift => Infix::Binary(BinaryOperator::RightShift),
            Punctuator::Less => Infix::Binary(BinaryOperator::Less),
            Punctuator::Greater => Infix::Binary(BinaryOperator::Greater),
            Punctuator::LessOrEqual => Infix::Binary(BinaryOperator::LessOrEqual),
            Punctuator::GreaterOrEqual => Infix::Binary(BinaryOperator::GreaterOrEqual),
            Punctuator::Equal => Infix::Binary(BinaryOperator::Equal),
            Punctuator::NotEqual => Infix::Binary(BinaryOperator::NotEqual),
            Punctuator::Ampersand => Infix::Binary(BinaryOperator::And),
            Punctuator::Caret => Infix::Binary(BinaryOperator::Xor),
            Punctuator::Bar => Infix::Binary(BinaryOperator::Or),
            Punctuator::LogicalAnd => Infix::Logical(LogicalOperator::And),
            Punctuator::LogicalOr => Infix::Logical(LogicalOperator::Or),
            Punctuator::Question => Infix::Question,
            Punctuator::Comma => Infix::Comma,
            _ => Infix::Assign(assignment(punctuator)?),
        })
    }
}

/// The assignment operator that a punctuator is.
fn assignment(punctuator: Punctuator) -> Option<AssignmentOperator>
    ensures { result ≡ assignment_mark punctuator }
{
    match punctuator {
        Punctuator::Assign => Some(AssignmentOperator::Assign),
        Punctuator::MultiplyAssign => Some(AssignmentOperator::Multiply),
        Punctuator::DivideAssign => Some(AssignmentOperator::Divide),
        Punctuator::RemainderAssign => Some(AssignmentOperator::Remainder),
        Punctuator::AddAssign => Some(AssignmentOperator::Add),
        Punctuator::SubtractAssign => Some(AssignmentOperator::Subtract),
        Punctuator::LeftShiftAssign => Some(AssignmentOperator::LeftShift),
        Punctuator::RightShiftAssign => Some(AssignmentOperator::RightShift),
        Punctuator::AndAssign => Some(AssignmentOperator::And),
        Punctuator::XorAssign => Some(AssignmentOperator::Xor),
        Punctuator::OrAssign => Some(AssignmentOperator::Or),
        _ => None,
    }
}
