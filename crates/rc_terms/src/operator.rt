/// An operator with one operand.
#[derive(Clone, Copy, Debug, PartialEq, Eq, Hash)]
pub enum UnaryOperator {
    /// `-a`
    Negative,
    /// `!a`
    Not,
    /// `len(l)`
    Length,
    /// `rev(l)`
    Reverse,
}

/// An operator with two operands.
#[derive(Clone, Copy, Debug, PartialEq, Eq, Hash)]
pub enum BinaryOperator {
    /// `a + b`, of two numbers, or of a location and a number.
    Add,
    /// `a - b`
    Subtract,
    /// `a * b`
    Multiply,
    /// `quot(a, b)`, rounded toward zero, and 0 at a divisor 0.
    Quotient,
    /// `rem(a, b)`, with the sign of `a`, and 0 at a divisor 0.
    Remainder,
    /// `shl(a, b)`, and 0 where `b` is negative.
    ShiftLeft,
    /// `shr(a, b)`, rounded down, and 0 where `b` is negative.
    ShiftRight,
    /// `band(a, b)`
    BitAnd,
    /// `bor(a, b)`
    BitOr,
    /// `bxor(a, b)`
    BitXor,
    /// `a = b`, of two values of one sort.
    Equal,
    /// `a != b`, of two values of one sort.
    Unequal,
    /// `a < b`
    Below,
    /// `a <= b`
    AtMost,
    /// `a > b`
    Above,
    /// `a >= b`
    AtLeast,
    /// `a && b`
    And,
    /// `a || b`
    Or,
    /// `a -> b`
    Implies,
    /// `aligned(p, a)`: the location is null, or the number divides its offset.
    Aligned,
    /// `a :: l`
    Cons,
    /// `l ++ m`
    Append,
    /// `nth(l, i)`, and 0 outside the list.
    Element,
    /// `take(i, l)`, empty where `i` is negative.
    Take,
    /// `drop(i, l)`, the list where `i` is negative.
    Drop,
}
