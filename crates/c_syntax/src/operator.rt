/// `& * + - ~ !` before an operand (C11 6.5.3, unary-operator).
#[derive(Clone, Copy, Debug, PartialEq, Eq, Hash)]
pub enum UnaryOperator {
    Address,
    Indirection,
    Plus,
    Minus,
    Complement,
    Not,
}

/// `++` and `--`, before an operand (C11 6.5.3.1) or behind it (6.5.2.4).
#[derive(Clone, Copy, Debug, PartialEq, Eq, Hash)]
pub enum IncrementOperator {
    Increment,
    Decrement,
}

/// An operator between two operands that are both evaluated (C11 6.5.5 to 6.5.12).
#[derive(Clone, Copy, Debug, PartialEq, Eq, Hash)]
pub enum BinaryOperator {
    Multiply,
    Divide,
    Remainder,
    Add,
    Subtract,
    LeftShift,
    RightShift,
    Less,
    Greater,
    LessOrEqual,
    GreaterOrEqual,
    Equal,
    NotEqual,
    And,
    Xor,
    Or,
}

/// `&&` and `||`, whose second operand is evaluated only where the first leaves it open (C11 6.5.13, 6.5.14).
#[derive(Clone, Copy, Debug, PartialEq, Eq, Hash)]
pub enum LogicalOperator {
    And,
    Or,
}

/// C11's assignment-operator (6.5.16): `Assign` is `=`, and each other case is that of its compound form.
#[derive(Clone, Copy, Debug, PartialEq, Eq, Hash)]
pub enum AssignmentOperator {
    Assign,
    Multiply,
    Divide,
    Remainder,
    Add,
    Subtract,
    LeftShift,
    RightShift,
    And,
    Xor,
    Or,
}
