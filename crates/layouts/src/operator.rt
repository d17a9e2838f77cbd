/// An operator of Caesium on integers (C11 6.5.3.3, 6.5.5 to 6.5.14). The operands are promoted and of one type,
/// but for the right operand of a shift.
#[derive(Clone, Copy, Debug, PartialEq, Eq, Hash)]
pub enum Operator {
    /// `-a` (C11 6.5.3.3)
    Neg,
    /// `~a` (C11 6.5.3.3)
    Compl,
    /// `a + b` (C11 6.5.6)
    Add,
    /// `a - b` (C11 6.5.6)
    Sub,
    /// `a * b` (C11 6.5.5)
    Mul,
    /// `a / b` (C11 6.5.5)
    Div,
    /// `a % b` (C11 6.5.5)
    Rem,
    /// `a << b` (C11 6.5.7)
    Shl,
    /// `a >> b` (C11 6.5.7)
    Shr,
    /// `a & b` (C11 6.5.10)
    And,
    /// `a | b` (C11 6.5.12)
    Or,
    /// `a ^ b` (C11 6.5.11)
    Xor,
    /// `a == b` (C11 6.5.9)
    Eq,
    /// `a != b` (C11 6.5.9)
    Ne,
    /// `a < b` (C11 6.5.8)
    Lt,
    /// `a <= b` (C11 6.5.8)
    Le,
    /// `a > b` (C11 6.5.8)
    Gt,
    /// `a >= b` (C11 6.5.8)
    Ge,
}
