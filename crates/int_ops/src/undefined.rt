/// Why an operator has no result (C11 6.5, 6.5.5, 6.5.7). Where two stand together, the earlier is answered.
#[derive(Clone, Copy, Debug, PartialEq, Eq, Hash)]
pub enum OpUb {
    /// A signed result isn't one of the type's, or a negative number is shifted left.
    Overflow,
    /// The divisor is 0.
    ZeroDivisor,
    /// The least number of a signed type is divided by -1.
    LeastByMinusOne,
    /// The amount of a shift is negative, or at least the width.
    ShiftRange,
}
