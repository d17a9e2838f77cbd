ghost use Rattle.std.specs.Prelude.{◌≡◌, ◌↔◌, IsTrue};
ghost use Rattle.linear_certs.specs.declared.row.RowKind.TheVariants as kinds;
ghost use Rattle.linear_certs.specs.Certificate.{MayMultiply};

use crate::factors::Factors;

/// What a row says of its sum.
#[derive(Clone, Copy, Debug, PartialEq, Eq, Hash)]
pub enum RowKind {
    /// `0 <= sum`
    Inequality,
    /// `0 = sum`
    Equation,
}

impl RowKind {
    /// Whether a row of this kind may be multiplied by the number.
    pub fn may_be_multiplied(self, multiplier: i128) -> bool
        ensures { IsTrue result ↔ MayMultiply multiplier self }
    {
        match self {
            RowKind::Inequality => multiplier > 0,
            RowKind::Equation => multiplier != 0,
        }
    }
}

/// A row of a side condition. Its sum is the constant and each unknown times its factor.
#[derive(Debug, Drop)]
pub struct Row {
    pub kind: RowKind,
    pub constant: i128,
    pub factors: Factors,
}

impl Row {
    pub fn is_equation(&self) -> bool
        ensures { IsTrue result ↔ (self.now.kind ≡ kinds.Equation) }
    {
        self.kind == RowKind::Equation
    }
}
