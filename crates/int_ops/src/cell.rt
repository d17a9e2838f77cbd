ghost use Rattle.std.specs.Prelude.{◌≡◌, IfOk};
ghost use Rattle.layouts.specs.IntType.{IsInRange};
ghost use Rattle.int_ops.specs.Arithmetic.{arithmetic, IsRightOperand};
ghost use Rattle.int_ops.specs.Cells.{cells};

use crate::arithmetic::apply;
use crate::undefined::OpUb;
use layouts::{IntType, Operator};

/// An operator at one type of its operands.
#[derive(Clone, Copy, Debug, PartialEq, Eq, Hash)]
pub struct Cell {
    pub operator: Operator,
    pub operands: IntType,
    /// The type of the result.
    pub result: IntType,
}

impl Cell {
    /// What the cell gives on two numbers of its type, as `apply`.
    pub fn apply(self, a: i128, b: i128) -> Result<i128, OpUb>
        requires left { IsInRange self.operands a }
        requires right { IsRightOperand self.operator self.operands b }
        ensures { result ≡ arithmetic self.operator self.operands a b }
    {
        apply(self.operator, self.operands, a, b)
    }
}

/// The number of operators, 18, by the number of types, 11.
const CELLS: usize = 198;

macro_rules! cell {
    ($operator:ident $t:ident $result:ident) => {
        Cell {
            operator: Operator::$operator,
            operands: IntType::$t,
            result: IntType::$result,
        }
    };
}

/// The cells of the operators whose results are of the operands' type, then of those whose results are `int`.
macro_rules! cells {
    (@ [$($done:expr,)*] [] []) => { [$($done),*] };
    (@ [$($done:expr,)*] [$operator:ident $($more:ident)*] [$($comparison:ident)*]) => {
        cells!(@ [
            $($done,)*
            cell!($operator Char Char), cell!($operator SChar SChar), cell!($operator UChar UChar),
            cell!($operator Short Short), cell!($operator UShort UShort),
            cell!($operator Int Int), cell!($operator UInt UInt),
            cell!($operator Long Long), cell!($operator ULong ULong),
            cell!($operator LLong LLong), cell!($operator ULLong ULLong),
        ] [$($more)*] [$($comparison)*])
    };
    (@ [$($done:expr,)*] [] [$comparison:ident $($more:ident)*]) => {
        cells!(@ [
            $($done,)*
            cell!($comparison Char Int), cell!($comparison SChar Int), cell!($comparison UChar Int),
            cell!($comparison Short Int), cell!($comparison UShort Int),
            cell!($comparison Int Int), cell!($comparison UInt Int),
            cell!($comparison Long Int), cell!($comparison ULong Int),
            cell!($comparison LLong Int), cell!($comparison ULLong Int),
        ] [] [$($more)*])
    };
}

const TABLE: [Cell; CELLS] = cells!(@ []
    [Neg Compl Add Sub Mul Div Rem Shl Shr And Or Xor] [Eq Ne Lt Le Gt Ge]);

/// The cell of each operator at each type, for N = 198.
pub fn table<const N: usize>() -> [Cell; N]
    requires { N ≡ 198 }
    ensures { result ≡ cells }
{
    let mut all = [TABLE[0]; N];
    all.copy_from_slice(&TABLE);
    all
}
