ghost use Rattle.std.specs.Prelude.{◌≡◌};
ghost use Rattle.caesium_ir.specs.Operation.{operator_of};

use crate::reference::Reference;
use layouts::{IntType, Layout, Operator};
use rc_text::Place;

/// A type that `cast` converts from or to.
#[derive(Clone, Copy, Debug, PartialEq, Eq, Hash)]
pub enum Scalar {
    Int(IntType),
    Bool,
}

/// An operator on two integers of one type (C11 6.5.5, 6.5.6 and 6.5.8 to 6.5.12).
#[derive(Clone, Copy, Debug, PartialEq, Eq, Hash)]
pub enum BinaryOperator {
    Add,
    Sub,
    Mul,
    Div,
    Rem,
    And,
    Or,
    Xor,
    Eq,
    Ne,
    Lt,
    Le,
    Gt,
    Ge,
}

impl BinaryOperator {
    /// The operator of C that it is.
    pub fn operator(self) -> Operator
        ensures { result ≡ operator_of self }
    {
        match self {
            BinaryOperator::Add => Operator::Add,
            BinaryOperator::Sub => Operator::Sub,
            BinaryOperator::Mul => Operator::Mul,
            BinaryOperator::Div => Operator::Div,
            BinaryOperator::Rem => Operator::Rem,
            BinaryOperator::And => Operator::And,
            BinaryOperator::Or => Operator::Or,
            BinaryOperator::Xor => Operator::Xor,
            BinaryOperator::Eq => Operator::Eq,
            BinaryOperator::Ne => Operator::Ne,
            BinaryOperator::Lt => Operator::Lt,
            BinaryOperator::Le => Operator::Le,
            BinaryOperator::Gt => Operator::Gt,
            BinaryOperator::Ge => Operator::Ge,
        }
    }
}

/// What a block does before its end, one after another. An operation takes its operands off the row, the last pushed
/// first, and pushes one value where nothing else is said.
#[derive(Debug, Drop)]
pub enum Op {
    /// `const T n`: pushes a number of the type.
    Const {
        of: IntType,
        value: i128,
    },
    /// `const bool n`: pushes a truth value.
    ConstBool {
        value: bool,
    },
    /// `const null`: pushes the null pointer.
    Null,
    /// `const poison k`: pushes a value of this many bytes, each of them poison.
    Poison {
        size: u32,
    },
    /// `local x`: pushes the location of the local that has this number among the parameters and then the further
    /// locals of the function.
    Local {
        number: u32,
    },
    /// `field s.i`: moves a pointer by the offset of a member, which counts from 0, of the struct or union that the
    /// table has under this number.
    Field {
        of: u32,
        member: u32,
    },
    /// `index k T`: pops an integer of the type and a pointer, and moves the pointer by so many times `size` bytes.
    Index {
        size: u32,
        of: IntType,
    },
    /// `load L`: pops a pointer, and pushes the bytes there.
    Load {
        layout: Layout,
    },
    /// `load atomic bool`: the same of one byte, atomically.
    LoadAtomic,
    /// `store L`: pops a value and a pointer, stores, and pushes the value.
    Store {
        layout: Layout,
    },
    /// `store atomic bool`: the same of one byte, atomically.
    StoreAtomic,
    /// `neg T`
    Neg {
        of: IntType,
    },
    /// `compl T`
    Compl {
        of: IntType,
    },
    /// An operator on two integers of the type.
    Binary {
        operator: BinaryOperator,
        of: IntType,
    },
    /// `shl T U`: the amount is of the second type.
    Shl {
        of: IntType,
        amount: IntType,
    },
    /// `shr T U`: the amount is of the second type.
    Shr {
        of: IntType,
        amount: IntType,
    },
    /// `cast A B`
    Cast {
        from: Scalar,
        to: Scalar,
    },
    /// `ptr_eq`: pops two pointers, and pushes 1 of type `int` where they are equal, else 0.
    PtrEq,
    /// `ptr_ne`: pops two pointers, and pushes 0 of type `int` where they are equal, else 1.
    PtrNe,
    /// `cas`: pops the desired bool and pointers to the expected bool and to the object. Where these two bools agree,
    /// stores the desired one in the object and pushes true, else stores the object's in the expected place and pushes
    /// false.
    Cas,
    /// `exchange`: pops a bool and a pointer, stores it, and pushes the old one.
    Exchange,
    /// `call f`: pops so many arguments, the last one first, and calls. What the function returns is pushed later.
    Call {
        function: Reference,
        arguments: u32,
    },
    /// `fork f`: the same in a new thread; pushes nothing.
    Fork {
        function: Reference,
        arguments: u32,
    },
    /// `drop`: pops one value, and pushes nothing.
    Drop,
}

/// An operation, and the place in the source that it comes from.
#[derive(Debug, Drop)]
pub struct PlacedOp {
    pub op: Op,
    pub place: Place,
}
