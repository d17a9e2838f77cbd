//! Expressions in print, with each operator before its operands.
use c_syntax::{
    AssignmentOperator, BinaryOperator, Expr, ExprKind, IncrementOperator, LogicalOperator,
    UnaryOperator,
};
use rc_text::{Bytes, NoMemory};

/// Prints so many levels of an expression.
#[cycle(printing)]
pub(crate) fn show(text: &mut Bytes, expression: &Expr, levels: u8) -> Result<(), NoMemory> {
    if levels == 0 {
        return text.append(b"..");
    }
    let levels = levels - 1;
    match &expression.kind {
        ExprKind::Name(name) => text.append(name.as_slice()),
        ExprKind::Integer(_) => text.append(b"1"),
        ExprKind::Character(_) => text.append(b"'"),
        ExprKind::NullPointer => text.append(b"NULL"),
        ExprKind::Parenthesized(inner) => node(text, b"()", &[inner.get()], levels),
        ExprKind::Subscript { array, index } => {
            node(text, b"[]", &[array.get(), index.get()], levels)
        }
        ExprKind::Call {
            function,
            arguments,
        } => { list(text, function.as_slice(), arguments.as_slice(), levels) }
        ExprKind::Atomic { arguments, .. } => list(text, b"atomic", arguments.as_slice(), levels),
        ExprKind::Member { object, .. } => node(text, b".", &[object.get()], levels),
        ExprKind::PointerMember { pointer, .. } => node(text, b"->", &[pointer.get()], levels),
        ExprKind::Postfix { operand, operator } => {
            node(text, behind(*operator), &[operand.get()], levels)
        }
        ExprKind::Prefix { operator, operand } => {
            node(text, before(*operator), &[operand.get()], levels)
        }
        ExprKind::Unary { operator, operand } => {
            node(text, unary(*operator), &[operand.get()], levels)
        }
        ExprKind::SizeOfExpr(operand) => node(text, b"sizeof", &[operand.get()], levels),
        ExprKind::SizeOfType(_) => node(text, b"sizeof", &[], levels),
        ExprKind::AlignOf(_) => node(text, b"alignof", &[], levels),
        ExprKind::Cast { operand, .. } => node(text, b"cast", &[operand.get()], levels),
        ExprKind::Binary {
            left,
            operator,
            right,
        } => { node(text, binary(*operator), &[left.get(), right.get()], levels) }
        ExprKind::Logical {
            left,
            operator,
            right,
        } => { node(text, logical(*operator), &[left.get(), right.get()], levels) }
        ExprKind::Conditional {
            test,
            then,
            otherwise,
        } => node(
            text,
            b"?:",
            &[test.get(), then.get(), otherwise.get()],
            levels,
        ),
        ExprKind::Assignment {
            target,
            operator,
            value,
        } => {
            node(
                text,
                assignment(*operator),
                &[target.get(), value.get()],
                levels,
            )
        }
        ExprKind::Comma { first, second } => {
            node(text, b",", &[first.get(), second.get()], levels)
        }
    }
}

#[cycle(printing)]
fn node(text: &mut Bytes, name: &[u8], operands: &[&Expr], levels: u8) -> Result<(), NoMemory> {
    text.append(b"(")?;
    text.append(name)?;
    for operand in operands {
        text.append(b" ")?;
        show(text, *operand, levels)?;
    }
    text.append(b")")
}

#[cycle(printing)]
fn list(text: &mut Bytes, name: &[u8], arguments: &[Expr], levels: u8) -> Result<(), NoMemory> {
    text.append(b"(")?;
    text.append(name)?;
    for argument in arguments {
        text.append(b" ")?;
        show(text, argument, levels)?;
    }
    text.append(b")")
}

fn behind(operator: IncrementOperator) -> &'static [u8] {
    match operator {
        IncrementOperator::Increment => b"_++",
        IncrementOperator::Decrement => b"_--",
    }
}

fn before(operator: IncrementOperator) -> &'static [u8] {
    match operator {
        IncrementOperator::Increment => b"++_",
        IncrementOperator::Decrement => b"--_",
    }
}

fn unary(operator: UnaryOperator) -> &'static [u8] {
    match operator {
        UnaryOperator::Address => b"&",
        UnaryOperator::Indirection => b"*",
        UnaryOperator::Plus => b"+",
        UnaryOperator::Minus => b"-",
        UnaryOperator::Complement => b"~",
        UnaryOperator::Not => b"!",
    }
}

fn binary(operator: BinaryOperator) -> &'static [u8] {
    match operator {
        BinaryOperator::Multiply => b"*",
        BinaryOperator::Divide => b"/",
        BinaryOperator::Remainder => b"%",
        BinaryOperator::Add => b"+",
        BinaryOperator::Subtract => b"-",
        BinaryOperator::LeftShift => b"<<",
        BinaryOperator::RightShift => b">>",
        BinaryOperator::Less => b"<",
        BinaryOperator::Greater => b">",
        BinaryOperator::LessOrEqual => b"<=",
        BinaryOperator::GreaterOrEqual => b">=",
        BinaryOperator::Equal => b"==",
        BinaryOperator::NotEqual => b"!=",
        BinaryOperator::And => b"&",
        BinaryOperator::Xor => b"^",
        BinaryOperator::Or => b"|",
    }
}

fn logical(operator: LogicalOperator) -> &'static [u8] {
    match operator {
        LogicalOperator::And => b"&&",
        LogicalOperator::Or => b"||",
    }
}

fn assignment(operator: AssignmentOperator) -> &'static [u8] {
    match operator {
        AssignmentOperator::Assign => b"=",
        AssignmentOperator::Multiply => b"*=",
        AssignmentOperator::Divide => b"/=",
        AssignmentOperator::Remainder => b"%=",
        AssignmentOperator::Add => b"+=",
        AssignmentOperator::Subtract => b"-=",
        AssignmentOperator::LeftShift => b"<<=",
        AssignmentOperator::RightShift => b">>=",
        AssignmentOperator::And => b"&=",
        AssignmentOperator::Xor => b"^=",
        AssignmentOperator::Or => b"|=",
    }
}
