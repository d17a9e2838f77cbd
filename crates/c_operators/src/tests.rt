//! The types that gcc gives to operators, and types whose size isn't known.

mod gcc_answers;

use crate::{
    AssignmentOperator, BinaryOperator, CType, Operand, OperandFault, Typing, assigned_type,
    assignment_type, binary_type, cast_type, choice_type, logical_type, measure_type, not_type,
    pointed_type, sign_type, step_type, subscript_type,
};
use gcc_answers::{
    ADDED, ASSIGNED, COMPLEMENTS, DIFFERENCES, EQUALITIES, LOGICAL, MULTIPLIED, NEGATIONS, ORDERS,
    POINTED, PRODUCTS, REMAINDERS, SHIFTED, SHIFTS, SIGNS, STEPS, SUBSCRIPTS, SUMS, UNIONS,
};
use layouts::{IntType, Layout};
use shared_values::Shared;
use std::alloc::Global;
use std::test::Fail;

/// The operands of gcc's tables: `int`, `unsigned long`, 0, `char *`, `int *`, `void *`, `int **`, a struct, and a
/// pointer to an array of three `int`.
const OPERANDS: usize = 9;

/// The only struct, which is complete.
const RECORDS: [Option<Layout>; 1] = [Some(Layout::Bytes { size: 4, align: 4 })];

fn pointer(alloc: Global, to: CType) -> Result<CType, Fail> {
    Ok(CType::Pointer(Shared::new(alloc, to)?))
}

fn operand_type(alloc: Global, number: usize) -> Result<CType, Fail> {
    let int = CType::Integer(IntType::Int);
    Ok(match number {
        0 | 2 => int,
        1 => CType::Integer(IntType::ULong),
        3 => pointer(alloc, CType::Integer(IntType::Char))?,
        4 => pointer(alloc, int)?,
        5 => pointer(alloc, CType::Void)?,
        6 => pointer(alloc, pointer(alloc, int)?)?,
        7 => CType::Record(0),
        _ => pointer(
            alloc,
            CType::Array {
                element: Shared::new(alloc, int)?,
                length: 3,
            },
        )?,
    })
}

fn nth_operand(alloc: Global, number: usize) -> Result<Operand, Fail> {
    Ok(Operand {
        of: operand_type(alloc, number)?,
        null: number == 2,
    })
}

/// Writes the type of the value as gcc's tables spell it.
fn write_type(t: &CType, text: &mut String) -> Result<(), Fail> {
    match t {
        CType::Void => text.push_str("void")?,
        CType::Bool => text.push_str("bool")?,
        CType::AtomicBool => text.push_str("atomic_bool")?,
        CType::Integer(IntType::Int) => text.push_str("int")?,
        CType::Integer(IntType::ULong) => text.push_str("ulong")?,
        CType::Integer(IntType::Char) => text.push_str("char")?,
        CType::Integer(_) => text.push_str("integer")?,
        CType::Pointer(to) => {
            write_type(to.get(), text)?;
            text.push('*')?;
        }
        CType::Array { element, length } => {
            write_type(element.get(), text)?;
            write!(text, "{length}")?;
        }
        CType::Record(number) => write!(text, "record{number}")?,
    }
    Ok(())
}

/// Writes a word of gcc's tables.
fn write_typing(text: &mut String, typing: &Typing, is_last: bool) -> Result<(), Fail> {
    match typing {
        Ok(t) => write_type(&t.value_type()?, text)?,
        Err(_) => text.push_str("none")?,
    }
    text.push(if is_last { '\n' } else { ' ' })?;
    Ok(())
}

fn binary_table(alloc: Global, operator: BinaryOperator) -> Result<String, Fail> {
    let mut text = String::new(alloc);
    for left in 0..OPERANDS {
        for right in 0..OPERANDS {
            let one = nth_operand(alloc, left)?;
            let other = nth_operand(alloc, right)?;
            let typing = binary_type(operator, &one, &other, &RECORDS)?;
            write_typing(&mut text, &typing, right == OPERANDS - 1)?;
        }
    }
    Ok(text)
}

#[test]
fn binary_operators_as_gcc(rt: HostRuntime) -> Result<(), Fail> {
    for (operator, gcc) in [
        (BinaryOperator::Add, SUMS),
        (BinaryOperator::Subtract, DIFFERENCES),
        (BinaryOperator::Multiply, PRODUCTS),
        (BinaryOperator::Divide, REMAINDERS),
        (BinaryOperator::Remainder, REMAINDERS),
        (BinaryOperator::LeftShift, SHIFTS),
        (BinaryOperator::RightShift, SHIFTS),
        (BinaryOperator::Or, UNIONS),
        (BinaryOperator::Less, ORDERS),
        (BinaryOperator::GreaterOrEqual, ORDERS),
        (BinaryOperator::Equal, EQUALITIES),
        (BinaryOperator::NotEqual, EQUALITIES),
    ] {
        assert_eq!(rt; binary_table(rt.alloc(), operator)?.as_str(), gcc);
    }
    Ok(())
}

fn logical_table(alloc: Global) -> Result<String, Fail> {
    let mut text = String::new(alloc);
    for left in 0..OPERANDS {
        for right in 0..OPERANDS {
            let typing = logical_type(&operand_type(alloc, left)?, &operand_type(alloc, right)?);
            write_typing(&mut text, &typing, right == OPERANDS - 1)?;
        }
    }
    Ok(text)
}

fn subscript_table(alloc: Global) -> Result<String, Fail> {
    let mut text = String::new(alloc);
    for left in 0..OPERANDS {
        for right in 0..OPERANDS {
            let one = operand_type(alloc, left)?;
            let other = operand_type(alloc, right)?;
            let typing = subscript_type(&one, &other, &RECORDS)?;
            write_typing(&mut text, &typing, right == OPERANDS - 1)?;
        }
    }
    Ok(text)
}

fn assignment_table(alloc: Global, operator: AssignmentOperator) -> Result<String, Fail> {
    let mut text = String::new(alloc);
    for left in 0..OPERANDS {
        if left == 2 {
            continue;
        }
        for right in 0..OPERANDS {
            let object = operand_type(alloc, left)?;
            let value = nth_operand(alloc, right)?;
            let typing = assignment_type(operator, &object, &value, &RECORDS)?;
            write_typing(&mut text, &typing, right == OPERANDS - 1)?;
        }
    }
    Ok(text)
}

#[test]
fn assignments_as_gcc(rt: HostRuntime) -> Result<(), Fail> {
    for (operator, gcc) in [
        (AssignmentOperator::Assign, ASSIGNED),
        (AssignmentOperator::Add, ADDED),
        (AssignmentOperator::Subtract, ADDED),
        (AssignmentOperator::Multiply, MULTIPLIED),
        (AssignmentOperator::LeftShift, SHIFTED),
    ] {
        assert_eq!(rt; assignment_table(rt.alloc(), operator)?.as_str(), gcc);
    }
    assert_eq!(rt; logical_table(rt.alloc())?.as_str(), LOGICAL);
    assert_eq!(rt; subscript_table(rt.alloc())?.as_str(), SUBSCRIPTS);
    Ok(())
}

/// A rule of one operand.
#[derive(Clone, Copy)]
enum Rule {
    Sign,
    Not,
    Pointed,
    Step,
}

fn unary_table(alloc: Global, rule: Rule) -> Result<String, Fail> {
    let mut text = String::new(alloc);
    for number in 0..OPERANDS {
        let operand = operand_type(alloc, number)?;
        let typing = match rule {
            Rule::Sign => sign_type(&operand),
            Rule::Not => not_type(&operand),
            Rule::Pointed => pointed_type(&operand, &RECORDS)?,
            Rule::Step if number == 2 => continue,
            Rule::Step => step_type(&operand, &RECORDS)?,
        };
        write_typing(&mut text, &typing, number == OPERANDS - 1)?;
    }
    Ok(text)
}

#[test]
fn unary_operators_as_gcc(rt: HostRuntime) -> Result<(), Fail> {
    for (rule, gcc) in [
        (Rule::Sign, SIGNS),
        (Rule::Sign, COMPLEMENTS),
        (Rule::Not, NEGATIONS),
        (Rule::Pointed, POINTED),
        (Rule::Step, STEPS),
    ] {
        assert_eq!(rt; unary_table(rt.alloc(), rule)?.as_str(), gcc);
    }
    Ok(())
}

#[test]
fn casts_give_the_type_of_a_value(rt: HostRuntime) -> Result<(), Fail> {
    let alloc = rt.alloc();
    let one = nth_operand(alloc, 0)?;
    assert!(rt; matches!(cast_type(&one, &CType::AtomicBool)?, Ok(CType::Bool)));
    assert!(rt; matches!(cast_type(&one, &CType::Void)?, Ok(CType::Void)));
    let array = CType::Array {
        element: Shared::new(alloc, CType::Integer(IntType::Int))?,
        length: 3,
    };
    assert_eq!(rt;
        fault_of(cast_type(&one, &array)?),
        Some(OperandFault::Clash)
    );
    assert_eq!(rt;
        fault_of(cast_type(&one, &CType::Record(0))?),
        Some(OperandFault::Clash)
    );
    Ok(())
}

fn fault_of(typing: Typing) -> Option<OperandFault> {
    typing.err()
}

#[test]
fn sizes_that_are_not_known(rt: HostRuntime) -> Result<(), Fail> {
    let alloc = rt.alloc();
    let records = [None];
    let missing = Some(OperandFault::Incomplete(0));
    let to_record = Operand {
        of: pointer(alloc, CType::Record(0))?,
        null: false,
    };
    let one = nth_operand(alloc, 0)?;
    let sum = binary_type(BinaryOperator::Add, &one, &to_record, &records)?;
    assert_eq!(rt; fault_of(sum), missing);
    assert_eq!(rt;
        fault_of(subscript_type(&to_record.of, &one.of, &records)?),
        missing
    );
    assert_eq!(rt; fault_of(step_type(&to_record.of, &records)?), missing);
    assert_eq!(rt;
        fault_of(measure_type(&CType::Record(0), &records)?),
        missing
    );
    assert_eq!(rt; fault_of(measure_type(&to_record.of, &records)?), None);
    assert_eq!(rt;
        fault_of(measure_type(&CType::Void, &records)?),
        Some(OperandFault::Clash)
    );
    assert_eq!(rt; fault_of(assigned_type(&to_record.of, &to_record)?), None);
    assert_eq!(rt;
        fault_of(cast_type(&to_record, &one.of)?),
        Some(OperandFault::Clash)
    );
    assert_eq!(rt;
        fault_of(choice_type(alloc, &to_record.of, &to_record, &to_record)?),
        None
    );
    assert_eq!(rt;
        fault_of(choice_type(alloc, &CType::Record(0), &one, &one)?),
        Some(OperandFault::Clash)
    );
    Ok(())
}
