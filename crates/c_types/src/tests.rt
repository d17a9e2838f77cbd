//! What gcc says of promotions, conversions, constants, comparisons and conditionals, and the edges of the profile's
//! own rules.

mod gcc_answers;

use crate::{
    CType, Unsized, are_comparable, arithmetic_type, casts, conditional_type, constant_type,
    converted, converts, missing_record, negated, promoted_type, range_of, type_layout,
};
use c_lexer::{IntegerBase, IntegerConstant, IntegerSuffix};
use gcc_answers::{COMMON, COMPARABLE, CONDITIONAL, CONSTANTS, CONVERTS, PROMOTED};
use layouts::{IntType, Layout, Table};
use shared_values::Shared;
use std::alloc::Global;
use std::test::Fail;

const INTEGERS: [IntType; 11] = [
    IntType::Char,
    IntType::SChar,
    IntType::UChar,
    IntType::Short,
    IntType::UShort,
    IntType::Int,
    IntType::UInt,
    IntType::Long,
    IntType::ULong,
    IntType::LLong,
    IntType::ULLong,
];

const SUFFIXES: [IntegerSuffix; 6] = [
    IntegerSuffix::Plain,
    IntegerSuffix::Unsigned,
    IntegerSuffix::Long,
    IntegerSuffix::UnsignedLong,
    IntegerSuffix::LongLong,
    IntegerSuffix::UnsignedLongLong,
];

const EDGES: [u128; 8] = [
    0x7fff_ffff,
    0x8000_0000,
    0xffff_ffff,
    0x1_0000_0000,
    0x7fff_ffff_ffff_ffff,
    0x8000_0000_0000_0000,
    0xffff_ffff_ffff_ffff,
    0x1_0000_0000_0000_0000,
];

/// How many operands gcc's tables of conversions have.
const OPERANDS: usize = 17;

fn int_name(t: IntType) -> &'static str {
    match t {
        IntType::Char => "char",
        IntType::SChar => "schar",
        IntType::UChar => "uchar",
        IntType::Short => "short",
        IntType::UShort => "ushort",
        IntType::Int => "int",
        IntType::UInt => "uint",
        IntType::Long => "long",
        IntType::ULong => "ulong",
        IntType::LLong => "llong",
        IntType::ULLong => "ullong",
    }
}

fn write_int(text: &mut String, t: Option<IntType>) -> Result<(), Fail> {
    text.push_str(t.map_or("none", int_name))?;
    Ok(())
}

/// Writes the type as gcc's tables spell it.
fn write_type(t: &CType, text: &mut String) -> Result<(), Fail> {
    match t {
        CType::Void => text.push_str("void")?,
        CType::Bool => text.push_str("bool")?,
        CType::AtomicBool => text.push_str("atomic_bool")?,
        CType::Integer(t) => text.push_str(int_name(*t))?,
        CType::Pointer(to) => {
            write_type(to.get(), text)?;
            text.push('*')?;
        }
        CType::Array { element, length } => {
            write_type(element.get(), text)?;
            write!(text, "{length}")?;
        }
        CType::Record(number) => write!(text, "record{number}")?,
    }
    Ok(())
}

fn pointer(alloc: Global, to: CType) -> Result<CType, Fail> {
    Ok(CType::Pointer(Shared::new(alloc, to)?))
}

fn array(alloc: Global, element: CType, length: u64) -> Result<CType, Fail> {
    Ok(CType::Array {
        element: Shared::new(alloc, element)?,
        length,
    })
}

/// An operand of gcc's tables, and whether it is a null pointer constant.
#[derive(Drop)]
struct Operand {
    of: CType,
    null: bool,
}

fn operand_type(alloc: Global, number: usize) -> Result<CType, Fail> {
    let int = CType::Integer(IntType::Int);
    Ok(match number {
        0 | 2 => int,
        1 => CType::Integer(IntType::ULong),
        4 => pointer(alloc, CType::Integer(IntType::Char))?,
        5 => pointer(alloc, CType::Integer(IntType::UChar))?,
        6 => pointer(alloc, int)?,
        7 => pointer(alloc, CType::Integer(IntType::UInt))?,
        9 => pointer(alloc, pointer(alloc, int)?)?,
        10 => pointer(alloc, pointer(alloc, CType::Void)?)?,
        11 => CType::Record(0),
        12 => CType::Record(1),
        13 => CType::Record(2),
        14 => pointer(alloc, CType::Record(0))?,
        15 => pointer(alloc, CType::Record(1))?,
        16 => pointer(alloc, array(alloc, int, 3)?)?,
        _ => pointer(alloc, CType::Void)?,
    })
}

fn nth_operand(alloc: Global, number: usize) -> Result<Operand, Fail> {
    Ok(Operand {
        of: operand_type(alloc, number)?,
        null: number == 2 || number == 3,
    })
}

fn write_answer(text: &mut String, yes: bool) -> Result<(), Fail> {
    text.push_str(if yes { "yes" } else { "no" })?;
    Ok(())
}

/// What parts the words of a line.
fn write_gap(text: &mut String, last: bool) -> Result<(), Fail> {
    text.push(if last { '\n' } else { ' ' })?;
    Ok(())
}

fn integer_operand(number: usize) -> CType {
    match number.checked_sub(1).and_then(|at| INTEGERS.get(at)) {
        Some(t) => CType::Integer(*t),
        None => CType::Bool,
    }
}

fn promotions(alloc: Global) -> Result<String, Fail> {
    let mut text = String::new(alloc);
    for number in 0..12 {
        write_int(&mut text, promoted_type(&integer_operand(number)))?;
        write_gap(&mut text, number == 11)?;
    }
    Ok(text)
}

fn commons(alloc: Global) -> Result<String, Fail> {
    let mut text = String::new(alloc);
    for left in 0..12 {
        for right in 0..12 {
            let common = arithmetic_type(&integer_operand(left), &integer_operand(right));
            write_int(&mut text, common)?;
            write_gap(&mut text, right == 11)?;
        }
    }
    Ok(text)
}

#[test]
fn arithmetic_as_gcc(rt: HostRuntime) -> Result<(), Fail> {
    assert_eq!(rt; promotions(rt.alloc())?.as_str(), PROMOTED);
    assert_eq!(rt; commons(rt.alloc())?.as_str(), COMMON);
    assert_eq!(rt; promoted_type(&CType::Void), None);
    Ok(())
}

fn write_constants(
    text: &mut String,
    base: IntegerBase,
    suffix: IntegerSuffix,
) -> Result<(), Fail> {
    for (number, value) in EDGES.iter().enumerate() {
        let constant = IntegerConstant {
            value: *value,
            base,
            suffix,
        };
        write_int(text, constant_type(constant))?;
        write_gap(text, number == 7)?;
    }
    Ok(())
}

fn constants(alloc: Global) -> Result<String, Fail> {
    let mut text = String::new(alloc);
    for base in [
        IntegerBase::Decimal,
        IntegerBase::Octal,
        IntegerBase::Hexadecimal,
    ] {
        for suffix in SUFFIXES {
            write_constants(&mut text, base, suffix)?;
        }
    }
    Ok(text)
}

#[test]
fn constants_as_gcc(rt: HostRuntime) -> Result<(), Fail> {
    assert_eq!(rt; constants(rt.alloc())?.as_str(), CONSTANTS);
    Ok(())
}

fn conversions(alloc: Global) -> Result<String, Fail> {
    let mut text = String::new(alloc);
    for from in 0..OPERANDS {
        for to in 0..OPERANDS {
            if to == 2 || to == 3 {
                continue;
            }
            let operand = nth_operand(alloc, from)?;
            write_answer(
                &mut text,
                converts(operand.null, &operand.of, &operand_type(alloc, to)?),
            )?;
            write_gap(&mut text, to == OPERANDS - 1)?;
        }
    }
    Ok(text)
}

fn comparisons(alloc: Global) -> Result<String, Fail> {
    let mut text = String::new(alloc);
    for left in 0..OPERANDS {
        for right in 0..OPERANDS {
            let one = nth_operand(alloc, left)?;
            let other = nth_operand(alloc, right)?;
            write_answer(
                &mut text,
                are_comparable(one.null, &one.of, other.null, &other.of),
            )?;
            write_gap(&mut text, right == OPERANDS - 1)?;
        }
    }
    Ok(text)
}

fn write_conditional(
    alloc: Global,
    text: &mut String,
    one: &Operand,
    other: &Operand,
) -> Result<(), Fail> {
    match conditional_type(alloc, one.null, &one.of, other.null, &other.of)? {
        Some(joined) => write_type(&joined, text),
        None => write_int(text, None),
    }
}

fn conditionals(alloc: Global) -> Result<String, Fail> {
    let mut text = String::new(alloc);
    for left in 0..OPERANDS {
        for right in 0..OPERANDS {
            let one = nth_operand(alloc, left)?;
            let other = nth_operand(alloc, right)?;
            write_conditional(alloc, &mut text, &one, &other)?;
            write_gap(&mut text, right == OPERANDS - 1)?;
        }
    }
    Ok(text)
}

#[test]
fn pointers_as_gcc(rt: HostRuntime) -> Result<(), Fail> {
    let alloc = rt.alloc();
    assert_eq!(rt; conversions(alloc)?.as_str(), CONVERTS);
    assert_eq!(rt; comparisons(alloc)?.as_str(), COMPARABLE);
    assert_eq!(rt; conditionals(alloc)?.as_str(), CONDITIONAL);
    Ok(())
}

#[test]
fn casts_of_the_profile(rt: HostRuntime) -> Result<(), Fail> {
    let alloc = rt.alloc();
    // by the numbers of gcc's operands: to `char*`, between `int*` and `uint*`, to `void*`, 0, NULL, to `int`, to a
    // struct
    for (from, to, yes) in [
        (6, 4, true),
        (5, 10, true),
        (6, 7, false),
        (9, 10, false),
        (10, 8, true),
        (2, 6, true),
        (3, 0, false),
        (0, 6, false),
        (6, 1, false),
        (11, 11, false),
        (1, 0, true),
    ] {
        let operand = nth_operand(alloc, from)?;
        let to = operand_type(alloc, to)?;
        assert_eq!(rt; casts(operand.null, &operand.of, &to), yes);
        assert!(rt; casts(false, &operand.of, &CType::Void));
    }
    assert!(rt; !converts(false, &operand_type(alloc, 8)?, &CType::Bool));
    assert!(rt; converts(false, &CType::Bool, &CType::Integer(IntType::Long)));
    Ok(())
}

#[test]
fn values_of_objects(rt: HostRuntime) -> Result<(), Fail> {
    let alloc = rt.alloc();
    let row = array(alloc, CType::Integer(IntType::Short), 4)?;
    let value = row.value_type()?;
    assert!(rt; value.is(&pointer(alloc, CType::Integer(IntType::Short))?));
    assert!(rt; CType::AtomicBool.value_type()?.is(&CType::Bool));
    assert!(rt; value.pointee().is_some());
    assert!(rt; row.pointee().is_none());
    assert!(rt; value.is_scalar());
    assert!(rt; !row.is_scalar());
    Ok(())
}

#[test]
fn constants_in_other_types(rt: HostRuntime) {
    assert_eq!(rt; negated(IntType::UInt, 1), 0xffff_ffff);
    assert_eq!(rt; negated(IntType::Long, 0x8000_0000), -0x8000_0000);
    assert_eq!(rt; converted(&CType::Bool, 256), 1);
    assert_eq!(rt; converted(&CType::Integer(IntType::UChar), 257), 1);
    assert_eq!(rt; range_of(&CType::Bool), Some((0, 1)));
    assert_eq!(rt;
        range_of(&CType::Integer(IntType::SChar)),
        Some((-128, 127))
    );
    assert_eq!(rt; range_of(&CType::Void), None);
}

#[test]
fn layouts_of_types(rt: HostRuntime) -> Result<(), Fail> {
    let alloc = rt.alloc();
    let table = Table::new(alloc);
    let records = [None, Some(Layout::Bytes { size: 12, align: 4 })];
    let short = CType::Integer(IntType::Short);
    let laid_out = Layout::Bytes { size: 24, align: 2 };
    let matrix = array(alloc, array(alloc, short, 4)?, 3)?;
    assert_eq!(rt; type_layout(&matrix, &records, &table), Ok(laid_out));
    let laid_out = Layout::Bytes { size: 24, align: 4 };
    let two = array(alloc, CType::Record(1), 2)?;
    assert_eq!(rt; type_layout(&two, &records, &table), Ok(laid_out));
    assert_eq!(rt; missing_record(&two, &records), None);
    let missing = array(alloc, CType::Record(0), 2)?;
    assert_eq!(rt;
        type_layout(&missing, &records, &table),
        Err(Unsized::Incomplete)
    );
    assert_eq!(rt; missing_record(&missing, &records), Some(0));
    assert_eq!(rt; missing_record(&pointer(alloc, missing)?, &records), None);
    assert_eq!(rt;
        type_layout(&CType::Void, &records, &table),
        Err(Unsized::Incomplete)
    );
    assert_eq!(rt;
        type_layout(&CType::AtomicBool, &records, &table),
        Ok(Layout::Bool)
    );
    let largest = Layout::Bytes {
        size: 0x8000_0000,
        align: 1,
    };
    let bytes = array(alloc, CType::Bool, 0x8000_0000)?;
    assert_eq!(rt; type_layout(&bytes, &records, &table), Ok(largest));
    let more = array(alloc, CType::Bool, 0x8000_0001)?;
    assert_eq!(rt;
        type_layout(&more, &records, &table),
        Err(Unsized::TooLarge)
    );
    let twice = array(alloc, bytes, 0x8000_0000_0000_0000)?;
    assert_eq!(rt;
        type_layout(&twice, &records, &table),
        Err(Unsized::TooLarge)
    );
    Ok(())
}
