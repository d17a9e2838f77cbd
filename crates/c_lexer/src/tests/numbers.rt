use crate::tests::{character, decimal, expect_fault, expect_kinds, integer};
use crate::{IntegerBase, IntegerSuffix, TokenKind};
use std::test::Fail;

const LARGEST: u128 = 340282366920938463463374607431768211455;

#[test]
fn reads_integers(rt: HostRuntime) -> Result<(), Fail> {
    let alloc = rt.alloc();
    for (text, value, base) in [
        ("0", 0, IntegerBase::Decimal),
        ("00", 0, IntegerBase::Octal),
        ("07", 7, IntegerBase::Octal),
        ("0777", 511, IntegerBase::Octal),
        ("1", 1, IntegerBase::Decimal),
        ("2147483648", 2147483648, IntegerBase::Decimal),
        (
            "340282366920938463463374607431768211455",
            LARGEST,
            IntegerBase::Decimal,
        ),
        (
            "0xffffffffffffffffffffffffffffffff",
            LARGEST,
            IntegerBase::Hexadecimal,
        ),
        (
            "03777777777777777777777777777777777777777777",
            LARGEST,
            IntegerBase::Octal,
        ),
        ("0x0", 0, IntegerBase::Hexadecimal),
        ("0XaF", 175, IntegerBase::Hexadecimal),
        (
            "0x00000000000000000000000000000000000001",
            1,
            IntegerBase::Hexadecimal,
        ),
    ] {
        expect_kinds(
            &rt,
            alloc,
            text.as_bytes(),
            &[integer(value, base, IntegerSuffix::Plain)],
        );
    }
    for (text, suffix) in [
        ("7u", IntegerSuffix::Unsigned),
        ("7U", IntegerSuffix::Unsigned),
        ("7l", IntegerSuffix::Long),
        ("7L", IntegerSuffix::Long),
        ("7ul", IntegerSuffix::UnsignedLong),
        ("7uL", IntegerSuffix::UnsignedLong),
        ("7Ul", IntegerSuffix::UnsignedLong),
        ("7UL", IntegerSuffix::UnsignedLong),
        ("7lu", IntegerSuffix::UnsignedLong),
        ("7lU", IntegerSuffix::UnsignedLong),
        ("7Lu", IntegerSuffix::UnsignedLong),
        ("7LU", IntegerSuffix::UnsignedLong),
        ("7ll", IntegerSuffix::LongLong),
        ("7LL", IntegerSuffix::LongLong),
        ("7ull", IntegerSuffix::UnsignedLongLong),
        ("7uLL", IntegerSuffix::UnsignedLongLong),
        ("7Ull", IntegerSuffix::UnsignedLongLong),
        ("7ULL", IntegerSuffix::UnsignedLongLong),
        ("7llu", IntegerSuffix::UnsignedLongLong),
        ("7llU", IntegerSuffix::UnsignedLongLong),
        ("7LLu", IntegerSuffix::UnsignedLongLong),
        ("7LLU", IntegerSuffix::UnsignedLongLong),
    ] {
        expect_kinds(
            &rt,
            alloc,
            text.as_bytes(),
            &[integer(7, IntegerBase::Decimal, suffix)],
        );
    }
    Ok(())
}

#[test]
fn reads_floating_constants(rt: HostRuntime) -> Result<(), Fail> {
    for text in [
        "1.",
        ".5",
        "1e3",
        "0x1p3",
        "08.5",
        "1E-3",
        "1.5e+10L",
        "1.f",
        "0x.8p1",
        "0X1.8P-1f",
        "0x1.p0",
        "09e1",
        "1e0F",
        "00.",
    ] {
        expect_kinds(&rt, rt.alloc(), text.as_bytes(), &[TokenKind::Floating]);
    }
    Ok(())
}

#[test]
fn refuses_bad_numbers(rt: HostRuntime) -> Result<(), Fail> {
    for text in [
        "08",
        "0x",
        "0b1",
        "1lul",
        "1e",
        "1e+",
        "0xg",
        "0x.p1",
        "1lL",
        "1Ll",
        "1uu",
        "1llul",
        "1lll",
        "1f",
        "7x",
        "7_",
        "0o7",
        "340282366920938463463374607431768211456",
        "0x100000000000000000000000000000000",
        "04000000000000000000000000000000000000000000",
        "''",
        "'ab'",
        "'\\x'",
        "'\\x41'",
        "'\\1'",
        "'a",
        "'",
        "'\n'",
        "'''",
        "'\\'",
        "'\u{1}'",
    ] {
        expect_fault(&rt, rt.alloc(), text.as_bytes(), ("BadNumber", 0, 1, 1));
    }
    Ok(())
}

#[test]
fn reads_characters(rt: HostRuntime) -> Result<(), Fail> {
    for (text, value) in [
        ("'a'", 97),
        ("' '", 32),
        ("'~'", 126),
        ("'\"'", 34),
        ("'@'", 64),
        ("'$'", 36),
        ("'`'", 96),
        ("'\t'", 9),
        ("'\\0'", 0),
        ("'\\n'", 10),
        ("'\\t'", 9),
        ("'\\r'", 13),
        ("'\\\\'", 92),
        ("'\\''", 39),
        ("'\\\"'", 34),
    ] {
        expect_kinds(&rt, rt.alloc(), text.as_bytes(), &[character(value)]);
    }
    expect_kinds(&rt, rt.alloc(), b"'1'1", &[character(49), decimal(1)]);
    Ok(())
}
