use crate::tests::{
    character, decimal, expect_fault, expect_kinds, expect_spellings, integer, lexed,
};
use crate::{
    AtomicOperation, Header, HeaderType, Include, IntegerBase, IntegerSuffix, Keyword, Punctuator,
    TokenKind,
};
use rc_text::Place;
use std::alloc::Global;
use std::process::Abort;
use std::test::Fail;

const NAME: TokenKind = TokenKind::Identifier;

#[test]
fn includes_give_their_macros(rt: HostRuntime) -> Result<(), Fail> {
    let alloc = rt.alloc();
    let zero = integer(0, IntegerBase::Decimal, IntegerSuffix::Plain);
    expect_kinds(
        &rt,
        alloc,
        b"NULL bool true false",
        &[NAME, NAME, NAME, NAME],
    );
    expect_kinds(
        &rt,
        alloc,
        b"NULL\n#include <stddef.h>\nNULL size_t bool",
        &[
            NAME,
            TokenKind::NullPointer,
            TokenKind::HeaderType(HeaderType::Size),
            NAME,
        ],
    );
    expect_kinds(
        &rt,
        alloc,
        b"true\n #include<stdbool.h>//\nbool true false NULL",
        &[
            NAME,
            TokenKind::Keyword(Keyword::Bool),
            decimal(1),
            zero,
            NAME,
        ],
    );
    expect_kinds(
        &rt,
        alloc,
        b"#include <refinedc.h>\nint8_t NULL true",
        &[NAME, NAME, NAME],
    );
    Ok(())
}

/// Behind the header a name is of this kind, before it an identifier, and it keeps its text.
fn declares(
    rt: &impl Abort,
    alloc: Global,
    header: &str,
    name: &str,
    kind: TokenKind,
) -> Result<(), Fail> {
    let text = format!(in alloc; "{name}\n#include <{header}.h>\n{name} {name}")?;
    expect_kinds(rt, alloc, text.as_bytes(), &[NAME, kind, kind]);
    let tokens = lexed(rt, alloc, text.as_bytes()).ok().ok_or("refused")?;
    for token in tokens.as_slice() {
        assert!(rt;
            token.text.as_slice() == name.as_bytes(),
            "the text of {name}"
        );
    }
    Ok(())
}

/// Each name that a header declares, by its kind: before the include, behind it, and behind the others alone.
#[test]
fn includes_declare_their_names(rt: HostRuntime) -> Result<(), Fail> {
    let alloc = rt.alloc();
    for (header, name, kind) in [
        ("stddef", "size_t", TokenKind::HeaderType(HeaderType::Size)),
        ("stdint", "int8_t", TokenKind::HeaderType(HeaderType::Int8)),
        (
            "stdint",
            "int16_t",
            TokenKind::HeaderType(HeaderType::Int16),
        ),
        (
            "stdint",
            "int32_t",
            TokenKind::HeaderType(HeaderType::Int32),
        ),
        (
            "stdint",
            "int64_t",
            TokenKind::HeaderType(HeaderType::Int64),
        ),
        (
            "stdint",
            "uint8_t",
            TokenKind::HeaderType(HeaderType::Uint8),
        ),
        (
            "stdint",
            "uint16_t",
            TokenKind::HeaderType(HeaderType::Uint16),
        ),
        (
            "stdint",
            "uint32_t",
            TokenKind::HeaderType(HeaderType::Uint32),
        ),
        (
            "stdint",
            "uint64_t",
            TokenKind::HeaderType(HeaderType::Uint64),
        ),
        (
            "stdatomic",
            "atomic_bool",
            TokenKind::HeaderType(HeaderType::AtomicBool),
        ),
        (
            "stdatomic",
            "atomic_load",
            TokenKind::AtomicOperation(AtomicOperation::Load),
        ),
        (
            "stdatomic",
            "atomic_store",
            TokenKind::AtomicOperation(AtomicOperation::Store),
        ),
        (
            "stdatomic",
            "atomic_exchange",
            TokenKind::AtomicOperation(AtomicOperation::Exchange),
        ),
        (
            "stdatomic",
            "atomic_compare_exchange_strong",
            TokenKind::AtomicOperation(AtomicOperation::CompareExchangeStrong),
        ),
        ("stdint", "intptr_t", NAME),
        ("stdint", "uint8", NAME),
        ("stddef", "ptrdiff_t", NAME),
        ("stdatomic", "atomic_int", NAME),
        ("stdatomic", "atomic_compare_exchange_weak", NAME),
    ] {
        declares(&rt, alloc, header, name, kind)?;
        for other in ["stddef", "stdint", "stdbool", "stdatomic", "refinedc"] {
            if other != header {
                declares(&rt, alloc, other, name, NAME)?;
            }
        }
    }
    Ok(())
}

#[test]
fn macros_count_over_declarations(rt: HostRuntime) -> Result<(), Fail> {
    let alloc = rt.alloc();
    let size = TokenKind::HeaderType(HeaderType::Size);
    expect_kinds(
        &rt,
        alloc,
        b"#define size_t 3\n#include <stddef.h>\nsize_t",
        &[decimal(3)],
    );
    expect_kinds(
        &rt,
        alloc,
        b"#include <stddef.h>\nsize_t\n#define size_t 3\nsize_t\n#include <stddef.h>\nsize_t",
        &[size, decimal(3), decimal(3)],
    );
    Ok(())
}

/// Only names and strings keep their text.
#[test]
fn keeps_texts(rt: HostRuntime) -> Result<(), Fail> {
    let text = b"#include <stddef.h>\n#define X 1\nab \"c\" size_t NULL X 12 1.5 'd' int ;";
    let tokens = lexed(&rt, rt.alloc(), text).ok().ok_or("refused")?;
    let want: [&[u8]; 10] = [
        b"ab", b"\"c\"", b"size_t", b"", b"", b"", b"", b"", b"", b"",
    ];
    assert_eq!(rt; tokens.len(), 10);
    for (index, token) in tokens.as_slice().iter().enumerate() {
        assert!(rt;
            Some(&token.text.as_slice()) == want.get(index),
            "the text of token {index}"
        );
    }
    Ok(())
}

/// A place, by its byte, line and column.
fn at(byte: u32, line: u32, column: u32) -> Place {
    Place { byte, line, column }
}

#[test]
fn keeps_the_includes(rt: HostRuntime) -> Result<(), Fail> {
    let text =
        b"#include <stdint.h>\na b\n# /*x*/ include /**/ <stddef.h> /*y\n*/ // z\nc\n#include <stdint.h>";
    let tokens = lexed(&rt, rt.alloc(), text).ok().ok_or("refused")?;
    let want = [
        Include {
            header: Header::Stdint,
            from: at(20, 2, 1),
        },
        Include {
            header: Header::Stddef,
            from: at(68, 5, 1),
        },
        Include {
            header: Header::Stdint,
            from: at(89, 6, 20),
        },
    ];
    assert!(rt; tokens.includes() == want.as_slice());
    assert!(rt; tokens.end() == at(89, 6, 20));
    assert_eq!(rt; tokens.len(), 3);
    Ok(())
}

#[test]
fn defines_count_from_their_line_on(rt: HostRuntime) -> Result<(), Fail> {
    let alloc = rt.alloc();
    expect_kinds(
        &rt,
        alloc,
        b"X\n#define X 3\nX Y\n#define X 'a'\nX\n#define Y 1.5\nX Y XY",
        &[
            NAME,
            decimal(3),
            NAME,
            character(97),
            character(97),
            TokenKind::Floating,
            NAME,
        ],
    );
    expect_kinds(
        &rt,
        alloc,
        b"#define bool 7\nbool\n#include <stdbool.h>\nbool\n#define true 9\ntrue",
        &[decimal(7), TokenKind::Keyword(Keyword::Bool), decimal(9)],
    );
    expect_kinds(
        &rt,
        alloc,
        b"/*\n*/#\tdefine/**/X\t0x10u /*\n*/\nX",
        &[integer(16, IntegerBase::Hexadecimal, IntegerSuffix::Unsigned)],
    );
    expect_kinds(&rt, alloc, b"#define X 1\r\nX", &[decimal(1)]);
    expect_kinds(&rt, alloc, b"#define X'a'\nX", &[character(97)]);
    expect_kinds(&rt, alloc, b"#define X 1", &[]);
    expect_kinds(
        &rt,
        alloc,
        b"#define X 1\nx # define X 2\nX",
        &[
            NAME,
            TokenKind::Punctuator(Punctuator::Hash),
            NAME,
            decimal(1),
            decimal(2),
            decimal(1),
        ],
    );
    expect_kinds(
        &rt,
        alloc,
        b"##",
        &[TokenKind::Punctuator(Punctuator::HashHash)],
    );
    expect_spellings(&rt, alloc, "#define X 3\na X b\n", "a X b")?;
    let tokens = lexed(&rt, alloc, b"#define X 3\na X")
        .ok()
        .ok_or("refused")?;
    assert_eq!(rt; tokens.len(), 2);
    let place = Place {
        byte: 14,
        line: 2,
        column: 3,
    };
    assert!(rt; tokens.as_slice()[1].place == place);
    Ok(())
}

#[test]
fn refuses_other_directives(rt: HostRuntime) -> Result<(), Fail> {
    for (text, name) in [
        ("#include <stdio.h>", "#include"),
        ("#include \"stddef.h\"", "#include"),
        ("#include < stddef.h>", "#include"),
        ("#include <stddef.h> x", "#include"),
        ("#include <stddef.h> 1\n", "#include"),
        ("#include", "#include"),
        ("#include /*", "#include"),
        ("#include <stddef.h> /* open", "#include"),
        ("#includes <stddef.h>", "#includes"),
        ("#define", "#define"),
        ("#define X", "#define"),
        ("#define X\n3", "#define"),
        ("#define X 3 4", "#define"),
        ("#define X -3", "#define"),
        ("#define X (3)", "#define"),
        ("#define X() 3", "#define"),
        ("#define X \"s\"", "#define"),
        ("#define X Y", "#define"),
        ("#define X 08", "#define"),
        ("#define X 'ab'", "#define"),
        ("#define X @", "#define"),
        ("#define int 3", "#define"),
        ("#define 3 3", "#define"),
        ("#undef X", "#undef"),
        ("#else", "#else"),
        ("#for", "#for"),
        ("#define_ X 3", "#define_"),
    ] {
        expect_fault(&rt, rt.alloc(), text.as_bytes(), (name, 0, 1, 1));
    }
    Ok(())
}
