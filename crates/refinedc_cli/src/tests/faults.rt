use crate::tests::expect_faults;
use std::test::Fail;

// The first place at which no token begins.
#[test]
fn a_lexical_fault_is_named(rt: HostRuntime) -> Result<(), Fail> {
    let rows: &[(&[u8], &str)] = &[
        (b"\0", "1:1: BadByte"),
        (b"\xff", "1:1: BadByte"),
        (
            b"[[rc::returns(\"7 @ int<i32>\")]] int f(void) { return 7; }\0",
            "1:58: BadByte",
        ),
        (
            b"[[rc::returns(\"7 @ int<i32>\")]] int f(void) { return \xff7; }",
            "1:54: BadByte",
        ),
        (
            b"[[rc::returns(\"7 @ int<i32>\n\")]] int f(void) { return 7; }",
            "1:15: OpenString",
        ),
        (
            b"[[rc::returns(\"7 @ int<i32>\")]] int f(void) { return 08; }",
            "1:54: BadNumber",
        ),
        (
            b"[[rc::returns(\"7 @ int<i32>\")]] int f(void) { return 7x; }",
            "1:54: BadNumber",
        ),
        (
            b"[[rc::returns(\"7 @ int<i32>\")]] int f(void) { return 'ab'; }",
            "1:54: BadNumber",
        ),
        (
            b"[[rc::returns(\"7 @ int<i32>\")]] int f(void) { return 7; } /*/",
            "1:59: OpenComment",
        ),
        (
            b"[[rc::returns(\"7 @ int<i32>\")]]\n\tint f(void) { return 7; } /* open\n",
            "2:28: OpenComment",
        ),
        (b"\n#if 1\n#endif\n", "2:1: Directive if"),
        (b"int x;\n # pragma once\n", "2:2: Directive pragma"),
        (b"#\n", "1:1: Directive"),
        (b"#include \"x.h\"\n", "1:1: Directive include"),
    ];
    expect_faults(&rt, rt.alloc(), rows)
}

// Each kind of fault once; the last two are the grammar's.
#[test]
fn each_kind_has_its_text(rt: HostRuntime) -> Result<(), Fail> {
    let rows: &[(&[u8], &str)] = &[
        (b"int f(void) { return 7 @ 7; }", "1:24: BadByte"),
        (b"int f(void);\n/* not ended", "2:1: OpenComment"),
        (b"[[rc::returns(\"7)]]\nint f(void);", "1:15: OpenString"),
        (b"int f(void) { return 0x; }", "1:22: BadNumber"),
        (b"#if 1", "1:1: Directive if"),
        (b"int f(void) { return 7 }", "1:24: Syntax"),
        (
            b"[[rc::requires(\"{true}\")]] void f(void) { goto x; }",
            "1:43: Refused goto",
        ),
    ];
    expect_faults(&rt, rt.alloc(), rows)
}

// Each form that is left out by name.
#[test]
fn left_out_forms_are_named(rt: HostRuntime) -> Result<(), Fail> {
    let rows: &[(&[u8], &str)] = &[
        (b"double d;", "1:1: Refused double"),
        (b"float f(void);", "1:1: Refused float"),
        (b"int f(void) { volatile int x; }", "1:15: Refused volatile"),
        (b"_Complex f(void);", "1:1: Refused _Complex"),
        (
            b"int f(void) { return _Generic(1, int: 2); }",
            "1:22: Refused _Generic",
        ),
        (b"_Thread_local int x;", "1:1: Refused _Thread_local"),
        (b"int f(void) {\n  asm(\"nop\"); }", "2:3: Refused asm"),
        (b"int (*f)(void);", "1:5: Refused function pointer"),
        (
            b"int f(void) { int x = { 1 }; }",
            "1:23: Refused brace initialiser",
        ),
        (b"struct s { int a : 3; };", "1:18: Refused bit field"),
        (b"int f(int a, ...);", "1:14: Refused variadic"),
        (
            b"int f(void) { return \"x\"; }",
            "1:22: Refused string literal",
        ),
        (
            b"int f(void) { return 1.5; }",
            "1:22: Refused floating constant",
        ),
        (b"int x;", "1:6: Refused file object"),
        (b"int x = 1;", "1:7: Refused file object"),
        (b"int x, y;", "1:6: Refused file object"),
        (b"int x[2];", "1:6: Refused file object"),
        (
            b"int f(void) { static int x; }",
            "1:15: Refused file object",
        ),
        (
            b"int f(void) { extern int x; }",
            "1:15: Refused file object",
        ),
    ];
    expect_faults(&rt, rt.alloc(), rows)
}

// A lexical fault comes before each fault of the grammar, wherever the two stand.
#[test]
fn the_lexical_fault_comes_first(rt: HostRuntime) -> Result<(), Fail> {
    let rows: &[(&[u8], &str)] = &[
        (b"int;\nint f(void) { return @; }", "2:22: BadByte"),
        (b"double d;\n/* not ended", "2:1: OpenComment"),
        (b"goto x;\n#if 1\n", "2:1: Directive if"),
        (b"@ double d;", "1:1: BadByte"),
    ];
    expect_faults(&rt, rt.alloc(), rows)
}

// The end of the file is the place behind its last byte.
#[test]
fn a_file_that_is_cut_off_has_its_fault_at_the_end(rt: HostRuntime) -> Result<(), Fail> {
    let rows: &[(&[u8], &str)] = &[
        (b"int f(void) { return 7;", "1:24: Syntax"),
        (b"int f(void) {\n", "2:1: Syntax"),
        (b"int f(void) { // {\n /* } */ ", "2:10: Syntax"),
    ];
    expect_faults(&rt, rt.alloc(), rows)
}
