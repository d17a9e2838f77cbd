use crate::tests::{Form, expect_rows};
use std::test::Fail;

#[test]
fn types_are_refused(rt: HostRuntime) -> Result<(), Fail> {
    expect_rows(
        &rt,
        rt.alloc(),
        Form::Type,
        &[
            ("", "syntax at 0"),
            ("x", "syntax at 0"),
            ("double x", "Keyword(Double) at 0"),
            ("int long int x", "syntax at 9"),
            ("struct { int x; }", "syntax at 7"),
            ("struct s { }", "syntax at 11"),
            ("struct s { int x }", "syntax at 17"),
            ("struct s { int x : 3; }", "BitField at 17"),
            ("struct s { int : 3; }", "BitField at 15"),
            ("struct s { int; }", "syntax at 14"),
            ("struct s { static int x; }", "syntax at 11"),
            ("struct s { static y x; }", "syntax at 11"),
            ("struct s { int inline x; }", "syntax at 15"),
            ("struct s { int x = 1; }", "syntax at 17"),
            ("struct s { int x[]; }", "syntax at 17"),
            ("struct s { int f(int); }", "syntax at 16"),
            ("struct s { int (*f)(int); }", "FunctionPointer at 15"),
            ("struct s { int (f); }", "syntax at 15"),
            ("struct s { int x;", "syntax at 17"),
        ],
    )
}

#[test]
fn functions_are_refused(rt: HostRuntime) -> Result<(), Fail> {
    expect_rows(
        &rt,
        rt.alloc(),
        Form::Function,
        &[
            ("int f()", "syntax at 6"),
            ("int f(int,)", "syntax at 10"),
            ("int f(...)", "Variadic at 6"),
            ("int f(int x, ...)", "Variadic at 13"),
            ("int f(int ...)", "syntax at 10"),
            ("int f(const void)", "syntax at 16"),
            ("int f(int g(int))", "syntax at 11"),
            ("int f(int (*g)(int))", "FunctionPointer at 10"),
            ("int f(static int x)", "syntax at 6"),
            ("int f(static y)", "syntax at 6"),
            ("int f(int x, y)", "syntax at 13"),
            ("int f(int x[])", "syntax at 12"),
            ("int f([[a]] int x)", "syntax at 6"),
            ("int f(struct s { int x; } y)", "syntax at 15"),
            ("int (*f)(int)", "FunctionPointer at 4"),
            ("int (f)(int)", "syntax at 4"),
            ("int x;", "FileObject at 5"),
            ("int *x = 0;", "FileObject at 7"),
            ("int x, y;", "FileObject at 5"),
            ("int x[2];", "FileObject at 5"),
            ("int x : 2;", "syntax at 6"),
            ("int;", "syntax at 3"),
        ],
    )
}

#[test]
fn names_are_refused(rt: HostRuntime) -> Result<(), Fail> {
    expect_rows(
        &rt,
        rt.alloc(),
        Form::Functions,
        &[
            ("int f(int), x;", "FileObject at 13"),
            ("int f(int) = 1;", "syntax at 11"),
            ("int f(int) {", "syntax at 11"),
        ],
    )?;
    expect_rows(
        &rt,
        rt.alloc(),
        Form::Typedefs,
        &[
            ("int T", "syntax at 5"),
            ("int a = 1;", "syntax at 6"),
            ("int f(int);", "syntax at 5"),
            ("int (*f)(int);", "FunctionPointer at 4"),
        ],
    )
}

#[test]
fn local_declarations_are_refused(rt: HostRuntime) -> Result<(), Fail> {
    expect_rows(
        &rt,
        rt.alloc(),
        Form::Local,
        &[
            ("int x = { 1 };", "BraceInitializer at 8"),
            ("int x = (int) { 1 };", "syntax at 14"),
            ("int x = \"s\";", "StringLiteral at 8"),
            ("int x[] = 1;", "syntax at 6"),
            ("int x", "syntax at 5"),
            ("int;", "syntax at 3"),
            ("T;", "syntax at 1"),
            ("static int x;", "FileObject at 0"),
            ("int extern x;", "FileObject at 4"),
            ("static y;", "FileObject at 0"),
            ("static double y;", "FileObject at 0"),
            ("const static double y;", "FileObject at 6"),
            ("typedef typedef int y;", "syntax at 8"),
            ("typedef int;", "syntax at 11"),
            ("struct s { int x; } y;", "syntax at 9"),
            ("int (*f)(int);", "FunctionPointer at 4"),
            ("int f(int) { }", "syntax at 11"),
            ("int f(int) = 1;", "syntax at 11"),
            ("volatile int x;", "Keyword(Volatile) at 0"),
            ("int volatile x;", "Keyword(Volatile) at 4"),
        ],
    )
}
