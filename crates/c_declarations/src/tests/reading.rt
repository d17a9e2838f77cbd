use crate::tests::{Form, expect_rows};
use std::test::Fail;

#[test]
fn types_are_read_with_their_members(rt: HostRuntime) -> Result<(), Fail> {
    expect_rows(
        &rt,
        rt.alloc(),
        Form::Type,
        &[
            ("int x", "depth 1, 1 left, 0 new"),
            ("static unsigned const long x", "depth 1, 1 left, 0 new"),
            ("T x", "depth 1, 1 left, 0 new"),
            ("struct s;", "depth 1, 1 left, 0 new"),
            ("struct s { int x; } const y;", "depth 2, 2 left, 0 new"),
            ("struct s { int x, *y, z[3]; };", "depth 3, 1 left, 0 new"),
            (
                "union u { [[rc::field(\"x\")]] T x; };",
                "depth 2, 1 left, 0 new",
            ),
            (
                "struct s { struct t { int *x; }; struct t y; };",
                "depth 4, 1 left, 0 new",
            ),
            (
                "struct s { enum { A, B = 1 + 2 } x; };",
                "depth 4, 1 left, 2 new",
            ),
        ],
    )
}

#[test]
fn functions_are_read_with_their_parameters(rt: HostRuntime) -> Result<(), Fail> {
    expect_rows(
        &rt,
        rt.alloc(),
        Form::Function,
        &[
            ("void f(void) {", "depth 1, 1 left, 0 new"),
            ("int **f(int a, T *b) {", "depth 3, 1 left, 2 new"),
            ("int f(int, void *[3]) {", "depth 3, 1 left, 0 new"),
            ("int f(void a, void) {", "depth 1, 1 left, 1 new"),
            ("int f(T T) {", "depth 1, 1 left, 1 new"),
            ("int f(enum { A } a) {", "depth 1, 1 left, 2 new"),
        ],
    )
}

#[test]
fn parameters_of_prototypes_leave_scope(rt: HostRuntime) -> Result<(), Fail> {
    expect_rows(
        &rt,
        rt.alloc(),
        Form::Functions,
        &[
            ("int f(int a, int b);", "depth 1, 0 left, 1 new"),
            ("int f(int T), g(T x), *h(void);", "depth 2, 0 left, 3 new"),
        ],
    )
}

#[test]
fn typedefs_are_in_scope_behind_their_declarators(rt: HostRuntime) -> Result<(), Fail> {
    expect_rows(
        &rt,
        rt.alloc(),
        Form::Typedefs,
        &[
            ("int a;", "depth 1, 0 left, 1 new"),
            ("int *a, b[sizeof(a)];", "depth 3, 0 left, 2 new"),
        ],
    )
}

#[test]
fn local_declarations_are_read(rt: HostRuntime) -> Result<(), Fail> {
    expect_rows(
        &rt,
        rt.alloc(),
        Form::Local,
        &[
            ("int x = x + 1, *p = &x; y", "depth 2, 1 left, 2 new"),
            ("int x = sizeof(x), f(int x), z;", "depth 3, 0 left, 3 new"),
            ("typedef T U, *V;", "depth 2, 0 left, 2 new"),
            ("int typedef U;", "depth 1, 0 left, 1 new"),
            ("struct s;", "depth 1, 0 left, 0 new"),
            ("enum e { A, B };", "depth 1, 0 left, 2 new"),
            ("struct s x, y[2];", "depth 2, 0 left, 2 new"),
        ],
    )
}
