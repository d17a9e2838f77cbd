use crate::tests::expect_rows;
use std::test::Fail;

/// The first token at which nothing goes on, or the end.
#[test]
fn refusals_stand_where_nothing_goes_on(rt: HostRuntime) -> Result<(), Fail> {
    expect_rows(
        &rt,
        rt.alloc(),
        &[
            ("", "syntax at 0"),
            (")", "syntax at 0"),
            ("T", "syntax at 0"),
            ("a + T", "syntax at 4"),
            ("a +", "syntax at 3"),
            ("a ? b", "syntax at 5"),
            ("a ? b c", "syntax at 6"),
            ("a ? : c", "syntax at 4"),
            ("(a", "syntax at 2"),
            ("(a]", "syntax at 2"),
            ("()", "syntax at 1"),
            ("(T)", "syntax at 3"),
            ("(T a", "syntax at 3"),
            ("(T[1)a", "syntax at 4"),
            ("++(T)a", "syntax at 3"),
            ("f(a,)", "syntax at 4"),
            ("f(a b)", "syntax at 4"),
            ("f(", "syntax at 2"),
            ("a[]", "syntax at 2"),
            ("a[b)", "syntax at 3"),
            ("a.(b)", "syntax at 2"),
            ("a->(b)", "syntax at 3"),
            ("sizeof", "syntax at 6"),
            ("sizeof (T", "syntax at 9"),
            ("_Alignof a", "syntax at 9"),
            ("(static int)a", "syntax at 1"),
            ("sizeof (static y)", "syntax at 8"),
            ("(const inline double)a", "syntax at 7"),
            ("(unsigned signed)a", "syntax at 10"),
            ("\"s\"", "StringLiteral at 0"),
            ("a + 1.5", "FloatingConstant at 4"),
            ("(void (*)(void))a", "FunctionPointer at 6"),
            ("(double)a", "Keyword(Double) at 1"),
        ],
    )
}
