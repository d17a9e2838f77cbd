use crate::tests::{expect_rows, outcome};
use rc_text::Bytes;
use std::alloc::Global;
use std::test::Fail;

/// The operators between two operands (C11 6.5.5 to 6.5.14), each with the number of the subclause that it stands in.
const OPERATORS: &[(&str, u8)] = &[
    ("*", 5),
    ("/", 5),
    ("%", 5),
    ("+", 6),
    ("-", 6),
    ("<<", 7),
    (">>", 7),
    ("<", 8),
    (">", 8),
    ("<=", 8),
    (">=", 8),
    ("==", 9),
    ("!=", 9),
    ("&", 10),
    ("^", 11),
    ("|", 12),
    ("&&", 13),
    ("||", 14),
];

/// Of two operators the one of the earlier subclause binds tighter, and of two in one subclause the first.
#[test]
fn operators_group_by_precedence(rt: HostRuntime) -> Result<(), Fail> {
    let alloc = rt.alloc();
    for (first, first_subclause) in OPERATORS {
        for (second, second_subclause) in OPERATORS {
            let text = format!(in alloc; "a {first} b {second} c")?;
            let want = if first_subclause <= second_subclause {
                format!(in alloc; "({second} ({first} a b) c)")?
            } else {
                format!(in alloc; "({first} a ({second} b c))")?
            };
            let found = outcome(&rt, alloc, text.as_bytes())?;
            assert!(rt; found == want, "{text} is {found}");
        }
    }
    Ok(())
}

/// The assignment operators (C11 6.5.16).
const ASSIGNMENTS: &[&str] = &[
    "=", "*=", "/=", "%=", "+=", "-=", "<<=", ">>=", "&=", "^=", "|=",
];

#[test]
fn assignments_group_to_the_right(rt: HostRuntime) -> Result<(), Fail> {
    let alloc = rt.alloc();
    for operator in ASSIGNMENTS {
        let text = format!(in alloc; "a {operator} b {operator} c")?;
        let want = format!(in alloc; "({operator} a ({operator} b c))")?;
        let found = outcome(&rt, alloc, text.as_bytes())?;
        assert!(rt; found == want, "{text} is {found}");
    }
    Ok(())
}

/// What headers give: operations are called alone, and `NULL` is no name.
#[test]
fn names_of_headers_are_read(rt: HostRuntime) -> Result<(), Fail> {
    expect_rows(
        &rt,
        rt.alloc(),
        &[
            ("atomic_load(a)", "(atomic_load a)"),
            ("#include <stdatomic.h>\natomic_load(&a)", "(atomic (& a))"),
            ("#include <stdatomic.h>\natomic_store(a, b)", "(atomic a b)"),
            (
                "#include <stdatomic.h>\natomic_exchange(a, b)",
                "(atomic a b)",
            ),
            (
                "#include <stdatomic.h>\natomic_compare_exchange_strong(a, b, c)",
                "(atomic a b c)",
            ),
            ("#include <stdatomic.h>\natomic_load", "syntax at 34"),
            ("#include <stdatomic.h>\n(atomic_bool)a", "(cast a)"),
            ("#include <stddef.h>\nNULL == a", "(== NULL a)"),
            ("#include <stdint.h>\nsizeof (uint8_t *)", "(sizeof)"),
            ("#include <stdbool.h>\ntrue + (bool)false", "(+ 1 (cast 1))"),
        ],
    )
}

#[test]
fn other_expressions_group_by_the_grammar(rt: HostRuntime) -> Result<(), Fail> {
    expect_rows(
        &rt,
        rt.alloc(),
        &[
            ("a - b - c", "(- (- a b) c)"),
            ("a ? b : c ? d : e", "(?: a b (?: c d e))"),
            ("a ? b ? c : d : e", "(?: a (?: b c d) e)"),
            ("a ? b, c : d", "(?: a (, b c) d)"),
            ("a || b ? c : d || e", "(?: (|| a b) c (|| d e))"),
            ("a = b = c", "(= a (= b c))"),
            ("a += b *= c", "(+= a (*= b c))"),
            ("a = b ? c : d", "(= a (?: b c d))"),
            ("a = b, c, d", "(, (, (= a b) c) d)"),
            ("*a = -b", "(= (* a) (- b))"),
            ("a + b = c", "(+ a b), 2 left"),
            ("(T)a = b", "(cast a), 2 left"),
            ("a ? b : c = d", "(?: a b c), 2 left"),
            ("-a * -b", "(* (- a) (- b))"),
            ("!~+-*&a", "(! (~ (+ (- (* (& a))))))"),
            ("- -a", "(- (- a))"),
            ("-a++", "(- (_++ a))"),
            ("*a--", "(* (_-- a))"),
            ("++*a", "(++_ (* a))"),
            ("--a[b]", "(--_ ([] a b))"),
            ("a.b->c[d]", "([] (-> (. a)) d)"),
            ("a[b][c, d]", "([] ([] a b) (, c d))"),
            ("f()", "(f)"),
            ("f(a, b = c, (d, e))", "(f a (= b c) (() (, d e)))"),
            ("f(g(a), b)[c]", "([] (f (g a) b) c)"),
            ("(f)", "(() f)"),
            ("(f)(a)", "(() f), 3 left"),
            ("(T)a", "(cast a)"),
            ("(T)(a)", "(cast (() a))"),
            ("(T)(T)a", "(cast (cast a))"),
            ("(T)-a++", "(cast (- (_++ a)))"),
            ("(T)a[b]", "(cast ([] a b))"),
            ("(T)a + b", "(+ (cast a) b)"),
            ("(a) - b", "(- (() a) b)"),
            ("(const unsigned int **)a", "(cast a)"),
            ("(enum { A = 1, B })A", "(cast A)"),
            ("sizeof (T)", "(sizeof)"),
            ("sizeof (T[1][2])", "(sizeof)"),
            ("sizeof (T) + a", "(+ (sizeof) a)"),
            ("sizeof a", "(sizeof a)"),
            ("sizeof (a)[b]", "(sizeof ([] (() a) b))"),
            ("sizeof a + b", "(+ (sizeof a) b)"),
            ("sizeof -a", "(sizeof (- a))"),
            ("_Alignof (T *)", "(alignof)"),
            ("1 + 'a'", "(+ 1 ')"),
        ],
    )
}

/// A text so many times, and one behind that.
fn repeated(alloc: Global, text: &[u8], times: u32, last: &[u8]) -> Result<Bytes, Fail> {
    let mut bytes = Bytes::new(alloc);
    for _ in 0..times {
        bytes.append(text)?;
    }
    bytes.append(last)?;
    Ok(bytes)
}

/// Each operator and each parenthesis is a node, and the operand in them one more.
#[test]
fn expressions_nest_200_deep(rt: HostRuntime) -> Result<(), Fail> {
    let alloc = rt.alloc();
    for (operator, shown) in [("- ", "(- "), ("sizeof ", "(sizeof "), ("(T)", "(cast ")] {
        let text = repeated(alloc, operator.as_bytes(), 199, b"a")?;
        let found = outcome(&rt, alloc, text.as_slice())?;
        assert!(rt;
            found.as_str().starts_with(shown),
            "199 times {operator} is {found}"
        );
        let text = repeated(alloc, operator.as_bytes(), 200, b"a")?;
        let found = outcome(&rt, alloc, text.as_slice())?;
        assert!(rt;
            found.as_str() == "too deep",
            "200 times {operator} is {found}"
        );
    }
    Ok(())
}

#[test]
fn parentheses_and_sums_nest_200_deep(rt: HostRuntime) -> Result<(), Fail> {
    let alloc = rt.alloc();
    for (times, want) in [(199, "(() (() "), (200, "too deep")] {
        let closing = repeated(alloc, b")", times, b"")?;
        let text = repeated(alloc, b"(", times, b"a")?;
        let text = repeated(alloc, text.as_slice(), 1, closing.as_slice())?;
        let found = outcome(&rt, alloc, text.as_slice())?;
        assert!(rt;
            found.as_str().starts_with(want),
            "{times} parentheses are {found}"
        );
    }
    for (times, want) in [(199, "(- (- "), (200, "too deep")] {
        let text = repeated(alloc, b"a - ", times, b"a")?;
        let found = outcome(&rt, alloc, text.as_slice())?;
        assert!(rt;
            found.as_str().starts_with(want),
            "{times} differences are {found}"
        );
    }
    Ok(())
}
