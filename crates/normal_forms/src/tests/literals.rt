//! Nodes of literals with their normal forms, worked out by hand.
use crate::tests::{is_normal, sorts, term};
use crate::*;
use rc_terms::{Sorts, TermRefusal};
use std::alloc::Global;
use std::process::Abort;
use std::test::Fail;

/// Quotients go toward 0, remainders have the sign of what is divided, and shifts go down; by 0, and by a negative
/// amount, they are 0.
const NORMAL: [(&str, &str); 42] = [
    ("7 2 quot", "3"),
    ("-7 2 quot", "-3"),
    ("7 -2 quot", "-3"),
    ("7 0 quot", "0"),
    ("7 2 rem", "1"),
    ("-7 2 rem", "-1"),
    ("7 -2 rem", "1"),
    ("7 0 rem", "0"),
    ("1 3 shl", "8"),
    ("-3 2 shl", "-12"),
    ("1 -3 shl", "0"),
    ("-7 1 shr", "-4"),
    ("7 1 shr", "3"),
    ("8 -1 shr", "0"),
    ("12 10 band", "8"),
    ("12 10 bor", "14"),
    ("12 10 bxor", "6"),
    ("-1 5 band", "5"),
    ("-8 3 bor", "-5"),
    ("6 2 quot x +", "3 x +"),
    ("x 6 3 quot *", "2 x *"),
    ("1 3 shl neg", "-8"),
    ("3 4 + 2 quot", "3"),
    ("x 2 quot", "x 2 quot"),
    ("3 4 < x y if", "x"),
    ("4 3 < x y if", "y"),
    ("t x x if", "x"),
    ("t x y + y x + if", "x y +"),
    ("t x y if", "t x y if"),
    ("true x y if 1 +", "1 x +"),
    ("false p q if 4 +", "q 4 +"),
    ("t true &&", "t true &&"),
    ("true false &&", "false"),
    ("true false ||", "true"),
    ("true false ->", "false"),
    ("true !", "false"),
    ("null null =", "true"),
    ("null 8 aligned", "true"),
    ("null 4 +", "null 4 +"),
    ("t true =", "t true ="),
    ("true false =", "false"),
    ("l 3 4 + nth", "l 7 nth"),
];

#[test]
fn folds_literals(rt: HostRuntime) -> Result<(), Fail> {
    let alloc = rt.alloc();
    let sorts = sorts(alloc)?;
    for (text, wanted) in NORMAL {
        let holds = is_normal(alloc, text, wanted, &sorts)?;
        assert!(rt; holds, "{text} becomes {wanted}");
    }
    Ok(())
}

/// What 128 bits hold in the end, and what they don't, however the text goes on the way; `G` is 2^127 - 1, the
/// greatest number that they hold.
const REFUSED: [(&str, Option<TermRefusal>); 14] = [
    ("G 0 +", None),
    ("G 1 +", Some(TermRefusal::Width)),
    ("G 1 + 1 -", None),
    ("G neg 1 -", None),
    ("G neg 2 -", Some(TermRefusal::Width)),
    ("G neg 1 - neg", Some(TermRefusal::Width)),
    ("G neg 1 - neg neg", None),
    ("G 2 * x *", Some(TermRefusal::Width)),
    ("G 2 * x * 0 *", None),
    ("1 126 shl", None),
    ("1 127 shl", Some(TermRefusal::Width)),
    ("-1 127 shl", None),
    ("G 1 + 2 quot", Some(TermRefusal::Width)),
    ("t G 1 + x if 0 *", Some(TermRefusal::Width)),
];

/// How a term is refused, if it is.
fn refusal(alloc: Global, text: &str, sorts: &Sorts) -> Result<Option<TermRefusal>, Fail> {
    let given = term(alloc, text)?;
    Ok(match normal_term(alloc, &given, sorts) {
        Ok(_) => None,
        Err(refusal) => Some(refusal),
    })
}

#[test]
fn refuses_wide_numbers(rt: HostRuntime) -> Result<(), Fail> {
    let alloc = rt.alloc();
    let sorts = sorts(alloc)?;
    for (text, wanted) in REFUSED {
        assert_eq!(rt; refusal(alloc, text, &sorts)?, wanted, "{text}");
    }
    Ok(())
}
