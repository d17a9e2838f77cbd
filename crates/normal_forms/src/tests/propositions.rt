//! Propositions with their normal forms, worked out by hand.
use crate::tests::{sorts, term};
use crate::*;
use rc_terms::{Prop, Sorts, is_same_term};
use std::alloc::Global;
use std::process::Abort;
use std::test::Fail;

const NORMAL: [(&str, &str); 36] = [
    ("x y <", "x y <"),
    ("y x <", "y x <"),
    ("x y < !", "x y >="),
    ("x y <= !", "x y >"),
    ("x y > !", "x y <="),
    ("x y >= !", "x y <"),
    ("x y = !", "x y !="),
    ("x y != !", "x y ="),
    ("t !", "t !"),
    ("t ! !", "t"),
    ("true !", "false"),
    ("t u && !", "t ! u ! ||"),
    ("t u || !", "t ! u ! &&"),
    ("t u -> !", "t u ! &&"),
    ("t ! u ->", "t ! u ->"),
    ("t u = !", "t u !="),
    ("x y < t && !", "x y >= t ! ||"),
    ("x y < ! z 0 = &&", "x y >= z 0 = &&"),
    ("l len 0 < !", "l len 0 >="),
    ("3 4 <", "true"),
    ("4 3 <", "false"),
    ("3 3 <=", "true"),
    ("3 3 >", "false"),
    ("3 3 >=", "true"),
    ("3 4 =", "false"),
    ("3 4 !=", "true"),
    ("1 2 + 3 =", "true"),
    ("1 2 + 3 = !", "false"),
    ("x x - 0 =", "true"),
    ("x 0 * 1 =", "false"),
    ("3 4 < t &&", "true t &&"),
    ("3 4 < t && !", "false t ! ||"),
    ("x 1 + y <= !", "1 x + y >"),
    ("t 3 4 < u if !", "t false u ! if"),
    ("p 4 + 4 + p x + 0 + = !", "p 8 + p x + !="),
    ("p 4 + 4 + 8 aligned !", "p 8 + 8 aligned !"),
];

/// Whether the second text spells the normal form of the first.
fn is_normal(alloc: Global, text: &str, wanted: &str, sorts: &Sorts) -> Result<bool, Fail> {
    let prop = Prop {
        term: term(alloc, text)?,
    };
    let Ok(normal) = normal_prop(alloc, &prop, sorts) else {
        return Ok(false);
    };
    Ok(is_same_term(&normal.term, &term(alloc, wanted)?))
}

#[test]
fn brings_small_propositions_to_normal_form(rt: HostRuntime) -> Result<(), Fail> {
    let alloc = rt.alloc();
    let sorts = sorts(alloc)?;
    for (text, wanted) in NORMAL {
        let holds = is_normal(alloc, text, wanted, &sorts)?;
        assert!(rt; holds, "{text} becomes {wanted}");
    }
    Ok(())
}
