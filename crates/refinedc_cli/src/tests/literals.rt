use crate::status::Status;
use crate::tests::{LISTING, SEVEN, expect};
use std::test::Fail;

// Files of the form, and files near it, with the answers that the form's definition gives them.
#[test]
fn literals_decide_the_answer(rt: HostRuntime) -> Result<(), Fail> {
    let alloc = rt.alloc();
    let rows: [(&[u8], &str); 20] = [
        (
            b"[[rc::returns(\"8 @ int<i32>\")]] int f(void) { return 7; }",
            "refused f.c:1:47: unsolved 7 = 8\n",
        ),
        (
            b"\n[[rc::returns(\"0 @ int<i32>\")]]\nint f(void)\n{\n\treturn 2147483647;\n}\n",
            "refused f.c:5:2: unsolved 2147483647 = 0\n",
        ),
        (
            b"[[rc::returns(\"2147483647 @ int<i32>\")]] int f(void) {\n\t\t return\n0 ;}",
            "refused f.c:2:4: unsolved 0 = 2147483647\n",
        ),
        (
            b"[ [ rc :: returns ( \"10 @ int<i32>\" ) ] ] int _x1 ( void ) { return 1 ; }",
            "refused f.c:1:62: unsolved 1 = 10\n",
        ),
        (
            b"\t[[rc::returns(\"1 @ int<i32>\")]] int rc(void) { return 10; }",
            "refused f.c:1:49: unsolved 10 = 1\n",
        ),
        (
            b"[[rc::returns(\"0 @ int<i32>\")]]int f(void){return 0;}",
            LISTING,
        ),
        (
            b"[[rc::returns(\"2147483647 @ int<i32>\")]] int returns(void) { return 2147483647; }",
            LISTING,
        ),
        (
            b"  \n[[rc::returns(\"7 @ int<i32>\")]]\tint\nreturn7(void) { return 7; }",
            LISTING,
        ),
        (
            b"[[rc::returns(\"12 @ int<i32>\")]] int A_z09(void) { return 12; }\n\n",
            LISTING,
        ),
        (SEVEN.as_bytes(), LISTING),
        (
            b"[[rc::returns(\"7 @ int<i32>\")]] int int7(void) { return 7; }",
            LISTING,
        ),
        (
            b"[[rc::returns(\"7 @ int<i32>\")]] int main(void) { return 7; }",
            LISTING,
        ),
        (
            b"[[rc::returns(\"100 @ int<i32>\")]] int f(void) { return 100; }",
            LISTING,
        ),
        (
            b"[[rc::returns(\"99 @ int<i32>\")]] int f(void) { return 100; }",
            "refused f.c:1:48: unsolved 100 = 99\n",
        ),
        (
            b"// returns 8\n[[rc::returns(\"8 @ int<i32>\")]] /* it\ndoesn't */ int f(void) { return /**/ 7; }",
            "refused f.c:3:26: unsolved 7 = 8\n",
        ),
        (
            b"[[rc::returns(\"8 @ int<i32>\")]]\r\nint f(void) { return 7; }\r\n",
            "refused f.c:2:15: unsolved 7 = 8\n",
        ),
        (
            b"#include <stddef.h>\n[[rc::returns(\"8 @ int<i32>\")]] int f(void) { return 7; }",
            "refused f.c:2:47: unsolved 7 = 8\n",
        ),
        (
            b"#define SEVEN 7\n[[rc::returns(\"7 @ int<i32>\")]] int f(void) { return SEVEN; }",
            LISTING,
        ),
        (
            b"#define ZERO 0\n[[rc::returns(\"0 @ int<i32>\")]] int f(void) { return ZERO; }",
            LISTING,
        ),
        (
            b"#define N 7\n#define N 8\n[[rc::returns(\"7 @ int<i32>\")]] int f(void) { return N; }",
            "refused f.c:3:47: unsolved 8 = 7\n",
        ),
    ];
    for (content, out) in rows {
        let status = if out == LISTING {
            Status::Accepted
        } else {
            Status::Refused
        };
        expect(&rt, alloc, &["check", "f.c"], content, (status, out, ""))?;
    }
    Ok(())
}
