use crate::tests::expect_fault;
use std::test::Fail;

#[test]
fn finds_the_first_fault(rt: HostRuntime) -> Result<(), Fail> {
    let alloc = rt.alloc();
    let faults: [(&[u8], crate::tests::Fault); 33] = [
        (b"@", ("BadByte", 0, 1, 1)),
        (b"a @ b", ("BadByte", 2, 1, 3)),
        (b"a\n$", ("BadByte", 2, 2, 1)),
        (b"`", ("BadByte", 0, 1, 1)),
        (b"a\\\nb", ("BadByte", 1, 1, 2)),
        (b"a\0b", ("BadByte", 1, 1, 2)),
        (b"x\x7f", ("BadByte", 1, 1, 2)),
        (b"x\xff", ("BadByte", 1, 1, 2)),
        (b"\x0b", ("BadByte", 0, 1, 1)),
        (b"'a'@", ("BadByte", 3, 1, 4)),
        (b"/*", ("OpenComment", 0, 1, 1)),
        (b"/*/", ("OpenComment", 0, 1, 1)),
        (b"a /* b\n@", ("OpenComment", 2, 1, 3)),
        (b"a /* *", ("OpenComment", 2, 1, 3)),
        (b"a/*", ("OpenComment", 1, 1, 2)),
        (b"/**/\n/* x", ("OpenComment", 5, 2, 1)),
        (b"\"", ("OpenString", 0, 1, 1)),
        (b"\"open", ("OpenString", 0, 1, 1)),
        (b"x \"a\nb\"", ("OpenString", 2, 1, 3)),
        (b"x = \"", ("OpenString", 4, 1, 5)),
        (b"a 08 @", ("BadNumber", 2, 1, 3)),
        (b"a\n\t08", ("BadNumber", 3, 2, 2)),
        (b"a 'b", ("BadNumber", 2, 1, 3)),
        (b"\"a\" 'bc' \"", ("BadNumber", 4, 1, 5)),
        (b"#if 1", ("#if", 0, 1, 1)),
        (b"#", ("#", 0, 1, 1)),
        (b"# 3", ("#", 0, 1, 1)),
        (b"x\n # if", ("#if", 3, 2, 2)),
        (b"x\n/**/ #", ("#", 7, 2, 6)),
        (b"#@", ("#", 0, 1, 1)),
        (b"# /* open", ("#", 0, 1, 1)),
        (b"#pragma @", ("#pragma", 0, 1, 1)),
        (b"# /* \n */ undef X", ("#undef", 0, 1, 1)),
    ];
    for (text, want) in faults {
        expect_fault(&rt, alloc, text, want);
    }
    Ok(())
}
