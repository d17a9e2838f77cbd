ghost use Rattle.std.specs.Prelude.{◌≡◌};
ghost use Rattle.layouts.specs.IntType.{least_of, greatest_of};

/// A standard integer type of C11 (6.2.5), plain `char` included.
#[derive(Clone, Copy, Debug, PartialEq, Eq, Hash)]
pub enum IntType {
    Char,
    SChar,
    UChar,
    Short,
    UShort,
    Int,
    UInt,
    Long,
    ULong,
    LLong,
    ULLong,
}

/// The least and the greatest number of the type.
pub fn int_range(t: IntType) -> (i128, i128)
    ensures least { result.0 ≡ least_of t }
    ensures greatest { result.1 ≡ greatest_of t }
{
    match t {
        IntType::Char | IntType::SChar => (-0x80, 0x7f),
        IntType::UChar => (0, 0xff),
        IntType::Short => (-0x8000, 0x7fff),
        IntType::UShort => (0, 0xffff),
        IntType::Int => (-0x8000_0000, 0x7fff_ffff),
        IntType::UInt => (0, 0xffff_ffff),
        IntType::Long | IntType::LLong => (-0x8000_0000_0000_0000, 0x7fff_ffff_ffff_ffff),
        IntType::ULong | IntType::ULLong => (0, 0xffff_ffff_ffff_ffff),
    }
}

#[cfg(test)]
mod tests {
    use super::*;

    #[test]
    fn ranges(rt: HostRuntime) {
        assert_eq!(rt; int_range(IntType::Char), (-128, 127));
        assert_eq!(rt; int_range(IntType::SChar), (-128, 127));
        assert_eq!(rt; int_range(IntType::UChar), (0, 255));
        assert_eq!(rt; int_range(IntType::Short), (-32768, 32767));
        assert_eq!(rt; int_range(IntType::UShort), (0, 65535));
        assert_eq!(rt; int_range(IntType::Int), (-2147483648, 2147483647));
        assert_eq!(rt; int_range(IntType::UInt), (0, 4294967295));
        assert_eq!(rt;
            int_range(IntType::Long),
            (-9223372036854775808, 9223372036854775807)
        );
        assert_eq!(rt; int_range(IntType::ULong), (0, 18446744073709551615));
        assert_eq!(rt;
            int_range(IntType::LLong),
            (-9223372036854775808, 9223372036854775807)
        );
        assert_eq!(rt; int_range(IntType::ULLong), (0, 18446744073709551615));
    }
}
