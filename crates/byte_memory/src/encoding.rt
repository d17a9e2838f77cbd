ghost use Rattle.std.specs.Prelude.{◌≡◌, length};
ghost use Rattle.layouts.specs.IntType.{int_bytes_of, IsInRange};
ghost use Rattle.byte_memory.specs.Encoding.{int_bytes};

use layouts::IntType;

/// Writes a number of the type as bytes, the least significant first.
pub fn encode_int(t: IntType, n: i128, into: &mut [u8])
    requires size { length into.old ≡ int_bytes_of t }
    requires in_range { IsInRange t n }
    ensures { into.new ≡ int_bytes t n }
{
    let _ = t;
    let mut rest = n;
    for byte in into.iter_mut() {
        *byte = rest.rem_euclid(256) as u8;
        rest = rest.div_euclid(256);
    }
}

#[cfg(test)]
mod tests {
    use super::*;

    #[test]
    fn bytes_of_numbers(rt: HostRuntime) {
        let mut four = [0xaa; 4];
        encode_int(IntType::Int, 7, &mut four);
        assert_eq!(rt; four, [0x07, 0x00, 0x00, 0x00]);
        encode_int(IntType::Int, -1, &mut four);
        assert_eq!(rt; four, [0xff, 0xff, 0xff, 0xff]);
        encode_int(IntType::UInt, 0xdead_beef, &mut four);
        assert_eq!(rt; four, [0xef, 0xbe, 0xad, 0xde]);
        let mut two = [0xaa; 2];
        encode_int(IntType::Short, -2, &mut two);
        assert_eq!(rt; two, [0xfe, 0xff]);
        let mut eight = [0xaa; 8];
        encode_int(IntType::ULong, 0x0102_0304_0506_0708, &mut eight);
        assert_eq!(rt; eight, [0x08, 0x07, 0x06, 0x05, 0x04, 0x03, 0x02, 0x01]);
    }
}
