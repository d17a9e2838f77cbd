ghost use Rattle.std.specs.Prelude.{◌≡◌};
ghost use Rattle.std.specs.List.{prefix_len};
ghost use Rattle.c_lexer.specs.Bytes.{is_string_byte};

use crate::byte::is_string_byte;

/// How many bytes may stand in a string before its closing quote.
pub(crate) fn inside_length(bytes: &[u8]) -> usize
    ensures { result ≡ prefix_len is_string_byte bytes.now }
{
    for (index, byte) in bytes.iter().enumerate() {
        if !is_string_byte(*byte) {
            return index;
        }
    }
    bytes.len()
}
