ghost use Rattle.std.specs.Prelude.{◌≡◌, slice_index};
ghost use Rattle.c_lexer.specs.Bytes.{is_blank, is_digit, is_letter, is_word_byte, is_line_byte};
ghost use Rattle.c_lexer.specs.Bytes.{is_string_byte, is_character_byte, is_octal_digit, is_hexadecimal_digit};

pub(crate) fn is_blank(byte: u8) -> bool
    ensures { result ≡ is_blank byte }
{
    byte == b' ' || byte == b'\t' || byte == b'\n' || byte == b'\x0c' || byte == b'\r'
}

pub(crate) fn is_digit(byte: u8) -> bool
    ensures { result ≡ is_digit byte }
{
    b'0' <= byte && byte <= b'9'
}

pub(crate) fn is_octal_digit(byte: u8) -> bool
    ensures { result ≡ is_octal_digit byte }
{
    b'0' <= byte && byte <= b'7'
}

pub(crate) fn is_hexadecimal_digit(byte: u8) -> bool
    ensures { result ≡ is_hexadecimal_digit byte }
{
    is_digit(byte) || (b'A' <= byte && byte <= b'F') || (b'a' <= byte && byte <= b'f')
}

pub(crate) fn is_letter(byte: u8) -> bool
    ensures { result ≡ is_letter byte }
{
    (b'A' <= byte && byte <= b'Z') || (b'a' <= byte && byte <= b'z') || byte == b'_'
}

pub(crate) fn is_word_byte(byte: u8) -> bool
    ensures { result ≡ is_word_byte byte }
{
    is_letter(byte) || is_digit(byte)
}

pub(crate) fn is_line_byte(byte: u8) -> bool
    ensures { result ≡ is_line_byte byte }
{
    byte != b'\n'
}

pub(crate) fn is_string_byte(byte: u8) -> bool
    ensures { result ≡ is_string_byte byte }
{
    byte != b'"' && byte != b'\n'
}

pub(crate) fn is_character_byte(byte: u8) -> bool
    ensures { result ≡ is_character_byte byte }
{
    byte != b'\''
        && byte != b'\\'
        && ((32 <= byte && byte <= 126) || byte == b'\t' || byte == b'\x0c' || byte == b'\r')
}

/// The byte at an index, or 0 behind the end.
pub(crate) fn byte_at(bytes: &[u8], index: usize) -> u8
    ensures { result ≡ slice_index bytes.now index }
{
    if index < bytes.len() { bytes[index] } else { 0 }
}
