ghost use Rattle.std.specs.Prelude.{◌≡◌};
ghost use Rattle.c_lexer.specs.Characters.{escape_of};
ghost use Rattle.c_lexer.specs.Scanning.Characters.{IsQuoted};

use crate::byte::is_character_byte;
use crate::token::CharacterConstant;

/// A character constant at the front of some bytes, and how many bytes spell it.
#[derive(Clone, Copy, Debug)]
pub(crate) struct Quoted {
    pub constant: CharacterConstant,
    pub length: usize,
}

/// What a byte behind a backslash stands for.
fn escape(byte: u8) -> Option<u8>
    ensures { result ≡ escape_of byte }
{
    match byte {
        b'0' => Some(0),
        b'n' => Some(b'\n'),
        b't' => Some(b'\t'),
        b'r' => Some(b'\r'),
        b'\\' | b'\'' | b'"' => Some(byte),
        _ => None,
    }
}

/// The character constant that begins the bytes (C11 6.4.4.4).
pub(crate) fn character_constant(bytes: &[u8]) -> Option<Quoted>
    ensures { IsQuoted bytes.now result }
{
    match *bytes {
        [b'\'', value, b'\'', ..] if is_character_byte(value) => Some(Quoted {
            constant: CharacterConstant { value },
            length: 3,
        }),
        [b'\'', b'\\', byte, b'\'', ..] => {
            let value = escape(byte)?;
            Some(Quoted {
                constant: CharacterConstant { value },
                length: 4,
            })
        }
        _ => None,
    }
}
