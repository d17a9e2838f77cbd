ghost use Rattle.std.specs.Prelude.{◌≡◌, ℕ, ◌+◌, ◌^◌, ◌<◌, ◌≤◌, List, [], ◌∷◌, ◌++◌, length};
ghost use Rattle.rc_text.specs.Places.{place_after};
ghost use Rattle.c_lexer.specs.Elements.{has_line_feed};

use rc_text::Place;

/// The place after one more byte.
pub(crate) fn after_byte(place: Place, byte: u8) -> Place
    requires room { place.byte < 2 ^ 31 }
    requires line { place.line ≤ place.byte + 1 }
    requires column { place.column ≤ place.byte + 1 }
    ensures after { (before : List ℕ) → place ≡ place_after before → result ≡ place_after (before ++ byte ∷ []) }
    ensures byte { result.byte ≡ place.byte + 1 }
    ensures line { result.line ≤ place.line + 1 }
    ensures column { result.column ≤ place.column + 1 }
{
    if byte == b'\n' {
        Place {
            byte: place.byte + 1,
            line: place.line + 1,
            column: 1,
        }
    } else {
        Place {
            byte: place.byte + 1,
            line: place.line,
            column: place.column + 1,
        }
    }
}

/// The place after a text.
pub(crate) fn after_text(place: Place, text: &[u8]) -> Place
    requires room { place.byte + length text.now ≤ 2 ^ 31 }
    requires line { place.line ≤ place.byte + 1 }
    requires column { place.column ≤ place.byte + 1 }
    ensures { (before : List ℕ) → place ≡ place_after before → result ≡ place_after (before ++ text.now) }
{
    let mut after = place;
    for byte in text {
        after = after_byte(after, *byte);
    }
    after
}

/// Whether a text goes over the end of a line.
pub(crate) fn has_line_feed(text: &[u8]) -> bool
    ensures { result ≡ has_line_feed text.now }
{
    text.contains(&b'\n')
}
