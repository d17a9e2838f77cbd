ghost use Rattle.std.specs.Prelude.{◌≡◌, ℕ, ◌+◌, ◌<◌, ◌≤◌, length, slice_index, IfSome, IfNone};
ghost use Rattle.std.specs.List.{prefix_len};
ghost use Rattle.c_lexer.specs.Bytes.{is_line_byte};
ghost use Rattle.c_lexer.specs.Comments.{ClosesAt};
ghost use Rattle.c_lexer.specs.Scanning.Comments.{IsCommentLength};

use crate::byte::is_line_byte;

/// The place of the first `*/` from the third byte on.
fn closing(bytes: &[u8]) -> Option<usize>
    ensures found { IfSome result (λ place. (2 ≤ place) × (place + 2 ≤ length bytes.now) × ClosesAt bytes.now place
        × ((earlier : ℕ) → 2 ≤ earlier → earlier < place → ClosesAt bytes.now earlier → ⊥)) }
    ensures none { IfNone result ((place : ℕ) → 2 ≤ place → place + 2 ≤ length bytes.now → ClosesAt bytes.now place
        → ⊥) }
{
    if bytes.len() < 4 {
        return None;
    }
    for place in 2..bytes.len() - 1 {
        if bytes[place] == b'*' && bytes[place + 1] == b'/' {
            return Some(place);
        }
    }
    None
}

/// How many bytes there are before the first line feed.
fn line_length(bytes: &[u8]) -> usize
    ensures { result ≡ prefix_len is_line_byte bytes.now }
{
    for (index, byte) in bytes.iter().enumerate() {
        if !is_line_byte(*byte) {
            return index;
        }
    }
    bytes.len()
}

/// The length of the comment that begins the bytes (C11 6.4.9).
pub(crate) fn comment_length(bytes: &[u8]) -> Option<usize>
    ensures { IsCommentLength bytes.now result }
{
    if bytes.len() < 2 {
        None
    } else if bytes[0] != b'/' {
        None
    } else if bytes[1] == b'*' {
        block_length(bytes)
    } else if bytes[1] == b'/' {
        Some(line_length(bytes))
    } else {
        None
    }
}

/// The length of the comment that begins the bytes, of which the first two are `/*`.
fn block_length(bytes: &[u8]) -> Option<usize>
    requires slash { slice_index bytes.now 0 ≡ 47 }
    requires star { slice_index bytes.now 1 ≡ 42 }
    ensures { IsCommentLength bytes.now result }
{
    match closing(bytes) {
        Some(place) => Some(place + 2),
        None => None,
    }
}
