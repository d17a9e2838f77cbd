ghost use Rattle.std.specs.Prelude.{◌≤◌, length, drop};
ghost use Rattle.c_lexer.specs.Comments.{IsBehindGap};
ghost use Rattle.c_lexer.specs.Scanning.Comments.{IsGapLength};

use crate::byte::is_blank;
use crate::comment::comment_length;

/// The length of the blank within the line, or of the comment, that begins the bytes.
fn gap_length(bytes: &[u8]) -> Option<usize>
    ensures { IsGapLength bytes.now result }
{
    match bytes.first() {
        Some(byte) if is_blank(*byte) && *byte != b'\n' => Some(1),
        _ => comment_length(bytes),
    }
}

/// The length of all blanks within the line and comments that begin the bytes.
pub(crate) fn whole_gap(bytes: &[u8]) -> usize
    ensures within { result ≤ length bytes.now }
    ensures behind { IsBehindGap bytes.now (drop result bytes.now) }
{
    let mut at = 0;
    while let Some(length) = gap_length(&bytes[at..]) {
        at += length;
    }
    at
}
