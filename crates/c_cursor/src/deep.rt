ghost use Rattle.std.specs.Prelude.{◌≡◌, ◌+◌};
ghost use Rattle.c_cursor.specs.Deep.{Deeper, counted};

use crate::refusal::ParseRefusal;

/// How many statements, expressions and types may lie in one another.
pub const DEPTH_LIMIT: usize = 200;

/// One past the limit: no depth is counted further.
const TOO_DEEP: usize = DEPTH_LIMIT + 1;

/// A tree, or a list of trees, with its depth, which is counted no further than one past the limit.
#[derive(Debug, Drop)]
pub struct Deep<T> {
    pub tree: T,
    pub depth: usize,
}

/// The depth of a node whose deepest part has this depth.
pub fn deeper(inner: usize) -> Result<usize, ParseRefusal>
    ensures { Deeper inner result }
{
    if inner < DEPTH_LIMIT {
        Ok(inner + 1)
    } else {
        Err(ParseRefusal::Depth)
    }
}

/// A depth this far in, as it is counted.
pub fn further(depth: usize, steps: usize) -> usize
    ensures { result ≡ counted (depth + steps) }
{
    depth.saturating_add(steps).min(TOO_DEEP)
}
