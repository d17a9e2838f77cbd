/// Where a byte stands in a file. `byte` counts from 0; `line` and `column` count from 1, a column in
/// bytes. A line ends with its line feed, and a tab is one byte like any other.
#[derive(Clone, Copy, Debug, PartialEq, Eq, Hash)]
pub struct Place {
    pub byte: u32,
    pub line: u32,
    pub column: u32,
}

impl Place {
    /// The place of a file's first byte.
    pub const START: Place = Place {
        byte: 0,
        line: 1,
        column: 1,
    };
}
