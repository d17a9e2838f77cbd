ghost use Rattle.std.specs.Prelude.{◌≡◌};
ghost use Rattle.refinedc_cli.specs.Limit.{limit_number, limit_name};

use c_cursor::DEPTH_LIMIT;
use c_lexer::TOKEN_LIMIT;

/// What there is a limit to. `number` and `name` are the only places where a limit is written down.
#[derive(Clone, Copy, Debug, PartialEq, Eq, Hash)]
pub enum Limit {
    /// The bytes of one file.
    FileBytes,
    /// The tokens of a file.
    Tokens,
    /// How many statements, expressions and types of a file lie in one another.
    Depth,
}

impl Limit {
    /// How many there may be.
    pub fn number(self) -> u32
        ensures { result ≡ limit_number self }
    {
        match self {
            Limit::FileBytes => 1048576,
            Limit::Tokens => TOKEN_LIMIT as u32,
            Limit::Depth => DEPTH_LIMIT as u32,
        }
    }

    /// What the text of a passed limit calls it.
    pub fn name(self) -> &'static str
        ensures { result.now ≡ limit_name self }
    {
        match self {
            Limit::FileBytes => "file bytes",
            Limit::Tokens => "tokens",
            Limit::Depth => "depth",
        }
    }
}
