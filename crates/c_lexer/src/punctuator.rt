ghost use Rattle.std.specs.Prelude.{◌≡◌, [], ◌∷◌, IfSome};
ghost use Rattle.c_lexer.specs.Scanning.Punctuators.{IsAtFront, punctuators_from};
ghost use Rattle.c_lexer.specs.Punctuator.{punctuator_text};

use crate::byte::byte_at;

/// A punctuator of C11 (6.4.6), the digraphs left aside, or the `::` of an attribute's prefix.
#[derive(Clone, Copy, Debug, PartialEq, Eq, Hash)]
pub enum Punctuator {
    Ellipsis,
    LeftShiftAssign,
    RightShiftAssign,
    Arrow,
    Increment,
    Decrement,
    LeftShift,
    RightShift,
    LessOrEqual,
    GreaterOrEqual,
    Equal,
    NotEqual,
    LogicalAnd,
    LogicalOr,
    MultiplyAssign,
    DivideAssign,
    RemainderAssign,
    AddAssign,
    SubtractAssign,
    AndAssign,
    XorAssign,
    OrAssign,
    HashHash,
    DoubleColon,
    OpenBracket,
    CloseBracket,
    OpenParenthesis,
    CloseParenthesis,
    OpenBrace,
    CloseBrace,
    Point,
    Ampersand,
    Star,
    Plus,
    Minus,
    Tilde,
    Exclamation,
    Slash,
    Percent,
    Less,
    Greater,
    Caret,
    Bar,
    Question,
    Colon,
    Semicolon,
    Assign,
    Comma,
    Hash,
}

impl Punctuator {
    /// How the punctuator is spelled.
    pub fn text(self) -> &'static str
        ensures { result.now ≡ punctuator_text self }
    {
        match self {
            Punctuator::Ellipsis => "...",
            Punctuator::LeftShiftAssign => "<<=",
            Punctuator::RightShiftAssign => ">>=",
            Punctuator::Arrow => "->",
            Punctuator::Increment => "++",
            Punctuator::Decrement => "--",
            Punctuator::LeftShift => "<<",
            Punctuator::RightShift => ">>",
            Punctuator::LessOrEqual => "<=",
            Punctuator::GreaterOrEqual => ">=",
            Punctuator::Equal => "==",
            Punctuator::NotEqual => "!=",
            Punctuator::LogicalAnd => "&&",
            Punctuator::LogicalOr => "||",
            Punctuator::MultiplyAssign => "*=",
            Punctuator::DivideAssign => "/=",
            Punctuator::RemainderAssign => "%=",
            Punctuator::AddAssign => "+=",
            Punctuator::SubtractAssign => "-=",
            Punctuator::AndAssign => "&=",
            Punctuator::XorAssign => "^=",
            Punctuator::OrAssign => "|=",
            Punctuator::HashHash => "##",
            Punctuator::DoubleColon => "::",
            Punctuator::OpenBracket => "[",
            Punctuator::CloseBracket => "]",
            Punctuator::OpenParenthesis => "(",
            Punctuator::CloseParenthesis => ")",
            Punctuator::OpenBrace => "{",
            Punctuator::CloseBrace => "}",
            Punctuator::Point => ".",
            Punctuator::Ampersand => "&",
            Punctuator::Star => "*",
            Punctuator::Plus => "+",
            Punctuator::Minus => "-",
            Punctuator::Tilde => "~",
            Punctuator::Exclamation => "!",
            Punctuator::Slash => "/",
            Punctuator::Percent => "%",
            Punctuator::Less => "<",
            Punctuator::Greater => ">",
            Punctuator::Caret => "^",
            Punctuator::Bar => "|",
            Punctuator::Question => "?",
            Punctuator::Colon => ":",
            Punctuator::Semicolon => ";",
            Punctuator::Assign => "=",
            Punctuator::Comma => ",",
            Punctuator::Hash => "#",
        }
    }

    /// The punctuators that begin with a byte, the longer ones first.
    fn beginning_with(first: u8) -> &'static [Punctuator]
        ensures { result.now ≡ punctuators_from first }
    {
        match first {
            b'.' => &[Punctuator::Ellipsis, Punctuator::Point],
            b'<' => &[
                Punctuator::LeftShiftAssign,
                Punctuator::LeftShift,
                Punctuator::LessOrEqual,
                Punctuator::Less,
            ],
            b'>' => &[
                Punctuator::RightShiftAssign,
                Punctuator::RightShift,
                Punctuator::GreaterOrEqual,
                Punctuator::Greater,
            ],
            b'-' => &[
                Punctuator::Arrow,
                Punctuator::Decrement,
                Punctuator::SubtractAssign,
                Punctuator::Minus,
            ],
            b'+' => &[
                Punctuator::Increment,
                Punctuator::AddAssign,
                Punctuator::Plus,
            ],
            b'=' => &[Punctuator::Equal, Punctuator::Assign],
            b'!' => &[Punctuator::NotEqual, Punctuator::Exclamation],
            b'&' => &[
                Punctuator::LogicalAnd,
                Punctuator::AndAssign,
                Punctuator::Ampersand,
            ],
            b'|' => &[Punctuator::LogicalOr, Punctuator::OrAssign, Punctuator::Bar],
            b'*' => &[Punctuator::MultiplyAssign, Punctuator::Star],
            b'/' => &[Punctuator::DivideAssign, Punctuator::Slash],
            b'%' => &[Punctuator::RemainderAssign, Punctuator::Percent],
            b'^' => &[Punctuator::XorAssign, Punctuator::Caret],
            b'#' => &[Punctuator::HashHash, Punctuator::Hash],
            b':' => &[Punctuator::DoubleColon, Punctuator::Colon],
            b'[' => &[Punctuator::OpenBracket],
            b']' => &[Punctuator::CloseBracket],
            b'(' => &[Punctuator::OpenParenthesis],
            b')' => &[Punctuator::CloseParenthesis],
            b'{' => &[Punctuator::OpenBrace],
            b'}' => &[Punctuator::CloseBrace],
            b'~' => &[Punctuator::Tilde],
            b'?' => &[Punctuator::Question],
            b';' => &[Punctuator::Semicolon],
            b',' => &[Punctuator::Comma],
            _ => &[],
        }
    }

    /// The punctuator that a byte is, if no other one begins with it. Of these ten no further byte is asked.
    pub(crate) fn alone(byte: u8) -> Option<Self>
        ensures spelled { IfSome result (λ punctuator. punctuator_text punctuator ≡ byte ∷ []) }
        ensures only { IfSome result (λ punctuator. punctuators_from byte ≡ punctuator ∷ []) }
    {
        match byte {
            b'[' => Some(Punctuator::OpenBracket),
            b']' => Some(Punctuator::CloseBracket),
            b'(' => Some(Punctuator::OpenParenthesis),
            b')' => Some(Punctuator::CloseParenthesis),
            b'{' => Some(Punctuator::OpenBrace),
            b'}' => Some(Punctuator::CloseBrace),
            b'~' => Some(Punctuator::Tilde),
            b'?' => Some(Punctuator::Question),
            b';' => Some(Punctuator::Semicolon),
            b',' => Some(Punctuator::Comma),
            _ => None,
        }
    }

    /// The longest punctuator that begins the bytes.
    pub(crate) fn at_front(bytes: &[u8]) -> Option<Self>
        ensures { IsAtFront bytes.now result }
    {
        for punctuator in Punctuator::beginning_with(byte_at(bytes, 0)) {
            if bytes.starts_with(punctuator.text().as_bytes()) {
                return Some(*punctuator);
            }
        }
        None
    }
}
