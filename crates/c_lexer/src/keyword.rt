ghost use Rattle.std.specs.Prelude.{◌≡◌, ◌≢◌, IfSome, IfNone};
ghost use Rattle.c_lexer.specs.declared.keyword.Keyword.{Keyword};
ghost use Rattle.c_lexer.specs.Scanning.Keywords.{keywords_from};
ghost use Rattle.c_lexer.specs.Keyword.{keyword_text};

use crate::byte::byte_at;

/// A word that is no identifier: the keywords of C11 (6.4.1), and `asm`, which this profile reserves.
#[derive(Clone, Copy, Debug, PartialEq, Eq, Hash)]
pub enum Keyword {
    Auto,
    Break,
    Case,
    Char,
    Const,
    Continue,
    Default,
    Do,
    Double,
    Else,
    Enum,
    Extern,
    Float,
    For,
    Goto,
    If,
    Inline,
    Int,
    Long,
    Register,
    Restrict,
    Return,
    Short,
    Signed,
    Sizeof,
    Static,
    Struct,
    Switch,
    Typedef,
    Union,
    Unsigned,
    Void,
    Volatile,
    While,
    Alignas,
    Alignof,
    Atomic,
    Bool,
    Complex,
    Generic,
    Imaginary,
    Noreturn,
    StaticAssert,
    ThreadLocal,
    Asm,
}

impl Keyword {
    /// How the keyword is spelled.
    pub fn text(self) -> &'static str
        ensures { result.now ≡ keyword_text self }
    {
        match self {
            Keyword::Auto => "auto",
            Keyword::Break => "break",
            Keyword::Case => "case",
            Keyword::Char => "char",
            Keyword::Const => "const",
            Keyword::Continue => "continue",
            Keyword::Default => "default",
            Keyword::Do => "do",
            Keyword::Double => "double",
            Keyword::Else => "else",
            Keyword::Enum => "enum",
            Keyword::Extern => "extern",
            Keyword::Float => "float",
            Keyword::For => "for",
            Keyword::Goto => "goto",
            Keyword::If => "if",
            Keyword::Inline => "inline",
            Keyword::Int => "int",
            Keyword::Long => "long",
            Keyword::Register => "register",
            Keyword::Restrict => "restrict",
            Keyword::Return => "return",
            Keyword::Short => "short",
            Keyword::Signed => "signed",
            Keyword::Sizeof => "sizeof",
            Keyword::Static => "static",
            Keyword::Struct => "struct",
            Keyword::Switch => "switch",
            Keyword::Typedef => "typedef",
            Keyword::Union => "union",
            Keyword::Unsigned => "unsigned",
            Keyword::Void => "void",
            Keyword::Volatile => "volatile",
            Keyword::While => "while",
            Keyword::Alignas => "_Alignas",
            Keyword::Alignof => "_Alignof",
            Keyword::Atomic => "_Atomic",
            Keyword::Bool => "_Bool",
            Keyword::Complex => "_Complex",
            Keyword::Generic => "_Generic",
            Keyword::Imaginary => "_Imaginary",
            Keyword::Noreturn => "_Noreturn",
            Keyword::StaticAssert => "_Static_assert",
            Keyword::ThreadLocal => "_Thread_local",
            Keyword::Asm => "asm",
        }
    }

    /// The keywords that begin with a byte.
    fn beginning_with(first: u8) -> &'static [Keyword]
        ensures { result.now ≡ keywords_from first }
    {
        match first {
            b'a' => &[Keyword::Auto, Keyword::Asm],
            b'b' => &[Keyword::Break],
            b'c' => &[
                Keyword::Case,
                Keyword::Char,
                Keyword::Const,
                Keyword::Continue,
            ],
            b'd' => &[Keyword::Default, Keyword::Do, Keyword::Double],
            b'e' => &[Keyword::Else, Keyword::Enum, Keyword::Extern],
            b'f' => &[Keyword::Float, Keyword::For],
            b'g' => &[Keyword::Goto],
            b'i' => &[Keyword::If, Keyword::Inline, Keyword::Int],
            b'l' => &[Keyword::Long],
            b'r' => &[Keyword::Register, Keyword::Restrict, Keyword::Return],
            b's' => &[
                Keyword::Short,
                Keyword::Signed,
                Keyword::Sizeof,
                Keyword::Static,
                Keyword::Struct,
                Keyword::Switch,
            ],
            b't' => &[Keyword::Typedef],
            b'u' => &[Keyword::Union, Keyword::Unsigned],
            b'v' => &[Keyword::Void, Keyword::Volatile],
            b'w' => &[Keyword::While],
            b'_' => &[
                Keyword::Alignas,
                Keyword::Alignof,
                Keyword::Atomic,
                Keyword::Bool,
                Keyword::Complex,
                Keyword::Generic,
                Keyword::Imaginary,
                Keyword::Noreturn,
                Keyword::StaticAssert,
                Keyword::ThreadLocal,
            ],
            _ => &[],
        }
    }

    /// The keyword that is spelled so.
    pub fn from_spelling(word: &[u8]) -> Option<Self>
        ensures found { IfSome result (λ keyword. word.now ≡ keyword_text keyword) }
        ensures none { IfNone result ((keyword : Keyword) → word.now ≢ keyword_text keyword) }
    {
        for keyword in Keyword::beginning_with(byte_at(word, 0)) {
            if keyword.text().as_bytes() == word {
                return Some(*keyword);
            }
        }
        None
    }
}
