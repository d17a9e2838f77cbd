ghost use Rattle.std.specs.Prelude.{◌≡◌};
ghost use Rattle.c_cursor.specs.Refusals.{left_out_text, left_out_keyword, left_out_token, left_out_operand};

use c_lexer::{Keyword, TokenKind};

/// A form of C that the profile leaves out, and whose use is refused by its name.
#[derive(Clone, Copy, Debug, PartialEq, Eq, Hash)]
pub enum LeftOut {
    /// A keyword of C11, or `asm`.
    Keyword(Keyword),
    /// `(` `*` in a declarator.
    FunctionPointer,
    BraceInitializer,
    BitField,
    Variadic,
    StringLiteral,
    FloatingConstant,
    /// An object at file scope, or `static` or `extern` inside a function.
    FileObject,
}

impl LeftOut {
    /// The name of the form.
    pub fn text(self) -> &'static str
        ensures { result.now ≡ left_out_text self }
    {
        match self {
            LeftOut::Keyword(keyword) => keyword.text(),
            LeftOut::FunctionPointer => "function pointer",
            LeftOut::BraceInitializer => "brace initialiser",
            LeftOut::BitField => "bit field",
            LeftOut::Variadic => "variadic",
            LeftOut::StringLiteral => "string literal",
            LeftOut::FloatingConstant => "floating constant",
            LeftOut::FileObject => "file object",
        }
    }

    /// What a token of this kind begins wherever it stands, where that is left out by name.
    pub fn beginning_with(kind: TokenKind) -> Option<LeftOut>
        ensures { result ≡ left_out_token kind }
    {
        match kind {
            TokenKind::Keyword(keyword) => LeftOut::keyword(keyword),
            TokenKind::Floating => Some(LeftOut::FloatingConstant),
            _ => None,
        }
    }

    /// The same where an operand of an expression may begin.
    pub fn operand(kind: TokenKind) -> Option<LeftOut>
        ensures { result ≡ left_out_operand kind }
    {
        match kind {
            TokenKind::StringLiteral => Some(LeftOut::StringLiteral),
            _ => LeftOut::beginning_with(kind),
        }
    }

    fn keyword(keyword: Keyword) -> Option<LeftOut>
        ensures { result ≡ left_out_keyword keyword }
    {
        match keyword {
            Keyword::Goto
            | Keyword::Float
            | Keyword::Double
            | Keyword::Volatile
            | Keyword::Complex
            | Keyword::Generic
            | Keyword::ThreadLocal
            | Keyword::Asm => Some(LeftOut::Keyword(keyword)),
            _ => None,
        }
    }
}
