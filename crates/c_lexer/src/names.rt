ghost use Rattle.std.specs.Prelude.{◌≡◌, ℕ, List, Some, None, IfOk, if◌then◌else◌};
ghost use Rattle.std.specs.Str.{bytes_eq};
ghost use Rattle.c_lexer.specs.Elements.{first_of, replaced};
ghost use Rattle.c_lexer.specs.Headers.{header_macros, header_declarations, kind_among};
ghost use Rattle.c_lexer.specs.Scanning.Names.{kind_of, meaning_in};

use crate::header::Header;
use crate::kinds::Kinds;
use crate::token::TokenKind;
use rc_text::NoMemory;
use std::alloc::Global;

/// What names stand for: macros, and behind them what headers declare.
#[derive(Drop)]
pub(crate) struct Names {
    pub macros: Kinds,
    pub declarations: Kinds,
}

impl Names {
    pub(crate) fn new(alloc: Global) -> Self
        ensures macros { (name : List ℕ) → kind_of result.macros name ≡ None }
        ensures declarations { (name : List ℕ) → kind_of result.declarations name ≡ None }
    {
        Names {
            macros: Kinds::new(alloc),
            declarations: Kinds::new(alloc),
        }
    }

    /// What a name stands for, if it stands for anything.
    pub(crate) fn get(&self, name: &[u8]) -> Option<TokenKind>
        ensures { result ≡ meaning_in self.now name.now }
    {
        match self.macros.get(name) {
            Some(kind) => Some(kind),
            None => self.declarations.get(name),
        }
    }

    /// The kind of a token with this spelling, which counts where it is a name.
    pub(crate) fn kind_of(&self, text: &[u8], kind: TokenKind) -> TokenKind
        ensures { result ≡ replaced (meaning_in self.now text.now) kind }
    {
        match kind {
            TokenKind::Identifier => self.get(text).unwrap_or(kind),
            TokenKind::HeaderType(_)
            | TokenKind::AtomicOperation(_)
            | TokenKind::Keyword(_)
            | TokenKind::Integer(_)
            | TokenKind::Floating
            | TokenKind::Character(_)
            | TokenKind::StringLiteral
            | TokenKind::Punctuator(_)
            | TokenKind::NullPointer => kind,
        }
    }

    /// Lets a name stand for a token of the kind.
    pub(crate) fn define(
        &mut self,
        alloc: Global,
        name: &[u8],
        kind: TokenKind,
    ) -> Result<(), NoMemory>
        ensures macros { IfOk result (λ _. (other : List ℕ) → kind_of self.new.macros other
            ≡ (if bytes_eq name.now other then Some kind else kind_of self.old.macros other)) }
        ensures declarations { self.new.declarations ≡ self.old.declarations }
    {
        self.macros.define(alloc, name, kind)
    }

    /// Takes up what a header gives.
    pub(crate) fn include(&mut self, alloc: Global, header: Header) -> Result<(), NoMemory>
        ensures macros { IfOk result (λ _. (name : List ℕ) → kind_of self.new.macros name
            ≡ first_of (kind_among (header_macros header) name) (kind_of self.old.macros name)) }
        ensures declarations { IfOk result (λ _. (name : List ℕ) → kind_of self.new.declarations name
            ≡ first_of (kind_among (header_declarations header) name) (kind_of self.old.declarations name)) }
    {
        self.macros.include_macros(alloc, header)?;
        self.declarations.include_declarations(alloc, header)
    }
}
