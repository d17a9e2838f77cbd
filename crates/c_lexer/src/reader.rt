ghost use Rattle.std.specs.Prelude.{◌≡◌, ℕ, ◌+◌, ◌-◌, ◌^◌, ◌≤◌, ◌<◌, List, [], ◌∷◌, ◌++◌, length, take, drop};
ghost use Rattle.std.specs.Prelude.{slice_range, Option, IfOk, IfErr};
ghost use Rattle.rc_text.specs.declared.place.Place.{Place};
ghost use Rattle.c_lexer.specs.declared.token.TokenKind.{TokenKind};
ghost use Rattle.c_lexer.specs.Directives.{directive_macro, directive_declaration, HasName};
ghost use Rattle.c_lexer.specs.declared.token.TokenKind.TheVariants as kinds;
ghost use Rattle.c_lexer.specs.Elements.{Element, SingleToken, first_of, replaced, kept_text, include_by};
ghost use Rattle.c_lexer.specs.Files.{Opens, token_limit};
ghost use Rattle.c_lexer.specs.Scanning.Directives.{AreWithin, directive_in};
ghost use Rattle.c_lexer.specs.Scanning.Elements.{StandWithin, kind_in, CanOpen};
ghost use Rattle.c_lexer.specs.Scanning.Names.{kind_of, meaning_in};
ghost use Rattle.c_lexer.specs.Scanning.Reading.{includes_at, HasRead, Keeps, Stands, Refuses, Concludes};
ghost use Rattle.c_lexer.specs.declared.token.Token.{Token};

use crate::directive::{DirectiveKind, name_behind};
use crate::element::{Found, FoundKind, element};
use crate::fault::{LexFault, LexFaultKind, LexRefusal};
use crate::includes::Includes;
use crate::names::Names;
use crate::place::{after_byte, after_text, has_line_feed};
use crate::punctuator::Punctuator;
use crate::scanner::Unread;
use crate::token::{Token, TokenKind};
use crate::tokens::Tokens;
use rc_text::{Bytes, NoMemory, Place};
use std::alloc::Global;

/// The most tokens that a file may have.
pub const TOKEN_LIMIT: usize = 200000;

/// What was read of a file so far.
#[derive(Drop)]
pub(crate) struct Reader {
    /// Where the next element begins.
    pub place: Place,
    /// Whether no token and no directive stands on the line so far.
    pub fresh: bool,
    pub names: Names,
    /// The tokens so far, as long as they are no more than one over the limit.
    pub tokens: Vec<Token>,
    pub includes: Includes,
}

impl Reader {
    /// Nothing is read.
    pub(crate) fn new(alloc: Global) -> Self
        ensures { HasRead [] result }
    {
        Reader {
            place: Place::START,
            fresh: true,
            names: Names::new(alloc),
            tokens: Vec::new(alloc),
            includes: Includes::new(alloc),
        }
    }

    /// Reads the element that stands at the reader's place.
    pub(crate) fn read(&mut self, alloc: Global, bytes: &[u8]) -> Result<(), LexRefusal>
        requires fits { length bytes.now ≤ 2 ^ 31 }
        requires stands { Stands bytes.now self.old }
        requires some { self.old.place.byte < length bytes.now }
        ensures stands { IfOk result (λ _. Stands bytes.now self.new × (self.old.place.byte < self.new.place.byte)) }
        ensures refuses { IfErr result (Refuses bytes.now) }
    {
        let first = bytes[self.place.byte as usize];
        match Punctuator::alone(first) {
            Some(punctuator) => {
                self.add_alone(alloc, first, punctuator)?;
                Ok(())
            }
            None => self.read_element(alloc, bytes),
        }
    }

    /// Adds the punctuator that the byte at the reader's place is.
    fn add_alone(&mut self, alloc: Global, byte: u8, punctuator: Punctuator) -> Result<(), NoMemory>
        requires room { self.old.place.byte < 2 ^ 31 }
        requires line { self.old.place.line ≤ self.old.place.byte + 1 }
        requires column { self.old.place.column ≤ self.old.place.byte + 1 }
        ensures { (elements : List Element) → HasRead elements self.old
            → IfOk result (λ _. HasRead (record {
              kind = SingleToken (kinds.Punctuator punctuator);
              text = byte ∷ [];
            } ∷ elements) self.new) }
    {
        let after = after_byte(self.place, byte);
        self.add_token(alloc, &[byte], TokenKind::Punctuator(punctuator))?;
        self.fresh = false;
        self.place = after;
        Ok(())
    }

    /// Reads the element that stands at the reader's place, whatever it is.
    fn read_element(&mut self, alloc: Global, bytes: &[u8]) -> Result<(), LexRefusal>
        requires fits { length bytes.now ≤ 2 ^ 31 }
        requires stands { Stands bytes.now self.old }
        requires some { self.old.place.byte < length bytes.now }
        ensures stands { IfOk result (λ _. Stands bytes.now self.new × (self.old.place.byte < self.new.place.byte)) }
        ensures refuses { IfErr result (Refuses bytes.now) }
    {
        let rest = &bytes[self.place.byte as usize..];
        match element(rest, self.fresh) {
            Ok(found) => {
                self.add(alloc, rest, found)?;
                Ok(())
            }
            Err(unread) => {
                let kind = fault_kind(alloc, rest, unread)?;
                Err(LexRefusal::Fault(LexFault {
                    place: self.place,
                    kind,
                }))
            }
        }
    }

    /// Adds an element that begins the bytes at the reader's place.
    fn add(&mut self, alloc: Global, rest: &[u8], found: Found) -> Result<(), NoMemory>
        requires within { found.length ≤ length rest.now }
        requires some { 0 < found.length }
        requires places { StandWithin found.kind (length rest.now - 1) }
        requires room { self.old.place.byte + found.length ≤ 2 ^ 31 }
        requires line { self.old.place.line ≤ self.old.place.byte + 1 }
        requires column { self.old.place.column ≤ self.old.place.byte + 1 }
        ensures { (elements : List Element) → HasRead elements self.old
            → IfOk result (λ _. HasRead (record {
              kind = kind_in rest.now found.kind;
              text = take found.length rest.now;
            } ∷ elements) self.new) }
    {
        let text = &rest[..found.length];
        let after = after_text(self.place, text);
        match found.kind {
            FoundKind::Blank => {
                self.fresh = has_line_feed(text) || self.fresh;
                self.place = after;
                Ok(())
            }
            FoundKind::Comment => {
                self.fresh = has_line_feed(text) || self.fresh;
                self.place = after;
                Ok(())
            }
            FoundKind::DirectiveLine(directive) => {
                self.add_directive(alloc, &rest[1..], directive)?;
                self.fresh = false;
                self.place = after;
                Ok(())
            }
            FoundKind::SingleToken(kind) => {
                self.add_token(alloc, text, kind)?;
                self.fresh = false;
                self.place = after;
                Ok(())
            }
        }
    }

    fn add_token(&mut self, alloc: Global, text: &[u8], kind: TokenKind) -> Result<(), NoMemory>
        ensures added { IfOk result (λ _. (tokens : List Token) → Keeps self.old.tokens.items tokens
            → Keeps self.new.tokens.items (tokens ++ record {
              kind = replaced (meaning_in self.old.names text.now) kind;
              place = self.old.place;
              text = kept_text (replaced (meaning_in self.old.names text.now) kind) text.now;
            } ∷ [])) }
        ensures includes { IfOk result (λ _. (next : Place)
            → includes_at self.new.includes next ≡ includes_at self.old.includes self.old.place) }
        ensures kept { IfOk result (λ _. (self.new.place ≡ self.old.place) × (self.new.names ≡ self.old.names)) }
    {
        self.includes.reach(self.place)?;
        if self.tokens.len() <= TOKEN_LIMIT {
            let kind = self.names.kind_of(text, kind);
            self.tokens.push(Token {
                kind,
                place: self.place,
                text: kept_text(alloc, kind, text)?,
            })?;
        }
        Ok(())
    }

    /// Adds a directive, whose name, where it has one, stands in the bytes.
    #[inline(never)]
    fn add_directive(
        &mut self,
        alloc: Global,
        rest: &[u8],
        directive: DirectiveKind,
    ) -> Result<(), NoMemory>
        requires { AreWithin directive (length rest.now) }
        ensures macros { IfOk result (λ _. (name : List ℕ) → kind_of self.new.names.macros name
            ≡ first_of (directive_macro (directive_in rest.now directive) name) (kind_of self.old.names.macros name)) }
        ensures declarations { IfOk result (λ _. (name : List ℕ) → kind_of self.new.names.declarations name
            ≡ first_of (directive_declaration (directive_in rest.now directive) name)
            (kind_of self.old.names.declarations name)) }
        ensures includes { IfOk result (λ _. (next : Place) → includes_at self.new.includes next
            ≡ includes_at self.old.includes next ++ include_by (directive_in rest.now directive) next) }
        ensures kept { IfOk result (λ _. (self.new.place ≡ self.old.place) × (self.new.tokens ≡ self.old.tokens)) }
    {
        match directive {
            DirectiveKind::Include(header) => {
                self.includes.add(header)?;
                self.names.include(alloc, header)
            }
            DirectiveKind::Define(definition) => {
                let name = &rest[definition.start..definition.end];
                self.names.define(alloc, name, definition.kind)
            }
        }
    }

    /// The tokens of the file, of which all was read, or that they are too many.
    pub(crate) fn finish(self) -> Result<Tokens, LexRefusal>
        ensures { (elements : List Element) → HasRead elements self → Concludes elements result }
    {
        if self.tokens.len() > TOKEN_LIMIT {
            return Err(LexRefusal::TokenLimit);
        }
        let includes = self.includes.at_end(self.place)?;
        Ok(Tokens::new(self.tokens, includes, self.place))
    }
}

/// The text that a token of a kind keeps.
fn kept_text(alloc: Global, kind: TokenKind, text: &[u8]) -> Result<Bytes, NoMemory>
    ensures { IfOk result (λ kept. kept ≡ kept_text kind text.now) }
{
    match kind {
        TokenKind::Identifier
        | TokenKind::HeaderType(_)
        | TokenKind::AtomicOperation(_)
        | TokenKind::StringLiteral => Bytes::from_slice(alloc, text),
        TokenKind::Keyword(_)
        | TokenKind::Integer(_)
        | TokenKind::Floating
        | TokenKind::Character(_)
        | TokenKind::Punctuator(_)
        | TokenKind::NullPointer => Ok(Bytes::new(alloc)),
    }
}

/// The fault where no element begins the bytes.
#[inline(never)]
fn fault_kind(alloc: Global, bytes: &[u8], unread: Unread) -> Result<LexFaultKind, NoMemory>
    requires { CanOpen unread bytes.now }
    ensures { IfOk result (λ kind. Opens kind bytes.now) }
{
    match unread {
        Unread::Byte => Ok(LexFaultKind::BadByte),
        Unread::Comment => Ok(LexFaultKind::OpenComment),
        Unread::Text => Ok(LexFaultKind::OpenString),
        Unread::Number => Ok(LexFaultKind::BadNumber),
        Unread::Directive => {
            let name = directive_name(alloc, &bytes[1..])?;
            Ok(LexFaultKind::Directive(name))
        }
    }
}

/// The identifier or keyword behind a `#`.
fn directive_name(alloc: Global, bytes: &[u8]) -> Result<Option<Bytes>, NoMemory>
    ensures { IfOk result (λ name. HasName bytes.now name) }
{
    match name_behind(bytes) {
        Some((start, end)) => {
            let name = Bytes::from_slice(alloc, &bytes[start..end])?;
            Ok(Some(name))
        }
        None => Ok(None),
    }
}
