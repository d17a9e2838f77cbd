ghost use Rattle.std.specs.Prelude.{◌≡◌, ◌-◌, suc, length, drop, IfOk};
ghost use Rattle.std.specs.Option.{is_some};
ghost use Rattle.c_grammar.specs.Input.{mark, identifier, is_identifier, declares, name_of};
ghost use Rattle.c_grammar.specs.Attributes.{string, quoted};
ghost use Rattle.c_grammar.specs.Marks.{is_mark, is_keyword};
ghost use Rattle.c_grammar.specs.Names.{word_of};
ghost use Rattle.c_grammar.specs.Operators.{start, start_by, behind};
ghost use Rattle.c_grammar.specs.Reading.{turns, begins_type, begins_cast};
ghost use Rattle.c_grammar.specs.Specifiers.{word, type_start, type_by};
ghost use Rattle.c_grammar.specs.Statements.{keyword, place_of};
ghost use Rattle.c_cursor.specs.Cursor.{skipped, is_string, keyword_of, IsNext, Marks, FindsName, FindsText, FindsWord};
ghost use Rattle.c_cursor.specs.Cursor.{BeginsType, Begins, GoesOn, name_seen};
ghost use Rattle.c_lexer.specs.declared.punctuator.Punctuator.TheVariants as marks;
ghost use Rattle.c_cursor.specs.Starts.{type_seen, start_seen};
ghost use Rattle.c_cursor.specs.Reads.{IsRefusal, Expects, Keeps};
ghost use Rattle.c_cursor.specs.Words.{test_of};

use crate::infix::Infix;
use crate::left_out::LeftOut;
use crate::names::Names;
use crate::refusal::ParseRefusal;
use crate::starts::{Start, TypeStart, is_type, start_by, type_by, word_of};
use crate::type_words::WordTest;
use c_grammar::NameKind;
use c_lexer::{Keyword, Punctuator, Token, TokenKind};
use c_syntax::Name;
use rc_text::{Bytes, NoMemory, Place};
use std::alloc::Global;
use std::marker::Model;

/// The tokens that are left to be read, the names in scope, and where the file ends. Contracts see the first two.
#[derive(Debug, Drop)]
pub struct Cursor<'a> {
    tokens: &'a [Token],
    names: Names,
    end: Place,
}

impl<'a> Model for Cursor<'a> {
    ghost use Rattle.c_grammar.specs.Input.{Input};

    ghost Value = { Input };

    ghost view = { λ cursor. record { tokens = cursor.tokens.now; names = cursor.names } };
}

/// An identifier where it stands.
#[derive(Clone, Copy)]
pub struct Identifier<'a> {
    pub place: Place,
    pub text: &'a [u8],
}

impl<'a> Identifier<'a> {
    pub fn to_name(self, alloc: Global) -> Result<Name, ParseRefusal>
        ensures { Keeps (name_seen self.entry) result }
    {
        Ok(Name {
            place: self.place,
            text: Bytes::from_slice(alloc, self.text)?,
        })
    }
}

/// A string where it stands, without its quotes.
#[derive(Clone, Copy)]
pub struct Quoted<'a> {
    pub place: Place,
    pub text: &'a [u8],
}

/// The first token of an expression, and where it stands.
#[derive(Clone, Copy)]
pub struct FirstToken<'a> {
    pub start: Start<'a>,
    pub place: Place,
}

impl<'a> Cursor<'a> {
    pub fn new(tokens: &'a [Token], names: Names, end: Place) -> Self
        ensures { result ≡ record { tokens = tokens.now; names = names } }
    {
        Cursor { tokens, names, end }
    }

    /// How many turns a loop over the rest takes at most.
    pub fn turns(&self) -> usize
        ensures { result ≡ turns self.now }
    {
        self.tokens.len()
    }

    /// One turn more.
    pub fn turns_and_one(&self) -> usize
        ensures { result ≡ suc (turns self.now) }
    {
        self.tokens.len() + 1
    }

    /// The tokens that are left.
    pub fn rest(&self) -> &'a [Token]
        ensures { result.now ≡ self.now.tokens }
    {
        self.tokens
    }

    /// The next token.
    pub fn peek(&self) -> Option<&'a Token>
        ensures { IsNext self.now result }
    {
        match self.tokens.split_first() {
            Some((token, _)) => Some(token),
            None => None,
        }
    }

    /// Goes past the next token, if there is one.
    pub fn skip(&mut self)
        ensures { self.new ≡ skipped self.old }
    {
        if let Some((_, rest)) = self.tokens.split_first() {
            self.tokens = rest;
        }
    }

    /// Whether a punctuator stands next.
    #[tactic(auto, unfolding(c_grammar::specs::Input::mark))]
    pub fn is_next(&self, punctuator: Punctuator) -> bool
        ensures { result ≡ is_some (mark punctuator self.now) }
    {
        match self.peek() {
            Some(token) => is_mark(punctuator, token.kind),
            None => false,
        }
    }

    /// Goes past a punctuator, if it stands next.
    #[tactic(auto, unfolding(c_grammar::specs::Input::mark))]
    pub fn mark(&mut self, punctuator: Punctuator) -> bool
        ensures { Marks (mark punctuator self.old) self.old result self.new }
    {
        match self.peek() {
            Some(token) if is_mark(punctuator, token.kind) => {
                self.skip();
                true
            }
            _ => false,
        }
    }

    /// Goes past an identifier, if one stands next.
    #[tactic(auto, unfolding(c_grammar::specs::Input::identifier))]
    pub fn identifier(&mut self) -> Option<Identifier<'a>>
        ensures { FindsName (identifier self.old) self.old result self.new }
    {
        match self.peek() {
            Some(token) if is_identifier(token.kind) => {
                self.skip();
                Some(Identifier {
                    place: token.place,
                    text: token.text.as_slice(),
                })
            }
            _ => None,
        }
    }

    /// Goes past a string, if one stands next.
    #[tactic(auto, unfolding(c_grammar::specs::Attributes::string))]
    pub fn string(&mut self) -> Option<Quoted<'a>>
        ensures { FindsText (string self.old) self.old result self.new }
    {
        match self.peek() {
            Some(token) if is_string(token.kind) => {
                self.skip();
                Some(Quoted {
                    place: token.place,
                    text: inside(token.text.as_slice()),
                })
            }
            _ => None,
        }
    }

    /// Goes past a keyword, if one stands next that passes the test.
    #[tactic(auto, unfolding(c_grammar::specs::Specifiers::word))]
    pub fn word(&mut self, test: WordTest) -> Option<Keyword>
        ensures { FindsWord (word (test_of test) self.old) self.old result self.new }
    {
        match self.peek() {
            Some(token) => match keyword(token.kind) {
                Some(word) if test.holds(word) => {
                    self.skip();
                    Some(word)
                }
                _ => None,
            },
            None => None,
        }
    }

    /// Goes past this keyword, if it stands next.
    #[tactic(auto, unfolding(c_grammar::specs::Statements::keyword))]
    pub fn keyword(&mut self, word: Keyword) -> bool
        ensures { Marks (keyword word self.old) self.old result self.new }
    {
        match self.peek() {
            Some(token) if is_keyword(word, token.kind) => {
                self.skip();
                true
            }
            _ => false,
        }
    }

    /// Where the next token stands, if there is one.
    #[tactic(auto, unfolding(c_grammar::specs::Statements::place_of))]
    pub fn next_place(&self) -> Option<Place>
        ensures { result ≡ place_of self.now }
    {
        match self.peek() {
            Some(token) => Some(token.place),
            None => None,
        }
    }

    /// What the next token is as the first one of a type.
    #[tactic(auto, unfolding(c_grammar::specs::Specifiers::type_start))]
    pub fn type_start(&self) -> Option<TypeStart<'a>>
        ensures { BeginsType (type_start self.now) (skipped self.now) result }
    {
        match self.peek() {
            Some(token) => Some(self.type_at(token)),
            None => None,
        }
    }

    fn type_at(&self, token: &'a Token) -> TypeStart<'a>
        ensures { type_seen result ≡ type_by token.now.kind (word_of self.now.names token.now) (name_of token.now) }
    {
        let text = token.text.as_slice();
        let word = word_of(&self.names, token.kind, text);
        type_by(token.kind, word, token.place, text)
    }

    /// Whether a type begins at the next token.
    #[tactic(auto, unfolding(c_grammar::specs::Reading::begins_type))]
    pub fn begins_type(&self) -> bool
        ensures { result ≡ begins_type self.now }
    {
        match self.type_start() {
            Some(start) => is_type(start),
            None => false,
        }
    }

    /// The token behind the next one.
    fn second(&self) -> Option<&'a Token>
        ensures { IsNext (skipped self.now) result }
    {
        match self.tokens.split_first() {
            Some((_, rest)) => match rest.split_first() {
                Some((token, _)) => Some(token),
                None => None,
            },
            None => None,
        }
    }

    /// Whether a type begins behind the next token.
    #[tactic(auto, unfolding(c_grammar::specs::Reading::begins_type, c_grammar::specs::Specifiers::type_start))]
    fn type_behind(&self) -> bool
        ensures { result ≡ begins_type (skipped self.now) }
    {
        match self.second() {
            Some(token) => is_type(self.type_at(token)),
            None => false,
        }
    }

    /// Whether a parenthesis stands next, and behind it the beginning of a type.
    #[tactic(auto, unfolding(c_grammar::specs::Reading::begins_cast, c_grammar::specs::Input::mark))]
    pub fn begins_cast(&self) -> bool
        ensures { result ≡ begins_cast self.now }
    {
        match self.peek() {
            Some(token) if is_mark(Punctuator::OpenParenthesis, token.kind) => self.type_behind(),
            _ => false,
        }
    }

    /// What the next token is as the first one of an expression.
    #[tactic(auto, unfolding(c_grammar::specs::Operators::start))]
    pub fn start(&self) -> Option<FirstToken<'a>>
        ensures { Begins (start self.now) (skipped self.now) result }
    {
        match self.peek() {
            Some(token) => Some(FirstToken {
                start: self.start_at(token),
                place: token.place,
            }),
            None => None,
        }
    }

    fn start_at(&self, token: &'a Token) -> Start<'a>
        ensures { start_seen result ≡ start_by token.now.kind (word_of self.now.names token.now) token.now.text }
    {
        let text = token.text.as_slice();
        start_by(token.kind, word_of(&self.names, token.kind, text), text)
    }

    /// The operator that stands next behind an expression.
    #[tactic(auto, unfolding(c_grammar::specs::Operators::behind))]
    pub fn infix(&self) -> Option<Infix>
        ensures { GoesOn (behind self.now) (skipped self.now) result }
    {
        match self.peek() {
            Some(token) => Infix::of(token.kind),
            None => None,
        }
    }

    /// Brings a name into scope.
    pub fn declare(&mut self, alloc: Global, name: &[u8], kind: NameKind) -> Result<(), NoMemory>
        ensures { IfOk result (λ _. self.new ≡ declares self.old name.now kind) }
    {
        self.names.declare(alloc, name, kind)
    }

    /// How many declarations are in scope, as `leave` takes it.
    pub fn scope(&self) -> usize
        ensures { result ≡ length self.now.names }
    {
        self.names.len()
    }

    /// Ends a block: of the declarations in scope only the first so many stay.
    pub fn leave(&mut self, scope: usize)
        ensures { self.new ≡ record {
          tokens = self.old.tokens;
          names = drop (length self.old.names - scope) self.old.names;
        } }
    {
        self.names.truncate(scope);
    }

    /// Why nothing goes on at the next token.
    pub fn unexpected(&self) -> ParseRefusal
        ensures { IsRefusal result }
    {
        match self.peek() {
            Some(token) => ParseRefusal::at(token.place, LeftOut::beginning_with(token.kind)),
            None => ParseRefusal::at(self.end, None),
        }
    }

    /// The same where an operand of an expression may begin.
    pub fn unexpected_operand(&self) -> ParseRefusal
        ensures { IsRefusal result }
    {
        match self.peek() {
            Some(token) => ParseRefusal::at(token.place, LeftOut::operand(token.kind)),
            None => ParseRefusal::at(self.end, None),
        }
    }

    /// Why nothing goes on at the token behind the next one.
    pub fn unexpected_behind(&self) -> ParseRefusal
        ensures { IsRefusal result }
    {
        match self.second() {
            Some(token) => ParseRefusal::at(token.place, LeftOut::beginning_with(token.kind)),
            None => ParseRefusal::at(self.end, None),
        }
    }

    /// Goes past the parenthesis behind a type's name.
    pub fn close_type(&mut self) -> Result<(), ParseRefusal>
        ensures { Expects (mark marks.CloseParenthesis self.old) result self.new }
    {
        if self.mark(Punctuator::CloseParenthesis) {
            Ok(())
        } else {
            Err(self.unexpected_declarator())
        }
    }

    /// Why nothing goes on at the next token, where a declarator may begin.
    pub fn unexpected_declarator(&self) -> ParseRefusal
        ensures { IsRefusal result }
    {
        match (self.peek(), self.second()) {
            (Some(token), Some(second))
                if is_mark(Punctuator::OpenParenthesis, token.kind)
                    && is_mark(Punctuator::Star, second.kind) => {
                ParseRefusal::at(token.place, Some(LeftOut::FunctionPointer))
            }
            _ => self.unexpected(),
        }
    }

    /// Goes past a punctuator.
    pub fn expect(&mut self, punctuator: Punctuator) -> Result<(), ParseRefusal>
        ensures { Expects (mark punctuator self.old) result self.new }
    {
        if self.mark(punctuator) {
            Ok(())
        } else {
            Err(self.unexpected())
        }
    }
}

fn is_mark(punctuator: Punctuator, kind: TokenKind) -> bool
    ensures { result ≡ is_mark punctuator kind }
{
    match kind {
        TokenKind::Punctuator(other) => punctuator == other,
        _ => false,
    }
}

fn is_keyword(word: Keyword, kind: TokenKind) -> bool
    ensures { result ≡ is_keyword word kind }
{
    match kind {
        TokenKind::Keyword(other) => word == other,
        _ => false,
    }
}

fn is_identifier(kind: TokenKind) -> bool
    ensures { result ≡ is_identifier kind }
{
    matches!(
        kind,
        TokenKind::Identifier | TokenKind::HeaderType(_) | TokenKind::AtomicOperation(_)
    )
}

fn is_string(kind: TokenKind) -> bool
    ensures { result ≡ is_string kind }
{
    matches!(kind, TokenKind::StringLiteral)
}

fn keyword(kind: TokenKind) -> Option<Keyword>
    ensures { result ≡ keyword_of kind }
{
    match kind {
        TokenKind::Keyword(word) => Some(word),
        _ => None,
    }
}

/// What stands between the quotes of a string.
fn inside(text: &[u8]) -> &[u8]
    ensures { result.now ≡ quoted text.now }
{
    let rest = &text[text.len().min(1)..];
    &rest[..rest.len().saturating_sub(1)]
}
