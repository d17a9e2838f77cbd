ghost use Rattle.std.specs.Prelude.{◌≡◌, length};

use crate::header::Header;
use crate::token::Token;
use rc_text::Place;
use std::marker::Model;

/// A header that is included. `from` is the place of the first token behind the directive, from which on the
/// header's names stand at file scope; behind the last token it is that of the end of the file.
#[derive(Clone, Copy, Debug, PartialEq, Eq)]
pub struct Include {
    pub header: Header,
    pub from: Place,
}

/// The tokens of a file in order, its includes in order, and the place of its end. Contracts see the three.
#[derive(Debug, Drop)]
pub struct Tokens {
    items: Vec<Token>,
    includes: Vec<Include>,
    end: Place,
}

impl Model for Tokens {
    ghost use Rattle.c_lexer.specs.TokenLists.{TokenLists};

    ghost Value = { TokenLists };

    ghost view = { λ tokens. record {
      tokens = tokens.items.items;
      includes = tokens.includes.items;
      end = tokens.end;
    } };
}

impl Tokens {
    pub fn new(items: Vec<Token>, includes: Vec<Include>, end: Place) -> Self
        ensures { result ≡ record { tokens = items.items; includes = includes.items; end = end } }
    {
        Tokens {
            items,
            includes,
            end,
        }
    }

    pub fn into_vec(self) -> Vec<Token>
        ensures { result.items ≡ self.tokens }
    {
        self.items
    }

    pub fn as_slice(&self) -> &[Token]
        ensures { result.now ≡ self.now.tokens }
    {
        self.items.as_slice()
    }

    pub fn len(&self) -> usize
        ensures { result ≡ length self.now.tokens }
    {
        self.items.len()
    }

    /// The headers that were included, in the order of their directives.
    pub fn includes(&self) -> &[Include]
        ensures { result.now ≡ self.now.includes }
    {
        self.includes.as_slice()
    }

    /// The place after the last byte of the file.
    pub fn end(&self) -> Place
        ensures { result ≡ self.now.end }
    {
        self.end
    }
}
