ghost use Rattle.std.specs.Prelude.{◌≡◌, ℕ, List, Option, Some, None, IfOk, if◌then◌else◌};
ghost use Rattle.std.specs.Str.{bytes_eq};
ghost use Rattle.c_lexer.specs.declared.token.TokenKind.{TokenKind};
ghost use Rattle.c_lexer.specs.Elements.{first_of};
ghost use Rattle.c_lexer.specs.Headers.{header_macros, header_declarations, kind_among, plain_decimal};
ghost use Rattle.c_lexer.specs.Scanning.Names.{kind_of};
ghost use Rattle.c_lexer.specs.declared.header.Header.TheVariants as headers;

use crate::atomic_operation::AtomicOperation;
use crate::header::Header;
use crate::header_type::HeaderType;
use crate::keyword::Keyword;
use crate::token::{IntegerBase, IntegerConstant, IntegerSuffix, TokenKind};
use rc_text::NoMemory;
use std::alloc::Global;
use std::collections::BTreeMap;

/// A table of names, each with a kind of token.
#[derive(Drop)]
pub(crate) struct Kinds {
    pub by_name: BTreeMap<Vec<u8>, TokenKind>,
}

impl Kinds {
    pub(crate) fn new(alloc: Global) -> Self
        ensures { (name : List ℕ) → kind_of result name ≡ None }
    {
        Kinds {
            by_name: BTreeMap::new(alloc),
        }
    }

    /// The kind of a name, if it has one.
    pub(crate) fn get(&self, name: &[u8]) -> Option<TokenKind>
        ensures { result ≡ kind_of self.now name.now }
    {
        self.by_name.get(name).copied()
    }

    /// Gives a name a kind, in place of what it had.
    pub(crate) fn define(
        &mut self,
        alloc: Global,
        name: &[u8],
        kind: TokenKind,
    ) -> Result<(), NoMemory>
        ensures { IfOk result (λ _. (other : List ℕ)
            → kind_of self.new other ≡ (if bytes_eq name.now other then Some kind else kind_of self.old other)) }
    {
        let key = Vec::from_slice(alloc, name)?;
        self.by_name.insert(key, kind)?;
        Ok(())
    }

    /// Gives the names of a header's macros what they stand for.
    pub(crate) fn include_macros(&mut self, alloc: Global, header: Header) -> Result<(), NoMemory>
        ensures { IfOk result (λ _. (name : List ℕ)
            → kind_of self.new name ≡ first_of (kind_among (header_macros header) name) (kind_of self.old name)) }
    {
        match header {
            Header::Stddef => self.define(alloc, b"NULL", TokenKind::NullPointer),
            Header::Stdbool => self.include_stdbool(alloc),
            Header::Stdint | Header::Stdatomic | Header::Refinedc => Ok(()),
        }
    }

    fn include_stdbool(&mut self, alloc: Global) -> Result<(), NoMemory>
        ensures { IfOk result (λ _. (name : List ℕ) → kind_of self.new name
            ≡ first_of (kind_among (header_macros headers.Stdbool) name) (kind_of self.old name)) }
    {
        self.define(alloc, b"false", TokenKind::Integer(plain_decimal(0)))?;
        self.define(alloc, b"true", TokenKind::Integer(plain_decimal(1)))?;
        self.define(alloc, b"bool", TokenKind::Keyword(Keyword::Bool))
    }

    /// Gives the names that a header declares their kinds.
    pub(crate) fn include_declarations(
        &mut self,
        alloc: Global,
        header: Header,
    ) -> Result<(), NoMemory>
        ensures { IfOk result (λ _. (name : List ℕ)
            → kind_of self.new name ≡ first_of (kind_among (header_declarations header) name) (kind_of self.old name)) }
    {
        match header {
            Header::Stddef => {
                self.define(alloc, b"size_t", TokenKind::HeaderType(HeaderType::Size))
            }
            Header::Stdint => self.include_stdint(alloc),
            Header::Stdatomic => self.include_stdatomic(alloc),
            Header::Stdbool | Header::Refinedc => Ok(()),
        }
    }

    fn include_stdint(&mut self, alloc: Global) -> Result<(), NoMemory>
        ensures { IfOk result (λ _. (name : List ℕ) → kind_of self.new name
            ≡ first_of (kind_among (header_declarations headers.Stdint) name) (kind_of self.old name)) }
    {
        self.define(
            alloc,
            b"uint64_t",
            TokenKind::HeaderType(HeaderType::Uint64),
        )?;
        self.define(
            alloc,
            b"uint32_t",
            TokenKind::HeaderType(HeaderType::Uint32),
        )?;
        self.define(
            alloc,
            b"uint16_t",
            TokenKind::HeaderType(HeaderType::Uint16),
        )?;
        self.define(alloc, b"uint8_t", TokenKind::HeaderType(HeaderType::Uint8))?;
        self.define(alloc, b"int64_t", TokenKind::HeaderType(HeaderType::Int64))?;
        self.define(alloc, b"int32_t", TokenKind::HeaderType(HeaderType::Int32))?;
        self.define(alloc, b"int16_t", TokenKind::HeaderType(HeaderType::Int16))?;
        self.define(alloc, b"int8_t", TokenKind::HeaderType(HeaderType::Int8))
    }

    fn include_stdatomic(&mut self, alloc: Global) -> Result<(), NoMemory>
        ensures { IfOk result (λ _. (name : List ℕ) → kind_of self.new name
            ≡ first_of (kind_among (header_declarations headers.Stdatomic) name) (kind_of self.old name)) }
    {
        self.define(
            alloc,
            b"atomic_compare_exchange_strong",
            TokenKind::AtomicOperation(AtomicOperation::CompareExchangeStrong),
        )?;
        self.define(
            alloc,
            b"atomic_exchange",
            TokenKind::AtomicOperation(AtomicOperation::Exchange),
        )?;
        self.define(
            alloc,
            b"atomic_store",
            TokenKind::AtomicOperation(AtomicOperation::Store),
        )?;
        self.define(
            alloc,
            b"atomic_load",
            TokenKind::AtomicOperation(AtomicOperation::Load),
        )?;
        self.define(
            alloc,
            b"atomic_bool",
            TokenKind::HeaderType(HeaderType::AtomicBool),
        )
    }
}

/// A decimal constant without a suffix.
fn plain_decimal(value: u128) -> IntegerConstant
    ensures { result ≡ plain_decimal value }
{
    IntegerConstant {
        value,
        base: IntegerBase::Decimal,
        suffix: IntegerSuffix::Plain,
    }
}
