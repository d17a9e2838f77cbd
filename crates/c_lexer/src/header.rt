ghost use Rattle.std.specs.Prelude.{◌≡◌, ◌++◌, List, ℕ, length, IfSome, IfNone};
ghost use Rattle.c_lexer.specs.declared.header.Header.{Header};
ghost use Rattle.c_lexer.specs.Headers.{header_text};

/// A header that a file may include.
#[derive(Clone, Copy, Debug, PartialEq, Eq, Hash)]
pub enum Header {
    Stddef,
    Stdint,
    Stdbool,
    Stdatomic,
    Refinedc,
}

impl Header {
    /// The header whose name, in its brackets, begins the bytes.
    pub(crate) fn at_front(bytes: &[u8]) -> Option<Self>
        ensures found { IfSome result (λ header. (rest : List ℕ) × (bytes.now ≡ header_text header ++ rest)) }
        ensures none { IfNone result ((header : Header) (rest : List ℕ) → bytes.now ≡ header_text header ++ rest → ⊥) }
    {
        if bytes.starts_with(b"<stddef.h>") {
            Some(Header::Stddef)
        } else if bytes.starts_with(b"<stdint.h>") {
            Some(Header::Stdint)
        } else if bytes.starts_with(b"<stdbool.h>") {
            Some(Header::Stdbool)
        } else if bytes.starts_with(b"<stdatomic.h>") {
            Some(Header::Stdatomic)
        } else if bytes.starts_with(b"<refinedc.h>") {
            Some(Header::Refinedc)
        } else {
            None
        }
    }

    /// How many bytes its name has, the brackets included.
    pub(crate) fn length(self) -> usize
        ensures { result ≡ length (header_text self) }
    {
        match self {
            Header::Stddef => 10,
            Header::Stdint => 10,
            Header::Stdbool => 11,
            Header::Stdatomic => 13,
            Header::Refinedc => 12,
        }
    }
}
