//! What the words beside a type say of a declaration (C11 6.7.1), and which types may stand alone.
ghost use Rattle.std.specs.Prelude.{◌≡◌};
ghost use Rattle.c_grammar.specs.Declarations.{agrees, is_typedef, is_local, declares_tag};

use c_cursor::times;
use c_lexer::Keyword;
use c_syntax::TypeSpecifier;

/// Whether the declaration is of types.
pub fn is_typedef(words: &[Keyword]) -> bool
    ensures { result ≡ is_typedef words.now }
{
    times(Keyword::Typedef, words) >= 1
}

/// Whether there is one word of storage at most.
pub fn agrees(words: &[Keyword]) -> bool
    ensures { result ≡ agrees words.now }
{
    let typedefs = times(Keyword::Typedef, words);
    let statics = times(Keyword::Static, words);
    let externs = times(Keyword::Extern, words);
    typedefs.saturating_add(statics).saturating_add(externs) <= 1
}

/// Whether the words may stand in a function.
pub(crate) fn is_local(words: &[Keyword]) -> bool
    ensures { result ≡ is_local words.now }
{
    times(Keyword::Static, words) == 0 && times(Keyword::Extern, words) == 0
}

/// Whether the type declares a struct, union or enumeration, so that it may stand alone.
pub fn declares_tag(specifier: &TypeSpecifier) -> bool
    ensures { result ≡ declares_tag specifier.now }
{
    matches!(
        specifier,
        TypeSpecifier::Record { .. }
            | TypeSpecifier::RecordDefinition(_)
            | TypeSpecifier::Enum { .. }
            | TypeSpecifier::EnumDefinition(_)
    )
}
