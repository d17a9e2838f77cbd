ghost use Rattle.std.specs.Prelude.{◌≡◌, ◌^◌, ◌≤◌, ◌<◌, length, IfOk, IfErr, Ok, Err, ◌⊎◌};
ghost use Rattle.c_lexer.specs.declared.fault.LexFault.{LexFault};
ghost use Rattle.c_lexer.specs.TokenLists.{TokenLists};
ghost use Rattle.c_lexer.specs.Files.{AreTokensOf, IsFaultOf, token_limit};
ghost use Rattle.c_lexer.specs.Scanning.Reading.{Answers};

use crate::fault::LexRefusal;
use crate::passing::has_too_many;
use crate::reader::Reader;
use crate::tokens::Tokens;
use rc_text::Bytes;
use std::alloc::Global;

/// The tokens of a file, by longest match (C11 6.4, paragraph 4), with its macros replaced; or its first
/// fault, which comes before the limit. Places count in `u32`, so a file has at most 2 ^ 31 bytes.
pub fn lex(alloc: Global, bytes: &Bytes) -> Result<Tokens, LexRefusal>
    requires { length bytes.now ≤ 2 ^ 31 }
    // Each answer is the file's.
    ensures found { IfOk result (λ tokens. AreTokensOf bytes.now tokens × (length tokens.tokens ≤ token_limit)) }
    ensures faulty { (fault : LexFault) → result ≡ Err (LexRefusal.Fault fault) → IsFaultOf bytes.now fault }
    ensures many { result ≡ Err LexRefusal.TokenLimit → (tokens : TokenLists) × AreTokensOf bytes.now tokens
        × (token_limit < length tokens.tokens) }
    // What the file has is the answer, unless memory runs out.
    ensures only_tokens { (tokens : TokenLists) → AreTokensOf bytes.now tokens → length tokens.tokens ≤ token_limit
        → (result ≡ Ok tokens) ⊎ (result ≡ Err LexRefusal.NoMemory) }
    ensures only_fault { (fault : LexFault) → IsFaultOf bytes.now fault → (result ≡ Err (LexRefusal.Fault fault))
        ⊎ (result ≡ Err LexRefusal.NoMemory) }
    ensures only_many { (tokens : TokenLists) → AreTokensOf bytes.now tokens → token_limit < length tokens.tokens
        → (result ≡ Err LexRefusal.TokenLimit) ⊎ (result ≡ Err LexRefusal.NoMemory) }
{
    read_all(alloc, bytes.as_slice())
}

/// The answer about a file, of which all is read, whatever the tokens before.
fn read_all(alloc: Global, bytes: &[u8]) -> Result<Tokens, LexRefusal>
    requires { length bytes.now ≤ 2 ^ 31 }
    ensures { Answers bytes.now result }
{
    // No token is kept of a file that is known to have too many.
    if has_too_many(bytes) {
        return Err(LexRefusal::TokenLimit);
    }
    let mut reader = Reader::new(alloc);
    while (reader.place.byte as usize) < bytes.len() {
        reader.read(alloc, bytes)?;
    }
    reader.finish()
}
