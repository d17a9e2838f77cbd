ghost use Rattle.std.specs.Prelude.{◌≡◌, ℕ, List};
ghost use Rattle.c_lexer.specs.declared.fault.LexFault.{LexFault};
ghost use Rattle.c_lexer.specs.TokenLists.{TokenLists};
ghost use Rattle.c_lexer.specs.Files.{AreTokensOf, IsFaultOf, HasReading};

use crate::passing::pass;

/// A file has one reading: one list of tokens and includes at most, one fault at most, and never both.
pub fn readings_are_determined()
    ensures tokens { (bytes : List ℕ) (one other : TokenLists) → AreTokensOf bytes one → AreTokensOf bytes other
        → one ≡ other }
    ensures fault { (bytes : List ℕ) (one other : LexFault) → IsFaultOf bytes one → IsFaultOf bytes other
        → one ≡ other }
    ensures apart { (bytes : List ℕ) (tokens : TokenLists) (fault : LexFault) → AreTokensOf bytes tokens
        → IsFaultOf bytes fault → ⊥ }
{}

/// Every file has a reading, whatever its bytes and its length: tokens, as many as it may have or more, or
/// exactly one fault. The call looks through the file, and takes no memory.
pub fn every_file_has_a_reading(bytes: &[u8])
    ensures { HasReading bytes.now }
{
    pass(bytes, bytes.len());
}
