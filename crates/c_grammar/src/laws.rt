ghost use Rattle.std.specs.Prelude.{◌≡◌, ℕ, ◌≤◌, Some};
ghost use Rattle.c_lexer.specs.TokenLists.{TokenLists};
ghost use Rattle.c_syntax.specs.declared.unit.Unit.{Unit};
ghost use Rattle.c_syntax.specs.Depth.{unit_depth};
ghost use Rattle.c_grammar.specs.Grammar.{Derives};
ghost use Rattle.c_grammar.specs.FileReading.{unit_of};

/// A file's tokens are spelled by one tree at most, whatever its depth: the grammar is unambiguous.
pub fn trees_are_determined()
    ensures { (file : TokenLists) (one other : Unit) → Derives file one → Derives file other → one ≡ other }
{}

/// Reading from the left to the right, up to a depth, gives a file's tree exactly where the grammar has one that is no
/// deeper. The layer above computes what is read.
pub fn files_are_read_exactly()
    ensures complete { (limit : ℕ) (file : TokenLists) (tree : Unit) → Derives file tree → unit_depth tree ≤ limit
        → unit_of limit file ≡ Some tree }
    ensures sound { (limit : ℕ) (file : TokenLists) (tree : Unit) → unit_of limit file ≡ Some tree
        → Derives file tree × (unit_depth tree ≤ limit) }
{}
