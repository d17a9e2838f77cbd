//! What is known of the meaning of terms, as contracts that need no call.
ghost use Rattle.std.specs.Prelude.{◌≡◌, ℕ, List, [], ◌∷◌, ◌++◌, Some};
ghost use Rattle.rc_terms.specs.declared.term.Term.{Term};
ghost use Rattle.rc_terms.specs.Evaluation.{Environment, value_of};
ghost use Rattle.rc_terms.specs.declared.sort.Sort.{Sort};
ghost use Rattle.rc_terms.specs.Sorting.{sort_under, sorts_of, sort_of_value};
ghost use Rattle.rc_terms.specs.Substitution.{substituted};

/// To evaluate a term with a name replaced is to evaluate the term where the name stands for the value of what replaces
/// it.
pub fn substituting_is_binding()
    ensures { (env : Environment) (name : List ℕ) (by term : Term) →
        value_of env (substituted name by term) ≡ value_of (env ++ (name, value_of env by) ∷ []) term }
{}

/// A term that is well sorted under the sorts of an environment's values has a value of its sort.
pub fn well_sorted_terms_have_values_of_their_sort()
    ensures { (env : Environment) (term : Term) (sort : Sort) →
        sort_under (sorts_of env) term ≡ Some sort → sort_of_value (value_of env term) ≡ sort }
{}

/// A term with a name replaced by a term of the name's sort has the sort that it had.
pub fn substituting_keeps_sorts()
    ensures { (names : List (List ℕ × Sort)) (name : List ℕ) (by term : Term) (sort : Sort) →
        sort_under names by ≡ Some sort →
        sort_under names (substituted name by term) ≡ sort_under (names ++ (name, sort) ∷ []) term }
{}
