//! What is known of the order and of normal forms, as contracts that need no call.
ghost use Rattle.std.specs.Prelude.{◌≡◌, Bool, not, cond, Some, ℤ, ◌+ℤ◌};
ghost use Rattle.std.specs.Cmp.{IsTotalOrder};
ghost use Rattle.std.specs.declared.cmp.Ordering.TheVariants.{Equal};
ghost use Rattle.rc_terms.specs.declared.term.Term.{Term};
ghost use Rattle.rc_terms.specs.declared.sort.Sort.TheVariants as sorts;
ghost use Rattle.rc_terms.specs.declared.location.Loc.{Loc};
ghost use Rattle.rc_terms.specs.Operators.{truth_of, number_of, offset_by};
ghost use Rattle.rc_terms.specs.Sorting.{sort_under, sorts_of};
ghost use Rattle.rc_terms.specs.Evaluation.{Environment, value_of};
ghost use Rattle.normal_forms.specs.Order.{term_order};
ghost use Rattle.normal_forms.specs.Negation.{pushed};
ghost use Rattle.normal_forms.specs.Polynomials.{expanded, sum_value};
ghost use Rattle.normal_forms.specs.Sums.{normal_sum, coefficient};
ghost use Rattle.normal_forms.specs.Locations.{root, offset, normal_location};
ghost use Rattle.normal_forms.specs.declared.product.Product.{Product};
ghost use Rattle.normal_forms.specs.Normal.{normal_term, Names};
ghost use Rattle.normal_forms.specs.Propositions.{normal_prop};

/// The order of terms is total and transitive, and holds two terms equal only where they are one.
pub fn terms_are_in_one_order()
    ensures total { IsTotalOrder term_order }
    ensures apart { (term other : Term) → term_order term other ≡ Equal → term ≡ other }
{}

/// A term with its negations pushed inwards holds where the term does, and its negation's where it doesn't, in every
/// environment.
pub fn pushing_negations_keeps_truth()
    ensures { (env : Environment) (term : Term) (negative : Bool) → let holds = truth_of (value_of env term) in
        truth_of (value_of env (pushed term negative)) ≡ cond negative (not holds) holds }
{}

/// A number is what its summands add up to, in every environment of its names' sorts.
pub fn expanding_keeps_values()
    ensures { (env : Environment) (term : Term) → sort_under (sorts_of env) term ≡ Some sorts.Int →
        number_of (value_of env term) ≡ sum_value env (expanded term) }
{}

/// A number in normal form has the value that it had, in every environment of its names' sorts.
pub fn normal_sums_keep_values()
    ensures { (env : Environment) (term : Term) → sort_under (sorts_of env) term ≡ Some sorts.Int →
        value_of env (normal_sum term) ≡ value_of env term }
{}

/// A term in normal form has the value that it had, in every environment of its names' sorts.
pub fn normal_terms_keep_values()
    ensures { (env : Environment) (term : Term) → value_of env (normal_term (sorts_of env) term) ≡ value_of env term }
{}

/// A term in normal form has the sort that it had, and one that isn't well sorted still isn't.
pub fn normal_terms_keep_sorts()
    ensures { (names : Names) (term : Term) → sort_under names (normal_term names term) ≡ sort_under names term }
{}

/// Terms whose summands give each product the same factor, and so are equal polynomials, have one normal form.
pub fn equal_polynomials_have_one_normal_form()
    ensures { (term other : Term) →
        ((product : Product) → coefficient product (expanded term) ≡ coefficient product (expanded other)) →
        normal_sum term ≡ normal_sum other }
{}

/// A proposition in normal form holds where the proposition does, in every environment of its names' sorts.
pub fn normal_props_keep_truth()
    ensures { (env : Environment) (term : Term) →
        truth_of (value_of env (normal_prop (sorts_of env) term)) ≡ truth_of (value_of env term) }
{}

/// A proposition in normal form is one that is well sorted where the proposition is.
pub fn normal_props_keep_sorts()
    ensures { (names : Names) (term : Term) → sort_under names term ≡ Some sorts.Bool →
        sort_under names (normal_prop names term) ≡ Some sorts.Bool }
{}

/// A proposition in normal form is its own normal form.
pub fn normal_props_are_their_own()
    ensures { (names : Names) (term : Term) → sort_under names term ≡ Some sorts.Bool →
        normal_prop names (normal_prop names term) ≡ normal_prop names term }
{}

/// A number in normal form is its own normal form.
pub fn normal_sums_are_their_own()
    ensures { (term : Term) → normal_sum (normal_sum term) ≡ normal_sum term }
{}

/// A term in normal form is its own normal form.
pub fn normal_terms_are_their_own()
    ensures { (names : Names) (term : Term) →
        normal_term names (normal_term names term) ≡ normal_term names term }
{}

/// A location that is moved by one number and then by another is moved by their sum.
pub fn offsets_add_up()
    ensures { (location : Loc) (a b : ℤ) → offset_by (offset_by location a) b ≡ offset_by location (a +ℤ b) }
{}

/// Locations of one root, to which equal polynomials are added, have one normal form.
pub fn equal_locations_have_one_normal_form()
    ensures { (term other : Term) → root term ≡ root other →
        ((product : Product) → coefficient product (offset term) ≡ coefficient product (offset other)) →
        normal_location term ≡ normal_location other }
{}
