ghost use Rattle.std.specs.Prelude.{◌≡◌, ◌↔◌, IsTrue};

use crate::term::Term;
use shared_values::Shared;

/// Whether two terms are one tree.
#[cycle(is_same_term)]
pub fn is_same_term(term: &Term, other: &Term) -> bool
    ensures { IsTrue result ↔ (term.now ≡ other.now) }
{
    match (term, other) {
        (Term::Variable(name), Term::Variable(second)) => name.is(second),
        (Term::Integer(number), Term::Integer(second)) => number == second,
        (Term::Truth(truth), Term::Truth(second)) => truth == second,
        (Term::Null, Term::Null) => true,
        (Term::List(elements), Term::List(others)) => {
            are_same(elements.as_slice(), others.as_slice())
        }
        (Term::Unary(operator, operand), Term::Unary(second, part)) => {
            operator == second && is_same_term(operand.get(), part.get())
        }
        (Term::Binary(operator, left, right), Term::Binary(second, first_part, second_part)) => {
            operator == second
                && is_same_term(left.get(), first_part.get())
                && is_same_term(right.get(), second_part.get())
        }
        (Term::Conditional(test, then, otherwise), Term::Conditional(first, second, third)) => {
            is_same_term(test.get(), first.get())
                && is_same_term(then.get(), second.get())
                && is_same_term(otherwise.get(), third.get())
        }
        (Term::Update(list, index, number), Term::Update(first, second, third)) => {
            is_same_term(list.get(), first.get())
                && is_same_term(index.get(), second.get())
                && is_same_term(number.get(), third.get())
        }
        _ => false,
    }
}

/// Whether two lists of terms are one.
#[cycle(is_same_term)]
fn are_same(terms: &[Shared<Term>], others: &[Shared<Term>]) -> bool
    ensures { IsTrue result ↔ (terms.now ≡ others.now) }
{
    if terms.len() != others.len() {
        return false;
    }
    for index in 0..terms.len() {
        if !is_same_term(terms[index].get(), others[index].get()) {
            return false;
        }
    }
    true
}
