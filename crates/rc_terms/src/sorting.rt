ghost use Rattle.std.specs.Prelude.{◌≡◌, ◌&&◌};
ghost use Rattle.rc_terms.specs.Sorting.{sort_under, unary_sort as unary_result, binary_sort as binary_result};
ghost use Rattle.rc_terms.specs.Sorting.{given as sort_where, has as has_sort, are as are_sorts};
ghost use Rattle.rc_terms.specs.Sorting.{same_sort, sum_sort as sort_of_sum};

use crate::operator::{BinaryOperator, UnaryOperator};
use crate::sort::{Sort, Sorts};
use crate::term::Term;

/// The sort of a term under these sorts of its names, or none where it isn't well sorted or a name has no sort.
pub fn sort_of(term: &Term, sorts: &Sorts) -> Option<Sort>
    ensures { result ≡ sort_under sorts.now term.now }
{
    match term {
        Term::Variable(name) => sorts.get(name).copied(),
        Term::Integer(_) => Some(Sort::Int),
        Term::Truth(_) => Some(Sort::Bool),
        Term::Null => Some(Sort::Loc),
        Term::List(elements) => {
            for element in elements.as_slice() {
                if !has(sort_of(element.get(), sorts), Sort::Int) {
                    return None;
                }
            }
            Some(Sort::List)
        }
        Term::Unary(operator, operand) => unary_sort(*operator, sort_of(operand.get(), sorts)?),
        Term::Binary(operator, left, right) => {
            let left = sort_of(left.get(), sorts)?;
            binary_sort(*operator, left, sort_of(right.get(), sorts)?)
        }
        Term::Conditional(test, then, otherwise) => {
            let sort = sort_of(then.get(), sorts)?;
            let is_test = has(sort_of(test.get(), sorts), Sort::Bool);
            given(is_test && has(sort_of(otherwise.get(), sorts), sort), sort)
        }
        Term::Update(list, index, number) => {
            let is_list = has(sort_of(list.get(), sorts), Sort::List);
            let is_index = has(sort_of(index.get(), sorts), Sort::Int);
            let is_number = has(sort_of(number.get(), sorts), Sort::Int);
            given(is_list && is_index && is_number, Sort::List)
        }
    }
}

/// Whether two sorts are one.
fn same(sort: Sort, other: Sort) -> bool
    ensures { result ≡ same_sort sort other }
{
    match (sort, other) {
        (Sort::Int, Sort::Int) => true,
        (Sort::Bool, Sort::Bool) => true,
        (Sort::Loc, Sort::Loc) => true,
        (Sort::List, Sort::List) => true,
        (Sort::Val, Sort::Val) => true,
        _ => false,
    }
}

/// Whether a part has a sort, and this one.
fn has(sort: Option<Sort>, other: Sort) -> bool
    ensures { result ≡ has_sort other sort }
{
    match sort {
        Some(sort) => same(sort, other),
        None => false,
    }
}

fn given(fits: bool, sort: Sort) -> Option<Sort>
    ensures { result ≡ sort_where fits sort }
{
    if fits { Some(sort) } else { None }
}

fn sum_sort(left: Sort, right: Sort) -> Option<Sort>
    ensures { result ≡ sort_of_sum left right }
{
    match left {
        Sort::Int => given(same(right, Sort::Int), Sort::Int),
        Sort::Loc => given(same(right, Sort::Int), Sort::Loc),
        _ => None,
    }
}

fn unary_sort(operator: UnaryOperator, operand: Sort) -> Option<Sort>
    ensures { result ≡ unary_result operator operand }
{
    match operator {
        UnaryOperator::Negative => given(same(operand, Sort::Int), Sort::Int),
        UnaryOperator::Not => given(same(operand, Sort::Bool), Sort::Bool),
        UnaryOperator::Length => given(same(operand, Sort::List), Sort::Int),
        UnaryOperator::Reverse => given(same(operand, Sort::List), Sort::List),
    }
}

/// Whether two operands have these sorts.
fn are(left: Sort, right: Sort, first: Sort, second: Sort) -> bool
    ensures { result ≡ are_sorts left right first second }
{
    same(left, first) && same(right, second)
}

fn binary_sort(operator: BinaryOperator, a: Sort, b: Sort) -> Option<Sort>
    ensures { result ≡ binary_result operator a b }
{
    match operator {
        BinaryOperator::Add => sum_sort(a, b),
        BinaryOperator::Equal | BinaryOperator::Unequal => given(same(a, b), Sort::Bool),
        BinaryOperator::Below
        | BinaryOperator::AtMost
        | BinaryOperator::Above
        | BinaryOperator::AtLeast => given(are(a, b, Sort::Int, Sort::Int), Sort::Bool),
        BinaryOperator::And | BinaryOperator::Or | BinaryOperator::Implies => {
            given(are(a, b, Sort::Bool, Sort::Bool), Sort::Bool)
        }
        BinaryOperator::Aligned => given(are(a, b, Sort::Loc, Sort::Int), Sort::Bool),
        BinaryOperator::Cons => given(are(a, b, Sort::Int, Sort::List), Sort::List),
        BinaryOperator::Append => given(are(a, b, Sort::List, Sort::List), Sort::List),
        BinaryOperator::Element => given(are(a, b, Sort::List, Sort::Int), Sort::Int),
        BinaryOperator::Take | BinaryOperator::Drop => {
            given(are(a, b, Sort::Int, Sort::List), Sort::List)
        }
        _ => given(are(a, b, Sort::Int, Sort::Int), Sort::Int),
    }
}
