ghost use Rattle.std.specs.Prelude.{◌≡◌, IfOk, OnOk, true, false, Err, map, unwrap_or, pos};
ghost use Rattle.std.specs.List.{list_any};
ghost use Rattle.rc_terms.specs.declared.refusal.TermRefusal.TheVariants as refusals;
ghost use Rattle.rc_terms.specs.declared.value.TermValue.TheVariants as values;
ghost use Rattle.rc_terms.specs.Bindings.{binding_of};
ghost use Rattle.rc_terms.specs.Operators.{number_of};
ghost use Rattle.rc_terms.specs.Evaluation.{value_of, passes_width, Computes};

use crate::bindings::Env;
use crate::lists;
use crate::location::Loc;
use crate::name::Name;
use crate::operations::{binary, unary};
use crate::refusal::TermRefusal;
use crate::term::Term;
use crate::value::TermValue;
use shared_values::Shared;
use sqlite_items::Items;
use std::alloc::{AllocError, Global};

/// The value of a term. A name without a value counts as 0. Of a conditional term only the branch that is taken is
/// evaluated.
pub fn eval(alloc: Global, term: &Term, env: &Env) -> Result<TermValue, TermRefusal>
    ensures value { IfOk result (λ value. value ≡ value_of env.now term.now) }
    ensures within { OnOk result (passes_width env.now term.now ≡ false) }
    ensures width { result ≡ Err refusals.Width → passes_width env.now term.now ≡ true }
    ensures limit { result ≡ Err refusals.TermLimit → ⊥ }
{
    evaluated(alloc, term, env)
}

/// The same, with its answers in one clause.
#[cycle(evaluated)]
fn evaluated(alloc: Global, term: &Term, env: &Env) -> Result<TermValue, TermRefusal>
    ensures { Computes result (value_of env.now term.now) (passes_width env.now term.now) }
{
    match term {
        Term::Variable(name) => Ok(bound(alloc, name, env)?),
        Term::Integer(number) => Ok(TermValue::Integer(*number)),
        Term::Truth(truth) => Ok(TermValue::Truth(*truth)),
        Term::Null => Ok(TermValue::Location(Loc::Null)),
        Term::List(elements) => Ok(TermValue::List(numbers(alloc, elements.as_slice(), env)?)),
        Term::Unary(operator, operand) => {
            let operand = evaluated(alloc, operand.get(), env)?;
            unary(alloc, *operator, &operand)
        }
        Term::Binary(operator, left, right) => {
            let left = evaluated(alloc, left.get(), env)?;
            let right = evaluated(alloc, right.get(), env)?;
            binary(alloc, *operator, &left, &right)
        }
        Term::Conditional(test, then, otherwise) => {
            let test = evaluated(alloc, test.get(), env)?;
            let branch = if test.truth() { then } else { otherwise };
            evaluated(alloc, branch.get(), env)
        }
        Term::Update(list, index, number) => {
            let list = evaluated(alloc, list.get(), env)?;
            let index = evaluated(alloc, index.get(), env)?.number();
            let number = evaluated(alloc, number.get(), env)?.number();
            let numbers = lists::updated(alloc, list.list(), index, number)?;
            Ok(TermValue::List(numbers))
        }
    }
}

/// The numbers that the elements of a list are.
#[cycle(evaluated)]
fn numbers(alloc: Global, elements: &[Shared<Term>], env: &Env) -> Result<Items<i128>, TermRefusal>
    ensures { Computes result (map number_of (map (value_of env.now) elements.now))
        (list_any (passes_width env.now) elements.now) }
{
    let mut numbers = Items::new(alloc);
    for element in elements {
        numbers.push(evaluated(alloc, element.get(), env)?.number())?;
    }
    Ok(numbers)
}

/// What a name stands for, and 0 where it has no value.
fn bound(alloc: Global, name: &Name, env: &Env) -> Result<TermValue, AllocError>
    ensures { IfOk result (λ value. value ≡ unwrap_or (binding_of name.now env.now) (values.Integer (pos 0))) }
{
    match env.get(name) {
        Some(value) => value.copy(alloc),
        None => Ok(TermValue::Integer(0)),
    }
}
