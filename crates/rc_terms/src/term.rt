ghost use Rattle.std.specs.Prelude.{◌≡◌, IfOk};

use crate::name::Name;
use crate::operator::{BinaryOperator, UnaryOperator};
use shared_values::Shared;
use sqlite_items::Items;
use std::alloc::{AllocError, Global};

/// A term of the language in which annotations speak of values (the grammar is this project's own). Its parts are
/// shared, so that a part that is used again is not copied; contracts see the tree alone.
#[derive(Debug, Drop)]
pub enum Term {
    Variable(Name),
    Integer(i128),
    Truth(bool),
    /// The null location.
    Null,
    /// `[]`, `[a; b]`
    List(Items<Shared<Term>>),
    Unary(UnaryOperator, Shared<Term>),
    Binary(BinaryOperator, Shared<Term>, Shared<Term>),
    /// `c ? a : b`
    Conditional(Shared<Term>, Shared<Term>, Shared<Term>),
    /// `upd(l, i, a)`, the list with `a` at `i`, and the list itself where `i` is outside.
    Update(Shared<Term>, Shared<Term>, Shared<Term>),
}

/// A proposition: a term of the sort of truth values.
#[derive(Debug, Drop)]
pub struct Prop {
    pub term: Term,
}

/// The same parts, with one more owner each.
fn share_all(alloc: Global, parts: &[Shared<Term>]) -> Result<Items<Shared<Term>>, AllocError>
    ensures { IfOk result (λ shared. shared ≡ parts.now) }
{
    let mut shared = Items::new(alloc);
    for part in parts {
        shared.push(part.share()?)?;
    }
    Ok(shared)
}

impl Term {
    /// The same term, whose parts are shared and not copied.
    pub fn copy(&self, alloc: Global) -> Result<Term, AllocError>
        ensures { IfOk result (λ copy. copy ≡ self.now) }
    {
        Ok(match self {
            Term::Variable(name) => Term::Variable(name.copy(alloc)?),
            Term::Integer(number) => Term::Integer(*number),
            Term::Truth(truth) => Term::Truth(*truth),
            Term::Null => Term::Null,
            Term::List(parts) => Term::List(share_all(alloc, parts.as_slice())?),
            Term::Unary(operator, operand) => Term::Unary(*operator, operand.share()?),
            Term::Binary(operator, left, right) => {
                Term::Binary(*operator, left.share()?, right.share()?)
            }
            Term::Conditional(test, then, otherwise) => {
                Term::Conditional(test.share()?, then.share()?, otherwise.share()?)
            }
            Term::Update(list, index, element) => {
                Term::Update(list.share()?, index.share()?, element.share()?)
            }
        })
    }
}
