ghost use Rattle.std.specs.Prelude.{◌≡◌, ◌+◌, ◌<◌, ◌≤◌, ◌↔◌, IsTrue, MatchOption};
ghost use Rattle.rc_terms.specs.Nodes.{nodes, most_nodes};

use crate::term::Term;

/// How many nodes a term may have.
pub const NODE_LIMIT: u32 = 4096;

/// Whether the term has at most as many nodes as terms may have. It looks at no more nodes than that.
pub fn is_within_limit(term: &Term) -> bool
    ensures { IsTrue result ↔ (nodes term.now ≤ most_nodes) }
{
    nodes_left(term, NODE_LIMIT).is_some()
}

/// What the term's nodes leave of a number of nodes, or none where they are more.
fn nodes_left(term: &Term, most: u32) -> Option<u32>
    ensures { MatchOption result (most < nodes term.now) (λ left. left + nodes term.now ≡ most) }
{
    let mut left = most.checked_sub(1)?;
    match term {
        Term::Variable(_) | Term::Integer(_) | Term::Truth(_) | Term::Null => {}
        Term::List(elements) => {
            for element in elements.as_slice() {
                left = nodes_left(element.get(), left)?;
            }
        }
        Term::Unary(_, operand) => left = nodes_left(operand.get(), left)?,
        Term::Binary(_, first, second) => {
            left = nodes_left(first.get(), left)?;
            left = nodes_left(second.get(), left)?;
        }
        Term::Conditional(first, second, third) | Term::Update(first, second, third) => {
            left = nodes_left(first.get(), left)?;
            left = nodes_left(second.get(), left)?;
            left = nodes_left(third.get(), left)?;
        }
    }
    Some(left)
}
