//! Terms multiplied out.
ghost use Rattle.std.specs.Prelude.{◌≡◌, ◌++◌, [], ◌∷◌, IfOk, OnOk, map, cond, pos, negsuc, ◌*ℤ◌};
ghost use Rattle.normal_forms.specs.Polynomials.{expanded, opaque, constant, products, times};
ghost use Rattle.normal_forms.specs.Polynomials.{multiplied as product_of_both};
ghost use Rattle.normal_forms.specs.Scanning.{signed_sum};

use crate::summand::Summand;
use rc_terms::{BinaryOperator, Term, UnaryOperator};
use rc_text::NoMemory;
use shared_values::Shared;
use sqlite_items::Items;
use std::alloc::Global;
use whole_numbers::Whole;

/// Writes the term's summands behind what is there, each with the opposite sign where `negative`.
pub fn expand(
    alloc: Global,
    summands: &mut Items<Summand>,
    term: &Term,
    negative: bool,
) -> Result<(), NoMemory>
    ensures { OnOk result (summands.new ≡ summands.old ++ signed_sum negative (expanded term.now)) }
{
    match term {
        Term::Integer(number) => push_constant(alloc, summands, *number, negative),
        Term::Unary(operator, operand) => match operator {
            UnaryOperator::Negative => expand(alloc, summands, operand.get(), !negative),
            _ => push_opaque(alloc, summands, term, negative),
        },
        Term::Binary(operator, left, right) => match operator {
            BinaryOperator::Add => {
                expand(alloc, summands, left.get(), negative)?;
                expand(alloc, summands, right.get(), negative)
            }
            BinaryOperator::Subtract => {
                expand(alloc, summands, left.get(), negative)?;
                expand(alloc, summands, right.get(), !negative)
            }
            BinaryOperator::Multiply => {
                let mut first = Items::new(alloc);
                expand(alloc, &mut first, left.get(), negative)?;
                let mut second = Items::new(alloc);
                expand(alloc, &mut second, right.get(), false)?;
                push_products(alloc, summands, first.as_slice(), second.as_slice())
            }
            _ => push_opaque(alloc, summands, term, negative),
        },
        Term::Variable(_) => push_opaque(alloc, summands, term, negative),
        Term::Truth(_) => push_opaque(alloc, summands, term, negative),
        Term::Null => push_opaque(alloc, summands, term, negative),
        Term::List(_) => push_opaque(alloc, summands, term, negative),
        Term::Conditional(_, _, _) => push_opaque(alloc, summands, term, negative),
        Term::Update(_, _, _) => push_opaque(alloc, summands, term, negative),
    }
}

fn push_constant(
    alloc: Global,
    summands: &mut Items<Summand>,
    number: i128,
    negative: bool,
) -> Result<(), NoMemory>
    ensures { OnOk result (summands.new ≡ summands.old ++ signed_sum negative (constant number ∷ [])) }
{
    let factor = signed(alloc, number, negative)?;
    summands.push(Summand {
        factor,
        product: Items::new(alloc),
    })?;
    Ok(())
}

fn push_opaque(
    alloc: Global,
    summands: &mut Items<Summand>,
    term: &Term,
    negative: bool,
) -> Result<(), NoMemory>
    ensures { OnOk result (summands.new ≡ summands.old ++ signed_sum negative (opaque term.now ∷ [])) }
{
    let factor = signed(alloc, 1, negative)?;
    let mut product = Items::new(alloc);
    product.push(Shared::new(alloc, term.copy(alloc)?)?)?;
    summands.push(Summand { factor, product })?;
    Ok(())
}

/// The number, or its opposite.
fn signed(alloc: Global, number: i128, negative: bool) -> Result<Whole, NoMemory>
    ensures { IfOk result (λ signed. signed ≡ cond negative (negsuc 0 *ℤ number) number) }
{
    if negative {
        Whole::new(-1).times(alloc, &Whole::new(number))
    } else {
        Ok(Whole::new(number))
    }
}

/// Writes each summand of one sum times each of another.
fn push_products(
    alloc: Global,
    summands: &mut Items<Summand>,
    first: &[Summand],
    second: &[Summand],
) -> Result<(), NoMemory>
    ensures { OnOk result (summands.new ≡ summands.old ++ products first.now second.now) }
{
    for summand in first {
        push_multiples(alloc, summands, summand, second)?;
    }
    Ok(())
}

/// Writes a summand times each of a sum.
fn push_multiples(
    alloc: Global,
    summands: &mut Items<Summand>,
    summand: &Summand,
    others: &[Summand],
) -> Result<(), NoMemory>
    ensures { OnOk result (summands.new ≡ summands.old ++ map (product_of_both summand.now) others.now) }
{
    for other in others {
        let product = multiplied(alloc, summand, other)?;
        summands.push(product)?;
    }
    Ok(())
}

fn multiplied(alloc: Global, summand: &Summand, other: &Summand) -> Result<Summand, NoMemory>
    ensures { IfOk result (λ product. product ≡ product_of_both summand.now other.now) }
{
    let factor = summand.factor.times(alloc, &other.factor)?;
    let mut product = Items::new(alloc);
    push_factors(&mut product, summand.product.as_slice())?;
    push_factors(&mut product, other.product.as_slice())?;
    Ok(Summand { factor, product })
}

fn push_factors(product: &mut Items<Shared<Term>>, factors: &[Shared<Term>]) -> Result<(), NoMemory>
    ensures { OnOk result (product.new ≡ product.old ++ factors.now) }
{
    for factor in factors {
        product.push(factor.share()?)?;
    }
    Ok(())
}
