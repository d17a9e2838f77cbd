//! The operations of terms on lists of numbers.
ghost use Rattle.std.specs.Prelude.{◌≡◌, ◌∷◌, ◌++◌, IfOk, reverse};
ghost use Rattle.rc_terms.specs.Operators.{element as element_of, updated as updated_list};
ghost use Rattle.rc_terms.specs.Operators.{first_numbers as front_of, numbers_past as rest_of};

use sqlite_items::Items;
use std::alloc::{AllocError, Global};

pub fn reversed(alloc: Global, numbers: &[i128]) -> Result<Items<i128>, AllocError>
    ensures { IfOk result (λ list. list ≡ reverse numbers.now) }
{
    let numbers: Vec<i128> = numbers.iter().rev().copied().collect(alloc)?;
    Ok(Items::from_vec(numbers))
}

pub fn with_front(alloc: Global, number: i128, numbers: &[i128]) -> Result<Items<i128>, AllocError>
    ensures { IfOk result (λ list. list ≡ number ∷ numbers.now) }
{
    let mut list = Vec::new(alloc);
    list.push(number)?;
    list.extend_from_slice(numbers)?;
    Ok(Items::from_vec(list))
}

pub fn joined(alloc: Global, front: &[i128], back: &[i128]) -> Result<Items<i128>, AllocError>
    ensures { IfOk result (λ list. list ≡ front.now ++ back.now) }
{
    let mut list = Vec::from_slice(alloc, front)?;
    list.extend_from_slice(back)?;
    Ok(Items::from_vec(list))
}

/// The number at an index, and 0 outside the list.
pub fn element(numbers: &[i128], index: i128) -> i128
    ensures { result ≡ element_of numbers.now index }
{
    if index < 0 || index >= numbers.len() as i128 {
        0
    } else {
        numbers[index as usize]
    }
}

/// The list with the number at an index, and the list itself where that is outside.
pub fn updated(
    alloc: Global,
    numbers: &[i128],
    index: i128,
    number: i128,
) -> Result<Items<i128>, AllocError>
    ensures { IfOk result (λ list. list ≡ updated_list numbers.now index number) }
{
    let mut list = Items::from_slice(alloc, numbers)?;
    if index >= 0 && index < numbers.len() as i128 {
        list.set(index as usize, number);
    }
    Ok(list)
}

/// The first few numbers, none for a negative count.
pub fn first_numbers(numbers: &[i128], count: i128) -> &[i128]
    ensures { result.now ≡ front_of count numbers.now }
{
    if count < 0 {
        &[]
    } else if count < numbers.len() as i128 {
        &numbers[..count as usize]
    } else {
        numbers
    }
}

/// The numbers without the first few, all for a negative count.
pub fn numbers_past(numbers: &[i128], count: i128) -> &[i128]
    ensures { result.now ≡ rest_of count numbers.now }
{
    if count < 0 {
        numbers
    } else if count < numbers.len() as i128 {
        &numbers[count as usize..]
    } else {
        &[]
    }
}
