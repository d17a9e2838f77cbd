ghost use Rattle.std.specs.Prelude.{◌≡◌, IfOk};
ghost use Rattle.c_types.specs.Conversions.{are_integers, are_pointers, are_like_pointers, are_one_record, converts};
ghost use Rattle.c_types.specs.Conversions.{are_cast_pointers, casts, are_comparable, joined_type, conditional_type};

use crate::arithmetic::arithmetic_type;
use crate::ctype::CType;
use shared_values::Shared;
use std::alloc::{AllocError, Global};

fn are_integers(one: &CType, other: &CType) -> bool
    ensures { result ≡ are_integers one.now other.now }
{
    one.is_integer() && other.is_integer()
}

fn are_pointers(one: &CType, other: &CType) -> bool
    ensures { result ≡ are_pointers one.now other.now }
{
    one.is_pointer() && other.is_pointer()
}

/// Whether both are pointers, to one type or one of them to void: these convert to each other without a cast, and may
/// be compared.
pub fn are_like_pointers(one: &CType, other: &CType) -> bool
    ensures { result ≡ are_like_pointers one.now other.now }
{
    are_pointers(one, other) && (one.is(other) || one.is_void_pointer() || other.is_void_pointer())
}

fn are_one_record(one: &CType, other: &CType) -> bool
    ensures { result ≡ are_one_record one.now other.now }
{
    one.is_record() && one.is(other)
}

/// Whether a value converts without a cast, as by assignment. `null` says whether it is a null pointer constant.
pub fn converts(null: bool, from: &CType, to: &CType) -> bool
    ensures { result ≡ converts null from.now to.now }
{
    are_integers(from, to)
        || are_one_record(from, to)
        || are_like_pointers(from, to)
        || null && to.is_pointer()
}

fn are_cast_pointers(one: &CType, other: &CType) -> bool
    ensures { result ≡ are_cast_pointers one.now other.now }
{
    are_pointers(one, other) && (one.is_character_pointer() || other.is_character_pointer())
}

/// Whether a value converts by a cast.
pub fn casts(null: bool, from: &CType, to: &CType) -> bool
    ensures { result ≡ casts null from.now to.now }
{
    to.is_void()
        || are_integers(from, to)
        || are_like_pointers(from, to)
        || are_cast_pointers(from, to)
        || null && to.is_pointer()
}

/// Whether two values may be compared by `==` and `!=`.
pub fn are_comparable(null: bool, left: &CType, other_null: bool, right: &CType) -> bool
    ensures { result ≡ are_comparable null left.now other_null right.now }
{
    are_integers(left, right)
        || are_like_pointers(left, right)
        || null && right.is_pointer()
        || other_null && left.is_pointer()
}

fn joined_type(
    alloc: Global,
    null: bool,
    then_type: &CType,
    other_null: bool,
    else_type: &CType,
) -> Result<Option<CType>, AllocError>
    ensures { IfOk result (λ joined. joined ≡ joined_type null then_type.now other_null else_type.now) }
{
    if then_type.is(else_type) {
        return Ok(Some(then_type.copy()?));
    }
    if null && else_type.is_pointer() {
        return Ok(Some(else_type.copy()?));
    }
    if other_null && then_type.is_pointer() {
        return Ok(Some(then_type.copy()?));
    }
    if are_like_pointers(then_type, else_type) {
        return Ok(Some(CType::Pointer(Shared::new(alloc, CType::Void)?)));
    }
    Ok(None)
}

/// The type of a conditional by those of its branches, none where they don't go together. `null` and `other_null` say
/// which of the branches are null pointer constants.
pub fn conditional_type(
    alloc: Global,
    null: bool,
    then_type: &CType,
    other_null: bool,
    else_type: &CType,
) -> Result<Option<CType>, AllocError>
    ensures { IfOk result (λ joined. joined ≡ conditional_type null then_type.now other_null else_type.now) }
{
    match arithmetic_type(then_type, else_type) {
        Some(t) => Ok(Some(CType::Integer(t))),
        None => joined_type(alloc, null, then_type, other_null, else_type),
    }
}
