ghost use Rattle.std.specs.Prelude.{◌≡◌, IfOk};
ghost use Rattle.std.specs.Option.{option_copied};
ghost use Rattle.c_types.specs.CType.{is_integer, is_character, is_pointer, is_void_pointer, is_character_pointer};
ghost use Rattle.c_types.specs.CType.{is_scalar, is_record, is_void, pointee, value_type, same_int, same_type};

use layouts::IntType;
use shared_values::Shared;
use std::alloc::AllocError;

/// A type of C (C11 6.2.5). Enumerations are `int`. What a type is made of is shared, so that a copy takes no memory.
#[derive(Debug, Drop)]
pub enum CType {
    Void,
    Bool,
    /// `atomic_bool` (C11 7.17.1, 7.17.6)
    AtomicBool,
    Integer(IntType),
    Pointer(Shared<CType>),
    /// So many elements, at least one.
    Array { element: Shared<CType>, length: u64 },
    /// A struct or union, by its number among those that a file declares.
    Record(u32),
}

impl CType {
    /// The same type, whose parts are shared and not copied. It takes no memory, and fails only where the count of a
    /// part's owners is full.
    pub fn copy(&self) -> Result<CType, AllocError>
        ensures { IfOk result (λ copy. copy ≡ self.now) }
    {
        Ok(match self {
            CType::Void => CType::Void,
            CType::Bool => CType::Bool,
            CType::AtomicBool => CType::AtomicBool,
            CType::Integer(t) => CType::Integer(*t),
            CType::Pointer(to) => CType::Pointer(to.share()?),
            CType::Array { element, length } => CType::Array {
                element: element.share()?,
                length: *length,
            },
            CType::Record(number) => CType::Record(*number),
        })
    }

    /// Whether it is an integer type, `_Bool` included.
    pub fn is_integer(&self) -> bool
        ensures { result ≡ is_integer self.now }
    {
        matches!(self, CType::Bool | CType::Integer(_))
    }

    pub fn is_character(&self) -> bool
        ensures { result ≡ is_character self.now }
    {
        matches!(
            self,
            CType::Integer(IntType::Char | IntType::SChar | IntType::UChar)
        )
    }

    pub fn is_pointer(&self) -> bool
        ensures { result ≡ is_pointer self.now }
    {
        matches!(self, CType::Pointer(_))
    }

    pub(crate) fn is_void_pointer(&self) -> bool
        ensures { result ≡ is_void_pointer self.now }
    {
        match self {
            CType::Pointer(to) => to.get().is_void(),
            _ => false,
        }
    }

    pub(crate) fn is_character_pointer(&self) -> bool
        ensures { result ≡ is_character_pointer self.now }
    {
        match self {
            CType::Pointer(to) => to.get().is_character(),
            _ => false,
        }
    }

    /// Whether it is an integer or a pointer: what a condition may be.
    pub fn is_scalar(&self) -> bool
        ensures { result ≡ is_scalar self.now }
    {
        self.is_integer() || self.is_pointer()
    }

    /// Whether it is a struct or union.
    pub fn is_record(&self) -> bool
        ensures { result ≡ is_record self.now }
    {
        matches!(self, CType::Record(_))
    }

    pub fn is_void(&self) -> bool
        ensures { result ≡ is_void self.now }
    {
        matches!(self, CType::Void)
    }

    /// What a pointer points to.
    pub fn pointee(&self) -> Option<&CType>
        ensures { option_copied result ≡ pointee self.now }
    {
        match self {
            CType::Pointer(to) => Some(to.get()),
            _ => None,
        }
    }

    /// The type of the value that an object of this type holds.
    pub fn value_type(&self) -> Result<CType, AllocError>
        ensures { IfOk result (λ value. value ≡ value_type self.now) }
    {
        match self {
            CType::AtomicBool => Ok(CType::Bool),
            CType::Array { element, .. } => Ok(CType::Pointer(element.share()?)),
            _ => self.copy(),
        }
    }

    /// Whether two types are one.
    pub fn is(&self, other: &CType) -> bool
        ensures { result ≡ same_type self.now other.now }
    {
        match (self, other) {
            (CType::Void, CType::Void) => true,
            (CType::Bool, CType::Bool) => true,
            (CType::AtomicBool, CType::AtomicBool) => true,
            (CType::Integer(t), CType::Integer(u)) => same_int(*t, *u),
            (CType::Pointer(to), CType::Pointer(other)) => to.get().is(other.get()),
            (
                CType::Array { element, length },
                CType::Array {
                    element: second,
                    length: other,
                },
            ) => length == other && element.get().is(second.get()),
            (CType::Record(number), CType::Record(other)) => number == other,
            _ => false,
        }
    }
}

fn same_int(t: IntType, u: IntType) -> bool
    ensures { result ≡ same_int t u }
{
    t == u
}
