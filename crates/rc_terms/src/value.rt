ghost use Rattle.std.specs.Prelude.{◌≡◌, IfOk};

use crate::byte::MByte;
use crate::location::Loc;
use sqlite_items::Items;
use std::alloc::{AllocError, Global};

/// What a term means under an environment.
#[derive(Debug, Drop)]
pub enum TermValue {
    Integer(i128),
    Truth(bool),
    Location(Loc),
    List(Items<i128>),
    Bytes(Items<MByte>),
}

impl TermValue {
    ghost use Rattle.rc_terms.specs.Operators.{number_of, truth_of, location_of, list_of};

    /// The number, and 0 of another sort.
    pub fn number(&self) -> i128
        ensures { result ≡ number_of self.now }
    {
        match self {
            TermValue::Integer(number) => *number,
            _ => 0,
        }
    }

    /// The truth value, and false of another sort.
    pub fn truth(&self) -> bool
        ensures { result ≡ truth_of self.now }
    {
        match self {
            TermValue::Truth(truth) => *truth,
            _ => false,
        }
    }

    /// The location, and null of another sort.
    pub fn location(&self) -> Loc
        ensures { result ≡ location_of self.now }
    {
        match self {
            TermValue::Location(location) => *location,
            _ => Loc::Null,
        }
    }

    /// The list, and the empty one of another sort.
    pub fn list(&self) -> &[i128]
        ensures { result.now ≡ list_of self.now }
    {
        match self {
            TermValue::List(numbers) => numbers.as_slice(),
            _ => &[],
        }
    }

    /// The same value.
    pub fn copy(&self, alloc: Global) -> Result<TermValue, AllocError>
        ensures { IfOk result (λ copy. copy ≡ self.now) }
    {
        Ok(match self {
            TermValue::Integer(number) => TermValue::Integer(*number),
            TermValue::Truth(truth) => TermValue::Truth(*truth),
            TermValue::Location(location) => TermValue::Location(*location),
            TermValue::List(numbers) => {
                TermValue::List(Items::from_slice(alloc, numbers.as_slice())?)
            }
            TermValue::Bytes(bytes) => {
                TermValue::Bytes(Items::from_slice(alloc, bytes.as_slice())?)
            }
        })
    }
}
