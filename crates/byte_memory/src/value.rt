ghost use Rattle.std.specs.Prelude.{◌≡◌, List, [], ◌∷◌, ◌++◌, length, replicate, IsTrue, IfOk, OnOk, OnErr, ◌↔◌};
ghost use Rattle.byte_memory.specs.Encoding.{enc, natural_of, number_from};
ghost use Rattle.rc_terms.specs.declared.location.Loc.{Loc};
ghost use Rattle.byte_memory.specs.Values.{bool_bytes, ptr, int_of, plain_byte, plain_bytes};
ghost use Rattle.rc_terms.specs.declared.byte.MByte.TheVariants as bytes;
ghost use Rattle.std.specs.Prelude.{ℕ, ◌<◌, ◌≤◌, ◌^◌, option_map, IfSome, IfNone};

use layouts::{IntType, size_of_int};
use rc_terms::{Loc, MByte};
use rc_text::NoMemory;
use std::alloc::Global;
use std::marker::Model;

/// The bytes of a value in the order of their addresses, which contracts see as a list.
#[derive(Debug, Drop)]
pub struct Value {
    bytes: Vec<MByte>,
}

impl Model for Value {
    ghost use Rattle.std.specs.Prelude.{List};
    ghost use Rattle.rc_terms.specs.declared.byte.MByte.{MByte};

    ghost Value = { List MByte };

    ghost view = { λ value. value.bytes.items };
}

/// Why a value is no boolean.
#[derive(Clone, Copy, Debug, PartialEq, Eq, Hash)]
pub enum NotBool {
    /// It isn't one plain byte.
    NotPlain,
    /// It is one plain byte other than 0 and 1.
    BadByte,
}

impl Value {
    /// No bytes. It takes no memory.
    pub fn new(alloc: Global) -> Self
        ensures { result ≡ [] }
    {
        Value {
            bytes: Vec::new(alloc),
        }
    }

    /// Puts a byte at the end.
    pub fn push(&mut self, byte: MByte) -> Result<(), NoMemory>
        ensures ok { OnOk result (self.new ≡ self.old ++ byte ∷ []) }
        ensures err { OnErr result (self.new ≡ self.old) }
    {
        self.bytes.push(byte)?;
        Ok(())
    }

    /// The number at the type, least significant byte first. A number out of the type's range loses its
    /// upper bytes.
    pub fn of_int(alloc: Global, t: IntType, n: i128) -> Result<Self, NoMemory>
        ensures { IfOk result (λ value. value ≡ enc t n) }
    {
        let mut bytes = Vec::new(alloc);
        let mut rest = n;
        for _ in 0..size_of_int(t) {
            bytes.push(MByte::Byte(rest.rem_euclid(256) as u8))?;
            rest = rest.div_euclid(256);
        }
        Ok(Value { bytes })
    }

    /// The byte of a boolean.
    pub fn of_bool(alloc: Global, b: bool) -> Result<Self, NoMemory>
        ensures { IfOk result (λ value. value ≡ bool_bytes b) }
    {
        let bytes = vec![in alloc; MByte::Byte(if b { 1 } else { 0 }); 1]?;
        Ok(Value { bytes })
    }

    /// The eight fragments of a location.
    pub fn of_pointer(alloc: Global, at: Loc) -> Result<Self, NoMemory>
        ensures { IfOk result (λ value. value ≡ ptr at) }
    {
        let bytes = Vec::from_slice(alloc, &fragments(at))?;
        Ok(Value { bytes })
    }

    /// The boolean that the bytes are: `NotPlain` where they aren't one plain byte, `BadByte` where that is neither 0
    /// nor 1.
    pub fn to_bool(&self) -> Result<bool, NotBool>
        ensures boolean { IfOk result (λ b. self.now ≡ bool_bytes b) }
        ensures bad_byte { result ≡ Err NotBool.BadByte → (n : ℕ) × ((self.now ≡ bytes.Byte n ∷ []) × (1 < n)) }
        ensures not_plain { result ≡ Err NotBool.NotPlain → (n : ℕ) → self.now ≡ bytes.Byte n ∷ [] → ⊥ }
    {
        match self.bytes.as_slice() {
            [MByte::Byte(0)] => Ok(false),
            [MByte::Byte(1)] => Ok(true),
            [MByte::Byte(_)] => Err(NotBool::BadByte),
            _ => Err(NotBool::NotPlain),
        }
    }

    /// The location whose eight fragments the bytes are; none where they are no location's.
    pub fn to_pointer(&self) -> Option<Loc>
        ensures pointer { IfSome result (λ at. self.now ≡ ptr at) }
        ensures other { IfNone result ((at : Loc) → self.now ≡ ptr at → ⊥) }
    {
        let [MByte::Frag(at, _), ..] = self.bytes.as_slice() else {
            return None;
        };
        if self.bytes.as_slice() == fragments(*at).as_slice() {
            Some(*at)
        } else {
            None
        }
    }

    /// The number of the type that the bytes are; none where one isn't plain, or they aren't as many as the type has.
    pub fn to_int(&self, t: IntType) -> Option<i128>
        ensures value { result ≡ int_of t self.now }
        ensures in_range { IfSome result (IsInRange t) }
    {
        if self.bytes.len() != size_of_int(t) as usize {
            return None;
        }
        let number = natural(self.bytes.as_slice())?;
        Some(number_of_natural(t, number))
    }

    /// A value of this many bytes, each of them poison.
    pub fn poison(alloc: Global, size: u32) -> Result<Self, NoMemory>
        ensures { IfOk result (λ value. value ≡ replicate size MByte.Poison) }
    {
        let bytes = vec![in alloc; MByte::Poison; size as usize]?;
        Ok(Value { bytes })
    }

    pub fn as_slice(&self) -> &[MByte]
        ensures { result.now ≡ self.now }
    {
        self.bytes.as_slice()
    }

    /// How many bytes it has.
    pub fn len(&self) -> usize
        ensures { result ≡ length self.now }
    {
        self.bytes.len()
    }

    pub fn is_empty(&self) -> bool
        ensures { IsTrue result ↔ (self.now ≡ []) }
    {
        self.bytes.is_empty()
    }
}

/// The eight fragments of a location.
fn fragments(at: Loc) -> [MByte; 8]
    ensures { result ≡ ptr at }
{
    [
        MByte::Frag(at, 0),
        MByte::Frag(at, 1),
        MByte::Frag(at, 2),
        MByte::Frag(at, 3),
        MByte::Frag(at, 4),
        MByte::Frag(at, 5),
        MByte::Frag(at, 6),
        MByte::Frag(at, 7),
    ]
}

/// The byte, where it is plain.
fn plain(byte: MByte) -> Option<u8>
    ensures value { result ≡ plain_byte byte }
    ensures bound { IfSome result (λ b. b < 256) }
{
    match byte {
        MByte::Byte(plain) => Some(plain),
        MByte::Frag(_, _) | MByte::Poison => None,
    }
}

/// The number without sign that at most eight bytes are; none where one isn't plain.
fn natural(bytes: &[MByte]) -> Option<u64>
    requires { length bytes.now ≤ 8 }
    ensures number { result ≡ option_map natural_of (plain_bytes bytes.now) }
    ensures bound { IfSome result (λ n. n < 256 ^ length bytes.now) }
{
    let Some((first, rest)) = bytes.split_first() else {
        return Some(0);
    };
    let low = plain(*first)?;
    let upper = natural(rest)?;
    Some(u64::from(low) + 256 * upper)
}

ghost use Rattle.layouts.specs.IntType.{int_bytes_of, IsInRange};

/// The number of the type that has the bytes of this one without sign.
fn number_of_natural(t: IntType, natural: u64) -> i128
    requires { natural < 256 ^ int_bytes_of t }
    ensures value { result ≡ number_from t natural }
    ensures in_range { IsInRange t result }
{
    let number = i128::from(natural);
    match t {
        IntType::Char | IntType::SChar if natural > 0x7f => number - 0x100,
        IntType::Short if natural > 0x7fff => number - 0x1_0000,
        IntType::Int if natural > 0x7fff_ffff => number - 0x1_0000_0000,
        IntType::Long | IntType::LLong if natural > 0x7fff_ffff_ffff_ffff => number
            - 0x1_0000_0000_0000_0000,
        _ => number,
    }
}

#[cfg(test)]
mod tests {
    use super::*;
    use std::test::Fail;

    #[test]
    fn values_of_numbers(rt: HostRuntime) -> Result<(), Fail> {
        let seven = Value::of_int(rt.alloc(), IntType::Int, 7)?;
        let bytes = [
            MByte::Byte(0x07),
            MByte::Byte(0x00),
            MByte::Byte(0x00),
            MByte::Byte(0x00),
        ];
        assert_eq!(rt; seven.as_slice(), bytes.as_slice());
        assert_eq!(rt; seven.len(), 4);
        let least = Value::of_int(rt.alloc(), IntType::Int, -1)?;
        assert_eq!(rt; least.as_slice(), [MByte::Byte(0xff); 4].as_slice());
        assert_eq!(rt; seven.to_int(IntType::Int), Some(7));
        assert_eq!(rt; seven.to_int(IntType::Long), None);
        assert_eq!(rt; least.to_int(IntType::Int), Some(-1));
        assert_eq!(rt; least.to_int(IntType::UInt), Some(0xffff_ffff));
        let wide = Value::of_int(rt.alloc(), IntType::Long, -1)?;
        assert_eq!(rt; wide.as_slice(), [MByte::Byte(0xff); 8].as_slice());
        Ok(())
    }

    #[test]
    fn values_of_poison(rt: HostRuntime) -> Result<(), Fail> {
        let poison = Value::poison(rt.alloc(), 3)?;
        assert_eq!(rt; poison.as_slice(), [MByte::Poison; 3].as_slice());
        assert!(rt; Value::poison(rt.alloc(), 0)?.is_empty());
        Ok(())
    }

    #[test]
    fn values_of_booleans_and_pointers(rt: HostRuntime) -> Result<(), Fail> {
        let alloc = rt.alloc();
        let yes = Value::of_bool(alloc, true)?;
        assert_eq!(rt; yes.as_slice(), [MByte::Byte(1)].as_slice());
        assert_eq!(rt; yes.to_bool(), Ok(true));
        assert_eq!(rt; Value::of_bool(alloc, false)?.to_bool(), Ok(false));
        let two = Value::of_int(alloc, IntType::Char, 2)?;
        assert_eq!(rt; two.to_bool(), Err(NotBool::BadByte));
        let wide = Value::of_int(alloc, IntType::Int, 1)?;
        assert_eq!(rt; wide.to_bool(), Err(NotBool::NotPlain));
        assert_eq!(rt; Value::poison(alloc, 1)?.to_bool(), Err(NotBool::NotPlain));
        let place = Loc::At {
            block: 3,
            offset: 4,
        };
        let pointer = Value::of_pointer(alloc, place)?;
        assert_eq!(rt; pointer.to_pointer(), Some(place));
        assert_eq!(rt; pointer.to_int(IntType::Long), None);
        assert_eq!(rt;
            Value::of_pointer(alloc, Loc::Null)?.to_pointer(),
            Some(Loc::Null)
        );
        assert_eq!(rt; yes.to_pointer(), None);
        assert_eq!(rt; pointer.len(), 8);
        assert_eq!(rt; pointer.as_slice().first(), Some(&MByte::Frag(place, 0)));
        assert_eq!(rt; pointer.as_slice().last(), Some(&MByte::Frag(place, 7)));
        assert_eq!(rt; pointer.to_bool(), Err(NotBool::NotPlain));
        Ok(())
    }
}
