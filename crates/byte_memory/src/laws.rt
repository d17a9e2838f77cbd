ghost use Rattle.std.specs.Prelude.{◌≡◌, ◌≢◌, ℕ, ◌<◌, List, length, replicate, slice_get, Some, None};
ghost use Rattle.rc_terms.specs.declared.location.Loc.{Loc};
ghost use Rattle.byte_memory.specs.declared.block.Block.{Block};
ghost use Rattle.byte_memory.specs.Encoding.{enc};
ghost use Rattle.byte_memory.specs.Values.{int_of};
ghost use Rattle.layouts.specs.declared.int_type.IntType.{IntType};
ghost use Rattle.layouts.specs.IntType.{IsInRange};
ghost use Rattle.std.specs.Prelude.{ℤ};
ghost use Rattle.rc_terms.specs.declared.byte.MByte.{MByte};
ghost use Rattle.rc_terms.specs.declared.byte.MByte.TheVariants.{Poison};
ghost use Rattle.byte_memory.specs.Memory.{fault_of, range_of, stored, opened, closed, bytes_at, length_at, AreApart};

/// What was stored is loaded, and an access that had no fault before a store has none after it.
pub fn stored_is_loaded()
    ensures defined { (memory : List Block) (at : Loc) (value : List MByte) (align : ℕ) →
        fault_of memory at (length value) align ≡ None →
        fault_of (stored memory at value) at (length value) align ≡ None }
    ensures loaded { (memory : List Block) (at : Loc) (value : List MByte) (align : ℕ) →
        fault_of memory at (length value) align ≡ None →
        range_of (stored memory at value) at (length value) ≡ value }
{}

/// A store changes the fault of no access.
pub fn stores_keep_faults()
    ensures { (memory : List Block) (at other : Loc) (value : List MByte) (align size divisor : ℕ) →
        fault_of memory at (length value) align ≡ None →
        fault_of (stored memory at value) other size divisor ≡ fault_of memory other size divisor }
{}

/// A store beside a range leaves its load alone.
pub fn stores_beside_change_nothing()
    ensures { (memory : List Block) (at other : Loc) (value : List MByte) (align size divisor : ℕ) →
        fault_of memory at (length value) align ≡ None → fault_of memory other size divisor ≡ None →
        AreApart at (length value) other size →
        range_of (stored memory at value) other size ≡ range_of memory other size }
{}

/// An opened block has a number that none had before, is all poison, and touches no other block.
pub fn opening_touches_no_block()
    ensures fresh { (memory : List Block) → slice_get memory (length memory) ≡ None }
    ensures poison { (memory : List Block) (len : ℕ) →
        bytes_at (opened memory len) (length memory) ≡ Some (replicate len Poison) }
    ensures others { (memory : List Block) (len block : ℕ) → block < length memory →
        slice_get (opened memory len) block ≡ slice_get memory block }
{}

/// A closed block is dead, keeps its length, and closing it touches no other block.
pub fn closing_touches_no_other_block()
    ensures dead { (memory : List Block) (block : ℕ) → bytes_at (closed memory block) block ≡ None }
    ensures length { (memory : List Block) (block : ℕ) →
        length_at (closed memory block) block ≡ length_at memory block }
    ensures others { (memory : List Block) (block other : ℕ) → other ≢ block →
        slice_get (closed memory block) other ≡ slice_get memory other }
{}

/// A number of a type is read back from its bytes.
pub fn numbers_are_read_back()
    ensures { (t : IntType) (n : ℤ) → IsInRange t n → int_of t (enc t n) ≡ Some n }
{}
