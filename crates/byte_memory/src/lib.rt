//! Byte memory: the bytes of blocks and values as the logic sees them, poison and pointer fragments included, loads and
//! stores with their faults, and how integers, booleans and pointers lie in bytes.
#![tactic(auto)]

mod block;
mod cell;
mod encoding;
mod fault;
mod laws;
mod memory;
#[cfg(test)]
mod tests;
mod value;

pub use encoding::encode_int;
pub use fault::{LoadFault, MemoryUb};
pub use laws::{
    closing_touches_no_other_block, numbers_are_read_back, opening_touches_no_block,
    stored_is_loaded, stores_beside_change_nothing, stores_keep_faults,
};
pub use memory::Memory;
pub use rc_terms::MByte;
pub use value::{NotBool, Value};
