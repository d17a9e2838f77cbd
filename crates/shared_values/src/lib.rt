//! A counted pointer that contracts see as the value it points to, so that a tree of them is plain data, and a part of
//! it that is used again is not copied.
#![tactic(auto)]

mod shared;

pub use shared::Shared;
