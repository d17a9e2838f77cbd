//! The grammar of C files, as the profile of C has it (C11 6.5 to 6.9): relations between tokens and trees, one case
//! for each production, under the names that are in scope. The layer above reads by it.
#![tactic(auto)]

mod laws;
mod names;

pub use laws::{files_are_read_exactly, trees_are_determined};
pub use names::{NameEntry, NameKind};
