//! Declarations of C files (C11 6.7): declarators, parameters, structs and unions with their members, and the names
//! that declarations bring into scope. Depths are counted and not limited here: the layer above judges whole items.
#![tactic(auto)]

mod declarators;
mod depths;
mod functions;
mod locals;
mod names;
mod parameters;
mod records;
mod refusals;
mod words;

pub use functions::{function_declared, function_names};
pub use locals::{declaration, local_declaration};
pub use names::typedef_names;
pub use records::defining;
pub use words::{agrees, declares_tag, is_typedef};

#[cfg(test)]
mod tests;
