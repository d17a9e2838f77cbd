//! Sizes, alignments and ranges of C's types on System V x86-64 (LP64), where `char` is signed, the table of a
//! program's structs and unions, and the operators that programs and arithmetic name.
#![tactic(auto)]

mod aggregate;
mod int_type;
mod layout;
mod operator;
mod table;
#[cfg(test)]
mod tests;

pub use aggregate::{
    LARGEST_OBJECT, LayoutRefusal, StructLayout, field_offset, struct_layout, union_layout,
};
pub use int_type::{IntType, int_range};
pub use layout::Layout;
pub use operator::Operator;
pub use table::{Declaration, Kind, Table, align_of, size_of, size_of_int};
