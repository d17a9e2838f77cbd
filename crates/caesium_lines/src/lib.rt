//! The lines of the text of a Caesium program, each as data whose parts are named as the text names them, and how a
//! line is spelled. A layer above says which lines a program has.
#![tactic(auto)]

mod end;
mod layout;
mod line;
mod operation;
mod words;

pub use end::{NamedCase, NamedEnd, append_end};
pub use layout::{NamedLayout, NamedLocal, NamedMember};
pub use line::{Line, append_line};
pub use operation::{NamedOp, append_op};
pub use words::{int_word, operator_word};
