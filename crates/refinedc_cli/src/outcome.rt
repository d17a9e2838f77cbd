use crate::limit::Limit;
use crate::listing::RuleLine;
use c_lexer::LexFaultKind;
use c_parser::LeftOut;
use rc_text::{Place, Text};
use sqlite_items::Items;

/// What the work of a command comes to, with the values that its text shows and no text.
#[derive(Debug, Drop)]
pub enum Outcome {
    /// The file's functions meet their annotations: the lines of its listing.
    Accepted(Items<RuleLine>),
    /// A goal stayed open at the place.
    Refused(Place, OpenGoal),
    /// The file has a fault at the place.
    Faulty(Place, FileFault),
    /// The file of the name couldn't be opened or read.
    Unread(Text),
    /// The file passes the limit.
    Passed(Limit),
}

/// A goal that stayed open.
#[derive(Clone, Copy, Debug, PartialEq, Eq, Hash)]
pub enum OpenGoal {
    /// The equation of two numbers isn't true.
    Unsolved { left: u32, right: u32 },
}

/// What is wrong with a file.
#[derive(Debug, Drop)]
pub enum FileFault {
    /// No token begins at the place.
    Lexical(LexFaultKind),
    /// The grammar has nothing that goes on at the place.
    Syntax,
    /// A form begins at the place that the profile leaves out by name.
    LeftOutForm(LeftOut),
    /// The file has no fault, and isn't of the form that this version checks.
    NotYet,
}
