//! A cursor over the tokens of a C file and the names in scope, and what is read by it that nests in nothing: names,
//! attributes, words of types, pointers, and what a token is at the beginning of a type or an expression. The layers
//! above read expressions, declarations and statements by it; each call answers what the reading functions of the
//! grammar give, or the first token at which nothing goes on.
#![tactic(auto)]

mod attribute_lists;
mod cursor;
mod deep;
mod infix;
mod integers;
mod left_out;
mod meanings;
mod names;
mod refusal;
mod starts;
mod storage;
mod type_words;

pub use attribute_lists::{attributes, name};
pub use cursor::{Cursor, FirstToken, Identifier, Quoted};
pub use deep::{DEPTH_LIMIT, Deep, deeper, further};
pub use infix::{
    ASSIGNMENT_LEVEL, CAST_LEVEL, COMMA_LEVEL, CONDITIONAL_LEVEL, Infix, POSTFIX_LEVEL,
    UNARY_LEVEL, binary_level, logical_level,
};
pub use integers::{has_integer_word, integer_type, modifiers, times};
pub use left_out::LeftOut;
pub use names::Names;
pub use refusal::ParseRefusal;
pub use starts::{Start, TypeStart, Word, is_type};
pub use storage::{at_second_storage, at_storage_word, behind_storage_words, words_before};
pub use type_words::{WordTest, is_integer_word, is_modifier, is_qualifier, pointers, words};
