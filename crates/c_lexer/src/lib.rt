//! C tokens with their places. The layer above calls `lex` on the bytes of a file, and reads kinds,
//! values and texts from the tokens: no later layer looks at the bytes again. Directives are gone by
//! then: macros are replaced, and of the includes the tokens keep which stood where.
#![tactic(auto)]

mod atomic_operation;
mod byte;
mod character;
mod comment;
mod directive;
mod element;
mod fault;
mod floating;
mod gap;
mod header;
mod header_type;
mod includes;
mod integer;
mod keyword;
mod kinds;
mod laws;
mod lexer;
mod names;
mod number;
mod passing;
mod place;
mod punctuator;
mod reader;
mod scanner;
mod string;
#[cfg(test)]
mod tests;
mod token;
mod tokens;
mod word;

pub use atomic_operation::AtomicOperation;
pub use fault::{LexFault, LexFaultKind, LexRefusal};
pub use header::Header;
pub use header_type::HeaderType;
pub use keyword::Keyword;
pub use laws::{every_file_has_a_reading, readings_are_determined};
pub use lexer::lex;
pub use number::{DecimalConstant, integer_constant};
pub use punctuator::Punctuator;
pub use reader::TOKEN_LIMIT;
pub use token::{CharacterConstant, IntegerBase, IntegerConstant, IntegerSuffix, Token, TokenKind};
pub use tokens::{Include, Tokens};
