//! The lexer: a source text cut into tokens, each with its span.
#![tactic(auto)]

mod bytes;
mod comment;
mod constant;
mod escape;
pub mod fault;
pub mod laws;
mod lexer;
mod line;
mod punctuator;
mod string;
pub mod token;
mod word;

pub use escape::unescape;
pub use fault::LexFault;
pub use lexer::{MOST_BYTES, lex};
pub use line::place;
