//! A fault by its number and its place.

use lex::token::Span;

/// A fault of names and types, of safety or of separation.
#[derive(Clone, Copy, PartialEq, Eq)]
pub struct Fault {
    pub number: u32,
    pub span: Span,
}
