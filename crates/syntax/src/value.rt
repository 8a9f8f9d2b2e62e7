//! A number of the source: its type with its word.

use lex::token::Scalar;

/// A number: its type, and the word that denotes it, below 2^32 if the type is not `long long`.
#[derive(Clone, Copy, PartialEq, Eq)]
pub struct Value {
    pub ty: Scalar,
    pub word: u64,
}
