//! The sites of a body: where the constructs stand of which the rules on transactions speak.

use lex::token::Span;

/// What stands at a site.
#[derive(Clone, Copy)]
pub enum Construct<'a> {
    /// A `printf`.
    Prints,
    /// A relaxed transaction.
    Relaxes,
    /// An outer transaction.
    OpensOuter,
    /// A cancel.
    Cancels,
    /// An outer cancel.
    CancelsOuter,
    /// A call of the function of this name.
    Calls(&'a str),
    /// An access to the global of this name.
    Uses(&'a str),
}

/// A construct in a body. Its span is that of the word or the name that a fault points at.
#[derive(Clone, Copy)]
pub struct Site<'a> {
    pub construct: Construct<'a>,
    pub span: Span,

    /// Whether an atomic transaction of the same body is round it.
    pub atomic: bool,

    /// Whether an outer transaction of the same body is round it.
    pub outer: bool,

    /// Whether any transaction of the same body is round it.
    pub in_any: bool,
}

/// The transactions that are round a point of a body.
#[derive(Clone, Copy)]
pub(crate) struct TransactionsAround {
    pub(crate) atomic: bool,
    pub(crate) outer: bool,
    pub(crate) in_any: bool,
}
