//! What a body does, in the order of its text.

use crate::facts::{Given, Test};
use lex::token::Span;
use syntax::tree::TransactionKind;

/// Which element of an array is accessed, as far as its index shows.
#[derive(Clone, Copy)]
pub(crate) enum Cell {
    /// A variable that is no array.
    Whole,
    /// The element of a constant index.
    Constant(u64),
    /// The element whose index is a local, by the number of the action that declares it.
    Local(usize),
    /// Any element.
    Unknown,
}

impl Cell {
    /// Whether two accesses to one global are to the same element.
    pub(crate) fn is_same(self, other: Cell) -> bool {
        match (self, other) {
            (Cell::Whole, Cell::Whole) => true,
            (Cell::Constant(one), Cell::Constant(other)) => one == other,
            (Cell::Local(one), Cell::Local(other)) => one == other,
            _ => false,
        }
    }
}

/// A variable that is read or written: a global or an element of an array, or a local, by the number of the action that
/// declares it.
#[derive(Clone, Copy)]
pub(crate) struct Variable<'a> {
    pub(crate) name: &'a str,
    pub(crate) local: Option<usize>,
    pub(crate) cell: Cell,
    pub(crate) span: Span,
}

/// A part of a body, round other actions.
#[derive(Clone, Copy)]
pub(crate) enum Part {
    Block,
    /// A statement that may be left out: a branch of an `if`, or the body of a loop.
    Branch,
    /// An `if` or a `? :`, with its condition and its branches; and what follows an `if` in its block, if one of its
    /// branches does not come to its end.
    Choice,
    Condition,
    Loop,
    /// The condition of a loop, and where it stands.
    LoopCondition(Span),
    Transaction(TransactionKind),
    /// A transaction that is an expression.
    ValueTransaction,
    /// A full expression or an assignment: what it reads, and the write after it.
    Value,
    /// An argument of a call.
    Argument,
    /// A remainder, with its operands.
    Remainder,
}

/// An argument of a call.
#[derive(Clone, Copy)]
pub(crate) struct Argument<'a> {
    /// The name of the function that is called.
    pub(crate) called: &'a str,
    /// The number of the parameter.
    pub(crate) number: usize,
    /// The local that it is, by the number of the action that declares it.
    pub(crate) local: Option<usize>,
}

/// What a body does at one place.
#[derive(Clone, Copy)]
pub(crate) enum Action<'a> {
    Begins(Part),
    Ends(Part),
    /// A local is declared.
    Declares,
    Reads(Variable<'a>),
    Writes(Variable<'a>, Given<'a>),
    /// A condition begins, and this is known of it.
    Tests(Test<'a>),
    /// A local, by the number of the action that declares it, is compared with a constant or divided by one. If it is
    /// the number of a thread, that is of use only with so many threads.
    Counts {
        local: usize,
        threads: u64,
        span: Span,
    },
    /// The end of an argument.
    Passes(Argument<'a>),
    /// A call of the function of this name, and where it stands.
    Calls(&'a str, Span),
    /// A value is returned.
    Returns(Given<'a>),
    /// A `break`, a `continue` or a `return`.
    Jumps,
    /// A cancel of the innermost transaction, or of the outer one, and where it stands.
    Cancels {
        is_outer: bool,
        span: Span,
    },
}
