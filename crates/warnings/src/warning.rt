//! What is warned of, and where.

use lex::token::Span;

/// What a warning says.
#[derive(Clone, Copy, PartialEq, Eq, Debug)]
pub enum WarningKind {
    /// A loop whose condition no thread changes.
    EndlessWait,
    /// A loop in one transaction that another thread would have to end: it ends only by an abort.
    TransactionWait,
    /// A wait for a lock that is taken and never given back.
    KeptLock,
    /// A write before a cancel that always follows in the same transaction.
    UndoneWrite,
    /// A read in one transaction by which another one writes what was read.
    StaleRead,
    /// A comparison with 0 that holds of each `unsigned`, or of none.
    NeverNegative,
    /// A comparison of an `unsigned` with a negative constant, which is converted.
    NegativeAsUnsigned,
    /// A division by a constant 0.
    ZeroDivisor,
    /// A constant index outside its array.
    IndexOutside,
    /// An index by the thread's own number that is outside its array in threads which another place counts on.
    OwnIndex,
    /// A shift by a constant out of its range.
    ShiftOutside,
    /// A function with a value whose end can be reached.
    MissingReturn,
    /// An `if` with `;` for its branch.
    EmptyIf,
}

impl WarningKind {
    /// The name by which it is told.
    pub fn name(self) -> &'static str {
        match self {
            WarningKind::EndlessWait => "endless-wait",
            WarningKind::TransactionWait => "transaction-wait",
            WarningKind::KeptLock => "kept-lock",
            WarningKind::UndoneWrite => "undone-write",
            WarningKind::StaleRead => "stale-read",
            WarningKind::NeverNegative => "never-negative",
            WarningKind::NegativeAsUnsigned => "negative-as-unsigned",
            WarningKind::ZeroDivisor => "zero-divisor",
            WarningKind::IndexOutside => "index-outside",
            WarningKind::OwnIndex => "own-index",
            WarningKind::ShiftOutside => "shift-outside",
            WarningKind::MissingReturn => "missing-return",
            WarningKind::EmptyIf => "empty-if",
        }
    }
}

/// A warning, and where it stands.
#[derive(Clone, Copy)]
pub struct Warning {
    pub kind: WarningKind,
    pub span: Span,
    /// What it speaks of besides: the cancel that undoes a write, the write that a read decides,
    /// the loop that a call waits in, the write that takes a lock, or the place that counts on more threads.
    pub other: Option<Span>,
}

impl Warning {
    /// A warning that speaks of nothing besides.
    pub(crate) fn at(kind: WarningKind, span: Span) -> Warning {
        Warning {
            kind,
            span,
            other: None,
        }
    }
}
