//! What is known of an attempt at a transaction, and of a thread.

use std::alloc::{Allocator, Global};

/// A load of a cell's word: its row, and what was found.
#[derive(Clone, Copy)]
pub(crate) struct Load {
    pub cell: u32,
    pub row: u64,
    pub word: u64,
}

/// What the next load of the lock is for.
#[derive(Clone, Copy)]
pub(crate) enum NextLoad {
    /// Nothing: no load follows.
    Open,
    /// Whether a word that was loaded is of the attempt's moment.
    Check(Load),
    /// An even lock, to read all words again.
    Wait,
    /// Whether the words that were read again are of the moment of this even lock.
    Compare(u64),
}

/// An inner transaction.
#[derive(Clone, Copy)]
pub(crate) struct Inner {
    /// The row of its begin.
    pub row: u64,
    /// The offset of its keyword in the source, where that is known.
    pub keyword: Option<usize>,
}

/// An attempt at an outermost transaction.
#[derive(Drop)]
pub(crate) struct KnownAttempt<A: Allocator = Global> {
    /// The row of the attempt's begin, or the one before it, which names the transaction.
    pub row: u64,
    /// The offset of the transaction's keyword in the source, where that is known.
    pub keyword: Option<usize>,
    /// The even lock of whose moment the attempt's reads are.
    pub snapshot: u64,
    /// What the attempt has read, of each cell the first load.
    pub reads: Vec<Load, A>,
    pub phase: NextLoad,
    /// The inner transactions that are open.
    pub inner: Vec<Inner, A>,
    /// Whether the attempt has the lock.
    pub is_kept: bool,
}

/// A thread, as it is drawn.
#[derive(Drop)]
pub(crate) struct Lane<A: Allocator = Global> {
    pub open: Option<KnownAttempt<A>>,
    /// Attempts at the transaction that is under way.
    pub tries: u64,
    /// Attempts that were dropped, to which an arrow leads.
    pub drops: u64,
    /// The last row in which the thread is drawn.
    pub latest: u64,
    /// How much of the thread stands in the last row of the picture, if anything does: glyphs, of prints characters.
    pub standing: Option<usize>,
}

impl<A: Allocator> Lane<A> {
    /// A thread of which nothing is drawn yet.
    pub(crate) fn new() -> Lane<A> {
        Lane {
            open: None,
            tries: 0,
            drops: 0,
            latest: 0,
            standing: None,
        }
    }

    /// How many inner transactions are open.
    pub(crate) fn depth(&self) -> usize {
        match &self.open {
            Some(attempt) => attempt.inner.len(),
            None => 0,
        }
    }
}
