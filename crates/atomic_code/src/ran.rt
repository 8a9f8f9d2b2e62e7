//! What comes of a thread that is carried on.

use std::alloc::{Allocator, Global};
use syntax::thread_end::Trap;

/// How a thread is over.
#[derive(Clone, Copy, PartialEq, Eq)]
pub enum AtomicEnd {
    /// The thread has come to its end.
    Ended,

    /// The thread has trapped.
    Trapped(Trap),
}

/// What comes of a thread that is carried on.
#[derive(Drop)]
pub struct Ran<A: Allocator = Global> {
    /// How many instructions the thread made.
    pub steps: u64,

    /// The memory that the thread left, a word for each cell: where an outermost transaction has come to its end.
    pub left: Option<Vec<u64, A>>,

    /// How the thread is over, if it is.
    pub end: Option<AtomicEnd>,
}
