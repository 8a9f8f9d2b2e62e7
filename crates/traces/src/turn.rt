//! The content of a trace.

use containers::{Items, Text};
use lex::token::Scalar;
use std::alloc::Allocator;
use syntax::thread_end::Status;

/// A global variable or array.
#[derive(Drop)]
pub struct Named<A: Allocator = std::alloc::Global> {
    pub name: Text<A>,
    /// The type of its cells.
    pub ty: Scalar,
    /// How many cells an array has.
    pub length: Option<u64>,
}

/// A cell that a turn reads or writes, with its word before the turn and after it.
#[derive(Clone, Copy)]
pub struct Mark {
    pub cell: usize,
    pub found: u64,
    pub left: u64,
    pub is_written: bool,
}

/// So many turns at the end of which a turn stands, which come so many times one after another; they are shown once.
#[derive(Clone, Copy)]
pub struct Fold {
    pub period: u64,
    pub times: u64,
}

/// A turn of a thread: an outermost transaction, and what the thread does up to the next one.
#[derive(Drop)]
pub struct TurnShown<A: Allocator = std::alloc::Global> {
    pub thread: u32,
    /// Whether the thread had terminated before, so that nothing happens.
    pub is_idle: bool,
    /// Whether the transaction was cancelled.
    pub is_cancelled: bool,
    /// In the order of their cells.
    pub marks: Items<Mark, A>,
    /// The bytes that the thread prints.
    pub printed: Items<u8, A>,
    /// The thread's status after the turn.
    pub status: Status,
    /// Where the transaction is in the source.
    pub at: Items<u8, A>,
    /// The first words of the transaction there.
    pub words: Items<u8, A>,
    /// The turns that end with this one and come again, if they do.
    pub fold: Option<Fold>,
}

/// A thread after the last turn.
#[derive(Drop)]
pub struct ThreadAt<A: Allocator = std::alloc::Global> {
    pub status: Status,
    /// Words that tell where it is, and why it trapped; they begin with what separates them from the status.
    pub at: Items<u8, A>,
}
