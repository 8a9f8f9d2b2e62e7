//! The content of a report.

use containers::{Items, Text};
use lex::token::Scalar;
use machine::Event;
use std::alloc::Allocator;
use syntax::thread_end::Trap;

/// The status of a thread.
#[derive(Clone, Copy, PartialEq, Eq)]
pub enum End {
    /// The thread has terminated.
    Ended,
    /// The thread has trapped.
    Trapped(Trap),
    /// An allocation failed.
    OutOfMemory,
    /// The thread would take the lock, whose numbers are used up.
    SequenceUsedUp,
    /// The thread's steps are used up.
    Budget,
    /// The thread would continue: a replay ends before it does.
    Running,
    /// The thread is blocked until its turn: an order of threads ends before it does.
    Waits,
    /// The thread is out of fuel.
    Spent,
}

/// A thread as it is shown.
#[derive(Drop)]
pub struct ThreadShown<A: Allocator = std::alloc::Global> {
    pub end: End,
    /// The bytes that the thread has printed.
    pub text: Items<u8, A>,
}

/// A global as it is shown.
#[derive(Drop)]
pub struct Shown<A: Allocator = std::alloc::Global> {
    pub name: Text<A>,
    pub ty: Scalar,
    /// A word for each of the global's cells.
    pub words: Items<u64, A>,
}

/// The content of a report.
#[derive(Drop)]
pub struct Printed<A: Allocator = std::alloc::Global> {
    /// Of a replay: for each step, how many shared accesses all threads had made with it, its thread, and its event.
    pub events: Option<Items<(u64, u32, Event), A>>,
    /// All threads, from thread 0 on.
    pub threads: Items<ThreadShown<A>, A>,
    /// In order of declaration.
    pub globals: Items<Shown<A>, A>,
    /// The thread that holds the lock, if one does.
    pub holder: Option<u32>,
}
