//! What a line of a schedule asks for.

/// The most steps of a schedule: the counts of its lines, added.
pub const MOST_STEPS: u32 = 1_048_576;

/// Steps of one thread.
#[derive(Clone, Copy, PartialEq, Eq)]
pub struct Line {
    /// The thread's number.
    pub thread: u32,
    /// How many steps; or how many accesses to the lock or a cell, after the last of which the thread stops.
    pub count: u32,
    /// Whether accesses are counted.
    pub accesses: bool,
}
