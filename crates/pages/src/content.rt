//! The content of a page.

use containers::{Items, Text};
use std::alloc::{Allocator, Global};
use traces::Named;

/// How a thread rests between its turns.
#[derive(Drop)]
pub struct RestShown<A: Allocator = Global> {
    /// The line and the column of the transaction that it executes next, if it runs.
    pub at: Option<(usize, usize)>,
    /// The first words of that transaction.
    pub words: Text<A>,
    /// How it ended; nothing if it runs.
    pub end: Text<A>,
    /// The text that it has printed.
    pub printed: Text<A>,
}

/// The number of no state.
pub const NO_STATE: u32 = 4294967295;

/// The states that threads reach, and the turns that lead from each to another one. State 0 is the first one.
#[derive(Clone, Copy)]
pub struct States<'a> {
    /// For each state the words of its memory, and then for each thread the number of its rest.
    pub rows: &'a [u64],
    /// For each state and each thread the state after its turn, or `NO_STATE` if the page lacks it.
    pub targets: &'a [u32],
    /// For each state and each thread the number of the cells that its turn reads and writes.
    pub turns: &'a [u32],
    /// Whether these are all states.
    pub are_all: bool,
}

/// A property: a function of the program, and its value in each state.
#[derive(Drop)]
pub struct PropertyShown<A: Allocator = Global> {
    pub name: Text<A>,
    /// For each state `1` if the property holds there, `0` if it fails, and `?` if it takes too many ticks.
    pub values: Text<A>,
}

/// What a page shows.
#[derive(Clone, Copy)]
pub struct Page<'a, A: Allocator = Global> {
    pub file: &'a str,
    /// The options of the call that change the source.
    pub options: &'a str,
    /// The source.
    pub text: &'a str,
    pub threads: u32,
    /// The order at which the page opens.
    pub order: &'a [u32],
    pub globals: &'a [Named<A>],
    /// How many cells they have.
    pub cells: usize,
    pub states: States<'a>,
    /// The rests to which the numbers of the states refer.
    pub rests: &'a [RestShown<A>],
    /// The cells that turns read before they write them, and those that they write.
    pub touched: &'a [(Items<u32, A>, Items<u32, A>)],
    pub properties: &'a [PropertyShown<A>],
}
