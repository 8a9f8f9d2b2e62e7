//! What a text's threads do.

use crate::asserted::assert_all;
use crate::of_meaning::memory::zeros;
use meaning::{ThreadEnd, ThreadOutcome, thread};
use separation::Accepted;
use std::alloc::{Allocator, Global};
use test_programs::accepted_of;

/// What `worker(t)` of a program does where its transactions find memories of so many cells that hold 0; none where
/// memory is refused.
fn run_accepted<A: Allocator + Copy>(
    alloc: A,
    accepted: &Accepted<A>,
    t: u32,
    founds: usize,
    ticks: u64,
) -> Option<ThreadOutcome<A>> {
    match zeros(alloc, founds, 4) {
        Ok(memories) => thread(alloc, accepted, t, memories.as_slice(), ticks).ok(),
        Err(_) => None,
    }
}

/// What `worker(t)` of a text does where its transactions find memories of so many cells that hold 0; none where the
/// text is no accepted program, or memory is refused.
pub(crate) fn run<A: Allocator + Copy>(
    alloc: A,
    text: &str,
    t: u32,
    founds: usize,
    ticks: u64,
) -> Option<ThreadOutcome<A>> {
    match accepted_of(alloc, text) {
        Some(accepted) => run_accepted(alloc, &accepted, t, founds, ticks),
        None => None,
    }
}

/// The first cell of the last memory that a thread has left.
pub(crate) fn first_left<A: Allocator>(outcome: &ThreadOutcome<A>) -> Option<u64> {
    match outcome.lefts.last() {
        Some(memory) => memory.first().copied(),
        None => None,
    }
}

/// A thousand transactions, each of which adds its number to what it finds.
const THOUSAND: &str =
    "int x; void worker(int self) { for (int i = 0; i < 1000; i++) __transaction_atomic { x = x + i; } }";

/// Whether a thread has left so many memories, each with its number in the first cell.
fn has_left_numbers(outcome: &ThreadOutcome, count: usize) -> bool {
    for (number, memory) in outcome.lefts.iter().enumerate() {
        if memory.first().copied() != Some(number as u64) {
            return false;
        }
    }
    outcome.lefts.len() == count
}

/// Whether the thread that is handed so many memories leaves as many, and comes to this end.
fn comes_to(alloc: Global, founds: usize, end: ThreadEnd) -> bool {
    match run(alloc, THOUSAND, 0, founds, 100_000) {
        Some(outcome) => has_left_numbers(&outcome, founds) && outcome.end == end,
        None => false,
    }
}

#[test]
fn a_thousand_transactions_are_handed_memories(rt: HostRuntime) {
    let alloc = rt.alloc();
    assert_all(
        &rt,
        &[
            ("a memory each", comes_to(alloc, 1000, ThreadEnd::Ended)),
            ("one fewer", comes_to(alloc, 999, ThreadEnd::Wants)),
        ],
    );
}
