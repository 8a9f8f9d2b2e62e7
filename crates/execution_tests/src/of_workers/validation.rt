//! Validation, and begins that wait for the lock, in runs that end amid them.

use crate::asserted::assert_all;
use crate::of_workers::hall::{Turn, are_turns, leaves, open_hall};
use crate::of_workers::programs::{Program, adds, reads_again};
use std::alloc::Global;
use workers::{RunEnd, Worker};

/// Attempts that a worker has begun, those dropped, and loads of the lock that were made again.
type Counted = (u64, u64, u64);

/// Whether worker 0 has counted this.
fn has_counted(workers: &[Worker], wanted: Counted) -> bool {
    match workers.iter().find(|worker| worker.thread() == 0) {
        Some(worker) => {
            let tally = worker.tally();
            (tally.begun, tally.dropped, tally.retried) == wanted
        }
        None => false,
    }
}

/// Whether two workers of a program make these turns, this word is left, and worker 0 has counted this.
fn makes(alloc: Global, program: Program, turns: &[Turn], word: u64, wanted: Counted) -> bool {
    match open_hall(alloc, program, 2) {
        Ok((hall, mut workers)) => {
            let right = are_turns(&hall, &mut workers, turns);
            let counted = has_counted(workers.as_slice(), wanted);
            let closes = leaves(alloc, hall, workers, (word, "", ""));
            right && counted && closes
        }
        Err(_) => false,
    }
}

/// Whether two workers, of which worker 0 reads four times and worker 1 writes this word, make these turns, the word
/// is left, and worker 0 has counted this.
fn makes_reading(alloc: Global, written: u32, turns: &[Turn], wanted: Counted) -> bool {
    makes(
        alloc,
        (3, 0, &reads_again(written)),
        turns,
        written as u64,
        wanted,
    )
}

/// Worker 1 writes the word that is there before the last of the reads: validation finds all three entries unchanged.
fn goes_on() -> &'static [Turn] {
    static TURNS: [Turn; 3] = [
        Turn::Run(0, 9, RunEnd::Budget, 9, 7),
        Turn::Run(1, 100, RunEnd::Ended, 9, 4),
        Turn::Run(0, 100, RunEnd::Ended, 21, 16),
    ];
    &TURNS
}

/// Worker 1 writes the word that is there before the last of the reads, and the runs of worker 0 end after the lock's
/// load, after the second entry, and after the last one.
fn goes_on_in_pieces() -> &'static [Turn] {
    static TURNS: [Turn; 6] = [
        Turn::Run(0, 9, RunEnd::Budget, 9, 7),
        Turn::Run(1, 100, RunEnd::Ended, 9, 4),
        Turn::Run(0, 3, RunEnd::Budget, 12, 10),
        Turn::Run(0, 2, RunEnd::Budget, 14, 12),
        Turn::Run(0, 1, RunEnd::Budget, 15, 13),
        Turn::Run(0, 100, RunEnd::Ended, 21, 16),
    ];
    &TURNS
}

/// Worker 1 has the lock before the last of the reads, and writes the word that is there: validation waits for its
/// release.
fn waits() -> &'static [Turn] {
    static TURNS: [Turn; 5] = [
        Turn::Run(0, 9, RunEnd::Budget, 9, 7),
        Turn::Run(1, 6, RunEnd::Budget, 6, 2),
        Turn::Run(0, 5, RunEnd::Budget, 14, 12),
        Turn::Run(1, 100, RunEnd::Ended, 9, 4),
        Turn::Run(0, 100, RunEnd::Ended, 24, 19),
    ];
    &TURNS
}

/// Worker 1 has the lock where worker 0 begins, which waits for its release.
fn begins_late() -> &'static [Turn] {
    static TURNS: [Turn; 4] = [
        Turn::Run(1, 6, RunEnd::Budget, 6, 2),
        Turn::Run(0, 7, RunEnd::Budget, 7, 5),
        Turn::Run(1, 100, RunEnd::Ended, 9, 4),
        Turn::Run(0, 100, RunEnd::Ended, 19, 14),
    ];
    &TURNS
}

/// Worker 1 writes another word: validation drops the attempt at its first entry.
fn begins_anew() -> &'static [Turn] {
    static TURNS: [Turn; 3] = [
        Turn::Run(0, 9, RunEnd::Budget, 9, 7),
        Turn::Run(1, 100, RunEnd::Ended, 9, 4),
        Turn::Run(0, 100, RunEnd::Ended, 25, 20),
    ];
    &TURNS
}

/// Both workers add, worker 1 between the reads of worker 0 and its commit, which loses its swap.
fn loses_its_swap() -> &'static [Turn] {
    static TURNS: [Turn; 3] = [
        Turn::Run(0, 6, RunEnd::Budget, 6, 3),
        Turn::Run(1, 100, RunEnd::Ended, 10, 6),
        Turn::Run(0, 100, RunEnd::Ended, 19, 12),
    ];
    &TURNS
}

#[test]
fn validation_finds_what_was_read(rt: HostRuntime) {
    let whole = makes_reading(rt.alloc(), 0, goes_on(), (1, 0, 0));
    let pieces = makes_reading(rt.alloc(), 0, goes_on_in_pieces(), (1, 0, 0));
    assert_all(&rt, &[("whole", whole), ("in pieces", pieces)]);
}

#[test]
fn a_lock_that_is_taken_is_waited_for(rt: HostRuntime) {
    let waited = makes_reading(rt.alloc(), 0, waits(), (1, 0, 3));
    let late = makes_reading(rt.alloc(), 0, begins_late(), (1, 0, 5));
    assert_all(&rt, &[("waited for", waited), ("begun late", late)]);
}

#[test]
fn another_word_drops_the_attempt(rt: HostRuntime) {
    let anew = makes_reading(rt.alloc(), 1, begins_anew(), (2, 1, 0));
    let lost = makes(rt.alloc(), adds(), loses_its_swap(), 2, (2, 1, 0));
    assert_all(&rt, &[("begun anew", anew), ("a lost swap", lost)]);
}
