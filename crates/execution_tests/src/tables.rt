//! Tables that are opened, shared out among seats and closed.

use crate::asserted::assert_that;
use crate::setups::setup;
use shared_words::{Setup, close, join, meet, open, split_first};
use std::alloc::{Allocator, Global};
use test_memory::{Refusing, growths};

/// What the cells have that a table leaves, whose seats part and join.
fn cells_left(alloc: Global, setup: &Setup) -> Option<Vec<u64>> {
    match open(alloc, setup) {
        Ok((table, mut all)) => {
            let first = split_first(&table.shared, &mut all);
            join(&table.shared, &mut all, first);
            match Vec::with_capacity(alloc, table.word_count() - 1) {
                Ok(room) => Some(close(table, all, room)),
                Err(_) => None,
            }
        }
        Err(_) => None,
    }
}

/// Whether a setup's table leaves these words in the two variables.
fn leaves(alloc: Global, setup: &Setup, first: u64, second: u64) -> bool {
    match cells_left(alloc, setup) {
        Some(cells) => cells.as_slice() == [first, second].as_slice(),
        None => false,
    }
}

/// Whether two threads' table leaves what its variables begin with.
fn leaves_all(alloc: Global) -> bool {
    match setup(alloc, 7, 9, 2) {
        Some(setup) => leaves(alloc, &setup, 7, 9),
        None => false,
    }
}

#[test]
fn seats_part_and_join(rt: HostRuntime) {
    assert_that(&rt, leaves_all(rt.alloc()));
}

/// The lock that the first of two threads finds where it meets the other.
fn lock_met(alloc: Global, setup: &Setup) -> Option<u64> {
    match open(alloc, setup) {
        Ok((table, mut all)) => {
            let mut first = split_first(&table.shared, &mut all);
            Some(meet(&table.shared, &mut first, &mut all))
        }
        Err(_) => None,
    }
}

/// The lock that the first of two threads of a new table finds where it meets the other.
fn met_first(alloc: Global) -> Option<u64> {
    match setup(alloc, 7, 9, 2) {
        Some(setup) => lock_met(alloc, &setup),
        None => None,
    }
}

#[test]
fn two_meet_while_nobody_has_taken_the_lock(rt: HostRuntime) {
    assert_that(&rt, met_first(rt.alloc()) == Some(0));
}

fn opens<A: Allocator + Copy>(alloc: A, setup: &Setup<A>) -> bool {
    open(alloc, setup).is_ok()
}

/// Whether a table is opened where growth `nth` behind its code's is not met, and else by a second call alone.
fn tells_in<A: Allocator + Copy, B: Allocator>(alloc: A, refusing: &Refusing<B>, nth: u64) -> bool {
    match setup(alloc, 1, 2, 64) {
        Some(setup) => {
            refusing.refuse(nth);
            let opened = opens(alloc, &setup);
            opened == refusing.is_waiting() && (opened || opens(alloc, &setup))
        }
        None => false,
    }
}

/// Whether an allocator that refuses lets a table be opened where growth `nth` behind its code's is not met, and else
/// by a second call alone.
fn tells(refusing: &Refusing<Global>, nth: u64) -> bool {
    tells_in(refusing, refusing, nth)
}

#[test]
fn each_growth_may_be_refused(rt: HostRuntime) {
    // the list of words, and the table's own
    assert_that(&rt, growths(rt.alloc(), 50, tells).ok() >= Some(2));
}
