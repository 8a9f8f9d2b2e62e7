//! Walks that are not whole: at a limit, by a thread that takes too long, where memory is refused.

use crate::asserted::assert_that;
use crate::programs::{ADDS, LATE, LOCKS, LOOPS};
use crate::walked::{code_of, walk_of, walk_within};
use std::alloc::{Allocator, Global};
use test_memory::{Refusing, growths};
use test_programs::accepted_of;
use walks::{Strategy, Walk, ends_of, first_stuck};

/// Whether a walk at a limit has as many states, and is whole where there are no more than eight.
fn is_cut<A: Allocator + Copy>(walk: &Walk<A>, limit: usize) -> bool {
    walk.states() == limit.max(1).min(8) && walk.is_whole() == (limit >= 8) && !walk.is_long()
}

/// Whether walks of two threads are so at all limits below 12.
fn are_cut<A: Allocator + Copy>(alloc: A) -> Option<bool> {
    let accepted = accepted_of(alloc, ADDS)?;
    let code = code_of(alloc, &accepted)?;
    'limits: for limit in 0..12 {
        match walk_of(alloc, &code, 2, limit) {
            Ok(Some(walk)) => {
                if !is_cut(&walk, limit as usize) {
                    return Some(false);
                }
            }
            _ => return None,
        }
    }
    Some(true)
}

#[test]
fn a_limit_is_met(rt: HostRuntime) {
    assert_that(&rt, are_cut(rt.alloc()) == Some(true));
}

/// Whether the walk of two threads for which so many bytes are there has as many states as wanted, and is whole where
/// these are all.
fn is_cut_within<A: Allocator + Copy>(alloc: A, bytes: u64, states: usize) -> Option<bool> {
    let accepted = accepted_of(alloc, ADDS)?;
    let code = code_of(alloc, &accepted)?;
    match walk_within(alloc, &code, 2, Strategy::DepthFirst, 100, bytes) {
        Ok(Some(walk)) => Some(
            walk.states() == states && walk.is_whole() == (states == 8) && !walk.is_long(),
        ),
        _ => None,
    }
}

/// A walk makes the turns of its first state before it calls `Progress`. Both lead to one state, since the threads
/// begin alike.
#[test]
fn a_walk_ends_where_it_takes_too_much_memory(rt: HostRuntime) {
    assert_that(&rt, is_cut_within(rt.alloc(), 0, 2) == Some(true));
    assert_that(&rt, is_cut_within(rt.alloc(), 1000000, 8) == Some(true));
}

/// Of a walk whether it is long, and whether it is whole: none where there is no walk.
fn lengths<A: Allocator + Copy>(alloc: A, text: &str, threads: u32) -> Option<(bool, bool)> {
    let accepted = accepted_of(alloc, text)?;
    let code = code_of(alloc, &accepted)?;
    match walk_of(alloc, &code, threads, 100) {
        Ok(Some(walk)) => Some((walk.is_long(), walk.is_whole())),
        _ => None,
    }
}

#[test]
fn a_thread_that_takes_too_long_is_told(rt: HostRuntime) {
    assert_that(&rt, lengths(rt.alloc(), LOOPS, 1) == Some((false, true)));
    assert_that(&rt, lengths(rt.alloc(), LOOPS, 2) == Some((true, false)));
    assert_that(&rt, lengths(rt.alloc(), LATE, 1) == Some((false, true)));
    assert_that(&rt, lengths(rt.alloc(), LATE, 2).is_none());
}

/// Whether the walk of two threads is made, with its ends and what is stuck: none where memory is refused.
fn is_made<A: Allocator + Copy>(
    alloc: A,
    text: &str,
    refusing: &Refusing<Global>,
    nth: u64,
) -> Option<bool> {
    let accepted = accepted_of(alloc, text)?;
    let code = code_of(alloc, &accepted)?;
    refusing.refuse(nth);
    let Ok(Some(walk)) = walk_of(alloc, &code, 2, 100) else {
        return Some(false);
    };
    let Ok(found) = ends_of(&walk) else {
        return Some(false);
    };
    let ends = found?;
    let Ok(first) = first_stuck(&walk, &ends) else {
        return Some(false);
    };
    'states: for j in 0..walk.states() {
        if walk.order_to(j).is_err() {
            return Some(false);
        }
    }
    Some(first.len() == 1)
}

/// How many growths the walk of two locks takes, each of which is refused once: it is made where the growth is not met.
fn growths_of_locks(inner: Global) -> Result<u64, u64> {
    growths(
        inner,
        5000,
        |alloc, nth| is_made(alloc, LOCKS, alloc, nth) == Some(alloc.is_waiting()),
    )
}

#[test]
fn each_growth_that_is_refused_is_told(rt: HostRuntime) {
    assert_that(&rt, growths_of_locks(rt.alloc()).ok() > Some(100));
}
