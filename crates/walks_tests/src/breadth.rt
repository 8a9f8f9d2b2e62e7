//! Breadth-first search finds as many states as depth-first search, in the order of their distance from the first one.

ghost use Rattle.bytecode.specs.Code.{Code};
ghost use Rattle.walks.specs.Walks.{IsWalk};

use crate::programs::{ADDS, DINES, LOCKS, PRINTS, TICKETS, TRAPS, WAITS};
use crate::walked::{code_of, walk_of, walk_within};
use std::alloc::Allocator;
use test_programs::accepted_of;
use walks::{Strategy, Walk};

/// A program, and threads.
type Row = (&'static str, u32);

fn rows() -> &'static [Row] {
    static ROWS: [Row; 10] = [
        (ADDS, 1),
        (ADDS, 3),
        (WAITS, 2),
        (TICKETS, 2),
        (TICKETS, 3),
        (LOCKS, 2),
        (LOCKS, 4),
        (DINES, 4),
        (PRINTS, 2),
        (TRAPS, 2),
    ];
    &ROWS
}

/// Whether the order to each state has at least as many turns as that to the state before it.
fn are_nearest_first<A: Allocator + Copy>(walk: &Walk<A>) -> bool
    requires { (code : Code) × IsWalk code walk.now }
{
    let mut longest = 0;
    'states: for j in 0..walk.states() {
        let Ok(order) = walk.order_to(j) else {
            return false;
        };
        if order.len() < longest {
            return false;
        }
        longest = order.len();
    }
    true
}

/// How many states a complete search has found, if it has found the nearest ones first.
fn states_nearest_first<A: Allocator + Copy>(walk: &Walk<A>) -> Option<usize>
    requires { (code : Code) × IsWalk code walk.now }
{
    if walk.is_whole() && are_nearest_first(walk) {
        Some(walk.states())
    } else {
        None
    }
}

/// How many states a breadth-first search finds, the nearest ones first.
fn wide_states<A: Allocator + Copy>(
    alloc: A,
    code: &bytecode::Code<A>,
    threads: u32,
) -> Option<usize> {
    match walk_within(
        alloc,
        code,
        threads,
        Strategy::BreadthFirst,
        1000000,
        u64::MAX,
    ) {
        Ok(Some(walk)) => states_nearest_first(&walk),
        _ => None,
    }
}

/// How many states a depth-first search finds.
fn deep_states<A: Allocator + Copy>(
    alloc: A,
    code: &bytecode::Code<A>,
    threads: u32,
) -> Option<usize> {
    match walk_of(alloc, code, threads, 1000000) {
        Ok(Some(walk)) => Some(walk.states()),
        _ => None,
    }
}

/// Whether both searches of a program find as many states.
fn is_so<A: Allocator + Copy>(alloc: A, row: &Row) -> Option<bool> {
    let accepted = accepted_of(alloc, row.0)?;
    let code = code_of(alloc, &accepted)?;
    let wide = wide_states(alloc, &code, row.1)?;
    let deep = deep_states(alloc, &code, row.1)?;
    Some(wide == deep)
}

/// The first row that is not so.
fn first_other<A: Allocator + Copy>(alloc: A, rows: &[Row]) -> Option<(&'static str, u32)> {
    'rows: for row in rows {
        if is_so(alloc, row) != Some(true) {
            return Some((row.0, row.1));
        }
    }
    None
}

#[test]
fn breadth_first_search_finds_the_nearest_states_first(rt: HostRuntime) {
    assert_eq!(rt; first_other(rt.alloc(), rows()), None);
}
