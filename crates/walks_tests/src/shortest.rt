//! After a complete depth-first search, the orders to states are as long as after a breadth-first one.

ghost use Rattle.bytecode.specs.Code.{Code};
ghost use Rattle.walks.specs.Walks.{IsWalk};

use crate::asserted::assert_that;
use crate::programs::{ADDS, DINES, LOCKS, PRINTS, TICKETS, TRAPS, WAITS};
use crate::walked::{code_of, walk_within};
use std::alloc::Allocator;
use test_programs::accepted_of;
use walks::{Strategy, Walk};

/// A program, and threads.
type Row = (&'static str, u32);

fn rows() -> &'static [Row] {
    static ROWS: [Row; 9] = [
        (ADDS, 1),
        (ADDS, 3),
        (WAITS, 2),
        (TICKETS, 2),
        (TICKETS, 3),
        (LOCKS, 3),
        (DINES, 4),
        (PRINTS, 2),
        (TRAPS, 2),
    ];
    &ROWS
}

/// Whether the order to each state has the length of its depth, and is known to be a shortest one.
fn are_shortest<A: Allocator + Copy>(walk: &Walk<A>) -> bool
    requires { (code : Code) × IsWalk code walk.now }
{
    'states: for j in 0..walk.states() {
        let Ok(order) = walk.order_to(j) else {
            return false;
        };
        if order.len() as u64 != walk.depth(j) as u64 || !walk.is_shortest(j) {
            return false;
        }
    }
    true
}

/// The depths of ranked states, summed up with their ranks as weights. None if they do not stand by depth.
fn weight<A: Allocator + Copy>(walk: &Walk<A>) -> Option<u64>
    requires { (code : Code) × IsWalk code walk.now }
{
    let mut last: u32 = 0;
    let mut sum: u64 = 0;
    'ranks: for n in 0..walk.states() {
        let depth = walk.depth(walk.ranked(n));
        if depth < last {
            return None;
        }
        last = depth;
        sum = sum.saturating_add((depth as u64).saturating_mul(n as u64));
    }
    Some(sum)
}

/// The weight of a search up to a limit, if all its orders are shortest.
fn weight_of<A: Allocator + Copy>(
    alloc: A,
    row: &Row,
    strategy: Strategy,
    limit: u32,
) -> Option<u64> {
    let accepted = accepted_of(alloc, row.0)?;
    let code = code_of(alloc, &accepted)?;
    match walk_within(alloc, &code, row.1, strategy, limit, u64::MAX) {
        Ok(Some(walk)) => {
            if walk.is_ranked() && are_shortest(&walk) {
                weight(&walk)
            } else {
                None
            }
        }
        _ => None,
    }
}

/// The first row of which the two searches differ in weight.
fn first_other<A: Allocator + Copy>(alloc: A, rows: &[Row]) -> Option<(&'static str, u32)> {
    'rows: for row in rows {
        let deep = weight_of(alloc, row, Strategy::DepthFirst, 1000000);
        if deep.is_none() || deep != weight_of(alloc, row, Strategy::BreadthFirst, 1000000) {
            return Some((row.0, row.1));
        }
    }
    None
}

#[test]
fn complete_searches_have_shortest_orders(rt: HostRuntime) {
    assert_eq!(rt; first_other(rt.alloc(), rows()), None);
}

#[test]
fn a_stopped_search_has_shortest_orders_if_it_is_breadth_first(rt: HostRuntime) {
    let row = (TICKETS, 3);
    assert_that(
        &rt,
        weight_of(rt.alloc(), &row, Strategy::BreadthFirst, 50).is_some(),
    );
    assert_that(
        &rt,
        weight_of(rt.alloc(), &row, Strategy::DepthFirst, 50).is_none(),
    );
}
