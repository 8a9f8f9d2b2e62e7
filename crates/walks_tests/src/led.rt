//! What stands in a state of a walk is what its order leaves in the source's meaning.

ghost use Rattle.std.specs.Prelude.{◌<◌};
ghost use Rattle.bytecode.specs.Code.{Code};
ghost use Rattle.walks.specs.Walks.{IsWalk};

use crate::programs::{ADDS, DINES, LOCKS, PRINTS, TICKETS, TRAPS, WAITS};
use crate::walked::{code_of, walk_of};
use atomic_code::AtomicThread;
use meaning::{SourceOutcome, ThreadEnd, ThreadReport, run_order};
use separation::Accepted;
use std::alloc::Allocator;
use syntax::thread_end::Status;
use test_programs::accepted_of;
use walks::Walk;

/// Whether a thread that rests is found as one that the source has ended with.
fn ends_so(status: Status, end: ThreadEnd) -> bool {
    match status {
        Status::Running => end == ThreadEnd::Wants,
        Status::Ended => end == ThreadEnd::Ended,
        Status::Trapped(cause) => end == ThreadEnd::Trapped(cause),
    }
}

/// Whether a thread that rests has printed the same as one that the source has ended with, and is found so.
fn rests_so<A: Allocator + Copy>(thread: &AtomicThread<A>, report: &ThreadReport<A>) -> bool {
    thread.output().as_bytes() == report.text.as_slice() && ends_so(thread.status(), report.end)
}

/// Whether the threads of a state are as an order has left them.
fn rest_so<A: Allocator + Copy>(walk: &Walk<A>, state: usize, reports: &[ThreadReport<A>]) -> bool
    requires walk { (code : Code) × IsWalk code walk.now }
    requires there { state < walk.now.rows.count }
{
    if reports.len() != walk.threads() {
        return false;
    }
    'threads: for t in 0..walk.threads() {
        if !rests_so(walk.thread(state, t), &reports[t]) {
            return false;
        }
    }
    true
}

/// Whether a state is what its order leaves.
fn is_left<A: Allocator + Copy>(
    alloc: A,
    accepted: &Accepted<A>,
    walk: &Walk<A>,
    state: usize,
    threads: u32,
) -> bool
    requires walk { (code : Code) × IsWalk code walk.now }
    requires there { state < walk.now.rows.count }
{
    let Ok(order) = walk.order_to(state) else {
        return false;
    };
    match run_order(alloc, accepted, threads, order.as_slice(), 10000) {
        Ok(left) => {
            walk.memory(state) == left.memory.as_slice()
                && rest_so(walk, state, left.threads.as_slice())
        }
        Err(_) => false,
    }
}

/// The first state of a walk that is not what its order leaves, if there is one.
fn other_state<A: Allocator + Copy>(
    alloc: A,
    accepted: &Accepted<A>,
    walk: &Walk<A>,
    threads: u32,
) -> Option<usize>
    requires { (code : Code) × IsWalk code walk.now }
{
    'states: for j in 0..walk.states() {
        if !is_left(alloc, accepted, walk, j, threads) {
            return Some(j);
        }
    }
    None
}

/// A program, and threads.
type Row = (&'static str, u32);

fn rows() -> &'static [Row] {
    static ROWS: [Row; 8] = [
        (ADDS, 1),
        (ADDS, 3),
        (WAITS, 2),
        (LOCKS, 2),
        (PRINTS, 3),
        (TRAPS, 3),
        (TICKETS, 2),
        (DINES, 2),
    ];
    &ROWS
}

/// Whether each state of a row's walk is what its order leaves.
fn is_so<A: Allocator + Copy>(alloc: A, row: &Row) -> Option<bool> {
    let accepted = accepted_of(alloc, row.0)?;
    let code = code_of(alloc, &accepted)?;
    match walk_of(alloc, &code, row.1, 1000) {
        Ok(Some(walk)) => Some(other_state(alloc, &accepted, &walk, row.1).is_none()),
        _ => None,
    }
}

/// The first row that is not so.
fn first_other<A: Allocator + Copy>(alloc: A, rows: &[Row]) -> Option<(&'static str, u32)> {
    'rows: for row in rows {
        if is_so(alloc, row) != Some(true) {
            return Some((row.0, row.1));
        }
    }
    None
}

#[test]
fn orders_lead_to_states(rt: HostRuntime) {
    assert_eq!(rt; first_other(rt.alloc(), rows()), None);
}
