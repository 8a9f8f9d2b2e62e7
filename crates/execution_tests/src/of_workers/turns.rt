//! Workers one after another, in the test's own thread.

ghost use Rattle.workers.specs.Seen.{setup_of, table_of};
ghost use Rattle.workers.specs.Workers.{AreWorkersOf};

use crate::asserted::{assert_all, assert_that};
use crate::of_workers::hall::{Turn, are_turns, leaves, open_hall};
use crate::of_workers::programs::{adds, divides, looks};
use std::alloc::Global;
use syntax::thread_end::Trap;
use workers::{Hall, HallFault, RunEnd, Worker};

/// Worker 0 to its end, and then worker 1.
fn in_order() -> &'static [Turn] {
    static TURNS: [Turn; 2] = [
        Turn::Run(0, 100, RunEnd::Ended, 10, 4),
        Turn::Run(1, 100, RunEnd::Ended, 10, 3),
    ];
    &TURNS
}

/// Worker 0 to its end, a meeting, and then worker 1.
fn in_order_with_a_meeting() -> &'static [Turn] {
    static TURNS: [Turn; 3] = [
        Turn::Run(0, 100, RunEnd::Ended, 10, 4),
        Turn::Meet,
        Turn::Run(1, 100, RunEnd::Ended, 10, 3),
    ];
    &TURNS
}

/// Whether worker 1 reads what worker 0 wrote. Where the two have met before, its text follows from contracts: what it
/// begins then stands behind worker 0's transaction (`workers::laws::what_is_begun_after_a_meeting_stands_behind`).
/// Without a meeting no contract says that it does.
fn reads_it(alloc: Global, turns: &[Turn]) -> bool {
    match open_hall(alloc, looks(), 2) {
        Ok((hall, mut workers)) => {
            let right = are_turns(&hall, &mut workers, turns);
            let closes = leaves(alloc, hall, workers, (2, "", "2\n"));
            right && closes
        }
        Err(_) => false,
    }
}

#[test]
fn what_one_wrote_the_next_reads(rt: HostRuntime) {
    let in_turn = reads_it(rt.alloc(), in_order());
    let met = reads_it(rt.alloc(), in_order_with_a_meeting());
    assert_all(&rt, &[("in order", in_turn), ("with a meeting", met)]);
}

/// Worker 0 traps, and stays there.
fn trap_turns() -> &'static [Turn] {
    static TURNS: [Turn; 2] = [
        Turn::Run(0, 100, RunEnd::Trapped(Trap::ZeroDivisor), 3, 0),
        Turn::Run(0, 5, RunEnd::Trapped(Trap::ZeroDivisor), 3, 0),
    ];
    &TURNS
}

fn traps(alloc: Global) -> bool {
    match open_hall(alloc, divides(), 2) {
        Ok((hall, mut workers)) => are_turns(&hall, &mut workers, trap_turns()),
        Err(_) => false,
    }
}

#[test]
fn a_trap_is_told(rt: HostRuntime) {
    assert_that(&rt, traps(rt.alloc()));
}

/// A step of worker 1.
fn one_step() -> &'static [Turn] {
    static TURNS: [Turn; 1] = [Turn::Run(1, 1, RunEnd::Budget, 1, 1)];
    &TURNS
}

/// Whether another hall is opened, and a step is made in each.
fn opens_another(alloc: Global, hall: &Hall, workers: &mut Vec<Worker>) -> bool
    requires { AreWorkersOf (table_of hall.now) (setup_of hall.now) workers.old.items }
{
    match open_hall(alloc, adds(), 2) {
        Ok((other, mut others)) => {
            let mine = are_turns(hall, workers, one_step());
            let theirs = are_turns(&other, &mut others, one_step());
            mine && theirs
        }
        Err(_) => false,
    }
}

/// Whether there are two halls at one time.
fn are_two(alloc: Global) -> bool {
    match open_hall(alloc, adds(), 2) {
        Ok((hall, mut workers)) => opens_another(alloc, &hall, &mut workers),
        Err(_) => false,
    }
}

/// Why a hall of so many threads is refused, if it is.
fn refusal(alloc: Global, threads: u32) -> Option<HallFault> {
    match open_hall(alloc, adds(), threads) {
        Ok(_) => None,
        Err(fault) => Some(fault),
    }
}

/// Two halls are opened, and none of 65 threads and none of no thread.
#[test]
fn halls_are_opened(rt: HostRuntime) {
    let two = are_two(rt.alloc());
    let more = refusal(rt.alloc(), 65) == Some(HallFault::Threads);
    let none = refusal(rt.alloc(), 0) == Some(HallFault::Threads);
    assert_all(&rt, &[("two", two), ("65", more), ("none", none)]);
}
