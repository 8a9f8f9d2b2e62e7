//! A hall that is not closed while a worker is missing or has the lock, and is closed then.

ghost use Rattle.workers.specs.Seen.{setup_of, table_of};
ghost use Rattle.workers.specs.Workers.{AreWorkersOf, IsWorkerOf};

use crate::asserted::assert_all;
use crate::of_workers::hall::{Turn, are_turns, leaves, open_hall, put, take};
use crate::of_workers::programs::prints;
use std::alloc::Global;
use workers::{CloseFault, CloseReason, Hall, RunEnd, Worker};

/// Worker 0 up to its won swap, a step at a time, and a thousand steps of worker 1, which waits for the lock in vain.
fn up_to_the_lock() -> &'static [Turn] {
    static TURNS: [Turn; 9] = [
        Turn::Run(0, 0, RunEnd::Budget, 0, 0),
        Turn::Run(0, 1, RunEnd::Budget, 1, 1),
        Turn::Run(0, 1, RunEnd::Budget, 2, 2),
        Turn::Run(0, 1, RunEnd::Budget, 3, 3),
        Turn::Run(0, 1, RunEnd::Budget, 4, 3),
        Turn::Run(0, 1, RunEnd::Budget, 5, 3),
        Turn::Run(0, 1, RunEnd::Budget, 6, 3),
        Turn::Run(0, 1, RunEnd::Budget, 7, 4),
        Turn::Run(1, 1000, RunEnd::Budget, 1000, 1000),
    ];
    &TURNS
}

/// Both workers come to their ends, and stay there.
fn to_the_ends() -> &'static [Turn] {
    static TURNS: [Turn; 3] = [
        Turn::Run(0, 100, RunEnd::Ended, 13, 6),
        Turn::Run(1, 100, RunEnd::Ended, 1013, 1006),
        Turn::Run(0, 0, RunEnd::Ended, 13, 6),
    ];
    &TURNS
}

/// Whether all was right so far, and this is the reason.
fn is_still(right: bool, reason: CloseReason, wanted: CloseReason) -> bool {
    right && reason == wanted
}

/// Whether both workers go on to their ends, and the hall is closed.
fn ends(alloc: Global, hall: Hall, mut workers: Vec<Worker>, right: bool) -> bool
    requires { AreWorkersOf (table_of hall) (setup_of hall) workers.items }
{
    let goes_on = are_turns(&hall, &mut workers, to_the_ends());
    let closes = leaves(alloc, hall, workers, (2, "1\n", "2\n"));
    right && goes_on && closes
}

/// Worker 0 has the lock, and the hall is not closed.
fn is_held(alloc: Global, hall: Hall, workers: Vec<Worker>, right: bool) -> bool
    requires { AreWorkersOf (table_of hall) (setup_of hall) workers.items }
{
    match hall.close(alloc, workers) {
        Ok(_) => false,
        Err(fault) => {
            let CloseFault {
                reason,
                hall,
                workers,
            } = fault;
            let still = is_still(right, reason, CloseReason::LockHeld(0));
            ends(alloc, hall, workers, still)
        }
    }
}

/// Worker 1 is missing, which comes before that worker 0 has the lock. Then it is there again.
fn is_missing(alloc: Global, hall: Hall, workers: Vec<Worker>, second: Worker, right: bool) -> bool
    requires list { AreWorkersOf (table_of hall) (setup_of hall) workers.items }
    requires second { IsWorkerOf (table_of hall) (setup_of hall) second }
{
    match hall.close(alloc, workers) {
        Ok(_) => false,
        Err(fault) => {
            let CloseFault {
                reason,
                hall,
                mut workers,
            } = fault;
            let back = put(&hall, &mut workers, second);
            let still = is_still(right && back, reason, CloseReason::Missing);
            is_held(alloc, hall, workers, still)
        }
    }
}

/// Worker 1 is taken away.
fn loses_one(alloc: Global, hall: Hall, mut workers: Vec<Worker>, right: bool) -> bool
    requires { AreWorkersOf (table_of hall) (setup_of hall) workers.items }
{
    match take(&hall, &mut workers) {
        Some(second) => is_missing(alloc, hall, workers, second, right),
        None => false,
    }
}

/// Worker 0 has the lock: whether the hall is closed at last, after all that.
fn closes_at_last(alloc: Global) -> bool {
    match open_hall(alloc, prints(), 2) {
        Ok((hall, mut workers)) => {
            let right = are_turns(&hall, &mut workers, up_to_the_lock());
            loses_one(alloc, hall, workers, right)
        }
        Err(_) => false,
    }
}

/// A hall is not closed without workers.
fn wants_workers(alloc: Global, hall: Hall) -> bool {
    match hall.close(alloc, Vec::new(alloc)) {
        Ok(_) => false,
        Err(fault) => fault.reason == CloseReason::Missing,
    }
}

/// A hall of 64 is not closed without workers.
fn stays_open(alloc: Global) -> bool {
    match open_hall(alloc, prints(), 64) {
        Ok((hall, _)) => wants_workers(alloc, hall),
        Err(_) => false,
    }
}

#[test]
fn one_has_the_lock(rt: HostRuntime) {
    let closes = closes_at_last(rt.alloc());
    let open = stays_open(rt.alloc());
    assert_all(&rt, &[("closed at last", closes), ("stays open", open)]);
}
