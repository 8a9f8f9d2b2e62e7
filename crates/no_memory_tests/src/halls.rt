//! A hall of two workers, of which one comes to its end before the other begins: each call is made again where memory
//! was refused.

ghost use Rattle.std.specs.Prelude.{IfSome};
ghost use Rattle.workers.specs.Workers.{AreWorkersOf, IsWorkerOf};

use crate::seen::Seen;
use bytecode::Code;
use norec_core::Stop;
use std::alloc::{AllocError, Allocator};
use workers::{CloseFault, CloseReason, Hall, HallReport, RunEnd, Worker};

/// The most steps of a worker.
const MOST: u64 = 100_000;

/// A hall of two workers, if memory is there.
fn open_hall<A: Allocator + Copy>(alloc: A, code: &Code<A>) -> Option<(Hall<A>, Vec<Worker<A>, A>)>
    ensures { IfSome result (λ r. AreWorkersOf r.0.table.shared.table_id r.0.setup r.1.items) }
{
    match Hall::open(alloc, code, 2) {
        Ok(opened) => Some(opened),
        Err(_) => None,
    }
}

/// A hall of two workers, by a second call where the first was refused memory.
fn opened_at_last<A: Allocator + Copy>(
    alloc: A,
    code: &Code<A>,
) -> Option<(Hall<A>, Vec<Worker<A>, A>)>
    ensures { IfSome result (λ r. AreWorkersOf r.0.table.shared.table_id r.0.setup r.1.items) }
{
    match open_hall(alloc, code) {
        Some(hall) => Some(hall),
        None => open_hall(alloc, code),
    }
}

/// The last worker of the list.
fn take<A: Allocator + Copy>(hall: &Hall<A>, workers: &mut Vec<Worker<A>, A>) -> Option<Worker<A>>
    requires { AreWorkersOf hall.now.table.shared.table_id hall.now.setup workers.old.items }
    ensures left { AreWorkersOf hall.now.table.shared.table_id hall.now.setup workers.new.items }
    ensures worker { IfSome result (λ w. IsWorkerOf hall.now.table.shared.table_id hall.now.setup w) }
{
    let _ = hall;
    match workers.pop() {
        Some(worker) => Some(worker),
        None => None,
    }
}

/// One more worker at the end of the list.
fn put<A: Allocator + Copy>(
    hall: &Hall<A>,
    workers: &mut Vec<Worker<A>, A>,
    worker: Worker<A>,
) -> Result<(), AllocError>
    requires list { AreWorkersOf hall.now.table.shared.table_id hall.now.setup workers.old.items }
    requires worker { IsWorkerOf hall.now.table.shared.table_id hall.now.setup worker }
    ensures { AreWorkersOf hall.now.table.shared.table_id hall.now.setup workers.new.items }
{
    let _ = hall;
    workers.push(worker)?;
    Ok(())
}

/// The rest of a worker's steps.
fn run<A: Allocator + Copy>(hall: &Hall<A>, worker: &mut Worker<A>) -> Result<RunEnd, Stop>
    requires { IsWorkerOf hall.now.table.shared.table_id hall.now.setup worker.old }
    ensures { IsWorkerOf hall.now.table.shared.table_id hall.now.setup worker.new }
{
    let steps = worker.steps();
    if steps > MOST {
        return Ok(RunEnd::Budget);
    }
    worker.run(hall, MOST - steps)
}

/// Whether a worker comes to its end, by a second call where the first was refused memory: that one leaves it running.
fn ends<A: Allocator + Copy>(hall: &Hall<A>, worker: &mut Worker<A>) -> bool
    requires { IsWorkerOf hall.now.table.shared.table_id hall.now.setup worker.old }
    ensures { IsWorkerOf hall.now.table.shared.table_id hall.now.setup worker.new }
{
    match run(hall, worker) {
        Ok(status) => status != RunEnd::Budget,
        Err(stop) => {
            let goes_on = matches!(run(hall, worker), Ok(RunEnd::Ended | RunEnd::Trapped(_)));
            goes_on && stop.number() == 0
        }
    }
}

/// Adds how many steps and accesses a worker has made by its end, and what it has printed.
fn end<A: Allocator + Copy>(hall: &Hall<A>, worker: &mut Worker<A>, seen: &mut Seen) -> Option<()>
    requires { IsWorkerOf hall.now.table.shared.table_id hall.now.setup worker.old }
    ensures { IsWorkerOf hall.now.table.shared.table_id hall.now.setup worker.new }
{
    if !ends(hall, worker) {
        return None;
    }
    let Some(()) = seen.words("worker", &[worker.steps(), worker.accesses()]) else {
        return None;
    };
    seen.bytes("worker", worker.output().as_bytes())
}

/// The last worker of the list, at its end.
fn last_at_end<A: Allocator + Copy>(
    hall: &Hall<A>,
    workers: &mut Vec<Worker<A>, A>,
    seen: &mut Seen,
) -> Option<Worker<A>>
    requires { AreWorkersOf hall.now.table.shared.table_id hall.now.setup workers.old.items }
    ensures left { AreWorkersOf hall.now.table.shared.table_id hall.now.setup workers.new.items }
    ensures worker { IfSome result (λ w. IsWorkerOf hall.now.table.shared.table_id hall.now.setup w) }
{
    let Some(mut worker) = take(hall, workers) else {
        return None;
    };
    match end(hall, &mut worker, seen) {
        Some(()) => Some(worker),
        None => None,
    }
}

/// Both workers come to their ends, the last one first, and are put back.
fn end_both<A: Allocator + Copy>(
    hall: &Hall<A>,
    workers: &mut Vec<Worker<A>, A>,
    seen: &mut Seen,
) -> Option<()>
    requires { AreWorkersOf hall.now.table.shared.table_id hall.now.setup workers.old.items }
    ensures { AreWorkersOf hall.now.table.shared.table_id hall.now.setup workers.new.items }
{
    let Some(last) = last_at_end(hall, workers, seen) else {
        return None;
    };
    let Some(first) = last_at_end(hall, workers, seen) else {
        return None;
    };
    // there is room for both
    let first = put(hall, workers, first);
    let last = put(hall, workers, last);
    (first.is_ok() && last.is_ok()).then_some(())
}

/// What a hall leaves, by a second call where the first was refused memory and gave all back.
fn close_hall<A: Allocator + Copy>(
    alloc: A,
    hall: Hall<A>,
    workers: Vec<Worker<A>, A>,
) -> Option<HallReport<A>>
    requires { AreWorkersOf hall.table.shared.table_id hall.setup workers.items }
{
    match hall.close(alloc, workers) {
        Ok(outcome) => Some(outcome),
        Err(fault) => {
            let CloseFault {
                reason,
                hall,
                workers,
            } = fault;
            let again = hall.close(alloc, workers).ok();
            if reason == CloseReason::OutOfMemory {
                again
            } else {
                None
            }
        }
    }
}

/// Adds what a hall leaves.
fn close<A: Allocator + Copy>(
    alloc: A,
    hall: Hall<A>,
    workers: Vec<Worker<A>, A>,
    seen: &mut Seen,
) -> Option<()>
    requires { AreWorkersOf hall.table.shared.table_id hall.setup workers.items }
{
    let Some(outcome) = close_hall(alloc, hall, workers) else {
        return None;
    };
    for thread in &outcome.threads {
        let Some(()) = seen.words("closed", &[u64::from(thread.thread()), thread.steps()]) else {
            return None;
        };
    }
    seen.words("closed", outcome.words.as_slice())
}

/// Adds what two workers of a code do, and what their hall leaves.
pub fn work<A: Allocator + Copy>(alloc: A, code: &Code<A>, seen: &mut Seen) -> Option<()> {
    let Some((hall, mut workers)) = opened_at_last(alloc, code) else {
        return None;
    };
    let ended = end_both(&hall, &mut workers, seen);
    let left = close(alloc, hall, workers, seen);
    if ended.is_some() { left } else { None }
}
