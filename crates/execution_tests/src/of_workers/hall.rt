//! Halls of two workers: how they are opened, how their workers make steps, and how they are closed.

ghost use Rattle.std.specs.Prelude.{◌≡◌, IfOk, IfSome};
ghost use Rattle.workers.specs.Seen.{setup_of, table_of};
ghost use Rattle.workers.specs.Workers.{AreWorkersOf, IsWorkerOf};

use crate::of_workers::programs::{Program, code_of};
use bytecode::Code;
use norec_core::Stop;
use std::alloc::{AllocError, Allocator};
use workers::{Hall, HallFault, HallReport, RunEnd, Worker};

/// The most steps of a worker here, and of one run.
const MOST: u64 = 1_000_000;

/// What two workers do next.
#[derive(Clone, Copy)]
pub enum Turn {
    /// One worker runs: the thread, for how many steps at most, how the run ends, and how many steps and accesses it
    /// then has made.
    Run(u32, u64, RunEnd, u64, u64),

    /// The two workers meet.
    Meet,
}

/// A hall of so many workers of a code.
fn open<A: Allocator + Copy>(
    alloc: A,
    code: &Code<A>,
    threads: u32,
) -> Result<(Hall<A>, Vec<Worker<A>, A>), HallFault>
    ensures { IfOk result (λ r. AreWorkersOf (table_of r.0) (setup_of r.0) r.1.items) }
{
    match Hall::open(alloc, code, threads) {
        Ok(opened) => Ok(opened),
        Err(fault) => Err(fault),
    }
}

/// A hall of so many workers of a program.
pub fn open_hall<A: Allocator + Copy>(
    alloc: A,
    program: Program,
    threads: u32,
) -> Result<(Hall<A>, Vec<Worker<A>, A>), HallFault>
    ensures { IfOk result (λ r. AreWorkersOf (table_of r.0) (setup_of r.0) r.1.items) }
{
    match code_of(alloc, program) {
        Some(code) => open(alloc, &code, threads),
        None => Err(HallFault::OutOfMemory),
    }
}

/// The last worker of the list.
pub fn take<A: Allocator + Copy>(
    hall: &Hall<A>,
    workers: &mut Vec<Worker<A>, A>,
) -> Option<Worker<A>>
    requires { AreWorkersOf (table_of hall.now) (setup_of hall.now) workers.old.items }
    ensures left { AreWorkersOf (table_of hall.now) (setup_of hall.now) workers.new.items }
    ensures worker { IfSome result (λ w. IsWorkerOf (table_of hall.now) (setup_of hall.now) w) }
{
    let _ = hall;
    match workers.pop() {
        Some(worker) => Some(worker),
        None => None,
    }
}

/// One more worker at the end of the list. At an `Err` the list is as it was.
fn push<A: Allocator + Copy>(
    hall: &Hall<A>,
    workers: &mut Vec<Worker<A>, A>,
    worker: Worker<A>,
) -> Result<(), AllocError>
    requires list { AreWorkersOf (table_of hall.now) (setup_of hall.now) workers.old.items }
    requires worker { IsWorkerOf (table_of hall.now) (setup_of hall.now) worker }
    ensures { AreWorkersOf (table_of hall.now) (setup_of hall.now) workers.new.items }
{
    let _ = hall;
    workers.push(worker)?;
    Ok(())
}

/// One more worker at the end of the list, if there was room for it.
pub fn put<A: Allocator + Copy>(
    hall: &Hall<A>,
    workers: &mut Vec<Worker<A>, A>,
    worker: Worker<A>,
) -> bool
    requires list { AreWorkersOf (table_of hall.now) (setup_of hall.now) workers.old.items }
    requires worker { IsWorkerOf (table_of hall.now) (setup_of hall.now) worker }
    ensures { AreWorkersOf (table_of hall.now) (setup_of hall.now) workers.new.items }
{
    push(hall, workers, worker).is_ok()
}

/// At most `budget` steps of a worker that has made few so far.
fn run<A: Allocator + Copy>(
    hall: &Hall<A>,
    worker: &mut Worker<A>,
    budget: u64,
) -> Option<Result<RunEnd, Stop>>
    requires { IsWorkerOf (table_of hall.now) (setup_of hall.now) worker.old }
    ensures { IsWorkerOf (table_of hall.now) (setup_of hall.now) worker.new }
{
    if worker.steps() > MOST || budget > MOST {
        return None;
    }
    Some(worker.run(hall, budget))
}

/// Whether a worker's run ends so, and it then is so too and has made so many steps and accesses.
fn is_run<A: Allocator + Copy>(
    hall: &Hall<A>,
    worker: &mut Worker<A>,
    budget: u64,
    status: RunEnd,
    steps: u64,
    accesses: u64,
) -> bool
    requires { IsWorkerOf (table_of hall.now) (setup_of hall.now) worker.old }
    ensures { IsWorkerOf (table_of hall.now) (setup_of hall.now) worker.new }
{
    match run(hall, worker, budget) {
        Some(Ok(found)) => {
            found == status
                && worker.status() == status
                && worker.steps() == steps
                && worker.accesses() == accesses
        }
        _ => false,
    }
}

/// Whether two workers make a turn.
fn is_made<A: Allocator + Copy>(
    hall: &Hall<A>,
    first: &mut Worker<A>,
    second: &mut Worker<A>,
    turn: Turn,
) -> bool
    requires first { IsWorkerOf (table_of hall.now) (setup_of hall.now) first.old }
    requires second { IsWorkerOf (table_of hall.now) (setup_of hall.now) second.old }
    ensures first { IsWorkerOf (table_of hall.now) (setup_of hall.now) first.new }
    ensures second { IsWorkerOf (table_of hall.now) (setup_of hall.now) second.new }
{
    match turn {
        Turn::Run(thread, budget, status, steps, accesses) => {
            if thread == 0 {
                is_run(hall, first, budget, status, steps, accesses)
            } else {
                is_run(hall, second, budget, status, steps, accesses)
            }
        }
        Turn::Meet => {
            first.meet(hall, second);
            true
        }
    }
}

/// Two more workers at the end of the list, if there was room for them.
fn put_both<A: Allocator + Copy>(
    hall: &Hall<A>,
    workers: &mut Vec<Worker<A>, A>,
    first: Worker<A>,
    second: Worker<A>,
) -> bool
    requires list { AreWorkersOf (table_of hall.now) (setup_of hall.now) workers.old.items }
    requires first { IsWorkerOf (table_of hall.now) (setup_of hall.now) first }
    requires second { IsWorkerOf (table_of hall.now) (setup_of hall.now) second }
    ensures { AreWorkersOf (table_of hall.now) (setup_of hall.now) workers.new.items }
{
    let one = put(hall, workers, first);
    let other = put(hall, workers, second);
    one && other
}

/// Whether worker 0, the second last of the list, and this one, which was the last, make a turn.
fn is_turn_beside<A: Allocator + Copy>(
    hall: &Hall<A>,
    workers: &mut Vec<Worker<A>, A>,
    mut second: Worker<A>,
    turn: Turn,
) -> bool
    requires list { AreWorkersOf (table_of hall.now) (setup_of hall.now) workers.old.items }
    requires second { IsWorkerOf (table_of hall.now) (setup_of hall.now) second }
    ensures { AreWorkersOf (table_of hall.now) (setup_of hall.now) workers.new.items }
{
    match take(hall, workers) {
        Some(mut first) => {
            let right = is_made(hall, &mut first, &mut second, turn);
            let back = put_both(hall, workers, first, second);
            right && back
        }
        None => false,
    }
}

/// Whether two workers make a turn.
fn is_turn<A: Allocator + Copy>(hall: &Hall<A>, workers: &mut Vec<Worker<A>, A>, turn: Turn) -> bool
    requires { AreWorkersOf (table_of hall.now) (setup_of hall.now) workers.old.items }
    ensures { AreWorkersOf (table_of hall.now) (setup_of hall.now) workers.new.items }
{
    match take(hall, workers) {
        Some(second) => is_turn_beside(hall, workers, second, turn),
        None => false,
    }
}

/// Whether two workers make these turns, one after another.
pub fn are_turns<A: Allocator + Copy>(
    hall: &Hall<A>,
    workers: &mut Vec<Worker<A>, A>,
    turns: &[Turn],
) -> bool
    requires { AreWorkersOf (table_of hall.now) (setup_of hall.now) workers.old.items }
    ensures { AreWorkersOf (table_of hall.now) (setup_of hall.now) workers.new.items }
{
    'turns: for turn in turns {
        if !is_turn(hall, workers, *turn) {
            return false;
        }
    }
    true
}

/// What a closed hall leaves: the word of `x`, and what the threads 0 and 1 have printed.
pub type Left<'a> = (u64, &'a str, &'a str);

/// Whether a thread of a closed hall has printed this.
fn shows<A: Allocator + Copy>(outcome: &HallReport<A>, number: u32, text: &str) -> bool {
    for thread in &outcome.threads {
        if thread.thread() == number {
            return thread.output() == text;
        }
    }
    false
}

/// Whether a closed hall leaves this.
fn is_left<A: Allocator + Copy>(outcome: &HallReport<A>, left: Left) -> bool {
    if outcome.words.as_slice() != [left.0].as_slice() || outcome.threads.len() != 2 {
        return false;
    }
    shows(outcome, 0, left.1) && shows(outcome, 1, left.2)
}

/// Whether the hall is closed, and leaves this.
pub fn leaves<A: Allocator + Copy>(
    alloc: A,
    hall: Hall<A>,
    workers: Vec<Worker<A>, A>,
    left: Left,
) -> bool
    requires { AreWorkersOf (table_of hall) (setup_of hall) workers.items }
{
    match hall.close(alloc, workers) {
        Ok(outcome) => is_left(&outcome, left),
        Err(_) => false,
    }
}
