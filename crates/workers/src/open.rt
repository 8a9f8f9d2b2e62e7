//! How a hall is opened.

ghost use Rattle.std.specs.Prelude.{◌≡◌, ◌+◌, ◌<◌, ◌≤◌, ◌∷◌, [], vec_len, IfOk, IfErr, OnOk};
ghost use Rattle.bytecode.specs.Valid.{IsValid};
ghost use Rattle.machine.specs.Standing.{IsThreadOf};
ghost use Rattle.machine.specs.States.{first_thread};
ghost use Rattle.shared_words.specs.Views.{first_part, first_view};
ghost use Rattle.workers.specs.Seen.{setup_of, table_of};
ghost use Rattle.workers.specs.Workers.{AreWorkersFrom};
ghost use Rattle.workers.specs.Opening.{IsHallFaultOf, hall_number};

use crate::hall::Hall;
use crate::right_of_way::{Patience, RightOfWay};
use crate::tally::Tally;
use crate::worker::Worker;
use atomic_table::Seat;
use bytecode::Code;
use machine::Thread;
use shared_words::{Setup, View, Words, split_first};
use std::alloc::{AllocError, Allocator};
use thiserror::Error;

/// The most threads of a hall.
const MOST_THREADS: u32 = 64;

/// Why a hall was not opened.
#[derive(Clone, Copy, PartialEq, Eq, Debug, Error)]
pub enum HallFault {
    /// A growth was refused.
    #[error("out of memory")]
    OutOfMemory,
    /// There are to be 1 to 64 threads.
    #[error("wrong number of threads")]
    Threads,
}

impl HallFault {
    /// The fault's number: 0 or 72.
    pub fn number(self) -> u32
        ensures { result ≡ hall_number self }
    {
        match self {
            HallFault::OutOfMemory => 0,
            HallFault::Threads => 72,
        }
    }
}

fn worker<A: Allocator + Copy>(
    alloc: A,
    number: u32,
    code: &Code<A>,
    seat: Seat<(), View>,
) -> Result<Worker<A>, AllocError>
    ensures number { IfOk result (λ w. w.number ≡ number) }
    ensures thread { IfOk result (λ w. (w.thread.thread ≡ first_thread code.now number)
        × IsThreadOf code.now w.thread.thread) }
    ensures none { IfOk result (λ w. (w.steps ≡ 0) × (w.thread.accesses ≡ 0)) }
    ensures seat { IfOk result (λ w. w.seat ≡ seat) }
{
    Ok(Worker {
        number,
        thread: Thread::new(alloc, code, number)?,
        steps: 0,
        seat,
        tally: Tally::new(),
        patience: Patience::new(),
    })
}

/// Adds the worker of a thread to those of the threads before it.
fn add_worker<A: Allocator + Copy>(
    all: &mut Vec<Worker<A>, A>,
    alloc: A,
    setup: &Setup<A>,
    number: u32,
    seat: Seat<(), View>,
) -> Result<(), AllocError>
    requires valid { IsValid setup.now.code }
    requires number { (vec_len all.old ≡ number) × (number < setup.now.threads) }
    requires seat { seat.me ≡ (first_part setup.now number ∷ [], []) }
    requires workers { AreWorkersFrom seat.table_id setup.now 0 all.old.items }
    ensures count { OnOk result (vec_len all.new ≡ number + 1) }
    ensures workers { OnOk result (AreWorkersFrom seat.table_id setup.now 0 all.new.items) }
{
    let one = worker(alloc, number, setup.code(), seat)?;
    all.push(one)?;
    Ok(())
}

/// One worker for each thread.
fn workers<A: Allocator + Copy>(
    words: &Words<A>,
    alloc: A,
    setup: &Setup<A>,
    mut seat: Seat<(), View>,
) -> Result<Vec<Worker<A>, A>, AllocError>
    requires table { (seat.table_id ≡ words.now.table_id) × (0 < words.now.table_id.words) × (words.now.key ≡ setup.now)
        × (0 < setup.now.threads) }
    requires valid { IsValid setup.now.code }
    requires seat { seat.me ≡ (first_view setup.now, []) }
    ensures workers { IfOk result (λ v. (vec_len v ≡ setup.now.threads)
        × AreWorkersFrom words.now.table_id setup.now 0 v.items) }
{
    let mut all = Vec::new(alloc);
    let last = setup.threads() - 1;
    'numbers: for number in 0..last {
        let first = split_first(words, &mut seat);
        add_worker(&mut all, alloc, setup, number, first)?;
    }
    add_worker(&mut all, alloc, setup, last, seat)?;
    Ok(all)
}

/// A hall for these threads, of which there is one at least.
fn open_hall<A: Allocator + Copy>(
    alloc: A,
    code: &Code<A>,
    threads: u32,
) -> Result<(Hall<A>, Vec<Worker<A>, A>), AllocError>
    requires { 0 < threads }
    ensures setup { IfOk result (λ r. (r.0.setup.code ≡ code.now) × (r.0.setup.threads ≡ threads)) }
    ensures workers { IfOk result (λ r. (vec_len r.1 ≡ threads)
        × AreWorkersFrom r.0.table.shared.table_id r.0.setup 0 r.1.items) }
{
    let copy = code.copy(alloc)?;
    let setup = Setup::new(copy, threads);
    let (table, seat) = shared_words::open(alloc, &setup)?;
    let workers = workers(&table.shared, alloc, &setup, seat)?;
    let right_of_way = RightOfWay::new();
    Ok((
        Hall {
            table,
            setup,
            right_of_way,
        },
        workers,
    ))
}

impl<A: Allocator + Copy> Hall<A> {
    /// A hall for these threads of the code, each at its beginning, and a worker for each thread, in the order of their
    /// numbers. It keeps a copy of the code. A fault is `Threads` exactly where the number is not 1 to 64, and else
    /// `OutOfMemory`, where a growth was refused.
    pub fn open(
        alloc: A,
        code: &Code<A>,
        threads: u32,
    ) -> Result<(Hall<A>, Vec<Worker<A>, A>), HallFault>
        ensures setup { IfOk result (λ r. ((setup_of r.0).code ≡ code.now) × ((setup_of r.0).threads ≡ threads)
            × (0 < threads) × (threads ≤ 64)) }
        ensures workers { IfOk result (λ r. (vec_len r.1 ≡ threads)
            × AreWorkersFrom (table_of r.0) (setup_of r.0) 0 r.1.items) }
        ensures fault { IfErr result (λ e. IsHallFaultOf e threads) }
    {
        if threads == 0 || threads > MOST_THREADS {
            return Err(HallFault::Threads);
        }
        match open_hall(alloc, code, threads) {
            Ok(opened) => Ok(opened),
            Err(_) => Err(HallFault::OutOfMemory),
        }
    }
}
