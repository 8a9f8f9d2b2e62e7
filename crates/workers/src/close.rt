//! How a hall is closed.

ghost use Rattle.std.specs.Prelude.{◌≡◌, ◌<◌, ◌≤◌, ℕ, [], IfOk, IfErr, OnOk, MatchOption, MatchBool, vec_len};
ghost use Rattle.std.specs.Vec.{vec_capacity};
ghost use Rattle.bytecode.specs.Valid.{cells_of};
ghost use Rattle.workers.specs.Seen.{finished_accesses, finished_number, finished_steps, finished_tally};
ghost use Rattle.workers.specs.Seen.{finished_thread, setup_of, table_of};
ghost use Rattle.workers.specs.Workers.{AreWorkersOf};
ghost use Rattle.workers.specs.Closing.{reason_number, HasWorkerFor, NoWorker, AllHere, NoneHolds, Holds, Closes};
ghost use Rattle.workers.specs.Closing.{finished_back};
ghost use Rattle.workers.specs.inner.Closing.{parts_back};

use crate::hall::Hall;
use crate::tally::Tally;
use crate::worker::Worker;
use atomic_table::Seat;
use bytecode::Code;
use machine::{PlaceShown, Thread};
use shared_words::{View, Words, join};
use std::alloc::{Allocator, Global};
use syntax::thread_end::Status;
use thiserror::Error;

fn has<A: Allocator>(workers: &Vec<Worker<A>, A>, number: u32) -> bool
    ensures { MatchBool result (HasWorkerFor workers.now.items number) (NoWorker workers.now.items number) }
{
    'workers: for worker in workers {
        if worker.number == number {
            return true;
        }
    }
    false
}

/// A thread without a worker.
fn missing<A: Allocator>(workers: &Vec<Worker<A>, A>, count: u32) -> bool
    ensures { MatchBool result ((n : ℕ) × (n < count) × NoWorker workers.now.items n)
        (AllHere workers.now.items count) }
{
    'numbers: for number in 0..count {
        if !has(workers, number) {
            return true;
        }
    }
    false
}

pub(crate) fn holder<A: Allocator + Copy>(workers: &Vec<Worker<A>, A>) -> Option<u32>
    ensures { MatchOption result (NoneHolds workers.now.items) (λ n. Holds workers.now.items n) }
{
    'workers: for worker in workers {
        if worker.thread.has_lock() {
            return Some(worker.number);
        }
    }
    None
}

/// A thread of a closed hall.
#[derive(Drop)]
pub struct Finished<A: Allocator = Global> {
    pub(crate) number: u32,
    pub(crate) thread: Thread<A>,
    pub(crate) steps: u64,
    pub(crate) tally: Tally,
}

impl<A: Allocator + Copy> Finished<A> {
    /// The thread's number, from 0 on.
    pub fn thread(&self) -> u32
        ensures { result ≡ finished_number self.now }
    {
        self.number
    }

    /// Whether the thread runs, has ended or has trapped.
    pub fn status(&self) -> Status
        ensures { result ≡ (finished_thread self.now).status }
    {
        self.thread.status()
    }

    /// What the thread has printed.
    pub fn output(&self) -> &str
        ensures { result.now ≡ (finished_thread self.now).text }
    {
        self.thread.output()
    }

    /// How many steps the thread has made.
    pub fn steps(&self) -> u64
        ensures { result ≡ finished_steps self.now }
    {
        self.steps
    }

    /// How many of the thread's steps were accesses to the lock or a cell.
    pub fn accesses(&self) -> u64
        ensures { result ≡ finished_accesses self.now }
    {
        self.thread.accesses()
    }

    /// What is shown of the place at which the thread stands in the code.
    pub fn place_shown<B: Allocator>(&self, code: &Code<B>) -> PlaceShown {
        self.thread.place_shown(code)
    }

    /// What was counted of the thread's attempts.
    pub fn tally(&self) -> Tally
        ensures { result ≡ finished_tally self.now }
    {
        self.tally
    }
}

/// What a closed hall leaves: the cells' words, and the threads, the last worker's first.
#[derive(Drop)]
pub struct HallReport<A: Allocator = Global> {
    pub words: Vec<u64, A>,
    pub threads: Vec<Finished<A>, A>,
}

/// Why a hall was not closed.
#[derive(Clone, Copy, PartialEq, Eq, Debug, Error)]
pub enum CloseReason {
    /// A growth was refused.
    #[error("out of memory")]
    OutOfMemory,
    /// A thread of the hall has no worker here.
    #[error("worker missing")]
    Missing,
    /// This thread has the lock.
    #[error("lock held")]
    LockHeld(u32),
}

impl CloseReason {
    /// The fault's number: 0, 90 or 91.
    pub fn number(self) -> u32
        ensures { result ≡ reason_number self }
    {
        match self {
            CloseReason::OutOfMemory => 0,
            CloseReason::Missing => 91,
            CloseReason::LockHeld(_) => 90,
        }
    }
}

/// Why a hall was not closed, with the hall and the workers as they were.
#[derive(Drop)]
pub struct CloseFault<A: Allocator = Global> {
    pub reason: CloseReason,
    pub hall: Hall<A>,
    pub workers: Vec<Worker<A>, A>,
}

impl<A: Allocator> CloseFault<A> {
    /// The fault's number: that of its reason.
    pub fn number(&self) -> u32
        ensures { result ≡ reason_number self.now.reason }
    {
        self.reason.number()
    }
}

/// Takes in the seats, and gives the words.
pub(crate) fn gather<A: Allocator>(
    hall: Hall<A>,
    workers: Vec<Worker<A>, A>,
    cells: Vec<u64, A>,
    threads: Vec<Finished<A>, A>,
) -> HallReport<A>
    requires workers { AreWorkersOf hall.table.shared.table_id hall.setup workers.items }
    requires some { 0 < vec_len workers }
    requires room { (cells.items ≡ []) × (cells_of hall.setup.code ≤ vec_capacity cells) }
    requires places { (threads.items ≡ []) × (vec_len workers ≤ vec_capacity threads) }
    ensures { (all : AreWorkersOf hall.table.shared.table_id hall.setup workers.items)
        → Closes hall.table.shared.table_id hall.setup workers.items all result.words.items result.threads.items }
{
    let Hall {
        table,
        setup: _setup,
        right_of_way: _right_of_way,
    } = hall;
    let (seat, threads) = join_all(&table.shared, workers, threads);
    let words = shared_words::close(table, seat, cells);
    HallReport { words, threads }
}

/// One seat for all threads, and the threads.
fn join_all<A: Allocator>(
    words: &Words<A>,
    mut workers: Vec<Worker<A>, A>,
    mut threads: Vec<Finished<A>, A>,
) -> (Seat<(), View>, Vec<Finished<A>, A>)
    requires table { 0 < words.now.table_id.words }
    requires some { 0 < vec_len workers }
    requires workers { AreWorkersOf words.now.table_id words.now.key workers.items }
    requires places { (threads.items ≡ []) × (vec_len workers ≤ vec_capacity threads) }
    ensures { (result.0.table_id ≡ words.now.table_id) × (result.0.me ≡ (parts_back workers.items, []))
        × (result.1.items ≡ finished_back workers.items) }
{
    let Some(last) = workers.pop() else {
        unreachable!()
    };
    let (mut all, finished) = into_parts(last);
    threads.push_reserved(finished);
    while let Some(worker) = workers.pop() {
        let (seat, finished) = into_parts(worker);
        join(words, &mut all, seat);
        threads.push_reserved(finished);
    }
    (all, threads)
}

fn into_parts<A: Allocator>(worker: Worker<A>) -> (Seat<(), View>, Finished<A>)
    ensures { (result.0 ≡ worker.seat)
        × (result.1 ≡ record {
          number = worker.number;
          thread = worker.thread;
          steps = worker.steps;
          tally = worker.tally;
        }) }
{
    let Worker {
        number,
        thread,
        steps,
        seat,
        tally,
        patience: _patience,
    } = worker;
    (
        seat,
        Finished {
            number,
            thread,
            steps,
            tally,
        },
    )
}

impl<A: Allocator + Copy> Hall<A> {
    ghost use Rattle.workers.specs.Closing.{IsReason};

    /// The cells' words and the threads, where each thread has its worker here and none has the lock. It waits for
    /// nobody, and needs no other thread's leave: the workers are here. A fault gives hall and workers back, as they
    /// were.
    pub fn close(self, alloc: A, workers: Vec<Worker<A>, A>) -> Result<HallReport<A>, CloseFault<A>>
        requires { AreWorkersOf (table_of self) (setup_of self) workers.items }
        ensures all { OnOk result (AllHere workers.items (setup_of self).threads) }
        ensures none { OnOk result (NoneHolds workers.items) }
        ensures closes { IfOk result (λ o. (all : AreWorkersOf (table_of self) (setup_of self) workers.items)
            → Closes (table_of self) (setup_of self) workers.items all o.words.items o.threads.items) }
        ensures back { IfErr result (λ e. (e.hall ≡ self) × (e.workers ≡ workers)) }
        ensures reason { IfErr result (λ e. IsReason e.reason (setup_of self).threads workers.items) }
    {
        if missing(&workers, self.setup.threads()) {
            return Err(fault(CloseReason::Missing, self, workers));
        }
        if let Some(number) = holder(&workers) {
            return Err(fault(CloseReason::LockHeld(number), self, workers));
        }
        let Ok(threads) = Vec::with_capacity(alloc, workers.len()) else {
            return Err(fault(CloseReason::OutOfMemory, self, workers));
        };
        match Vec::with_capacity(alloc, self.table.word_count() - 1) {
            Ok(cells) => Ok(gather(self, workers, cells, threads)),
            Err(_) => Err(fault(CloseReason::OutOfMemory, self, workers)),
        }
    }
}

fn fault<A: Allocator>(
    reason: CloseReason,
    hall: Hall<A>,
    workers: Vec<Worker<A>, A>,
) -> CloseFault<A>
    ensures { (result.reason ≡ reason) × (result.hall ≡ hall) × (result.workers ≡ workers) }
{
    CloseFault {
        reason,
        hall,
        workers,
    }
}
