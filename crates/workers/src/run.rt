//! Each worker in a thread of the program of its own.

ghost use Rattle.std.specs.Prelude.{◌≡◌, ◌+◌, ◌^◌, ◌<◌, ◌≤◌, ◌++◌, ◌∷◌, [], ℕ, IfOk, IfErr, OnOk};
ghost use Rattle.syntax.specs.Behaviours.{Behaviour, Means};
ghost use Rattle.bytecode.specs.Valid.{bounds_of};
ghost use Rattle.shared_words.specs.Saying.{code_does};
ghost use Rattle.workers.specs.Seen.{setup_of, table_of, worker_number};
ghost use Rattle.workers.specs.Workers.{IsWorkerOf, AreWorkersOf, StepsOn};
ghost use Rattle.workers.specs.Opening.{IsWorkerCount};
ghost use Rattle.workers.specs.Driving.{AreEnded, IsEndOfLoop, IsRunRefused, Ran, run_number};
ghost use Rattle.workers.specs.inner.Driving.{AreDrivenOf, AreFresh, AllPromise, HasNumber};
ghost use Rattle.workers.specs.inner.Driving.{TellsMemory, driven_number, handle_number};

use crate::close::{Finished, HallReport, gather, holder};
use crate::hall::Hall;
use crate::open::HallFault;
use crate::worker::{RunEnd, Worker};
use bytecode::Code;
use norec_core::Stop;
use std::alloc::{AllocError, Allocator, Global};
use std::sync::Wait;
use std::thread;
use std::thread::{Promise, PromisedHandle, Scope, Threads};
use syntax::thread_end::Status;
use thiserror::Error;

/// Holds threads of a run back, so that a test can choose an order of their steps; or else is told how far they are.
pub trait Gate {
    /// Whether the gate ever holds a thread. Where it does not, `hold` is never asked, and a step costs nothing more.
    const HOLDS: bool = true;

    /// Asked before each step of a thread, with its accesses so far. While it answers true the thread makes no step and
    /// asks again; after 1,000,000 such answers in a row the thread goes on without asking again.
    fn hold(&self, thread: u32, accesses: u64) -> bool;

    /// Told when a thread's loop is over.
    fn ended(&self, thread: u32);

    /// Told of a thread that is not held, after each 1,048,576 of its steps: how many it has made, and about how many bytes
    /// it has printed and logged. The answer is whether there is memory for more; where there is none, the thread stops
    /// before its next step that may want some.
    fn has_room(&self, _thread: u32, _steps: u64, _bytes: u64) -> bool {
        true
    }
}

/// After how many steps of a thread that is not held a gate is told: some milliseconds of work.
const SLICE: u64 = 1_048_576;

/// The bytes of an entry of a read log.
const ENTRY: u64 = 16;

/// How often in a row a gate is asked.
const MOST_TURNS: u64 = 1_000_000;

/// Whether the gate held the thread to the end.
fn is_held<G: Gate>(gate: &G, thread: u32, accesses: u64) -> bool {
    'turns: for _ in 0..MOST_TURNS {
        if !gate.hold(thread, accesses) {
            return false;
        }
    }
    true
}

/// A worker after its loop.
#[derive(Drop)]
pub struct Driven<A: Allocator = Global> {
    pub worker: Worker<A>,

    /// Whether the gate held the worker to the end.
    pub overheld: bool,

    /// Why the worker made no further step, where it was a stop.
    pub stopped: Option<Stop>,
}

fn driven_of(worker: Worker, overheld: bool, stopped: Option<Stop>) -> Driven
    ensures { (result.worker ≡ worker) × (result.overheld ≡ overheld) × (result.stopped ≡ stopped) }
{
    Driven {
        worker,
        overheld,
        stopped,
    }
}

/// A worker's loop, where a gate may hold it.
fn drive_held<G: Gate>(hall: &Hall, mut worker: Worker, budget: u64, gate: &G) -> Driven
    requires worker { IsWorkerOf hall.now.table.shared.table_id hall.now.setup worker }
    requires room { worker.steps + budget < 2 ^ 64 }
    ensures goes_on { StepsOn hall.now.table.shared.table_id hall.now.setup worker result.worker }
    ensures ends { IsEndOfLoop hall.now.setup (worker.steps + budget) result.stopped result.worker }
    ensures number { result.worker.number ≡ worker.number }
{
    let mut overheld = false;
    'steps: for turn in 0..budget {
        if worker.thread.status() != Status::Running {
            return driven_of(worker, overheld, None);
        }
        overheld = overheld || is_held(gate, worker.number, worker.thread.accesses());
        if let Err(stop) = worker.step(&hall.table.shared, hall.setup.code()) {
            return driven_of(worker, overheld, Some(stop));
        }
    }
    driven_of(worker, overheld, None)
}

/// About how many reads a worker's attempt has logged that goes on since before its last steps, beginning with those that
/// it had logged before these.
#[derive(Clone, Copy)]
struct Logged {
    begun: u64,
    accesses: u64,
    compared: u64,
    reads: u64,
}

/// A worker that has made no step.
fn none_logged() -> Logged {
    Logged {
        begun: 0,
        accesses: 0,
        compared: 0,
        reads: 0,
    }
}

/// The same after more steps. A read makes two accesses where nothing disturbs it. Where an attempt has begun in these
/// steps, it has logged no more than they read, which is little.
fn logged_since(worker: &Worker, before: Logged) -> Logged {
    let begun = worker.tally.begun;
    let accesses = worker.thread.accesses();
    let compared = worker.tally.compared;
    let others = compared.wrapping_sub(before.compared);
    let read = accesses
        .wrapping_sub(before.accesses)
        .saturating_sub(others);
    Logged {
        begun,
        accesses,
        compared,
        reads: if begun == before.begun {
            before.reads.saturating_add(read / 2)
        } else {
            0
        },
    }
}

/// About how many bytes a worker has printed and logged.
fn bytes_of(worker: &Worker, logged: Logged) -> u64 {
    let text = worker.thread.output().len() as u64;
    text.saturating_add(logged.reads.saturating_mul(ENTRY))
}

/// A worker's loop, where there is no memory for more: up to a step that wants some.
fn drive_full(hall: &Hall, mut worker: Worker, budget: u64) -> Driven
    requires worker { IsWorkerOf hall.now.table.shared.table_id hall.now.setup worker }
    requires room { worker.steps + budget < 2 ^ 64 }
    ensures goes_on { StepsOn hall.now.table.shared.table_id hall.now.setup worker result.worker }
    ensures ends { IsEndOfLoop hall.now.setup (worker.steps + budget) result.stopped result.worker }
    ensures number { result.worker.number ≡ worker.number }
{
    'steps: for turn in 0..budget {
        if worker.thread.status() != Status::Running {
            return driven_of(worker, false, None);
        }
        if worker.wants_memory(hall.setup.code()) {
            return driven_of(worker, false, Some(Stop::OutOfMemory));
        }
        if let Err(stop) = worker.step(&hall.table.shared, hall.setup.code()) {
            return driven_of(worker, false, Some(stop));
        }
    }
    driven_of(worker, false, None)
}

/// A worker's loop, where no gate holds it: slice after slice, while there is memory for more.
fn drive_free<G: Gate>(hall: &Hall, mut worker: Worker, budget: u64, gate: &G) -> Driven
    requires worker { IsWorkerOf hall.now.table.shared.table_id hall.now.setup worker }
    requires room { worker.steps + budget < 2 ^ 64 }
    ensures goes_on { StepsOn hall.now.table.shared.table_id hall.now.setup worker result.worker }
    ensures ends { IsEndOfLoop hall.now.setup (worker.steps + budget) result.stopped result.worker }
    ensures number { result.worker.number ≡ worker.number }
{
    let mut logged = none_logged();
    let mut left = budget;
    'slices: while left > SLICE {
        match worker.run(hall, SLICE) {
            Ok(RunEnd::Budget) => {}
            Ok(RunEnd::Ended) => return driven_of(worker, false, None),
            Ok(RunEnd::Trapped(_)) => return driven_of(worker, false, None),
            Err(stop) => return driven_of(worker, false, Some(stop)),
        }
        left -= SLICE;
        logged = logged_since(&worker, logged);
        if !gate.has_room(worker.number, worker.steps, bytes_of(&worker, logged)) {
            return drive_full(hall, worker, left);
        }
    }
    drive_last(hall, worker, left)
}

/// The last steps of a worker's loop, where no gate holds it.
fn drive_last(hall: &Hall, mut worker: Worker, budget: u64) -> Driven
    requires worker { IsWorkerOf hall.now.table.shared.table_id hall.now.setup worker }
    requires room { worker.steps + budget < 2 ^ 64 }
    ensures goes_on { StepsOn hall.now.table.shared.table_id hall.now.setup worker result.worker }
    ensures ends { IsEndOfLoop hall.now.setup (worker.steps + budget) result.stopped result.worker }
    ensures number { result.worker.number ≡ worker.number }
{
    match worker.run(hall, budget) {
        Ok(_) => driven_of(worker, false, None),
        Err(stop) => driven_of(worker, false, Some(stop)),
    }
}

/// A worker's loop.
fn drive_on<G: Gate>(hall: &Hall, worker: Worker, budget: u64, gate: &G) -> Driven
    requires worker { IsWorkerOf hall.now.table.shared.table_id hall.now.setup worker }
    requires room { worker.steps + budget < 2 ^ 64 }
    ensures goes_on { StepsOn hall.now.table.shared.table_id hall.now.setup worker result.worker }
    ensures ends { IsEndOfLoop hall.now.setup (worker.steps + budget) result.stopped result.worker }
    ensures number { result.worker.number ≡ worker.number }
{
    if G::HOLDS {
        drive_held(hall, worker, budget, gate)
    } else {
        drive_free(hall, worker, budget, gate)
    }
}

/// A worker's loop, from its thread's beginning.
fn drive<G: Gate>(hall: &Hall, worker: Worker, budget: u64, gate: &G) -> Driven
    requires { IsWorkerOf hall.now.table.shared.table_id hall.now.setup worker × (worker.steps ≡ 0) }
    ensures { IsWorkerOf hall.now.table.shared.table_id hall.now.setup result.worker
        × IsEndOfLoop hall.now.setup budget result.stopped result.worker × (result.worker.number ≡ worker.number) }
{
    let driven = drive_on(hall, worker, budget, gate);
    gate.ended(driven.worker.number);
    driven
}

/// What a thread of the program gives back: a worker of this hall, after this many steps or fewer.
#[derive(Clone, Copy)]
pub struct OfHall<'a, A: Allocator = Global> {
    pub hall: &'a Hall<A>,
    pub number: u32,
    pub budget: u64,
}

impl<'a> Promise<Driven> for OfHall<'a> {
    ghost kept_by = { λ p r. IsWorkerOf (table_of p.hall.now) (setup_of p.hall.now) r.worker
        × IsEndOfLoop (setup_of p.hall.now) p.budget r.stopped r.worker × (worker_number r.worker ≡ p.number) };
}

/// Starts a thread for each worker, and joins them.
fn drive_all<R: Threads + Wait + Sync, G: Gate + Sync>(
    rt: &R,
    alloc: Global,
    hall: &Hall,
    workers: Vec<Worker>,
    budget: u64,
    gate: &G,
) -> Result<Vec<Driven>, DriveFault>
    requires { AreWorkersOf hall.now.table.shared.table_id hall.now.setup workers.items × AreFresh workers.items }
    ensures { IfOk result (λ v. AreDrivenOf hall.now.table.shared.table_id hall.now.setup budget v.items
        × ((n : ℕ) → HasNumber worker_number workers.items n → HasNumber driven_number v.items n)) }
{
    thread::scope(
        thread::scope_env(),
        rt,
        |scope| -> Result<Vec<Driven>, DriveFault>
            requires { AreWorkersOf hall.now.table.shared.table_id hall.now.setup workers.items
                × AreFresh workers.items }
            ensures { IfOk result
                (λ v. AreDrivenOf hall.entry.now.table.shared.table_id hall.entry.now.setup budget v.items
                × ((n : ℕ) → HasNumber worker_number workers.items n → HasNumber driven_number v.items n)) }
        {
            let handles = start_all(scope, alloc, hall, workers, budget, gate)?;
            join_driven(rt, alloc, hall, budget, handles)
        },
    )
}

fn start<'s, E, G: Gate + Sync>(
    scope: &'s Scope<'s, E>,
    hall: &'s Hall,
    worker: Worker,
    budget: u64,
    gate: &'s G,
) -> Result<PromisedHandle<Driven, OfHall<'s>>, DriveFault>
    requires { IsWorkerOf hall.now.table.shared.table_id hall.now.setup worker × (worker.steps ≡ 0) }
    ensures handle { IfOk result (λ h. (h.promise.hall.now ≡ hall.now) × (h.promise.budget ≡ budget)
        × (h.promise.number ≡ worker.number)) }
    ensures fault { IfErr result (λ e. e ≡ DriveFault.NotStarted) }
{
    let promise = OfHall {
        hall,
        number: worker.number,
        budget,
    };
    let Ok(handle) = scope.spawn_with(
        promise,
        move || -> Driven
            requires { IsWorkerOf hall.now.table.shared.table_id hall.now.setup worker × (worker.steps ≡ 0) }
            ensures { IsWorkerOf hall.entry.now.table.shared.table_id hall.entry.now.setup result.worker
                × IsEndOfLoop hall.entry.now.setup budget result.stopped result.worker
                × (result.worker.number ≡ worker.number) }
        { drive(hall, worker, budget, gate) },
    ) else {
        return Err(DriveFault::NotStarted);
    };
    Ok(handle)
}

fn start_all<'s, E, G: Gate + Sync>(
    scope: &'s Scope<'s, E>,
    alloc: Global,
    hall: &'s Hall,
    mut workers: Vec<Worker>,
    budget: u64,
    gate: &'s G,
) -> Result<Vec<PromisedHandle<Driven, OfHall<'s>>>, DriveFault>
    requires { AreWorkersOf hall.now.table.shared.table_id hall.now.setup workers.items × AreFresh workers.items }
    ensures { IfOk result (λ v. AllPromise hall.now budget v.items
        × ((n : ℕ) → HasNumber worker_number workers.items n → HasNumber handle_number v.items n)) }
{
    let mut handles = Vec::new(alloc);
    while let Some(worker) = workers.pop() {
        let Ok(handle) = start(scope, hall, worker, budget, gate) else {
            return Err(DriveFault::NotStarted);
        };
        let Ok(()) = handles.push(handle) else {
            return Err(DriveFault::OutOfMemory);
        };
    }
    Ok(handles)
}

fn join_driven<'s, R: Threads>(
    rt: &R,
    alloc: Global,
    hall: &'s Hall,
    budget: u64,
    mut handles: Vec<PromisedHandle<Driven, OfHall<'s>>>,
) -> Result<Vec<Driven>, DriveFault>
    requires { AllPromise hall.now budget handles.items }
    ensures driven { IfOk result (λ v. AreDrivenOf hall.now.table.shared.table_id hall.now.setup budget v.items
        × ((n : ℕ) → HasNumber handle_number handles.entry.items n → HasNumber driven_number v.items n)) }
    ensures fault { IfErr result (λ e. e ≡ DriveFault.OutOfMemory) }
{
    let mut all = Vec::new(alloc);
    while let Some(handle) = handles.pop() {
        let Ok(()) = all.push(handle.join(rt)) else {
            return Err(DriveFault::OutOfMemory);
        };
    }
    Ok(all)
}

/// Why nothing was reported of a run.
#[derive(Clone, Copy, PartialEq, Eq, Debug, Error)]
pub enum RunFault {
    /// A growth was refused, but for those of steps, whose threads stop.
    #[error("out of memory")]
    OutOfMemory,
    /// There are to be 1 to 64 threads.
    #[error("wrong number of threads")]
    Threads,
    /// A thread of the program could not be started, for whatever cause.
    #[error("thread not started")]
    NotStarted,
}

impl RunFault {
    /// The fault's number: 0, 72 or 73.
    pub fn number(self) -> u32
        ensures { result ≡ run_number self }
    {
        match self {
            RunFault::OutOfMemory => 0,
            RunFault::Threads => 72,
            RunFault::NotStarted => 73,
        }
    }
}

/// Why the workers were not driven.
#[derive(Clone, Copy)]
enum DriveFault {
    OutOfMemory,
    NotStarted,
}

/// How a worker's loop ended: by a stop, or else with its thread over or with all steps of the budget made.
#[derive(Clone, Copy, PartialEq, Eq)]
pub struct Ending {
    pub number: u32,
    pub stopped: Option<Stop>,
}

/// What a run leaves in memory.
#[derive(Drop)]
pub enum RunMemory {
    /// The cells' words, where no thread has the lock.
    Words(Vec<u64>),
    /// The number of the thread that has the lock.
    LockHeld(u32),
}

/// What a run of all threads leaves. The lists are in no promised order: each entry tells its thread's number.
#[derive(Drop)]
pub struct RunReport<A: Allocator = Global> {
    pub memory: RunMemory,
    pub threads: Vec<Finished<A>, A>,
    pub ends: Vec<Ending, A>,
    /// The numbers of the threads that the gate held to the end.
    pub overheld: Vec<u32, A>,
}

/// Adds how a worker's loop ended, and its number where the gate held it to the end.
fn note(one: &Driven, ends: &mut Vec<Ending>, overheld: &mut Vec<u32>) -> Result<(), AllocError>
    ensures { OnOk result
        (ends.new.items ≡ ends.old.items ++ record { number = one.now.worker.number; stopped = one.now.stopped } ∷ []) }
{
    if one.overheld {
        overheld.push(one.worker.number)?;
    }
    ends.push(Ending {
        number: one.worker.number,
        stopped: one.stopped,
    })?;
    Ok(())
}

/// Moves the workers to a list of their own, the last one first.
fn unpack_into(
    hall: &Hall,
    budget: u64,
    driven: &mut Vec<Driven>,
    workers: &mut Vec<Worker>,
    ends: &mut Vec<Ending>,
    overheld: &mut Vec<u32>,
) -> Result<(), AllocError>
    requires driven { AreDrivenOf hall.now.table.shared.table_id hall.now.setup budget driven.old.items }
    requires none_yet { (workers.old.items ≡ []) × (ends.old.items ≡ []) }
    ensures { OnOk result (AreWorkersOf hall.now.table.shared.table_id hall.now.setup workers.new.items
        × AreEnded hall.now.setup budget workers.new.items ends.new.items
        × ((n : ℕ) → HasNumber driven_number driven.old.items n → HasNumber worker_number workers.new.items n)) }
{
    while let Some(one) = driven.pop() {
        note(&one, ends, overheld)?;
        workers.push(one.worker)?;
    }
    Ok(())
}

/// The workers, how their loops ended, and the numbers of those that were held to the end.
fn unpack(
    alloc: Global,
    hall: &Hall,
    budget: u64,
    mut driven: Vec<Driven>,
) -> Result<(Vec<Worker>, Vec<Ending>, Vec<u32>), AllocError>
    requires { AreDrivenOf hall.now.table.shared.table_id hall.now.setup budget driven.items }
    ensures { IfOk result (λ r. AreWorkersOf hall.now.table.shared.table_id hall.now.setup r.0.items
        × AreEnded hall.now.setup budget r.0.items r.1.items
        × ((n : ℕ) → HasNumber driven_number driven.items n → HasNumber worker_number r.0.items n)) }
{
    let mut workers = Vec::new(alloc);
    let mut ends = Vec::new(alloc);
    let mut overheld = Vec::new(alloc);
    unpack_into(
        hall,
        budget,
        &mut driven,
        &mut workers,
        &mut ends,
        &mut overheld,
    )?;
    Ok((workers, ends, overheld))
}

fn memory(words: Vec<u64>, held: Option<u32>) -> RunMemory
    ensures { TellsMemory result words.items held }
{
    match held {
        Some(number) => RunMemory::LockHeld(number),
        None => RunMemory::Words(words),
    }
}

/// The report of workers that were driven.
fn report_of(
    alloc: Global,
    hall: Hall,
    budget: u64,
    driven: Vec<Driven>,
) -> Result<RunReport, DriveFault>
    requires driven { AreDrivenOf hall.table.shared.table_id hall.setup budget driven.items }
    requires here { (n : ℕ) → n < hall.setup.threads → HasNumber driven_number driven.items n }
    requires few { hall.setup.threads ≤ 64 }
    ensures { IfOk result (λ r. (does : Behaviour) → Means (bounds_of hall.setup.code) (code_does hall.setup.code) does
        → Ran does hall.setup budget r) }
{
    let Ok((workers, ends, overheld)) = unpack(alloc, &hall, budget, driven) else {
        return Err(DriveFault::OutOfMemory);
    };
    let held = holder(&workers);
    let Ok(places) = Vec::with_capacity(alloc, workers.len()) else {
        return Err(DriveFault::OutOfMemory);
    };
    let Ok(cells) = Vec::with_capacity(alloc, hall.table.word_count() - 1) else {
        return Err(DriveFault::OutOfMemory);
    };
    let HallReport { words, threads } = gather(hall, workers, cells, places);
    Ok(RunReport {
        memory: memory(words, held),
        threads,
        ends,
        overheld,
    })
}

/// Drives the workers of a hall, and reports what they leave.
fn run_workers<R: Threads + Wait + Sync, G: Gate + Sync>(
    rt: &R,
    alloc: Global,
    hall: Hall,
    workers: Vec<Worker>,
    budget: u64,
    gate: &G,
) -> Result<RunReport, DriveFault>
    requires workers { AreWorkersOf hall.table.shared.table_id hall.setup workers.items × AreFresh workers.items }
    requires here { (n : ℕ) → n < hall.setup.threads → HasNumber worker_number workers.items n }
    requires few { hall.setup.threads ≤ 64 }
    ensures { IfOk result (λ r. (does : Behaviour) → Means (bounds_of hall.setup.code) (code_does hall.setup.code) does
        → Ran does hall.setup budget r) }
{
    match drive_all(rt, alloc, &hall, workers, budget, gate) {
        Ok(driven) => report_of(alloc, hall, budget, driven),
        Err(fault) => Err(fault),
    }
}

/// Runs each thread of the code in a thread of the program's own, with so many steps each, and waits until all of them
/// are over, have made their steps or were stopped. Nothing else here waits. The report is one run of every program
/// that the code means.
///
/// A fault is `Threads` exactly where the number is not 1 to 64. Where it is one of these, `NotStarted` says that a
/// thread could not be started, in which case those that were are waited for, and `OutOfMemory` that a growth was
/// refused.
pub fn run_all<R: Threads + Wait + Sync, G: Gate + Sync>(
    rt: &R,
    alloc: Global,
    code: &Code,
    threads: u32,
    budget: u64,
    gate: &G,
) -> Result<RunReport, RunFault>
    ensures report { IfOk result (λ r. (does : Behaviour) → Means (bounds_of code.now) (code_does code.now) does
        → Ran does (record { code = code.now; threads = threads }) budget r) }
    ensures few { OnOk result (IsWorkerCount threads) }
    ensures fault { IfErr result (λ e. IsRunRefused e threads) }
{
    let (hall, workers) = match Hall::open(alloc, code, threads) {
        Ok(opened) => opened,
        Err(HallFault::Threads) => return Err(RunFault::Threads),
        Err(HallFault::OutOfMemory) => return Err(RunFault::OutOfMemory),
    };
    match run_workers(rt, alloc, hall, workers, budget, gate) {
        Ok(report) => Ok(report),
        Err(DriveFault::OutOfMemory) => Err(RunFault::OutOfMemory),
        Err(DriveFault::NotStarted) => Err(RunFault::NotStarted),
    }
}
