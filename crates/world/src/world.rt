//! A world: its lock, its words and its threads.

ghost use Rattle.std.specs.Prelude.{◌≡◌, ◌+◌, ◌<◌, ◌≤◌, ◌⊎◌, ◌↔◌, ◌∷◌, [], true, Some, IfOk, IfErr, OnOk, OnErr};
ghost use Rattle.std.specs.Prelude.{false, length, replicate, slice_index, take, vec_len};
ghost use Rattle.syntax.specs.Behaviours.{Extends};
ghost use Rattle.world.specs.Simulations.{EndsAlone, IsExplained, IsHolder, accesses_of, event_at, further, output_at};
ghost use Rattle.world.specs.Simulations.{shown_at, status_at, stops_at, transactions_of, world_of};
ghost use Rattle.world.specs.Resting.{GoesOnAlone, RestsAt};
ghost use Rattle.world.specs.Stops.{StopsFor};
ghost use Rattle.world.specs.inner.Following.{AreFirstFrom};

use crate::make::{cost, make};
use crate::stop::{StopReason, WorldFault, WorldStop};
use bytecode::Code;
use machine::{Event, PlaceShown, StepShown, Thread};
use norec_core::Stop;
use std::alloc::{AllocError, Allocator, Global};
use std::marker::Model;
use syntax::thread_end::Status;

/// The most threads of a world.
const MOST_THREADS: u32 = 64;

/// A lock, shared words and 1 to 64 threads of one code, of which it keeps a copy. It stores the thread of each step
/// made.
///
/// Contracts see the code, the number of threads and the steps made: what else a world has is what these steps of the
/// machine lead to.
#[derive(Drop)]
pub struct World<A: Allocator = Global> {
    code: Code<A>,
    lock: u64,
    words: Vec<u64, A>,
    threads: Vec<Thread<A>, A>,
    accesses: u64,
    trace: Vec<u32, A>,
}

impl<A: Allocator> Model for World<A> {
    ghost use Rattle.std.specs.Prelude.{length};
    ghost use Rattle.world.specs.Simulations.{Simulation};

    ghost Value = { Simulation };

    ghost view = { λ w. record { code = w.code; threads = length w.threads.items; trace = w.trace.items } };

    ghost use Rattle.world.specs.inner.Following.{IsWorldOf};

    ghost invariant = { λ w. IsWorldOf
        (record { code = w.code; threads = length w.threads.items; trace = w.trace.items }) w.lock w.words.items
        w.threads.items w.accesses };
}

/// Makes so many threads, each at its beginning.
fn first_threads<A: Allocator + Copy>(
    alloc: A,
    code: &Code<A>,
    count: u32,
) -> Result<Vec<Thread<A>, A>, AllocError>
    ensures count { IfOk result (λ v. length v.items ≡ count) }
    ensures first { IfOk result (λ v. AreFirstFrom code.now 0 v.items) }
{
    let mut threads = Vec::new(alloc);
    'numbers: for number in 0..count {
        threads.push(Thread::new(alloc, code, number)?)?;
    }
    Ok(threads)
}

/// The world of so many threads, before any step.
fn new_world<A: Allocator + Copy>(
    alloc: A,
    code: &Code<A>,
    threads: u32,
) -> Result<World<A>, AllocError>
    requires { threads ≤ 64 }
    ensures { IfOk result (λ w. w ≡ record { code = code.now; threads = threads; trace = [] }) }
{
    let code = code.copy(alloc)?;
    let mut words = Vec::new(alloc);
    code.push_initial(&mut words)?;
    let threads = first_threads(alloc, &code, threads)?;
    Ok(World {
        code,
        lock: 0,
        words,
        threads,
        accesses: 0,
        trace: Vec::new(alloc),
    })
}

impl<A: Allocator + Copy> World<A> {
    /// A world whose lock is free, whose cells have their first words, and whose threads stand at their beginnings. A
    /// fault is `WrongThreads` exactly where the number is not 1 to 64, and else `OutOfMemory`, where a growth was
    /// refused.
    pub fn new(alloc: A, code: &Code<A>, threads: u32) -> Result<World<A>, WorldFault>
        ensures ok { IfOk result (λ w. w ≡ record { code = code.now; threads = threads; trace = [] }) }
        ensures wrong { (result ≡ Err WorldFault.WrongThreads) ↔ ((threads ≡ 0) ⊎ (64 < threads)) }
        ensures alone { EndsAlone code.now }
    {
        // The prover learns here that the code is valid.
        code.note_valid();
        if threads == 0 || threads > MOST_THREADS {
            return Err(WorldFault::WrongThreads);
        }
        match new_world(alloc, code, threads) {
            Ok(world) => Ok(world),
            Err(_) => Err(WorldFault::OutOfMemory),
        }
    }

    /// Makes the next step of thread t, and says what happened in it. A thread that is over makes steps that change
    /// nothing but the list of steps.
    ///
    /// An error leaves the world as it was: `OutOfMemory` where a growth was refused, which may be at any step, since the
    /// list of steps grows with each; `SequenceUsedUp` where the step would swap the lock from its last even value.
    pub fn step(&mut self, t: u32) -> Result<Event, Stop>
        requires { t < self.old.threads }
        ensures ok { OnOk result (self.new ≡ further self.old (t ∷ [])) }
        ensures event { IfOk result (λ e. e ≡ event_at self.old t) }
        ensures err { OnErr result (self.new ≡ self.old) }
        ensures used_up { (result ≡ Err Stop.SequenceUsedUp) ↔ (stops_at self.old t ≡ true) }
        ensures explained { IsExplained self.new }
    {
        match self.step_shown(t) {
            Ok(shown) => Ok(shown.event),
            Err(why) => Err(why),
        }
    }

    /// `step`, and what is shown of it.
    pub fn step_shown(&mut self, t: u32) -> Result<StepShown, Stop>
        requires { t < self.old.threads }
        ensures ok { OnOk result (self.new ≡ further self.old (t ∷ [])) }
        ensures shown { IfOk result (λ x. shown_at self.old t ≡ Some x) }
        ensures err { OnErr result (self.new ≡ self.old) }
        ensures used_up { (result ≡ Err Stop.SequenceUsedUp) ↔ (stops_at self.old t ≡ true) }
        ensures explained { IsExplained self.new }
    {
        let thread = &mut self.threads[t as usize];
        let status = thread.status();
        let place = thread.place();
        let access = match thread.prepare(&self.code) {
            Ok(access) => access,
            Err(why) => return Err(why),
        };
        let Ok(()) = self.trace.reserve(1) else {
            return Err(Stop::OutOfMemory);
        };
        let answer = make(&mut self.lock, &mut self.words, access);
        let event = thread.told(&self.code, answer);
        self.accesses += cost(access);
        self.trace.push_reserved(t);
        Ok(StepShown {
            status,
            place,
            access,
            answer,
            event,
        })
    }

    /// Makes the next step of thread t, where there is such a thread.
    fn step_any(&mut self, t: u32) -> Result<(), StopReason>
        ensures ok { OnOk result (self.new ≡ further self.old (t ∷ [])) }
        ensures err { IfErr result (λ e. (self.new ≡ self.old) × StopsFor self.new t e) }
        ensures explained { IsExplained self.new }
    {
        if t >= self.threads() {
            return Err(StopReason::Stranger);
        }
        match self.step(t) {
            Ok(_) => Ok(()),
            Err(Stop::OutOfMemory) => Err(StopReason::OutOfMemory),
            Err(Stop::SequenceUsedUp) => Err(StopReason::SequenceUsedUp),
        }
    }

    /// Makes these steps, each the next one of its thread, in order. An error says which step was not made, and why;
    /// the steps before it stand, and the rest may be asked for again.
    pub fn run(&mut self, steps: &[u32]) -> Result<(), WorldStop>
        ensures ok { OnOk result (self.new ≡ further self.old steps.now) }
        ensures err { IfErr result (λ e. (e.step < length steps.now)
            × (self.new ≡ further self.old (take e.step steps.now))
            × StopsFor self.new (slice_index steps.now e.step) e.reason) }
        ensures explained { IsExplained self.new }
        ensures extends { Extends (transactions_of self.old) (transactions_of self.new) }
    {
        // The prover learns here that the world is explained.
        let _threads = self.threads();
        'steps: for made in 0..steps.len() {
            if let Err(reason) = self.step_any(steps[made]) {
                return Err(stop_at(made, reason));
            }
        }
        Ok(())
    }

    /// Whether thread t rests between its transactions: it is over, or has no attempt and stands at a begin.
    pub fn rests(&self, t: u32) -> bool
        requires { t < self.now.threads }
        ensures rests { result ≡ true → RestsAt self.now t }
        ensures goes_on { result ≡ false → RestsAt self.now t → ⊥ }
    {
        let thread = &self.threads[t as usize];
        thread.is_at_rest(&self.code)
    }

    /// Makes steps of thread t up to where it rests, and so many at most. It says how many it made. An error leaves the
    /// steps that were made.
    pub fn run_alone(&mut self, t: u32, most: u32) -> Result<u32, Stop>
        requires { t < self.old.threads }
        ensures made { IfOk result (λ n. (n ≤ most) × (self.new ≡ further self.old (replicate n t))) }
        ensures first { IfOk result (λ n. GoesOnAlone self.old t n) }
        ensures rests { IfOk result (λ n. RestsAt self.new t ⊎ (n ≡ most)) }
        ensures threads { self.new.threads ≡ self.old.threads }
        ensures explained { IsExplained self.new }
    {
        // The prover learns here that the world is explained.
        let _threads = self.threads();
        'steps: for made in 0..most {
            if self.rests(t) {
                return Ok(made);
            }
            if let Err(stop) = self.step(t) {
                return Err(stop);
            }
        }
        Ok(most)
    }

    /// How many threads there are.
    pub fn threads(&self) -> u32
        ensures threads { result ≡ self.now.threads }
        ensures explained { IsExplained self.now }
    {
        self.threads.len() as u32
    }

    /// The lock: even where no thread has it.
    pub fn lock(&self) -> u64
        ensures { result ≡ (world_of self.now).lock }
    {
        self.lock
    }

    /// The words of the cells.
    pub fn words(&self) -> &[u64]
        ensures { result.now ≡ (world_of self.now).words }
    {
        self.words.as_slice()
    }

    /// How many steps were made.
    pub fn steps(&self) -> u64
        ensures { result ≡ length self.now.trace }
    {
        self.trace.len() as u64
    }

    /// The thread of each step, in their order.
    pub fn trace(&self) -> &[u32]
        ensures { result.now ≡ self.now.trace }
    {
        self.trace.as_slice()
    }

    /// How many accesses to the lock or the words all threads have made.
    pub fn accesses(&self) -> u64
        ensures { result ≡ accesses_of self.now }
    {
        self.accesses
    }

    /// How thread t is.
    pub fn status(&self, t: u32) -> Status
        requires { t < self.now.threads }
        ensures { status_at self.now t ≡ Some result }
    {
        let thread = &self.threads[t as usize];
        thread.status()
    }

    /// What thread t has printed.
    pub fn output(&self, t: u32) -> &str
        requires { t < self.now.threads }
        ensures { output_at self.now t ≡ Some result.now }
    {
        let thread = &self.threads[t as usize];
        thread.output()
    }

    /// What is shown of the place at which each thread stands.
    pub(crate) fn places(&self, alloc: A) -> Result<Vec<PlaceShown, A>, AllocError> {
        let mut places = Vec::new(alloc);
        'threads: for thread in self.threads.as_slice() {
            places.push(thread.place_shown(&self.code))?;
        }
        Ok(places)
    }

    /// The thread that has the lock, if one has.
    pub fn holder(&self) -> Option<u32>
        ensures { IsHolder (world_of self.now) result }
    {
        'threads: for t in 0..self.threads.len() {
            let thread = &self.threads[t];
            if thread.has_lock() {
                return Some(t as u32);
            }
        }
        None
    }
}

/// The stop of a list's step.
fn stop_at(step: usize, reason: StopReason) -> WorldStop
    ensures { (result.step ≡ step) × (result.reason ≡ reason) }
{
    WorldStop {
        step: step as u64,
        reason,
    }
}
