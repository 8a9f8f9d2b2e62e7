//! Reports of worlds.

ghost use Rattle.std.specs.Prelude.{◌≡◌, [], None, IfOk, IfErr, length};
ghost use Rattle.world.specs.Simulations.{IsHolder, world_of};
ghost use Rattle.world.specs.Reports.{end_by as end_by_spec, end_of as end_of_spec, end_with as end_with_spec};
ghost use Rattle.world.specs.Reports.{stop_with, threads_of, threads_shown};

use crate::stop::{StopReason, WorldStop};
use crate::world::World;
use machine::{Event, PlaceShown};
use std::alloc::{AllocError, Allocator, Global};
use syntax::thread_end::{Status, Trap};

/// How a thread is found.
#[derive(Clone, Copy, PartialEq, Eq)]
pub enum WorldEnd {
    /// The thread has come to its end.
    Ended,
    /// The thread has trapped.
    Trapped(Trap),
    /// The memory that the thread's next step wants was refused.
    OutOfMemory,
    /// The thread's next step would swap the lock from its last even value.
    SequenceUsedUp,
    /// The thread would go on.
    Running,
}

/// What steps of the machine leave.
#[derive(Drop)]
pub struct Report<A: Allocator = Global> {
    /// What happened in which step: the accesses to the lock or the words that all threads had made with it, the
    /// thread, and the event.
    pub events: Vec<(u64, u32, Event), A>,
    /// How each thread is found, and what it has printed, from thread 0 on.
    pub threads: Vec<(WorldEnd, String<A>), A>,
    /// What is shown of the place at which each thread stands. No contract speaks of it.
    pub places: Vec<PlaceShown, A>,
    /// The words of the cells.
    pub words: Vec<u64, A>,
    /// The thread that has the lock, if one has.
    pub holder: Option<u32>,
    /// The step that was not made, if one was not.
    pub stop: Option<WorldStop>,
    /// The thread of each step that was made, in their order.
    pub trace: Vec<u32, A>,
}

fn end_of(status: Status) -> WorldEnd
    ensures { result ≡ end_of_spec status }
{
    match status {
        Status::Running => WorldEnd::Running,
        Status::Ended => WorldEnd::Ended,
        Status::Trapped(cause) => WorldEnd::Trapped(cause),
    }
}

fn end_by(reason: StopReason, status: Status) -> WorldEnd
    ensures { result ≡ end_by_spec reason status }
{
    match reason {
        StopReason::OutOfMemory => WorldEnd::OutOfMemory,
        StopReason::SequenceUsedUp => WorldEnd::SequenceUsedUp,
        StopReason::Stranger => end_of(status),
    }
}

fn end_with(stop: Option<(u32, StopReason)>, t: u32, status: Status) -> WorldEnd
    ensures { result ≡ end_with_spec stop t status }
{
    match stop {
        Some(u) if u.0 == t => end_by(u.1, status),
        _ => end_of(status),
    }
}

impl<A: Allocator + Copy> World<A> {
    /// How each thread is found, and what it has printed.
    fn thread_reports(
        &self,
        alloc: A,
        stop: Option<(u32, StopReason)>,
    ) -> Result<Vec<(WorldEnd, String<A>), A>, AllocError>
        ensures { IfOk result (λ v. threads_of v.items ≡ threads_shown stop self.now) }
    {
        let mut shown = Vec::new(alloc);
        'threads: for t in 0..self.threads() {
            let end = end_with(stop, t, self.status(t));
            let text = String::from_str(alloc, self.output(t))?;
            shown.push((end, text))?;
        }
        Ok(shown)
    }

    fn stop_with(&self, stop: Option<(u32, StopReason)>) -> Option<WorldStop>
        ensures { result ≡ stop_with stop self.now }
    {
        match stop {
            None => None,
            Some(u) => Some(WorldStop {
                step: self.steps(),
                reason: u.1,
            }),
        }
    }

    /// What the steps have left, without events; where the next step of a thread was not made, with that. An error
    /// comes only where a growth is refused.
    pub fn report_with(
        &self,
        alloc: A,
        stop: Option<(u32, StopReason)>,
    ) -> Result<Report<A>, AllocError>
        ensures events { IfOk result (λ r. r.events.items ≡ []) }
        ensures threads { IfOk result (λ r. threads_of r.threads.items ≡ threads_shown stop self.now) }
        ensures words { IfOk result (λ r. r.words.items ≡ (world_of self.now).words) }
        ensures holder { IfOk result (λ r. IsHolder (world_of self.now) r.holder) }
        ensures stop { IfOk result (λ r. r.stop ≡ stop_with stop self.now) }
        ensures trace { IfOk result (λ r. r.trace.items ≡ self.now.trace) }
    {
        let threads = self.thread_reports(alloc, stop)?;
        let places = self.places(alloc)?;
        let words = Vec::from_slice(alloc, self.words())?;
        let trace = Vec::from_slice(alloc, self.trace())?;
        Ok(Report {
            events: Vec::new(alloc),
            threads,
            places,
            words,
            holder: self.holder(),
            stop: self.stop_with(stop),
            trace,
        })
    }

    /// What the steps have left, without events. An error comes only where a growth is refused.
    pub fn report(&self, alloc: A) -> Result<Report<A>, AllocError>
        ensures events { IfOk result (λ r. r.events.items ≡ []) }
        ensures threads { IfOk result (λ r. threads_of r.threads.items ≡ threads_shown None self.now) }
        ensures words { IfOk result (λ r. r.words.items ≡ (world_of self.now).words) }
        ensures holder { IfOk result (λ r. IsHolder (world_of self.now) r.holder) }
        ensures stop { IfOk result (λ r. r.stop ≡ None) }
        ensures trace { IfOk result (λ r. r.trace.items ≡ self.now.trace) }
    {
        self.report_with(alloc, None)
    }
}
