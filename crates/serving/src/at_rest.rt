//! The reports of threads that rest between their transactions, from the states of a search.

ghost use Rattle.std.specs.Prelude.{◌≡◌, ◌<◌, IfOk, map};
ghost use Rattle.bytecode.specs.Code.{Code};
ghost use Rattle.bytecode.specs.Sequential.{end_of};
ghost use Rattle.states.specs.Rests as rests;
ghost use Rattle.states.specs.Shown.{told_at_rest};
ghost use Rattle.atomic_code.specs.Resting.{thread_at_rest, wants_by};
ghost use Rattle.meaning.specs.InOrder.{report_in};
ghost use Rattle.meaning.specs.Outcomes.{thread_end_in};
ghost use Rattle.walks.specs.Found.{state_at};
ghost use Rattle.walks.specs.States.{told_at};
ghost use Rattle.walks.specs.Walks.{IsWalk};

use atomic_code::AtomicThread;
use meaning::{ThreadEnd, ThreadReport};
use std::alloc::{AllocError, Allocator};
use syntax::thread_end::Status;
use walks::Walk;

/// The end of a thread that rests: a running one waits for its turn.
fn end_at_rest(status: Status) -> ThreadEnd
    ensures { thread_end_in result ≡ end_of (wants_by status) status }
{
    match status {
        Status::Running => ThreadEnd::Wants,
        Status::Ended => ThreadEnd::Ended,
        Status::Trapped(cause) => ThreadEnd::Trapped(cause),
    }
}

/// The output and the end of a thread that rests.
pub(crate) fn thread_told<A: Allocator + Copy>(
    alloc: A,
    thread: &AtomicThread<A>,
) -> Result<ThreadReport<A>, AllocError>
    ensures { IfOk result (λ r. report_in r ≡ told_at_rest rests.end_at_rest rests.text_at_rest
        (thread_at_rest thread.now.thread)) }
{
    let text = Vec::from_slice(alloc, thread.output().as_bytes())?;
    Ok(ThreadReport {
        text,
        end: end_at_rest(thread.status()),
        at: None,
    })
}

/// The outputs and the ends of the threads of a state.
pub(crate) fn state_told<A: Allocator + Copy>(
    alloc: A,
    walk: &Walk<A>,
    state: usize,
) -> Result<Vec<ThreadReport<A>, A>, AllocError>
    requires walk { (code : Code) × IsWalk code walk.now }
    requires there { state < walk.now.rows.count }
    ensures { IfOk result (λ rs. map report_in rs.items ≡ told_at (state_at walk.now state)) }
{
    let mut told = Vec::new(alloc);
    'threads: for t in 0..walk.threads() {
        told.push(thread_told(alloc, walk.thread(state, t))?)?;
    }
    Ok(told)
}
