//! A thread of the source, from its first tick to its end.

ghost use Rattle.std.specs.Prelude.{◌≡◌, ◌≢◌, IfOk, IfSome};
ghost use Rattle.syntax.specs.declared.thread_end.Halt.TheVariants.{Astray};
ghost use Rattle.syntax.specs.Behaviours.{Stopped};
ghost use Rattle.syntax.specs.Actions.{lefts_in};
ghost use Rattle.syntax.specs.Threads.{first_state, thread as thread_due, worker_run};
ghost use Rattle.syntax.specs.Views.{program_of};
ghost use Rattle.meaning.specs.Outcomes.{AreMemories, memories_in, outcome_in, thread_end_in};
ghost use Rattle.meaning.specs.inner.Standing.{end_by as end_by_due};
ghost use Rattle.meaning.specs.inner.SourceThread.{Means, context_in, state_in};
ghost use Rattle.program_tables.specs.Views.{program_in};

use crate::calls::enter_function;
use crate::outcome::{ThreadEnd, ThreadOutcome};
use crate::source_thread::{Context, Halted, SourceThread, tick};
use lex::token::Scalar;
use program_tables::{ProgramTables, tables};
use separation::Accepted;
use separation::laws::never_astray;
use std::alloc::{AllocError, Allocator};
use syntax::laws::threads_leave_memories;
use syntax::thread_end::Halt;
use syntax::value::Value;

/// `worker(t)`, in the first of 64 frames, and then the tick of the thread's end.
fn work<'p, A: Allocator + Copy>(
    source: &ProgramTables<'p, A>,
    t: u32,
    m: &mut SourceThread<'p, '_, A>,
) -> Result<(), Halted>
    ensures { Means result (worker_run (program_in source.now) t (state_in m.old)) m.new }
{
    let values = [Value {
        ty: Scalar::Unsigned,
        word: u64::from(t),
    }];
    enter_function(source, 64, "worker", &values, m)?;
    tick(m)
}

/// The memories left.
fn memories_left<A: Allocator + Copy>(alloc: A, context: Context<A>) -> Vec<Vec<u64, A>, A>
    ensures { memories_in result.items ≡ lefts_in (context_in context.entry) }
{
    match context {
        Context::Outside(_, lefts) => lefts,
        Context::Inside(_, _) => Vec::new(alloc),
    }
}

/// What is seen of a thread that has come to this end.
fn finish<A: Allocator + Copy>(alloc: A, end: ThreadEnd, m: SourceThread<A>) -> ThreadOutcome<A>
    ensures { outcome_in result ≡ record {
      lefts = lefts_in (state_in m.entry).context;
      text = (state_in m.entry).text;
      end = thread_end_in end;
    } }
{
    ThreadOutcome {
        lefts: memories_left(alloc, m.context),
        text: m.text,
        end,
    }
}

/// A thread before its first tick.
pub(crate) fn start<'p, 'f, A: Allocator + Copy>(
    alloc: A,
    founds: &'f [Vec<u64, A>],
    ticks: u64,
) -> SourceThread<'p, 'f, A>
    ensures { state_in result ≡ first_state (memories_in founds.now) ticks }
{
    SourceThread {
        ticks,
        why: None,
        at: None,
        locals: Vec::new(alloc),
        context: Context::Outside(founds, Vec::new(alloc)),
        text: Vec::new(alloc),
    }
}

/// The end that is told of a thread that has stopped.
fn completion_of(why: Halt) -> ThreadEnd
    requires { why ≢ Astray }
    ensures { thread_end_in result ≡ Stopped why }
{
    match why {
        Halt::Trapped(trap) => ThreadEnd::Trapped(trap),
        Halt::Wants => ThreadEnd::Wants,
        Halt::Spent => ThreadEnd::Spent,
        Halt::Astray => unreachable!(),
    }
}

/// The end that is told of a thread that has stopped, or has come to its end; none where it has gone astray.
pub(crate) fn end_by(why: Option<Halt>) -> Option<ThreadEnd>
    ensures { IfSome result (λ e. thread_end_in e ≡ end_by_due why) }
{
    match why {
        None => Some(ThreadEnd::Ended),
        Some(Halt::Astray) => None,
        Some(why) => Some(completion_of(why)),
    }
}

/// What thread `t` of an accepted program does within so many ticks, where the i-th of its outermost transactions finds
/// the i-th of these memories: what it leaves and prints, and how it ends. Where those that it may find are memories of
/// the program, with a word of its type for each cell, those that it leaves are. Takes memory for the state of the
/// program, for the memories and for the text; where that is refused, nothing else is told.
pub fn thread<A: Allocator + Copy>(
    alloc: A,
    accepted: &Accepted<A>,
    t: u32,
    founds: &[Vec<u64, A>],
    ticks: u64,
) -> Result<ThreadOutcome<A>, AllocError>
    ensures value { IfOk result (λ o. outcome_in o ≡
        thread_due (program_of accepted.now.safe.typed.unit) t (memories_in founds.now) ticks) }
    ensures memories { IfOk result (λ o. AreMemories (program_of accepted.now.safe.typed.unit) founds.now →
        AreMemories (program_of accepted.now.safe.typed.unit) o.lefts.items) }
{
    never_astray(); // the law by which an end is told below
    threads_leave_memories(); // the law by which what is left are memories
    let Ok(source) = tables(alloc, accepted.safe().typed()) else {
        return Err(AllocError);
    };
    let mut m = start(alloc, founds, ticks);
    match work(&source, t, &mut m) {
        Ok(()) => Ok(finish(alloc, ThreadEnd::Ended, m)),
        Err(_) => match m.why {
            Some(why) => Ok(finish(alloc, completion_of(why), m)),
            None => Err(AllocError),
        },
    }
}
