//! What a program means, and its code's threads with transactions as single steps: each call is made again where
//! memory was refused.

ghost use Rattle.std.specs.Prelude.{IfSome};
ghost use Rattle.atomic_code.specs.Threads.{IsAtomicThreadOf};

use crate::seen::Seen;
use atomic_code::{AtomicThread, Ran, is_memory};
use bytecode::Code;
use meaning::{MeaningFault, SourceOutcome, ThreadEnd, ThreadOutcome, run_order, thread};
use separation::Accepted;
use std::alloc::{AllocError, Allocator};
use syntax::thread_end::Status;

/// How many ticks a thread of the source has, and how many instructions one of the code.
const MOST: u64 = 100_000;

/// The end of a thread, for a line.
fn end_text(end: ThreadEnd) -> &'static str {
    match end {
        ThreadEnd::Ended => "ended",
        ThreadEnd::Trapped(_) => "trapped",
        ThreadEnd::Wants => "wants",
        ThreadEnd::Spent => "spent",
    }
}

fn ran<A: Allocator + Copy>(
    alloc: A,
    accepted: &Accepted<A>,
    founds: &[Vec<u64, A>],
) -> Option<ThreadOutcome<A>> {
    match thread(alloc, accepted, 1, founds, MOST) {
        Ok(outcome) => Some(outcome),
        Err(_) => thread(alloc, accepted, 1, founds, MOST).ok(),
    }
}

/// Adds the memories that were left.
fn add_lefts<A: Allocator>(lefts: &[Vec<u64, A>], seen: &mut Seen) -> Option<()> {
    for left in lefts {
        let Some(()) = seen.words("left", left.as_slice()) else {
            return None;
        };
    }
    Some(())
}

/// Adds what thread 1 of a program leaves, prints and comes to.
pub fn mean<A: Allocator + Copy>(
    alloc: A,
    accepted: &Accepted<A>,
    founds: &[Vec<u64, A>],
    seen: &mut Seen,
) -> Option<()> {
    let Some(outcome) = ran(alloc, accepted, founds) else {
        return None;
    };
    let Some(()) = add_lefts(outcome.lefts.as_slice(), seen) else {
        return None;
    };
    seen.bytes(end_text(outcome.end), outcome.text.as_slice())
}

fn run_in_order<A: Allocator + Copy>(
    alloc: A,
    accepted: &Accepted<A>,
    order: &[u32],
) -> Option<SourceOutcome<A>> {
    match run_order(alloc, accepted, 2, order, MOST) {
        Ok(outcome) => Some(outcome),
        Err(MeaningFault::OutOfMemory) => run_order(alloc, accepted, 2, order, MOST).ok(),
        Err(_) => None,
    }
}

/// Adds the cells of a memory.
fn add_memory(memory: &[u64], seen: &mut Seen) -> Option<()> {
    for word in memory {
        let Some(()) = seen.words("cell", &[*word]) else {
            return None;
        };
    }
    Some(())
}

/// Adds what two threads of a program do in an order.
pub fn mean_in_order<A: Allocator + Copy>(
    alloc: A,
    accepted: &Accepted<A>,
    order: &[u32],
    seen: &mut Seen,
) -> Option<()> {
    let Some(outcome) = run_in_order(alloc, accepted, order) else {
        return None;
    };
    for thread in &outcome.threads {
        let Some(()) = seen.bytes(end_text(thread.end), thread.text.as_slice()) else {
            return None;
        };
    }
    add_memory(outcome.memory.as_slice(), seen)
}

/// Thread 1 of a code at its beginning.
fn fresh_thread<A: Allocator + Copy>(alloc: A, code: &Code<A>) -> Option<AtomicThread<A>>
    ensures { IfSome result (λ t. IsAtomicThreadOf code.now t.thread) }
{
    match AtomicThread::new(alloc, code, 1) {
        Ok(thread) => Some(thread),
        Err(_) => None,
    }
}

/// Thread 1 of a code at its beginning, by a second call where the first was refused memory.
fn begun_at_last<A: Allocator + Copy>(alloc: A, code: &Code<A>) -> Option<AtomicThread<A>>
    ensures { IfSome result (λ t. IsAtomicThreadOf code.now t.thread) }
{
    match fresh_thread(alloc, code) {
        Some(thread) => Some(thread),
        None => fresh_thread(alloc, code),
    }
}

/// Carries a thread on to the next memory that it leaves, to its end, or until it has made so many instructions.
fn go<A: Allocator + Copy>(
    thread: &mut AtomicThread<A>,
    code: &Code<A>,
    found: &[u64],
    most: u64,
) -> Option<Ran<A>>
    requires { IsAtomicThreadOf code.now thread.old.thread }
    ensures { IsAtomicThreadOf code.now thread.new.thread }
{
    if !is_memory(code, found) || thread.steps() > most {
        return None;
    }
    let rest = most - thread.steps();
    thread.go(code, found, rest).ok()
}

/// Carries a thread on until it has made so many instructions.
fn go_to<A: Allocator + Copy>(
    thread: &mut AtomicThread<A>,
    code: &Code<A>,
    found: &[u64],
    steps: u64,
)
    requires { IsAtomicThreadOf code.now thread.old.thread }
    ensures { IsAtomicThreadOf code.now thread.new.thread }
{
    'pieces: for _ in 0..10u32 {
        let _ran = go(thread, code, found, steps);
    }
}

/// Whether a thread stands where another one does that has made as many instructions.
fn stands_so<A: Allocator + Copy>(
    alloc: A,
    thread: &AtomicThread<A>,
    code: &Code<A>,
    found: &[u64],
) -> bool {
    match fresh_thread(alloc, code) {
        Some(mut beside) => {
            go_to(&mut beside, code, found, thread.steps());
            beside.steps() == thread.steps()
                && beside.status() == thread.status()
                && beside.output() == thread.output()
        }
        None => false,
    }
}

/// `go`, by a second call where the first was refused memory.
fn go_at_last<A: Allocator + Copy>(
    alloc: A,
    thread: &mut AtomicThread<A>,
    code: &Code<A>,
    found: &[u64],
) -> Option<Ran<A>>
    requires { IsAtomicThreadOf code.now thread.old.thread }
    ensures { IsAtomicThreadOf code.now thread.new.thread }
{
    match go(thread, code, found, MOST) {
        Some(ran) => Some(ran),
        None => {
            if stands_so(alloc, thread, code, found) {
                go(thread, code, found, MOST)
            } else {
                None
            }
        }
    }
}

/// Adds what a thread has left by a call: whether it is over.
fn add_ran<A: Allocator>(ran: &Ran<A>, seen: &mut Seen) -> Option<bool> {
    match &ran.left {
        Some(left) => match seen.words("go", left.as_slice()) {
            Some(()) => Some(ran.end.is_some()),
            None => None,
        },
        None => Some(ran.end.is_some()),
    }
}

/// Carries a thread on to its end: `None` where it does not come there.
fn go_on<A: Allocator + Copy>(
    alloc: A,
    thread: &mut AtomicThread<A>,
    code: &Code<A>,
    found: &[u64],
    seen: &mut Seen,
) -> Option<()>
    requires { IsAtomicThreadOf code.now thread.old.thread }
{
    'pieces: for _ in 0..10u32 {
        let Some(ran) = go_at_last(alloc, thread, code, found) else {
            return None;
        };
        match add_ran(&ran, seen) {
            Some(true) => return Some(()),
            Some(false) => {}
            None => return None,
        }
    }
    None
}

fn status_text(status: Status) -> &'static str {
    match status {
        Status::Running => "running",
        Status::Ended => "ended",
        Status::Trapped(_) => "trapped",
    }
}

/// Adds what thread 1 of a code leaves, prints and comes to, by how many instructions.
pub fn carry<A: Allocator + Copy>(
    alloc: A,
    code: &Code<A>,
    found: &[u64],
    seen: &mut Seen,
) -> Option<()> {
    let Some(mut thread) = begun_at_last(alloc, code) else {
        return None;
    };
    let Some(()) = go_on(alloc, &mut thread, code, found, seen) else {
        return None;
    };
    let Some(()) = seen.words("instructions", &[thread.steps()]) else {
        return None;
    };
    seen.bytes(status_text(thread.status()), thread.output().as_bytes())
}

/// The first memory of a code, with no refusal.
fn first_memory<A: Allocator + Copy>(alloc: A, code: &Code<A>) -> Result<Vec<u64, A>, AllocError> {
    let mut memory = Vec::new(alloc);
    code.push_initial(&mut memory)?;
    Ok(memory)
}

/// What so many transactions of a code find, with no refusal: its first memory each.
pub fn founds_of<A: Allocator + Copy>(
    alloc: A,
    code: &Code<A>,
    transactions: usize,
) -> Result<Vec<Vec<u64, A>, A>, AllocError> {
    let mut founds = Vec::new(alloc);
    for _ in 0..transactions {
        founds.push(first_memory(alloc, code)?)?;
    }
    Ok(founds)
}
