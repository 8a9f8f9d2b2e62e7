//! Threads of a code that are carried on in pieces.

ghost use Rattle.std.specs.Prelude.{◌≡◌, ◌+◌, ◌<◌, ◌^◌, ℕ, IfOk, IfSome, IsSome, None, OnErr};
ghost use Rattle.syntax.specs.Behaviours.{IsMemory};
ghost use Rattle.bytecode.specs.Valid.{bounds_of};
ghost use Rattle.atomic_code.specs.Threads.{IsAtomicThreadOf, first_thread};
ghost use Rattle.atomic_code.specs.Carried.{BreaksOff, CarriesOn, end_by, memory_of};

mod at_rest;

use crate::context::{AtomicContext, Signal};
use crate::ran::{AtomicEnd, Ran};
use bytecode::Code;
use frames::Frames;
use std::alloc::{AllocError, Allocator, Global};
use std::marker::Model;
use syntax::thread_end::Status;

/// A thread of a code, with transactions as single steps. It keeps no code: each call is given the code of `new`.
#[derive(Drop)]
pub struct AtomicThread<A: Allocator = Global> {
    alloc: A,
    context: AtomicContext<A>,
    steps: u64,
}

impl<A: Allocator> Model for AtomicThread<A> {
    ghost use Rattle.atomic_code.specs.Threads.{AtomicThreadState};

    ghost Value = { AtomicThreadState };

    ghost use Rattle.atomic_code.specs.inner.Making as making;

    ghost view = { λ t. record { thread = making.thread_of t.context; steps = t.steps } };
}

/// The end of a thread, by how it is.
fn end_of(status: Status) -> Option<AtomicEnd>
    ensures { result ≡ end_by status }
{
    match status {
        Status::Running => None,
        Status::Ended => Some(AtomicEnd::Ended),
        Status::Trapped(cause) => Some(AtomicEnd::Trapped(cause)),
    }
}

/// What comes of a thread that has made so many instructions.
fn ran<A: Allocator>(steps: u64, left: Option<Vec<u64, A>>, status: Status) -> Ran<A>
    ensures steps { result.steps ≡ steps }
    ensures left { result.left ≡ left }
    ensures end { result.end ≡ end_by status }
{
    Ran {
        steps,
        left,
        end: end_of(status),
    }
}

impl<A: Allocator + Copy> AtomicThread<A> {
    /// Thread `number` at its beginning. The error comes only where memory is refused.
    pub fn new<B: Allocator>(
        alloc: A,
        code: &Code<B>,
        number: u32,
    ) -> Result<AtomicThread<A>, AllocError>
        ensures thread { IfOk result (λ t. t ≡ record { thread = first_thread code.now number; steps = 0 }) }
        ensures of { IfOk result (λ t. IsAtomicThreadOf code.now t.thread) }
    {
        // The prover learns here that the code is valid.
        code.note_valid();
        let frames = Frames::new(alloc, code, number)?;
        Ok(AtomicThread {
            alloc,
            context: AtomicContext {
                frames,
                open_in: None,
                text: String::new(alloc),
                status: Status::Running,
            },
            steps: 0,
        })
    }

    /// Carries the thread on until `steps` instructions are made, an outermost transaction is left, or the thread is
    /// over. An outermost transaction finds `found`, for each cell a word of its type; a thread that stands inside one
    /// goes on in its own memory. A thread that is over makes no instruction.
    ///
    /// The error comes only where memory is refused: the instructions before are made and counted, and the one that was
    /// not made leaves no trace.
    pub fn go<B: Allocator>(
        &mut self,
        code: &Code<B>,
        found: &[u64],
        steps: u64,
    ) -> Result<Ran<A>, AllocError>
        requires of { IsAtomicThreadOf code.now self.old.thread }
        requires found { IsMemory (bounds_of code.now) found.now }
        requires count { self.old.steps + steps < 2 ^ 64 }
        ensures ok { IfOk result
            (λ r. CarriesOn code.now found.now steps self.old.thread r.steps (memory_of r.left) self.new.thread) }
        ensures steps { IfOk result (λ r. self.new.steps ≡ self.old.steps + r.steps) }
        ensures end { IfOk result (λ r. r.end ≡ end_by self.new.thread.status) }
        ensures left { IfOk result (λ r. IfSome r.left (λ m. IsMemory (bounds_of code.now) m.items)) }
        ensures outside { IfOk result (λ r. IsSome r.left → self.new.thread.open_in ≡ None) }
        ensures err { OnErr result (BreaksOff code.now found.now steps self.old self.new) }
        ensures of { IsAtomicThreadOf code.now self.new.thread }
    {
        // The prover learns here that the code is valid.
        code.note_valid();
        match end_of(self.context.status) {
            Some(end) => Ok(Ran {
                steps: 0,
                left: None,
                end: Some(end),
            }),
            None => {
                let (made, outcome) = self.context.carry_on(self.alloc, code, Some(found), steps);
                self.steps += made;
                match outcome {
                    Err(refused) => Err(refused),
                    Ok(Signal::Goes) => Ok(ran(made, None, self.context.status)),
                    Ok(Signal::Leaves(memory)) => Ok(ran(made, Some(memory), self.context.status)),
                    Ok(Signal::Wants) => Ok(ran(made, None, self.context.status)),
                }
            }
        }
    }

    /// How many instructions the thread has made.
    pub fn steps(&self) -> u64
        ensures { result ≡ self.now.steps }
    {
        self.steps
    }

    /// Whether the thread runs, has ended or has trapped.
    pub fn status(&self) -> Status
        ensures { result ≡ self.now.thread.status }
    {
        self.context.status
    }

    /// What the thread has printed.
    pub fn output(&self) -> &str
        ensures { result.now ≡ self.now.thread.text }
    {
        self.context.text.as_str()
    }
}
