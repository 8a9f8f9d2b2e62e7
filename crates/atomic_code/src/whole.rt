//! Whole threads.

ghost use Rattle.std.specs.Prelude.{◌≡◌, IfOk, false, slice_get};
ghost use Rattle.std.specs.List.{AllByRecursion};
ghost use Rattle.syntax.specs.Behaviours.{IsMemory};
ghost use Rattle.bytecode.specs.Beginning.{beginning};
ghost use Rattle.bytecode.specs.Code.{effect};
ghost use Rattle.bytecode.specs.Sequential.{end_of as end_due, meaning};
ghost use Rattle.bytecode.specs.Valid.{bounds_of};
ghost use Rattle.atomic_code.specs.Whole.{memories_in, outcome_in, thread_end_in};
ghost use Rattle.atomic_code.specs.inner.Making.{at_hand};

use crate::carry::runs;
use crate::context::{AtomicContext, Signal};
use bytecode::Code;
use frames::Frames;
use std::alloc::{AllocError, Allocator, Global};
use syntax::thread_end::{Halt, Status};

/// How a thread is found after its instructions.
#[derive(Clone, Copy, PartialEq, Eq)]
pub enum AtomicThreadEnd {
    /// The thread has come to its end.
    Ended,

    /// The thread goes no further.
    Stopped(Halt),
}

/// What a thread leaves and prints.
#[derive(Drop)]
pub struct AtomicThreadOutcome<A: Allocator = Global> {
    /// The memory that each outermost transaction left, a word for each cell, in the order in which they ended.
    pub lefts: Vec<Vec<u64, A>, A>,
    /// What is printed.
    pub text: String<A>,
    pub end: AtomicThreadEnd,
}

/// The end of a thread that wants no memory: spent, where it would go on.
fn end_without_want(status: Status) -> AtomicThreadEnd
    ensures { thread_end_in result ≡ end_due false status }
{
    match status {
        Status::Running => AtomicThreadEnd::Stopped(Halt::Spent),
        Status::Ended => AtomicThreadEnd::Ended,
        Status::Trapped(cause) => AtomicThreadEnd::Stopped(Halt::Trapped(cause)),
    }
}

/// The memory under this number.
fn memory_at<A: Allocator>(founds: &[Vec<u64, A>], number: usize) -> Option<&[u64]>
    ensures { at_hand (λ m. m.now) result ≡ slice_get (memories_in founds.now) number }
{
    match founds.get(number) {
        None => None,
        Some(memory) => Some(memory.as_slice()),
    }
}

/// What thread `number` of a code does within so many instructions, where the i-th of its outermost transactions finds
/// the i-th of these memories of the code. The error comes only where memory is refused.
pub fn thread<A: Allocator + Copy, B: Allocator>(
    alloc: A,
    code: &Code<B>,
    number: u32,
    founds: &[Vec<u64, A>],
    steps: u64,
) -> Result<AtomicThreadOutcome<A>, AllocError>
    requires { AllByRecursion (IsMemory (bounds_of code.now)) (memories_in founds.now) }
    ensures { IfOk result (λ o. outcome_in o ≡ meaning (effect code.now) (beginning code.now) number
        (memories_in founds.now) steps) }
{
    // The prover learns here that the code is valid.
    code.note_valid();
    let frames = Frames::new(alloc, code, number)?;
    let mut context = AtomicContext {
        frames,
        open_in: None,
        text: String::new(alloc),
        status: Status::Running,
    };
    let mut lefts = Vec::new(alloc);
    let mut made: u64 = 0;
    'turns: while made < steps {
        let found = memory_at(founds, lefts.len());
        let (more, outcome) = context.carry_on(alloc, code, found, steps - made);
        made += more;
        match outcome {
            Err(refused) => return Err(refused),
            Ok(Signal::Goes) => {
                let end = end_without_want(context.status);
                return Ok(AtomicThreadOutcome {
                    lefts,
                    text: context.text,
                    end,
                });
            }
            Ok(Signal::Wants) => {
                return Ok(AtomicThreadOutcome {
                    lefts,
                    text: context.text,
                    end: AtomicThreadEnd::Stopped(Halt::Wants),
                });
            }
            Ok(Signal::Leaves(memory)) => {
                lefts.push(memory)?;
                if !runs(context.status) {
                    let end = end_without_want(context.status);
                    return Ok(AtomicThreadOutcome {
                        lefts,
                        text: context.text,
                        end,
                    });
                }
            }
        }
    }
    Ok(AtomicThreadOutcome {
        lefts,
        text: context.text,
        end: AtomicThreadEnd::Stopped(Halt::Spent),
    })
}
