//! How threads are after the last turn.

ghost use Rattle.std.specs.Prelude.{◌≡◌, ◌++◌, OnOk, map};
ghost use Rattle.traces.specs.Trace.{end_line, end_lines, end_words, status_words};
ghost use Rattle.traces.specs.Views.{thread_at_of};

use crate::push::{push_bytes, push_number};
use crate::turn::ThreadAt;
use std::alloc::{AllocError, Allocator};
use syntax::thread_end::Status;

/// Adds how a thread is after its turn, if it has terminated.
pub(crate) fn push_status<A: Allocator>(
    text: &mut Vec<u8, A>,
    status: Status,
) -> Result<(), AllocError>
    ensures { OnOk result (text.new.items ≡ text.old.items ++ status_words status) }
{
    match status {
        Status::Running => Ok(()),
        Status::Ended => push_bytes(text, b"  ended"),
        Status::Trapped(trap) => {
            push_bytes(text, b"  trap ")?;
            push_number(text, u64::from(trap.number()))
        }
    }
}

/// Adds how a thread is after the last turn.
fn push_end<A: Allocator>(text: &mut Vec<u8, A>, status: Status) -> Result<(), AllocError>
    ensures { OnOk result (text.new.items ≡ text.old.items ++ end_words status) }
{
    match status {
        Status::Running => push_bytes(text, b"next"),
        Status::Ended => push_bytes(text, b"ended"),
        Status::Trapped(trap) => {
            push_bytes(text, b"trap ")?;
            push_number(text, u64::from(trap.number()))
        }
    }
}

/// Adds the line of a thread.
fn push_end_line<A: Allocator>(
    text: &mut Vec<u8, A>,
    number: u64,
    thread: &ThreadAt<A>,
) -> Result<(), AllocError>
    ensures { OnOk result (text.new.items ≡ text.old.items ++ end_line number (thread_at_of thread.now)) }
{
    push_bytes(text, b"thread ")?;
    push_number(text, number)?;
    push_bytes(text, b": ")?;
    push_end(text, thread.status)?;
    push_bytes(text, thread.at.as_slice())?;
    push_bytes(text, b"\n")
}

/// Adds the lines of threads.
pub fn push_ends<A: Allocator>(
    text: &mut Vec<u8, A>,
    threads: &[ThreadAt<A>],
) -> Result<(), AllocError>
    ensures { OnOk result (text.new.items ≡ text.old.items ++ end_lines 0 (map thread_at_of threads.now)) }
{
    'threads: for number in 0..threads.len() {
        push_end_line(text, number as u64, &threads[number])?;
    }
    Ok(())
}
