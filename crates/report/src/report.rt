//! The text of a report.

ghost use Rattle.std.specs.Prelude.{◌≡◌, ◌++◌, OnOk, IfOk, codes, decimal, flat_map, map};
ghost use Rattle.report.specs.Report.{event_line, global_line, memory_text, thread_text, threads_text};
ghost use Rattle.report.specs.Report as spec;
ghost use Rattle.report.specs.Views.{printed_of, shown_of, thread_of};

use crate::printed::{Printed, Shown, ThreadShown};
use crate::push::{push_bytes, push_end, push_event, push_global, push_lines, push_number};
use machine::Event;
use std::alloc::{AllocError, Allocator};

/// Adds the lines of events.
pub(crate) fn push_events<A: Allocator>(
    report: &mut Vec<u8, A>,
    events: &[(u64, u32, Event)],
) -> Result<(), AllocError>
    ensures { OnOk result (report.new.items ≡ report.old.items ++ flat_map event_line events.now) }
{
    'events: for (accesses, thread, event) in events {
        push_event(report, *accesses, *thread, *event)?;
    }
    Ok(())
}

/// Adds a thread: its status, and its output.
fn push_thread<A: Allocator>(
    report: &mut Vec<u8, A>,
    number: u64,
    thread: &ThreadShown<A>,
) -> Result<(), AllocError>
    ensures { OnOk result (report.new.items ≡ report.old.items ++ thread_text number (thread_of thread.now)) }
{
    push_bytes(report, b"== thread ")?;
    push_number(report, number)?;
    push_bytes(report, b": ")?;
    push_end(report, thread.end)?;
    push_bytes(report, b"\n")?;
    push_lines(report, thread.text.as_slice())
}

/// Adds the threads, in their order.
fn push_threads<A: Allocator>(
    report: &mut Vec<u8, A>,
    threads: &[ThreadShown<A>],
) -> Result<(), AllocError>
    ensures { OnOk result (report.new.items ≡ report.old.items ++ threads_text 0 (map thread_of threads.now)) }
{
    'threads: for number in 0..threads.len() {
        push_thread(report, number as u64, &threads[number])?;
    }
    Ok(())
}

/// Adds the lines of globals.
fn push_globals<A: Allocator>(
    report: &mut Vec<u8, A>,
    globals: &[Shown<A>],
) -> Result<(), AllocError>
    ensures { OnOk result (report.new.items ≡ report.old.items ++ flat_map global_line (map shown_of globals.now)) }
{
    'globals: for global in globals {
        push_global(report, global)?;
    }
    Ok(())
}

/// Adds the thread that holds the lock.
fn push_held<A: Allocator>(report: &mut Vec<u8, A>, thread: u32) -> Result<(), AllocError>
    ensures { OnOk result (report.new.items ≡ report.old.items
        ++ (codes "== memory: lock held by thread " ++ decimal thread ++ codes "\n")) }
{
    push_bytes(report, b"== memory: lock held by thread ")?;
    push_number(report, u64::from(thread))?;
    push_bytes(report, b"\n")
}

/// Adds the globals, or the thread that holds the lock.
pub(crate) fn push_memory<A: Allocator>(
    report: &mut Vec<u8, A>,
    holder: Option<u32>,
    globals: &[Shown<A>],
) -> Result<(), AllocError>
    ensures { OnOk result (report.new.items ≡ report.old.items ++ memory_text holder (map shown_of globals.now)) }
{
    match holder {
        Some(thread) => push_held(report, thread),
        None => {
            push_bytes(report, b"== memory\n")?;
            push_globals(report, globals)
        }
    }
}

/// The text of a report: the events of a replay, each thread's end and output, and the globals or else the thread that
/// holds the lock. Its bytes are those of the names, of what the threads printed, and ASCII.
pub fn report_text<A: Allocator>(alloc: A, printed: &Printed<A>) -> Result<Vec<u8, A>, AllocError>
    ensures { IfOk result (λ r. r.items ≡ spec.report_text (printed_of printed.now)) }
{
    let mut report = Vec::new(alloc);
    if let Some(events) = &printed.events {
        push_bytes(&mut report, b"== events\n")?;
        push_events(&mut report, events.as_slice())?;
    }
    push_threads(&mut report, printed.threads.as_slice())?;
    push_memory(&mut report, printed.holder, printed.globals.as_slice())?;
    Ok(report)
}
