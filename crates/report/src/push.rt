//! Pieces of a report, each added at its end.

ghost use Rattle.std.specs.Prelude.{◌≡◌, ◌++◌, ◌∷◌, [], OnOk, codes, decimal, flat_map, unwrap_or, option_map};
ghost use Rattle.syntax.specs.Numbers.{trap_number};
ghost use Rattle.report.specs.Report.{event_line, event_words, end_words, global_line, is_open, lines_of, values_text};
ghost use Rattle.report.specs.Views.{shown_of};

use crate::printed::{End, Shown};
use itoa::Buffer;
use lex::token::Scalar;
use machine::Event;
use std::alloc::{AllocError, Allocator};
use syntax::number::number;
use syntax::thread_end::Trap;

/// Adds bytes.
pub(crate) fn push_bytes<A: Allocator>(
    report: &mut Vec<u8, A>,
    bytes: &[u8],
) -> Result<(), AllocError>
    ensures { OnOk result (report.new.items ≡ report.old.items ++ bytes.now) }
{
    report.extend_from_slice(bytes)
}

/// Adds a number.
pub(crate) fn push_number<A: Allocator>(
    report: &mut Vec<u8, A>,
    number: u64,
) -> Result<(), AllocError>
    ensures { OnOk result (report.new.items ≡ report.old.items ++ decimal number) }
{
    push_bytes(report, Buffer::new().format(number).as_bytes())
}

/// Adds a trap, by its number.
fn push_trap<A: Allocator>(report: &mut Vec<u8, A>, trap: Trap) -> Result<(), AllocError>
    ensures { OnOk result (report.new.items ≡ report.old.items ++ (codes "trap " ++ decimal (trap_number trap))) }
{
    push_bytes(report, b"trap ")?;
    push_number(report, u64::from(trap.number()))
}

/// Adds the status of a thread.
pub(crate) fn push_end<A: Allocator>(report: &mut Vec<u8, A>, end: End) -> Result<(), AllocError>
    ensures { OnOk result (report.new.items ≡ report.old.items ++ end_words end) }
{
    match end {
        End::Ended => push_bytes(report, b"ended"),
        End::Trapped(trap) => push_trap(report, trap),
        End::OutOfMemory => push_bytes(report, b"stop 00"),
        End::SequenceUsedUp => push_bytes(report, b"stop 70"),
        End::Budget => push_bytes(report, b"budget"),
        End::Running => push_bytes(report, b"running"),
        End::Waits => push_bytes(report, b"waits"),
        End::Spent => push_bytes(report, b"spent"),
    }
}

/// Whether a text is in the middle of a line.
pub(crate) fn is_open(text: &[u8]) -> bool
    ensures { result ≡ is_open text.now }
{
    match text.last() {
        Some(byte) => *byte != b'\n',
        None => false,
    }
}

/// Adds a text, and an LF if it is in the middle of a line.
pub(crate) fn push_lines<A: Allocator>(
    report: &mut Vec<u8, A>,
    text: &[u8],
) -> Result<(), AllocError>
    ensures { OnOk result (report.new.items ≡ report.old.items ++ lines_of text.now) }
{
    push_bytes(report, text)?;
    if is_open(text) {
        push_bytes(report, b"\n")
    } else {
        Ok(())
    }
}

/// Adds the accesses made so far and the thread, which the event follows.
pub(crate) fn push_time_and_thread<A: Allocator>(
    report: &mut Vec<u8, A>,
    accesses: u64,
    thread: u32,
) -> Result<(), AllocError>
    ensures { OnOk result (report.new.items ≡ report.old.items
        ++ (decimal accesses ++ codes " " ++ decimal thread ++ codes " ")) }
{
    push_number(report, accesses)?;
    push_bytes(report, b" ")?;
    push_number(report, u64::from(thread))?;
    push_bytes(report, b" ")
}

/// Adds the event of a step, if it is shown.
pub(crate) fn push_happened<A: Allocator>(
    report: &mut Vec<u8, A>,
    event: Event,
) -> Result<(), AllocError>
    ensures { OnOk result (report.new.items ≡ report.old.items ++ unwrap_or (event_words event) []) }
{
    match event {
        Event::Quiet => Ok(()),
        Event::Commit => push_bytes(report, b"commit"),
        Event::Abort => push_bytes(report, b"abort"),
        Event::Cancel => push_bytes(report, b"cancel"),
        Event::Trap(trap) => push_trap(report, trap),
    }
}

/// Adds the line of an event.
pub(crate) fn push_event<A: Allocator>(
    report: &mut Vec<u8, A>,
    accesses: u64,
    thread: u32,
    event: Event,
) -> Result<(), AllocError>
    ensures { OnOk result (report.new.items ≡ report.old.items ++ event_line (accesses, thread, event)) }
{
    if event == Event::Quiet {
        return Ok(());
    }
    push_time_and_thread(report, accesses, thread)?;
    push_happened(report, event)?;
    push_bytes(report, b"\n")
}

/// Adds the numbers that words denote, with a space before each.
fn push_values<A: Allocator>(
    report: &mut Vec<u8, A>,
    ty: Scalar,
    words: &[u64],
) -> Result<(), AllocError>
    ensures { OnOk result (report.new.items ≡ report.old.items ++ values_text ty words.now) }
{
    'words: for word in words {
        push_bytes(report, b" ")?;
        push_bytes(report, Buffer::new().format(number(ty, *word)).as_bytes())?;
    }
    Ok(())
}

/// Adds the line of a global.
pub(crate) fn push_global<A: Allocator>(
    report: &mut Vec<u8, A>,
    global: &Shown<A>,
) -> Result<(), AllocError>
    ensures { OnOk result (report.new.items ≡ report.old.items ++ global_line (shown_of global.now)) }
{
    push_bytes(report, global.name.as_str().as_bytes())?;
    push_bytes(report, b" =")?;
    push_values(report, global.ty, global.words.as_slice())?;
    push_bytes(report, b"\n")
}
