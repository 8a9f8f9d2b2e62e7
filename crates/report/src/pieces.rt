//! The text of a report in pieces, so that it is written without a copy of the output of threads.

ghost use Rattle.std.specs.Prelude.{◌≡◌, ◌++◌, OnOk, IfOk, codes, decimal, map};
ghost use Rattle.report.specs.Pieces.{bytes_of, joined, seen_of};
ghost use Rattle.report.specs.Report.{end_words, events_text, memory_text, report_text, thread_text, threads_text};
ghost use Rattle.report.specs.Views.{printed_of, shown_of, thread_of};

use crate::printed::{End, Printed, Shown, ThreadShown};
use crate::push::{is_open, push_bytes, push_end, push_number};
use crate::report::{push_events, push_memory};
use containers::Items;
use machine::Event;
use std::alloc::{AllocError, Allocator};

/// A thread as it is shown, with its text stored elsewhere.
#[derive(Clone, Copy)]
pub struct ThreadSeen<'a> {
    pub end: End,
    /// The bytes that the thread has printed.
    pub text: &'a [u8],
}

/// A piece of a report.
#[derive(Drop)]
pub enum Piece<'a, A: Allocator = std::alloc::Global> {
    /// Lines of the report.
    Lines(Items<u8, A>),
    /// The output of a thread, or the LF that ends its last line.
    Text(&'a [u8]),
}

impl<A: Allocator> Piece<'_, A> {
    /// The bytes of the piece.
    pub fn bytes(&self) -> &[u8]
        ensures { result.now ≡ bytes_of self.now }
    {
        match self {
            Piece::Lines(lines) => lines.as_slice(),
            Piece::Text(text) => text,
        }
    }
}

/// A thread, with a reference to its text.
fn one_seen<A: Allocator>(thread: &ThreadShown<A>) -> ThreadSeen<'_>
    ensures { seen_of result ≡ thread_of thread.now }
{
    ThreadSeen {
        end: thread.end,
        text: thread.text.as_slice(),
    }
}

/// Threads, with references to their texts.
fn all_seen<'a, A: Allocator>(
    alloc: A,
    threads: &'a [ThreadShown<A>],
) -> Result<Vec<ThreadSeen<'a>, A>, AllocError>
    ensures { IfOk result (λ v. map seen_of v.items ≡ map thread_of threads.now) }
{
    let mut seen = Vec::new(alloc);
    'threads: for thread in threads {
        seen.push(one_seen(thread))?;
    }
    Ok(seen)
}

/// Adds a piece.
fn push_piece<'a, A: Allocator>(
    pieces: &mut Vec<Piece<'a, A>, A>,
    piece: Piece<'a, A>,
) -> Result<(), AllocError>
    ensures { OnOk result (joined pieces.new.items ≡ joined pieces.old.items ++ bytes_of piece.entry) }
{
    pieces.push(piece)?;
    Ok(())
}

/// The line with the status of a thread.
fn thread_line<A: Allocator>(alloc: A, number: u64, end: End) -> Result<Items<u8, A>, AllocError>
    ensures { IfOk result (λ v. v ≡ codes "== thread " ++ decimal number ++ codes ": " ++ end_words end ++ codes "\n") }
{
    let mut line = Vec::new(alloc);
    push_bytes(&mut line, b"== thread ")?;
    push_number(&mut line, number)?;
    push_bytes(&mut line, b": ")?;
    push_end(&mut line, end)?;
    push_bytes(&mut line, b"\n")?;
    Ok(Items::from_vec(line))
}

/// Adds a thread: its status, and its output.
fn push_seen<'a, A: Allocator + Copy>(
    alloc: A,
    pieces: &mut Vec<Piece<'a, A>, A>,
    number: u64,
    thread: &ThreadSeen<'a>,
) -> Result<(), AllocError>
    ensures { OnOk result (joined pieces.new.items ≡ joined pieces.old.items ++ thread_text number (seen_of thread.now)) }
{
    push_piece(
        pieces,
        Piece::Lines(thread_line(alloc, number, thread.end)?),
    )?;
    push_piece(pieces, Piece::Text(thread.text))?;
    if is_open(thread.text) {
        push_piece(pieces, Piece::Text(b"\n"))
    } else {
        Ok(())
    }
}

/// Adds the threads, in their order.
fn push_all_seen<'a, A: Allocator + Copy>(
    alloc: A,
    pieces: &mut Vec<Piece<'a, A>, A>,
    threads: &[ThreadSeen<'a>],
) -> Result<(), AllocError>
    ensures { OnOk result (joined pieces.new.items ≡ joined pieces.old.items
        ++ threads_text 0 (map seen_of threads.now)) }
{
    'threads: for number in 0..threads.len() {
        push_seen(alloc, pieces, number as u64, &threads[number])?;
    }
    Ok(())
}

/// The lines of the events of a replay.
fn event_lines<A: Allocator>(
    alloc: A,
    events: &Option<Items<(u64, u32, Event), A>>,
) -> Result<Items<u8, A>, AllocError>
    ensures { IfOk result (λ v. v ≡ events_text events.now) }
{
    let mut lines = Vec::new(alloc);
    if let Some(events) = events {
        push_bytes(&mut lines, b"== events\n")?;
        push_events(&mut lines, events.as_slice())?;
    }
    Ok(Items::from_vec(lines))
}

/// The lines of the globals, or of the thread that holds the lock.
fn memory_lines<A: Allocator>(
    alloc: A,
    holder: Option<u32>,
    globals: &[Shown<A>],
) -> Result<Items<u8, A>, AllocError>
    ensures { IfOk result (λ v. v ≡ memory_text holder (map shown_of globals.now)) }
{
    let mut lines = Vec::new(alloc);
    push_memory(&mut lines, holder, globals)?;
    Ok(Items::from_vec(lines))
}

/// The text of a report, as `report_text` has it, in pieces: the output of threads is not copied.
pub fn report_pieces<'a, A: Allocator + Copy>(
    alloc: A,
    events: &Option<Items<(u64, u32, Event), A>>,
    threads: &[ThreadSeen<'a>],
    globals: &[Shown<A>],
    holder: Option<u32>,
) -> Result<Vec<Piece<'a, A>, A>, AllocError>
    ensures { IfOk result (λ v. joined v.items ≡ report_text (record {
      events = events.now;
      threads = map seen_of threads.now;
      globals = map shown_of globals.now;
      holder = holder;
    })) }
{
    let mut pieces = Vec::new(alloc);
    push_piece(&mut pieces, Piece::Lines(event_lines(alloc, events)?))?;
    push_all_seen(alloc, &mut pieces, threads)?;
    push_piece(
        &mut pieces,
        Piece::Lines(memory_lines(alloc, holder, globals)?),
    )?;
    Ok(pieces)
}

/// The text of a report in pieces, with references to the output of threads.
pub fn pieces_of<'a, A: Allocator + Copy>(
    alloc: A,
    printed: &'a Printed<A>,
) -> Result<Vec<Piece<'a, A>, A>, AllocError>
    ensures { IfOk result (λ v. joined v.items ≡ report_text (printed_of printed.now)) }
{
    let threads = all_seen(alloc, printed.threads.as_slice())?;
    report_pieces(
        alloc,
        &printed.events,
        threads.as_slice(),
        printed.globals.as_slice(),
        printed.holder,
    )
}
