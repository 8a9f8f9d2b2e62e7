//! A trace as JSON: an object for each turn, one in a line.

use crate::asked::{is_read, word_at};
use crate::functions::function_at;
use crate::inner::{Inner, InnerEnd};
use crate::passage::{Source, push_passage};
use crate::turn::Details;
use crate::turns::Traced;
use crate::view::{Asked, Standing};
use json::Writer;
use lex::place;
use std::alloc::{AllocError, Allocator};
use std::str;
use syntax::number::number;
use syntax::thread_end::Status;
use traces::{Mark, Named, TurnShown, named_cell};

/// Adds a member whose value is a text.
fn put_text<A: Allocator>(to: &mut Writer<A>, key: &str, text: &[u8]) -> Result<(), AllocError> {
    to.key(key)?;
    match str::from_utf8(text) {
        Ok(text) => to.string(text),
        Err(_) => to.string(""), // never so: these are pieces of texts
    }
}

/// Adds a member whose value is a number.
fn put_number<A: Allocator>(to: &mut Writer<A>, key: &str, number: u64) -> Result<(), AllocError> {
    to.key(key)?;
    to.u64(number)
}

/// Adds the value of a cell as a member.
fn put_value<A: Allocator + Copy>(
    alloc: A,
    to: &mut Writer<A>,
    key: &str,
    names: &[Named<A>],
    cell: usize,
    word: u64,
) -> Result<(), AllocError> {
    let (_, ty) = named_cell(alloc, names, cell)?;
    to.key(key)?;
    to.i64(number(ty, word))
}

/// Adds the name of a cell as a member.
fn put_cell<A: Allocator + Copy>(
    alloc: A,
    to: &mut Writer<A>,
    names: &[Named<A>],
    cell: usize,
) -> Result<(), AllocError> {
    let (name, _) = named_cell(alloc, names, cell)?;
    put_text(to, "global", name.as_slice())
}

/// Adds the place of an offset as members.
fn put_place<A: Allocator>(
    to: &mut Writer<A>,
    source: Source<'_>,
    start: Option<usize>,
) -> Result<(), AllocError> {
    if let Some(start) = start {
        let (line, column) = place(source.text, start.min(source.text.len()));
        put_number(to, "line", line as u64)?;
        put_number(to, "column", column as u64)?;
    }
    Ok(())
}

/// Adds the place of a transaction, its function and its first words as members.
fn put_passage<A: Allocator + Copy>(
    alloc: A,
    to: &mut Writer<A>,
    source: Source<'_>,
    start: Option<usize>,
) -> Result<(), AllocError> {
    put_place(to, source, start)?;
    if let Some(start) = start {
        put_text(to, "function", function_at(source, start).as_bytes())?;
        let mut words = Vec::new(alloc);
        push_passage(&mut words, source, start)?;
        put_text(to, "words", words.as_slice())?;
    }
    Ok(())
}

/// Adds a cell as an object, with these values of it, each with its key.
fn put_values<A: Allocator + Copy>(
    alloc: A,
    to: &mut Writer<A>,
    names: &[Named<A>],
    cell: usize,
    values: &[(&str, u64)],
) -> Result<(), AllocError> {
    to.begin_object()?;
    put_cell(alloc, to, names, cell)?;
    'values: for (key, word) in values {
        put_value(alloc, to, *key, names, cell, *word)?;
    }
    to.end_object()
}

/// Adds the reads of a turn, and then its writes, as members.
fn put_marks<A: Allocator + Copy>(
    alloc: A,
    to: &mut Writer<A>,
    names: &[Named<A>],
    marks: &[Mark],
) -> Result<(), AllocError> {
    to.key("reads")?;
    to.begin_array()?;
    'reads: for mark in marks {
        if !mark.is_written {
            put_values(alloc, to, names, mark.cell, &[("value", mark.found)])?;
        }
    }
    to.end_array()?;
    to.key("writes")?;
    to.begin_array()?;
    'writes: for mark in marks {
        if mark.is_written {
            let values = [("before", mark.found), ("after", mark.left)];
            put_values(alloc, to, names, mark.cell, &values)?;
        }
    }
    to.end_array()
}

/// Adds the inner transactions of a turn as a member.
fn put_inner<A: Allocator>(
    to: &mut Writer<A>,
    source: Source<'_>,
    all: &[Inner],
) -> Result<(), AllocError> {
    to.key("inner")?;
    to.begin_array()?;
    'inner: for inner in all {
        to.begin_object()?;
        put_place(to, source, inner.start)?;
        let end = match inner.end {
            InnerEnd::Committed => "committed",
            InnerEnd::Cancelled => "cancelled",
            InnerEnd::Ended => "ended",
        };
        put_text(to, "end", end.as_bytes())?;
        to.end_object()?;
    }
    to.end_array()
}

/// Adds how a thread is as members.
fn put_status<A: Allocator>(to: &mut Writer<A>, status: Status) -> Result<(), AllocError> {
    match status {
        Status::Running => put_text(to, "end", b"next"),
        Status::Ended => put_text(to, "end", b"ended"),
        Status::Trapped(trap) => {
            put_text(to, "end", b"trap")?;
            put_number(to, "trap", u64::from(trap.number()))
        }
    }
}

/// Adds what a turn does as members.
fn put_deeds<A: Allocator + Copy>(
    alloc: A,
    to: &mut Writer<A>,
    names: &[Named<A>],
    turn: &TurnShown<A>,
) -> Result<(), AllocError> {
    put_marks(alloc, to, names, turn.marks.as_slice())?;
    to.key("idle")?;
    to.boolean(turn.is_idle)?;
    to.key("cancelled")?;
    to.boolean(turn.is_cancelled)?;
    put_text(to, "printed", turn.printed.as_slice())?;
    put_status(to, turn.status)
}

/// Adds an object as a line.
fn push_object<A: Allocator>(to: &mut Vec<u8, A>, object: Writer<A>) -> Result<(), AllocError> {
    to.extend_from_slice(object.into_inner().as_slice())?;
    to.extend_from_slice(b"\n")
}

/// Adds the number of a turn and its thread as members.
fn put_head<A: Allocator>(to: &mut Writer<A>, number: u64, thread: u32) -> Result<(), AllocError> {
    put_number(to, "turn", number)?;
    put_number(to, "thread", u64::from(thread))
}

/// Adds the object of a turn.
fn push_turn<A: Allocator + Copy>(
    alloc: A,
    to: &mut Vec<u8, A>,
    names: &[Named<A>],
    source: Source<'_>,
    turn: &TurnShown<A>,
    details: Option<&Details<A>>,
    number: u64,
) -> Result<(), AllocError> {
    let mut object = Writer::new(Vec::new(alloc));
    object.begin_object()?;
    put_head(&mut object, number, turn.thread)?;
    if let Some(details) = details {
        put_passage(alloc, &mut object, source, details.start)?;
        put_inner(&mut object, source, details.inner.as_slice())?;
    }
    put_deeds(alloc, &mut object, names, turn)?;
    object.end_object()?;
    push_object(to, object)
}

/// Adds the object of what a thread does before its first turn. Its number is 0.
fn push_begun<A: Allocator + Copy>(
    alloc: A,
    to: &mut Vec<u8, A>,
    names: &[Named<A>],
    turn: &TurnShown<A>,
) -> Result<(), AllocError> {
    let mut object = Writer::new(Vec::new(alloc));
    object.begin_object()?;
    put_head(&mut object, 0, turn.thread)?;
    put_deeds(alloc, &mut object, names, turn)?;
    object.end_object()?;
    push_object(to, object)
}

/// Adds the object of a thread after the last turn.
fn push_end<A: Allocator + Copy>(
    alloc: A,
    to: &mut Vec<u8, A>,
    source: Source<'_>,
    thread: u64,
    standing: Standing,
) -> Result<(), AllocError> {
    let mut object = Writer::new(Vec::new(alloc));
    object.begin_object()?;
    put_number(&mut object, "thread", thread)?;
    put_status(&mut object, standing.status)?;
    match standing.status {
        Status::Running => put_passage(alloc, &mut object, source, standing.start)?,
        Status::Trapped(_) => put_place(&mut object, source, standing.start)?,
        Status::Ended => {}
    }
    object.end_object()?;
    push_object(to, object)
}

/// Adds the object of a property, with the values of the cells that it reads.
pub(crate) fn push_asked_object<A: Allocator + Copy>(
    alloc: A,
    to: &mut Vec<u8, A>,
    names: &[Named<A>],
    asked: Asked<'_>,
    cells: &[bool],
    memory: &[u64],
) -> Result<(), AllocError> {
    let mut object = Writer::new(Vec::new(alloc));
    object.begin_object()?;
    put_text(&mut object, "property", asked.name.as_bytes())?;
    put_text(&mut object, "says", asked.says.as_bytes())?;
    object.key("values")?;
    object.begin_array()?;
    'cells: for cell in 0..memory.len() {
        if is_read(cells, cell) {
            let values = [("value", word_at(memory, cell))];
            put_values(alloc, &mut object, names, cell, &values)?;
        }
    }
    object.end_array()?;
    object.end_object()?;
    push_object(to, object)
}

/// Adds the objects of all turns, and then those of the threads.
pub(crate) fn push_objects<A: Allocator + Copy>(
    alloc: A,
    to: &mut Vec<u8, A>,
    names: &[Named<A>],
    source: Source<'_>,
    traced: &Traced<A>,
    stands: &[Standing],
) -> Result<(), AllocError> {
    'begun: for turn in traced.begun.as_slice() {
        push_begun(alloc, to, names, turn)?;
    }
    'turns: for at in 0..traced.turns.len() {
        let turn = &traced.turns.as_slice()[at];
        let details = traced.details.as_slice().get(at);
        let number = (at as u64).saturating_add(1);
        push_turn(alloc, to, names, source, turn, details, number)?;
    }
    'threads: for thread in 0..stands.len() {
        push_end(alloc, to, source, thread as u64, stands[thread])?;
    }
    Ok(())
}
