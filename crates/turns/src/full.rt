//! A trace in full: a block of lines for each turn.

use crate::asked::word_at;
use crate::functions::{depth_after, function_at};
use crate::inner::{Inner, InnerEnd};
use crate::passage::{Source, body_on, ends_body, push_place, tokens_after};
use crate::turn::Details;
use crate::turns::Traced;
use lex::place;
use std::alloc::{AllocError, Allocator};
use syntax::thread_end::Status;
use traces::{Mark, Named, TurnShown, named_cell, push_number, push_quoted, push_value};

/// The most lines of a transaction that are shown.
const MOST_LINES: usize = 12;

/// The offset of the first byte of the line that an offset is in.
fn line_start(text: &str, offset: usize) -> usize {
    let mut start = 0;
    'bytes: for (at, byte) in text.as_bytes().iter().enumerate() {
        if at >= offset {
            return start;
        }
        if *byte == b'\n' {
            start = at.saturating_add(1);
        }
    }
    start
}

/// The bytes of a line, from its first one on.
fn line_from(text: &str, start: usize) -> &[u8] {
    let rest = text.as_bytes().get(start..text.len()).unwrap_or(b"");
    'bytes: for (at, byte) in rest.iter().enumerate() {
        if *byte == b'\n' {
            return rest.get(0..at).unwrap_or(b"");
        }
    }
    rest
}

/// The offset at which the transaction ends whose keyword begins at an offset.
fn end_of(source: Source<'_>, offset: usize) -> usize {
    let body = body_on(tokens_after(source.tokens, offset));
    let mut depth = 0;
    'tokens: for number in 0..body.len() {
        let token = &body[number];
        if ends_body(token.kind, depth) {
            return token.span.start;
        }
        depth = depth_after(token, depth);
    }
    offset
}

/// Adds a line of the source, with `?` for control characters other than tabs.
fn push_source_line<A: Allocator>(to: &mut Vec<u8, A>, line: &[u8]) -> Result<(), AllocError> {
    let line = match line {
        [text @ .., b'\r'] => text,
        _ => line,
    };
    'bytes: for byte in line {
        let is_control = *byte < 32 && *byte != b'\t' || *byte == 127;
        to.push(if is_control { b'?' } else { *byte })?;
    }
    Ok(())
}

/// Adds the lines of the transaction whose keyword begins at an offset, each after its number.
fn push_source<A: Allocator>(
    to: &mut Vec<u8, A>,
    source: Source<'_>,
    offset: usize,
) -> Result<(), AllocError> {
    let (first, _) = place(source.text, offset.min(source.text.len()));
    let (last, _) = place(source.text, end_of(source, offset).min(source.text.len()));
    let mut start = line_start(source.text, offset);
    'lines: for shown in 0..MOST_LINES {
        let line = line_from(source.text, start);
        push_number(to, first.saturating_add(shown) as u64)?;
        to.extend_from_slice(b" | ")?;
        push_source_line(to, line)?;
        to.extend_from_slice(b"\n")?;
        if first.saturating_add(shown) >= last {
            return Ok(());
        }
        start = start.saturating_add(line.len()).saturating_add(1);
    }
    to.extend_from_slice(b"..\n")
}

/// Adds the name of a cell, and what separates it from its value.
fn push_cell<A: Allocator + Copy>(
    alloc: A,
    to: &mut Vec<u8, A>,
    names: &[Named<A>],
    cell: usize,
    word: u64,
) -> Result<(), AllocError> {
    let (name, ty) = named_cell(alloc, names, cell)?;
    to.extend_from_slice(name.as_slice())?;
    to.extend_from_slice(b" = ")?;
    push_value(to, ty, word)
}

/// Adds the line of a cell that a turn reads or writes.
fn push_mark<A: Allocator + Copy>(
    alloc: A,
    to: &mut Vec<u8, A>,
    names: &[Named<A>],
    mark: Mark,
) -> Result<(), AllocError> {
    if !mark.is_written {
        to.extend_from_slice(b"read ")?;
        push_cell(alloc, to, names, mark.cell, mark.found)?;
        return to.extend_from_slice(b"\n");
    }
    to.extend_from_slice(b"wrote ")?;
    push_cell(alloc, to, names, mark.cell, mark.left)?;
    if mark.found == mark.left {
        return to.extend_from_slice(b", as before\n");
    }
    to.extend_from_slice(b", was ")?;
    let (_, ty) = named_cell(alloc, names, mark.cell)?;
    push_value(to, ty, mark.found)?;
    to.extend_from_slice(b"\n")
}

/// Adds the line of an inner transaction.
fn push_inner<A: Allocator>(
    to: &mut Vec<u8, A>,
    source: Source<'_>,
    inner: Inner,
) -> Result<(), AllocError> {
    to.extend_from_slice(b"inner transaction")?;
    if let Some(start) = inner.start {
        to.extend_from_slice(b" at ")?;
        push_place(to, source.text, start)?;
    }
    let words = match inner.end {
        InnerEnd::Committed => ": committed\n",
        InnerEnd::Cancelled => ": cancelled\n",
        InnerEnd::Ended => ": ended with the outer one\n",
    };
    to.extend_from_slice(words.as_bytes())
}

/// Adds how a thread is after a turn, if it has terminated.
fn push_status<A: Allocator>(to: &mut Vec<u8, A>, status: Status) -> Result<(), AllocError> {
    match status {
        Status::Running => Ok(()),
        Status::Ended => to.extend_from_slice(b"ended\n"),
        Status::Trapped(trap) => {
            to.extend_from_slice(b"trap ")?;
            push_number(to, u64::from(trap.number()))?;
            to.extend_from_slice(b"\n")
        }
    }
}

/// Adds what a turn does apart from memory.
fn push_told<A: Allocator>(to: &mut Vec<u8, A>, turn: &TurnShown<A>) -> Result<(), AllocError> {
    if turn.is_idle {
        return to.extend_from_slice(b"none: terminated\n");
    }
    if turn.is_cancelled {
        to.extend_from_slice(b"cancelled\n")?;
    }
    if !turn.printed.is_empty() {
        to.extend_from_slice(b"printed \"")?;
        push_quoted(to, turn.printed.as_slice())?;
        to.extend_from_slice(b"\"\n")?;
    }
    push_status(to, turn.status)
}

/// Adds the head of a turn's block, and the lines of its transaction.
fn push_head<A: Allocator>(
    to: &mut Vec<u8, A>,
    source: Source<'_>,
    number: u64,
    thread: u32,
    start: Option<usize>,
) -> Result<(), AllocError> {
    to.extend_from_slice(b"== turn ")?;
    push_number(to, number)?;
    to.extend_from_slice(b": thread ")?;
    push_number(to, u64::from(thread))?;
    let Some(start) = start else {
        return to.extend_from_slice(b"\n");
    };
    to.extend_from_slice(b" at ")?;
    push_place(to, source.text, start)?;
    to.extend_from_slice(b" in ")?;
    to.extend_from_slice(function_at(source, start).as_bytes())?;
    to.extend_from_slice(b"\n")?;
    push_source(to, source, start)
}

/// Adds the line that says which turns come again, and gives the number of the next turn.
fn push_fold<A: Allocator>(
    to: &mut Vec<u8, A>,
    number: u64,
    turn: &TurnShown<A>,
) -> Result<u64, AllocError> {
    let Some(fold) = turn.fold else {
        return Ok(number.saturating_add(1));
    };
    to.extend_from_slice(b"== turns ")?;
    push_number(to, number.saturating_sub(fold.period).saturating_add(1))?;
    to.extend_from_slice(b" to ")?;
    push_number(to, number)?;
    to.extend_from_slice(b", ")?;
    push_number(to, fold.times)?;
    to.extend_from_slice(b" times\n")?;
    let again = fold.period.saturating_mul(fold.times.saturating_sub(1));
    Ok(number.saturating_add(again).saturating_add(1))
}

/// Whether some turn reads or writes a cell.
fn is_touched<A: Allocator>(turns: &[TurnShown<A>], cell: usize) -> bool {
    'turns: for turn in turns {
        'marks: for mark in turn.marks.as_slice() {
            if mark.cell == cell {
                return true;
            }
        }
    }
    false
}

/// Adds the values before the first turn of the cells that turns read or write.
fn push_first<A: Allocator + Copy>(
    alloc: A,
    to: &mut Vec<u8, A>,
    names: &[Named<A>],
    traced: &Traced<A>,
) -> Result<(), AllocError> {
    to.extend_from_slice(b"== first\n")?;
    'cells: for cell in 0..traced.first.len() {
        if is_touched(traced.turns.as_slice(), cell) {
            let word = word_at(traced.first.as_slice(), cell);
            push_cell(alloc, to, names, cell, word)?;
            to.extend_from_slice(b"\n")?;
        }
    }
    Ok(())
}

/// Adds a block for each turn, after the values before the first one and what threads do before their first turns.
pub(crate) fn push_blocks<A: Allocator + Copy>(
    alloc: A,
    to: &mut Vec<u8, A>,
    names: &[Named<A>],
    source: Source<'_>,
    traced: &Traced<A>,
) -> Result<(), AllocError> {
    push_first(alloc, to, names, traced)?;
    'begun: for turn in traced.begun.as_slice() {
        to.extend_from_slice(b"== thread ")?;
        push_number(to, u64::from(turn.thread))?;
        to.extend_from_slice(b" begins\n")?;
        push_told(to, turn)?;
    }
    let mut number = 1;
    'turns: for at in 0..traced.turns.len() {
        let turn = &traced.turns.as_slice()[at];
        number = push_turn(
            alloc,
            to,
            names,
            source,
            turn,
            traced.details.as_slice().get(at),
            number,
        )?;
    }
    Ok(())
}

/// Adds the block of a turn, and gives the number of the next one.
fn push_turn<A: Allocator + Copy>(
    alloc: A,
    to: &mut Vec<u8, A>,
    names: &[Named<A>],
    source: Source<'_>,
    turn: &TurnShown<A>,
    details: Option<&Details<A>>,
    number: u64,
) -> Result<u64, AllocError> {
    if let Some(details) = details {
        push_head(to, source, number, turn.thread, details.start)?;
        'marks: for mark in turn.marks.as_slice() {
            push_mark(alloc, to, names, *mark)?;
        }
        'inner: for inner in details.inner.as_slice() {
            push_inner(to, source, *inner)?;
        }
        push_told(to, turn)?;
    }
    push_fold(to, number, turn)
}
