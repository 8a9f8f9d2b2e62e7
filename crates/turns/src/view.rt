//! The text of a trace, in one of its forms.

use crate::again::folded;
use crate::asked::{cells_read, push_values_read};
use crate::full::push_blocks;
use crate::objects::{push_asked_object, push_objects};
use crate::passage::{Source, push_passage, push_place};
use crate::turns::Traced;
use containers::Items;
use std::alloc::{AllocError, Allocator};
use syntax::thread_end::Status;
use syntax::tree::Unit;
use traces::{Named, ThreadAt, columns_width, names_of, push_ends, trace_text};

/// The most bytes that the columns of a table take; a wider trace is shown in full.
const WIDEST: usize = 80;

/// The form of a trace.
#[derive(Clone, Copy, PartialEq, Eq)]
pub enum Form {
    /// A line for each turn in a table, unless that is too wide.
    Table,
    /// A block of lines for each turn.
    Full,
    /// An object of JSON for each turn.
    Json,
}

/// A thread after the last turn: how it is, and the offset where it stands.
#[derive(Clone, Copy)]
pub struct Standing {
    pub status: Status,
    pub start: Option<usize>,
}

/// A property, and what it says of the last memory.
#[derive(Clone, Copy)]
pub struct Asked<'a> {
    pub name: &'a str,
    pub says: &'a str,
}

/// How a trace is shown.
#[derive(Clone, Copy)]
pub struct View<'a> {
    pub source: Source<'a>,
    pub stands: &'a [Standing],
    pub asked: Option<Asked<'a>>,
    pub form: Form,
}

/// Words that tell where a thread stands: the transaction that it runs next, or where it trapped.
fn stands_at<A: Allocator + Copy>(
    alloc: A,
    source: Source<'_>,
    standing: Standing,
) -> Result<Items<u8, A>, AllocError> {
    let mut at = Vec::new(alloc);
    if standing.status == Status::Ended {
        return Ok(Items::from_vec(at));
    }
    if let Some(start) = standing.start {
        at.extend_from_slice(b" at ")?;
        push_place(&mut at, source.text, start)?;
        if standing.status == Status::Running {
            at.extend_from_slice(b": ")?;
            push_passage(&mut at, source, start)?;
        }
    }
    Ok(Items::from_vec(at))
}

/// How threads are after the last turn, and where they stand.
fn ends_at<A: Allocator + Copy>(
    alloc: A,
    source: Source<'_>,
    stands: &[Standing],
) -> Result<Items<ThreadAt<A>, A>, AllocError> {
    let mut threads = Items::new(alloc);
    'threads: for standing in stands {
        threads.push(ThreadAt {
            status: standing.status,
            at: stands_at(alloc, source, *standing)?,
        })?;
    }
    Ok(threads)
}

/// The blocks of a trace, and how each thread is after the last one.
fn full_text<A: Allocator + Copy>(
    alloc: A,
    names: &[Named<A>],
    traced: &Traced<A>,
    source: Source<'_>,
    ends: &[ThreadAt<A>],
) -> Result<Vec<u8, A>, AllocError> {
    let mut text = Vec::new(alloc);
    push_blocks(alloc, &mut text, names, source, traced)?;
    text.extend_from_slice(b"== last\n")?;
    push_ends(&mut text, ends)?;
    Ok(text)
}

/// A trace for people: a table, or blocks if they are wanted or the table is too wide.
fn text_for_people<A: Allocator + Copy>(
    alloc: A,
    names: &[Named<A>],
    traced: Traced<A>,
    view: View<'_>,
) -> Result<Vec<u8, A>, AllocError> {
    let ends = ends_at(alloc, view.source, view.stands)?;
    let shown = folded(alloc, traced)?;
    let (first, turns) = (shown.first.as_slice(), shown.turns.as_slice());
    let width = columns_width(alloc, names, first, turns)?;
    if view.form == Form::Full || width > WIDEST {
        return full_text(alloc, names, &shown, view.source, ends.as_slice());
    }
    let begun = shown.begun.as_slice();
    trace_text(alloc, names, first, begun, turns, ends.as_slice())
}

/// Adds what a property says of the last memory, and the values that it reads there.
fn push_asked<A: Allocator + Copy>(
    alloc: A,
    to: &mut Vec<u8, A>,
    names: &[Named<A>],
    view: View<'_>,
    asked: Asked<'_>,
    memory: &[u64],
) -> Result<(), AllocError> {
    let cells = cells_read(alloc, names, view.source, asked.name, memory.len())?;
    let cells = cells.as_slice();
    if view.form == Form::Json {
        return push_asked_object(alloc, to, names, asked, cells, memory);
    }
    to.extend_from_slice(b"property ")?;
    to.extend_from_slice(asked.name.as_bytes())?;
    to.extend_from_slice(b": ")?;
    to.extend_from_slice(asked.says.as_bytes())?;
    push_values_read(alloc, to, names, cells, memory)?;
    to.extend_from_slice(b"\n")
}

/// The text of a trace, without what a property says.
fn text_of_turns<A: Allocator + Copy>(
    alloc: A,
    names: &[Named<A>],
    traced: Traced<A>,
    view: View<'_>,
) -> Result<Vec<u8, A>, AllocError> {
    if view.form != Form::Json {
        return text_for_people(alloc, names, traced, view);
    }
    let mut text = Vec::new(alloc);
    push_objects(alloc, &mut text, names, view.source, &traced, view.stands)?;
    Ok(text)
}

/// The text of a trace of a program.
pub fn view_text<A: Allocator + Copy>(
    alloc: A,
    unit: &Unit<A>,
    traced: Traced<A>,
    view: View<'_>,
) -> Result<Vec<u8, A>, AllocError> {
    let names = names_of(alloc, unit)?;
    let last = Vec::from_slice(alloc, traced.last.as_slice())?;
    let mut text = text_of_turns(alloc, names.as_slice(), traced, view)?;
    if let Some(asked) = view.asked {
        push_asked(
            alloc,
            &mut text,
            names.as_slice(),
            view,
            asked,
            last.as_slice(),
        )?;
    }
    Ok(text)
}
