//! One turn.

use crate::inner::{Inner, Nested, start_at};
use crate::passage::{Source, push_passage, push_place};
use bytecode::Code;
use containers::Items;
use norec_core::Access;
use std::alloc::{AllocError, Allocator, Global};
use syntax::thread_end::Status;
use traces::{Touched, TurnShown, marks_of};
use world::World;

/// Adds a cell to those that a turn reads or writes.
fn note_cell(cells: &mut [bool], cell: u32) {
    if let Some(is) = cells.get_mut(cell as usize) {
        *is = true;
    }
}

/// Notes the cell that a step reads or writes.
fn note<A: Allocator>(touched: &mut Touched<A>, access: Access) {
    match access {
        Access::LoadWord(cell) => note_cell(touched.reads.as_mut_slice(), cell),
        Access::StoreWord(cell, _) => note_cell(touched.writes.as_mut_slice(), cell),
        Access::Local | Access::LoadLock | Access::Swap(_) | Access::StoreLock(_) => {}
    }
}

/// So many cells, none of which is read or written.
fn none_of<A: Allocator>(alloc: A, count: usize) -> Result<Vec<bool, A>, AllocError> {
    let mut cells = Vec::new(alloc);
    'cells: for _ in 0..count {
        cells.push(false)?;
    }
    Ok(cells)
}

/// So many cells, none of which is read or written.
fn untouched<A: Allocator + Copy>(alloc: A, count: usize) -> Result<Touched<A>, AllocError> {
    Ok(Touched {
        reads: none_of(alloc, count)?,
        writes: none_of(alloc, count)?,
    })
}

/// Makes the steps of a turn, and notes the cells that they read and write, and the transactions that they begin and end.
/// The place is that of the first step.
fn make_steps<A: Allocator + Copy>(
    code: &Code<A>,
    world: &mut World<A>,
    t: u32,
    count: u32,
    touched: &mut Touched<A>,
    nested: &mut Nested<A>,
) -> Result<Option<u32>, AllocError> {
    let mut place = None;
    'steps: for made in 0..count {
        if t >= world.threads() {
            return Err(AllocError); // never so: each line of a schedule names a thread
        }
        let Ok(shown) = world.step_shown(t) else {
            return Err(AllocError);
        };
        if made == 0 {
            place = Some(shown.place);
        }
        note(touched, shown.access);
        nested.note(code, shown, made == 0)?;
    }
    Ok(place)
}

/// The line and the column of an offset, and the first words of the transaction there.
fn passage_of<A: Allocator + Copy>(
    alloc: A,
    source: Source<'_>,
    start: Option<usize>,
) -> Result<(Items<u8, A>, Items<u8, A>), AllocError> {
    let mut at = Vec::new(alloc);
    let mut words = Vec::new(alloc);
    if let Some(start) = start {
        push_place(&mut at, source.text, start)?;
        push_passage(&mut words, source, start)?;
    }
    Ok((Items::from_vec(at), Items::from_vec(words)))
}

/// The bytes of a text after the first ones.
fn after(text: &str, count: usize) -> &[u8] {
    let (_, after) = text.as_bytes().split_at(count.min(text.len()));
    after
}

/// A copy of the bytes of a text after the first ones.
fn bytes_after<A: Allocator + Copy>(
    alloc: A,
    text: &str,
    count: usize,
) -> Result<Items<u8, A>, AllocError> {
    let bytes = Vec::from_slice(alloc, after(text, count))?;
    Ok(Items::from_vec(bytes))
}

/// How a thread is; one that there is not runs.
pub(crate) fn status_of<A: Allocator + Copy>(world: &World<A>, t: u32) -> Status {
    if t < world.threads() {
        world.status(t)
    } else {
        Status::Running
    }
}

/// The output of a thread, which is empty if there is no such thread.
fn output_of<A: Allocator + Copy>(world: &World<A>, t: u32) -> &str {
    if t < world.threads() {
        world.output(t)
    } else {
        ""
    }
}

/// The details of a turn, shown in addition to its line.
#[derive(Drop)]
pub(crate) struct Details<A: Allocator = Global> {
    /// The offset of its transaction, if there is one.
    pub start: Option<usize>,
    /// The transactions inside it.
    pub inner: Vec<Inner, A>,
}

/// Makes a turn of a thread, which takes so many steps, and shows it.
pub(crate) fn turn_shown<A: Allocator + Copy>(
    alloc: A,
    code: &Code<A>,
    source: Source<'_>,
    world: &mut World<A>,
    t: u32,
    count: u32,
) -> Result<(TurnShown<A>, Details<A>), AllocError> {
    let found = Vec::from_slice(alloc, world.words())?;
    let before = output_of(world, t).len();
    let mut touched = untouched(alloc, found.len())?;
    let mut nested = Nested::new(alloc);
    let place = make_steps(code, world, t, count, &mut touched, &mut nested)?;
    let start = match place {
        Some(place) => start_at(code, place),
        None => None,
    };
    let marks = marks_of(alloc, &touched, found.as_slice(), world.words())?;
    let printed = bytes_after(alloc, output_of(world, t), before)?;
    let (at, words) = passage_of(alloc, source, start)?;
    let shown = TurnShown {
        thread: t,
        is_idle: count == 0,
        is_cancelled: nested.is_cancelled,
        marks,
        printed,
        status: status_of(world, t),
        at,
        words,
        fold: None,
    };
    let details = Details {
        start,
        inner: nested.inner,
    };
    Ok((shown, details))
}

/// Makes the first steps of a thread, up to its first transaction. They are shown if it prints or terminates there.
pub(crate) fn begin_shown<A: Allocator + Copy>(
    alloc: A,
    world: &mut World<A>,
    t: u32,
    count: u32,
) -> Result<Option<TurnShown<A>>, AllocError> {
    make_first_steps(world, t, count)?;
    let printed = bytes_after(alloc, output_of(world, t), 0)?;
    let status = status_of(world, t);
    if printed.is_empty() && status == Status::Running {
        return Ok(None);
    }
    let words = Vec::from_slice(alloc, b"begins")?;
    Ok(Some(TurnShown {
        thread: t,
        is_idle: false,
        is_cancelled: false,
        marks: Items::new(alloc),
        printed,
        status,
        at: Items::new(alloc),
        words: Items::from_vec(words),
        fold: None,
    }))
}

/// Makes so many steps of a thread.
fn make_first_steps<A: Allocator + Copy>(
    world: &mut World<A>,
    t: u32,
    count: u32,
) -> Result<(), AllocError> {
    'steps: for _ in 0..count {
        if t >= world.threads() {
            return Err(AllocError); // never so: each line of a schedule names a thread
        }
        let Ok(_) = world.step(t) else {
            return Err(AllocError);
        };
    }
    Ok(())
}
