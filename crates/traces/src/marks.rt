//! The cells that a turn reads and writes.

ghost use Rattle.std.specs.Prelude.{◌≡◌, ◌++◌, false, IfOk, OnOk, length, slice_index_or};
ghost use Rattle.traces.specs.Marks.{mark_at, marks_of as marks_by, marks_to};

use crate::turn::Mark;
use containers::Items;
use std::alloc::{AllocError, Allocator};

/// The cells that a turn reads, and those that it writes: for each cell whether it does.
#[derive(Drop)]
pub struct Touched<A: Allocator = std::alloc::Global> {
    pub reads: Vec<bool, A>,
    pub writes: Vec<bool, A>,
}

/// The word of a cell.
pub(crate) fn word_at(words: &[u64], cell: usize) -> u64
    ensures { result ≡ slice_index_or words.now cell 0 }
{
    match words.get(cell) {
        Some(word) => *word,
        None => 0,
    }
}

/// Whether a cell is among these.
fn is_among(cells: &[bool], cell: usize) -> bool
    ensures { result ≡ slice_index_or cells.now cell false }
{
    match cells.get(cell) {
        Some(is) => *is,
        None => false,
    }
}

/// Adds the mark of a cell, if the turn reads or writes it.
fn push_mark<A: Allocator>(
    marks: &mut Items<Mark, A>,
    touched: &Touched<A>,
    found: &[u64],
    left: &[u64],
    cell: usize,
) -> Result<(), AllocError>
    ensures { OnOk result (marks.new ≡ marks.old
        ++ mark_at touched.now.reads.items touched.now.writes.items found.now left.now cell) }
{
    let (before, after) = (word_at(found, cell), word_at(left, cell));
    if before != after || is_among(touched.writes.as_slice(), cell) {
        marks.push(Mark {
            cell,
            found: before,
            left: after,
            is_written: true,
        })
    } else if is_among(touched.reads.as_slice(), cell) {
        marks.push(Mark {
            cell,
            found: before,
            left: after,
            is_written: false,
        })
    } else {
        Ok(())
    }
}

/// The marks of a turn that finds one memory and leaves another: of each cell whose word changes, and of those that it
/// reads and writes otherwise.
pub fn marks_of<A: Allocator>(
    alloc: A,
    touched: &Touched<A>,
    found: &[u64],
    left: &[u64],
) -> Result<Items<Mark, A>, AllocError>
    ensures { IfOk result
        (λ r. r ≡ marks_by touched.now.reads.items touched.now.writes.items found.now left.now) }
{
    let mut marks = Items::new(alloc);
    'cells: for cell in 0..left.len() {
        push_mark(&mut marks, touched, found, left, cell)?;
    }
    Ok(marks)
}
