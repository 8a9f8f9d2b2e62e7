//! The columns of a trace.

ghost use Rattle.std.specs.Prelude.{◌≡◌, ◌++◌, ◌==◌, [], ◌∷◌, IfOk, OnOk, length, map, max, if◌then◌else◌};
ghost use Rattle.std.specs.List.{list_any};
ghost use Rattle.traces.specs.Columns.{column_at, columns_of as columns_by, has_mark, is_touched, mark_text};
ghost use Rattle.traces.specs.Columns.{mark_words, value_text, widest};
ghost use Rattle.traces.specs.Views.{column_of, named_of, turn_of};

use crate::marks::word_at;
use crate::names::named_cell;
use crate::push::{push_bytes, push_value};
use crate::turn::{Mark, Named, TurnShown};
use containers::Items;
use lex::token::Scalar;
use std::alloc::{AllocError, Allocator};

/// A column of a trace.
#[derive(Drop)]
pub(crate) struct Column<A: Allocator> {
    pub cell: usize,
    pub name: Items<u8, A>,
    pub ty: Scalar,
    /// The word of the cell before the first turn.
    pub first: u64,
    /// How wide the column is, in bytes.
    pub width: usize,
}

/// The number that a word denotes, as a text.
pub(crate) fn value_bytes<A: Allocator>(
    alloc: A,
    ty: Scalar,
    word: u64,
) -> Result<Vec<u8, A>, AllocError>
    ensures { IfOk result (λ r. r.items ≡ value_text ty word) }
{
    let mut text = Vec::new(alloc);
    push_value(&mut text, ty, word)?;
    Ok(text)
}

/// The text of a mark.
fn mark_words<A: Allocator>(alloc: A, ty: Scalar, mark: Mark) -> Result<Vec<u8, A>, AllocError>
    ensures { IfOk result (λ r. r.items ≡ mark_words ty mark) }
{
    let mut text = Vec::new(alloc);
    if mark.is_written {
        push_bytes(&mut text, b">")?;
        push_value(&mut text, ty, mark.left)?;
    } else {
        push_value(&mut text, ty, mark.found)?;
    }
    Ok(text)
}

/// The text of a cell's mark among these.
pub(crate) fn mark_bytes<A: Allocator>(
    alloc: A,
    cell: usize,
    ty: Scalar,
    marks: &[Mark],
) -> Result<Vec<u8, A>, AllocError>
    ensures { IfOk result (λ r. r.items ≡ mark_text cell ty marks.now) }
{
    'marks: for mark in marks {
        if mark.cell == cell {
            return mark_words(alloc, ty, *mark);
        }
    }
    Vec::from_slice(alloc, b".")
}

/// The width of the widest mark of a cell, if it exceeds this one.
fn widest<A: Allocator + Copy>(
    alloc: A,
    cell: usize,
    ty: Scalar,
    least: usize,
    turns: &[TurnShown<A>],
) -> Result<usize, AllocError>
    ensures { IfOk result (λ w. w ≡ widest cell ty least (map turn_of turns.now)) }
{
    let mut width = least;
    'turns: for turn in turns {
        let text = mark_bytes(alloc, cell, ty, turn.marks.as_slice())?;
        width = width.max(text.len());
    }
    Ok(width)
}

/// Whether a cell has one of these marks.
fn has_mark(cell: usize, marks: &[Mark]) -> bool
    ensures { result ≡ has_mark cell marks.now }
{
    marks.iter().any(|mark| mark.cell == cell)
}

/// Whether some turn reads or writes a cell.
fn is_touched<A: Allocator>(cell: usize, turns: &[TurnShown<A>]) -> bool
    ensures { result ≡ is_touched cell (map turn_of turns.now) }
{
    'turns: for turn in turns {
        if has_mark(cell, turn.marks.as_slice()) {
            return true;
        }
    }
    false
}

/// The column of a cell.
fn column_at<A: Allocator + Copy>(
    alloc: A,
    names: &[Named<A>],
    first: &[u64],
    turns: &[TurnShown<A>],
    cell: usize,
) -> Result<Column<A>, AllocError>
    ensures { IfOk result
        (λ r. column_of r ≡ column_at (map named_of names.now) first.now (map turn_of turns.now) cell) }
{
    let (name, ty) = named_cell(alloc, names, cell)?;
    let word = word_at(first, cell);
    let value = value_bytes(alloc, ty, word)?;
    let width = widest(alloc, cell, ty, name.len().max(value.len()), turns)?;
    Ok(Column {
        cell,
        name: Items::from_vec(name),
        ty,
        first: word,
        width,
    })
}

/// Adds the column of a cell, if some turn reads or writes it.
fn push_column_at<A: Allocator + Copy>(
    alloc: A,
    names: &[Named<A>],
    first: &[u64],
    turns: &[TurnShown<A>],
    cell: usize,
    columns: &mut Items<Column<A>, A>,
) -> Result<(), AllocError>
    ensures { OnOk result (map column_of columns.new ≡ map column_of columns.old
        ++ (if is_touched cell (map turn_of turns.now)
        then column_at (map named_of names.now) first.now (map turn_of turns.now) cell ∷ [] else [])) }
{
    if !is_touched(cell, turns) {
        return Ok(());
    }
    columns.push(column_at(alloc, names, first, turns, cell)?)
}

/// How many bytes the columns of a trace take in a line, as far as a `usize` can count them.
pub fn columns_width<A: Allocator + Copy>(
    alloc: A,
    names: &[Named<A>],
    first: &[u64],
    turns: &[TurnShown<A>],
) -> Result<usize, AllocError> {
    let columns = columns_of(alloc, names, first, turns)?;
    let mut width: usize = 0;
    'columns: for column in columns.as_slice() {
        width = width.saturating_add(column.width).saturating_add(1);
    }
    Ok(width)
}

/// The columns of a trace: one for each cell that some turn reads or writes.
pub(crate) fn columns_of<A: Allocator + Copy>(
    alloc: A,
    names: &[Named<A>],
    first: &[u64],
    turns: &[TurnShown<A>],
) -> Result<Items<Column<A>, A>, AllocError>
    ensures { IfOk result
        (λ r. map column_of r ≡ columns_by (map named_of names.now) first.now (map turn_of turns.now)) }
{
    let mut columns = Items::new(alloc);
    'cells: for cell in 0..first.len() {
        push_column_at(alloc, names, first, turns, cell, &mut columns)?;
    }
    Ok(columns)
}
