//! The text of a trace.

ghost use Rattle.std.specs.Prelude.{◌≡◌, ◌++◌, IfOk, OnOk, decimal, flat_map, map};
ghost use Rattle.traces.specs.Columns.{mark_text, value_text};
ghost use Rattle.traces.specs.Trace.{begun_lines, column_text, counted_lines, first_line, first_words, head_line};
ghost use Rattle.traces.specs.Trace.{head_words, marks_text, table_text, told_words, turn_columns, turn_line};
ghost use Rattle.traces.specs.Trace.{turn_lines, turn_words};
ghost use Rattle.traces.specs.Trace as spec;
ghost use Rattle.traces.specs.Views.{column_of, named_of, thread_at_of, turn_of};

use crate::columns::{Column, columns_of, mark_bytes, value_bytes};
use crate::ends::{push_ends, push_status};
use crate::folds::{number_after, push_fold};
use crate::push::{
    push_bytes, push_cancelled, push_column, push_first_columns, push_line, push_number,
    push_printed,
};
use crate::turn::{Named, ThreadAt, TurnShown};
use std::alloc::{AllocError, Allocator};

/// Adds the name of a column.
fn push_name<A: Allocator>(text: &mut Vec<u8, A>, column: &Column<A>) -> Result<(), AllocError>
    ensures { OnOk result (text.new.items ≡ text.old.items ++ column_text column.now.width column.now.name) }
{
    push_column(text, column.width, column.name.as_slice())
}

/// Adds the names of columns.
fn push_names<A: Allocator>(text: &mut Vec<u8, A>, columns: &[Column<A>]) -> Result<(), AllocError>
    ensures { OnOk result (text.new.items ≡ text.old.items
        ++ flat_map (λ c. column_text c.width c.name) (map column_of columns.now)) }
{
    'columns: for column in columns {
        push_name(text, column)?;
    }
    Ok(())
}

/// Adds the names of columns, and those of the first columns.
fn push_head_words<A: Allocator>(
    text: &mut Vec<u8, A>,
    columns: &[Column<A>],
) -> Result<(), AllocError>
    ensures { OnOk result (text.new.items ≡ text.old.items ++ head_words (map column_of columns.now)) }
{
    push_first_columns(text, b"turn", b"thread", b"at")?;
    push_names(text, columns)
}

/// Adds the line with the names of columns.
fn push_head<A: Allocator + Copy>(
    alloc: A,
    text: &mut Vec<u8, A>,
    columns: &[Column<A>],
) -> Result<(), AllocError>
    ensures { OnOk result (text.new.items ≡ text.old.items ++ head_line (map column_of columns.now)) }
{
    let mut line = Vec::new(alloc);
    push_head_words(&mut line, columns)?;
    push_line(text, line.as_slice())
}

/// Adds the value of a column's cell before the first turn.
fn push_first_value<A: Allocator + Copy>(
    alloc: A,
    text: &mut Vec<u8, A>,
    column: &Column<A>,
) -> Result<(), AllocError>
    ensures { OnOk result (text.new.items ≡ text.old.items
        ++ column_text column.now.width (value_text column.now.ty column.now.first)) }
{
    let value = value_bytes(alloc, column.ty, column.first)?;
    push_column(text, column.width, value.as_slice())
}

/// Adds the values of cells before the first turn.
fn push_first_values<A: Allocator + Copy>(
    alloc: A,
    text: &mut Vec<u8, A>,
    columns: &[Column<A>],
) -> Result<(), AllocError>
    ensures { OnOk result (text.new.items ≡ text.old.items
        ++ flat_map (λ c. column_text c.width (value_text c.ty c.first)) (map column_of columns.now)) }
{
    'columns: for column in columns {
        push_first_value(alloc, text, column)?;
    }
    Ok(())
}

/// Adds the values of cells before the first turn, each in its column.
fn push_first_words<A: Allocator + Copy>(
    alloc: A,
    text: &mut Vec<u8, A>,
    columns: &[Column<A>],
) -> Result<(), AllocError>
    ensures { OnOk result (text.new.items ≡ text.old.items ++ first_words (map column_of columns.now)) }
{
    push_first_columns(text, b"", b"", b"")?;
    push_first_values(alloc, text, columns)
}

/// Adds the line with the values of cells before the first turn, if there is a column.
fn push_first<A: Allocator + Copy>(
    alloc: A,
    text: &mut Vec<u8, A>,
    columns: &[Column<A>],
) -> Result<(), AllocError>
    ensures { OnOk result (text.new.items ≡ text.old.items ++ first_line (map column_of columns.now)) }
{
    let [_, ..] = columns else {
        return Ok(());
    };
    let mut line = Vec::new(alloc);
    push_first_words(alloc, &mut line, columns)?;
    push_line(text, line.as_slice())
}

/// Adds the mark of a column's cell in a turn.
fn push_mark<A: Allocator + Copy>(
    alloc: A,
    text: &mut Vec<u8, A>,
    column: &Column<A>,
    turn: &TurnShown<A>,
) -> Result<(), AllocError>
    ensures { OnOk result (text.new.items ≡ text.old.items
        ++ column_text column.now.width (mark_text column.now.cell column.now.ty turn.now.marks)) }
{
    let mark = mark_bytes(alloc, column.cell, column.ty, turn.marks.as_slice())?;
    push_column(text, column.width, mark.as_slice())
}

/// Adds the marks of a turn in these columns.
fn push_marks<A: Allocator + Copy>(
    alloc: A,
    text: &mut Vec<u8, A>,
    columns: &[Column<A>],
    turn: &TurnShown<A>,
) -> Result<(), AllocError>
    ensures { OnOk result (text.new.items ≡ text.old.items
        ++ marks_text (map column_of columns.now) (turn_of turn.now)) }
{
    'columns: for column in columns {
        push_mark(alloc, text, column, turn)?;
    }
    Ok(())
}

/// Adds what a turn does apart from memory.
fn push_told<A: Allocator>(text: &mut Vec<u8, A>, turn: &TurnShown<A>) -> Result<(), AllocError>
    ensures { OnOk result (text.new.items ≡ text.old.items ++ told_words (turn_of turn.now)) }
{
    if turn.is_idle {
        return push_bytes(text, b"  none: terminated");
    }
    push_cancelled(text, turn.is_cancelled)?;
    push_printed(text, turn.printed.as_slice())?;
    push_status(text, turn.status)
}

/// Adds the number of a turn, its thread, and where the transaction is.
fn push_numbers<A: Allocator + Copy>(
    alloc: A,
    text: &mut Vec<u8, A>,
    number: &[u8],
    turn: &TurnShown<A>,
) -> Result<(), AllocError>
    ensures { OnOk result (text.new.items ≡ text.old.items
        ++ spec.first_columns number.now (decimal turn.now.thread) turn.now.at) }
{
    let mut thread = Vec::new(alloc);
    push_number(&mut thread, u64::from(turn.thread))?;
    push_first_columns(text, number, thread.as_slice(), turn.at.as_slice())
}

/// Adds the columns of a turn's line.
fn push_turn_columns<A: Allocator + Copy>(
    alloc: A,
    text: &mut Vec<u8, A>,
    columns: &[Column<A>],
    number: &[u8],
    turn: &TurnShown<A>,
) -> Result<(), AllocError>
    ensures { OnOk result (text.new.items ≡ text.old.items
        ++ turn_columns (map column_of columns.now) number.now (turn_of turn.now)) }
{
    push_numbers(alloc, text, number, turn)?;
    push_marks(alloc, text, columns, turn)
}

/// Adds the words of a turn's line.
fn push_turn_words<A: Allocator>(
    text: &mut Vec<u8, A>,
    turn: &TurnShown<A>,
) -> Result<(), AllocError>
    ensures { OnOk result (text.new.items ≡ text.old.items ++ turn_words (turn_of turn.now)) }
{
    push_bytes(text, b"   ")?;
    push_bytes(text, turn.words.as_slice())?;
    push_told(text, turn)
}

/// Adds the columns and the words of a turn's line.
fn push_turn_text<A: Allocator + Copy>(
    alloc: A,
    text: &mut Vec<u8, A>,
    columns: &[Column<A>],
    number: &[u8],
    turn: &TurnShown<A>,
) -> Result<(), AllocError>
    ensures { OnOk result (text.new.items ≡ text.old.items
        ++ (turn_columns (map column_of columns.now) number.now (turn_of turn.now) ++ turn_words (turn_of turn.now))) }
{
    push_turn_columns(alloc, text, columns, number, turn)?;
    push_turn_words(text, turn)
}

/// Adds the line of a turn, with this text where its number is.
fn push_turn<A: Allocator + Copy>(
    alloc: A,
    text: &mut Vec<u8, A>,
    columns: &[Column<A>],
    number: &[u8],
    turn: &TurnShown<A>,
) -> Result<(), AllocError>
    ensures { OnOk result (text.new.items ≡ text.old.items
        ++ turn_line (map column_of columns.now) number.now (turn_of turn.now)) }
{
    let mut line = Vec::new(alloc);
    push_turn_text(alloc, &mut line, columns, number, turn)?;
    push_line(text, line.as_slice())
}

/// Adds the line of a turn of this number, and the line that says which turns come again.
fn push_counted<A: Allocator + Copy>(
    alloc: A,
    text: &mut Vec<u8, A>,
    columns: &[Column<A>],
    number: u64,
    turn: &TurnShown<A>,
) -> Result<(), AllocError>
    ensures { OnOk result (text.new.items ≡ text.old.items
        ++ counted_lines (map column_of columns.now) number (turn_of turn.now)) }
{
    let mut count = Vec::new(alloc);
    push_number(&mut count, number)?;
    push_turn(alloc, text, columns, count.as_slice(), turn)?;
    push_fold(text, number, turn.fold)
}

/// Adds the lines of turns.
fn push_turns<A: Allocator + Copy>(
    alloc: A,
    text: &mut Vec<u8, A>,
    columns: &[Column<A>],
    turns: &[TurnShown<A>],
) -> Result<(), AllocError>
    ensures { OnOk result (text.new.items ≡ text.old.items
        ++ turn_lines (map column_of columns.now) 1 (map turn_of turns.now)) }
{
    let mut number = 1;
    'turns: for turn in turns {
        push_counted(alloc, text, columns, number, turn)?;
        number = number_after(number, turn.fold)?;
    }
    Ok(())
}

/// Adds the lines of what threads do before their first turns.
fn push_begun<A: Allocator + Copy>(
    alloc: A,
    text: &mut Vec<u8, A>,
    columns: &[Column<A>],
    begun: &[TurnShown<A>],
) -> Result<(), AllocError>
    ensures { OnOk result (text.new.items ≡ text.old.items
        ++ begun_lines (map column_of columns.now) (map turn_of begun.now)) }
{
    'begun: for turn in begun {
        push_turn(alloc, text, columns, b"", turn)?;
    }
    Ok(())
}

/// Adds the table of a trace.
fn push_table<A: Allocator + Copy>(
    alloc: A,
    text: &mut Vec<u8, A>,
    columns: &[Column<A>],
    begun: &[TurnShown<A>],
    turns: &[TurnShown<A>],
) -> Result<(), AllocError>
    ensures { OnOk result (text.new.items ≡ text.old.items
        ++ table_text (map column_of columns.now) (map turn_of begun.now) (map turn_of turns.now)) }
{
    push_head(alloc, text, columns)?;
    push_first(alloc, text, columns)?;
    push_begun(alloc, text, columns, begun)?;
    push_turns(alloc, text, columns, turns)
}

/// The text of a trace: a line for each turn, with a column for each cell that one of them reads or writes, under a line
/// with the words before the first one; and then a line for each thread. A thread that prints or terminates before its
/// first turn has a line before those of the turns.
pub fn trace_text<A: Allocator + Copy>(
    alloc: A,
    names: &[Named<A>],
    first: &[u64],
    begun: &[TurnShown<A>],
    turns: &[TurnShown<A>],
    ends: &[ThreadAt<A>],
) -> Result<Vec<u8, A>, AllocError>
    ensures { IfOk result (λ r. r.items ≡ spec.trace_text (map named_of names.now) first.now (map turn_of begun.now)
        (map turn_of turns.now) (map thread_at_of ends.now)) }
{
    let columns = columns_of(alloc, names, first, turns)?;
    let mut text = Vec::new(alloc);
    push_table(alloc, &mut text, columns.as_slice(), begun, turns)?;
    push_ends(&mut text, ends)?;
    Ok(text)
}
