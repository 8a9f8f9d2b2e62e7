//! The lines of hints, and what they contain.

use lex::place;
use std::alloc::{AllocError, Allocator};

/// How many, and of what.
pub(crate) type Count = (u64, &'static str);

/// A line of a hint.
#[derive(Clone, Copy)]
pub(crate) enum Line<'t> {
    /// Words alone.
    Words(&'static str),
    /// Words, then a word of the source or of the language.
    Named(&'static str, &'t str),
    /// Words, then the line and the column of an offset.
    Placed(&'static str, usize),
    /// How many there are to be, and how many there are: `2 conversions, 1 argument`.
    Counted(Count, Count),
}

/// Adds the line and the column of an offset, as `3:9`.
pub(crate) fn push_place<A: Allocator + Copy>(
    alloc: A,
    to: &mut String<A>,
    text: &str,
    offset: usize,
) -> Result<(), AllocError> {
    let (line, column) = place(text, offset.min(text.len()));
    to.push_str(format!(in alloc; "{line}:{column}")?.as_str())
}

/// Adds `1 argument`, `2 arguments`.
fn push_count<A: Allocator + Copy>(
    alloc: A,
    to: &mut String<A>,
    count: Count,
) -> Result<(), AllocError> {
    let (number, word) = count;
    let ending = if number == 1 { "" } else { "s" };
    to.push_str(format!(in alloc; "{number} {word}{ending}")?.as_str())
}

/// Adds a line's contents, without its end.
fn push_parts<A: Allocator + Copy>(
    alloc: A,
    to: &mut String<A>,
    text: &str,
    line: Line<'_>,
) -> Result<(), AllocError> {
    match line {
        Line::Words(words) => to.push_str(words),
        Line::Named(words, name) => {
            to.push_str(words)?;
            to.push_str(name)
        }
        Line::Placed(words, offset) => {
            to.push_str(words)?;
            push_place(alloc, to, text, offset)
        }
        Line::Counted(wanted, given) => {
            push_count(alloc, to, wanted)?;
            to.push_str(", ")?;
            push_count(alloc, to, given)
        }
    }
}

/// Adds a hint for a text, if there is one.
pub(crate) fn push_line<A: Allocator + Copy>(
    alloc: A,
    to: &mut String<A>,
    text: &str,
    line: Option<Line<'_>>,
) -> Result<(), AllocError> {
    match line {
        Some(line) => {
            push_parts(alloc, to, text, line)?;
            to.push('\n')
        }
        None => Ok(()),
    }
}
