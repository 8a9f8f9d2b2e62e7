//! Large texts, made of pieces.

use std::alloc::{AllocError, Global};

/// A piece of a text.
#[derive(Clone, Copy)]
pub enum Piece {
    /// A text so many times.
    Times(&'static str, u32),
    /// Each number below this one, between two texts.
    Numbers(&'static str, u32, &'static str),
    /// So many functions `f0`, `f1` and so on, each of which calls the next one, and whether the last one stands first.
    Links(u32, bool),
}

/// Appends a text so many times.
fn push_times(to: &mut String, text: &str, times: u32) -> Result<(), AllocError> {
    for _ in 0..times {
        to.push_str(text)?;
    }
    Ok(())
}

/// Appends a number between two texts.
fn push_number(
    to: &mut String,
    alloc: Global,
    before: &str,
    number: u32,
    behind: &str,
) -> Result<(), AllocError> {
    to.push_str(format!(in alloc; "{before}{number}{behind}")?.as_str())
}

/// Appends each number below `count` between two texts.
fn push_numbers(
    to: &mut String,
    alloc: Global,
    before: &str,
    count: u32,
    behind: &str,
) -> Result<(), AllocError> {
    for number in 0..count {
        push_number(to, alloc, before, number, behind)?;
    }
    Ok(())
}

/// Appends a function that calls the next one.
fn push_link(to: &mut String, alloc: Global, number: u32) -> Result<(), AllocError> {
    let next = number.saturating_add(1);
    to.push_str(format!(in alloc; "void f{number}(void) {{ f{next}(); }}")?.as_str())
}

/// Appends so many functions, each of which calls the next one.
fn push_links(
    to: &mut String,
    alloc: Global,
    count: u32,
    from_last: bool,
) -> Result<(), AllocError> {
    for number in 0..count {
        let link = if from_last {
            count - 1 - number
        } else {
            number
        };
        push_link(to, alloc, link)?;
    }
    Ok(())
}

/// Appends a piece.
fn push_piece(to: &mut String, alloc: Global, piece: Piece) -> Result<(), AllocError> {
    match piece {
        Piece::Times(text, times) => push_times(to, text, times),
        Piece::Numbers(before, count, behind) => push_numbers(to, alloc, before, count, behind),
        Piece::Links(count, from_last) => push_links(to, alloc, count, from_last),
    }
}

/// The text of pieces.
pub fn text_of(alloc: Global, pieces: &[Piece]) -> Result<String, AllocError> {
    let mut text = String::new(alloc);
    for piece in pieces {
        push_piece(&mut text, alloc, *piece)?;
    }
    Ok(text)
}
