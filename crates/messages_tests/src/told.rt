//! Compares the hints for a source with those of a row.

use lex::token::Span;
use lex::{lex, place};
use messages::hints;
use parse::parse;
use safety::checked::Safe;
use safety::safe;
use separation::accept;
use std::alloc::{AllocError, Global};
use std::process::Abort;
use syntax::tree::Unit;
use types::{Typed, check};

/// A source, its first fault with its place, and its hints.
pub type Row = (&'static str, &'static str, &'static str);

/// The first fault of a text: its number and its place.
type Refusal = (u32, Option<Span>);

/// The tree of a text.
fn read(alloc: Global, text: &str) -> Result<Unit, Refusal> {
    match lex(alloc, text) {
        Ok(tokens) => match parse(alloc, tokens.as_slice()) {
            Ok(unit) => Ok(unit),
            Err(fault) => Err((fault.number(), fault.span())),
        },
        Err(fault) => Err((fault.number(), fault.span())),
    }
}

/// The typed program of a text.
fn read_typed(alloc: Global, text: &str) -> Result<Typed, Refusal> {
    match check(alloc, read(alloc, text)?) {
        Ok(typed) => Ok(typed),
        Err(fault) => Err((fault.number(), fault.span())),
    }
}

/// The safe program of a text.
fn read_safe(alloc: Global, text: &str) -> Result<Safe, Refusal> {
    match safe(alloc, read_typed(alloc, text)?) {
        Ok(safe) => Ok(safe),
        Err(fault) => Err((fault.number(), fault.span())),
    }
}

/// The first fault of a text, if it has one.
fn refusal(alloc: Global, text: &str) -> Option<Refusal> {
    match read_safe(alloc, text) {
        Ok(safe) => match accept(alloc, safe) {
            Ok(_) => None,
            Err(fault) => Some((fault.number(), fault.span())),
        },
        Err(refusal) => Some(refusal),
    }
}

/// Whether the first fault of a text is this one, and its hints are these, which are not empty.
fn is_told(alloc: Global, row: &Row) -> Result<bool, AllocError> {
    let (text, fault, lines) = *row;
    let Some((number, Some(span))) = refusal(alloc, text) else {
        return Ok(false);
    };
    let (line, column) = place(text, span.start.min(text.len()));
    let found = format!(in alloc; "{number:02} at {line}:{column}")?;
    let told = hints(alloc, text, number, span)?;
    Ok(found.as_str() == fault && !lines.is_empty() && told.as_str() == lines)
}

/// The source of the first row that has another fault or other hints.
pub fn told_otherwise(alloc: Global, rows: &[Row]) -> Option<&'static str> {
    for row in rows {
        if !is_told(alloc, row).unwrap_or(false) {
            return Some(row.0);
        }
    }
    None
}

/// Asserts that there is no such row.
pub fn assert_none(rt: &impl Abort, other: Option<&str>) {
    assert_eq!(rt; other, None);
}
