//! Hints: the lines printed after a fault.

use crate::calls::{Aim, push_path};
use crate::characters::{of_character, of_string};
use crate::formats::{CONVERSIONS, of_printed, of_values};
use crate::lines::{Line, push_line};
use crate::names::{near_worker, of_call, of_declared, of_name, of_type, of_worker};
use crate::tokens::{kind_at, number_at};
use crate::unexpected::push_unexpected;
use lex::token::{Kind, Span, Token};
use lex::{LexFault, lex};
use std::alloc::{AllocError, Allocator};

/// The hint for a fault of this number, whatever is at its place.
fn of_number(number: u32) -> Option<&'static str> {
    match number {
        2 => Some("the largest constant is 9223372036854775807, or 4294967295 with the suffix u"),
        3 => Some("a comment that begins with /* ends with */"),
        5 => Some("a source has at most 1,048,576 bytes"),
        6 => Some(
            "there are no macros, and #include lines are ignored: write the number, or a global",
        ),
        11 => Some("a program nests at most 100 deep"),
        24 => Some("the left side of an assignment must be a variable or an element of an array"),
        25 => Some(
            "an array has 1 to 4096 cells and no more values than cells; all globals together have at most 4096 cells",
        ),
        26 => Some("it must be inside a loop of the same function"),
        27 => Some(CONVERSIONS),
        29 => Some("it is declared but never defined"),
        41 => Some("a relaxed transaction can't be undone, so it can't be inside an atomic one"),
        42 => Some(
            "a cancel must be inside the text of the __transaction_atomic it undoes, not in a function called there",
        ),
        43 => Some(
            "it or a function it calls prints, begins a relaxed transaction or is marked unsafe",
        ),
        44 => Some("an outer transaction must be outermost: it can't be inside an atomic one"),
        45 => Some("an outer cancel must be inside the text of a __transaction_atomic [[outer]]"),
        50 => Some(
            "put it in __transaction_atomic { .. }, or an expression in __transaction_atomic ( .. )",
        ),
        51 => Some(
            "put the call in __transaction_atomic { .. }, or the shared accesses inside the function",
        ),
        62 => Some("transactions nest at most 16 deep in a function"),
        _ => None,
    }
}

/// The hint for a word that is not allowed in an atomic transaction.
fn of_unsafe(word: &str) -> &'static str {
    if word == "printf" {
        "a print can't be undone: move it after the transaction, or use __transaction_relaxed"
    } else {
        "it is not safe: it or a function it calls prints, begins a relaxed transaction or is marked unsafe"
    }
}

/// The hint for a fault, by its number and the text from its place on.
fn of_text(text: &str, number: u32, span: Span) -> Option<&'static str> {
    match number {
        1 => of_character(text.as_bytes(), span.start),
        4 => Some(of_string(text.as_bytes().get(span.start..text.len()).unwrap_or(b""))),
        40 => Some(of_unsafe(text.get(span.start..span.end).unwrap_or(""))),
        _ => of_number(number),
    }
}

/// The hint for a fault whose place begins with the token at an index.
fn of_token<'t, A: Allocator + Copy>(
    alloc: A,
    tokens: &[Token<'t>],
    fault: u32,
    number: usize,
) -> Result<Option<Line<'t>>, AllocError> {
    Ok(match (fault, kind_at(tokens, number)) {
        (20, Some(Kind::Name(name))) => Some(of_name(alloc, tokens, name, number)?),
        (21, Some(Kind::Name(name))) => {
            of_declared(tokens, name, number, "it is first declared at ")
        }
        (22, _) => of_type(tokens, number),
        (23, Some(Kind::Name(name))) => of_call(tokens, name, number),
        (25, _) => of_values(tokens, number),
        (27, _) => of_printed(tokens, number),
        _ => None,
    })
}

/// The hint for a fault, by its tokens.
fn line_of<'t, A: Allocator + Copy>(
    alloc: A,
    tokens: &[Token<'t>],
    fault: u32,
    span: Span,
) -> Result<Option<Line<'t>>, AllocError> {
    match (fault, number_at(tokens, span.start)) {
        (28, _) => near_worker(alloc, tokens),
        (_, Some(number)) => of_token(alloc, tokens, fault, number),
        (_, None) => Ok(None),
    }
}

/// The second hint for a fault, by its tokens.
fn second_line_of(tokens: &[Token<'_>], fault: u32, span: Span) -> Option<Line<'static>> {
    match fault {
        23 => {
            let name = name_at(tokens, span.start)?;
            let number = number_at(tokens, span.start)?;
            of_declared(tokens, name, number, "it is declared at ")
        }
        28 => Some(Line::Words(of_worker(tokens))),
        _ => None,
    }
}

/// What to search for along the calls of the function that a fault of safety or separation names.
fn aim_of(fault: u32) -> Option<Aim> {
    match fault {
        40 | 43 => Some(Aim::Unsafe),
        51 => Some(Aim::Shared),
        _ => None,
    }
}

/// The name that begins at an offset.
fn name_at<'t>(tokens: &[Token<'t>], offset: usize) -> Option<&'t str> {
    match kind_at(tokens, number_at(tokens, offset)?) {
        Some(Kind::Name(name)) => Some(name),
        _ => None,
    }
}

/// Adds the hints for a fault that come from its tokens, and returns whether they are all.
fn push_of_tokens<A: Allocator + Copy>(
    alloc: A,
    to: &mut String<A>,
    text: &str,
    tokens: &mut Vec<Token<'_>, A>,
    fault: u32,
    span: Span,
) -> Result<bool, AllocError> {
    if fault == 10 || fault == 12 {
        push_unexpected(alloc, to, text, tokens, span)?;
        return Ok(true);
    }
    let tokens = tokens.as_slice();
    if let (Some(aim), Some(name)) = (aim_of(fault), name_at(tokens, span.start)) {
        let is_told = push_path(alloc, to, text, tokens, aim, name)?;
        return Ok(is_told && aim == Aim::Unsafe);
    }
    let line = line_of(alloc, tokens, fault, span)?;
    push_line(alloc, to, text, line)?;
    push_line(alloc, to, text, second_line_of(tokens, fault, span))?;
    Ok(false)
}

/// Adds the hints for a fault that come from the tokens of its text, if it has any, and returns whether they are all.
fn push_of_source<A: Allocator + Copy>(
    alloc: A,
    to: &mut String<A>,
    text: &str,
    fault: u32,
    span: Span,
) -> Result<bool, AllocError> {
    match lex(alloc, text) {
        Ok(mut tokens) => push_of_tokens(alloc, to, text, &mut tokens, fault, span),
        Err(LexFault::OutOfMemory) => Err(AllocError),
        Err(_) => Ok(false),
    }
}

/// Adds the hints for a fault.
fn push_hints<A: Allocator + Copy>(
    alloc: A,
    to: &mut String<A>,
    text: &str,
    fault: u32,
    span: Span,
) -> Result<(), AllocError> {
    if push_of_source(alloc, to, text, fault, span)? {
        return Ok(());
    }
    match of_text(text, fault, span) {
        Some(words) => push_line(alloc, to, text, Some(Line::Words(words))),
        None => Ok(()),
    }
}

/// The hints for the fault of a number at a place of a text: what could be there, and what was probably
/// meant. Each ends with LF.
pub fn hints<A: Allocator + Copy>(
    alloc: A,
    text: &str,
    number: u32,
    span: Span,
) -> Result<String<A>, AllocError> {
    let mut lines = String::new(alloc);
    push_hints(alloc, &mut lines, text, number, span)?;
    Ok(lines)
}
