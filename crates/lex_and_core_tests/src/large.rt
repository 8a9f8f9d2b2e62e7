//! Long texts and long tokens.

use crate::asserted::{assert_all, assert_none};
use crate::texts::{is_refused, stand_at};
use lex::{lex, unescape};
use std::alloc::{AllocError, Global};

/// A text of a part, another one so many times, and a last one.
fn repeated_text(
    alloc: Global,
    before: &str,
    part: &str,
    times: usize,
    after: &str,
) -> Result<String, AllocError> {
    let mut text = String::from_str(alloc, before)?;
    for _ in 0..times {
        text.push_str(part)?;
    }
    text.push_str(after)?;
    Ok(text)
}

/// What stands before 100,000 times a part, the part, what stands behind, and the place of the one token.
type Row = (&'static str, &'static str, &'static str, (usize, usize));

fn large_pieces() -> &'static [Row] {
    static ROWS: [Row; 6] = [
        ("/*", "*\n", "*/;", (200004, 200005)),
        ("//", "*", "\n;", (100003, 100004)),
        ("\"", "\\n", "\"", (0, 200002)),
        ("_", "a", "", (0, 100001)),
        ("#include <", "a", ">\n;", (100012, 100013)),
        ("0", "0", "7", (0, 100002)),
    ];
    &ROWS
}

/// Whether a row's token stands at its place.
fn is_lexed(alloc: Global, row: &Row) -> bool {
    match repeated_text(alloc, row.0, row.1, 100000, row.2) {
        Ok(text) => stand_at(alloc, text.as_str(), [row.3].as_slice()),
        Err(_) => false,
    }
}

/// The first of these rows whose token stands elsewhere.
fn lexed_otherwise(alloc: Global, rows: &[Row]) -> Option<&'static str> {
    for row in rows {
        if !is_lexed(alloc, row) {
            return Some(row.0);
        }
    }
    None
}

#[test]
fn large_pieces_are_lexed(rt: HostRuntime) {
    assert_none(&rt, lexed_otherwise(rt.alloc(), large_pieces()));
}

/// Whether so many spaces are a text without tokens.
fn has_no_tokens(alloc: Global, spaces: usize) -> bool {
    match repeated_text(alloc, "", " ", spaces, "") {
        Ok(text) => stand_at(alloc, text.as_str(), [].as_slice()),
        Err(_) => false,
    }
}

/// Whether so many spaces behind this are refused as too long.
fn is_too_long(alloc: Global, before: &str, spaces: usize) -> bool {
    match repeated_text(alloc, before, " ", spaces, "") {
        Ok(text) => is_refused(alloc, &(text.as_str(), 5, 0, 0)),
        Err(_) => false,
    }
}

#[test]
fn a_text_has_at_most_a_mebibyte(rt: HostRuntime) {
    assert_all(
        &rt,
        &[
            ("more", is_too_long(rt.alloc(), "@", 1048576)),
            ("as many", has_no_tokens(rt.alloc(), 1048576)),
        ],
    );
}

/// How many tokens so many names are.
fn count_names(alloc: Global, times: usize) -> Option<usize> {
    match repeated_text(alloc, "", "a ", times, "") {
        Err(_) => None,
        Ok(text) => match lex(alloc, text.as_str()) {
            Ok(tokens) => Some(tokens.len()),
            Err(_) => None,
        },
    }
}

/// How many bytes so many escapes are.
fn count_escapes(alloc: Global, times: usize) -> Option<usize> {
    match repeated_text(alloc, "", "\\n", times, "") {
        Err(_) => None,
        Ok(text) => match unescape(alloc, text.as_str()) {
            Ok(found) => Some(found.len()),
            Err(_) => None,
        },
    }
}

#[test]
fn many_names_and_many_escapes(rt: HostRuntime) {
    let names = count_names(rt.alloc(), 100000);
    let escapes = count_escapes(rt.alloc(), 100000);
    assert_all(
        &rt,
        &[
            ("names", names == Some(100000)),
            ("escapes", escapes == Some(100000)),
        ],
    );
}
