//! Lines that resemble a question and are none.

use crate::asked::{lines, question_of};
use std::alloc::{AllocError, Global};

/// The number of a line and a column in it, both from 1.
#[derive(Clone, Copy, Debug, PartialEq, Eq)]
pub struct Position {
    pub line: usize,
    pub column: usize,
}

/// The first comment of a line: its offset, and what follows the `//` or `/*` that opens it.
fn first_comment(line: &[u8]) -> Option<(usize, &[u8])> {
    'offsets: for at in 0..line.len() {
        let rest = line.get(at..line.len()).unwrap_or(b"");
        if let [b'/', b'/' | b'*', comment @ ..] = rest {
            return Some((at, comment));
        }
    }
    None
}

/// Whether a question could follow this part of its line by mistake: it is blank, or ends in `;`, `{` or `}`.
fn ends_code(before: &[u8]) -> bool {
    match before.trim_ascii_end() {
        [] => true,
        [_others @ .., last] => matches!(*last, b';' | b'{' | b'}'),
    }
}

/// A comment without the blanks and punctuation at its beginning.
fn first_word(comment: &[u8]) -> &[u8] {
    'bytes: for (at, byte) in comment.iter().enumerate() {
        if !matches!(*byte, b'/' | b'*' | b'!' | b' ' | b'\t' | b'\r') {
            return comment.get(at..comment.len()).unwrap_or(b"");
        }
    }
    b""
}

/// Whether a text begins like a question: with `txc` in upper or lower case, and then a colon or an option.
fn begins_like_question(text: &[u8]) -> bool {
    let [t, x, c, others @ ..] = text else {
        return false;
    };
    let rest = others.trim_ascii_start();
    t.eq_ignore_ascii_case(&b't')
        && x.eq_ignore_ascii_case(&b'x')
        && c.eq_ignore_ascii_case(&b'c')
        && (rest.starts_with(b":".as_slice()) || rest.starts_with(b"--".as_slice()))
}

/// The column of a comment that resembles a question, from 1, if the line has one.
fn resembling(line: &[u8]) -> Option<usize> {
    let (at, comment) = first_comment(line)?;
    let before = line.get(..at).unwrap_or(b"");
    if ends_code(before) && begins_like_question(first_word(comment)) {
        Some(at.saturating_add(1))
    } else {
        None
    }
}

/// The position of the first comment that resembles a question and is none, such as `//txc: --always f`, if there is
/// one.
pub fn misspelled(alloc: Global, text: &[u8]) -> Result<Option<Position>, AllocError> {
    let lines = lines(alloc, text)?;
    let mut number: usize = 0;
    'lines: for line in lines.as_slice() {
        number = number.saturating_add(1);
        if let Some(column) = resembling(*line) {
            if question_of(alloc, number, *line)?.is_none() {
                return Ok(Some(Position {
                    line: number,
                    column,
                }));
            }
        }
    }
    Ok(None)
}
