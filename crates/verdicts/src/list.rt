//! Questions as commands, and invalid questions.

use crate::report::write_shown;
use questions::{Expected, Position};
use std::io;
use std::io::{ErrorKind, Write};

/// Whether a character needs no quoting in a shell.
fn is_plain(c: char) -> bool {
    c.is_ascii_alphanumeric()
        || matches!(c, '_' | '-' | '.' | ',' | '/' | '=' | ':' | '+' | '@' | '%')
}

/// Whether a word needs no quoting in a shell.
fn is_plain_word(word: &str) -> bool {
    !word.is_empty() && word.chars().all(is_plain)
}

/// Writes a word, quoted for a shell if that is needed.
fn write_word<W: Write>(word: &str, out: &mut W) -> io::Result<()> {
    if is_plain_word(word) {
        return out.write_all(word.as_bytes());
    }
    out.write_all(b"'")?;
    'bytes: for byte in word.as_bytes() {
        if *byte == b'\'' {
            out.write_all(b"'\\''")?;
        } else {
            out.write_all(&[*byte])?;
        }
    }
    out.write_all(b"'")
}

/// Writes words as a shell command. It succeeds if the answer is the expected one.
pub fn list_command<W: Write>(words: &[&str], expected: Expected, out: &mut W) -> io::Result<()> {
    'words: for (number, word) in words.iter().enumerate() {
        if number > 0 {
            out.write_all(b" ")?;
        }
        write_word(*word, out)?;
    }
    match expected {
        Expected::Holds => writeln!(out),
        Expected::Fails | Expected::Traps | Expected::Stuck => {
            writeln!(out, "; test $? -eq {}", expected.status())
        }
    }
}

/// Reports that a question is invalid, and why. Errors of the writer are ignored.
pub fn tell_bad_question<E: Write>(file: &str, line: usize, column: usize, why: &str, err: &mut E) {
    let _ = err.write_all(b"txc: ");
    let _ = write_shown(file, err);
    let _ = write!(err, ":{line}:{column}: ");
    let _ = write_shown(first_line(why), err);
    let _ = writeln!(err);
}

/// Reports that a comment resembles a question and is none. Errors of the writer are ignored.
pub fn tell_misspelled<E: Write>(file: &str, place: Position, err: &mut E) {
    let why = "not a question: its line must begin with the words // and txc:";
    tell_bad_question(file, place.line, place.column, why, err);
}

/// Reports that a file is too long to be searched for questions.
pub fn tell_long_file<E: Write>(file: &str, most: usize, err: &mut E) {
    let _ = err.write_all(b"txc: ");
    let _ = write_shown(file, err);
    let _ = writeln!(err, ": longer than {most} bytes");
}

/// Reports that no file contains a question.
pub fn tell_no_question<E: Write>(err: &mut E) {
    let _ = writeln!(err, "txc: no line begins with // txc:");
}

/// Reports an allocation failure, or that the output can't be written.
pub fn tell_unwritten<E: Write>(error: &io::Error, err: &mut E) {
    let _ = match error.kind() {
        ErrorKind::OutOfMemory => writeln!(err, "txc: out of memory"),
        _ => writeln!(err, "txc: cannot write"),
    };
}

/// The first line of the reason why words are wrong, without its prefix.
fn first_line(why: &str) -> &str {
    let line = match why.split_once('\n') {
        Some((line, _)) => line,
        None => why,
    };
    if let Some(rest) = line.strip_prefix("txc: usage: ") {
        return rest;
    }
    match line.strip_prefix("error: ") {
        Some(rest) => rest,
        None => line,
    }
}
