//! Reports of answers to questions.

use crate::tally::Tally;
use crate::verdict::Verdict;
use annotations::{begin_annotation, write_message};
use command::TestFormat;
use json::Writer;
use questions::Expected;
use std::alloc::{AllocError, Global};
use std::io;
use std::io::{ErrorKind, Write};

/// The answer to a question.
#[derive(Clone, Copy)]
pub struct Answered<'a> {
    pub file: &'a str,
    pub line: usize,
    pub column: usize,
    /// The words of the question, separated by blanks.
    pub words: &'a str,
    pub expected: Expected,
    pub status: u8,
    pub verdict: Verdict,
    pub milliseconds: u64,
    /// The findings.
    pub notes: &'a [String],
}

/// The word for an expected answer.
fn name_of(expected: Expected) -> &'static str {
    match expected {
        Expected::Holds => "holds",
        Expected::Fails => "fails",
        Expected::Traps => "traps",
        Expected::Stuck => "stuck",
    }
}

/// Writes untrusted text, such as a file's name, with `?` for control characters.
pub(crate) fn write_shown<W: Write>(text: &str, to: &mut W) -> io::Result<()> {
    'characters: for c in text.chars() {
        write!(to, "{}", if c.is_control() { '?' } else { c })?;
    }
    Ok(())
}

/// Writes the findings and the time.
fn write_notes<W: Write>(answer: &Answered<'_>, out: &mut W) -> io::Result<()> {
    'notes: for note in answer.notes {
        write_shown(note.as_str(), out)?;
        out.write_all(b"; ")?;
    }
    write!(out, "{} ms", answer.milliseconds)
}

/// Writes an answer as a line with the position of the question.
fn write_plain<W: Write>(answer: &Answered<'_>, out: &mut W) -> io::Result<()> {
    write_shown(answer.file, out)?;
    write!(out, ":{}: {}: ", answer.line, answer.verdict.name())?;
    write_shown(answer.words, out)?;
    out.write_all(b" (")?;
    write_notes(answer, out)?;
    out.write_all(b")\n")
}

/// Writes an answer as a GitHub annotation.
fn write_annotation<W: Write>(answer: &Answered<'_>, out: &mut W) -> io::Result<()> {
    begin_annotation("error", answer.file, out)?;
    write!(
        out,
        ",line={},col={},title=txc test::{}: ",
        answer.line,
        answer.column,
        answer.verdict.name()
    )?;
    write_message(answer.words, out)?;
    out.write_all(b" (")?;
    'notes: for note in answer.notes {
        write_message(note.as_str(), out)?;
        out.write_all(b"; ")?;
    }
    writeln!(out, "{} ms)", answer.milliseconds)
}

/// Adds a member to an object, with a text as its value.
fn put_text(to: &mut Writer, key: &str, text: &str) -> Result<(), AllocError> {
    to.key(key)?;
    to.string(text)
}

/// Adds a member to an object, with a number as its value.
fn put_number(to: &mut Writer, key: &str, number: u64) -> Result<(), AllocError> {
    to.key(key)?;
    to.u64(number)
}

/// Adds the findings.
fn put_notes(to: &mut Writer, notes: &[String]) -> Result<(), AllocError> {
    to.key("notes")?;
    to.begin_array()?;
    'notes: for note in notes {
        to.string(note.as_str())?;
    }
    to.end_array()
}

/// An answer as a JSON object on one line.
fn object(alloc: Global, answer: &Answered<'_>) -> Result<Vec<u8>, AllocError> {
    let mut to = Writer::new(Vec::new(alloc));
    to.begin_object()?;
    put_text(&mut to, "file", answer.file)?;
    put_number(&mut to, "line", answer.line as u64)?;
    put_number(&mut to, "column", answer.column as u64)?;
    put_text(&mut to, "question", answer.words)?;
    put_text(&mut to, "expected", name_of(answer.expected))?;
    put_text(&mut to, "verdict", answer.verdict.name())?;
    put_number(&mut to, "status", u64::from(answer.status))?;
    put_number(&mut to, "milliseconds", answer.milliseconds)?;
    put_notes(&mut to, answer.notes)?;
    to.end_object()?;
    let mut line = to.into_inner();
    line.push(b'\n')?;
    Ok(line)
}

/// The counts of verdicts as a JSON object on one line.
fn tally_object(alloc: Global, tally: Tally) -> Result<Vec<u8>, AllocError> {
    let mut to = Writer::new(Vec::new(alloc));
    to.begin_object()?;
    put_number(&mut to, "passed", tally.passed)?;
    put_number(&mut to, "failed", tally.failed)?;
    put_number(&mut to, "undecided", tally.undecided)?;
    put_number(&mut to, "refused", tally.refused)?;
    to.end_object()?;
    let mut line = to.into_inner();
    line.push(b'\n')?;
    Ok(line)
}

/// Writes an object, unless an allocation failed.
fn write_object<W: Write>(object: Result<Vec<u8>, AllocError>, out: &mut W) -> io::Result<()> {
    match object {
        Ok(line) => out.write_all(line.as_slice()),
        Err(AllocError) => Err(io::Error::from(ErrorKind::OutOfMemory)),
    }
}

/// Reports the answer to a question.
pub fn report_answer<W: Write>(
    alloc: Global,
    answer: &Answered<'_>,
    format: TestFormat,
    out: &mut W,
) -> io::Result<()> {
    match (format, answer.verdict) {
        (TestFormat::Json, _) => write_object(object(alloc, answer), out)?,
        (TestFormat::Plain, _) | (TestFormat::Github, Verdict::Passed) => write_plain(answer, out)?,
        (TestFormat::Github, _) => write_annotation(answer, out)?,
    }
    out.flush()
}

/// Writes another count of verdicts, unless it is 0.
fn write_further<W: Write>(number: u64, name: &str, out: &mut W) -> io::Result<()> {
    if number == 0 {
        return Ok(());
    }
    write!(out, ", {number} {name}")
}

/// Reports the number of questions with each verdict.
pub fn report_tally<W: Write>(
    alloc: Global,
    tally: Tally,
    format: TestFormat,
    out: &mut W,
) -> io::Result<()> {
    if format == TestFormat::Json {
        return write_object(tally_object(alloc, tally), out);
    }
    write!(out, "{} passed, {} failed", tally.passed, tally.failed)?;
    write_further(tally.undecided, "undecided", out)?;
    write_further(tally.refused, "refused", out)?;
    writeln!(out)
}
