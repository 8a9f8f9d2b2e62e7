//! The lines that are kept of the output of `txc outcomes`.

use std::alloc::{AllocError, Global};
use std::io;
use std::io::{IsTerminal, Write};

/// How many notes are kept at most: the last ones.
const MOST_NOTES: usize = 16;

/// How many bytes of a line are kept at most.
const LONGEST: usize = 4096;

/// Keeps the lines of an output that state findings, without the reports that follow them.
#[derive(Drop)]
pub struct Notes {
    alloc: Global,
    /// The current line.
    line: Vec<u8>,
    notes: Vec<String>,
    /// Whether the first line is one of a comparison with a list, if there is a line.
    compares: Option<bool>,
    /// Whether the first report is that of a stuck order, if there is a report.
    begins_stuck: Option<bool>,
    /// Whether the last line counts stuck orders, if it is the last line of a list.
    counts_stuck: Option<bool>,
}

/// The finding that a line states, if any: the text after `== ` or `txc: `.
fn note_of(line: &[u8]) -> Option<&[u8]> {
    let Some(found) = line.strip_prefix(b"== ".as_slice()) else {
        return line.strip_prefix(b"txc: ".as_slice());
    };
    if found.starts_with(b"thread ")
        || found.starts_with(b"memory")
        || found.starts_with(b"outcome ")
    {
        None
    } else {
        Some(found)
    }
}

/// Whether a line begins the result of a comparison with a list. All lines of that are findings.
fn begins_comparison(line: &[u8]) -> bool {
    line == b"as expected".as_slice()
        || (line.starts_with(b"line ".as_slice()) && line.ends_with(b" differs".as_slice()))
}

/// Whether a text has this part.
fn has_part(text: &[u8], part: &[u8]) -> bool {
    'places: for at in 0..text.len() {
        if text.get(at..text.len()).unwrap_or(b"").starts_with(part) {
            return true;
        }
    }
    false
}

/// Whether a line begins the report of a stuck order or another report. There is no answer for another line.
fn report_begun(line: &[u8]) -> Option<bool> {
    if line.starts_with(b"== stuck ") {
        Some(true)
    } else if line.starts_with(b"== thread ") {
        Some(false)
    } else {
        None
    }
}

/// Whether the last line of a list counts stuck orders. There is no answer for another line.
fn counted_stuck(line: &[u8]) -> Option<bool> {
    if line.starts_with(b"== outcomes: ") {
        Some(!has_part(line, b", stuck: 0, "))
    } else {
        None
    }
}

impl Notes {
    /// No output yet.
    pub fn new(alloc: Global) -> Notes {
        Notes {
            alloc,
            line: Vec::new(alloc),
            notes: Vec::new(alloc),
            compares: None,
            begins_stuck: None,
            counts_stuck: None,
        }
    }

    /// Whether a stuck order was found. Only lines that no thread can print decide: the count of a list, which is its
    /// last line, and without a list the line before the first report.
    pub fn has_stuck(&self) -> bool {
        match self.counts_stuck {
            Some(counts) => counts,
            None => self.begins_stuck == Some(true),
        }
    }

    /// The findings.
    pub fn notes(&self) -> &[String] {
        self.notes.as_slice()
    }

    /// These notes on standard output, followed by those on standard error if there are none, or if a list is compared.
    pub fn followed_by(self, told: Notes) -> Notes {
        let mut all = self;
        if all.notes.is_empty() || all.compares == Some(true) {
            let Notes { notes, .. } = told;
            'notes: for note in notes {
                all.keep(note);
            }
        }
        all
    }

    /// Keeps a note, if there is memory for it.
    fn keep(&mut self, note: String) {
        if self.notes.len() >= MOST_NOTES {
            let _ = self.notes.remove(0);
        }
        let _ = self.notes.push(note);
    }

    /// The finding that the current line states, if any.
    fn found(&self) -> Option<&[u8]> {
        if self.compares == Some(true) {
            Some(self.line.as_slice())
        } else {
            note_of(self.line.as_slice())
        }
    }

    /// The note of the current line, if it has one.
    fn note(&self) -> Result<Option<String>, AllocError> {
        match self.found() {
            Some(note) => Ok(Some(String::from_utf8_lossy(self.alloc, note)?)),
            None => Ok(None),
        }
    }

    /// Ends the current line.
    fn end_line(&mut self) {
        if self.compares.is_none() {
            self.compares = Some(begins_comparison(self.line.as_slice()));
        }
        if self.begins_stuck.is_none() {
            self.begins_stuck = report_begun(self.line.as_slice());
        }
        self.counts_stuck = counted_stuck(self.line.as_slice());
        if let Ok(Some(note)) = self.note() {
            self.keep(note);
        }
        self.line.clear();
    }

    /// Adds a byte to the output.
    fn take(&mut self, byte: u8) {
        if byte == b'\n' {
            self.end_line();
        } else if self.line.len() < LONGEST {
            let _ = self.line.push(byte);
        }
    }
}

impl Write for Notes {
    fn write(&mut self, buf: &[u8]) -> io::Result<usize> {
        'bytes: for byte in buf {
            self.take(*byte);
        }
        Ok(buf.len())
    }

    fn flush(&mut self) -> io::Result<()> {
        Ok(())
    }
}

impl IsTerminal for Notes {
    fn is_terminal(&self) -> bool {
        false
    }
}
