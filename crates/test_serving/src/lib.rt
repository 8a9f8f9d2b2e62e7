//! Test support: the answers to command lines, over readers and writers in memory.
#![tactic(auto)]

use command::{Asked, Request, UsageFault, command};
use serving::serve;
use std::alloc::Global;
use std::io;
use std::io::{ErrorKind, Read};
use std::sync::Wait;
use std::thread::Threads;

/// Two threads that each add one.
pub const ADDS: &[u8] = b"int x; void worker(int self) { __transaction_atomic { x = x + 1; } }";

/// The result of serving a request: the status, the output and the standard error.
#[derive(Drop)]
pub struct Served {
    pub status: u8,
    pub out: Vec<u8>,
    pub err: Vec<u8>,
}

/// An answer: the status, the output and the standard error.
pub type ServeResult<'a> = (u8, &'a [u8], &'a [u8]);

/// A command line, the source and the other file that it reads, and the answer.
pub type Row = (
    &'static str,
    &'static [u8],
    &'static [u8],
    ServeResult<'static>,
);

/// Whether a request was served with this answer.
pub fn is_answer(served: &Served, wanted: ServeResult) -> bool {
    served.status == wanted.0
        && served.out.as_slice() == wanted.1
        && served.err.as_slice() == wanted.2
}

/// The request of a command line, in which a space ends each word but the last.
pub fn asked_of(alloc: Global, line: &str) -> Result<Asked, UsageFault> {
    let words: Vec<&str> = line.split(' ').collect(alloc)?;
    command(alloc, words.as_slice())
}

/// The request of a command line, without its numbers for names.
pub fn request_of(alloc: Global, line: &str) -> Result<Request, UsageFault> {
    let Asked { request, .. } = asked_of(alloc, line)?;
    Ok(request)
}

/// Serves a request, to a terminal or not.
pub fn serve_bytes<H: Threads + Wait + Sync, R: Read + Drop, S: Read + Drop>(
    rt: &H,
    alloc: Global,
    request: &Request,
    source: R,
    schedule: S,
    is_terminal: bool,
) -> Served {
    let report = b"".as_slice();
    serve_claim(rt, alloc, request, source, schedule, report, is_terminal)
}

/// Serves a request that may have a report, to a terminal or not.
pub fn serve_claim<H: Threads + Wait + Sync, R: Read + Drop, S: Read + Drop, Q: Read + Drop>(
    rt: &H,
    alloc: Global,
    request: &Request,
    source: R,
    schedule: S,
    report: Q,
    is_terminal: bool,
) -> Served {
    let mut out = Vec::new(alloc);
    let mut err = Vec::new(alloc);
    let status = serve(
        rt,
        alloc,
        request,
        source,
        schedule,
        report,
        &mut out,
        &mut err,
        is_terminal,
    );
    Served { status, out, err }
}

/// Serves a command line, on a terminal or not. The other file is a schedule, or the one with which outcomes are
/// compared.
pub fn serve_line<H: Threads + Wait + Sync>(
    rt: &H,
    alloc: Global,
    line: &str,
    source: &[u8],
    other: &[u8],
    is_terminal: bool,
) -> Option<Served> {
    match request_of(alloc, line) {
        Ok(request) => Some(serve_claim(rt, alloc, &request, source, other, other, is_terminal)),
        Err(_) => None,
    }
}

/// Whether a command line has this answer.
pub fn answers<H: Threads + Wait + Sync>(
    rt: &H,
    alloc: Global,
    line: &str,
    source: &[u8],
    schedule: &[u8],
    is_terminal: bool,
    wanted: ServeResult,
) -> bool {
    match serve_line(rt, alloc, line, source, schedule, is_terminal) {
        Some(served) => is_answer(&served, wanted),
        None => false,
    }
}

/// A row with another answer than expected: its number, counted from 0, its command line, its answer, and the expected
/// one. There is no answer if the words are wrong.
#[derive(Debug, Drop, PartialEq)]
pub struct WrongRow {
    pub number: usize,
    pub line: &'static str,
    pub answered: Option<String>,
    pub wanted: Option<String>,
}

/// An answer in a line of text, unless an allocation failed.
fn answer_text(alloc: Global, answer: ServeResult) -> Option<String> {
    let (status, out, err) = answer;
    let out = String::from_utf8_lossy(alloc, out).ok()?;
    let err = String::from_utf8_lossy(alloc, err).ok()?;
    let text = format!(in alloc;
        "status {status}, output {:?}, errors {:?}",
        out.as_str(),
        err.as_str()
    );
    text.ok()
}

/// The result of serving, in a line of text.
fn served_shown(alloc: Global, served: Option<Served>) -> Option<String> {
    match served {
        Some(served) => answer_text(
            alloc,
            (served.status, served.out.as_slice(), served.err.as_slice()),
        ),
        None => None,
    }
}

/// The first of these rows with another answer than expected.
pub fn wrong_row<H: Threads + Wait + Sync>(
    rt: &H,
    alloc: Global,
    rows: &[Row],
) -> Option<WrongRow> {
    for (number, (line, source, schedule, wanted)) in rows.iter().enumerate() {
        match serve_line(rt, alloc, line, source, schedule, false) {
            Some(served) if is_answer(&served, *wanted) => {}
            served => {
                return Some(WrongRow {
                    number,
                    line: *line,
                    answered: served_shown(alloc, served),
                    wanted: answer_text(alloc, *wanted),
                });
            }
        }
    }
    None
}

/// A reader that returns no bytes.
#[derive(Drop)]
pub struct Broken;

impl Read for Broken {
    fn read(&mut self, _buf: &mut [u8]) -> io::Result<usize> {
        Err(io::Error::from(ErrorKind::PermissionDenied))
    }
}
