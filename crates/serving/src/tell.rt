//! Reports on standard error.

ghost use Rattle.std.specs.Prelude.{◌≡◌, ◌≢◌, ◌≤◌, ◌⊎◌, is_some, true};
ghost use Rattle.serving.specs.Refusals.{span_of_source};
ghost use Rattle.std.specs.IoError.{error_kind};
ghost use Rattle.serving.specs.Usage.{IsHelp, IsWrong};

use crate::print::{ENDED, REFUSED, STOPPED, UNUSABLE, print};
use crate::program::SourceFault;
use crate::run::thread_numbered;
use annotations::begin_annotation;
use command::{Format, UsageFault};
use lex::place;
use lex::token::Span;
use meaning::MeaningFault;
use messages::{Fault, hints, json_line, short_line, underline, words, write_quoted, write_shown};
use parameters::Definition;
use replay::ScheduleFault;
use std::alloc::Allocator;
use std::io;
use std::io::{ErrorKind, Write};
use workers::{Finished, RunFault};
use world::{StopReason, WorldFault, WorldStop};

/// How faults are reported.
#[derive(Clone, Copy)]
pub struct Detail<'a> {
    /// Whether the source line follows.
    pub(crate) lines: bool,
    /// Whether the progress of a search is shown.
    pub(crate) progress: bool,
    /// Whether the reason is reported if a file cannot be read.
    reasons: bool,
    /// The name of the source file.
    pub(crate) file: &'a str,
    pub(crate) format: Format,
    /// Whether `txc check` also reports warnings and further faults.
    pub(crate) further: bool,
    /// Whether traces of a search's first findings are shown.
    pub(crate) traces: bool,
    /// The numbers that replace names of the source.
    pub(crate) definitions: &'a [Definition],
}

impl<'a> Detail<'a> {
    /// How faults of a file's program are reported, by the options and by whether standard error is a terminal.
    pub fn of(file: &'a str, verbose: bool, format: Format, is_terminal: bool) -> Detail<'a> {
        Detail {
            lines: match format {
                Format::Plain => verbose || is_terminal,
                Format::Short | Format::Github => verbose,
                Format::Json => false,
            },
            reasons: verbose,
            file,
            format,
            further: match format {
                Format::Plain => is_terminal,
                Format::Short | Format::Json | Format::Github => false,
            },
            progress: match format {
                Format::Plain => is_terminal,
                Format::Short | Format::Json | Format::Github => false,
            },
            traces: match format {
                Format::Plain => is_terminal,
                Format::Short | Format::Json | Format::Github => false,
            },
            definitions: &[],
        }
    }

    /// The same for a source in which these numbers replace names.
    pub(crate) fn defining(mut self, definitions: &'a [Definition]) -> Detail<'a> {
        self.definitions = definitions;
        self
    }

    /// How faults of another file's program are reported.
    pub(crate) fn of_file<'b>(self, file: &'b str) -> Detail<'b> {
        Detail {
            lines: self.lines,
            reasons: self.reasons,
            file,
            format: self.format,
            further: self.further,
            progress: self.progress,
            traces: self.traces,
            definitions: &[],
        }
    }
}

/// Reports faults of a file's program and the progress of a search, as its detail says. A report that has only one form
/// takes the writer itself. Text that the writer does not take is lost.
#[derive(Drop)]
pub struct Teller<'a, E: Write> {
    /// The writer for reports.
    pub(crate) err: &'a mut E,
    /// The detail of the reports.
    pub(crate) detail: Detail<'a>,
}

impl<'a, E: Write> Teller<'a, E> {
    /// Reports to this writer, with this detail.
    pub fn new(err: &'a mut E, detail: Detail<'a>) -> Teller<'a, E> {
        Teller { err, detail }
    }
}

impl<E: Write> Teller<'_, E> {
    /// Shows traces of a search's first findings if they are wanted.
    pub(crate) fn show_traces(&mut self, are_wanted: bool) {
        if are_wanted {
            self.detail.traces = true;
        }
    }

    /// Reports why a source is refused.
    pub(crate) fn refuse<A: Allocator + Copy>(
        &mut self,
        alloc: A,
        text: &str,
        fault: SourceFault,
    ) -> u8
        ensures within { result ≤ 4 }
        ensures not_ended { result ≢ 0 }
        ensures not_unusable { result ≢ 2 }
        ensures not_trapped { result ≢ 3 }
        ensures refused { result ≡ 1 → is_some (span_of_source fault) ≡ true }
    {
        let number = fault.number();
        match fault.span() {
            Some(span) => {
                self.tell_with_line(alloc, text, number, span);
                REFUSED
            }
            None => out_of_memory(self.err),
        }
    }

    /// Reports the fault of this number at a span of the source, and shows the source line if lines are wanted.
    pub(crate) fn tell_with_line<A: Allocator + Copy>(
        &mut self,
        alloc: A,
        text: &str,
        number: u32,
        span: Span,
    ) {
        self.tell_fault(alloc, text, number, span);
        if self.detail.lines {
            show_line(alloc, text, span, self.err);
            show_hints(alloc, text, number, span, self.err);
            show_where_more(number, self.err);
        }
    }

    /// Reports the fault of this number at a span of the source. After an allocation failure, the plain form replaces
    /// any other form.
    fn tell_fault<A: Allocator + Copy>(&mut self, alloc: A, text: &str, number: u32, span: Span) {
        if let Some(line) = line_of(alloc, text, number, span, self.detail) {
            let _ = self.err.write_all(line.as_slice());
        } else if self.detail.format == Format::Github {
            let (line, column) = place(text, span.start.min(text.len()));
            let _ = begin_annotation("error", self.detail.file, self.err);
            let _ = writeln!(
                self.err,
                ",line={line},col={column},title=fault {number:02}::{}",
                words(number)
            );
        } else {
            let (line, column) = place(text, span.start.min(text.len()));
            let _ = writeln!(
                self.err,
                "txc: fault {number:02} at {line}:{column}: {}",
                words(number)
            );
        }
    }

    /// Reports what a fault's number means, if that is wanted, and where to read more.
    fn show_words(&mut self, number: u32) {
        if self.detail.lines {
            let _ = writeln!(self.err, "{}", words(number));
            show_where_more(number, self.err);
        }
    }

    /// Reports that a file cannot be read, and the reason if that is wanted.
    fn cannot_read(&mut self, file: &str, error: &io::Error) -> u8
        ensures { result ≡ 2 }
    {
        match self.detail.format {
            Format::Plain => {
                let _ = self.err.write_all(b"txc: cannot read ");
                let _ = write_shown(file, "", self.err);
                let _ = if self.detail.reasons {
                    writeln!(self.err, " ({error})")
                } else {
                    writeln!(self.err)
                };
            }
            Format::Short | Format::Json | Format::Github => {
                self.tell_of_file(file, "cannot be read");
            }
        }
        UNUSABLE
    }

    /// Reports why a file cannot be used, in a format for editors.
    fn tell_of_file(&mut self, file: &str, what: &str) {
        if self.detail.format == Format::Json {
            let _ = self.err.write_all(b"{\"file\":");
            let _ = write_quoted(file, self.err);
            let _ = writeln!(self.err, ",\"message\":\"{what}\"}}");
        } else {
            let _ = write_shown(file, "", self.err);
            let _ = writeln!(self.err, ": error: {what}");
        }
    }

    /// Reports that a file's text is not UTF-8.
    pub(crate) fn not_text(&mut self, file: &str) -> u8
        ensures { result ≡ 2 }
    {
        self.unfit(file, "is not UTF-8")
    }

    /// Reports why the contents of a file cannot be used.
    pub(crate) fn unfit(&mut self, file: &str, what: &str) -> u8
        ensures { result ≡ 2 }
    {
        match self.detail.format {
            Format::Plain => {
                let _ = self.err.write_all(b"txc: ");
                let _ = write_shown(file, "", self.err);
                let _ = writeln!(self.err, " {what}");
            }
            Format::Short | Format::Json | Format::Github => {
                self.tell_of_file(file, what);
            }
        }
        UNUSABLE
    }

    /// Reports why a file was not opened or read: an allocation failed, or the file cannot be read.
    pub fn not_read(&mut self, file: &str, error: &io::Error) -> u8
        ensures status { (result ≡ 2) ⊎ (result ≡ 4) }
        ensures memory { error_kind error.now ≡ ErrorKind.OutOfMemory → result ≡ 4 }
        ensures others { error_kind error.now ≢ ErrorKind.OutOfMemory → result ≡ 2 }
    {
        match error.kind() {
            ErrorKind::OutOfMemory => out_of_memory(self.err),
            _ => self.cannot_read(file, error),
        }
    }

    /// Reports that a source has too many bytes.
    pub(crate) fn too_long<A: Allocator + Copy>(&mut self, alloc: A) -> u8
        ensures { result ≡ 1 }
    {
        let span = Span { start: 0, end: 0 };
        self.tell_fault(alloc, "", 5, span);
        if self.detail.lines {
            show_hints(alloc, "", 5, span, self.err);
            show_where_more(5, self.err);
        }
        REFUSED
    }

    /// Reports why threads were not run.
    pub fn refuse_run(&mut self, fault: RunFault) -> u8
        ensures { result ≡ 4 }
    {
        match fault {
            RunFault::OutOfMemory => out_of_memory(self.err),
            RunFault::Threads | RunFault::NotStarted => self.tell_number(fault.number(), STOPPED),
        }
    }

    /// Reports that a step was not made because its thread does not exist. The replay's report shows the other reasons.
    pub(crate) fn refuse_step(&mut self, stop: WorldStop) -> u8
        ensures { result ≡ 4 }
    {
        if stop.reason == StopReason::Stranger {
            let _ = writeln!(
                self.err,
                "txc: fault {} at step {}",
                stop.number(),
                stop.step
            );
            self.show_words(stop.number());
        }
        STOPPED
    }

    /// Reports why a schedule is refused.
    pub(crate) fn refuse_schedule<A: Allocator + Copy>(
        &mut self,
        alloc: A,
        text: &str,
        fault: ScheduleFault,
    ) -> u8
        ensures { (result ≡ 2) ⊎ (result ≡ 4) }
    {
        match fault {
            ScheduleFault::OutOfMemory => return out_of_memory(self.err),
            ScheduleFault::BadLine(line) => {
                let _ = writeln!(self.err, "txc: fault {} at line {line}", fault.number());
                if self.detail.lines {
                    show_line(alloc, text, span_of_line(text.as_bytes(), line), self.err);
                }
            }
            ScheduleFault::TooLong => {
                let _ = writeln!(self.err, "txc: fault {}", fault.number());
            }
        }
        self.show_words(fault.number());
        UNUSABLE
    }

    /// Reports why an order is refused.
    pub(crate) fn refuse_order(&mut self, fault: MeaningFault) -> u8
        ensures status { (result ≡ 2) ⊎ (result ≡ 4) }
        ensures memory { fault ≡ MeaningFault.OutOfMemory → result ≡ 4 }
        ensures stranger { fault ≡ MeaningFault.Stranger → result ≡ 2 }
        ensures threads { fault ≡ MeaningFault.WrongThreads → result ≡ 4 }
    {
        match fault {
            MeaningFault::OutOfMemory => out_of_memory(self.err),
            MeaningFault::Stranger => self.tell_number(fault.number(), UNUSABLE),
            MeaningFault::WrongThreads => self.tell_number(fault.number(), STOPPED),
        }
    }

    /// Reports the number of a fault that has no place in a file, and returns this exit status.
    fn tell_number(&mut self, number: u32, status: u8) -> u8
        ensures { result ≡ status }
    {
        let _ = writeln!(self.err, "txc: fault {number}");
        self.show_words(number);
        status
    }
}

/// Prints help, or reports why words are not a request. Returns the exit status.
pub fn tell_usage<W: Write, E: Write>(fault: &UsageFault, out: &mut W, err: &mut E) -> u8
    ensures status { result ≤ 4 }
    ensures help { IsHelp fault.now → (result ≡ 0) ⊎ (result ≡ 4) }
    ensures wrong { IsWrong fault.now → result ≡ 2 }
    ensures memory { fault.now ≡ UsageFault.OutOfMemory → result ≡ 4 }
    ensures untouched { IsHelp fault.now ⊎ (W.contents out.new ≡ W.contents out.old) }
{
    match fault {
        UsageFault::OutOfMemory => out_of_memory(err),
        UsageFault::Help { text } => match print(text.as_str().as_bytes(), out) {
            Ok(()) => ENDED,
            Err(_) => cannot_write(err),
        },
        UsageFault::Wrong { text } => {
            let _ = write_shown(text.as_str(), "\n\t", err);
            UNUSABLE
        }
    }
}

/// The line that reports a fault in a form other than the plain one.
fn line_of<A: Allocator + Copy>(
    alloc: A,
    text: &str,
    number: u32,
    span: Span,
    detail: Detail<'_>,
) -> Option<Vec<u8, A>> {
    let fault = Fault {
        file: detail.file,
        text,
        number,
        span,
    };
    match detail.format {
        Format::Plain | Format::Github => None,
        Format::Short => short_line(alloc, fault).ok(),
        Format::Json => json_line(alloc, fault).ok(),
    }
}

/// Shows the source line in which a span begins, with carets under the span. After an allocation failure, it shows
/// nothing.
pub(crate) fn show_line<A: Allocator + Copy, E: Write>(
    alloc: A,
    text: &str,
    span: Span,
    err: &mut E,
) {
    if let Ok(shown) = underline(alloc, text, span) {
        let _ = err.write_all(shown.as_str().as_bytes());
    }
}

/// Shows what could be at the place of a fault, or what is meant there. Shows nothing after an allocation failure.
fn show_hints<A: Allocator + Copy, E: Write>(
    alloc: A,
    text: &str,
    number: u32,
    span: Span,
    err: &mut E,
) {
    if let Ok(shown) = hints(alloc, text, number, span) {
        let _ = err.write_all(shown.as_str().as_bytes());
    }
}

/// Reports where to read more about a fault.
fn show_where_more<E: Write>(number: u32, err: &mut E) {
    let _ = writeln!(err, "txc explain {number:02} says more");
}

/// Reports an allocation failure.
pub(crate) fn out_of_memory<E: Write>(err: &mut E) -> u8
    ensures { result ≡ 4 }
{
    let _ = writeln!(err, "txc: out of memory");
    STOPPED
}

/// Reports that the output could not be written.
pub(crate) fn cannot_write<E: Write>(err: &mut E) -> u8
    ensures { result ≡ 4 }
{
    let _ = writeln!(err, "txc: cannot write");
    STOPPED
}

/// Reports why the words of the command line could not be read: an allocation failed, or a word is not UTF-8.
pub fn unread_words<E: Write>(kind: ErrorKind, err: &mut E) -> u8
    ensures memory { kind ≡ ErrorKind.OutOfMemory → result ≡ 4 }
    ensures others { kind ≢ ErrorKind.OutOfMemory → result ≡ 2 }
{
    match kind {
        ErrorKind::OutOfMemory => out_of_memory(err),
        _ => {
            let _ = writeln!(err, "txc: a word is not UTF-8");
            UNUSABLE
        }
    }
}

/// Reports the counts of each of this many threads, if they are wanted.
pub(crate) fn tell_counts<E: Write>(
    are_wanted: bool,
    threads: u32,
    finished: &[Finished],
    err: &mut E,
) {
    if !are_wanted {
        return;
    }
    let _ = writeln!(err, "== counts");
    'threads: for number in 0..threads {
        if let Some(thread) = thread_numbered(finished, number) {
            let tally = thread.tally();
            let _ = writeln!(
                err,
                "thread {number}: steps {}, accesses {}, transactions {}, drops {}, retries {}",
                thread.steps(),
                thread.accesses(),
                tally.begun.saturating_sub(tally.dropped),
                tally.dropped,
                tally.retried
            );
        }
    }
}

/// Reports why nothing was replayed.
pub(crate) fn refuse_replay<E: Write>(fault: WorldFault, err: &mut E) -> u8
    ensures { result ≡ 4 }
{
    match fault {
        WorldFault::OutOfMemory => out_of_memory(err),
        WorldFault::WrongThreads => {
            let _ = writeln!(err, "txc: fault {}", fault.number());
            STOPPED
        }
    }
}

/// The span of the line with this number in a text, or of its last line.
fn span_of_line(text: &[u8], line: usize) -> Span {
    let mut start = 0;
    let mut left = line;
    'bytes: for at in 0..text.len() {
        if text[at] == b'\n' {
            if left <= 1 {
                return Span { start, end: at };
            }
            left -= 1;
            start = at + 1;
        }
    }
    Span {
        start,
        end: text.len(),
    }
}

/// Reports why words are unusable.
pub(crate) fn unusable<E: Write>(why: &str, err: &mut E) -> u8
    ensures { result ≡ 2 }
{
    let _ = writeln!(err, "txc: usage: {why}");
    UNUSABLE
}
