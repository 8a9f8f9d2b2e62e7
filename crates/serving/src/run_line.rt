//! The progress of the threads of a run, in one line of standard error, and whether memory remains.

use std::io::Write;
use std::sync::Mutex;
use workers::Gate;

/// The line is rewritten each time a thread has made this many further steps: about a tenth of a second.
const STRIDE: u64 = 16_777_216;

/// The most copies of a thread's output and log at one time: a full list is copied to a place that has twice the
/// room.
const COPIES: u64 = 3;

/// The line.
#[derive(Drop)]
struct RunLine<'e, E: Write> {
    err: &'e mut E,
    budget: u64,
    /// The number of a thread's steps at which the line is rewritten next.
    due: u64,
    is_shown: bool,
}

impl<E: Write> RunLine<'_, E> {
    /// Shows that a thread has made this many steps.
    fn tell(&mut self, steps: u64) {
        if steps < self.due {
            return;
        }
        self.due = steps.saturating_add(STRIDE);
        self.is_shown = true;
        let budget = self.budget;
        let end = if steps > budget / 4 * 3 {
            ", where it stops (--budget)"
        } else {
            ""
        };
        let _ = write!(
            self.err,
            "\rtxc: a thread has made {steps} of {budget} steps{end}"
        );
        let _ = self.err.flush();
    }

    /// Clears the line.
    fn clear(&mut self) {
        if self.is_shown {
            self.is_shown = false;
            let _ = write!(self.err, "\r{:79}\r", "");
        }
    }
}

/// Lets every thread run, shows their progress, and reports whether a thread has memory for more.
#[derive(Drop)]
pub(crate) struct RunWatch<'e, E: Write> {
    line: Mutex<RunLine<'e, E>>,
    /// Whether the line is shown.
    is_wanted: bool,
    /// How many bytes each thread may take.
    share: u64,
}

impl<'e, E: Write> RunWatch<'e, E> {
    /// No line yet, and an equal share of this many bytes for each of this many threads.
    pub(crate) fn new(
        err: &'e mut E,
        is_wanted: bool,
        budget: u64,
        memory: u64,
        threads: u32,
    ) -> RunWatch<'e, E> {
        let line = RunLine {
            err,
            budget,
            due: STRIDE,
            is_shown: false,
        };
        RunWatch {
            line: Mutex::new(line),
            is_wanted,
            share: memory / u64::from(threads.max(1)),
        }
    }

    /// Clears the line.
    pub(crate) fn clear(self) {
        let RunWatch { line, .. } = self;
        let mut line = line.into_inner();
        line.clear();
    }
}

impl<E: Write + Send> Gate for RunWatch<'_, E> {
    const HOLDS: bool = false;

    fn hold(&self, _thread: u32, _accesses: u64) -> bool {
        false
    }

    fn ended(&self, _thread: u32) {}

    fn has_room(&self, _thread: u32, steps: u64, bytes: u64) -> bool {
        if self.is_wanted {
            if let Some(mut guard) = self.line.try_lock() {
                guard.tell(steps);
            }
        }
        bytes.saturating_mul(COPIES) <= self.share
    }
}
