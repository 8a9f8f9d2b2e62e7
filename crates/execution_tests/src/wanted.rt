//! What reports are to be.

use machine::Event;
use world::{Report, StopReason, WorldEnd};

/// A report: its events, its threads' ends and outputs, the words, who has the lock, and the step that was not made.
#[derive(Clone, Copy)]
pub struct Wanted<'a> {
    pub events: &'a [(u64, u32, Event)],
    pub threads: &'a [(WorldEnd, &'a str)],
    pub words: &'a [u64],
    pub holder: Option<u32>,
    pub stop: Option<(u64, StopReason)>,
}

/// Whether a thread is found so, with this output.
fn shows(report: &Report, t: usize, end: WorldEnd, text: &str) -> bool {
    match report.threads.as_slice().get(t) {
        Some(found) => found.0 == end && found.1.as_str() == text,
        None => false,
    }
}

/// Whether the threads are found so.
fn show(report: &Report, threads: &[(WorldEnd, &str)]) -> bool {
    for t in 0..threads.len() {
        let (end, text) = threads[t];
        if !shows(report, t, end, text) {
            return false;
        }
    }
    report.threads.len() == threads.len()
}

fn stops(report: &Report, wanted: Option<(u64, StopReason)>) -> bool {
    match report.stop {
        Some(stop) => wanted == Some((stop.step, stop.reason)),
        None => wanted.is_none(),
    }
}

/// Whether a report is as wanted.
pub fn is_as(report: &Report, wanted: &Wanted) -> bool {
    if report.events.as_slice() != wanted.events || report.words.as_slice() != wanted.words {
        return false;
    }
    report.holder == wanted.holder && stops(report, wanted.stop) && show(report, wanted.threads)
}
