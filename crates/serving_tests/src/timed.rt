//! Tests of the seconds at the end of a progress line.

use crate::all_orders::MANY;
use command::Format;
use report::WalkEnd;
use serving::{Detail, Teller, Timed, list_outcomes};
use std::alloc::Global;
use std::cell::Cell;
use std::io;
use std::io::ErrorKind;
use std::time::{Clock, Duration};

/// A clock that advances by some seconds each time it is read.
#[derive(Drop)]
struct Ticking {
    now: Cell<u64>,
    step: u64,
}

impl Clock for Ticking {
    fn monotonic(&self) -> io::Result<Duration> {
        let now = self.now.get();
        self.now.set(now.saturating_add(self.step));
        Ok(Duration::from_secs(now))
    }

    fn since_1970(&self) -> io::Result<Duration> {
        self.monotonic()
    }
}

/// A clock that can't be read.
#[derive(Drop)]
struct Broken;

impl Clock for Broken {
    fn monotonic(&self) -> io::Result<Duration> {
        Err(io::Error::from(ErrorKind::Unsupported))
    }

    fn since_1970(&self) -> io::Result<Duration> {
        self.monotonic()
    }
}

/// Whether this is the progress of a search with 1,000 to 2,000 states, before the line is cleared.
fn is_told<C: Clock>(alloc: Global, clock: &C, line: &[u8]) -> bool {
    let mut told = Vec::new(alloc);
    let mut timed = Timed::new(&mut told, clock, None);
    let detail = Detail::of("a.c", false, Format::Plain, true);
    let mut teller = Teller::new(&mut timed, detail);
    let found = list_outcomes(alloc, MANY, 2, 100000, 10000, u64::MAX, &mut teller);
    found.is_ok()
        && match told.as_slice().strip_prefix(line) {
            Some(rest) => rest == line_cleared(),
            None => false,
        }
}

/// The text that clears a line.
fn line_cleared() -> &'static [u8] {
    b"\r                                                                               \r"
}

#[test]
fn seconds_are_told(rt: HostRuntime) {
    let ticking = Ticking {
        now: Cell::new(70),
        step: 12,
    };
    assert!(rt;
        is_told(
            rt.alloc(),
            &ticking,
            b"\rtxc: 1000 states, 18 to expand, 12 s, 83/s"
        )
    );
}

#[test]
fn no_second_is_told_before_one_has_passed(rt: HostRuntime) {
    let stopped = Ticking {
        now: Cell::new(70),
        step: 0,
    };
    assert!(rt; is_told(rt.alloc(), &stopped, b"\rtxc: 1000 states, 18 to expand"));
}

#[test]
fn no_seconds_are_told_without_a_clock(rt: HostRuntime) {
    assert!(rt; is_told(rt.alloc(), &Broken, b"\rtxc: 1000 states, 18 to expand"));
}

/// How many states a search of this many seconds finds, how many outcomes are listed, and how it ends.
fn found_within<C: Clock>(alloc: Global, clock: &C, seconds: u32) -> Option<(u64, usize, WalkEnd)> {
    let mut told = Vec::new(alloc);
    let mut timed = Timed::new(&mut told, clock, Some(seconds));
    let detail = Detail::of("a.c", false, Format::Plain, false);
    let mut teller = Teller::new(&mut timed, detail);
    match list_outcomes(alloc, MANY, 2, 100000, 10000, u64::MAX, &mut teller) {
        Ok(found) => Some((found.states, found.outcomes.len(), found.end)),
        Err(_) => None,
    }
}

/// A search is stopped once its seconds have passed, and the outcomes of the states that it found are listed.
#[test]
fn a_search_has_a_time_limit(rt: HostRuntime) {
    let each_second = Ticking {
        now: Cell::new(70),
        step: 1,
    };
    let found = found_within(rt.alloc(), &each_second, 150);
    assert!(rt; found == Some((189, 1, WalkEnd::AtTime)));
    let few = Ticking {
        now: Cell::new(70),
        step: 0,
    };
    let found = found_within(rt.alloc(), &few, 1);
    assert!(rt; found == Some((1681, 1, WalkEnd::Whole)));
}

/// Without a clock, no time passes.
#[test]
fn a_search_ends_without_a_clock(rt: HostRuntime) {
    let found = found_within(rt.alloc(), &Broken, 1);
    assert!(rt; found == Some((1681, 1, WalkEnd::Whole)));
}
