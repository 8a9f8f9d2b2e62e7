//! Reports of every kind, and each growth refused once.

use crate::asserted::{assert_all, assert_that};
use containers::{Items, Text};
use lex::token::Scalar;
use machine::Event;
use report::{End, Printed, Shown, ThreadShown, report_text};
use std::alloc::{AllocError, Allocator, Global};
use syntax::thread_end::Trap;
use test_memory::{Refusing, growths};

/// How a thread ends, and what it has printed.
type Thread = (End, &'static [u8]);

/// What is shown of a thread.
fn thread<A: Allocator>(alloc: A, row: &Thread) -> Result<ThreadShown<A>, AllocError> {
    let text = Items::from_vec(Vec::from_slice(alloc, row.1)?);
    Ok(ThreadShown { end: row.0, text })
}

/// What is shown of threads.
fn threads<A: Allocator + Copy>(
    alloc: A,
    rows: &[Thread],
) -> Result<Items<ThreadShown<A>, A>, AllocError> {
    let mut threads = Items::new(alloc);
    for row in rows {
        threads.push(thread(alloc, row)?)?;
    }
    Ok(threads)
}

/// A global's name, the type of its cells, and a word for each of them.
type Words = (&'static str, Scalar, &'static [u64]);

/// What is shown of a global.
fn global<A: Allocator + Copy>(alloc: A, row: &Words) -> Result<Shown<A>, AllocError> {
    let words = Items::from_vec(Vec::from_slice(alloc, row.2)?);
    Ok(Shown {
        name: Text::from_str(alloc, row.0)?,
        ty: row.1,
        words,
    })
}

/// What is shown of globals.
fn globals<A: Allocator + Copy>(
    alloc: A,
    rows: &[Words],
) -> Result<Items<Shown<A>, A>, AllocError> {
    let mut globals = Items::new(alloc);
    for row in rows {
        globals.push(global(alloc, row)?)?;
    }
    Ok(globals)
}

const EVENTS: [(u64, u32, Event); 5] = [
    (7, 0, Event::Commit),
    (8, 1, Event::Quiet),
    (13, 1, Event::Abort),
    (13, 1, Event::Cancel),
    (19, 1, Event::Trap(Trap::ShiftCount)),
];

const THREADS: [Thread; 2] = [
    (End::Running, b"one\ntwo"),
    (End::Trapped(Trap::ShiftCount), b"go\n"),
];

const GLOBALS: [Words; 3] = [
    ("a", Scalar::Unsigned, &[1, 4294967295]),
    ("b", Scalar::Int, &[4294967295]),
    (
        "c",
        Scalar::LongLong,
        &[
            18446744073709551615,
            4294967295,
            9223372036854775807,
            9223372036854775808,
        ],
    ),
];

/// A replay of two threads, with globals of each type.
fn replay_of<A: Allocator + Copy>(alloc: A, holder: Option<u32>) -> Result<Printed<A>, AllocError> {
    let events = Items::from_vec(Vec::from_slice(alloc, EVENTS.as_slice())?);
    let threads = threads(alloc, THREADS.as_slice())?;
    Ok(Printed {
        events: Some(events),
        threads,
        globals: globals(alloc, GLOBALS.as_slice())?,
        holder,
    })
}

/// Whether this was made, and its report is this text.
fn is_reported(alloc: Global, printed: Result<Printed<Global>, AllocError>, wanted: &[u8]) -> bool {
    match printed {
        Ok(printed) => is_text(report_text(alloc, &printed), wanted),
        Err(_) => false,
    }
}

fn is_text(text: Result<Vec<u8>, AllocError>, wanted: &[u8]) -> bool {
    match text {
        Ok(text) => text.as_slice() == wanted,
        Err(_) => false,
    }
}

const REPLAYED: &[u8] =
    b"== events\n7 0 commit\n13 1 abort\n13 1 cancel\n19 1 trap 5\n== thread 0: running\none\ntwo\n== thread 1: trap 5\ngo\n== memory\na = 1 4294967295\nb = -1\nc = -1 4294967295 9223372036854775807 -9223372036854775808\n";

const HELD: &[u8] =
    b"== events\n7 0 commit\n13 1 abort\n13 1 cancel\n19 1 trap 5\n== thread 0: running\none\ntwo\n== thread 1: trap 5\ngo\n== memory: lock held by thread 1\n";

#[test]
fn shows_a_replay(rt: HostRuntime) {
    let free = is_reported(rt.alloc(), replay_of(rt.alloc(), None), REPLAYED);
    let held = is_reported(rt.alloc(), replay_of(rt.alloc(), Some(1)), HELD);
    assert_all(&rt, &[("free", free), ("held", held)]);
}

const ENDS: [Thread; 6] = [
    (End::Ended, b""),
    (End::OutOfMemory, b""),
    (End::SequenceUsedUp, b""),
    (End::Budget, b""),
    (End::Waits, b""),
    (End::Spent, b""),
];

/// A thread with each of these ends.
fn ends(alloc: Global) -> Result<Printed<Global>, AllocError> {
    let threads = threads(alloc, ENDS.as_slice())?;
    Ok(Printed {
        events: None,
        threads,
        globals: Items::new(alloc),
        holder: None,
    })
}

const REPORTED_ENDS: &[u8] =
    b"== thread 0: ended\n== thread 1: stop 00\n== thread 2: stop 70\n== thread 3: budget\n== thread 4: waits\n== thread 5: spent\n== memory\n";

#[test]
fn shows_each_end(rt: HostRuntime) {
    let told = is_reported(rt.alloc(), ends(rt.alloc()), REPORTED_ENDS);
    assert_that(&rt, told);
}

/// Whether the replay's report is shown where its growth `nth` is not met, and else that is told.
fn tells(alloc: &Refusing<Global>, nth: u64) -> bool {
    match replay_of(alloc, None) {
        Ok(printed) => {
            alloc.refuse(nth);
            match report_text(alloc, &printed) {
                Ok(text) => alloc.is_waiting() && text.as_slice() == REPLAYED,
                Err(_) => !alloc.is_waiting(),
            }
        }
        Err(_) => false,
    }
}

#[test]
fn each_growth_is_refused_once(rt: HostRuntime) {
    assert_that(&rt, growths(rt.alloc(), 50, tells).ok() > Some(0));
}
