//! Schedules that are read, and those that are not.

use crate::asserted::{assert_all, assert_none, assert_that};
use replay::{Line, ScheduleFault, read_schedule, seeded, write_schedule};
use std::alloc::{Allocator, Global};
use test_memory::Refusing;

/// Whether a text is read as these lines.
fn is_read_as(alloc: Global, text: &str, lines: &[Line]) -> bool {
    match read_schedule(alloc, text) {
        Ok(found) => found.as_slice() == lines,
        Err(_) => false,
    }
}

/// What a text is read as: its first line, and how many there are.
fn first(alloc: Global, text: &str) -> Option<(Option<Line>, usize)> {
    match read_schedule(alloc, text) {
        Ok(found) => Some((found.first().copied(), found.len())),
        Err(_) => None,
    }
}

/// A text, the first line that it is read as, and how many there are.
type Row = (&'static str, Option<Line>, usize);

fn texts() -> &'static [Row] {
    static ROWS: [Row; 6] = [
        (
            "0 1000",
            Some(Line {
                thread: 0,
                count: 1000,
                accesses: false,
            }),
            1,
        ),
        (
            "  3   a7  \r\n\n 1 1\n   \n",
            Some(Line {
                thread: 3,
                count: 7,
                accesses: true,
            }),
            2,
        ),
        (
            "007 00000000000000012",
            Some(Line {
                thread: 7,
                count: 12,
                accesses: false,
            }),
            1,
        ),
        (
            "4294967295 0\n0 1048576",
            Some(Line {
                thread: 4294967295,
                count: 0,
                accesses: false,
            }),
            2,
        ),
        ("", None, 0),
        (" \r\n\n", None, 0),
    ];
    &ROWS
}

/// The first of these texts that is read otherwise.
fn read_otherwise(alloc: Global, rows: &[Row]) -> Option<&'static str> {
    for row in rows {
        if first(alloc, row.0) != Some((row.1, row.2)) {
            return Some(row.0);
        }
    }
    None
}

#[test]
fn lines_are_read(rt: HostRuntime) {
    assert_none(&rt, read_otherwise(rt.alloc(), texts()));
}

/// A text, and its fault.
type Fault = (&'static str, ScheduleFault);

fn faults() -> &'static [Fault] {
    static ROWS: [Fault; 23] = [
        ("0 x", ScheduleFault::BadLine(1)),
        ("0", ScheduleFault::BadLine(1)),
        ("x 1", ScheduleFault::BadLine(1)),
        ("0 1 2", ScheduleFault::BadLine(1)),
        ("-1 1", ScheduleFault::BadLine(1)),
        ("+1 1", ScheduleFault::BadLine(1)),
        ("0 -1", ScheduleFault::BadLine(1)),
        ("0 +1", ScheduleFault::BadLine(1)),
        ("0\t1", ScheduleFault::BadLine(1)),
        ("0 a", ScheduleFault::BadLine(1)),
        ("0 a 1", ScheduleFault::BadLine(1)),
        ("0a1", ScheduleFault::BadLine(1)),
        ("0 aa1", ScheduleFault::BadLine(1)),
        ("0 1a", ScheduleFault::BadLine(1)),
        ("a1", ScheduleFault::BadLine(1)),
        ("4294967296 1", ScheduleFault::BadLine(1)),
        ("0 4294967296", ScheduleFault::BadLine(1)),
        ("0 1\r", ScheduleFault::BadLine(1)),
        ("0 1;", ScheduleFault::BadLine(1)),
        ("0 1\n\n1 1\n7\n0 x", ScheduleFault::BadLine(4)),
        ("0 1048576\n0 1\n0 x", ScheduleFault::TooLong),
        ("0 x\n0 1048577", ScheduleFault::BadLine(1)),
        ("0 a1048576\n0 a1", ScheduleFault::TooLong),
    ];
    &ROWS
}

/// The first of these texts that has another fault, or none.
fn faulty_otherwise(alloc: Global, rows: &[Fault]) -> Option<&'static str> {
    for row in rows {
        if read_schedule(alloc, row.0).err() != Some(row.1) {
            return Some(row.0);
        }
    }
    None
}

#[test]
fn bad_lines_are_told(rt: HostRuntime) {
    assert_none(&rt, faulty_otherwise(rt.alloc(), faults()));
    let bad = ScheduleFault::BadLine(3).number();
    assert_that(&rt, bad == 80 && ScheduleFault::TooLong.number() == 81);
}

/// Whether these are single steps of these threads.
fn are_steps_of(lines: &[Line], threads: &[u32]) -> bool {
    for (found, thread) in lines.iter().zip(threads) {
        let step = Line {
            thread: *thread,
            count: 1,
            accesses: false,
        };
        if *found != step {
            return false;
        }
    }
    lines.len() == threads.len()
}

/// Whether the schedule of 12 steps that a seed gives four threads has steps of these.
fn names(alloc: Global, seed: u64, threads: &[u32]) -> bool {
    match seeded(alloc, seed, 4, 12) {
        Ok(found) => are_steps_of(found.as_slice(), threads),
        Err(_) => false,
    }
}

/// Whether the longest schedule of the greatest seed, of three threads, names two of them as it should.
fn longest_names(alloc: Global) -> bool {
    match seeded(alloc, 4294967295, 3, 1_048_576) {
        Ok(found) => { found.len() == 1_048_576 && found[3].thread == 0 && found[2].thread == 2 }
        Err(_) => false,
    }
}

/// Why a seed gives no schedule of so many steps.
fn seed_fault<A: Allocator + Copy>(alloc: A, steps: u32) -> Option<ScheduleFault> {
    seeded(alloc, 1, 4, steps).err()
}

/// The threads of a seed: the words of PCG-XSH-RR 64/32 modulo 4 and modulo 3, computed by another program.
#[test]
fn a_seed_names_threads(rt: HostRuntime) {
    let threads = [0, 0, 2, 0, 2, 1, 2, 3, 3, 3, 1, 3];
    let first = names(rt.alloc(), 42, threads.as_slice());
    let fault = seed_fault(rt.alloc(), 1_048_577);
    assert_all(
        &rt,
        &[
            ("the first steps", first),
            ("the longest schedule", longest_names(rt.alloc())),
            ("a longer one", fault == Some(ScheduleFault::TooLong)),
        ],
    );
}

/// Whether these lines are written so, and read back.
fn is_written_as(alloc: Global, lines: &[Line], wanted: &str) -> bool {
    match write_schedule(alloc, lines) {
        Ok(text) => text.as_str() == wanted && is_read_as(alloc, text.as_str(), lines),
        Err(_) => false,
    }
}

fn lines_written() -> &'static [Line] {
    static LINES: [Line; 3] = [
        Line {
            thread: 0,
            count: 1,
            accesses: false,
        },
        Line {
            thread: 63,
            count: 0,
            accesses: true,
        },
        Line {
            thread: 4294967295,
            count: 1048575,
            accesses: true,
        },
    ];
    &LINES
}

/// Whether no memory is left for lines that are written.
fn refuses_to_write(alloc: &Refusing<Global>, lines: &[Line]) -> bool {
    write_schedule(alloc, lines).is_err()
}

#[test]
fn what_is_written_is_read_back(rt: HostRuntime) {
    let text = "0 1\n63 a0\n4294967295 a1048575\n";
    let three = is_written_as(rt.alloc(), lines_written(), text);
    let none = is_written_as(rt.alloc(), [].as_slice(), "");
    let refused = refuses_to_write(&Refusing::new(rt.alloc(), 1), lines_written());
    assert_all(
        &rt,
        &[("three", three), ("none", none), ("refused", refused)],
    );
}
