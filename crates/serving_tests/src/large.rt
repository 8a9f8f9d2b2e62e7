//! Large inputs and invalid ones: each gets an answer, and no resource runs out.

use crate::refusals::text_of_pieces;
use std::alloc::{AllocError, Global};
use std::sync::Wait;
use std::thread::Threads;
use test_serving::{ServeResult, Served, answers, serve_line};

/// A text in pieces, each with a number of repetitions.
type Pieces = &'static [(&'static str, usize)];

/// Texts in pieces, and the answers of `txc check`.
fn checks() -> &'static [(Pieces, ServeResult<'static>)] {
    static ROWS: [(Pieces, ServeResult<'static>); 14] = [
        // as many tokens as a text can have
        (
            &[(";", 1_048_575), (" ", 1)],
            (1, b"", b"txc: fault 10 at 1:1: unexpected token\n"),
        ),
        (
            &[("void worker(int self) { ", 1), (";", 1_048_551), ("}", 1)],
            (0, b"accepted\n", b""),
        ),
        (
            &[
                ("int x; void worker(int self) { __transaction_atomic { ", 1),
                ("x=1;", 262_129),
                ("} }", 1),
            ],
            (0, b"accepted\n", b""),
        ),
        // the most bytes, and one more, with a transaction and without one
        (
            &[
                (
                    "int x; void worker(int self) { __transaction_atomic { x = x + 1; } }",
                    1,
                ),
                (" ", 1_048_508),
            ],
            (0, b"accepted\n", b""),
        ),
        (
            &[
                (
                    "int x; void worker(int self) { __transaction_atomic { x = x + 1; } }",
                    1,
                ),
                (" ", 1_048_509),
            ],
            (1, b"", b"txc: fault 05 at 1:1: file too long\n"),
        ),
        (
            &[("void worker(int self) { }", 1), (" ", 1_048_551)],
            (0, b"accepted\n", b""),
        ),
        (
            &[("void worker(int self) { }", 1), (" ", 1_048_552)],
            (1, b"", b"txc: fault 05 at 1:1: file too long\n"),
        ),
        // the greatest depth, and one more
        (
            &[
                ("void worker(int self) { ", 1),
                ("(", 97),
                ("1", 1),
                (")", 97),
                ("; }", 1),
            ],
            (0, b"accepted\n", b""),
        ),
        (
            &[
                ("void worker(int self) { ", 1),
                ("(", 98),
                ("1", 1),
                (")", 98),
                ("; }", 1),
            ],
            (1, b"", b"txc: fault 11 at 1:123: nested too deep\n"),
        ),
        // the most cells, and more
        (
            &[("int a[4096]; void worker(int self) { }", 1)],
            (0, b"accepted\n", b""),
        ),
        (
            &[("int a[4096], b; void worker(int self) { }", 1)],
            (1, b"", b"txc: fault 25 at 1:14: bad array length\n"),
        ),
        (
            &[("int a[4097]; void worker(int self) { }", 1)],
            (1, b"", b"txc: fault 25 at 1:7: bad array length\n"),
        ),
        (
            &[("int a[0]; void worker(int self) { }", 1)],
            (1, b"", b"txc: fault 25 at 1:7: bad array length\n"),
        ),
        (
            &[("int a[2] = {1,2,3}; void worker(int self) { }", 1)],
            (1, b"", b"txc: fault 25 at 1:17: bad array length\n"),
        ),
    ];
    &ROWS
}

/// Whether `txc check` has this answer to a text in pieces.
fn is_checked<H: Threads + Wait + Sync>(
    rt: &H,
    alloc: Global,
    pieces: &[(&str, usize)],
    wanted: ServeResult,
) -> bool {
    match text_of_pieces(alloc, pieces) {
        Ok(source) => {
            let source = source.as_str().as_bytes();
            answers(rt, alloc, "txc check a.c", source, b"", false, wanted)
        }
        Err(_) => false,
    }
}

/// The number of the first text with another answer, counted from 0.
fn not_checked<H: Threads + Wait + Sync>(rt: &H, alloc: Global) -> Option<usize> {
    for (number, (pieces, wanted)) in checks().iter().enumerate() {
        if !is_checked(rt, alloc, pieces, *wanted) {
            return Some(number);
        }
    }
    None
}

#[test]
fn the_largest_sources_are_checked(rt: HostRuntime) {
    assert_eq!(rt; not_checked(&rt, rt.alloc()), None);
}

/// The answer to a command line with a text in pieces.
fn answer_of<H: Threads + Wait + Sync>(
    rt: &H,
    alloc: Global,
    line: &str,
    pieces: &[(&str, usize)],
) -> Option<Served> {
    match text_of_pieces(alloc, pieces) {
        Ok(source) => serve_line(rt, alloc, line, source.as_str().as_bytes(), b"", false),
        Err(_) => None,
    }
}

/// Whether this many bytes are printed, with this end and the status 0.
fn prints<H: Threads + Wait + Sync>(
    rt: &H,
    alloc: Global,
    line: &str,
    pieces: &[(&str, usize)],
    least: usize,
    end: &[u8],
) -> bool {
    match answer_of(rt, alloc, line, pieces) {
        Some(served) => {
            served.status == 0 && served.out.len() >= least && served.out.as_slice().ends_with(end)
        }
        None => false,
    }
}

/// Statements whose code has a listing of more than a megabyte.
const LISTED: Pieces = &[
    ("int x; void worker(int self) { __transaction_atomic { ", 1),
    ("x=x*x+1;", 20_000),
    ("} }", 1),
];

/// Prints of more than a megabyte.
const PRINTED: Pieces = &[
    (
        "void worker(int self) { int i; for (i = 0; i < 1100; i++) printf(\"",
        1,
    ),
    ("0123456789", 100),
    ("\"); }", 1),
];

#[test]
fn a_megabyte_is_printed(rt: HostRuntime) {
    let alloc = rt.alloc();
    assert!(rt; prints(&rt, alloc, "txc listing a.c", LISTED, 1_048_576, b" ret\n"));
    let end = b"0123456789\n== memory\n";
    assert!(rt; prints(&rt, alloc, "txc run a.c", PRINTED, 1_100_000, end));
    assert!(rt;
        prints(
            &rt,
            alloc,
            "txc source a.c --order 0",
            PRINTED,
            1_100_000,
            end
        )
    );
}

/// A program of this many functions, which `worker` calls, and which print.
fn of_functions(alloc: Global, count: u32) -> Result<String, AllocError> {
    let mut text = String::new(alloc);
    for number in 0..count {
        text.push_str(format!(in alloc;
            "void f{number}(void) {{ printf(\"{number},\"); }}\n"
        )?.as_str())?;
    }
    text.push_str("void worker(int self) { ")?;
    for number in 0..count {
        text.push_str(format!(in alloc; "f{number}();")?.as_str())?;
    }
    text.push_str(" }")?;
    Ok(text)
}

/// The output of this many functions, each of which prints its number.
fn printed_by(alloc: Global, count: u32) -> Result<String, AllocError> {
    let mut text = String::from_str(alloc, "== thread 0: ended\n")?;
    for number in 0..count {
        text.push_str(format!(in alloc; "{number},")?.as_str())?;
    }
    text.push_str("\n== memory\n")?;
    Ok(text)
}

/// Whether a program of this many functions runs and calls each once.
fn functions_run<H: Threads + Wait + Sync>(rt: &H, alloc: Global, count: u32) -> bool {
    match (of_functions(alloc, count), printed_by(alloc, count)) {
        (Ok(source), Ok(report)) => answers(
            rt,
            alloc,
            "txc run a.c",
            source.as_str().as_bytes(),
            b"",
            false,
            (0, report.as_str().as_bytes(), b""),
        ),
        _ => false,
    }
}

#[test]
fn two_thousand_functions_and_texts_run(rt: HostRuntime) {
    assert!(rt; functions_run(&rt, rt.alloc(), 2_000));
}

/// A prefix of names that all have the same hash if a hash multiplies eight bytes by eight with a constant and no
/// key: after this prefix one factor is 0.
const COLLIDING: &str = "aaaaaaaaaaaaassTNo3qMD1o";

/// A function with 31,000 locals, whose names have this prefix and end in their numbers, and with one more, which has
/// this number.
fn of_locals(alloc: Global, beginning: &str, last: u32) -> Result<String, AllocError> {
    let mut text = String::from_str(alloc, "void worker(int self) { int x")?;
    for number in 0..31_000u32 {
        text.push_str(format!(in alloc; ",{beginning}{number:08}")?.as_str())?;
    }
    text.push_str(format!(in alloc; ",{beginning}{last:08}; }}")?.as_str())?;
    Ok(text)
}

/// Whether this is the answer of `txc check` to a function with 31,000 locals, whose names have this prefix, and one
/// more, which has this number.
fn locals_are_checked<H: Threads + Wait + Sync>(
    rt: &H,
    alloc: Global,
    beginning: &str,
    last: u32,
    wanted: ServeResult,
) -> bool {
    match of_locals(alloc, beginning, last) {
        Ok(source) => {
            let source = source.as_str().as_bytes();
            answers(rt, alloc, "txc check a.c", source, b"", false, wanted)
        }
        Err(_) => false,
    }
}

#[test]
fn colliding_names_are_checked(rt: HostRuntime) {
    let alloc = rt.alloc();
    let accepted = (0, b"accepted\n".as_slice(), b"".as_slice());
    assert!(rt; locals_are_checked(&rt, alloc, COLLIDING, 31_000, accepted));
    let told = b"txc: fault 21 at 1:1023031: declared twice\n".as_slice();
    assert!(rt; locals_are_checked(&rt, alloc, COLLIDING, 0, (1, b"", told)));
    assert!(rt; locals_are_checked(&rt, alloc, COLLIDING, 30_999, (1, b"", told)));
}

/// A function with this many locals, and as many assignments to the oldest one.
fn of_uses(alloc: Global, count: u32) -> Result<String, AllocError> {
    let mut text = String::from_str(alloc, "void worker(int self) { int z")?;
    for number in 1..count {
        text.push_str(format!(in alloc; ",v{number}")?.as_str())?;
    }
    text.push_str("; ")?;
    text.push_str("z=1;".repeat(alloc, count as usize)?.as_str())?;
    text.push_str(" }")?;
    Ok(text)
}

/// The listing of a function with this many locals, and as many assignments to the oldest one: each local begins with
/// 0, and the oldest one has register 1.
fn listing_of_uses(alloc: Global, count: u32) -> Result<String, AllocError> {
    let registers = count.saturating_add(1);
    let mut text = format!(in alloc; "function worker registers {registers}\n")?;
    for place in 0..count {
        let register = place.saturating_add(1);
        text.push_str(format!(in alloc; "{place} const r{register} #0\n")?.as_str())?;
    }
    let end = count.saturating_mul(2);
    for place in count..end {
        text.push_str(format!(in alloc; "{place} const r1 #1\n")?.as_str())?;
    }
    text.push_str(format!(in alloc; "{end} ret\n")?.as_str())?;
    Ok(text)
}

/// Whether a function with this many locals, and as many assignments to the oldest one, has its listing.
fn uses_are_listed<H: Threads + Wait + Sync>(rt: &H, alloc: Global, count: u32) -> bool {
    match (of_uses(alloc, count), listing_of_uses(alloc, count)) {
        (Ok(source), Ok(listing)) => answers(
            rt,
            alloc,
            "txc listing a.c",
            source.as_str().as_bytes(),
            b"",
            false,
            (0, listing.as_str().as_bytes(), b""),
        ),
        _ => false,
    }
}

#[test]
fn sixty_thousand_uses_of_the_oldest_local_are_listed(rt: HostRuntime) {
    assert!(rt; uses_are_listed(&rt, rt.alloc(), 60_000));
}

/// Each thread adds one 1000 times.
const COUNTS: &[u8] =
    b"int x; void worker(int self) { int i; for (i = 0; i < 1000; i++) __transaction_atomic { x = x + 1; } }";

/// A command line with an order of this many turns, in which threads 0 and 1 alternate.
fn line_of_turns(alloc: Global, turns: usize) -> Result<String, AllocError> {
    let mut line = String::from_str(alloc, "txc source a.c --threads 2 --order 0")?;
    line.push_str(",1,0".repeat(alloc, turns / 2)?.as_str())?;
    Ok(line)
}

/// Whether an order of this many turns has this answer.
fn turns_give<H: Threads + Wait + Sync>(
    rt: &H,
    alloc: Global,
    turns: usize,
    source: &[u8],
    wanted: ServeResult,
) -> bool {
    match line_of_turns(alloc, turns) {
        Ok(line) => answers(rt, alloc, line.as_str(), source, b"", false, wanted),
        Err(_) => false,
    }
}

#[test]
fn long_orders_are_answered(rt: HostRuntime) {
    let alloc = rt.alloc();
    let both = (
        0,
        b"== thread 0: ended\n== thread 1: ended\n== memory\nx = 2\n".as_slice(),
        b"".as_slice(),
    );
    assert!(rt; turns_give(&rt, alloc, 10_000, ADDS, both));
    let counted = (
        0,
        b"== thread 0: ended\n== thread 1: ended\n== memory\nx = 2000\n".as_slice(),
        b"".as_slice(),
    );
    assert!(rt; turns_give(&rt, alloc, 2_002, COUNTS, counted));
}

/// Each thread adds one.
const ADDS: &[u8] = b"int x; void worker(int self) { __transaction_atomic { x = x + 1; } }";

/// Whether this many threads each add one.
fn threads_add<H: Threads + Wait + Sync>(rt: &H, alloc: Global, threads: u32) -> bool {
    let Ok(line) = format!(in alloc; "txc run a.c --threads {threads}") else {
        return false;
    };
    let Ok(end) = format!(in alloc; "== memory\nx = {threads}\n") else {
        return false;
    };
    match serve_line(rt, alloc, line.as_str(), ADDS, b"", false) {
        Some(served) => served.status == 0
            && served.out.as_slice().ends_with(end.as_str().as_bytes()),
        None => false,
    }
}

/// The first number of threads, from 1 to 64, that do not all add one.
fn threads_that_do_not_add<H: Threads + Wait + Sync>(rt: &H, alloc: Global) -> Option<u32> {
    for threads in 1..65u32 {
        if !threads_add(rt, alloc, threads) {
            return Some(threads);
        }
    }
    None
}

#[test]
fn every_number_of_threads_runs(rt: HostRuntime) {
    assert_eq!(rt; threads_that_do_not_add(&rt, rt.alloc()), None);
}

/// A schedule that runs this many threads one after another, each to its end, the last one first.
fn schedule_of(alloc: Global, threads: u32) -> Result<String, AllocError> {
    let mut schedule = String::new(alloc);
    for number in 0..threads {
        let thread = threads.saturating_sub(number).saturating_sub(1);
        schedule.push_str(format!(in alloc; "{thread} a9\n")?.as_str())?;
    }
    Ok(schedule)
}

/// The report of the replay of that schedule: each thread commits after six accesses.
fn replay_of(alloc: Global, threads: u32) -> Result<String, AllocError> {
    let mut report = String::from_str(alloc, "== events\n")?;
    for number in 0..threads {
        let at = number.saturating_add(1).saturating_mul(6);
        let thread = threads.saturating_sub(number).saturating_sub(1);
        report.push_str(format!(in alloc; "{at} {thread} commit\n")?.as_str())?;
    }
    for number in 0..threads {
        report.push_str(format!(in alloc; "== thread {number}: ended\n")?.as_str())?;
    }
    report.push_str(format!(in alloc; "== memory\nx = {threads}\n")?.as_str())?;
    Ok(report)
}

/// Whether a replay of this many threads that each add one has this report.
fn threads_add_in_a_replay<H: Threads + Wait + Sync>(rt: &H, alloc: Global, threads: u32) -> bool {
    let Ok(line) = format!(in alloc; "txc replay a.c --threads {threads} --schedule s.txt") else {
        return false;
    };
    match (schedule_of(alloc, threads), replay_of(alloc, threads)) {
        (Ok(schedule), Ok(report)) => answers(
            rt,
            alloc,
            line.as_str(),
            ADDS,
            schedule.as_str().as_bytes(),
            false,
            (0, report.as_str().as_bytes(), b""),
        ),
        _ => false,
    }
}

/// The first number of threads, from 1 to 64, that do not all add one in a replay.
fn threads_that_do_not_add_in_a_replay<H: Threads + Wait + Sync>(
    rt: &H,
    alloc: Global,
) -> Option<u32> {
    for threads in 1..65u32 {
        if !threads_add_in_a_replay(rt, alloc, threads) {
            return Some(threads);
        }
    }
    None
}

#[test]
fn every_number_of_threads_is_replayed(rt: HostRuntime) {
    assert_eq!(rt; threads_that_do_not_add_in_a_replay(&rt, rt.alloc()), None);
}

/// A program with all kinds of statements, whose prefixes are checked.
const WHOLE: &[u8] =
    b"int f, g = 1, h; void worker(int self) { if (self == 0) { __transaction_atomic { f = 1; h = 1; } } else { __transaction_atomic { __transaction_atomic { if (f == 0) { g = 9; __transaction_cancel; } g = 5; } g = g + h; } } }";

/// How many prefixes are accepted, and how many are refused with 10, 12 and 28.
type Counts = (u32, u32, u32, u32);

/// Counts one more answer of a check. Returns none for any other answer.
fn count_answer(counts: Counts, served: &Served) -> Option<Counts> {
    let err = served.err.as_slice();
    let (accepted, unexpected, unfinished, no_worker) = counts;
    if served.status == 0 && served.out.as_slice() == b"accepted\n".as_slice() {
        Some((accepted.wrapping_add(1), unexpected, unfinished, no_worker))
    } else if served.status != 1 || !served.out.is_empty() {
        None
    } else if err.starts_with(b"txc: fault 10 at 1:") {
        Some((accepted, unexpected.wrapping_add(1), unfinished, no_worker))
    } else if err.starts_with(b"txc: fault 12 at 1:") {
        Some((accepted, unexpected, unfinished.wrapping_add(1), no_worker))
    } else if err.starts_with(b"txc: fault 28 at 1:") {
        Some((accepted, unexpected, unfinished, no_worker.wrapping_add(1)))
    } else {
        None
    }
}

/// The answers to all prefixes of a source.
fn beginnings<H: Threads + Wait + Sync>(rt: &H, alloc: Global, source: &[u8]) -> Option<Counts> {
    let mut counts = (0, 0, 0, 0);
    for length in 0..source.len().saturating_add(1) {
        let beginning = source.get(..length)?;
        let served = serve_line(rt, alloc, "txc check a.c", beginning, b"", false)?;
        counts = count_answer(counts, &served)?;
    }
    Some(counts)
}

#[test]
fn every_beginning_of_a_source_is_answered(rt: HostRuntime) {
    assert_eq!(rt; beginnings(&rt, rt.alloc(), WHOLE), Some((1, 9, 210, 3)));
}
