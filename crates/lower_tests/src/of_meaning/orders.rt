//! Threads in an order: what is left, what each has printed and how it ends; the faults; each growth refused in turn.

use crate::asserted::assert_that;
use meaning::{SourceOutcome, ThreadEnd, ThreadReport, run_order};
use separation::Accepted;
use std::alloc::Global;
use syntax::thread_end::Trap;
use test_programs::accepted_of;

const ADDS: &str = "int x; void worker(int self) { __transaction_atomic { x = x + 1; } }";
/// each thread says what it found, and ends behind its second transaction
const SAYS: &str = "int x; void worker(int self) {
    int k = 0;
    __transaction_atomic { k = x; x = x + self + 1; }
    printf(\"%d\", k);
    __transaction_atomic { k = x; x = 10 * x; }
    printf(\",%d\", k);
}";

const LOOPS: &str =
    "int x; void worker(int self) { __transaction_atomic { x = 5; while (1) { } } }";
/// a cancel leaves the memory that was found, and a trap too
const UNDOES: &str = "int x; void worker(int self) {
    __transaction_atomic { x = x + 1; if (self) __transaction_cancel; }
    __transaction_atomic { x = x + 2; x = x / (1 - self); }
}";

/// a thread may stand in each kind of statement, in a call and in an expression
const STANDS: &str = "int x;
int add(int by) { int was; __transaction_atomic { was = x; x = x + by; } return was; }
void worker(int self) {
    int k = 0;
    if (self) { for (int i = add(1); i < 3; i++) { int was = add(i); printf(\"%d \", was); } }
    else { while (add(1) < 4) { { int k = __transaction_atomic(x); printf(\"%d \", k); } k++; } }
    do { __transaction_atomic { x = x + 1; } if (k == 1) continue; k--; } while (k > 0);
    printf(\"%d\", k);
}";
/// calls as statements, two deep, one in parentheses: loops, a return between transactions, names that the callers have
/// too
const CALLS: &str = "int x;
void say(int k) { printf(\"%d \", k); }
int twice(int by) {
    int k = 0;
    for (int i = 0; i < 2; i++) { int k; __transaction_atomic { k = x; x = x + by; } say(k); }
    if (by == 3) return by;
    __transaction_atomic { k = x; x = x + 1; }
    say(k);
    return k;
}
void deep(int self) { int by = self + 2; twice(by); (twice(by + 1)); printf(\"d%d \", by); }
void worker(int self) {
    int k = 7;
    deep(self);
    __transaction_atomic { k = k + x; }
    printf(\"%d\", k);
}";
/// the first thread comes to 64 frames, and the second one to a frame more
const FRAMES: &str = "int x;
void down(int n) { __transaction_atomic { x = x + 1; } if (n) down(n - 1); __transaction_atomic { x = x + 100; } }
void worker(int self) { down(62 + self); }";
/// as many turns as there are transactions
const TURNS: &str =
    "int x; void worker(int self) { for (int i = 0; i < 5000; i++) { __transaction_atomic { x++; } } }";
/// as many turns as there are transactions, in a function that is called
const CALLED_TURNS: &str = "int x;
void all(int n) { for (int i = 0; i < n; i++) { __transaction_atomic { x++; } } }
void worker(int self) { all(5000); }";

/// A text, the threads, the order, the ticks of each; the first cell, and what each of two threads prints and how it
/// ends.
type Row = (
    &'static str,
    u32,
    &'static [u32],
    u64,
    u64,
    &'static str,
    ThreadEnd,
    &'static str,
    ThreadEnd,
);

const ENDED: ThreadEnd = ThreadEnd::Ended;

const WANTS: ThreadEnd = ThreadEnd::Wants;

const SPENT: ThreadEnd = ThreadEnd::Spent;

const DIVIDES: ThreadEnd = ThreadEnd::Trapped(Trap::ZeroDivisor);

fn rows() -> &'static [Row] {
    static ROWS: [Row; 15] = [
        (ADDS, 2, &[0, 1], 100, 2, "", ENDED, "", ENDED),
        (ADDS, 2, &[0], 100, 1, "", ENDED, "", WANTS),
        (ADDS, 2, &[], 100, 0, "", WANTS, "", WANTS),
        (
            STANDS,
            2,
            &[0, 0, 0, 1, 1, 1, 0, 0, 0, 1, 1, 0, 0],
            300,
            10,
            "1 6 ",
            WANTS,
            "3 -1",
            ENDED,
        ),
        (
            STANDS,
            2,
            &[1, 0, 1, 0, 1, 0, 1, 0, 1, 0, 1, 0],
            300,
            9,
            "2 6 ",
            WANTS,
            "2 2 4 -1",
            ENDED,
        ),
        (
            CALLS,
            2,
            &[0, 1, 0, 1, 0, 1, 0, 1, 0, 1, 0, 1],
            300,
            26,
            "0 5 10 15 22 d2 33",
            ENDED,
            "2 7 11 18 25 d3 33",
            ENDED,
        ),
        (
            CALLS,
            2,
            &[1, 1, 1, 0, 0, 0, 0, 0, 0, 1, 1],
            300,
            26,
            "10 12 14 15 18 d2 28",
            ENDED,
            "0 3 6 21 25 d3 ",
            WANTS,
        ),
        // an entry of a thread that has ended does nothing
        (ADDS, 2, &[0, 0, 0], 100, 1, "", ENDED, "", WANTS),
        (
            SAYS,
            2,
            &[0, 1, 0, 1],
            100,
            300,
            "0,3",
            ENDED,
            "1,30",
            ENDED,
        ),
        (
            SAYS,
            2,
            &[1, 1, 0, 0],
            100,
            210,
            "20,21",
            ENDED,
            "0,2",
            ENDED,
        ),
        (SAYS, 2, &[1, 0], 100, 3, "2", WANTS, "0", WANTS),
        // ticks that are spent in a transaction leave the memory as it was
        (LOOPS, 2, &[0, 1], 1000, 0, "", SPENT, "", SPENT),
        (LOOPS, 2, &[0], 1000, 0, "", SPENT, "", WANTS),
        (UNDOES, 2, &[0, 1, 1], 100, 1, "", WANTS, "", DIVIDES),
        // an entry of a thread that has trapped does nothing
        (UNDOES, 2, &[1, 1, 1, 0, 0], 100, 3, "", ENDED, "", DIVIDES),
    ];
    &ROWS
}

/// Whether a thread has printed this, and ends so.
fn is_report(report: &ThreadReport, printed: &str, end: ThreadEnd) -> bool {
    report.text.as_slice() == printed.as_bytes() && report.end == end
}

/// Whether these threads have printed and end as the row says.
fn are_reports(reports: &[ThreadReport], row: &Row) -> bool {
    match reports {
        [first, second] => { is_report(first, row.5, row.6) && is_report(second, row.7, row.8) }
        _ => false,
    }
}

/// Whether a memory is one cell that holds this.
fn is_cell(memory: &[u64], cell: u64) -> bool {
    memory.len() == 1 && memory.first().copied() == Some(cell)
}

/// Whether this is what two threads have done.
fn have_done(outcome: &SourceOutcome, row: &Row) -> bool {
    is_cell(outcome.memory.as_slice(), row.4) && are_reports(outcome.threads.as_slice(), row)
}

/// Whether the threads of a program do what the row says.
fn do_so(alloc: Global, accepted: &Accepted, row: &Row) -> bool {
    match run_order(alloc, accepted, row.1, row.2, row.3) {
        Ok(outcome) => have_done(&outcome, row),
        Err(_) => false,
    }
}

/// Whether the threads of a row's text do what the row says.
fn is_so(alloc: Global, row: &Row) -> bool {
    match accepted_of(alloc, row.0) {
        Some(accepted) => do_so(alloc, &accepted, row),
        None => false,
    }
}

/// The text and the order of the first row that is not so.
fn first_other(alloc: Global, rows: &[Row]) -> Option<(&'static str, &'static [u32])> {
    for row in rows {
        if !is_so(alloc, row) {
            return Some((row.0, row.2));
        }
    }
    None
}

#[test]
fn threads_run_in_an_order(rt: HostRuntime) {
    assert_eq!(rt; first_other(rt.alloc(), rows()), None);
}

/// What so many turns of two threads come to.
fn come_to(alloc: Global, accepted: &Accepted, turns: u32) -> Option<SourceOutcome> {
    let mut order = Vec::new(alloc);
    for i in 0..turns {
        if order.push(i % 2).is_err() {
            return None;
        }
    }
    match run_order(alloc, accepted, 2, order.as_slice(), 100000) {
        Ok(outcome) => Some(outcome),
        Err(_) => None,
    }
}

/// Whether so many turns of two threads of a text leave this in its cell, and how the threads end.
fn end_so(
    alloc: Global,
    text: &str,
    turns: u32,
    cell: u64,
    first: ThreadEnd,
    second: ThreadEnd,
) -> bool {
    let Some(accepted) = accepted_of(alloc, text) else {
        return false;
    };
    let Some(outcome) = come_to(alloc, &accepted, turns) else {
        return false;
    };
    let reports = match outcome.threads.as_slice() {
        [one, two] => one.end == first && two.end == second,
        _ => false,
    };
    reports && is_cell(outcome.memory.as_slice(), cell)
}

#[test]
fn ten_thousand_turns_are_made(rt: HostRuntime) {
    assert_that(&rt, end_so(rt.alloc(), TURNS, 10000, 10000, ENDED, ENDED));
}

#[test]
fn ten_thousand_turns_are_made_in_a_call(rt: HostRuntime) {
    assert_that(
        &rt,
        end_so(rt.alloc(), CALLED_TURNS, 10000, 10000, ENDED, ENDED),
    );
}

#[test]
fn the_sixty_fifth_frame_traps(rt: HostRuntime) {
    let end = ThreadEnd::Trapped(Trap::Frames);
    assert_that(&rt, end_so(rt.alloc(), FRAMES, 300, 6426, ENDED, end));
}

/// Threads, an order, and its fault's number.
type FaultRow = (u32, &'static [u32], u32);

fn faults() -> &'static [FaultRow] {
    static FAULTS: [FaultRow; 6] = [
        (0, &[], 72),
        (65, &[], 72),
        (2, &[0, 2], 55),
        (1, &[1], 55),
        (64, &[63, 64], 55),
        // the number of threads is looked at first
        (0, &[7], 72),
    ];
    &FAULTS
}

/// How many threads are told of, or the number of the order's fault.
fn count(alloc: Global, accepted: &Accepted, threads: u32, order: &[u32]) -> Result<usize, u32> {
    match run_order(alloc, accepted, threads, order, 100) {
        Ok(outcome) => Ok(outcome.threads.len()),
        Err(fault) => Err(fault.number()),
    }
}

/// How many threads of the text that adds are told of, or the number of the order's fault.
fn count_adding(alloc: Global, threads: u32, order: &[u32]) -> Option<Result<usize, u32>> {
    match accepted_of(alloc, ADDS) {
        Some(accepted) => Some(count(alloc, &accepted, threads, order)),
        None => None,
    }
}

/// Whether an order has the fault that the row says.
fn has_fault(alloc: Global, row: &FaultRow) -> bool {
    count_adding(alloc, row.0, row.1) == Some(Err(row.2))
}

/// The first of these orders that has not its fault.
fn first_without_fault(alloc: Global, rows: &[FaultRow]) -> Option<FaultRow> {
    for row in rows {
        if !has_fault(alloc, row) {
            return Some(*row);
        }
    }
    None
}

#[test]
fn a_wrong_order_has_a_fault(rt: HostRuntime) {
    assert_eq!(rt; first_without_fault(rt.alloc(), faults()), None);
}

#[test]
fn sixty_four_threads_run(rt: HostRuntime) {
    assert_that(&rt, count_adding(rt.alloc(), 64, &[63]) == Some(Ok(64)));
}
