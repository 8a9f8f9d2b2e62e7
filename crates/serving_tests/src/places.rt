//! The reported places of traps and of threads that stopped. The place of a trap, at every kind of operand, is the
//! innermost expression that could not be computed.

mod calls;
mod changes;
mod choices;
mod indices;
mod operands;
mod results;
mod statements;
mod transactions;

use std::alloc::Global;
use std::sync::Wait;
use std::thread::Threads;
use test_serving::{Served, is_answer, serve_line};

/// A source, and the text reported after its report.
pub(crate) type Told = (&'static [u8], &'static [u8]);

/// Whether a terminal and another output get the same report.
fn is_one_report(shown: &Served, bare: &Served) -> bool {
    is_answer(bare, (shown.status, shown.out.as_slice(), b""))
}

/// Whether this text follows the report of a command line on a terminal, and none of it elsewhere.
fn is_told<H: Threads + Wait + Sync>(
    rt: &H,
    alloc: Global,
    line: &str,
    source: &[u8],
    told: &[u8],
) -> bool {
    let shown = serve_line(rt, alloc, line, source, b"", true);
    let bare = serve_line(rt, alloc, line, source, b"", false);
    match (shown, bare) {
        (Some(shown), Some(bare)) => {
            let is_first = if line.starts_with("txc outcomes ") {
                is_before_trace(shown.err.as_slice(), told)
            } else {
                shown.err.as_slice() == told
            };
            is_first && is_one_report(&shown, &bare)
        }
        _ => false,
    }
}

/// Whether this text comes first, and nothing or the trace of an order comes after it.
fn is_before_trace(shown: &[u8], told: &[u8]) -> bool {
    let rest = shown.get(told.len()..shown.len()).unwrap_or(b"");
    shown.starts_with(told) && (rest.is_empty() || rest.starts_with(b"txc: with --order "))
}

/// The text after the first line.
fn after_line(text: &[u8]) -> &[u8] {
    for (at, byte) in text.iter().enumerate() {
        if *byte == b'\n' {
            return text.get(at.saturating_add(1)..text.len()).unwrap_or(b"");
        }
    }
    b""
}

/// Whether this text follows a line that names an order.
fn is_of_order(shown: &[u8], told: &[u8]) -> bool {
    shown.starts_with(b"txc: with --order ") && is_before_trace(after_line(shown), told)
}

/// Whether this text about one order follows the outcomes of a source on a terminal, and none of it elsewhere.
fn is_told_of_outcomes<H: Threads + Wait + Sync>(
    rt: &H,
    alloc: Global,
    source: &[u8],
    told: &[u8],
) -> bool {
    let shown = serve_line(rt, alloc, "txc outcomes a.c --threads 1", source, b"", true);
    let bare = serve_line(
        rt,
        alloc,
        "txc outcomes a.c --threads 1",
        source,
        b"",
        false,
    );
    match (shown, bare) {
        (Some(shown), Some(bare)) => {
            is_of_order(shown.err.as_slice(), told) && is_one_report(&shown, &bare)
        }
        _ => false,
    }
}

/// Command lines that report a trap: of a run, of a replay and of the source.
fn lines() -> &'static [&'static str] {
    static LINES: [&str; 3] = [
        "txc run a.c",
        "txc replay a.c --seed 1 --steps 2000",
        "txc source a.c --order 0,0,0,0,0,0,0,0,0,0",
    ];
    &LINES
}

/// The first of these sources whose run, replay, order or outcomes have another report: its number, counted from 0, and
/// the command line.
fn wrong_trap<H: Threads + Wait + Sync>(
    rt: &H,
    alloc: Global,
    traps: &[Told],
) -> Option<(usize, &'static str)> {
    for (number, (source, told)) in traps.iter().enumerate() {
        for line in lines() {
            if !is_told(rt, alloc, line, source, told) {
                return Some((number, *line));
            }
        }
        if !is_told_of_outcomes(rt, alloc, source, told) {
            return Some((number, "txc outcomes a.c --threads 1"));
        }
    }
    None
}

#[test]
fn traps_at_indices_are_told(rt: HostRuntime) {
    assert_eq!(rt; wrong_trap(&rt, rt.alloc(), indices::rows()), None);
}

#[test]
fn traps_of_operators_are_told(rt: HostRuntime) {
    assert_eq!(rt; wrong_trap(&rt, rt.alloc(), results::rows()), None);
}

#[test]
fn traps_of_changes_are_told(rt: HostRuntime) {
    assert_eq!(rt; wrong_trap(&rt, rt.alloc(), changes::rows()), None);
}

#[test]
fn traps_in_operands_are_told(rt: HostRuntime) {
    assert_eq!(rt; wrong_trap(&rt, rt.alloc(), operands::rows()), None);
}

#[test]
fn traps_in_choices_are_told(rt: HostRuntime) {
    assert_eq!(rt; wrong_trap(&rt, rt.alloc(), choices::rows()), None);
}

#[test]
fn traps_of_calls_are_told(rt: HostRuntime) {
    assert_eq!(rt; wrong_trap(&rt, rt.alloc(), calls::rows()), None);
}

#[test]
fn traps_in_statements_are_told(rt: HostRuntime) {
    assert_eq!(rt; wrong_trap(&rt, rt.alloc(), statements::rows()), None);
}

#[test]
fn traps_in_transactions_are_told(rt: HostRuntime) {
    assert_eq!(rt; wrong_trap(&rt, rt.alloc(), transactions::rows()), None);
}

const LOOP: &[u8] = b"void worker(int self) {\n    while (1)\n        ;\n}\n";

const TWICE: &[u8] =
    b"int x; void worker(int self) { __transaction_atomic { x = 1; } __transaction_atomic { x = 2; } }";

/// Each thread waits for a change that no thread makes.
const WAITS: &[u8] =
    b"int flag;\nvoid worker(int self) {\n    int ok = 0;\n    while (!ok)\n        __transaction_atomic { ok = flag; }\n}\n";

/// Thread 1 traps, depending on which thread was first, in one of two places.
const EITHER: &[u8] =
    b"int x;\nvoid worker(int self) {\n    int z = 0, first;\n    __transaction_atomic { first = x == 0; if (first) x = 1 + self; }\n    if (self) {\n        if (first) z = 1 / z; else z = 2 % z;\n    }\n}\n";

/// Each thread traps, depending on which thread was first, in one of two places.
const BOTH: &[u8] =
    b"int x;\nvoid worker(int self) {\n    int z = 0, first;\n    __transaction_atomic { first = x == 0; if (first) x = 1 + self; }\n    if (first) z = 1 / z; else z = 2 % z;\n}\n";

/// Command lines after which threads have trapped, have stopped or could continue, and the reports.
fn ends() -> &'static [(&'static str, &'static [u8], &'static [u8])] {
    static ROWS: [(&str, &[u8], &[u8]); 9] = [
        (
            "txc run a.c --budget 50",
            LOOP,
            b"txc: thread 0: its steps are used up at 2:12\n    while (1)\n           ^\n",
        ),
        // the line of several threads is shown once
        (
            "txc run a.c --threads 2 --budget 50",
            LOOP,
            b"txc: thread 0: its steps are used up at 2:12\n    while (1)\n           ^\ntxc: thread 1: its steps are used up at 2:12\n",
        ),
        (
            "txc source a.c --order 0 --ticks 9",
            LOOP,
            b"txc: thread 0: its ticks are used up at 2:12\n    while (1)\n           ^\n",
        ),
        (
            "txc source a.c --order 0",
            TWICE,
            b"txc: thread 0: waits at 1:64\nint x; void worker(int self) { __transaction_atomic { x = 1; } __transaction_atomic { x = 2; } }\n                                                               ^^^^^^^^^^^^^^^^^^^^\n",
        ),
        (
            "txc replay a.c --seed 1 --steps 0",
            TWICE,
            b"txc: thread 0: running at 1:32\nint x; void worker(int self) { __transaction_atomic { x = 1; } __transaction_atomic { x = 2; } }\n                               ^^^^^^^^^^^^^^^^^^^^\n",
        ),
        (
            "txc replay a.c --seed 1 --steps 1",
            TWICE,
            b"txc: thread 0: running at 1:55\nint x; void worker(int self) { __transaction_atomic { x = 1; } __transaction_atomic { x = 2; } }\n                                                      ^^^^^\n",
        ),
        // of a stuck order
        (
            "txc outcomes a.c --threads 2",
            WAITS,
            b"txc: with --order ''\ntxc: thread 0: waits at 5:9\n        __transaction_atomic { ok = flag; }\n        ^^^^^^^^^^^^^^^^^^^^\ntxc: thread 1: waits at 5:9\n",
        ),
        // of each outcome with another place
        (
            "txc outcomes a.c --threads 2",
            EITHER,
            b"txc: with --order 0,1\ntxc: thread 1: trap 2 at 6:40: the divisor of 2 % 0 is 0\n        if (first) z = 1 / z; else z = 2 % z;\n                                       ^^^^^\ntxc: with --order 1,0\ntxc: thread 1: trap 2 at 6:24: the divisor of 1 / 0 is 0\n        if (first) z = 1 / z; else z = 2 % z;\n                       ^^^^^\n",
        ),
        // and of no outcome without another place
        (
            "txc outcomes a.c --threads 2",
            BOTH,
            b"txc: with --order 0,1\ntxc: thread 0: trap 2 at 5:20: the divisor of 1 / 0 is 0\n    if (first) z = 1 / z; else z = 2 % z;\n                   ^^^^^\ntxc: thread 1: trap 2 at 5:36: the divisor of 2 % 0 is 0\n    if (first) z = 1 / z; else z = 2 % z;\n                                   ^^^^^\n",
        ),
    ];
    &ROWS
}

/// The first of these command lines with another report.
fn wrong_end<H: Threads + Wait + Sync>(rt: &H, alloc: Global) -> Option<&'static str> {
    for (line, source, told) in ends() {
        if !is_told(rt, alloc, line, source, told) {
            return Some(*line);
        }
    }
    None
}

#[test]
fn ends_are_told_where_they_come(rt: HostRuntime) {
    assert_eq!(rt; wrong_end(&rt, rt.alloc()), None);
}
