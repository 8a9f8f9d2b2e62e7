//! The fixed texts of standard error, which docs/COMMANDS.md lists. They never change. Better explanations follow on a
//! line of their own, on a terminal or with `--verbose`.

use crate::opened::{Found, NONE, REFUSED, REPLAY, Told, TwoFiles, answer_line};
use crate::served::Closed;
use std::alloc::Global;
use std::sync::Wait;
use std::thread::Threads;
use std::time::Clock;
use test_serving::ADDS;

/// A command line, the results of opening `a.c` and `s.txt`, whether standard output is closed, the exit status, and
/// the standard error.
type Row = (&'static str, Found, Found, bool, u8, &'static [u8]);

const EMPTY: Found = Ok(b"void worker(int self) { }");

fn rows() -> &'static [Row] {
    static ROWS: [Row; 11] = [
        (
            "txc check a.c",
            Ok(b"int x;\nvoid worker(int self) { x = 1; }"),
            NONE,
            false,
            1,
            b"txc: fault 50 at 2:25: shared access outside a transaction\n",
        ),
        (
            REPLAY,
            EMPTY,
            Ok(b"0 1000\n7 1\n1 100"),
            false,
            4,
            b"txc: fault 71 at step 1000\n",
        ),
        (
            REPLAY,
            EMPTY,
            Ok(b"0 1\n0 x"),
            false,
            2,
            b"txc: fault 80 at line 2\n",
        ),
        (
            REPLAY,
            EMPTY,
            Ok(b"0 1048576\n0 1"),
            false,
            2,
            b"txc: fault 81\n",
        ),
        (
            "txc source a.c --order 1",
            EMPTY,
            NONE,
            false,
            2,
            b"txc: fault 55\n",
        ),
        (REPLAY, EMPTY, NONE, false, 2, b"txc: cannot read s.txt\n"),
        (
            "txc run a.c",
            Ok(b"\xff"),
            NONE,
            false,
            2,
            b"txc: a.c is not UTF-8\n",
        ),
        (
            "txc replay a.c",
            EMPTY,
            NONE,
            false,
            2,
            b"txc: usage: one of --schedule and --seed\n",
        ),
        (
            "txc source a.c --order x",
            EMPTY,
            NONE,
            false,
            2,
            b"txc: usage: bad --order\n",
        ),
        (
            "txc run a.c",
            Ok(ADDS),
            NONE,
            true,
            4,
            b"txc: cannot write\n",
        ),
        (
            "txc run a.c",
            REFUSED,
            NONE,
            false,
            4,
            b"txc: out of memory\n",
        ),
    ];
    &ROWS
}

/// Answers a row's command line, and writes its standard error.
fn answer<H: Threads + Wait + Clock + Sync>(
    rt: &H,
    alloc: Global,
    row: &Row,
    told: &mut Told,
) -> Option<u8> {
    let files = TwoFiles {
        source: row.1,
        schedule: row.2,
    };
    if row.3 {
        answer_line(rt, alloc, row.0, &files, &mut Closed, told)
    } else {
        let mut out = Vec::new(alloc);
        answer_line(rt, alloc, row.0, &files, &mut out, told)
    }
}

/// Whether a row's text, and nothing else, is reported if standard error is not a terminal.
fn is_told<H: Threads + Wait + Clock + Sync>(rt: &H, alloc: Global, row: &Row) -> bool {
    let mut told = Told {
        bytes: Vec::new(alloc),
        is_terminal: false,
    };
    let status = answer(rt, alloc, row, &mut told);
    status == Some(row.4) && told.bytes.as_slice() == row.5
}

/// The command line of the first row with another text.
fn told_otherwise<H: Threads + Wait + Clock + Sync>(rt: &H, alloc: Global) -> Option<&'static str> {
    for row in rows() {
        if !is_told(rt, alloc, row) {
            return Some(row.0);
        }
    }
    None
}

#[test]
fn fixed_texts_are_told(rt: HostRuntime) {
    assert_eq!(rt; told_otherwise(&rt, rt.alloc()), None);
}
