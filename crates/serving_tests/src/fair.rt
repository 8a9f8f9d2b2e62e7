//! Whether every fair schedule terminates.

use std::sync::Wait;
use std::thread::Threads;
use test_serving::{Row, wrong_row};

const MINES: &[u8] =
    b"int taken, entered; void worker(int self) { int i, mine; for (i = 0; i < 2; i++) { do { __transaction_atomic { mine = !taken; if (mine) taken = 1; } } while (!mine); __transaction_atomic { entered = entered + 1; taken = 0; } } }";

const POLITE: &[u8] =
    b"int wants[2]; void worker(int self) { int wait; do { __transaction_atomic { wants[self] = 1; } __transaction_atomic { wait = wants[1 - self]; } if (wait) { __transaction_atomic { wants[self] = 0; } } } while (wait); __transaction_atomic { wants[self] = 0; } }";

const TRAPS: &[u8] =
    b"int x; void worker(int self) { int k; __transaction_atomic { k = x; x = x + 1; } k = 1 / (k < 1); }";

const WAITS: &[u8] =
    b"int up; void worker(int self) { int ok; if (self == 0) { __transaction_atomic { up = 1; } __transaction_atomic { up = 0; } } else { do { __transaction_atomic { ok = up; } } while (!ok); } }";

const ENDLESS: &[u8] =
    b"int x; void worker(int self) { int s; do { __transaction_atomic { s = x; } } while (!s); }";

fn rows() -> &'static [Row] {
    static ROWS: [Row; 11] = [
        (
            "txc outcomes a.c --fair --threads 3",
            MINES,
            b"",
            (0, b"== every fair schedule terminates\n", b""),
        ),
        // a thread traps in some outcome
        (
            "txc outcomes a.c --fair",
            TRAPS,
            b"",
            (3, b"== every fair schedule terminates\n", b""),
        ),
        // no order is stuck, and both step back for ever
        (
            "txc outcomes a.c --fair",
            POLITE,
            b"",
            (5, b"== endless --order '' --then 0,1,0,1,0,1\n", b""),
        ),
        // a thread that looks too late
        (
            "txc outcomes a.c --fair",
            WAITS,
            b"",
            (5, b"== endless --order 0,0 --then 1\n", b""),
        ),
        // no thread ever terminates, so the cycle begins at once
        (
            "txc outcomes a.c --fair --threads 1",
            ENDLESS,
            b"",
            (5, b"== endless --order '' --then 0\n", b""),
        ),
        // the search is stopped
        (
            "txc outcomes a.c --fair --threads 3 --limit 3",
            MINES,
            b"",
            (
                4,
                b"== open fair: states 3, threads: 3, stopped at the limit\n",
                b"",
            ),
        ),
        (
            "txc outcomes a.c --fair --steps 3",
            MINES,
            b"",
            (
                4,
                b"== open fair: states 0, threads: 2, stopped at the steps\n",
                b"",
            ),
        ),
        // a cycle that was found before the search stopped
        (
            "txc outcomes a.c --fair --limit 4",
            WAITS,
            b"",
            (5, b"== endless --order 0,0 --then 1\n", b""),
        ),
        // a program without transactions
        (
            "txc outcomes a.c --fair",
            b"int x; void worker(int self) { }",
            b"",
            (0, b"== every fair schedule terminates\n", b""),
        ),
        // a program that is refused
        (
            "txc outcomes a.c --fair",
            b"int x; void worker(int self) { y = 1; }",
            b"",
            (1, b"", b"txc: fault 20 at 1:32: unknown name\n"),
        ),
        // the trace is that of the order, and of the cycle once
        (
            "txc outcomes a.c --fair --trace",
            WAITS,
            b"",
            (
                5,
                b"== endless --order 0,0 --then 1\n",
                b"txc: with --order 0,0,1\nturn thread at     up\n                    0\n   1      0 1:58   >1   up = 1\n   2      0 1:91   >0   up = 0  ended\n   3      1 1:138   0   ok = up\nthread 0: ended\nthread 1: next at 1:138: ok = up\n",
            ),
        ),
    ];
    &ROWS
}

#[test]
fn fair_schedules_are_decided(rt: HostRuntime) {
    assert_eq!(rt; wrong_row(&rt, rt.alloc(), rows()), None);
}
