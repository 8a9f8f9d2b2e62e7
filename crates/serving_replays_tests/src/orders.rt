//! Replays of orders: each entry is a whole turn of its thread, which nobody disturbs.

use std::alloc::Global;
use std::sync::Wait;
use std::thread::Threads;
use test_serving::{ADDS, Row, answers, serve_line, wrong_row};

/// Threads that add, print and add again.
const PRINTS: &[u8] = b"int x; void worker(int self) { int v; printf(\"%d begins\\n\", self);
    __transaction_atomic { x = x + 1; v = x; } printf(\"found %d, \", v);
    __transaction_relaxed { x = x + 10; printf(\"left %d\\n\", x); } printf(\"%d is over\", self); }";

/// Thread 0 waits for what thread 1 writes.
const WAITS: &[u8] = b"int go, seen; void worker(int self) { int found = 0;
    if (self == 1) { __transaction_atomic { go = 7; } } else {
        while (!found) { __transaction_atomic { found = go; } }
        __transaction_atomic { seen = found; } } }";

/// A program no thread of which comes to a transaction.
const NEVER: &[u8] = b"void worker(int self) { for (;;) { } }";

fn rows() -> &'static [Row] {
    static ROWS: [Row; 19] = [
        (
            "txc replay a.c --threads 2 --order 1,0",
            ADDS,
            b"",
            (
                0,
                b"== events\n6 1 commit\n12 0 commit\n== thread 0: ended\n== thread 1: ended\n== memory\nx = 2\n",
                b"",
            ),
        ),
        // one thread alone; no thread at all
        (
            "txc replay a.c --order 0",
            ADDS,
            b"",
            (
                0,
                b"== events\n6 0 commit\n== thread 0: ended\n== memory\nx = 1\n",
                b"",
            ),
        ),
        (
            "txc replay a.c --threads 2 --order=",
            ADDS,
            b"",
            (
                4,
                b"== events\n== thread 0: running\n== thread 1: running\n== memory\nx = 0\n",
                b"",
            ),
        ),
        // a thread without a turn waits before its transaction
        (
            "txc replay a.c --threads 3 --order 2,0",
            ADDS,
            b"",
            (
                4,
                b"== events\n6 2 commit\n12 0 commit\n== thread 0: ended\n== thread 1: running\n== thread 2: ended\n== memory\nx = 2\n",
                b"",
            ),
        ),
        // a thread that is over makes no turn, and one without a transaction is over at once
        (
            "txc replay a.c --threads 2 --order 1,1,1,0,1,0",
            ADDS,
            b"",
            (
                0,
                b"== events\n6 1 commit\n12 0 commit\n== thread 0: ended\n== thread 1: ended\n== memory\nx = 2\n",
                b"",
            ),
        ),
        (
            "txc replay a.c --threads 2 --order=",
            b"void worker(int self) { printf(\"%d\\n\", self); }",
            b"",
            (
                0,
                b"== events\n== thread 0: ended\n0\n== thread 1: ended\n1\n== memory\n",
                b"",
            ),
        ),
        // what stands before the first transaction is done, and what stands behind one belongs to its turn
        (
            "txc replay a.c --threads 2 --order 0,1,1",
            PRINTS,
            b"",
            (
                4,
                b"== events\n6 0 commit\n12 1 commit\n18 1 commit\n== thread 0: running\n0 begins\nfound 1, \n== thread 1: ended\n1 begins\nfound 2, left 12\n1 is over\n== memory\nx = 12\n",
                b"",
            ),
        ),
        // a cancel ends a transaction, and a trap ends its thread: neither leaves a write
        (
            "txc replay a.c --order 0,0",
            b"int x = 5; void worker(int self) { __transaction_atomic { x = 6; __transaction_cancel; } __transaction_atomic { x = x * 2; } }",
            b"",
            (
                0,
                b"== events\n1 0 cancel\n7 0 commit\n== thread 0: ended\n== memory\nx = 10\n",
                b"",
            ),
        ),
        (
            "txc replay a.c --threads 2 --order 0,1,0",
            b"int x = 2147483646; void worker(int self) { __transaction_atomic { x = x + 1; } }",
            b"",
            (
                3,
                b"== events\n6 0 commit\n9 1 trap 1\n== thread 0: ended\n== thread 1: trap 1\n== memory\nx = 2147483647\n",
                b"",
            ),
        ),
        (
            "txc replay a.c --order 0",
            b"int x; void worker(int self) { 1 << 32; __transaction_atomic { x = 1; } }",
            b"",
            (
                3,
                b"== events\n0 0 trap 5\n== thread 0: trap 5\n== memory\nx = 0\n",
                b"",
            ),
        ),
        // an inner transaction is no turn of its own
        (
            "txc replay a.c --threads 2 --order 1,0",
            b"int x = 1; void worker(int self) { __transaction_atomic { x = 3 * x; __transaction_atomic { x = x + self; } } }",
            b"",
            (
                0,
                b"== events\n6 1 commit\n12 0 commit\n== thread 0: ended\n== thread 1: ended\n== memory\nx = 12\n",
                b"",
            ),
        ),
        // a thread waits turn by turn, until it finds what it waits for
        (
            "txc replay a.c --threads 2 --order 0,0,1,0,0",
            WAITS,
            b"",
            (
                0,
                b"== events\n3 0 commit\n6 0 commit\n10 1 commit\n13 0 commit\n17 0 commit\n== thread 0: ended\n== thread 1: ended\n== memory\ngo = 7\nseen = 7\n",
                b"",
            ),
        ),
        // a begin and its commit
        (
            "txc replay a.c --threads 2 --order 1 --timeline",
            b"void worker(int self) { __transaction_atomic { } }",
            b"",
            (
                4,
                b"== timeline\n1 1 0 begin >2; load lock = 0\n1 1 1 commit; commit\n1 1 2 ret\n== events\n1 1 commit\n== thread 0: running\n== thread 1: ended\n== memory\n",
                b"",
            ),
        ),
        // a line for each thread, and one for each entry: a begin, two steps of the read, an addition of a constant, a
        // write, three steps of the commit, and the return
        (
            "txc replay a.c --threads 2 --order 1,1,0 --print-schedule",
            ADDS,
            b"",
            (0, b"0 0\n1 0\n1 10\n1 0\n0 10\n", b""),
        ),
        // a thread that there is not
        (
            "txc replay a.c --threads 2 --order 0,2",
            ADDS,
            b"",
            (2, b"", b"txc: fault 55\n"),
        ),
        (
            "txc replay a.c --order 4294967295 --print-schedule",
            ADDS,
            b"",
            (2, b"", b"txc: fault 55\n"),
        ),
        // a thread that never rests, before a transaction and in one
        (
            "txc replay a.c --order=",
            NEVER,
            b"",
            (2, b"", b"txc: fault 81\n"),
        ),
        (
            "txc replay a.c --order 0 --timeline",
            b"int x; void worker(int self) { __transaction_atomic { while (x == 0) { } } }",
            b"",
            (2, b"", b"txc: fault 81\n"),
        ),
        // the source is looked at first
        (
            "txc replay a.c --order 9",
            b"int x; void worker(int self) { x = 1; }",
            b"",
            (
                1,
                b"",
                b"txc: fault 50 at 1:32: shared access outside a transaction\n",
            ),
        ),
    ];
    &ROWS
}

#[test]
fn replays_orders(rt: HostRuntime) {
    assert_eq!(rt; wrong_row(&rt, rt.alloc(), rows()), None);
}

/// Whether the schedule that one line prints is replayed, as another line asks, to what a third line is answered.
fn reads_back<H: Threads + Wait + Sync>(
    rt: &H,
    alloc: Global,
    print: &str,
    schedule: &str,
    replay: &str,
) -> bool {
    let printed = serve_line(rt, alloc, print, PRINTS, b"", false);
    let replayed = serve_line(rt, alloc, replay, PRINTS, b"", false);
    match (printed, replayed) {
        (Some(printed), Some(replayed)) => {
            let wanted = (
                replayed.status,
                replayed.out.as_slice(),
                replayed.err.as_slice(),
            );
            answers(
                rt,
                alloc,
                schedule,
                PRINTS,
                printed.out.as_slice(),
                false,
                wanted,
            )
        }
        _ => false,
    }
}

#[test]
fn the_schedule_of_an_order_is_read_back(rt: HostRuntime) {
    let print = "txc replay a.c --threads 3 --order 2,0,2,1,0 --print-schedule";
    let schedule = "txc replay a.c --threads 3 --schedule s.txt";
    let replay = "txc replay a.c --threads 3 --order 2,0,2,1,0";
    assert!(rt; reads_back(&rt, rt.alloc(), print, schedule, replay));
}
