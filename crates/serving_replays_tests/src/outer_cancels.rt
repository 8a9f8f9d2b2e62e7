//! Replays of outer cancels.

use test_serving::{Row, wrong_row};

/// The rows stand in a function, so that no proof but its own looks at them.
fn schedules() -> &'static [Row] {
    static ROWS: [Row; 7] = [
        // two levels are undone, and one
        (
            "txc replay a.c --threads 1 --schedule s.txt",
            b"int x = 1, y; void worker(int self) { __transaction_atomic [[outer]] { x = 2; __transaction_atomic { y = x; __transaction_cancel [[outer]]; } y = 9; } }",
            b"0 a9\n",
            (
                0,
                b"== events\n1 0 cancel\n== thread 0: ended\n== memory\nx = 1\ny = 0\n",
                b"",
            ),
        ),
        (
            "txc replay a.c --threads 1 --schedule s.txt",
            b"int x; void worker(int self) { __transaction_atomic [[outer]] { x = 1; __transaction_cancel [[outer]]; } }",
            b"0 a9\n",
            (
                0,
                b"== events\n1 0 cancel\n== thread 0: ended\n== memory\nx = 0\n",
                b"",
            ),
        ),
        // three levels in a loop, with locals, and a plain cancel beside it
        (
            "txc replay a.c --threads 1 --schedule s.txt",
            b"int x; void worker(int self) { int i, n; for (i = 0; i < 3; i++) { int k = i; __transaction_atomic __attribute__((outer)) { n = n + 1; x = x + 1; __transaction_atomic { n = n + 10; __transaction_atomic { k = 99; x = x + 100; if (i == 1) __transaction_cancel [[outer]]; if (i == 2) __transaction_cancel; } x = x + k; } } printf(\"%d %d,\", n, k); } }",
            b"0 a99\n",
            (
                0,
                b"== events\n6 0 commit\n9 0 cancel\n12 0 cancel\n15 0 commit\n== thread 0: ended\n11 99,11 1,22 2,\n== memory\nx = 203\n",
                b"",
            ),
        ),
        // what the levels have read is still validated, also in a callee that a relaxed transaction calls
        (
            "txc replay a.c --threads 2 --schedule s.txt",
            b"int f, g = 1, h; void t(void) { __transaction_atomic [[outer]] { __transaction_atomic { if (f == 0) { g = 9; __transaction_cancel [[outer]]; } } g = 5; } } void worker(int self) { if (self == 0) { __transaction_atomic { f = 1; h = 1; } } else { __transaction_relaxed { t(); g = g + h; } } }",
            b"1 a5\n0 a6\n1 a16\n",
            (
                0,
                b"== events\n3 1 cancel\n10 0 commit\n14 1 abort\n22 1 commit\n== thread 0: ended\n== thread 1: ended\n== memory\nf = 1\ng = 6\nh = 1\n",
                b"",
            ),
        ),
        // an outer transaction that is outermost, and one in a relaxed transaction
        (
            "txc replay a.c --threads 1 --schedule s.txt",
            b"int x = 1; int f(void) { __transaction_atomic [[outer]] { x = x + 1; __transaction_atomic { __transaction_cancel [[outer]]; } } return 7; } void worker(int self) { printf(\"%d\", f() + __transaction_relaxed (f())); }",
            b"0 a99\n",
            (
                0,
                b"== events\n3 0 cancel\n6 0 cancel\n6 0 commit\n== thread 0: ended\n14\n== memory\nx = 1\n",
                b"",
            ),
        ),
        // an outer cancel while the lock is kept
        (
            "txc replay a.c --threads 1 --schedule s.txt",
            b"int x, y; void worker(int self) { __transaction_relaxed { x = 1; printf(\"a\"); __transaction_atomic [[outer]] { x = 2; __transaction_atomic { y = 2; __transaction_cancel [[outer]]; } } y = x; } }",
            b"0 a99\n",
            (
                0,
                b"== events\n2 0 cancel\n5 0 commit\n== thread 0: ended\na\n== memory\nx = 1\ny = 1\n",
                b"",
            ),
        ),
        // outer transactions side by side, of which the cancel ends the one round it
        (
            "txc replay a.c --threads 1 --schedule s.txt",
            b"int x = 4; void worker(int self) { int v = 3; __transaction_atomic [[outer]] { v = 9; __transaction_atomic { __transaction_atomic { v = 8; __transaction_cancel; } x = v; __transaction_cancel [[outer]]; } } __transaction_atomic [[outer]] { x = x + 1; } printf(\"%d\", v); }",
            b"0 a99\n",
            (
                0,
                b"== events\n1 0 cancel\n1 0 cancel\n7 0 commit\n== thread 0: ended\n3\n== memory\nx = 5\n",
                b"",
            ),
        ),
    ];
    &ROWS
}

#[test]
fn replays_outer_cancels(rt: HostRuntime) {
    assert_eq!(rt; wrong_row(&rt, rt.alloc(), schedules()), None);
}
