//! Replays of transactions that are expressions.

use test_serving::{Row, wrong_row};

/// The rows stand in a function, so that no proof but its own looks at them.
fn schedules() -> &'static [Row] {
    static ROWS: [Row; 12] = [
        // a part of a larger expression
        (
            "txc replay a.c --threads 1 --schedule s.txt",
            b"int x = 5; void worker(int self) { int v = __transaction_atomic(x + 1) * 2; printf(\"%d\", v); }",
            b"0 a9\n",
            (
                0,
                b"== events\n3 0 commit\n== thread 0: ended\n12\n== memory\nx = 5\n",
                b"",
            ),
        ),
        // two transactions of one sum are two steps, between which another thread writes
        (
            "txc replay a.c --threads 2 --schedule s.txt",
            b"int x; void worker(int self) { if (self) { __transaction_atomic { x = 1; } } else printf(\"%d\", __transaction_atomic(x) * 10 + __transaction_atomic(x)); }",
            b"0 a3\n1 a5\n0 a9\n",
            (
                0,
                b"== events\n7 1 commit\n7 0 commit\n10 0 commit\n== thread 0: ended\n1\n== thread 1: ended\n== memory\nx = 1\n",
                b"",
            ),
        ),
        // an abort keeps the operand that was computed before
        (
            "txc replay a.c --threads 2 --schedule s.txt",
            b"int x; void worker(int self) { if (self) { __transaction_atomic { x = 7; } } else { int a = 3; printf(\"%d\", a * 100 + __transaction_atomic(x * 10 + x)); } }",
            b"0 a3\n1 a5\n0 a20\n",
            (
                0,
                b"== events\n7 1 commit\n11 0 abort\n16 0 commit\n== thread 0: ended\n377\n== thread 1: ended\n== memory\nx = 7\n",
                b"",
            ),
        ),
        // conditions of a loop, a branch and a choice
        (
            "txc replay a.c --threads 1 --schedule s.txt",
            b"int x = 1; void worker(int self) { while (__transaction_atomic(x < 3)) { __transaction_atomic { if (__transaction_atomic(x) == 2) x = 9; else x++; } } printf(\"%d\", __transaction_atomic(x) ? __transaction_atomic(x + 1) : 0); }",
            b"0 a99\n",
            (
                0,
                b"== events\n3 0 commit\n11 0 commit\n14 0 commit\n20 0 commit\n23 0 commit\n26 0 commit\n29 0 commit\n== thread 0: ended\n10\n== memory\nx = 9\n",
                b"",
            ),
        ),
        // a transaction in the index of another
        (
            "txc replay a.c --threads 1 --schedule s.txt",
            b"int a[3] = {4, 5, 6}, i = 1; void worker(int self) { int v = __transaction_atomic(a[__transaction_atomic(i + 1)]); printf(\"%d\", v); }",
            b"0 a99\n",
            (
                0,
                b"== events\n5 0 commit\n== thread 0: ended\n6\n== memory\na = 4 5 6\ni = 1\n",
                b"",
            ),
        ),
        // a value returned, and the operands of a sum
        (
            "txc replay a.c --threads 1 --schedule s.txt",
            b"int x = 2; int f(int n) { return __transaction_atomic(x * n); } void worker(int self) { printf(\"%d\", f(3) + __transaction_relaxed(f(4))); }",
            b"0 a99\n",
            (
                0,
                b"== events\n3 0 commit\n6 0 commit\n== thread 0: ended\n14\n== memory\nx = 2\n",
                b"",
            ),
        ),
        // a trap, and one with the lock kept
        (
            "txc replay a.c --threads 1 --schedule s.txt",
            b"int x = 2147483647; void worker(int self) { printf(\"a\"); int v = 1 + __transaction_atomic(x + 1); }",
            b"0 a99\n",
            (
                3,
                b"== events\n3 0 trap 1\n== thread 0: trap 1\na\n== memory\nx = 2147483647\n",
                b"",
            ),
        ),
        (
            "txc replay a.c --threads 1 --schedule s.txt",
            b"int x; int g(void) { printf(\"g\"); return 1 / x; } void worker(int self) { int v = __transaction_relaxed(g() + x); }",
            b"0 a99\n",
            (
                3,
                b"== events\n4 0 trap 2\n== thread 0: trap 2\ng\n== memory\nx = 0\n",
                b"",
            ),
        ),
        // a transaction that reads a cell takes the steps of one that is a block: six, of which three are accesses
        (
            "txc replay a.c --threads 1 --schedule s.txt",
            b"int x = 7; void worker(int self) { int v = __transaction_atomic (x); }",
            b"0 5\n",
            (
                4,
                b"== events\n3 0 commit\n== thread 0: running\n== memory\nx = 7\n",
                b"",
            ),
        ),
        (
            "txc replay a.c --threads 1 --schedule s.txt",
            b"int x = 7; void worker(int self) { int v = __transaction_atomic (x); }",
            b"0 6\n",
            (
                0,
                b"== events\n3 0 commit\n== thread 0: ended\n== memory\nx = 7\n",
                b"",
            ),
        ),
        (
            "txc replay a.c --threads 1 --schedule s.txt",
            b"int x = 7; void worker(int self) { int v; __transaction_atomic { v = x; } }",
            b"0 5\n",
            (
                4,
                b"== events\n3 0 commit\n== thread 0: running\n== memory\nx = 7\n",
                b"",
            ),
        ),
        (
            "txc replay a.c --threads 1 --schedule s.txt",
            b"int x = 7; void worker(int self) { int v; __transaction_atomic { v = x; } }",
            b"0 6\n",
            (
                0,
                b"== events\n3 0 commit\n== thread 0: ended\n== memory\nx = 7\n",
                b"",
            ),
        ),
    ];
    &ROWS
}

#[test]
fn replays_expressions(rt: HostRuntime) {
    assert_eq!(rt; wrong_row(&rt, rt.alloc(), schedules()), None);
}
