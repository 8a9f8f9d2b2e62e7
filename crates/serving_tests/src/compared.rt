//! Outcomes that are compared with those of another program, and with lists.

use test_serving::{ADDS, Row, wrong_row};

const REFINES: &str = "txc outcomes a.c --threads 2 --refines b.c";

const REFINES_ALONE: &str = "txc outcomes a.c --threads 1 --refines b.c";

const EXPECTS: &str = "txc outcomes a.c --threads 2 --expect b.c";

/// Each thread adds 2, in one transaction and in two.
const WHOLE: &[u8] = b"int x; void worker(int self) { __transaction_atomic { x = x + 2; } }";

const SPLIT: &[u8] =
    b"int x; void worker(int self) { int k; __transaction_atomic { k = x; } __transaction_atomic { x = k + 2; } }";

/// The last thread leaves its number.
const LAST: &[u8] = b"int x; void worker(int self) { __transaction_atomic { x = self; } }";

/// The first thread traps.
const TRAPS: &[u8] =
    b"int x; void worker(int self) { int k; __transaction_atomic { k = x; x = 1; } k = 1 / k; }";

/// Two locks, which two threads take in opposite orders.
const LOCKS: &[u8] = b"int locked[2], done;
void take(int which) {
    int mine = 0;
    while (!mine) { __transaction_atomic { mine = !locked[which]; if (mine) locked[which] = 1; } }
}
void worker(int self) {
    take(self);
    take(1 - self);
    __transaction_atomic { done = done + 1; locked[0] = 0; locked[1] = 0; }
}";

/// The threads take the locks in the same order.
const ORDERED: &[u8] = b"int locked[2], done;
void take(int which) {
    int mine = 0;
    while (!mine) { __transaction_atomic { mine = !locked[which]; if (mine) locked[which] = 1; } }
}
void worker(int self) {
    take(0);
    take(1);
    __transaction_atomic { done = done + 1; locked[0] = 0; locked[1] = 0; }
}";

/// 17 nested transactions: an accepted program that has no code.
const DEEP: &[u8] =
    b"int x; void worker(int self) { __transaction_atomic { __transaction_atomic { __transaction_atomic { __transaction_atomic { __transaction_atomic { __transaction_atomic { __transaction_atomic { __transaction_atomic { __transaction_atomic { __transaction_atomic { __transaction_atomic { __transaction_atomic { __transaction_atomic { __transaction_atomic { __transaction_atomic { __transaction_atomic { __transaction_atomic { x = 1; } } } } } } } } } } } } } } } } } }";

/// Programs that are compared with others.
fn refined_rows() -> &'static [Row] {
    static ROWS: [Row; 19] = [
        // two threads by default
        (
            "txc outcomes a.c --refines b.c",
            WHOLE,
            SPLIT,
            (0, b"== refines b.c: outcomes 1 of 2, threads: 2\n", b""),
        ),
        // a program has its own outcomes
        (
            REFINES,
            ADDS,
            ADDS,
            (0, b"== refines b.c: outcomes 1 of 1, threads: 2\n", b""),
        ),
        // a split transaction has all outcomes of a whole one, and more
        (
            REFINES,
            WHOLE,
            SPLIT,
            (0, b"== refines b.c: outcomes 1 of 2, threads: 2\n", b""),
        ),
        (
            REFINES,
            SPLIT,
            WHOLE,
            (
                5,
                b"== not an outcome of b.c --order 0,1,1,0\n== thread 0: ended\n== thread 1: ended\n== memory\nx = 2\n",
                b"",
            ),
        ),
        // the first outcome is allowed, and the second is not
        (
            REFINES,
            LAST,
            b"int x; void worker(int self) { __transaction_atomic { x = 1; } }",
            (
                5,
                b"== not an outcome of b.c --order 1,0\n== thread 0: ended\n== thread 1: ended\n== memory\nx = 0\n",
                b"",
            ),
        ),
        // more globals, in another order, and a missing one
        (
            REFINES,
            b"int x, y; void worker(int self) { __transaction_atomic { x = 1; y = self; } }",
            b"int n, y, x; void worker(int self) { __transaction_atomic { x = 1; y = self; n = n + 1; } }",
            (0, b"== refines b.c: outcomes 2 of 2, threads: 2\n", b""),
        ),
        (
            REFINES,
            b"int x, y; void worker(int self) { __transaction_atomic { x = 1; y = self; } }",
            b"int y; void worker(int self) { __transaction_atomic { y = self; } }",
            (
                5,
                b"== not an outcome of b.c --order 0,1\n== thread 0: ended\n== thread 1: ended\n== memory\nx = 1\ny = 1\n",
                b"",
            ),
        ),
        // globals with other names, another type, another length
        (
            REFINES_ALONE,
            b"int x = 1, y = 2; void worker(int self) { }",
            b"int y = 1, x = 2; void worker(int self) { }",
            (
                5,
                b"== not an outcome of b.c --order ''\n== thread 0: ended\n== memory\nx = 1\ny = 2\n",
                b"",
            ),
        ),
        (
            REFINES_ALONE,
            b"int x = 1; void worker(int self) { }",
            b"unsigned x = 1; void worker(int self) { }",
            (
                5,
                b"== not an outcome of b.c --order ''\n== thread 0: ended\n== memory\nx = 1\n",
                b"",
            ),
        ),
        (
            REFINES_ALONE,
            b"int x[2]; void worker(int self) { }",
            b"int x[3]; void worker(int self) { }",
            (
                5,
                b"== not an outcome of b.c --order ''\n== thread 0: ended\n== memory\nx = 0 0\n",
                b"",
            ),
        ),
        // other texts, and other ends
        (
            REFINES_ALONE,
            b"void worker(int self) { printf(\"1\"); }",
            b"void worker(int self) { printf(\"2\"); }",
            (
                5,
                b"== not an outcome of b.c --order ''\n== thread 0: ended\n1\n== memory\n",
                b"",
            ),
        ),
        (
            REFINES,
            TRAPS,
            b"int x; void worker(int self) { __transaction_atomic { x = 1; } }",
            (
                5,
                b"== not an outcome of b.c --order 0,1\n== thread 0: trap 2\n== thread 1: ended\n== memory\nx = 1\n",
                b"",
            ),
        ),
        (
            REFINES,
            TRAPS,
            TRAPS,
            (0, b"== refines b.c: outcomes 2 of 2, threads: 2\n", b""),
        ),
        (
            REFINES_ALONE,
            b"int x; void worker(int self) { int k = 1 / self; }",
            b"int x, a[1]; void worker(int self) { __transaction_atomic { x = 0; a[self + 1] = 1; } }",
            (
                5,
                b"== not an outcome of b.c --order ''\n== thread 0: trap 2\n== memory\nx = 0\n",
                b"",
            ),
        ),
        // no outcome: each order is stuck
        (
            REFINES_ALONE,
            b"int x; void worker(int self) { int k = 0; while (!k) { __transaction_atomic { k = x; } } }",
            b"int x; void worker(int self) { }",
            (4, b"", b"txc: a.c: an order is stuck\n"),
        ),
        (
            REFINES_ALONE,
            b"int x; void worker(int self) { }",
            b"int x; void worker(int self) { int k = 0; while (!k) { __transaction_atomic { k = x; } } }",
            (
                5,
                b"== not an outcome of b.c --order ''\n== thread 0: ended\n== memory\nx = 0\n",
                b"",
            ),
        ),
        // an order of the first program is stuck, of the second
        (
            REFINES,
            LOCKS,
            LOCKS,
            (4, b"", b"txc: a.c: an order is stuck\n"),
        ),
        (
            "txc outcomes a.c --threads 2 --refines b.c --verbose",
            LOCKS,
            LOCKS,
            (
                4,
                b"",
                b"txc: a.c: an order is stuck\ntxc: with --order 0,1\n",
            ),
        ),
        (
            REFINES,
            ORDERED,
            LOCKS,
            (0, b"== refines b.c: outcomes 1 of 1, threads: 2\n", b""),
        ),
    ];
    &ROWS
}

#[test]
fn outcomes_are_those_of_another_program(rt: HostRuntime) {
    assert_eq!(rt; wrong_row(&rt, rt.alloc(), refined_rows()), None);
}

/// Programs one of which is refused or not searched completely.
fn refused_rows() -> &'static [Row] {
    static ROWS: [Row; 12] = [
        // more states than the limit, of one or of the other
        (
            "txc outcomes a.c --threads 2 --refines b.c --limit 3",
            LAST,
            ADDS,
            (4, b"", b"txc: a.c: stopped at the limit\n"),
        ),
        (
            "txc outcomes a.c --threads 2 --refines b.c --limit 4",
            ADDS,
            LAST,
            (4, b"", b"txc: b.c: stopped at the limit\n"),
        ),
        (
            "txc outcomes a.c --threads 2 --refines b.c --limit 5",
            ADDS,
            LAST,
            (
                5,
                b"== not an outcome of b.c --order 0,1\n== thread 0: ended\n== thread 1: ended\n== memory\nx = 2\n",
                b"",
            ),
        ),
        // a turn that never ends, of one or of the other
        (
            "txc outcomes a.c --threads 1 --refines b.c --steps 1000",
            b"int x; void worker(int self) { __transaction_atomic { x = 5; } while (1) { } }",
            ADDS,
            (4, b"", b"txc: a.c: stopped at the steps\n"),
        ),
        (
            "txc outcomes a.c --threads 1 --refines b.c --steps 1000",
            ADDS,
            b"int x; void worker(int self) { __transaction_atomic { x = 5; } while (1) { } }",
            (4, b"", b"txc: b.c: stopped at the steps\n"),
        ),
        (
            "txc outcomes a.c --threads 1 --refines b.c --steps 1000 --verbose",
            ADDS,
            b"int x; void worker(int self) { __transaction_atomic { x = 5; } while (1) { } }",
            (
                4,
                b"",
                b"txc: b.c: stopped at the steps\ntxc: --steps N is how many steps a thread may make in one turn\n",
            ),
        ),
        // one of them is refused, or has no code
        (
            REFINES,
            b"int x;",
            b"int",
            (1, b"", b"txc: fault 28 at 1:7: no worker\n"),
        ),
        (
            REFINES,
            b"int",
            ADDS,
            (1, b"", b"txc: fault 12 at 1:4: unexpected end\n"),
        ),
        (
            REFINES,
            ADDS,
            b"int x; void worker(int self) { y = 1; }",
            (
                1,
                b"",
                b"txc: fault 20 at 1:32: unknown name\ntxc: that is of b.c\n",
            ),
        ),
        (
            REFINES,
            ADDS,
            DEEP,
            (
                1,
                b"",
                b"txc: fault 62 at 1:400: transactions nested too deep\ntxc: that is of b.c\n",
            ),
        ),
        (
            "txc outcomes a.c --threads 2 --refines b.c --format short",
            ADDS,
            b"int x; void worker(int self) { y = 1; }",
            (
                1,
                b"",
                b"b.c:1:32: error: unknown name: it is not declared anywhere [20]\n",
            ),
        ),
        (REFINES, ADDS, b"\xff", (2, b"", b"txc: b.c is not UTF-8\n")),
    ];
    &ROWS
}

#[test]
fn programs_are_compared_where_both_are_walked(rt: HostRuntime) {
    assert_eq!(rt; wrong_row(&rt, rt.alloc(), refused_rows()), None);
}

/// Programs that are compared with lists.
fn expected_rows() -> &'static [Row] {
    static ROWS: [Row; 21] = [
        // a list for another number of threads
        (
            "txc outcomes a.c --expect b.c",
            ADDS,
            b"== outcome --order 0,1\n== thread 0: ended\n== thread 1: ended\n== memory\nx = 2\n== outcomes: 1, stuck: 0, states: 4, threads: 3\n",
            (
                5,
                b"line 6 differs\nexpected: == outcomes: 1, stuck: 0, states: 4, threads: 3\nfound: == outcomes: 1, stuck: 0, states: 4, threads: 2\n",
                b"",
            ),
        ),
        // the list as printed
        (
            EXPECTS,
            LAST,
            b"== outcome --order 0,1\n== thread 0: ended\n== thread 1: ended\n== memory\nx = 1\n== outcome --order 1,0\n== thread 0: ended\n== thread 1: ended\n== memory\nx = 0\n== outcomes: 2, stuck: 0, states: 5, threads: 2\n",
            (0, b"as expected\n", b""),
        ),
        // a list in which a thread traps, one with a stuck order
        (
            EXPECTS,
            TRAPS,
            b"== outcome --order 0,1\n== thread 0: trap 2\n== thread 1: ended\n== memory\nx = 1\n== outcome --order 1,0\n== thread 0: ended\n== thread 1: trap 2\n== memory\nx = 1\n== outcomes: 2, stuck: 0, states: 5, threads: 2\n",
            (0, b"as expected\n", b""),
        ),
        (
            EXPECTS,
            LOCKS,
            b"== outcome --order 0,0,0,1,1,1\n== thread 0: ended\n== thread 1: ended\n== memory\nlocked = 0 0\ndone = 2\n== stuck --order 0,1\n== thread 0: waits\n== thread 1: waits\n== memory\nlocked = 1 1\ndone = 0\n== outcomes: 1, stuck: 1, states: 13, threads: 2\n",
            (0, b"as expected\n", b""),
        ),
        (
            "txc outcomes a.c --threads 2 --expect b.c --limit 3",
            LAST,
            b"== outcomes: 0, stuck: 0, states: 3, threads: 2, stopped at the limit\n",
            (4, b"", b"txc: a.c: as expected, stopped at the limit\n"),
        ),
        // a search that stopped at its limit of states or of steps neither confirms nor refutes a list
        (
            "txc outcomes a.c --threads 2 --expect b.c --limit 3",
            LAST,
            b"== outcome --order 0,1\n== thread 0: ended\n== thread 1: ended\n== memory\nx = 1\n== outcome --order 1,0\n== thread 0: ended\n== thread 1: ended\n== memory\nx = 0\n== outcomes: 2, stuck: 0, states: 5, threads: 2\n",
            (4, b"", b"txc: a.c: stopped at the limit\n"),
        ),
        (
            "txc outcomes a.c --threads 2 --expect b.c --limit 3 --verbose",
            LAST,
            b"",
            (
                4,
                b"",
                b"txc: a.c: stopped at the limit\ntxc: --limit L is how many states it looks at\n",
            ),
        ),
        (
            "txc outcomes a.c --threads 1 --expect b.c --steps 1000",
            b"int x; void worker(int self) { __transaction_atomic { x = 5; } while (1) { } }",
            b"== outcomes: 0, stuck: 0, states: 1, threads: 1, stopped at the steps\n",
            (4, b"", b"txc: a.c: as expected, stopped at the steps\n"),
        ),
        (
            "txc outcomes a.c --threads 1 --expect b.c --steps 1000",
            b"int x; void worker(int self) { __transaction_atomic { x = 5; } while (1) { } }",
            b"",
            (4, b"", b"txc: a.c: stopped at the steps\n"),
        ),
        // a list from more states, of another program
        (
            EXPECTS,
            LAST,
            b"== outcomes: 0, stuck: 0, states: 3, threads: 2, stopped at the limit\n",
            (
                5,
                b"line 1 differs\nexpected: == outcomes: 0, stuck: 0, states: 3, threads: 2, stopped at the limit\nfound: == outcome --order 0,1\n",
                b"",
            ),
        ),
        (
            EXPECTS,
            LAST,
            b"== outcome --order 0,1\n== thread 0: ended\n== thread 1: ended\n== memory\nx = 2\n== outcomes: 1, stuck: 0, states: 4, threads: 2\n",
            (5, b"line 5 differs\nexpected: x = 2\nfound: x = 1\n", b""),
        ),
        // another value of the same length
        (
            EXPECTS,
            LAST,
            b"== outcome --order 0,1\n== thread 0: ended\n== thread 1: ended\n== memory\nx = 1\n== outcome --order 1,0\n== thread 0: ended\n== thread 1: ended\n== memory\nx = 2\n== outcomes: 2, stuck: 0, states: 5, threads: 2\n",
            (5, b"line 10 differs\nexpected: x = 2\nfound: x = 0\n", b""),
        ),
        // one more line, one less, outcomes in the opposite order
        (
            EXPECTS,
            LAST,
            b"== outcome --order 0,1\n== thread 0: ended\n== thread 1: ended\n== memory\nx = 1\n== outcome --order 1,0\n== thread 0: ended\n== thread 1: ended\n== memory\nx = 0\n== outcomes: 2, stuck: 0, states: 5, threads: 2\n\n",
            (
                5,
                b"line 13 differs\nexpected: \nfound ends\n",
                b"txc: they differ only in the last line end\n",
            ),
        ),
        (
            EXPECTS,
            LAST,
            b"== outcome --order 0,1\n== thread 0: ended\n== thread 1: ended\n== memory\nx = 1\n== outcome --order 1,0\n== thread 0: ended\n== thread 1: ended\n== memory\nx = 0\n== outcomes: 2, stuck: 0, states: 5, threads: 2\n== stuck --order 0\n",
            (
                5,
                b"line 12 differs\nexpected: == stuck --order 0\nfound: \n",
                b"",
            ),
        ),
        (
            EXPECTS,
            LAST,
            b"== outcome --order 0,1\n== thread 0: ended\n== thread 1: ended\n== memory\nx = 1\n== outcome --order 1,0\n== thread 0: ended\n== thread 1: ended\nx = 0\n== outcomes: 2, stuck: 0, states: 5, threads: 2\n",
            (
                5,
                b"line 9 differs\nexpected: x = 0\nfound: == memory\n",
                b"",
            ),
        ),
        (
            EXPECTS,
            LAST,
            b"== outcome --order 1,0\n== thread 0: ended\n== thread 1: ended\n== memory\nx = 0\n== outcome --order 0,1\n== thread 0: ended\n== thread 1: ended\n== memory\nx = 1\n== outcomes: 2, stuck: 0, states: 5, threads: 2\n",
            (
                5,
                b"line 1 differs\nexpected: == outcome --order 1,0\nfound: == outcome --order 0,1\n",
                b"",
            ),
        ),
        // a list that is cut off: within a line, before the end of the last one, at the beginning
        (
            EXPECTS,
            LAST,
            b"== outcome --order 0",
            (
                5,
                b"line 1 differs\nexpected: == outcome --order 0\nfound: == outcome --order 0,1\n",
                b"",
            ),
        ),
        (
            EXPECTS,
            LAST,
            b"== outcome --order 0,1\n== thread 0: ended\n== thread 1: ended\n== memory\nx = 1\n== outcome --order 1,0\n== thread 0: ended\n== thread 1: ended\n== memory\nx = 0\n== outcomes: 2, stuck: 0, states: 5, threads: 2",
            (
                5,
                b"line 12 differs\nexpected ends\nfound: \n",
                b"txc: they differ only in the last line end\n",
            ),
        ),
        (
            EXPECTS,
            LAST,
            b"",
            (
                5,
                b"line 1 differs\nexpected: \nfound: == outcome --order 0,1\n",
                b"",
            ),
        ),
        // the source is refused, or has no code
        (
            EXPECTS,
            b"int x;",
            b"== outcome --order 0,1\n== thread 0: ended\n== thread 1: ended\n== memory\nx = 1\n== outcome --order 1,0\n== thread 0: ended\n== thread 1: ended\n== memory\nx = 0\n== outcomes: 2, stuck: 0, states: 5, threads: 2\n",
            (1, b"", b"txc: fault 28 at 1:7: no worker\n"),
        ),
        (
            EXPECTS,
            DEEP,
            b"== outcome --order 0,1\n== thread 0: ended\n== thread 1: ended\n== memory\nx = 1\n== outcome --order 1,0\n== thread 0: ended\n== thread 1: ended\n== memory\nx = 0\n== outcomes: 2, stuck: 0, states: 5, threads: 2\n",
            (
                1,
                b"",
                b"txc: fault 62 at 1:400: transactions nested too deep\n",
            ),
        ),
    ];
    &ROWS
}

#[test]
fn lists_are_as_expected(rt: HostRuntime) {
    assert_eq!(rt; wrong_row(&rt, rt.alloc(), expected_rows()), None);
}
