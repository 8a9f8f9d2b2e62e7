//! Properties that are evaluated in all states and in all outcomes.

use std::sync::Wait;
use std::thread::Threads;
use test_serving::{Row, wrong_row};

fn property_rows() -> &'static [Row] {
    static ROWS: [Row; 18] = [
        // fails for two threads, the default
        (
            "txc outcomes a.c --always alone",
            b"int x; int alone(void) { return x < 2; } void worker(int self) { __transaction_atomic { x = x + 1; } }",
            b"",
            (
                5,
                b"== not alone --order 0,1\n== thread 0: ended\n== thread 1: ended\n== memory\nx = 2\n",
                b"",
            ),
        ),
        // holds in each state; and in each outcome
        (
            "txc outcomes a.c --threads 2 --always small --final done",
            b"int x; int small(void) { return x <= 2; } int done(void) { return x == 2; } void worker(int self) { __transaction_atomic { x = x + 1; } }",
            b"",
            (
                0,
                b"== always small: states 4, threads: 2\n== final done: outcomes 1, threads: 2\n",
                b"",
            ),
        ),
        // fails in the first state, in the last one, only in between
        (
            "txc outcomes a.c --threads 1 --always later",
            b"int x; int later(void) { return x; } void worker(int self) { __transaction_atomic { x = 1; } }",
            b"",
            (
                5,
                b"== not later --order ''\n== thread 0: waits\n== memory\nx = 0\n",
                b"",
            ),
        ),
        (
            "txc outcomes a.c --threads 1 --always early,early",
            b"int x; int early(void) { return !x; } void worker(int self) { __transaction_atomic { x = 1; } }",
            b"",
            (
                5,
                b"== not early --order 0\n== thread 0: ended\n== memory\nx = 1\n== not early --order 0\n== thread 0: ended\n== memory\nx = 1\n",
                b"",
            ),
        ),
        (
            "txc outcomes a.c --threads 1 --always even --final even",
            b"int x; int even(void) { return x % 2 == 0; } void worker(int self) { int i; for (i = 0; i < 2; i++) { __transaction_atomic { x = x + 1; } } }",
            b"",
            (
                5,
                b"== not even --order 0\n== thread 0: waits\n== memory\nx = 1\n== final even: outcomes 1, threads: 1\n",
                b"",
            ),
        ),
        // fails only in a state of a cycle, since no thread ends: the search stops there
        (
            "txc outcomes a.c --threads 2 --always not_five",
            b"int x; int not_five(void) { return x != 5; } void worker(int self) { while (1) { __transaction_atomic { x = (x + 1) % 7; } } }",
            b"",
            (
                5,
                b"== not not_five --order 0,0,0,0,0\n== thread 0: waits\n== thread 1: waits\n== memory\nx = 5\n",
                b"",
            ),
        ),
        (
            "txc outcomes a.c --threads 2 --always not_five --keep-going",
            b"int x; int not_five(void) { return x != 5; } void worker(int self) { while (1) { __transaction_atomic { x = (x + 1) % 7; } } }",
            b"",
            (
                5,
                b"== not not_five --order 0,0,0,0,0\n== thread 0: waits\n== thread 1: waits\n== memory\nx = 5\n== stuck --order ''\n== thread 0: waits\n== thread 1: waits\n== memory\nx = 0\n",
                b"",
            ),
        ),
        // the shortest order, though thread 0 alone reaches the same value later; a terminal names the option
        (
            "txc outcomes a.c --threads 2 --always below --verbose",
            b"int x; int below(void) { return x != 9; } void worker(int self) { int i; if (self) { __transaction_atomic { x = 9; } } else { for (i = 0; i < 9; i++) { __transaction_atomic { x = x + 1; } } } }",
            b"",
            (
                5,
                b"== not below --order 1\n== thread 0: waits\n== thread 1: ended\n== memory\nx = 9\n",
                b"txc: each property has its answer, so the search stopped; --keep-going continues it\n",
            ),
        ),
        // its writes are undone, and so are those that it cancels; it may begin transactions and call functions
        (
            "txc outcomes a.c --threads 1 --always once",
            b"int x; int one(int k) { __transaction_atomic { x = x + k; if (k == 2) __transaction_cancel; } return x; } int once(void) { x = x + 1; return one(1) == 2 && one(2) == 2; } void worker(int self) { __transaction_atomic { x = 0; } }",
            b"",
            (0, b"== always once: states 2, threads: 1\n", b""),
        ),
        // traps, by each trap that is possible in a call
        (
            "txc outcomes a.c --threads 1 --always far",
            b"int x, a[2] = {1, 1}; int far(void) { return a[x * 2]; } void worker(int self) { __transaction_atomic { x = 1; } }",
            b"",
            (
                5,
                b"== not far --order 0\n== thread 0: ended\n== memory\nx = 1\na = 1 1\n",
                b"",
            ),
        ),
        (
            "txc outcomes a.c --threads 1 --always deep",
            b"int x; int deep(void); int deep(void) { return deep(); } void worker(int self) { __transaction_atomic { x = 1; } }",
            b"",
            (
                5,
                b"== not deep --order ''\n== thread 0: waits\n== memory\nx = 0\n",
                b"",
            ),
        ),
        // takes too long in only one state
        (
            "txc outcomes a.c --threads 1 --always ends --steps 50",
            b"int x; int ends(void) { while (x) { } return 1; } void worker(int self) { __transaction_atomic { x = 1; } }",
            b"",
            (
                4,
                b"== spent ends --order 0\n== thread 0: ended\n== memory\nx = 1\n",
                b"",
            ),
        ),
        // the search is stopped: the property holds so far, or fails in spite of this
        (
            "txc outcomes a.c --threads 2 --always small --limit 2",
            b"int x; int small(void) { return x <= 2; } void worker(int self) { __transaction_atomic { x = x + 1; } }",
            b"",
            (
                4,
                b"== open small: states 2, threads: 2, stopped at the limit\n",
                b"",
            ),
        ),
        (
            "txc outcomes a.c --threads 2 --always none --limit 2",
            b"int x; int none(void) { return x == 0; } void worker(int self) { __transaction_atomic { x = x + 1; } }",
            b"",
            (
                5,
                b"== not none --order 0\n== thread 0: ended\n== thread 1: waits\n== memory\nx = 1\n",
                b"",
            ),
        ),
        (
            "txc outcomes a.c --threads 1 --final none --steps 10",
            b"int x; int none(void) { return x == 0; } void worker(int self) { while (1) { } }",
            b"",
            (
                4,
                b"== open none: outcomes 0, threads: 1, stopped at the steps\n",
                b"",
            ),
        ),
        (
            "txc outcomes a.c --threads 1 --final none --steps 10 --verbose",
            b"int x; int none(void) { return x == 0; } void worker(int self) { while (1) { } }",
            b"",
            (
                4,
                b"== open none: outcomes 0, threads: 1, stopped at the steps\n",
                b"txc: with --order ''\ntxc: thread 0: its steps are used up at 1:73\nint x; int none(void) { return x == 0; } void worker(int self) { while (1) { } }\n                                                                        ^\ntxc: --steps N is how many steps a thread may make in one turn\n",
            ),
        ),
        // holds, and an order is stuck
        (
            "txc outcomes a.c --threads 1 --always none --final none",
            b"int x; int none(void) { return x == 0; } void worker(int self) { int f = 0; while (!f) { __transaction_atomic { f = x; } } }",
            b"",
            (
                4,
                b"== always none: states 1, threads: 1\n== final none: outcomes 0, threads: 1\n== stuck --order ''\n== thread 0: waits\n== memory\nx = 0\n",
                b"",
            ),
        ),
        // a thread that traps leaves its memory unchanged
        (
            "txc outcomes a.c --threads 1 --final kept",
            b"int x = 1; int kept(void) { return x == 1; } void worker(int self) { __transaction_atomic { x = 2; x = 1 / (x - 2); } }",
            b"",
            (0, b"== final kept: outcomes 1, threads: 1\n", b""),
        ),
    ];
    &ROWS
}

#[test]
fn properties_are_asked(rt: HostRuntime) {
    assert_eq!(rt; wrong_row(&rt, rt.alloc(), property_rows()), None);
}

/// Functions that may not be properties, and the reasons.
fn refused_rows() -> &'static [Row] {
    static ROWS: [Row; 11] = [
        (
            "txc outcomes a.c --threads 1 --always q",
            b"int x; int p(void) { return x; } void worker(int self) { }",
            b"",
            (2, b"", b"txc: usage: --always q: no function of the file\n"),
        ),
        (
            "txc outcomes a.c --threads 1 --always x",
            b"int x; int p(void) { return x; } void worker(int self) { }",
            b"",
            (2, b"", b"txc: usage: --always x: no function of the file\n"),
        ),
        (
            "txc outcomes a.c --threads 1 --final p,",
            b"int x; int p(void) { return x; } void worker(int self) { }",
            b"",
            (2, b"", b"txc: usage: --final : no function of the file\n"),
        ),
        (
            "txc outcomes a.c --threads 1 --always u",
            b"int x; unsigned u(void) { return 1u; } void worker(int self) { }",
            b"",
            (
                2,
                b"",
                b"txc: usage: --always u: it is not of the form int NAME(void)\n",
            ),
        ),
        (
            "txc outcomes a.c --threads 1 --always v",
            b"int x; void v(void) { } void worker(int self) { }",
            b"",
            (
                2,
                b"",
                b"txc: usage: --always v: it is not of the form int NAME(void)\n",
            ),
        ),
        (
            "txc outcomes a.c --threads 1 --always l",
            b"int x; long long l(void) { return x; } void worker(int self) { }",
            b"",
            (
                2,
                b"",
                b"txc: usage: --always l: it is not of the form int NAME(void)\n",
            ),
        ),
        (
            "txc outcomes a.c --threads 1 --final w",
            b"int x; int w(int k) { return x; } void worker(int self) { }",
            b"",
            (
                2,
                b"",
                b"txc: usage: --final w: it is not of the form int NAME(void)\n",
            ),
        ),
        (
            "txc outcomes a.c --threads 1 --always worker",
            b"int x; void worker(int self) { }",
            b"",
            (
                2,
                b"",
                b"txc: usage: --always worker: it is not of the form int NAME(void)\n",
            ),
        ),
        (
            "txc outcomes a.c --threads 1 --always p,q",
            b"int x; int p(void) { return 1; } int r(void) { printf(\"r\"); return 1; } int q(void) { return r(); } void worker(int self) { }",
            b"",
            (
                2,
                b"",
                b"txc: usage: --always q: it prints, or begins a relaxed transaction\n",
            ),
        ),
        (
            "txc outcomes a.c --threads 1 --always p --final q",
            b"int x; int p(void) { return 1; } int q(void) { __transaction_relaxed { x = 1; } return 1; } void worker(int self) { }",
            b"",
            (
                2,
                b"",
                b"txc: usage: --final q: it prints, or begins a relaxed transaction\n",
            ),
        ),
        (
            "txc outcomes a.c --threads 1 --always p",
            b"int x; int p(void) { return y; } void worker(int self) { }",
            b"",
            (1, b"", b"txc: fault 20 at 1:29: unknown name\n"),
        ),
    ];
    &ROWS
}

#[test]
fn what_is_no_property_is_not_asked(rt: HostRuntime) {
    assert_eq!(rt; wrong_row(&rt, rt.alloc(), refused_rows()), None);
}
