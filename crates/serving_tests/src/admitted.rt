//! Reports that are compared with the outcomes of a program.

use test_serving::{ADDS, Row, wrong_row};

const ADMITS: &str = "txc outcomes a.c --threads 2 --admits b.c";

const ADMITS_ALONE: &str = "txc outcomes a.c --threads 1 --admits b.c";

/// The last thread leaves its number, twice.
const LAST: &[u8] =
    b"int x, y; void worker(int self) { __transaction_atomic { x = self; y = self; } }";

/// Each thread adds 2 in two transactions.
const SPLIT: &[u8] =
    b"int x; void worker(int self) { int k; __transaction_atomic { k = x; } __transaction_atomic { x = k + 2; } }";

/// The second thread that begins traps, and each thread prints its number first.
const TRAPS: &[u8] =
    b"int x; void worker(int self) { int k; printf(\"%d\", self); __transaction_atomic { k = x; x = 1; } k = 1 / (1 - k); }";

/// A thread that waits for another one. No thread lets it go on.
const WAITS: &[u8] =
    b"int x; void worker(int self) { int k = 0; while (!k) { __transaction_atomic { k = x; } } }";

/// A turn never ends.
const ENDLESS: &[u8] =
    b"int x; void worker(int self) { __transaction_atomic { x = 5; } while (1) { } }";

/// Reports that an outcome has.
fn admitted_rows() -> &'static [Row] {
    static ROWS: [Row; 7] = [
        (
            ADMITS,
            LAST,
            b"== thread 0: ended\n== thread 1: ended\n== memory\nx = 1\ny = 1\n",
            (0, b"== admits b.c --threads 2 --order 0,1\n", b""),
        ),
        // not the first one
        (
            ADMITS,
            LAST,
            b"== thread 0: ended\n== thread 1: ended\n== memory\nx = 0\ny = 0\n",
            (0, b"== admits b.c --threads 2 --order 1,0\n", b""),
        ),
        // two threads by default
        (
            "txc outcomes a.c --admits b.c",
            SPLIT,
            b"== thread 0: ended\n== thread 1: ended\n== memory\nx = 2\n",
            (0, b"== admits b.c --threads 2 --order 1,0,0,1\n", b""),
        ),
        // output, and a trap
        (
            ADMITS,
            TRAPS,
            b"== thread 0: trap 2\n0\n== thread 1: ended\n1\n== memory\nx = 1\n",
            (0, b"== admits b.c --threads 2 --order 1,0\n", b""),
        ),
        // no turn
        (
            ADMITS_ALONE,
            b"int x[2] = {-1, 3}; void worker(int self) { }",
            b"== thread 0: ended\n== memory\nx = -1 3\n",
            (0, b"== admits b.c --threads 1 --order ''\n", b""),
        ),
        // results for machines
        (
            "txc outcomes a.c --threads 1 --admits b.c --format json",
            ADDS,
            b"== thread 0: ended\n== memory\nx = 1\n",
            (
                0,
                b"== admits b.c --threads 1 --order 0\n",
                b"{\"result\":\"admitted\",\"order\":[0],\"threads\":[{\"end\":\"ended\",\"output\":\"\"}],\"globals\":{\"x\":[1]}}\n{\"result\":\"verdict\",\"status\":0,\"threads\":1,\"outcomes\":1,\"stuck\":0,\"states\":2,\"stopped\":null}\n",
            ),
        ),
        (
            "txc outcomes a.c --threads 1 --admits b.c --format github",
            ADDS,
            b"== thread 0: ended\n== memory\nx = 1\n",
            (0, b"== admits b.c --threads 1 --order 0\n", b""),
        ),
    ];
    &ROWS
}

#[test]
fn a_report_of_an_outcome_is_admitted(rt: HostRuntime) {
    assert_eq!(rt; wrong_row(&rt, rt.alloc(), admitted_rows()), None);
}

/// Reports that no outcome has.
fn other_rows() -> &'static [Row] {
    static ROWS: [Row; 12] = [
        // all outcomes first differ in one line
        (
            ADMITS,
            LAST,
            b"== thread 0: ended\n== thread 1: ended\n== memory\nx = 7\ny = 0\n",
            (
                5,
                b"== does not admit b.c, nearest outcome --threads 2 --order 0,1\nline 4 differs\noutcome: x = 1\nreport: x = 7\n",
                b"",
            ),
        ),
        // the second one agrees with the report in one more line
        (
            ADMITS,
            LAST,
            b"== thread 0: ended\n== thread 1: ended\n== memory\nx = 0\ny = 1\n",
            (
                5,
                b"== does not admit b.c, nearest outcome --threads 2 --order 1,0\nline 5 differs\noutcome: y = 0\nreport: y = 1\n",
                b"",
            ),
        ),
        // more threads, an end that is none of an outcome
        (
            ADMITS,
            ADDS,
            b"== thread 0: ended\n== thread 1: ended\n== thread 2: ended\n== memory\nx = 3\n",
            (
                5,
                b"== does not admit b.c, nearest outcome --threads 2 --order 0,1\nline 3 differs\noutcome: == memory\nreport: == thread 2: ended\n",
                b"",
            ),
        ),
        (
            ADMITS,
            ADDS,
            b"== thread 0: ended\n== thread 1: waits\n== memory\nx = 1\n",
            (
                5,
                b"== does not admit b.c, nearest outcome --threads 2 --order 0,1\nline 2 differs\noutcome: == thread 1: ended\nreport: == thread 1: waits\n",
                b"",
            ),
        ),
        // other output, and a control character
        (
            ADMITS,
            TRAPS,
            b"== thread 0: ended\n0\n== thread 1: trap 2\n1\x1b\n== memory\nx = 1\n",
            (
                5,
                b"== does not admit b.c, nearest outcome --threads 2 --order 0,1\nline 4 differs\noutcome: 1\nreport: 1?\n",
                b"",
            ),
        ),
        // a report that ends early, and one that goes on
        (
            ADMITS_ALONE,
            ADDS,
            b"== thread 0: ended\n== memory\n",
            (
                5,
                b"== does not admit b.c, nearest outcome --threads 1 --order 0\nline 3 differs\noutcome: x = 1\nreport: \n",
                b"",
            ),
        ),
        (
            ADMITS_ALONE,
            ADDS,
            b"== thread 0: ended\n== memory\nx = 1\ny = 1\n",
            (
                5,
                b"== does not admit b.c, nearest outcome --threads 1 --order 0\nline 4 differs\noutcome: \nreport: y = 1\n",
                b"",
            ),
        ),
        // only line ends differ
        (
            ADMITS_ALONE,
            ADDS,
            b"== thread 0: ended\n== memory\nx = 1",
            (
                5,
                b"== does not admit b.c, nearest outcome --threads 1 --order 0\nline 4 differs\noutcome: \nreport ends\n",
                b"txc: they differ only in the last line end\n",
            ),
        ),
        (
            ADMITS_ALONE,
            ADDS,
            b"== thread 0: ended\r\n== memory\r\nx = 1\r\n",
            (
                5,
                b"== does not admit b.c, nearest outcome --threads 1 --order 0\nline 1 differs\noutcome: == thread 0: ended\nreport: == thread 0: ended?\n",
                b"txc: they differ only in carriage returns\n",
            ),
        ),
        // each order is stuck, so there are no outcomes
        (
            ADMITS_ALONE,
            WAITS,
            b"== thread 0: ended\n== memory\nx = 0\n",
            (5, b"== does not admit b.c, outcomes: 0, threads: 1\n", b""),
        ),
        // results for machines
        (
            "txc outcomes a.c --threads 1 --admits b.c --format json",
            ADDS,
            b"== thread 0: ended\n== memory\nx = 2\n",
            (
                5,
                b"== does not admit b.c, nearest outcome --threads 1 --order 0\nline 3 differs\noutcome: x = 1\nreport: x = 2\n",
                b"{\"result\":\"nearest\",\"order\":[0],\"threads\":[{\"end\":\"ended\",\"output\":\"\"}],\"globals\":{\"x\":[1]}}\n{\"result\":\"verdict\",\"status\":5,\"threads\":1,\"outcomes\":1,\"stuck\":0,\"states\":2,\"stopped\":null}\n",
            ),
        ),
        (
            "txc outcomes a.c --threads 1 --admits b.c --format github",
            ADDS,
            b"== thread 0: ended\n== memory\nx = 2\n",
            (
                5,
                b"== does not admit b.c, nearest outcome --threads 1 --order 0\nline 3 differs\noutcome: x = 1\nreport: x = 2\n",
                b"::error file=a.c,title=admits::no outcome has the report b.c\n",
            ),
        ),
    ];
    &ROWS
}

#[test]
fn a_report_of_no_outcome_is_not_admitted(rt: HostRuntime) {
    assert_eq!(rt; wrong_row(&rt, rt.alloc(), other_rows()), None);
}

/// Searches that stopped, and files that are no report.
fn undecided_rows() -> &'static [Row] {
    static ROWS: [Row; 10] = [
        // no outcome was found
        (
            "txc outcomes a.c --threads 2 --admits b.c --limit 3",
            LAST,
            b"== thread 0: ended\n== thread 1: ended\n== memory\nx = 1\ny = 1\n",
            (
                4,
                b"",
                b"txc: a.c: no outcome found has the report, stopped at the limit\n",
            ),
        ),
        // one was found, and has it or not
        (
            "txc outcomes a.c --threads 2 --admits b.c --limit 4",
            LAST,
            b"== thread 0: ended\n== thread 1: ended\n== memory\nx = 1\ny = 1\n",
            (0, b"== admits b.c --threads 2 --order 0,1\n", b""),
        ),
        (
            "txc outcomes a.c --threads 2 --admits b.c --limit 4 --verbose",
            LAST,
            b"== thread 0: ended\n== thread 1: ended\n== memory\nx = 2\ny = 1\n",
            (
                4,
                b"",
                b"txc: a.c: no outcome found has the report, stopped at the limit\ntxc: --limit L is how many states it looks at\n",
            ),
        ),
        (
            "txc outcomes a.c --threads 1 --admits b.c --steps 1000",
            ENDLESS,
            b"== thread 0: ended\n== memory\nx = 5\n",
            (
                4,
                b"",
                b"txc: a.c: no outcome found has the report, stopped at the steps\n",
            ),
        ),
        // files that are no report
        (
            ADMITS,
            ADDS,
            b"",
            (
                2,
                b"",
                b"txc: b.c is no report: it does not begin with == thread 0:\n",
            ),
        ),
        (
            ADMITS,
            ADDS,
            b"== events\n1 0 commit\n== thread 0: ended\n== memory\nx = 1\n",
            (
                2,
                b"",
                b"txc: b.c is no report: it does not begin with == thread 0:\n",
            ),
        ),
        (
            "txc outcomes a.c --threads 2 --admits b.c --format json",
            ADDS,
            b"x = 1\n",
            (
                2,
                b"",
                b"{\"file\":\"b.c\",\"message\":\"is no report: it does not begin with == thread 0:\"}\n",
            ),
        ),
        // and one that is too long
        (
            "txc outcomes a.c --threads 2 --admits b.c --memory 0",
            ADDS,
            b"== thread 0: ended\n",
            (2, b"", b"txc: b.c has more bytes than --memory allows\n"),
        ),
        // the source is refused first
        (
            ADMITS,
            b"int x;",
            b"",
            (1, b"", b"txc: fault 28 at 1:7: no worker\n"),
        ),
        (ADMITS, b"\xff", b"", (2, b"", b"txc: a.c is not UTF-8\n")),
    ];
    &ROWS
}

#[test]
fn a_report_is_not_decided_by_a_stopped_search(rt: HostRuntime) {
    assert_eq!(rt; wrong_row(&rt, rt.alloc(), undecided_rows()), None);
}
