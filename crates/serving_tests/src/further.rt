//! Further reports of `txc check`: warnings, and faults after the first one.

use std::alloc::Global;
use std::sync::Wait;
use std::thread::Threads;
use test_serving::{ServeResult, answers};

/// A command line, the source, whether there is a terminal, and the answer.
type Row = (&'static str, &'static [u8], bool, ServeResult<'static>);

/// The rows are in a function, so that only its own proof evaluates them.
fn rows() -> &'static [Row] {
    static ROWS: [Row; 18] = [
        // nothing is reported without a request or a terminal
        (
            "txc check a.c",
            b"int x; void worker(int self) { int f; __transaction_atomic { f = x > 0; } if (f) { __transaction_atomic { x = x - 1; } } }",
            false,
            (0, b"accepted\n", b""),
        ),
        (
            "txc check a.c --verbose",
            b"int x; void worker(int self) { int f; __transaction_atomic { f = x > 0; } if (f) { __transaction_atomic { x = x - 1; } } }",
            false,
            (0, b"accepted\n", b""),
        ),
        (
            "txc check a.c --warn",
            b"int x; void worker(int self) { int f; __transaction_atomic { f = x > 0; } if (f) { __transaction_atomic { x = x - 1; } } }",
            false,
            (
                0,
                b"accepted\n",
                b"txc: warning stale-read at 1:66: a later transaction relies on this value, which another thread may have changed\n",
            ),
        ),
        (
            "txc check a.c --warn --verbose",
            b"int x; void worker(int self) { int f; __transaction_atomic { f = x > 0; } if (f) { __transaction_atomic { x = x - 1; } } }",
            false,
            (
                0,
                b"accepted\n",
                b"txc: warning stale-read at 1:66: a later transaction relies on this value, which another thread may have changed\nint x; void worker(int self) { int f; __transaction_atomic { f = x > 0; } if (f) { __transaction_atomic { x = x - 1; } } }\n                                                                 ^\nthe write is at 1:107\nread it again in the transaction that writes; txc outcomes shows what can go wrong\n",
            ),
        ),
        (
            "txc check a.c",
            b"int x; void worker(int self) { __transaction_atomic { while (x == 0) ; } }",
            true,
            (
                0,
                b"accepted\n",
                b"txc: warning endless-wait at 1:62: no other thread can end this wait\nint x; void worker(int self) { __transaction_atomic { while (x == 0) ; } }\n                                                             ^^^^^^\nno thread writes what would end it\n",
            ),
        ),
        (
            "txc check a.c --format short",
            b"int x; void worker(int self) { __transaction_atomic { while (x == 0) ; } }",
            true,
            (0, b"accepted\n", b""),
        ),
        (
            "txc check a.c --format short --warn",
            b"int x; void worker(int self) { __transaction_atomic { while (x == 0) ; } }",
            true,
            (
                0,
                b"accepted\n",
                b"a.c:1:62: warning: no other thread can end this wait [endless-wait]\n",
            ),
        ),
        (
            "txc check a.c --format json --warn",
            b"int x; void worker(int self) { int f; __transaction_atomic { f = x > 0; } if (f) { __transaction_atomic { x = x - 1; } } }",
            true,
            (
                0,
                b"accepted\n",
                b"{\"file\":\"a.c\",\"line\":1,\"column\":66,\"end_line\":1,\"end_column\":67,\"warning\":\"stale-read\",\"message\":\"a later transaction relies on this value, which another thread may have changed\",\"other_line\":1,\"other_column\":107,\"other_end_line\":1,\"other_end_column\":108,\"notes\":[\"the write is at 1:107\",\"read it again in the transaction that writes; txc outcomes shows what can go wrong\"]}\n",
            ),
        ),
        // other commands report nothing
        (
            "txc source a.c --order 0,0",
            b"int x; void worker(int self) { int f; __transaction_atomic { f = x > 0; } if (f) { __transaction_atomic { x = x - 1; } } }",
            true,
            (0, b"== thread 0: ended\n== memory\nx = 0\n", b""),
        ),
        // 20 of 22
        (
            "txc check a.c --warn",
            b"void worker(int self) { if (self) ; if (self) ; if (self) ; if (self) ; if (self) ; if (self) ; if (self) ; if (self) ; if (self) ; if (self) ; if (self) ; if (self) ; if (self) ; if (self) ; if (self) ; if (self) ; if (self) ; if (self) ; if (self) ; if (self) ; if (self) ; if (self) ; }",
            false,
            (
                0,
                b"accepted\n",
                b"txc: warning empty-if at 1:29: this if does nothing\ntxc: warning empty-if at 1:41: this if does nothing\ntxc: warning empty-if at 1:53: this if does nothing\ntxc: warning empty-if at 1:65: this if does nothing\ntxc: warning empty-if at 1:77: this if does nothing\ntxc: warning empty-if at 1:89: this if does nothing\ntxc: warning empty-if at 1:101: this if does nothing\ntxc: warning empty-if at 1:113: this if does nothing\ntxc: warning empty-if at 1:125: this if does nothing\ntxc: warning empty-if at 1:137: this if does nothing\ntxc: warning empty-if at 1:149: this if does nothing\ntxc: warning empty-if at 1:161: this if does nothing\ntxc: warning empty-if at 1:173: this if does nothing\ntxc: warning empty-if at 1:185: this if does nothing\ntxc: warning empty-if at 1:197: this if does nothing\ntxc: warning empty-if at 1:209: this if does nothing\ntxc: warning empty-if at 1:221: this if does nothing\ntxc: warning empty-if at 1:233: this if does nothing\ntxc: warning empty-if at 1:245: this if does nothing\ntxc: warning empty-if at 1:257: this if does nothing\ntxc: warnings: 20, and 2 more\n",
            ),
        ),
        // faults after the first one
        (
            "txc check a.c",
            b"int x; void worker(int self) { y = 1; x = 1; }",
            false,
            (1, b"", b"txc: fault 20 at 1:32: unknown name\n"),
        ),
        (
            "txc check a.c --verbose",
            b"int x; void worker(int self) { y = 1; x = 1; }",
            false,
            (
                1,
                b"",
                b"txc: fault 20 at 1:32: unknown name\nint x; void worker(int self) { y = 1; x = 1; }\n                               ^\nit is not declared anywhere\ntxc explain 20 says more\n",
            ),
        ),
        (
            "txc check a.c --all",
            b"int x; void worker(int self) { y = 1; x = 1; }",
            false,
            (
                1,
                b"",
                b"txc: fault 20 at 1:32: unknown name\ntxc: fault 50 at 1:39: shared access outside a transaction\ntxc: faults: 2\n",
            ),
        ),
        (
            "txc check a.c",
            b"int x; void worker(int self) { y = 1; x = 1; }",
            true,
            (
                1,
                b"",
                b"txc: fault 20 at 1:32: unknown name\nint x; void worker(int self) { y = 1; x = 1; }\n                               ^\nit is not declared anywhere\ntxc explain 20 says more\ntxc: fault 50 at 1:39: shared access outside a transaction\nint x; void worker(int self) { y = 1; x = 1; }\n                                      ^\nput it in __transaction_atomic { .. }, or an expression in __transaction_atomic ( .. )\ntxc explain 50 says more\ntxc: faults: 2\n",
            ),
        ),
        (
            "txc check a.c --format short",
            b"int x; void worker(int self) { y = 1; x = 1; }",
            true,
            (
                1,
                b"",
                b"a.c:1:32: error: unknown name: it is not declared anywhere [20]\n",
            ),
        ),
        (
            "txc check a.c --format short --all",
            b"int x; void worker(int self) { y = 1; x = 1; }",
            true,
            (
                1,
                b"",
                b"a.c:1:32: error: unknown name: it is not declared anywhere [20]\na.c:1:39: error: shared access outside a transaction: put it in __transaction_atomic { .. }, or an expression in __transaction_atomic ( .. ) [50]\n",
            ),
        ),
        (
            "txc run a.c",
            b"int x; void worker(int self) { y = 1; x = 1; }",
            true,
            (
                1,
                b"",
                b"txc: fault 20 at 1:32: unknown name\nint x; void worker(int self) { y = 1; x = 1; }\n                               ^\nit is not declared anywhere\ntxc explain 20 says more\n",
            ),
        ),
        (
            "txc check a.c --all",
            b"int x y;",
            false,
            (1, b"", b"txc: fault 10 at 1:7: unexpected token\n"),
        ),
    ];
    &ROWS
}

/// The number of the first row with another answer, and its command line.
fn told_otherwise<H: Threads + Wait + Sync>(
    rt: &H,
    alloc: Global,
) -> Option<(usize, &'static str)> {
    for (number, row) in rows().iter().enumerate() {
        let (line, source, is_terminal, wanted) = *row;
        if !answers(rt, alloc, line, source, b"", is_terminal, wanted) {
            return Some((number, line));
        }
    }
    None
}

#[test]
fn more_is_told_where_it_is_wanted(rt: HostRuntime) {
    assert_eq!(rt; told_otherwise(&rt, rt.alloc()), None);
}
