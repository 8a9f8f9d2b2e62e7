//! Ranges of numbers of threads, which are searched one number after another.

use std::sync::Wait;
use std::thread::Threads;
use test_serving::{Row, wrong_row};

fn listed_rows() -> &'static [Row] {
    static ROWS: [Row; 6] = [
        // one list after another, and one for a range of one number
        (
            "txc outcomes a.c --threads 1..2",
            b"int x; void worker(int self) { __transaction_atomic { x = x + 1; } }",
            b"",
            (
                0,
                b"== outcome --order 0\n== thread 0: ended\n== memory\nx = 1\n== outcomes: 1, stuck: 0, states: 2, threads: 1\n== outcome --order 0,1\n== thread 0: ended\n== thread 1: ended\n== memory\nx = 2\n== outcomes: 1, stuck: 0, states: 4, threads: 2\n",
                b"",
            ),
        ),
        (
            "txc outcomes a.c --threads 2..2",
            b"int x; void worker(int self) { __transaction_atomic { x = x + 1; } }",
            b"",
            (
                0,
                b"== outcome --order 0,1\n== thread 0: ended\n== thread 1: ended\n== memory\nx = 2\n== outcomes: 1, stuck: 0, states: 4, threads: 2\n",
                b"",
            ),
        ),
        // the search ends with the first status that is not 0: a trap, a limit, a stuck order
        (
            "txc outcomes a.c --threads 1..3",
            b"int x; void worker(int self) { int k; __transaction_atomic { k = x; x = x + 1; } k = 1 / (k < 1); }",
            b"",
            (
                3,
                b"== outcome --order 0\n== thread 0: ended\n== memory\nx = 1\n== outcomes: 1, stuck: 0, states: 2, threads: 1\n== outcome --order 0,1\n== thread 0: ended\n== thread 1: trap 2\n== memory\nx = 2\n== outcome --order 1,0\n== thread 0: trap 2\n== thread 1: ended\n== memory\nx = 2\n== outcomes: 2, stuck: 0, states: 5, threads: 2\n",
                b"",
            ),
        ),
        (
            "txc outcomes a.c --threads 1..3 --limit 3",
            b"int x; void worker(int self) { __transaction_atomic { x = x + 1; } }",
            b"",
            (
                4,
                b"== outcome --order 0\n== thread 0: ended\n== memory\nx = 1\n== outcomes: 1, stuck: 0, states: 2, threads: 1\n== outcomes: 0, stuck: 0, states: 3, threads: 2, stopped at the limit\n",
                b"",
            ),
        ),
        (
            "txc outcomes a.c --threads 1..3 --steps 100000",
            b"int locked[2], done; int few(void) { return done < 4; } void take(int which) { int mine = 0; while (!mine) { __transaction_atomic { mine = !locked[which]; if (mine) locked[which] = 1; } } } void worker(int self) { take(self); take(1 - self); __transaction_atomic { done = done + 1; locked[0] = 0; locked[1] = 0; } }",
            b"",
            (
                4,
                b"== outcome --order 0,0,0\n== thread 0: ended\n== memory\nlocked = 0 0\ndone = 1\n== outcomes: 1, stuck: 0, states: 4, threads: 1\n== outcome --order 0,0,0,1,1,1\n== thread 0: ended\n== thread 1: ended\n== memory\nlocked = 0 0\ndone = 2\n== stuck --order 0,1\n== thread 0: waits\n== thread 1: waits\n== memory\nlocked = 1 1\ndone = 0\n== outcomes: 1, stuck: 1, states: 13, threads: 2\n",
                b"",
            ),
        ),
        // the source and its faults are the same for all numbers of threads
        (
            "txc outcomes a.c --threads 1..3",
            b"int x; void worker(int self) { y = 1; }",
            b"",
            (1, b"", b"txc: fault 20 at 1:32: unknown name\n"),
        ),
    ];
    &ROWS
}

#[test]
fn lists_outcomes_of_several_numbers_of_threads(rt: HostRuntime) {
    assert_eq!(rt; wrong_row(&rt, rt.alloc(), listed_rows()), None);
}

fn asked_rows() -> &'static [Row] {
    static ROWS: [Row; 7] = [
        // holds for each number
        (
            "txc outcomes a.c --threads 1..2 --always few --final some",
            b"int x; int few(void) { return x < 3; } int some(void) { return x > 0; } void worker(int self) { __transaction_atomic { x = x + 1; } }",
            b"",
            (
                0,
                b"== always few: states 2, threads: 1\n== final some: outcomes 1, threads: 1\n== always few: states 4, threads: 2\n== final some: outcomes 1, threads: 2\n",
                b"",
            ),
        ),
        // fails for the second, for the last
        (
            "txc outcomes a.c --threads 2..4 --always few",
            b"int x; int few(void) { return x < 3; } int some(void) { return x > 0; } void worker(int self) { __transaction_atomic { x = x + 1; } }",
            b"",
            (
                5,
                b"== always few: states 4, threads: 2\n== not few --order 0,1,2\n== thread 0: ended\n== thread 1: ended\n== thread 2: ended\n== memory\nx = 3\n",
                b"",
            ),
        ),
        (
            "txc outcomes a.c --threads 1..3 --always few",
            b"int x; int few(void) { return x < 3; } int some(void) { return x > 0; } void worker(int self) { __transaction_atomic { x = x + 1; } }",
            b"",
            (
                5,
                b"== always few: states 2, threads: 1\n== always few: states 4, threads: 2\n== not few --order 0,1,2\n== thread 0: ended\n== thread 1: ended\n== thread 2: ended\n== memory\nx = 3\n",
                b"",
            ),
        ),
        // fails for the first
        (
            "txc outcomes a.c --threads 1..3 --always some,few",
            b"int x; int few(void) { return x < 3; } int some(void) { return x > 0; } void worker(int self) { __transaction_atomic { x = x + 1; } }",
            b"",
            (
                5,
                b"== not some --order ''\n== thread 0: waits\n== memory\nx = 0\n== always few: states 2, threads: 1\n",
                b"",
            ),
        ),
        // a stuck order, and a search that stops
        (
            "txc outcomes a.c --threads 1..3 --always few",
            b"int locked[2], done; int few(void) { return done < 4; } void take(int which) { int mine = 0; while (!mine) { __transaction_atomic { mine = !locked[which]; if (mine) locked[which] = 1; } } } void worker(int self) { take(self); take(1 - self); __transaction_atomic { done = done + 1; locked[0] = 0; locked[1] = 0; } }",
            b"",
            (
                4,
                b"== always few: states 4, threads: 1\n== always few: states 13, threads: 2\n== stuck --order 0,1\n== thread 0: waits\n== thread 1: waits\n== memory\nlocked = 1 1\ndone = 0\n",
                b"",
            ),
        ),
        (
            "txc outcomes a.c --threads 1..3 --always few --limit 3",
            b"int x; int few(void) { return x < 3; } int some(void) { return x > 0; } void worker(int self) { __transaction_atomic { x = x + 1; } }",
            b"",
            (
                4,
                b"== always few: states 2, threads: 1\n== open few: states 3, threads: 2, stopped at the limit\n",
                b"",
            ),
        ),
        // a name that is no property is refused once
        (
            "txc outcomes a.c --threads 1..3 --final none",
            b"int x; int few(void) { return x < 3; } int some(void) { return x > 0; } void worker(int self) { __transaction_atomic { x = x + 1; } }",
            b"",
            (
                2,
                b"",
                b"txc: usage: --final none: no function of the file\n",
            ),
        ),
    ];
    &ROWS
}

#[test]
fn asks_properties_of_several_numbers_of_threads(rt: HostRuntime) {
    assert_eq!(rt; wrong_row(&rt, rt.alloc(), asked_rows()), None);
}

fn compared_rows() -> &'static [Row] {
    static ROWS: [Row; 5] = [
        // each outcome is one of another program's: for each number, only for the first
        (
            "txc outcomes a.c --threads 1..2 --refines b.c",
            b"int x; void worker(int self) { __transaction_atomic { x = x + 1; } }",
            b"int x; void worker(int self) { __transaction_atomic { x = x + 1; } }",
            (
                0,
                b"== refines b.c: outcomes 1 of 1, threads: 1\n== refines b.c: outcomes 1 of 1, threads: 2\n",
                b"",
            ),
        ),
        (
            "txc outcomes a.c --threads 1..3 --refines b.c",
            b"int x; void worker(int self) { __transaction_atomic { x = x + 1; } }",
            b"int x; void worker(int self) { __transaction_atomic { x = 1; } }",
            (
                5,
                b"== refines b.c: outcomes 1 of 1, threads: 1\n== not an outcome of b.c --order 0,1\n== thread 0: ended\n== thread 1: ended\n== memory\nx = 2\n",
                b"",
            ),
        ),
        // a search that stops
        (
            "txc outcomes a.c --threads 1..3 --refines b.c --limit 3",
            b"int x; void worker(int self) { __transaction_atomic { x = x + 1; } }",
            b"int x; void worker(int self) { __transaction_atomic { x = x + 1; } }",
            (
                4,
                b"== refines b.c: outcomes 1 of 1, threads: 1\n",
                b"txc: a.c: stopped at the limit\n",
            ),
        ),
        // a list is for one number
        (
            "txc outcomes a.c --threads 2..2 --expect b.c",
            b"int x; void worker(int self) { __transaction_atomic { x = x + 1; } }",
            b"== outcome --order 0,1\n== thread 0: ended\n== thread 1: ended\n== memory\nx = 2\n== outcomes: 1, stuck: 0, states: 4, threads: 2\n",
            (0, b"as expected\n", b""),
        ),
        // a source that is refused
        (
            "txc outcomes a.c --threads 1..2 --refines b.c",
            b"int x; void worker(int self) { __transaction_atomic { x = x + 1; } }",
            b"int x; void worker(int self) { y = 1; }",
            (
                1,
                b"",
                b"txc: fault 20 at 1:32: unknown name\ntxc: that is of b.c\n",
            ),
        ),
    ];
    &ROWS
}

#[test]
fn compares_outcomes_of_several_numbers_of_threads(rt: HostRuntime) {
    assert_eq!(rt; wrong_row(&rt, rt.alloc(), compared_rows()), None);
}
