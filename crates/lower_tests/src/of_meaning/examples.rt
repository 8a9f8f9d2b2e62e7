//! The programs of examples/, each run alone from its tree: written by scripts/examples.py.

use crate::asserted::assert_none;
use meaning::{SourceOutcome, ThreadEnd, ThreadReport, run_order};
use separation::Accepted;
use std::alloc::Global;
use test_programs::accepted_of;

/// A program, the number of the trap in which it ends or 0, what it prints, and the words of the memory that it leaves.
type Row = (&'static str, u32, &'static str, &'static [u64]);

fn examples() -> &'static [Row] {
    static EXAMPLES: [Row; 21] = [
        (
            "// Thread 0 moves 50 in two transactions. Thread 1 adds up both accounts, and can find 50 missing.\nint checking = 120, savings = 40;\n\nvoid worker(int self) {\n    int total;\n    if (self == 0) {\n        __transaction_atomic { checking = checking - 50; }\n        __transaction_atomic { savings = savings + 50; }\n    } else {\n        __transaction_atomic { total = checking + savings; }\n        printf(\"%d\\n\", total);\n    }\n}\n",
            0,
            "",
            &[70, 90],
        ),
        (
            "// Thread 0 moves 50 in one transaction, so thread 1 always finds all of the money.\nint checking = 120, savings = 40;\n\nvoid worker(int self) {\n    int total;\n    if (self == 0) {\n        __transaction_atomic {\n            checking = checking - 50;\n            savings = savings + 50;\n        }\n    } else {\n        __transaction_atomic { total = checking + savings; }\n        printf(\"%d\\n\", total);\n    }\n}\n",
            0,
            "",
            &[70, 90],
        ),
        (
            "// A cancel undoes the innermost transaction alone: a thread that finds no seat in the train takes one in the bus, and\n// what the outer transaction wrote before is kept. Each thread books twice.\nint train = 1, bus = 9, asked, by_train, by_bus;\n\nvoid worker(int self) {\n    int i;\n    for (i = 0; i < 2; i++) {\n        __transaction_atomic {\n            int seated = 0;\n            asked = asked + 1;\n            __transaction_atomic {\n                train = train - 1;\n                by_train = by_train + 1;\n                if (train < 0) __transaction_cancel;\n                seated = 1;\n            }\n            if (!seated) {\n                bus = bus - 1;\n                by_bus = by_bus + 1;\n            }\n        }\n    }\n}\n",
            0,
            "",
            &[0, 8, 2, 1, 1],
        ),
        (
            "// A cart is built as a whole or not at all: if the inner transaction finds too few wheels, one cancel undoes both.\nint frames = 3, wheels = 9, built;\n\nvoid worker(int self) {\n    int i;\n    for (i = 0; i < 3; i++) {\n        __transaction_atomic [[outer]] {\n            frames = frames - 1;\n            __transaction_atomic {\n                wheels = wheels - 4;\n                if (wheels < 0) __transaction_cancel [[outer]];\n            }\n            built = built + 1;\n        }\n    }\n}\n",
            0,
            "",
            &[1, 1, 2],
        ),
        (
            "// Each thread adds one, three times. No addition is lost, however the threads interleave.\nint x;\n\nvoid worker(int self) {\n    int i;\n    for (i = 0; i < 3; i++) {\n        __transaction_atomic { x = x + 1; }\n    }\n}\n",
            0,
            "",
            &[3],
        ),
        (
            "// Threads empty a queue together. The loop condition reads the head in a transaction of its own, so the next one, which\n// takes a number, has to check again.\nint queue[2] = {7, 9}, head, total;\n\nvoid worker(int self) {\n    int taken = 0;\n    while (__transaction_atomic (head) < 2) {\n        __transaction_atomic {\n            if (head < 2) {\n                total = total + queue[head];\n                head++;\n                taken++;\n            }\n        }\n    }\n    printf(\"%d taken, %d left\\n\", taken, 2 - __transaction_atomic (head));\n}\n",
            0,
            "2 taken, 0 left\n",
            &[7, 9, 2, 16],
        ),
        (
            "int x = 40, y; void worker(int self) { __transaction_atomic { x = x + 2; y = x - 1; } }\n",
            0,
            "",
            &[42, 41],
        ),
        (
            "// Cents that no `int` can hold: each payment is an eighth of the rest of the fund, and the sum of both never changes.\nlong long fund = 1234567890123, paid;\nint payments;\n\nvoid worker(int self) {\n    int i;\n    for (i = 0; i < 3; i++) {\n        long long part;\n        __transaction_atomic {\n            part = fund / 8;\n            fund = fund - part;\n            paid = paid + part;\n            payments++;\n        }\n        printf(\"%lld dollars, %d cents\\n\", part / 100, (int)(part % 100));\n    }\n}\n",
            0,
            "1543209862 dollars, 65 cents\n1350308629 dollars, 82 cents\n1181520051 dollars, 9 cents\n",
            &[827064035767, 407503854356, 3],
        ),
        (
            "// A set of numbers in a table of 16 places, without a lock of its own: each insertion is one step.\nint place[16], count;\n\nint insert(int key) {\n    int at = key * 7 & 15, added = 0;\n    __transaction_atomic {\n        while (place[at] != 0 && place[at] != key) at = at + 1 & 15;\n        if (place[at] == 0) {\n            place[at] = key;\n            count = count + 1;\n            added = 1;\n        }\n    }\n    return added;\n}\n\nvoid worker(int self) {\n    int i, added = 0;\n    for (i = 1; i <= 4; i++) added = added + insert(i * (self + 1));\n    printf(\"%d added\\n\", added);\n}\n",
            0,
            "4 added\n",
            &[0, 0, 0, 0, 0, 3, 0, 1, 0, 0, 0, 0, 4, 0, 2, 0, 4],
        ),
        (
            "// Two locks, which the threads take in opposite orders: each can hold one and wait for the other.\nint locked[2], done;\n\nvoid take(int which) {\n    int mine = 0;\n    while (!mine) {\n        __transaction_atomic { mine = !locked[which]; if (mine) locked[which] = 1; }\n    }\n}\n\nvoid worker(int self) {\n    take(self);\n    take(1 - self);\n    __transaction_atomic { done = done + 1; locked[0] = 0; locked[1] = 0; }\n}\n",
            0,
            "",
            &[0, 0, 1],
        ),
        (
            "// A sum out of the range of `int` is trap 1: the thread ends, and its transaction is undone.\nint total = 2147483647, entries = 5;\n\nvoid worker(int self) {\n    __transaction_atomic {\n        entries = entries + 1;\n        total = total + 1;\n    }\n}\n",
            1,
            "",
            &[2147483647, 5],
        ),
        (
            "// Counts the primes below 100 by trial division, and leaves the count in shared memory.\nint primes;\n\nvoid worker(int self) {\n    int n, count = 0;\n    for (n = 2; n < 100; n++) {\n        int d = 2;\n        while (d * d <= n && n % d != 0) d++;\n        if (d * d > n) count++;\n    }\n    __transaction_atomic { primes = count; }\n    printf(\"%d primes\\n\", count);\n}\n",
            0,
            "25 primes\n",
            &[25],
        ),
        (
            "// A bounded queue: one transaction puts or takes, and a cancel undoes what does not fit.\nint slots[4], head, count, refused;\n\nint put(int value) {\n    int done = 0;\n    __transaction_atomic {\n        slots[(head + count) % 4] = value;\n        count++;\n        if (count > 4) __transaction_cancel;\n        done = 1;\n    }\n    return done;\n}\n\nvoid worker(int self) {\n    int i;\n    for (i = 1; i <= 6; i++) {\n        if (!put(i * i)) {\n            __transaction_atomic { refused++; }\n        }\n    }\n    __transaction_relaxed {\n        printf(\"%d waiting, %d refused\\n\", count, refused);\n        while (count > 0) {\n            printf(\"%d \", slots[head]);\n            head = (head + 1) % 4;\n            count--;\n        }\n    }\n    printf(\"\\n\");\n}\n",
            0,
            "4 waiting, 2 refused\n1 4 9 16 \n",
            &[1, 4, 9, 16, 0, 0, 2],
        ),
        (
            "// Printing can't be undone, so it needs a relaxed transaction: from the first `printf` on no other thread can change\n// shared data, and the numbers on the receipt belong together.\nint sold, left = 10;\n\nvoid worker(int self) {\n    __transaction_relaxed {\n        sold = sold + 1;\n        left = left - 1;\n        printf(\"ticket %d, %d left\\n\", sold, left);\n    }\n}\n",
            0,
            "ticket 1, 9 left\n",
            &[1, 9],
        ),
        (
            "// One seat and two buyers, who check and buy in two transactions: the seat can be sold twice.\nint seats = 1, sold;\n\nvoid worker(int self) {\n    int free;\n    __transaction_atomic { free = seats > 0; }\n    if (free) {\n        __transaction_atomic {\n            seats = seats - 1;\n            sold = sold + 1;\n        }\n    }\n}\n",
            0,
            "",
            &[0, 1],
        ),
        (
            "// As seats.c, with a check: if the seat is sold twice, a division by 0 ends the thread.\nint seats = 1, sold;\n\nvoid worker(int self) {\n    int free;\n    __transaction_atomic { free = seats > 0; }\n    if (free) {\n        __transaction_atomic {\n            seats = seats - 1;\n            sold = sold + 1;\n            free = 1 / (sold <= 1);\n        }\n    }\n}\n",
            0,
            "",
            &[0, 1],
        ),
        (
            "// One seat and two buyers, who check and buy in one transaction: the seat is sold once.\nint seats = 1, sold;\n\nvoid worker(int self) {\n    __transaction_atomic {\n        if (seats > 0) {\n            seats = seats - 1;\n            sold = sold + 1;\n        }\n    }\n}\n",
            0,
            "",
            &[0, 1],
        ),
        (
            "int x = 5; void worker(int self) { int v = __transaction_atomic (x + 1) * 2; printf(\"%d\\n\", v); }\n",
            0,
            "12\n",
            &[5],
        ),
        (
            "// A ticket lock made of transactions: each thread takes a number, waits in a loop until it is served, and enters twice.\n// `most` is the largest number of threads that were inside at one time.\nint next, serving, inside, most, entered;\n\nvoid worker(int self) {\n    int i, mine, mine_now;\n    for (i = 0; i < 2; i++) {\n        __transaction_atomic { mine = next; next = next + 1; }\n        do {\n            __transaction_atomic { mine_now = serving == mine; }\n        } while (!mine_now);\n        __transaction_atomic { inside = inside + 1; if (inside > most) most = inside; }\n        __transaction_atomic { inside = inside - 1; entered = entered + 1; serving = serving + 1; }\n    }\n}\n",
            0,
            "",
            &[2, 2, 0, 1, 2],
        ),
        (
            "// Both accounts change in one step, or neither does.\nint checking = 120, savings = 40;\n\nvoid worker(int self) {\n    __transaction_atomic {\n        checking = checking - 50;\n        savings = savings + 50;\n    }\n    __transaction_atomic {\n        savings = savings + 1;\n    }\n}\n",
            0,
            "",
            &[70, 91],
        ),
        (
            "// A cancel undoes all that its transaction wrote: a thread takes 70 from the account, or nothing. It tries twice.\nint balance = 100, refused;\n\nint withdraw(int amount) {\n    int paid = 0;\n    __transaction_atomic {\n        balance = balance - amount;\n        if (balance < 0) __transaction_cancel;\n        paid = 1;\n    }\n    return paid;\n}\n\nvoid worker(int self) {\n    int i;\n    for (i = 0; i < 2; i++) {\n        if (!withdraw(70)) {\n            __transaction_atomic { refused = refused + 1; }\n        }\n    }\n}\n",
            0,
            "",
            &[30, 1],
        ),
    ];
    &EXAMPLES
}

/// Entries enough for the transactions of each program.
const ALONE: [u32; 20] = [0; 20];

/// Whether a thread printed what the row says, and ended as it says.
fn is_report(report: &ThreadReport, row: &Row) -> bool {
    let over = match report.end {
        ThreadEnd::Ended => row.1 == 0,
        ThreadEnd::Trapped(why) => row.1 == why.number(),
        _ => false,
    };
    over && report.text.as_slice() == row.2.as_bytes()
}

/// Whether one thread has done what the row says.
fn has_done(outcome: &SourceOutcome, row: &Row) -> bool {
    match outcome.threads.as_slice() {
        [thread] => outcome.memory.as_slice() == row.3 && is_report(thread, row),
        _ => false,
    }
}

/// Whether one thread of a program does what the row says.
fn does_so(alloc: Global, accepted: &Accepted, row: &Row) -> bool {
    match run_order(alloc, accepted, 1, ALONE.as_slice(), 100000) {
        Ok(outcome) => has_done(&outcome, row),
        Err(_) => false,
    }
}

/// Whether one thread of a row's text does what the row says.
fn is_so(alloc: Global, row: &Row) -> bool {
    match accepted_of(alloc, row.0) {
        Some(accepted) => does_so(alloc, &accepted, row),
        None => false,
    }
}

/// The text of the first row that is not so.
fn first_other(alloc: Global, rows: &[Row]) -> Option<&'static str> {
    for row in rows {
        if !is_so(alloc, row) {
            return Some(row.0);
        }
    }
    None
}

#[test]
fn examples_leave_and_print_what_they_should(rt: HostRuntime) {
    assert_none(&rt, first_other(rt.alloc(), examples()));
}
