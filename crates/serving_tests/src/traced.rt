//! The output of `txc trace`. Contracts cover only the exit status of a trace.

use test_serving::{Row, wrong_row};

/// Two threads that add 1 in two transactions, so that one addition can be lost.
const LOSES: &[u8] =
    b"int x;\nint both(void) { return x == 2; }\nvoid worker(int self) {\n  int t;\n  __transaction_atomic { t = x; }\n  __transaction_atomic { x = t + 1; }\n}\n";

/// Two locks that the threads take in opposite orders.
const LOCKS: &[u8] =
    b"int locked[2];\nvoid take(int which) {\n  int mine = 0;\n  while (!mine) {\n    __transaction_atomic { mine = !locked[which]; if (mine) locked[which] = 1; }\n  }\n}\nvoid worker(int self) { take(self); take(1 - self); }\n";

/// A trap after a write, which it undoes.
const TRAPS: &[u8] =
    b"int x = 3, y;\nvoid worker(int self) { __transaction_atomic { y = 1; x = x / self; } }\n";

/// Output before the first transaction, and a transaction that is cancelled.
const CANCELS: &[u8] =
    b"int x;\nvoid worker(int self) {\n  printf(\"hi\\n\");\n  __transaction_atomic { x = 1; __transaction_cancel; }\n}\n";

/// A loop that waits.
const WAITS: &[u8] =
    b"int stop;\nvoid worker(int self) {\n  while (!__transaction_atomic(stop)) ;\n}\n";

/// A function and one that it calls: they read an element of one array, and another array as a whole.
const ASKS: &[u8] =
    b"int a[3] = {4, 5, 6}, b[2], x = 7, y;\nint other(int i) { return b[i] + x; }\nint sums(void) { return a[1] + other(0); }\nvoid worker(int self) { __transaction_atomic { y = 1; } }\n";

/// An inner transaction whose write is undone, a write of the same word, an expression, and a text.
const NESTS: &[u8] =
    b"long long big = -5;\nunsigned u = 7;\nint x;\nvoid worker(int self) {\n  int t;\n  __transaction_atomic { __transaction_atomic { x = 9; __transaction_cancel; } u = 7; }\n  t = __transaction_atomic(big) + 1;\n  __transaction_relaxed { printf(\"%d\\n\", t); }\n}\n";

fn traces() -> &'static [Row] {
    static ROWS: [Row; 21] = [
        // a lost update, and a property that fails
        (
            "txc trace a.c --order 0,1,0,1 --property both",
            LOSES,
            b"",
            (
                0,
                b"turn thread at      x\n                    0\n   1      0 5:3     0   t = x\n   2      1 5:3     0   t = x\n   3      0 6:3    >1   x = t + 1  ended\n   4      1 6:3    >1   x = t + 1  ended\nthread 0: ended\nthread 1: ended\nproperty both: fails: x = 1\n",
                b"",
            ),
        ),
        (
            "txc trace a.c --order 0,0,1,1 --property both",
            LOSES,
            b"",
            (
                0,
                b"turn thread at      x\n                    0\n   1      0 5:3     0   t = x\n   2      0 6:3    >1   x = t + 1  ended\n   3      1 5:3     1   t = x\n   4      1 6:3    >2   x = t + 1  ended\nthread 0: ended\nthread 1: ended\nproperty both: holds: x = 2\n",
                b"",
            ),
        ),
        // a deadlock
        (
            "txc trace a.c --threads 2 --order 0,1,0",
            LOCKS,
            b"",
            (
                4,
                b"turn thread at     locked[0] locked[1]\n                           0         0\n   1      0 5:5           >1         .   mine = !locked[which]; if (mine) locked ..\n   2      1 5:5            .        >1   mine = !locked[which]; if (mine) locked ..\n   3      0 5:5            .         1   mine = !locked[which]; if (mine) locked ..\nthread 0: next at 5:5: mine = !locked[which]; if (mine) locked ..\nthread 1: next at 5:5: mine = !locked[which]; if (mine) locked ..\n",
                b"",
            ),
        ),
        // a trap undoes the write, and a thread that has terminated takes no turn
        (
            "txc trace a.c --threads 2 --order 0,0,1 --verbose",
            TRAPS,
            b"",
            (
                3,
                b"turn thread at      x  y\n                    3  0\n   1      0 2:25    3  .   y = 1; x = x / self  trap 2\n   2      0         .  .     none: terminated\n   3      1 2:25   >3 >1   y = 1; x = x / self  ended\nthread 0: trap 2 at 2:59\nthread 1: ended\n",
                b"txc: thread 0: trap 2 at 2:59: the divisor of 3 / 0 is 0\nvoid worker(int self) { __transaction_atomic { y = 1; x = x / self; } }\n                                                          ^^^^^^^^\n",
            ),
        ),
        // an undone write is not shown; a text is shown with its turn
        (
            "txc trace a.c --threads 1 --order 0,0,0",
            NESTS,
            b"",
            (
                0,
                b"turn thread at     big  u\n                    -5  7\n   1      0 6:3      . >7   __transaction_atomic { x = 9; ..\n   2      0 7:7     -5  .   big\n   3      0 8:3      .  .   printf(\"%d\\n\", t)  printed \"-4\\n\"  ended\nthread 0: ended\n",
                b"",
            ),
        ),
        // no turn
        (
            "txc trace a.c --threads 1 --order  --property both",
            LOSES,
            b"",
            (
                4,
                b"turn thread at\nthread 0: next at 5:3: t = x\nproperty both: fails: x = 0\n",
                b"",
            ),
        ),
        (
            "txc trace a.c --order 0,2",
            LOSES,
            b"",
            (2, b"", b"txc: fault 55\n"),
        ),
        (
            "txc trace a.c --order 0 --property none",
            LOSES,
            b"",
            (
                2,
                b"",
                b"txc: usage: --property none: no function of the file\n",
            ),
        ),
        (
            "txc trace a.c --order 0 --property worker",
            LOSES,
            b"",
            (
                2,
                b"",
                b"txc: usage: --property worker: it is not of the form int NAME(void)\n",
            ),
        ),
        (
            "txc trace a.c --order 0",
            b"int x; void worker(int self) { __transaction_atomic { while (1) { } } }",
            b"",
            (2, b"", b"txc: fault 81\n"),
        ),
        (
            "txc trace a.c --order 0",
            b"void worker(int self) { y = 1; }",
            b"",
            (1, b"", b"txc: fault 20 at 1:25: unknown name\n"),
        ),
        // a property that takes too long
        (
            "txc trace a.c --threads 1 --order 0 --property long_one",
            b"int x; int long_one(void) { while (x) { } return 1; } void worker(int self) { __transaction_atomic { x = 1; } }",
            b"",
            (
                0,
                b"turn thread at      x\n                    0\n   1      0 1:79   >1   x = 1  ended\nthread 0: ended\nproperty long_one: takes more than 1000000 ticks: x = 1\n",
                b"",
            ),
        ),
        // of an array, only the elements that are used are shown
        (
            "txc trace a.c --threads 1 --order 0",
            b"int a[4]; void worker(int self) { int t; __transaction_atomic { t = a[3]; a[0] = t + 2; } }",
            b"",
            (
                0,
                b"turn thread at     a[0] a[3]\n                      0    0\n   1      0 1:42     >2    0   t = a[3]; a[0] = t + 2  ended\nthread 0: ended\n",
                b"",
            ),
        ),
        // output before the first transaction, and a transaction that is cancelled
        (
            "txc trace a.c --threads 1 --order 0",
            CANCELS,
            b"",
            (
                0,
                b"turn thread at\n          0          begins  printed \"hi\\n\"\n   1      0 4:3      x = 1; __transaction_cancel  cancelled  ended\nthread 0: ended\n",
                b"",
            ),
        ),
        // a loop that waits is folded
        (
            "txc trace a.c --threads 1 --order 0,0,0,0",
            WAITS,
            b"",
            (
                4,
                b"turn thread at     stop\n                      0\n   1      0 3:11      0   stop\n  turns 1 to 1, 4 times\nthread 0: next at 3:11: stop\n",
                b"",
            ),
        ),
        // a first word that is too long is shortened
        (
            "txc trace a.c --threads 1 --order 0",
            b"int a_name_that_is_longer_than_forty_characters; void worker(int self) { __transaction_atomic(a_name_that_is_longer_than_forty_characters); }",
            b"",
            (
                0,
                b"turn thread at     a_name_that_is_longer_than_forty_characters\n                                                             0\n   1      0 1:74                                             0   a_name_that_is_longer_than_forty_charact ..  ended\nthread 0: ended\n",
                b"",
            ),
        ),
        // the values that a property reads, in its own text and in the functions that it calls
        (
            "txc trace a.c --threads 1 --order 0 --property sums",
            ASKS,
            b"",
            (
                0,
                b"turn thread at      y\n                    0\n   1      0 4:25   >1   y = 1  ended\nthread 0: ended\nproperty sums: holds: a[1] = 5, b = 0 0, x = 7\n",
                b"",
            ),
        ),
        // a block for each turn
        (
            "txc trace a.c --order 0,0 --property both --full",
            LOSES,
            b"",
            (
                4,
                b"== first\nx = 0\n== turn 1: thread 0 at 5:3 in worker\n5 |   __transaction_atomic { t = x; }\nread x = 0\n== turn 2: thread 0 at 6:3 in worker\n6 |   __transaction_atomic { x = t + 1; }\nwrote x = 1, was 0\nended\n== last\nthread 0: ended\nthread 1: next at 5:3: t = x\nproperty both: fails: x = 1\n",
                b"",
            ),
        ),
        (
            "txc trace a.c --threads 1 --order 0 --full",
            NESTS,
            b"",
            (
                4,
                b"== first\nu = 7\n== turn 1: thread 0 at 6:3 in worker\n6 |   __transaction_atomic { __transaction_atomic { x = 9; __transaction_cancel; } u = 7; }\nwrote u = 7, as before\ninner transaction at 6:26: cancelled\n== last\nthread 0: next at 7:7: big\n",
                b"",
            ),
        ),
        // an object for each turn
        (
            "txc trace a.c --order 0,0 --property both --format json",
            LOSES,
            b"",
            (
                4,
                b"{\"turn\":1,\"thread\":0,\"line\":5,\"column\":3,\"function\":\"worker\",\"words\":\"t = x\",\"inner\":[],\"reads\":[{\"global\":\"x\",\"value\":0}],\"writes\":[],\"idle\":false,\"cancelled\":false,\"printed\":\"\",\"end\":\"next\"}\n{\"turn\":2,\"thread\":0,\"line\":6,\"column\":3,\"function\":\"worker\",\"words\":\"x = t + 1\",\"inner\":[],\"reads\":[],\"writes\":[{\"global\":\"x\",\"before\":0,\"after\":1}],\"idle\":false,\"cancelled\":false,\"printed\":\"\",\"end\":\"ended\"}\n{\"thread\":0,\"end\":\"ended\"}\n{\"thread\":1,\"end\":\"next\",\"line\":5,\"column\":3,\"function\":\"worker\",\"words\":\"t = x\"}\n{\"property\":\"both\",\"says\":\"fails\",\"values\":[{\"global\":\"x\",\"value\":1}]}\n",
                b"",
            ),
        ),
        // a search reports on standard error how a property fails
        (
            "txc outcomes a.c --final both --trace",
            LOSES,
            b"",
            (
                5,
                b"== not both --order 0,1,0,1\n== thread 0: ended\n== thread 1: ended\n== memory\nx = 1\n",
                b"txc: with --order 0,1,0,1\nturn thread at      x\n                    0\n   1      0 5:3     0   t = x\n   2      1 5:3     0   t = x\n   3      0 6:3    >1   x = t + 1  ended\n   4      1 6:3    >1   x = t + 1  ended\nthread 0: ended\nthread 1: ended\nproperty both: fails: x = 1\n",
            ),
        ),
    ];
    &ROWS
}

#[test]
fn shows_turns(rt: HostRuntime) {
    assert_eq!(rt; wrong_row(&rt, rt.alloc(), traces()), None);
}
