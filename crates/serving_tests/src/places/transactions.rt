use crate::places::Told;

/// A trap in a transaction, or after one.
pub(crate) fn rows() -> &'static [Told] {
    static ROWS: [Told; 13] = [
        (
            b"int x; void worker(int self) { __transaction_atomic { x = 1; __transaction_atomic { x = 0; x = 7 / x; } } }",
            b"txc: thread 0: trap 2 at 1:96: the divisor of 7 / 0 is 0\nint x; void worker(int self) { __transaction_atomic { x = 1; __transaction_atomic { x = 0; x = 7 / x; } } }\n                                                                                               ^^^^^\n",
        ),
        (
            b"int a[5]; void worker(int self) { int i = 5; int v = __transaction_atomic (a[i]); }",
            b"txc: thread 0: trap 3 at 1:76: index 5, and a has 5 cells\nint a[5]; void worker(int self) { int i = 5; int v = __transaction_atomic (a[i]); }\n                                                                           ^^^^\n",
        ),
        (
            b"int x; void worker(int self) { int z = 0; __transaction_atomic { x = 1; __transaction_cancel; } z = 7 / z; }",
            b"txc: thread 0: trap 2 at 1:101: the divisor of 7 / 0 is 0\nint x; void worker(int self) { int z = 0; __transaction_atomic { x = 1; __transaction_cancel; } z = 7 / z; }\n                                                                                                    ^^^^^\n",
        ),
        (
            b"int a[5]; void worker(int self) { int i = 5; if (__transaction_atomic (a[i])) i = 1; }",
            b"txc: thread 0: trap 3 at 1:72: index 5, and a has 5 cells\nint a[5]; void worker(int self) { int i = 5; if (__transaction_atomic (a[i])) i = 1; }\n                                                                       ^^^^\n",
        ),
        (
            b"int a[5]; void worker(int self) { int i = 5; __transaction_atomic { while (a[i]) { } } }",
            b"txc: thread 0: trap 3 at 1:76: index 5, and a has 5 cells\nint a[5]; void worker(int self) { int i = 5; __transaction_atomic { while (a[i]) { } } }\n                                                                           ^^^^\n",
        ),
        (
            b"int a[5]; void worker(int self) { int i = 5; __transaction_atomic { if (a[0] == 0 && a[i]) i = 0; } }",
            b"txc: thread 0: trap 3 at 1:86: index 5, and a has 5 cells\nint a[5]; void worker(int self) { int i = 5; __transaction_atomic { if (a[0] == 0 && a[i]) i = 0; } }\n                                                                                     ^^^^\n",
        ),
        (
            b"int x; void worker(int self) { int z = 0; __transaction_relaxed { x = 1; printf(\"%d\\n\", x / z); } }",
            b"txc: thread 0: trap 2 at 1:89: the divisor of 1 / 0 is 0\nint x; void worker(int self) { int z = 0; __transaction_relaxed { x = 1; printf(\"%d\\n\", x / z); } }\n                                                                                        ^^^^^\n",
        ),
        (
            b"int x; void worker(int self) { int z = 0; int v = 1 + __transaction_atomic (x / z); }",
            b"txc: thread 0: trap 2 at 1:77: the divisor of 0 / 0 is 0\nint x; void worker(int self) { int z = 0; int v = 1 + __transaction_atomic (x / z); }\n                                                                            ^^^^^\n",
        ),
        (
            b"int x; void worker(int self) { int z = 0; __transaction_relaxed { z = __transaction_relaxed (x % z); } }",
            b"txc: thread 0: trap 2 at 1:94: the divisor of 0 % 0 is 0\nint x; void worker(int self) { int z = 0; __transaction_relaxed { z = __transaction_relaxed (x % z); } }\n                                                                                             ^^^^^\n",
        ),
        (
            b"int x; void worker(int self) { int m = 2147483647; __transaction_atomic { x = 1; } m = m + 1; }",
            b"txc: thread 0: trap 1 at 1:88: 2147483647 + 1 is out of the range of int\nint x; void worker(int self) { int m = 2147483647; __transaction_atomic { x = 1; } m = m + 1; }\n                                                                                       ^^^^^\n",
        ),
        (
            b"int x; void worker(int self) { int s = 40; __transaction_atomic { for (x = 0; x < 1 << s; x++) { } } }",
            b"txc: thread 0: trap 5 at 1:83: a shift by 40, and int has 32 bits\nint x; void worker(int self) { int s = 40; __transaction_atomic { for (x = 0; x < 1 << s; x++) { } } }\n                                                                                  ^^^^^^\n",
        ),
        (
            b"int x; void worker(int self) { __transaction_atomic { __transaction_atomic { x = 2147483647; } x = x + 1; } }",
            b"txc: thread 0: trap 1 at 1:100: 2147483647 + 1 is out of the range of int\nint x; void worker(int self) { __transaction_atomic { __transaction_atomic { x = 2147483647; } x = x + 1; } }\n                                                                                                   ^^^^^\n",
        ),
        (
            b"int x; void worker(int self) { __transaction_atomic { int m = -2147483647 - 1; x = -m; } }",
            b"txc: thread 0: trap 1 at 1:84: -(-2147483648) is out of the range of int\nint x; void worker(int self) { __transaction_atomic { int m = -2147483647 - 1; x = -m; } }\n                                                                                   ^^\n",
        ),
    ];
    &ROWS
}
