use crate::places::Told;

/// A trap of an assignment that changes what it assigns to.
pub(crate) fn rows() -> &'static [Told] {
    static ROWS: [Told; 14] = [
        (
            b"void worker(int self) { int m = 2147483647; m += 1; }",
            b"txc: thread 0: trap 1 at 1:45: 2147483647 + 1 is out of the range of int\nvoid worker(int self) { int m = 2147483647; m += 1; }\n                                            ^^^^^^\n",
        ),
        (
            b"void worker(int self) { int m = 2147483647; m++; }",
            b"txc: thread 0: trap 1 at 1:45: 2147483647 + 1 is out of the range of int\nvoid worker(int self) { int m = 2147483647; m++; }\n                                            ^\n",
        ),
        (
            b"void worker(int self) { int m = -2147483647 - 1; m--; }",
            b"txc: thread 0: trap 1 at 1:50: -2147483648 - 1 is out of the range of int\nvoid worker(int self) { int m = -2147483647 - 1; m--; }\n                                                 ^\n",
        ),
        (
            b"void worker(int self) { int m = -2147483647; m -= 2; }",
            b"txc: thread 0: trap 1 at 1:46: -2147483647 - 2 is out of the range of int\nvoid worker(int self) { int m = -2147483647; m -= 2; }\n                                             ^^^^^^\n",
        ),
        (
            b"void worker(int self) { int m = 65536; m *= m; }",
            b"txc: thread 0: trap 1 at 1:40: 65536 * 65536 is out of the range of int\nvoid worker(int self) { int m = 65536; m *= m; }\n                                       ^^^^^^\n",
        ),
        (
            b"void worker(int self) { int z = 0; int v = 7; v /= z; }",
            b"txc: thread 0: trap 2 at 1:47: the divisor of 7 / 0 is 0\nvoid worker(int self) { int z = 0; int v = 7; v /= z; }\n                                              ^^^^^^\n",
        ),
        (
            b"void worker(int self) { int z = 0; int v = 7; v %= z; }",
            b"txc: thread 0: trap 2 at 1:47: the divisor of 7 % 0 is 0\nvoid worker(int self) { int z = 0; int v = 7; v %= z; }\n                                              ^^^^^^\n",
        ),
        (
            b"void worker(int self) { int s = 32; int v = 1; v <<= s; }",
            b"txc: thread 0: trap 5 at 1:48: a shift by 32, and int has 32 bits\nvoid worker(int self) { int s = 32; int v = 1; v <<= s; }\n                                               ^^^^^^^\n",
        ),
        (
            b"void worker(int self) { int s = 32; int v = 1; v >>= s; }",
            b"txc: thread 0: trap 5 at 1:48: a shift by 32, and int has 32 bits\nvoid worker(int self) { int s = 32; int v = 1; v >>= s; }\n                                               ^^^^^^^\n",
        ),
        (
            b"int x; void worker(int self) { int z = 0; __transaction_atomic { x = 7; x /= z; } }",
            b"txc: thread 0: trap 2 at 1:73: the divisor of 7 / 0 is 0\nint x; void worker(int self) { int z = 0; __transaction_atomic { x = 7; x /= z; } }\n                                                                        ^^^^^^\n",
        ),
        (
            b"int x = 2147483647; void worker(int self) { __transaction_atomic { x++; } }",
            b"txc: thread 0: trap 1 at 1:68: 2147483647 + 1 is out of the range of int\nint x = 2147483647; void worker(int self) { __transaction_atomic { x++; } }\n                                                                   ^\n",
        ),
        (
            b"int a[5]; void worker(int self) { int z = 0; __transaction_atomic { a[4] %= z; } }",
            b"txc: thread 0: trap 2 at 1:69: the divisor of 0 % 0 is 0\nint a[5]; void worker(int self) { int z = 0; __transaction_atomic { a[4] %= z; } }\n                                                                    ^^^^^^^^^\n",
        ),
        (
            b"int a[5]; void worker(int self) { int z = 0; __transaction_atomic { a[4] += 7 / z; } }",
            b"txc: thread 0: trap 2 at 1:77: the divisor of 7 / 0 is 0\nint a[5]; void worker(int self) { int z = 0; __transaction_atomic { a[4] += 7 / z; } }\n                                                                            ^^^^^\n",
        ),
        (
            b"int a[5]; void worker(int self) { int i = 5; int z = 0; __transaction_atomic { a[i] += 7 / z; } }",
            b"txc: thread 0: trap 3 at 1:80: index 5, and a has 5 cells\nint a[5]; void worker(int self) { int i = 5; int z = 0; __transaction_atomic { a[i] += 7 / z; } }\n                                                                               ^^^^\n",
        ),
    ];
    &ROWS
}
