use crate::places::Told;

/// A trap in an operand.
pub(crate) fn rows() -> &'static [Told] {
    static ROWS: [Told; 15] = [
        (
            b"void worker(int self) { int z = 0; int v = 7 / z + 1 % z; }",
            b"txc: thread 0: trap 2 at 1:44: the divisor of 7 / 0 is 0\nvoid worker(int self) { int z = 0; int v = 7 / z + 1 % z; }\n                                           ^^^^^\n",
        ),
        (
            b"void worker(int self) { int z = 0; int v = 1 + 7 / z; }",
            b"txc: thread 0: trap 2 at 1:48: the divisor of 7 / 0 is 0\nvoid worker(int self) { int z = 0; int v = 1 + 7 / z; }\n                                               ^^^^^\n",
        ),
        (
            b"void worker(int self) { int z = 0; int v = (z + 1) * (7 / z); }",
            b"txc: thread 0: trap 2 at 1:55: the divisor of 7 / 0 is 0\nvoid worker(int self) { int z = 0; int v = (z + 1) * (7 / z); }\n                                                      ^^^^^\n",
        ),
        (
            b"void worker(int self) { int z = 0; int v = ~(7 / z); }",
            b"txc: thread 0: trap 2 at 1:46: the divisor of 7 / 0 is 0\nvoid worker(int self) { int z = 0; int v = ~(7 / z); }\n                                             ^^^^^\n",
        ),
        (
            b"void worker(int self) { int z = 0; int v = -(7 / z); }",
            b"txc: thread 0: trap 2 at 1:46: the divisor of 7 / 0 is 0\nvoid worker(int self) { int z = 0; int v = -(7 / z); }\n                                             ^^^^^\n",
        ),
        (
            b"void worker(int self) { int z = 0; long long v = (long long)(7 / z); }",
            b"txc: thread 0: trap 2 at 1:62: the divisor of 7 / 0 is 0\nvoid worker(int self) { int z = 0; long long v = (long long)(7 / z); }\n                                                             ^^^^^\n",
        ),
        (
            b"int a[5]; void worker(int self) { int z = 0; __transaction_atomic { z = a[7 / z]; } }",
            b"txc: thread 0: trap 2 at 1:75: the divisor of 7 / 0 is 0\nint a[5]; void worker(int self) { int z = 0; __transaction_atomic { z = a[7 / z]; } }\n                                                                          ^^^^^\n",
        ),
        (
            b"void worker(int self) { int z = 0; int v = 7 / z < 3; }",
            b"txc: thread 0: trap 2 at 1:44: the divisor of 7 / 0 is 0\nvoid worker(int self) { int z = 0; int v = 7 / z < 3; }\n                                           ^^^^^\n",
        ),
        (
            b"void worker(int self) { int z = 0; int v = 3 == 7 / z; }",
            b"txc: thread 0: trap 2 at 1:49: the divisor of 7 / 0 is 0\nvoid worker(int self) { int z = 0; int v = 3 == 7 / z; }\n                                                ^^^^^\n",
        ),
        (
            b"void worker(int self) { int z = 0; int v = 1 << (7 / z); }",
            b"txc: thread 0: trap 2 at 1:50: the divisor of 7 / 0 is 0\nvoid worker(int self) { int z = 0; int v = 1 << (7 / z); }\n                                                 ^^^^^\n",
        ),
        (
            b"void worker(int self) { int z = 0; int v = z & (7 / z | 1); }",
            b"txc: thread 0: trap 2 at 1:49: the divisor of 7 / 0 is 0\nvoid worker(int self) { int z = 0; int v = z & (7 / z | 1); }\n                                                ^^^^^\n",
        ),
        (
            b"void worker(int self) { int z = 0; int v = 1 ^ 7 % z; }",
            b"txc: thread 0: trap 2 at 1:48: the divisor of 7 % 0 is 0\nvoid worker(int self) { int z = 0; int v = 1 ^ 7 % z; }\n                                               ^^^^^\n",
        ),
        (
            b"void worker(int self) { int z = 0; unsigned v = 1 - 7 / (unsigned)z; }",
            b"txc: thread 0: trap 2 at 1:53: the divisor of 7 / 0 is 0\nvoid worker(int self) { int z = 0; unsigned v = 1 - 7 / (unsigned)z; }\n                                                    ^^^^^^^^^^^^^^^\n",
        ),
        (
            b"void worker(int self) { int v = 7 / 0; }",
            b"txc: thread 0: trap 2 at 1:33: the divisor of 7 / 0 is 0\nvoid worker(int self) { int v = 7 / 0; }\n                                ^^^^^\n",
        ),
        (
            b"void worker(int self) { int v = 1 << 32; }",
            b"txc: thread 0: trap 5 at 1:33: a shift by 32, and int has 32 bits\nvoid worker(int self) { int v = 1 << 32; }\n                                ^^^^^^^\n",
        ),
    ];
    &ROWS
}
