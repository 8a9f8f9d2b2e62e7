use crate::places::Told;

/// A trap in a part of an expression that is not always computed.
pub(crate) fn rows() -> &'static [Told] {
    static ROWS: [Told; 11] = [
        (
            b"void worker(int self) { int z = 0; if (!(7 / z)) z = 1; }",
            b"txc: thread 0: trap 2 at 1:42: the divisor of 7 / 0 is 0\nvoid worker(int self) { int z = 0; if (!(7 / z)) z = 1; }\n                                         ^^^^^\n",
        ),
        (
            b"void worker(int self) { int z = 0; if (z == 0 && 7 / z) z = 1; }",
            b"txc: thread 0: trap 2 at 1:50: the divisor of 7 / 0 is 0\nvoid worker(int self) { int z = 0; if (z == 0 && 7 / z) z = 1; }\n                                                 ^^^^^\n",
        ),
        (
            b"void worker(int self) { int z = 0; if (z || 7 / z || z) z = 1; }",
            b"txc: thread 0: trap 2 at 1:45: the divisor of 7 / 0 is 0\nvoid worker(int self) { int z = 0; if (z || 7 / z || z) z = 1; }\n                                            ^^^^^\n",
        ),
        (
            b"void worker(int self) { int z = 0; int v = (z < 1) && (7 / z > 2); }",
            b"txc: thread 0: trap 2 at 1:56: the divisor of 7 / 0 is 0\nvoid worker(int self) { int z = 0; int v = (z < 1) && (7 / z > 2); }\n                                                       ^^^^^\n",
        ),
        (
            b"void worker(int self) { int z = 0; int v = 7 / z ? 1 : 2; }",
            b"txc: thread 0: trap 2 at 1:44: the divisor of 7 / 0 is 0\nvoid worker(int self) { int z = 0; int v = 7 / z ? 1 : 2; }\n                                           ^^^^^\n",
        ),
        (
            b"void worker(int self) { int z = 0; int v = z ? 1 : 7 / z; }",
            b"txc: thread 0: trap 2 at 1:52: the divisor of 7 / 0 is 0\nvoid worker(int self) { int z = 0; int v = z ? 1 : 7 / z; }\n                                                   ^^^^^\n",
        ),
        (
            b"void worker(int self) { int z = 0; int v = !z ? 7 / z : 1; }",
            b"txc: thread 0: trap 2 at 1:49: the divisor of 7 / 0 is 0\nvoid worker(int self) { int z = 0; int v = !z ? 7 / z : 1; }\n                                                ^^^^^\n",
        ),
        (
            b"void worker(int self) { long long m = 1; m = m << 63 << 1; }",
            b"txc: thread 0: trap 1 at 1:46: 1 << 63 is out of the range of long long\nvoid worker(int self) { long long m = 1; m = m << 63 << 1; }\n                                             ^^^^^^^\n",
        ),
        (
            b"int a[5]; void worker(int self) { int m = 2147483647; __transaction_atomic { m = a[m + 1]; } }",
            b"txc: thread 0: trap 1 at 1:84: 2147483647 + 1 is out of the range of int\nint a[5]; void worker(int self) { int m = 2147483647; __transaction_atomic { m = a[m + 1]; } }\n                                                                                   ^^^^^\n",
        ),
        (
            b"int a[5]; void worker(int self) { unsigned i = 5; __transaction_atomic { i = -a[i]; } }",
            b"txc: thread 0: trap 3 at 1:79: index 5, and a has 5 cells\nint a[5]; void worker(int self) { unsigned i = 5; __transaction_atomic { i = -a[i]; } }\n                                                                              ^^^^\n",
        ),
        (
            b"int a[5]; void worker(int self) { int i = 5; __transaction_atomic { i = a[0] ? 1 : a[i]; } }",
            b"txc: thread 0: trap 3 at 1:84: index 5, and a has 5 cells\nint a[5]; void worker(int self) { int i = 5; __transaction_atomic { i = a[0] ? 1 : a[i]; } }\n                                                                                   ^^^^\n",
        ),
    ];
    &ROWS
}
