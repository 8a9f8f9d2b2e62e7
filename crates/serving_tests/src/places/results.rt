use crate::places::Told;

/// A trap of each operator.
pub(crate) fn rows() -> &'static [Told] {
    static ROWS: [Told; 13] = [
        (
            b"void worker(int self) { int z = 0; int v = 7 / z; }",
            b"txc: thread 0: trap 2 at 1:44: the divisor of 7 / 0 is 0\nvoid worker(int self) { int z = 0; int v = 7 / z; }\n                                           ^^^^^\n",
        ),
        (
            b"void worker(int self) { int z = 0; int v = 7 % z; }",
            b"txc: thread 0: trap 2 at 1:44: the divisor of 7 % 0 is 0\nvoid worker(int self) { int z = 0; int v = 7 % z; }\n                                           ^^^^^\n",
        ),
        (
            b"void worker(int self) { unsigned z = 0; unsigned v = 7 / z; }",
            b"txc: thread 0: trap 2 at 1:54: the divisor of 7 / 0 is 0\nvoid worker(int self) { unsigned z = 0; unsigned v = 7 / z; }\n                                                     ^^^^^\n",
        ),
        (
            b"void worker(int self) { int m = 2147483647; int v = m + 1; }",
            b"txc: thread 0: trap 1 at 1:53: 2147483647 + 1 is out of the range of int\nvoid worker(int self) { int m = 2147483647; int v = m + 1; }\n                                                    ^^^^^\n",
        ),
        (
            b"void worker(int self) { int m = -2147483647; int v = m - 2; }",
            b"txc: thread 0: trap 1 at 1:54: -2147483647 - 2 is out of the range of int\nvoid worker(int self) { int m = -2147483647; int v = m - 2; }\n                                                     ^^^^^\n",
        ),
        (
            b"void worker(int self) { int m = 65536; int v = m * m; }",
            b"txc: thread 0: trap 1 at 1:48: 65536 * 65536 is out of the range of int\nvoid worker(int self) { int m = 65536; int v = m * m; }\n                                               ^^^^^\n",
        ),
        (
            b"void worker(int self) { long long m = 9223372036854775807; m = m + 1; }",
            b"txc: thread 0: trap 1 at 1:64: 9223372036854775807 + 1 is out of the range of long long\nvoid worker(int self) { long long m = 9223372036854775807; m = m + 1; }\n                                                               ^^^^^\n",
        ),
        (
            b"void worker(int self) { int m = -2147483647 - 1; m = m / -1; }",
            b"txc: thread 0: trap 1 at 1:54: -2147483648 / -1 is out of the range of int\nvoid worker(int self) { int m = -2147483647 - 1; m = m / -1; }\n                                                     ^^^^^^\n",
        ),
        (
            b"void worker(int self) { int m = -2147483647 - 1; m = -m; }",
            b"txc: thread 0: trap 1 at 1:54: -(-2147483648) is out of the range of int\nvoid worker(int self) { int m = -2147483647 - 1; m = -m; }\n                                                     ^^\n",
        ),
        (
            b"void worker(int self) { int s = 32; int v = 1 << s; }",
            b"txc: thread 0: trap 5 at 1:45: a shift by 32, and int has 32 bits\nvoid worker(int self) { int s = 32; int v = 1 << s; }\n                                            ^^^^^^\n",
        ),
        (
            b"void worker(int self) { int s = -1; int v = 1 >> s; }",
            b"txc: thread 0: trap 5 at 1:45: a shift by -1 as int, 4294967295 as unsigned, and int has 32 bits\nvoid worker(int self) { int s = -1; int v = 1 >> s; }\n                                            ^^^^^^\n",
        ),
        (
            b"void worker(int self) { int s = 64; long long v = 1LL << s; }",
            b"txc: thread 0: trap 5 at 1:51: a shift by 64, and long long has 64 bits\nvoid worker(int self) { int s = 64; long long v = 1LL << s; }\n                                                  ^^^^^^^^\n",
        ),
        (
            b"void worker(int self) { int s = 31; int v = 1 << s; }",
            b"txc: thread 0: trap 1 at 1:45: 1 << 31 is out of the range of int\nvoid worker(int self) { int s = 31; int v = 1 << s; }\n                                            ^^^^^^\n",
        ),
    ];
    &ROWS
}
