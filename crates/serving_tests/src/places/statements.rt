use crate::places::Told;

/// A trap in a condition, or in the beginning or the step of a loop.
pub(crate) fn rows() -> &'static [Told] {
    static ROWS: [Told; 7] = [
        (
            b"void worker(int self) { int z = 0; if (7 / z) z = 1; }",
            b"txc: thread 0: trap 2 at 1:40: the divisor of 7 / 0 is 0\nvoid worker(int self) { int z = 0; if (7 / z) z = 1; }\n                                       ^^^^^\n",
        ),
        (
            b"void worker(int self) { int z = 0; if (z) z = 1; else z = 7 / z; }",
            b"txc: thread 0: trap 2 at 1:59: the divisor of 7 / 0 is 0\nvoid worker(int self) { int z = 0; if (z) z = 1; else z = 7 / z; }\n                                                          ^^^^^\n",
        ),
        (
            b"void worker(int self) { int z = 0; while (7 / z) z = 1; }",
            b"txc: thread 0: trap 2 at 1:43: the divisor of 7 / 0 is 0\nvoid worker(int self) { int z = 0; while (7 / z) z = 1; }\n                                          ^^^^^\n",
        ),
        (
            b"void worker(int self) { int z = 0; do { z = 0; } while (7 / z == 3); }",
            b"txc: thread 0: trap 2 at 1:57: the divisor of 7 / 0 is 0\nvoid worker(int self) { int z = 0; do { z = 0; } while (7 / z == 3); }\n                                                        ^^^^^\n",
        ),
        (
            b"void worker(int self) { int z = 0; for (z = 0; 7 / z != 0; z++) { } }",
            b"txc: thread 0: trap 2 at 1:48: the divisor of 7 / 0 is 0\nvoid worker(int self) { int z = 0; for (z = 0; 7 / z != 0; z++) { } }\n                                               ^^^^^\n",
        ),
        (
            b"void worker(int self) { int z = 0; for (int k = 7 / z; k < 3; k++) { } }",
            b"txc: thread 0: trap 2 at 1:49: the divisor of 7 / 0 is 0\nvoid worker(int self) { int z = 0; for (int k = 7 / z; k < 3; k++) { } }\n                                                ^^^^^\n",
        ),
        (
            b"void worker(int self) { int z = 0; for (int k = 0; k < 3; k += 7 / z) { } }",
            b"txc: thread 0: trap 2 at 1:64: the divisor of 7 / 0 is 0\nvoid worker(int self) { int z = 0; for (int k = 0; k < 3; k += 7 / z) { } }\n                                                               ^^^^^\n",
        ),
    ];
    &ROWS
}
