use crate::places::Told;

/// A trap at an index.
pub(crate) fn rows() -> &'static [Told] {
    static ROWS: [Told; 12] = [
        (
            b"int a[5]; void worker(int self) { int i = 5; __transaction_atomic { i = a[i]; } }",
            b"txc: thread 0: trap 3 at 1:73: index 5, and a has 5 cells\nint a[5]; void worker(int self) { int i = 5; __transaction_atomic { i = a[i]; } }\n                                                                        ^^^^\n",
        ),
        (
            b"int a[5]; void worker(int self) { int i = 5; __transaction_atomic { a[i] = 1; } }",
            b"txc: thread 0: trap 3 at 1:69: index 5, and a has 5 cells\nint a[5]; void worker(int self) { int i = 5; __transaction_atomic { a[i] = 1; } }\n                                                                    ^^^^\n",
        ),
        (
            b"int a[5]; void worker(int self) { int i = 5; __transaction_atomic { a[i] += 2; } }",
            b"txc: thread 0: trap 3 at 1:69: index 5, and a has 5 cells\nint a[5]; void worker(int self) { int i = 5; __transaction_atomic { a[i] += 2; } }\n                                                                    ^^^^\n",
        ),
        (
            b"int a[5]; void worker(int self) { int i = 5; __transaction_atomic { a[i]++; } }",
            b"txc: thread 0: trap 3 at 1:69: index 5, and a has 5 cells\nint a[5]; void worker(int self) { int i = 5; __transaction_atomic { a[i]++; } }\n                                                                    ^^^^\n",
        ),
        (
            b"int a[5]; void worker(int self) { int i = 5; __transaction_atomic { a[a[i]] = 1; } }",
            b"txc: thread 0: trap 3 at 1:71: index 5, and a has 5 cells\nint a[5]; void worker(int self) { int i = 5; __transaction_atomic { a[a[i]] = 1; } }\n                                                                      ^^^^\n",
        ),
        (
            b"int a[5]; void worker(int self) { int i = 5; __transaction_atomic { a[i] = a[9]; } }",
            b"txc: thread 0: trap 3 at 1:69: index 5, and a has 5 cells\nint a[5]; void worker(int self) { int i = 5; __transaction_atomic { a[i] = a[9]; } }\n                                                                    ^^^^\n",
        ),
        (
            b"int a[5]; void worker(int self) { int i = 5; __transaction_atomic { a[1] = 3 + a[i]; } }",
            b"txc: thread 0: trap 3 at 1:80: index 5, and a has 5 cells\nint a[5]; void worker(int self) { int i = 5; __transaction_atomic { a[1] = 3 + a[i]; } }\n                                                                               ^^^^\n",
        ),
        (
            b"int a[5]; void worker(int self) { int i = -1; __transaction_atomic { i = a[i]; } }",
            b"txc: thread 0: trap 3 at 1:74: index -1 as int, 4294967295 as unsigned, and a has 5 cells\nint a[5]; void worker(int self) { int i = -1; __transaction_atomic { i = a[i]; } }\n                                                                         ^^^^\n",
        ),
        (
            b"int a[5]; void worker(int self) { long long i = -1; __transaction_atomic { i = a[i]; } }",
            b"txc: thread 0: trap 3 at 1:80: index -1, and a has 5 cells\nint a[5]; void worker(int self) { long long i = -1; __transaction_atomic { i = a[i]; } }\n                                                                               ^^^^\n",
        ),
        (
            b"int one[1]; void worker(int self) { __transaction_atomic { one[2 - 1] = 7; } }",
            b"txc: thread 0: trap 3 at 1:60: index 1, and one has 1 cell\nint one[1]; void worker(int self) { __transaction_atomic { one[2 - 1] = 7; } }\n                                                           ^^^^^^^^^^\n",
        ),
        (
            b"int a[5]; void worker(int self) { for (int k = 0; k < 9; k++) { __transaction_atomic { a[k] = k * 100; } } }",
            b"txc: thread 0: trap 3 at 1:88: index 5, and a has 5 cells\nint a[5]; void worker(int self) { for (int k = 0; k < 9; k++) { __transaction_atomic { a[k] = k * 100; } } }\n                                                                                       ^^^^\n",
        ),
        (
            b"int a[5];\n\nvoid worker(int self) {\n    for (int k = 0; k < 9; k++) {\n        __transaction_atomic {\n\t\ta[0] = a[k] + 100;\n        }\n    }\n}\n",
            b"txc: thread 0: trap 3 at 6:10: index 5, and a has 5 cells\n\t\ta[0] = a[k] + 100;\n\t\t       ^^^^\n",
        ),
    ];
    &ROWS
}
