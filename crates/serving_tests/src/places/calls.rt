use crate::places::Told;

/// A trap in an argument, in the called function, or of a call.
pub(crate) fn rows() -> &'static [Told] {
    static ROWS: [Told; 17] = [
        (
            b"int f(int z) { return 7 / z; } void worker(int self) { int v = f(0); }",
            b"txc: thread 0: trap 2 at 1:23: the divisor of 7 / 0 is 0\nint f(int z) { return 7 / z; } void worker(int self) { int v = f(0); }\n                      ^^^^^\n",
        ),
        (
            b"int f(int x, int y) { return x; } void worker(int self) { int z = 0; int v = f(1, 7 / z); }",
            b"txc: thread 0: trap 2 at 1:83: the divisor of 7 / 0 is 0\nint f(int x, int y) { return x; } void worker(int self) { int z = 0; int v = f(1, 7 / z); }\n                                                                                  ^^^^^\n",
        ),
        (
            b"void worker(int self) { int z = 0; printf(\"%d %d\\n\", z, 7 / z); }",
            b"txc: thread 0: trap 2 at 1:57: the divisor of 7 / 0 is 0\nvoid worker(int self) { int z = 0; printf(\"%d %d\\n\", z, 7 / z); }\n                                                        ^^^^^\n",
        ),
        (
            b"void f(void) { f(); } void worker(int self) { f(); }",
            b"txc: thread 0: trap 4 at 1:16: 64 frames are live, and this call wants one more\nvoid f(void) { f(); } void worker(int self) { f(); }\n               ^^^\n",
        ),
        (
            b"void f(int z) { int v = 7 / z; } void worker(int self) { f(0); }",
            b"txc: thread 0: trap 2 at 1:25: the divisor of 7 / 0 is 0\nvoid f(int z) { int v = 7 / z; } void worker(int self) { f(0); }\n                        ^^^^^\n",
        ),
        (
            b"int f(int z) { return 7 / z; } int g(int z) { return f(z); } void worker(int self) { int v = 1 + g(0); }",
            b"txc: thread 0: trap 2 at 1:23: the divisor of 7 / 0 is 0\nint f(int z) { return 7 / z; } int g(int z) { return f(z); } void worker(int self) { int v = 1 + g(0); }\n                      ^^^^^\n",
        ),
        (
            b"int f(int z) { return 7 / z; } int id(int x) { return x; } void worker(int self) { int v = id(f(0)); }",
            b"txc: thread 0: trap 2 at 1:23: the divisor of 7 / 0 is 0\nint f(int z) { return 7 / z; } int id(int x) { return x; } void worker(int self) { int v = id(f(0)); }\n                      ^^^^^\n",
        ),
        (
            b"void f(int x) { } void worker(int self) { int z = 0; f(7 / z); }",
            b"txc: thread 0: trap 2 at 1:56: the divisor of 7 / 0 is 0\nvoid f(int x) { } void worker(int self) { int z = 0; f(7 / z); }\n                                                       ^^^^^\n",
        ),
        (
            b"int f(int z) { return 7 / z; } void worker(int self) { int z = 0; if (f(z)) z = 1; }",
            b"txc: thread 0: trap 2 at 1:23: the divisor of 7 / 0 is 0\nint f(int z) { return 7 / z; } void worker(int self) { int z = 0; if (f(z)) z = 1; }\n                      ^^^^^\n",
        ),
        (
            b"int x; int f(int z) { return x / z; } void worker(int self) { __transaction_atomic { x = f(0); } }",
            b"txc: thread 0: trap 2 at 1:30: the divisor of 0 / 0 is 0\nint x; int f(int z) { return x / z; } void worker(int self) { __transaction_atomic { x = f(0); } }\n                             ^^^^^\n",
        ),
        (
            b"int a[5]; void f(int i) { a[i] = 1; } void worker(int self) { __transaction_atomic { f(5); } }",
            b"txc: thread 0: trap 3 at 1:27: index 5, and a has 5 cells\nint a[5]; void f(int i) { a[i] = 1; } void worker(int self) { __transaction_atomic { f(5); } }\n                          ^^^^\n",
        ),
        (
            b"int a[5]; void f(int i) { __transaction_atomic { a[i] = 1; } } void worker(int self) { f(5); }",
            b"txc: thread 0: trap 3 at 1:50: index 5, and a has 5 cells\nint a[5]; void f(int i) { __transaction_atomic { a[i] = 1; } } void worker(int self) { f(5); }\n                                                 ^^^^\n",
        ),
        (
            b"int a[5]; int f(int i) { return __transaction_atomic (a[i]); } void worker(int self) { int v = 1 + f(5); }",
            b"txc: thread 0: trap 3 at 1:55: index 5, and a has 5 cells\nint a[5]; int f(int i) { return __transaction_atomic (a[i]); } void worker(int self) { int v = 1 + f(5); }\n                                                      ^^^^\n",
        ),
        (
            b"int f(int n) { return 1 + f(n); } void worker(int self) { int v = f(0); }",
            b"txc: thread 0: trap 4 at 1:27: 64 frames are live, and this call wants one more\nint f(int n) { return 1 + f(n); } void worker(int self) { int v = f(0); }\n                          ^^^^\n",
        ),
        (
            b"int x; int f(int n) { return f(n + 1); } void worker(int self) { __transaction_atomic { x = f(0); } }",
            b"txc: thread 0: trap 4 at 1:30: 64 frames are live, and this call wants one more\nint x; int f(int n) { return f(n + 1); } void worker(int self) { __transaction_atomic { x = f(0); } }\n                             ^^^^^^^^\n",
        ),
        (
            b"int f(int n) { int v; if (n) v = f(f(n)); return 1; } void g(int n) { g(f(0)); } void worker(int self) { g(0); }",
            b"txc: thread 0: trap 4 at 1:73: 64 frames are live, and this call wants one more\nint f(int n) { int v; if (n) v = f(f(n)); return 1; } void g(int n) { g(f(0)); } void worker(int self) { g(0); }\n                                                                        ^^^^\n",
        ),
        (
            b"void f(void) { while (1) f(); } void worker(int self) { f(); }",
            b"txc: thread 0: trap 4 at 1:26: 64 frames are live, and this call wants one more\nvoid f(void) { while (1) f(); } void worker(int self) { f(); }\n                         ^^^\n",
        ),
    ];
    &ROWS
}
