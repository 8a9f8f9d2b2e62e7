//! In which order operands, arguments and pieces are computed, and of which type a value is.

use crate::asserted::assert_none;
use crate::of_meaning::run::{first_left, run};
use meaning::{ThreadEnd, ThreadOutcome};
use std::alloc::Global;

/// A text, what is printed, and the first cell of the memory left.
type Row = (&'static str, &'static str, u64);

/// `p` prints its argument and gives it back
fn rows() -> &'static [Row] {
    static ROWS: [Row; 38] = [
        // arguments from the left
        (
            "int x; int p(int n) { printf(\"%d\", n); return n; } int f(int a, int b) { return a - b; }
            void worker(int self) { int k = f(p(5), p(2)); __transaction_atomic { x = k; } }",
            "52",
            3,
        ),
        // operands from the left
        (
            "int x; int p(int n) { printf(\"%d\", n); return n; }
            void worker(int self) { int k = p(5) - p(2) * p(1); __transaction_atomic { x = k; } }",
            "521",
            3,
        ),
        // arguments before the first piece
        (
            "int x; int p(int n) { printf(\"%d\", n); return n; }
            void worker(int self) { printf(\"=%d,%d\", p(1), p(2)); __transaction_atomic { } }",
            "12=1,2",
            0,
        ),
        // what the left operand decides leaves the right one alone
        (
            "int x; int p(int n) { printf(\"%d\", n); return n; }
            void worker(int self) { int k = (p(0) && p(1)) + 2 * (p(2) || p(3)) + 4 * (p(4) && p(5)); __transaction_atomic { x = k; } }",
            "0245",
            6,
        ),
        // one branch of two is computed
        (
            "int x; int p(int n) { printf(\"%d\", n); return n; }
            void worker(int self) { int k = p(0) ? p(1) : p(2); k = 10 * k + (p(3) ? p(4) : p(5)); __transaction_atomic { x = k; } }",
            "0234",
            24,
        ),
        // an index before the right side
        (
            "int x[4]; int p(int n) { printf(\"%d\", n); return n; }
            void worker(int self) { __transaction_relaxed { x[p(0)] = p(6); } }",
            "06",
            6,
        ),
        // the old value before the right side
        (
            "int x; int f(void) { x = 5; return 1; } void worker(int self) { __transaction_atomic { x = 2; x += f(); } }",
            "",
            3,
        ),
        // both branches are converted to one type
        (
            "int x; void worker(int self) { int k = (self ? 1u : -1) > 0; __transaction_atomic { x = k; } }",
            "",
            1,
        ),
        // a value is converted to the function's type
        (
            "int x; unsigned f(int a) { return a; } void worker(int self) { int k = f(-1) > 0; __transaction_atomic { x = k; } }",
            "",
            1,
        ),
        // an argument is converted to its parameter's type
        (
            "int x; int f(unsigned a) { return a > 0; } void worker(int self) { int k = f(-1); __transaction_atomic { x = k; } }",
            "",
            1,
        ),
        // a local is 0 where it is declared, each time
        (
            "int x; void worker(int self) { for (int i = 0; i < 3; i++) { int k; k++; printf(\"%d\", k); } __transaction_atomic { } }",
            "111",
            0,
        ),
        // an inner local hides an outer one, up to the end of its block
        (
            "int x; void worker(int self) { int k = 1; { int k = 2; k++; printf(\"%d\", k); } __transaction_atomic { x = k; } }",
            "3",
            1,
        ),
        // a cancel of an inner transaction gives back the locals that its begin found
        (
            "int x; void worker(int self) { int k = 1; __transaction_atomic { k = 2; __transaction_atomic { k = 3; __transaction_cancel; } x = k; } printf(\"%d\", k); }",
            "2",
            2,
        ),
        // a transaction that is an expression is computed in its place, and keeps its type
        (
            "int x; int p(int n) { printf(\"%d\", n); return n; } void worker(int self) { __transaction_relaxed { int k = p(5) - __transaction_relaxed (p(3) - __transaction_relaxed (p(1))); x = k; } }",
            "531",
            3,
        ),
        (
            "int x; void worker(int self) { __transaction_atomic { x = __transaction_atomic (1u) > -1; x = 1 - x; } }",
            "",
            1,
        ),
        // a constant of `long long`, and a shift of one
        (
            "long long x; void worker(int self) { __transaction_atomic { x = 1LL << 40; } printf(\"%lld\", 1LL << 62); }",
            "4611686018427387904",
            1099511627776,
        ),
        (
            "long long x; void worker(int self) { __transaction_atomic { x = -1LL << 63; } }",
            "",
            9223372036854775808,
        ),
        (
            "long long x; void worker(int self) { __transaction_atomic { x = -0x80000000; } }",
            "",
            2147483648,
        ),
        (
            "long long x; void worker(int self) { __transaction_atomic { x = -2147483648; } }",
            "",
            18446744071562067968,
        ),
        // beside `long long` an operand is converted by its number
        (
            "int x; void worker(int self) { printf(\"%d %d\", -1 < 4294967295u, -1LL < 4294967295u); __transaction_atomic { } }",
            "0 1",
            0,
        ),
        (
            "long long x; void worker(int self) { __transaction_atomic { x = (self ? 1LL : 1u) - 2; } }",
            "",
            18446744073709551615,
        ),
        (
            "long long x; void worker(int self) { __transaction_atomic { x = self ? 0LL : -1; } }",
            "",
            18446744073709551615,
        ),
        (
            "long long x; void worker(int self) { __transaction_atomic { x = 2147483647 + 1LL; } }",
            "",
            2147483648,
        ),
        // an assignment, an argument and a result keep the number modulo the type's
        (
            "int x; void worker(int self) { __transaction_atomic { x = 2147483647; x += 1LL; } }",
            "",
            2147483648,
        ),
        (
            "unsigned x; void worker(int self) { __transaction_atomic { x = 4294967295u; x *= 2147483647LL; } }",
            "",
            2147483649,
        ),
        (
            "unsigned x; void worker(int self) { __transaction_atomic { x = -1LL; } }",
            "",
            4294967295,
        ),
        (
            "long long x; void worker(int self) { __transaction_atomic { x = -1; } }",
            "",
            18446744073709551615,
        ),
        (
            "long long x; void worker(int self) { __transaction_atomic { x = 4294967295u; } }",
            "",
            4294967295,
        ),
        (
            "long long x; long long f(long long a, int b) { return a - b; } void worker(int self) { __transaction_atomic { x = f(-1, 4294967297); } }",
            "",
            18446744073709551614,
        ),
        (
            "long long x; int f(long long a) { return a; } void worker(int self) { __transaction_atomic { x = f(4294967295); } }",
            "",
            18446744073709551615,
        ),
        (
            "long long x; unsigned f(long long a) { return a; } void worker(int self) { __transaction_atomic { x = f(-1); } }",
            "",
            4294967295,
        ),
        (
            "long long x; long long f(int a) { } void worker(int self) { __transaction_atomic { x = f(1) + 5; } }",
            "",
            5,
        ),
        (
            "long long x; void worker(int self) { __transaction_atomic { x = (unsigned)-1LL + (int)4294967297; } }",
            "",
            0,
        ),
        (
            "long long x; void worker(int self) { __transaction_atomic { x = (long long)(unsigned)-1 + (long long)-1; } }",
            "",
            4294967294,
        ),
        // a condition and an index are looked at whole
        (
            "int x; void worker(int self) { __transaction_atomic { if (4294967296) x = 1; if (!4294967296) x = 2; x += 4294967296 && 1; x += 4294967296 ? 4 : 8; } }",
            "",
            6,
        ),
        (
            "int x[4]; void worker(int self) { __transaction_atomic { x[4294967298 - 4294967296] = 3; x[0] = x[2LL]; } }",
            "",
            3,
        ),
        // specifiers of `long long`
        (
            "int x; void worker(int self) { printf(\"a%lld%%%lldb%lld\", -1LL, 9223372036854775807, -9223372036854775807 - 1); __transaction_atomic { } }",
            "a-1%9223372036854775807b-9223372036854775808",
            0,
        ),
        (
            "int x; void worker(int self) { printf(\"%lld %u %d\", ~0LL, ~0u, ~0); __transaction_atomic { } }",
            "-1 4294967295 -1",
            0,
        ),
    ];
    &ROWS
}

/// Whether a thread has ended, has printed this, and has left a memory that begins so.
fn leaves(outcome: &ThreadOutcome, printed: &str, first: u64) -> bool {
    first_left(outcome) == Some(first)
        && outcome.end == ThreadEnd::Ended
        && outcome.text.as_slice() == printed.as_bytes()
}

/// Whether a thread does what the row says.
fn is_so(alloc: Global, row: &Row) -> bool {
    match run(alloc, row.0, 0, 1, 1000) {
        Some(outcome) => leaves(&outcome, row.1, row.2),
        None => false,
    }
}

/// The text of the first row that is not so.
fn first_other(alloc: Global, rows: &[Row]) -> Option<&'static str> {
    for row in rows {
        if !is_so(alloc, row) {
            return Some(row.0);
        }
    }
    None
}

#[test]
fn things_are_computed_in_their_order(rt: HostRuntime) {
    assert_none(&rt, first_other(rt.alloc(), rows()));
}
