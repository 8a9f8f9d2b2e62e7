//! Formats, and numbers of arguments, cells and values.

use crate::told::{Row, assert_none, told_otherwise};

fn rows() -> &'static [Row] {
    static ROWS: [Row; 50] = [
        (
            "void worker(int self) { printf(\"%s\", self); }",
            "27 at 1:32",
            "there is no %c or %s: put the characters in the format\nthe conversions are %d (int), %u (unsigned) and %lld (long long), with one argument each\n",
        ),
        (
            "void worker(int self) { printf(\"%x\", self); }",
            "27 at 1:32",
            "there is no conversion %x\nthe conversions are %d (int), %u (unsigned) and %lld (long long), with one argument each\n",
        ),
        (
            "void worker(int self) { printf(\"%5d\", self); }",
            "27 at 1:32",
            "there is no conversion %5d\nthe conversions are %d (int), %u (unsigned) and %lld (long long), with one argument each\n",
        ),
        (
            "void worker(int self) { printf(\"%ld\", self); }",
            "27 at 1:32",
            "there is no conversion %ld\nthe conversions are %d (int), %u (unsigned) and %lld (long long), with one argument each\n",
        ),
        (
            "void worker(int self) { printf(\"%i\", self); }",
            "27 at 1:32",
            "there is no conversion %i\nthe conversions are %d (int), %u (unsigned) and %lld (long long), with one argument each\n",
        ),
        (
            "void worker(int self) { printf(\"%c\", self); }",
            "27 at 1:32",
            "there is no %c or %s: put the characters in the format\nthe conversions are %d (int), %u (unsigned) and %lld (long long), with one argument each\n",
        ),
        (
            "void worker(int self) { printf(\"%d %d\", self); }",
            "27 at 1:32",
            "2 conversions, 1 argument\nthe conversions are %d (int), %u (unsigned) and %lld (long long), with one argument each\n",
        ),
        (
            "void worker(int self) { printf(\"%d\", self, self); }",
            "27 at 1:32",
            "1 conversion, 2 arguments\nthe conversions are %d (int), %u (unsigned) and %lld (long long), with one argument each\n",
        ),
        (
            "void worker(int self) { printf(\"a\", self); }",
            "27 at 1:32",
            "0 conversions, 1 argument\nthe conversions are %d (int), %u (unsigned) and %lld (long long), with one argument each\n",
        ),
        (
            "void worker(int self) { printf(\"%d\"); }",
            "27 at 1:32",
            "1 conversion, 0 arguments\nthe conversions are %d (int), %u (unsigned) and %lld (long long), with one argument each\n",
        ),
        (
            "void worker(int self) { printf(\"100%\"); }",
            "27 at 1:32",
            "write %% for a percent sign\nthe conversions are %d (int), %u (unsigned) and %lld (long long), with one argument each\n",
        ),
        (
            "void worker(int self) { printf(\"50% of %d\", self); }",
            "27 at 1:32",
            "write %% for a percent sign\nthe conversions are %d (int), %u (unsigned) and %lld (long long), with one argument each\n",
        ),
        (
            "void worker(int self) { printf(\"%u\", self); }",
            "27 at 1:38",
            "%u prints it and needs an unsigned\nthe conversions are %d (int), %u (unsigned) and %lld (long long), with one argument each\n",
        ),
        (
            "void worker(int self) { unsigned u = 1; printf(\"%d\", u); }",
            "27 at 1:54",
            "%d prints it and needs an int\nthe conversions are %d (int), %u (unsigned) and %lld (long long), with one argument each\n",
        ),
        (
            "void worker(int self) { long long l = 1; printf(\"%d\", l); }",
            "27 at 1:55",
            "%d prints it and needs an int\nthe conversions are %d (int), %u (unsigned) and %lld (long long), with one argument each\n",
        ),
        (
            "void worker(int self) { printf(\"%lld\", self); }",
            "27 at 1:40",
            "%lld prints it and needs a long long\nthe conversions are %d (int), %u (unsigned) and %lld (long long), with one argument each\n",
        ),
        (
            "void worker(int self) { printf(\"%llu\", self); }",
            "27 at 1:32",
            "there is no conversion %llu\nthe conversions are %d (int), %u (unsigned) and %lld (long long), with one argument each\n",
        ),
        (
            "void worker(int self) { printf(\"%f\", self); }",
            "27 at 1:32",
            "there is no conversion %f\nthe conversions are %d (int), %u (unsigned) and %lld (long long), with one argument each\n",
        ),
        (
            "void worker(int self) { printf(self); }",
            "10 at 1:32",
            "expected a string\n",
        ),
        (
            "void worker(int self) { printf(); }",
            "10 at 1:32",
            "expected a string\n",
        ),
        (
            "void worker(int self) { printf(\"%s\", \"a\"); }",
            "10 at 1:38",
            "a string is allowed only as the first argument of printf\nexpected an expression\n",
        ),
        (
            "void worker(int self) { printf(\"a\" \"b\"); }",
            "10 at 1:36",
            "adjacent strings are not joined: write one string\nexpected ',' or ')'\n",
        ),
        (
            "void worker(int self) { printf(\"%d\\n\" self); }",
            "10 at 1:39",
            "expected ',' or ')'\nunclosed '(' at 1:31\n",
        ),
        (
            "void worker(int self) { self = printf(\"a\"); }",
            "10 at 1:32",
            "printf is a statement and has no value\nexpected an expression\n",
        ),
        (
            "void worker(int self) { printf(\"%d %s\", self); }",
            "27 at 1:32",
            "there is no %c or %s: put the characters in the format\nthe conversions are %d (int), %u (unsigned) and %lld (long long), with one argument each\n",
        ),
        (
            "void worker(int self) { printf(\"%.2d\", self); }",
            "27 at 1:32",
            "there is no conversion %.2d\nthe conversions are %d (int), %u (unsigned) and %lld (long long), with one argument each\n",
        ),
        (
            "void worker(int self) { printf(\"%-5d|%x\", self, self); }",
            "27 at 1:32",
            "there is no conversion %-5d\nthe conversions are %d (int), %u (unsigned) and %lld (long long), with one argument each\n",
        ),
        (
            "void worker(int self) { puts(\"a\"); }",
            "10 at 1:30",
            "a string is allowed only as the first argument of printf\nexpected ')' or an expression\n",
        ),
        (
            "void f(void) { }\nvoid worker(int self) { f(1); }",
            "23 at 2:25",
            "0 parameters, 1 argument\nit is declared at 1:6\n",
        ),
        (
            "int f(int a, int b) { return a; }\nvoid worker(int self) { f(1); }",
            "23 at 2:25",
            "2 parameters, 1 argument\nit is declared at 1:5\n",
        ),
        (
            "int f(int a) { return a; }\nvoid worker(int self) { f(); }",
            "23 at 2:25",
            "1 parameter, 0 arguments\nit is declared at 1:5\n",
        ),
        (
            "int f(int a) { return a; }\nvoid worker(int self) { f(1, 2, self); }",
            "23 at 2:25",
            "1 parameter, 3 arguments\nit is declared at 1:5\n",
        ),
        (
            "int a[2] = {1, 2, 3};\nvoid worker(int self) { }",
            "25 at 1:19",
            "2 cells, 3 values\nan array has 1 to 4096 cells and no more values than cells; all globals together have at most 4096 cells\n",
        ),
        (
            "int a[0];\nvoid worker(int self) { }",
            "25 at 1:7",
            "an array has 1 to 4096 cells and no more values than cells; all globals together have at most 4096 cells\n",
        ),
        (
            "int a[5000];\nvoid worker(int self) { }",
            "25 at 1:7",
            "an array has 1 to 4096 cells and no more values than cells; all globals together have at most 4096 cells\n",
        ),
        (
            "int a[4000];\nint b[97];\nvoid worker(int self) { }",
            "25 at 2:5",
            "an array has 1 to 4096 cells and no more values than cells; all globals together have at most 4096 cells\n",
        ),
        (
            "int x, x;\nvoid worker(int self) { }",
            "21 at 1:8",
            "it is first declared at 1:5\n",
        ),
        (
            "int x;\nint y;\nint x;\nvoid worker(int self) { }",
            "21 at 3:5",
            "it is first declared at 1:5\n",
        ),
        (
            "int x;\nvoid x(void) { }\nvoid worker(int self) { }",
            "21 at 2:6",
            "it is first declared at 1:5\n",
        ),
        (
            "void worker(int self) { int a; int a; }",
            "21 at 1:36",
            "it is first declared at 1:29\n",
        ),
        (
            "void f(int a) { int a; }\nvoid worker(int self) { }",
            "21 at 1:21",
            "it is first declared at 1:12\n",
        ),
        (
            "int f(void) { return 1; }\nint f(void) { return 2; }\nvoid worker(int self) { }",
            "21 at 2:5",
            "it is first declared at 1:5\n",
        ),
        (
            "int f(int a, int a) { return a; }\nvoid worker(int self) { }",
            "21 at 1:18",
            "it is first declared at 1:11\n",
        ),
        (
            "void worker(int self) { int self = 1; }",
            "21 at 1:29",
            "it is first declared at 1:17\n",
        ),
        (
            "int f(int a);\nvoid worker(int self) { f(1); }",
            "29 at 1:5",
            "it is declared but never defined\n",
        ),
        (
            "int x = 9223372036854775808;",
            "02 at 1:9",
            "the largest constant is 9223372036854775807, or 4294967295 with the suffix u\n",
        ),
        (
            "int x = 4294967296u;",
            "02 at 1:9",
            "the largest constant is 9223372036854775807, or 4294967295 with the suffix u\n",
        ),
        (
            "int a[2] = {1, 2, -3};\nvoid worker(int self) { }",
            "25 at 1:19",
            "2 cells, 3 values\nan array has 1 to 4096 cells and no more values than cells; all globals together have at most 4096 cells\n",
        ),
        ("int a[-1];", "10 at 1:7", "expected a number\n"),
        (
            "int x = 99999999999999999999;",
            "02 at 1:9",
            "the largest constant is 9223372036854775807, or 4294967295 with the suffix u\n",
        ),
    ];
    &ROWS
}

#[test]
fn counts_are_told(rt: HostRuntime) {
    assert_none(&rt, told_otherwise(rt.alloc(), rows()));
}
