//! Faults with their places.

use crate::asserted::assert_none;
use crate::stages::{Row, Stage, has_another};

/// The rows stand in a function, so that no proof but its own looks at them.
fn rows() -> &'static [Row] {
    static ROWS: [Row; 85] = [
        // what stands where no program goes on
        ("int x = ;", 10, 8, 9),
        ("int = 3;", 10, 4, 5),
        ("int x; }", 10, 7, 8),
        ("int x = 1 + 1;", 10, 10, 11),
        ("int a[] = {1};", 10, 6, 7),
        ("int a[1] = {};", 10, 12, 13),
        ("int a[1] = {1,,};", 10, 14, 15),
        ("int a[1] = 1;", 10, 11, 12),
        ("void x;", 10, 6, 7),
        ("signed unsigned x;", 10, 7, 15),
        ("[[transaction_safe]] int x;", 10, 26, 27),
        ("[[unknown]] void f(void);", 10, 2, 9),
        ("[[]] void f(void);", 10, 2, 3),
        ("void f(int) { }", 10, 12, 13),
        ("void f(int a,) { }", 10, 13, 14),
        ("void f(void a);", 10, 12, 13),
        ("void f(void) { else ; }", 10, 15, 19),
        ("void f(void) { int a }", 10, 21, 22),
        ("void f(void) { if (a) int b; }", 10, 22, 25),
        ("void f(void) { int v = x++; }", 10, 24, 26),
        ("void f(void) { x++ + 1; }", 10, 19, 20),
        ("void f(void) { a = b = c; }", 10, 21, 22),
        ("void f(void) { int v = printf(\"a\"); }", 10, 23, 29),
        ("void f(void) { (void) f(); }", 10, 16, 20),
        ("void f(void) { f(,); }", 10, 17, 18),
        ("void f(void) { for (int a;;) ; ) }", 10, 31, 32),
        ("void f(void) { printf(a); }", 10, 22, 23),
        // `long` stands twice, and neither alone nor beside `unsigned`
        ("unsigned long x;", 10, 9, 13),
        ("unsigned long long x;", 10, 9, 13),
        ("long int x;", 10, 5, 8),
        ("long x;", 10, 5, 6),
        ("int long x;", 10, 4, 8),
        ("int long long x;", 10, 4, 8),
        ("long long unsigned x;", 10, 10, 18),
        ("long long long x;", 10, 10, 14),
        ("long long int int x;", 10, 14, 17),
        ("signed int long long x;", 10, 11, 15),
        ("signed long x;", 10, 12, 13),
        ("signed long int x;", 10, 12, 15),
        ("long signed long x;", 10, 5, 11),
        ("signed unsigned long long x;", 10, 7, 15),
        ("long long signed x;", 10, 10, 16),
        ("long;", 10, 4, 5),
        ("int x = long;", 10, 8, 12),
        ("void f(unsigned long long a);", 10, 16, 20),
        ("void f(long);", 10, 11, 12),
        ("void f(void) { long v; }", 10, 20, 21),
        ("void f(void) { int v = (long) 1; }", 10, 28, 29),
        ("void f(void) { int v = (long int) 1; }", 10, 29, 32),
        ("void f(void) { long = 1; }", 10, 20, 21),
        ("void f(void) { long long; }", 10, 24, 25),
        ("long", 12, 4, 4),
        ("signed long", 12, 11, 11),
        ("long long", 12, 9, 9),
        ("signed long long int", 12, 20, 20),
        ("void f(void) { (long", 12, 20, 20),
        // a transaction is a block, or an operand in parentheses
        ("void f(void) { __transaction_atomic a; }", 10, 36, 37),
        ("void f(void) { __transaction_relaxed ; }", 10, 37, 38),
        ("void f(void) { __transaction_atomic (); }", 10, 37, 38),
        ("void f(void) { __transaction_atomic (a, b); }", 10, 38, 39),
        ("void f(void) { __transaction_atomic (a; }", 10, 38, 39),
        ("void f(void) { __transaction_atomic (a = b); }", 10, 39, 40),
        ("void f(void) { __transaction_relaxed (a) b; }", 10, 41, 42),
        (
            "void f(void) { a = __transaction_atomic { a; }; }",
            10,
            40,
            41,
        ),
        ("void f(void) { __transaction_atomic { } * 1; }", 10, 40, 41),
        ("void f(void) { a = __transaction_cancel; }", 10, 19, 39),
        ("int x = __transaction_atomic (1);", 10, 8, 28),
        ("int x[__transaction_atomic (1)];", 10, 6, 26),
        // the attribute of an outer transaction: one word, once, on an atomic transaction and a cancel alone
        (
            "void f(void) { __transaction_atomic [[outer]] (1); }",
            10,
            46,
            47,
        ),
        (
            "void f(void) { __transaction_atomic [[outer, outer]] { } }",
            10,
            43,
            44,
        ),
        (
            "void f(void) { __transaction_atomic [[outer]] [[outer]] { } }",
            10,
            46,
            47,
        ),
        (
            "void f(void) { __transaction_atomic [[transaction_safe]] { } }",
            10,
            38,
            54,
        ),
        ("void f(void) { __transaction_atomic [[]] { } }", 10, 38, 39),
        (
            "void f(void) { __transaction_relaxed [[outer]] { } }",
            10,
            37,
            38,
        ),
        (
            "void f(void) { __transaction_relaxed __attribute__((outer)) { } }",
            10,
            37,
            50,
        ),
        (
            "void f(void) { __transaction_relaxed [[outer]] (1); }",
            10,
            37,
            38,
        ),
        (
            "void f(void) { __transaction_atomic { __transaction_cancel [[inner]]; } }",
            10,
            61,
            66,
        ),
        (
            "void f(void) { a = __transaction_atomic [[outer]] (1); }",
            10,
            40,
            41,
        ),
        ("[[outer]] void f(void);", 10, 2, 7),
        // the end where a program is begun
        ("int", 12, 3, 3),
        ("int x", 12, 5, 5),
        ("void worker(int self) { ", 12, 23, 23),
        ("void f(void) { __transaction_atomic", 12, 35, 35),
        ("void f(void) { __transaction_relaxed (", 12, 38, 38),
        ("void f(void) { __transaction_atomic (a)", 12, 39, 39),
    ];
    &ROWS
}

#[test]
fn each_fault_has_its_place(rt: HostRuntime) {
    assert_none(&rt, has_another(rt.alloc(), Stage::Parse, rows()));
}
