//! Faults with their places, and programs without one.

use crate::asserted::assert_none;
use crate::stages::{Row, Stage, faulty, has_another};

/// The rows stand in a function, so that no proof but its own looks at them.
fn faults() -> &'static [Row] {
    static ROWS: [Row; 33] = [
        (
            "void worker(int k) { __transaction_atomic { printf(\"a\"); } }",
            40,
            44,
            50,
        ),
        (
            "void worker(int k) { __transaction_atomic { __transaction_relaxed { } } }",
            41,
            44,
            65,
        ),
        (
            "void worker(int k) { __transaction_relaxed { __transaction_cancel; } }",
            42,
            45,
            65,
        ),
        (
            "__attribute__((transaction_safe)) void f(void) { printf(\"a\"); } void worker(int k) { }",
            43,
            39,
            40,
        ),
        // an attribute on a prototype behind the definition
        (
            "void f(void) { } [[transaction_unsafe]] void f(void); void worker(int k) { __transaction_atomic { f(); } }",
            40,
            98,
            99,
        ),
        (
            "void f(void) { printf(\"a\"); } [[transaction_safe]] void f(void); void worker(int k) { }",
            43,
            5,
            6,
        ),
        // safe by one declaration and unsafe by another
        (
            "[[transaction_safe]] void f(void); [[transaction_unsafe]] void f(void) { } void worker(int k) { }",
            43,
            63,
            64,
        ),
        // recursion through two functions
        (
            "void g(void); void f(void) { g(); } void g(void) { f(); printf(\"a\"); } void worker(int k) { __transaction_atomic { f(); } }",
            40,
            115,
            116,
        ),
        // unsafe code that nobody reaches
        (
            "void worker(int k) { __transaction_atomic { if (0) printf(\"a\"); } }",
            40,
            51,
            57,
        ),
        // a cancel in a function that is called from atomic code alone
        (
            "void f(void) { __transaction_cancel; } void worker(int k) { __transaction_atomic { f(); } }",
            42,
            15,
            35,
        ),
        // 43 comes before the places in the body
        (
            "[[transaction_safe]] void f(void) { __transaction_cancel; printf(\"a\"); } void worker(int k) { }",
            43,
            26,
            27,
        ),
        // transactions that are expressions: a call of an unsafe function, and a relaxed one, at its keyword
        (
            "int f(void) { printf(\"a\"); return 1; } void worker(int k) { k = __transaction_atomic (f()); }",
            40,
            86,
            87,
        ),
        (
            "int f(int a) { return __transaction_relaxed (a); } void worker(int k) { __transaction_atomic { k = f(k); } }",
            40,
            99,
            100,
        ),
        (
            "void worker(int k) { k = __transaction_atomic (__transaction_relaxed (k)); }",
            41,
            47,
            68,
        ),
        (
            "void worker(int k) { __transaction_atomic { if (__transaction_relaxed (k) + 1) ; } }",
            41,
            48,
            69,
        ),
        (
            "void worker(int k) { k = __transaction_relaxed (__transaction_atomic (k + __transaction_relaxed (1))); }",
            41,
            74,
            95,
        ),
        (
            "int f(void) { printf(\"a\"); return 1; } void worker(int k) { k = __transaction_atomic (__transaction_relaxed (f())); }",
            41,
            86,
            107,
        ),
        (
            "int f(void) { printf(\"a\"); return 1; } void worker(int k) { k = __transaction_atomic (f() + __transaction_relaxed (1)); }",
            40,
            86,
            87,
        ),
        (
            "int f(int n) [[transaction_safe]] { return __transaction_relaxed (n); } void worker(int k) { }",
            43,
            4,
            5,
        ),
        // an expression is no place for a cancel, and one behind it stands in no transaction
        (
            "void worker(int k) { __transaction_atomic (k); __transaction_cancel; }",
            42,
            47,
            67,
        ),
        // an outer transaction in an atomic one, lexically and through calls, and before a call that is unsafe as well
        (
            "void worker(int k) { __transaction_atomic { __transaction_atomic [[outer]] { } } }",
            44,
            44,
            64,
        ),
        (
            "void worker(int k) { __transaction_atomic [[outer]] { __transaction_cancel; __transaction_atomic [[outer]] { } } }",
            44,
            76,
            96,
        ),
        (
            "void worker(int k) { __transaction_relaxed { __transaction_atomic { __transaction_atomic [[outer]] { } } } }",
            44,
            68,
            88,
        ),
        (
            "void f(void) { __transaction_atomic [[outer]] { } } void g(void) { f(); } void worker(int k) { __transaction_relaxed { g(); } __transaction_atomic { g(); } }",
            44,
            149,
            150,
        ),
        (
            "void g(int); void f(int k) { if (k) g(k); } void g(int k) { f(k - 1); __transaction_atomic [[outer]] { } } void worker(int k) { __transaction_atomic { f(k); } }",
            44,
            151,
            152,
        ),
        (
            "int f(void) { __transaction_atomic [[outer]] { } return 1; } void worker(int k) { k = __transaction_atomic (f()); }",
            44,
            108,
            109,
        ),
        (
            "void f(void) { __transaction_atomic [[outer]] { } printf(\"\"); } void worker(int k) { __transaction_atomic { f(); } }",
            40,
            108,
            109,
        ),
        (
            "void worker(int k) { __transaction_atomic [[outer]] { __transaction_relaxed { __transaction_cancel [[outer]]; } } }",
            41,
            54,
            75,
        ),
        // an outer cancel in no outer transaction of its function
        (
            "void worker(int k) { __transaction_cancel [[outer]]; }",
            45,
            21,
            41,
        ),
        (
            "void worker(int k) { __transaction_atomic { __transaction_cancel [[outer]]; } }",
            45,
            44,
            64,
        ),
        (
            "void f(void) { __transaction_atomic { __transaction_cancel [[outer]]; } } void worker(int k) { __transaction_relaxed { __transaction_atomic [[outer]] { } } }",
            45,
            38,
            58,
        ),
        (
            "void worker(int k) { __transaction_atomic [[outer]] { } __transaction_atomic { __transaction_cancel [[outer]]; } }",
            45,
            79,
            99,
        ),
        (
            "void worker(int k) { __transaction_relaxed { __transaction_cancel; } __transaction_atomic { __transaction_cancel [[outer]]; } }",
            42,
            45,
            65,
        ),
    ];
    &ROWS
}

fn safe_programs() -> &'static [&'static str] {
    static ROWS: [&str; 10] = [
        "void worker(int k) { printf(\"a\"); __transaction_relaxed { printf(\"b\"); } }",
        "int x; void worker(int k) { __transaction_atomic { x = k; __transaction_cancel; } x = 1; }",
        "void f(int k) { if (k) f(k - 1); } void worker(int k) { __transaction_atomic { f(k); } }",
        "void g(int); void f(int k) { g(k); } void g(int k) { if (k) f(k - 1); } void worker(int k) { __transaction_atomic { f(k); } }",
        "[[transaction_safe]] void f(void); void f(void) { __transaction_atomic { } } void worker(int k) { __transaction_atomic { f(); } }",
        "[[transaction_callable]] void f(void) { printf(\"a\"); } void worker(int k) { f(); if (k) worker(k - 1); }",
        "[[transaction_safe]] int f(int a) { return __transaction_atomic (a + __transaction_atomic (1)); } void worker(int k) { __transaction_atomic { k = f(__transaction_atomic (k)); } }",
        "int f(void) { printf(\"a\"); return 1; } void worker(int k) { k = __transaction_relaxed (f() + __transaction_relaxed (__transaction_atomic (k))); __transaction_atomic { k = __transaction_atomic (k); __transaction_cancel; } }",
        "void worker(int k) { __transaction_relaxed { __transaction_atomic [[outer]] { __transaction_atomic { __transaction_cancel [[outer]]; } __transaction_cancel; } } __transaction_atomic [[outer]] { if (k) __transaction_cancel [[outer]]; } }",
        "void f(void) { __transaction_atomic [[outer]] { __transaction_cancel [[outer]]; } } int g(void) { f(); return 1; } void worker(int k) { f(); k = g() + __transaction_relaxed (g()); }",
    ];
    &ROWS
}

#[test]
fn faults_have_a_number_and_a_place(rt: HostRuntime) {
    assert_none(&rt, has_another(rt.alloc(), Stage::Safety, faults()));
}

#[test]
fn safe_programs_have_none(rt: HostRuntime) {
    assert_none(&rt, faulty(rt.alloc(), Stage::Safety, safe_programs()));
}
