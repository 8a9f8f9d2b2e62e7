//! Faults with their places, and programs without one.

use crate::asserted::assert_none;
use crate::stages::{Row, Stage, faulty, has_another};

/// The rows stand in a function, so that no proof but its own looks at them.
fn faults() -> &'static [Row] {
    static ROWS: [Row; 25] = [
        ("int x; void worker(int k) { x = 1; }", 50, 28, 29),
        ("int a[3]; void worker(int k) { k = a[1]; }", 50, 35, 36),
        // a bare access that is dead
        ("int x; void worker(int k) { if (0) x = 1; }", 50, 35, 36),
        // a bare access behind a return
        ("int x; void worker(int k) { return; k = x; }", 50, 40, 41),
        // faults by place in the text: an array before its index
        (
            "int x, a[3]; void worker(int k) { __transaction_atomic { x = 1; } k = k + a[x]; }",
            50,
            74,
            75,
        ),
        // faults by place in the text: the left side first
        ("int x, y; void worker(int k) { x = y; }", 50, 31, 32),
        // a bare access behind a local of its name
        (
            "int x; void worker(int k) { { int x = 1; x = 2; } x = 3; }",
            50,
            50,
            51,
        ),
        // a local in its own initialiser is the local, and the global before it
        (
            "int x; void worker(int k) { k = x; int x = x; }",
            50,
            32,
            33,
        ),
        // a bare access in the head of a loop
        (
            "int x; void worker(int k) { for (int i = 0; i < x; i++) ; }",
            50,
            48,
            49,
        ),
        // an argument
        (
            "int x; void f(int a) { } void worker(int k) { f(x); }",
            50,
            48,
            49,
        ),
        // an argument of printf
        (
            "int x; void worker(int k) { printf(\"%d\", x); }",
            50,
            41,
            42,
        ),
        // a call of a function that touches
        (
            "int x; int get(void) { return x; } void worker(int k) { get(); }",
            51,
            56,
            59,
        ),
        // a touching function is touching where it is dead
        (
            "int x; void f(void) { if (0) x = 1; } void worker(int k) { f(); }",
            51,
            59,
            60,
        ),
        // a call of a touching function through another function
        (
            "int x; void f(void) { x = 1; } void g(void) { f(); } void worker(int k) { g(); }",
            51,
            74,
            75,
        ),
        // a call of a touching function through another function that stands behind
        (
            "int x; void g(void); void h(void) { g(); } void g(void) { x = 1; } void worker(int k) { h(); }",
            51,
            88,
            89,
        ),
        // recursion through two functions
        (
            "int x; void g(int k); void f(int k) { if (k) g(k - 1); } void g(int k) { f(k); x = 1; } void worker(int k) { f(k); }",
            51,
            109,
            110,
        ),
        // worker calls itself: the access touches, and so does the call
        (
            "int x; void worker(int k) { if (k) worker(k - 1); x = 1; }",
            51,
            35,
            41,
        ),
        // an access before the call
        (
            "int x; void worker(int k) { x = 1; if (k) worker(k - 1); }",
            50,
            28,
            29,
        ),
        // worker calls itself through another function
        (
            "int x; void worker(int k); void f(int k) { worker(k); } void worker(int k) { f(k); x = 1; }",
            51,
            77,
            78,
        ),
        // an argument stands behind the called name
        (
            "int x; int f(int a) { return a + x; } void worker(int k) { f(x); }",
            51,
            59,
            60,
        ),
        // beside a transaction that is an expression, and round one
        (
            "int x; void worker(int k) { k = __transaction_atomic (x) + x; }",
            50,
            59,
            60,
        ),
        (
            "int x, a[2]; void worker(int k) { a[__transaction_atomic (x)] = 1; }",
            50,
            34,
            35,
        ),
        (
            "int x; void worker(int k) { x += __transaction_relaxed (x); }",
            50,
            28,
            29,
        ),
        (
            "int x; int get(void) { return x; } void worker(int k) { k = __transaction_relaxed (get()) + get(); }",
            51,
            92,
            95,
        ),
        (
            "int x; int same(int n) { return n - x; } void worker(int k) { k = same(__transaction_atomic (x)); }",
            51,
            66,
            70,
        ),
    ];
    &ROWS
}

fn accepted_programs() -> &'static [&'static str] {
    static ROWS: [&str; 13] = [
        // a call in a transaction
        "int x; int get(void) { return x; } void worker(int k) { __transaction_atomic { get(); } }",
        // accesses in either transaction, and in nested ones
        "int x; void worker(int k) { __transaction_atomic { x = 1; __transaction_atomic { x = 2; } } __transaction_relaxed { x = 3; printf(\"%d\", x); } }",
        // a call in a relaxed transaction is not bare
        "int x; void f(void) { x = 1; printf(\"a\"); } void worker(int k) { __transaction_relaxed { f(); } }",
        // worker calls itself, and touches nothing
        "int x; void worker(int k) { __transaction_atomic { x = k; } if (k > 0) worker(k - 1); }",
        // worker calls itself in a transaction
        "int x; void worker(int k) { __transaction_atomic { x = k; if (k > 0) worker(k - 1); } }",
        // a touching function that worker does not call
        "int x; void f(void) { x = 1; } void g(void) { f(); } void worker(int k) { }",
        // recursion through two functions
        "void g(int k); void f(int k) { if (k) g(k - 1); } void g(int k) { f(k); } void worker(int k) { f(k); }",
        // a transaction of the called function
        "int x; void f(void) { __transaction_atomic { x = 1; } } void worker(int k) { f(); }",
        // a local and a parameter hide globals
        "int x, k; void worker(int k) { int x = k; x = x + k; { int x = 2; k = x; } for (int x = 0; x < 3; x++) k = x; }",
        // unsafe code that nobody reaches stands in no atomic body
        "int x; void f(void) { x = 1; printf(\"a\"); } void worker(int k) { if (0) __transaction_relaxed { f(); } }",
        // a name called is no access
        "int x; int f(void) { return 1; } void worker(int k) { k = f(); }",
        // accesses and calls in transactions that are expressions
        "int x, a[2]; int get(void) { return x; } void worker(int k) { if (__transaction_atomic (x)) k = __transaction_relaxed (a[x] + get()) * __transaction_atomic (__transaction_atomic (x)); printf(\"%d\", __transaction_atomic (x)); }",
        "int x; int get(void) { return __transaction_atomic (x); } void worker(int k) { for (; __transaction_atomic (x) < get(); get()) ; }",
    ];
    &ROWS
}

#[test]
fn faults_have_a_number_and_a_place(rt: HostRuntime) {
    assert_none(&rt, has_another(rt.alloc(), Stage::Separation, faults()));
}

#[test]
fn accepted_programs_have_none(rt: HostRuntime) {
    assert_none(
        &rt,
        faulty(rt.alloc(), Stage::Separation, accepted_programs()),
    );
}
