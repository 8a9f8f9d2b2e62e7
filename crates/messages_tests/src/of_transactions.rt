//! Transactions, and what may not stand in them or outside of them.

use crate::told::{Row, assert_none, told_otherwise};

fn rows() -> &'static [Row] {
    static ROWS: [Row; 41] = [
        (
            "int x;\nvoid worker(int self) { x++; }",
            "50 at 2:25",
            "put it in __transaction_atomic { .. }, or an expression in __transaction_atomic ( .. )\n",
        ),
        (
            "int x;\nvoid worker(int self) { self = x; }",
            "50 at 2:32",
            "put it in __transaction_atomic { .. }, or an expression in __transaction_atomic ( .. )\n",
        ),
        (
            "void worker(int self) { __transaction_atomic { printf(\"a\"); } }",
            "40 at 1:48",
            "a print can't be undone: move it after the transaction, or use __transaction_relaxed\n",
        ),
        (
            "void f(void) { printf(\"a\"); }\nvoid worker(int self) { __transaction_atomic { f(); } }",
            "40 at 2:48",
            "f prints at 1:16\n",
        ),
        (
            "void g(void) { printf(\"a\"); }\nvoid f(void) { g(); }\nvoid worker(int self) { __transaction_atomic { f(); } }",
            "40 at 3:48",
            "f calls g at 2:16, which prints at 1:16\n",
        ),
        (
            "int x;\nint get(void) { return x; }\nvoid worker(int self) { self = get(); }",
            "51 at 3:32",
            "get uses x at 2:24\nput the call in __transaction_atomic { .. }, or the shared accesses inside the function\n",
        ),
        (
            "int x;\nint get(void) { return x; }\nint twice(void) { return get() * 2; }\nvoid worker(int self) { self = twice(); }",
            "51 at 4:32",
            "twice calls get at 3:26, which uses x at 2:24\nput the call in __transaction_atomic { .. }, or the shared accesses inside the function\n",
        ),
        (
            "void f(void) { __transaction_relaxed { } }\nvoid worker(int self) { __transaction_atomic { f(); } }",
            "40 at 2:48",
            "f begins a relaxed transaction at 1:16\n",
        ),
        (
            "void f(void) [[transaction_unsafe]];\nvoid f(void) { }\nvoid worker(int self) { __transaction_atomic { f(); } }",
            "40 at 3:48",
            "f is marked unsafe\n",
        ),
        (
            "int a[3];\nvoid worker(int self) { a[self] = 1; }",
            "50 at 2:25",
            "put it in __transaction_atomic { .. }, or an expression in __transaction_atomic ( .. )\n",
        ),
        (
            "int x;\nvoid worker(int self) { printf(\"%d\", x); }",
            "50 at 2:38",
            "put it in __transaction_atomic { .. }, or an expression in __transaction_atomic ( .. )\n",
        ),
        (
            "int x;\nvoid worker(int self) { if (x) { } }",
            "50 at 2:29",
            "put it in __transaction_atomic { .. }, or an expression in __transaction_atomic ( .. )\n",
        ),
        (
            "__attribute__((transaction_safe)) void f(void) { printf(\"a\"); }\nvoid worker(int self) { }",
            "43 at 1:40",
            "f prints at 1:50\n",
        ),
        (
            "int x;\nint f(int n);\nint get(int n) { return f(n); }\nint f(int n) { return x + get(n); }\nvoid worker(int self) { self = get(1); }",
            "51 at 5:32",
            "get calls f at 3:25, which uses x at 4:23\nput the call in __transaction_atomic { .. }, or the shared accesses inside the function\n",
        ),
        (
            "int x;\nvoid worker(int self) { while (x == 0) { } }",
            "50 at 2:32",
            "put it in __transaction_atomic { .. }, or an expression in __transaction_atomic ( .. )\n",
        ),
        (
            "int x;\nint get(void) { return x; }\nvoid worker(int self) { while (get() == 0) { } }",
            "51 at 3:32",
            "get uses x at 2:24\nput the call in __transaction_atomic { .. }, or the shared accesses inside the function\n",
        ),
        (
            "void worker(int self) { __transaction_atomic { __transaction_relaxed { } } }",
            "41 at 1:48",
            "a relaxed transaction can't be undone, so it can't be inside an atomic one\n",
        ),
        (
            "void worker(int self) { __transaction_relaxed { __transaction_cancel; } }",
            "42 at 1:49",
            "a cancel must be inside the text of the __transaction_atomic it undoes, not in a function called there\n",
        ),
        (
            "void worker(int self) { __transaction_cancel; }",
            "42 at 1:25",
            "a cancel must be inside the text of the __transaction_atomic it undoes, not in a function called there\n",
        ),
        (
            "void f(void) { __transaction_cancel; }\nvoid worker(int self) { __transaction_atomic { f(); } }",
            "42 at 1:16",
            "a cancel must be inside the text of the __transaction_atomic it undoes, not in a function called there\n",
        ),
        (
            "void worker(int self) { __transaction { } }",
            "10 at 1:39",
            "the keywords are __transaction_atomic, __transaction_relaxed and __transaction_cancel\nexpected ';', '(', '[', an assignment or an operator\n",
        ),
        (
            "void worker(int self) { atomic { } }",
            "10 at 1:32",
            "the keywords are __transaction_atomic, __transaction_relaxed and __transaction_cancel\nexpected ';', '(', '[', an assignment or an operator\n",
        ),
        (
            "void worker(int self) { synchronized { } }",
            "10 at 1:38",
            "the keywords are __transaction_atomic, __transaction_relaxed and __transaction_cancel\nexpected ';', '(', '[', an assignment or an operator\n",
        ),
        (
            "void worker(int self) { __transaction_atomc { } }",
            "10 at 1:45",
            "a similar keyword is __transaction_atomic\nexpected ';', '(', '[', an assignment or an operator\n",
        ),
        (
            "void worker(int self) { transaction_atomic { } }",
            "10 at 1:44",
            "the keywords are __transaction_atomic, __transaction_relaxed and __transaction_cancel\nexpected ';', '(', '[', an assignment or an operator\n",
        ),
        (
            "void worker(int self) { __transaction_atomic self = 1; }",
            "10 at 1:46",
            "expected '{', '(' or '['\n",
        ),
        (
            "void worker(int self) { __transaction_atomic (self == 1) { } }",
            "10 at 1:58",
            "a transaction has no condition: put an if inside its block, or around it\nexpected ';', an assignment or an operator\n",
        ),
        (
            "void worker(int self) { __transaction_canel; }",
            "20 at 1:25",
            "a similar keyword is __transaction_cancel\n",
        ),
        (
            "void worker(int self) { __transaction_relaxd { } }",
            "10 at 1:46",
            "a similar keyword is __transaction_relaxed\nexpected ';', '(', '[', an assignment or an operator\n",
        ),
        (
            "void worker(int self) { __transaction_atomic { __transaction_cancel } }",
            "10 at 1:69",
            "expected ';' or '['\n",
        ),
        (
            "void worker(int self) { atomic_cancel { } }",
            "10 at 1:39",
            "the keywords are __transaction_atomic, __transaction_relaxed and __transaction_cancel\nexpected ';', '(', '[', an assignment or an operator\n",
        ),
        (
            "void worker(int self) { _transaction_atomic { } }",
            "10 at 1:45",
            "the keywords are __transaction_atomic, __transaction_relaxed and __transaction_cancel\nexpected ';', '(', '[', an assignment or an operator\n",
        ),
        (
            "void worker(int self) { __transaction_atomic() { } }",
            "10 at 1:46",
            "expected an expression\n",
        ),
        (
            "void worker(int self) { __transaction_atomic { return }; }",
            "10 at 1:55",
            "expected ';' or an expression\n",
        ),
        (
            "void worker(int self) { __transaction_atomic [[inner]] { } }",
            "10 at 1:48",
            "the attributes are transaction_safe, transaction_unsafe and transaction_callable (functions) and outer (transactions)\n",
        ),
        (
            "void worker(int self) { __transaction_atomic { __transaction_cancel [[outer]]; } }",
            "45 at 1:48",
            "an outer cancel must be inside the text of a __transaction_atomic [[outer]]\n",
        ),
        (
            "void worker(int self) { __transaction_atomic { __transaction_atomic [[outer]] { } } }",
            "44 at 1:48",
            "an outer transaction must be outermost: it can't be inside an atomic one\n",
        ),
        (
            "void worker(int self) { __tm_atomic { } }",
            "10 at 1:37",
            "the keywords are __transaction_atomic, __transaction_relaxed and __transaction_cancel\nexpected ';', '(', '[', an assignment or an operator\n",
        ),
        (
            "void worker(int self) { __transaction_atomic { break; } }",
            "26 at 1:48",
            "it must be inside a loop of the same function\n",
        ),
        (
            "void worker(int self) { cancel; }",
            "20 at 1:25",
            "the keywords are __transaction_atomic, __transaction_relaxed and __transaction_cancel\n",
        ),
        (
            "void worker(int self) { __transaction_abort; }",
            "20 at 1:25",
            "the keywords are __transaction_atomic, __transaction_relaxed and __transaction_cancel\n",
        ),
    ];
    &ROWS
}

#[test]
fn transactions_are_told(rt: HostRuntime) {
    assert_none(&rt, told_otherwise(rt.alloc(), rows()));
}
