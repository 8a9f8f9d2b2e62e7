//! The words that follow a fault on a terminal.

use std::alloc::Global;
use std::sync::Wait;
use std::thread::Threads;
use test_serving::answers;

/// A source, and the words that follow its source line.
type Row = (&'static str, &'static str);

fn rows() -> &'static [Row] {
    static ROWS: [Row; 27] = [
        (
            "int x y;",
            "txc: fault 10 at 1:7: unexpected token\nint x y;\n      ^\nexpected ';', ',', '(', '[' or '='\ntxc explain 10 says more\n",
        ),
        (
            "int x; void worker(int self) { transaction_atomic { } }",
            "txc: fault 10 at 1:51: unexpected token\nint x; void worker(int self) { transaction_atomic { } }\n                                                  ^\nthe keywords are __transaction_atomic, __transaction_relaxed and __transaction_cancel\nexpected ';', '(', '[', an assignment or an operator\ntxc explain 10 says more\n",
        ),
        (
            "void worker(int self) { switch (self) { } }",
            "txc: fault 10 at 1:25: unexpected token\nvoid worker(int self) { switch (self) { } }\n                        ^^^^^^\nthere is no switch: use if and else\nexpected '}', a declaration or a statement\ntxc explain 10 says more\n",
        ),
        (
            "char c;",
            "txc: fault 10 at 1:1: unexpected token\nchar c;\n^^^^\nthe types are int, unsigned and long long\nexpected a declaration\ntxc explain 10 says more\n",
        ),
        (
            "int *p;",
            "txc: fault 10 at 1:5: unexpected token\nint *p;\n    ^\nthere are no pointers: return a value, or set a global\nexpected a name\ntxc explain 10 says more\n",
        ),
        (
            "void worker(int self) { int a = self",
            "txc: fault 12 at 1:37: unexpected end\nvoid worker(int self) { int a = self\n                                    ^\nexpected ';', ',', '(', '[' or an operator\ntxc explain 12 says more\n",
        ),
        (
            "int x = 'a';",
            "txc: fault 01 at 1:9: bad character\nint x = 'a';\n        ^\nthere are no character constants: write the number, or put the character in a format\ntxc explain 01 says more\n",
        ),
        (
            "#define A 1\n",
            "txc: fault 06 at 1:1: directive\n#define A 1\n^\nthere are no macros, and #include lines are ignored: write the number, or a global\ntxc explain 06 says more\n",
        ),
        (
            "int count; void worker(int self) { __transaction_atomic { coumt = 1; } }",
            "txc: fault 20 at 1:59: unknown name\nint count; void worker(int self) { __transaction_atomic { coumt = 1; } }\n                                                          ^^^^^\na similar name is count\ntxc explain 20 says more\n",
        ),
        (
            "void worker(int self) { puts(\"a\"); }",
            "txc: fault 10 at 1:30: unexpected token\nvoid worker(int self) { puts(\"a\"); }\n                             ^^^\na string is allowed only as the first argument of printf\nexpected ')' or an expression\ntxc explain 10 says more\n",
        ),
        (
            "static int x;",
            "txc: fault 10 at 1:1: unexpected token\nstatic int x;\n^^^^^^\nthere is no static: leave it out, or make the variable global\nexpected a declaration\ntxc explain 10 says more\n",
        ),
        (
            "bool b;",
            "txc: fault 10 at 1:1: unexpected token\nbool b;\n^^^^\nthe types are int, unsigned and long long\nexpected a declaration\ntxc explain 10 says more\n",
        ),
        (
            "void worker(int self) { int a, b; a = b = 1; }",
            "txc: fault 10 at 1:41: unexpected token\nvoid worker(int self) { int a, b; a = b = 1; }\n                                        ^\nan assignment is a statement and has no value: write one for each variable\nexpected ';', '(', '[' or an operator\ntxc explain 10 says more\n",
        ),
        (
            "void worker(int self) { int a = &self; }",
            "txc: fault 10 at 1:33: unexpected token\nvoid worker(int self) { int a = &self; }\n                                ^\nthere are no pointers: return a value, or set a global\nexpected an expression\ntxc explain 10 says more\n",
        ),
        (
            "void worker(int self) { self->a = 1; }",
            "txc: fault 10 at 1:30: unexpected token\nvoid worker(int self) { self->a = 1; }\n                             ^\nthere are no pointers, and no structs\nexpected an expression\ntxc explain 10 says more\n",
        ),
        (
            "void worker(int self) { sleep(1); }",
            "txc: fault 20 at 1:25: unknown name\nvoid worker(int self) { sleep(1); }\n                        ^^^^^\nprintf is the only function of C's library\ntxc explain 20 says more\n",
        ),
        (
            "void worker(int self) { f(); } void f(void) { }",
            "txc: fault 20 at 1:25: unknown name\nvoid worker(int self) { f(); } void f(void) { }\n                        ^\nit is declared further down: a name must be declared before it is used\ntxc explain 20 says more\n",
        ),
        (
            "void worker(int self) { retrun; }",
            "txc: fault 20 at 1:25: unknown name\nvoid worker(int self) { retrun; }\n                        ^^^^^^\na similar keyword is return\ntxc explain 20 says more\n",
        ),
        (
            "void worker(int self) { printf(\"%x\", self); }",
            "txc: fault 27 at 1:32: bad format\nvoid worker(int self) { printf(\"%x\", self); }\n                               ^^^^\nthere is no conversion %x\nthe conversions are %d (int), %u (unsigned) and %lld (long long), with one argument each\ntxc explain 27 says more\n",
        ),
        (
            "int x; void worker(int self) { x = 1; }",
            "txc: fault 50 at 1:32: shared access outside a transaction\nint x; void worker(int self) { x = 1; }\n                               ^\nput it in __transaction_atomic { .. }, or an expression in __transaction_atomic ( .. )\ntxc explain 50 says more\n",
        ),
        (
            "void worker(int self) { __transaction_atomic { printf(\"a\"); } }",
            "txc: fault 40 at 1:48: unsafe in atomic\nvoid worker(int self) { __transaction_atomic { printf(\"a\"); } }\n                                               ^^^^^^\na print can't be undone: move it after the transaction, or use __transaction_relaxed\ntxc explain 40 says more\n",
        ),
        (
            "int main(void) { return 0; }",
            "txc: fault 28 at 1:29: no worker\nint main(void) { return 0; }\n                            ^\nthere is no main: thread T runs worker(T), defined as void worker(int self)\ntxc explain 28 says more\n",
        ),
        (
            "void worker(void) { }",
            "txc: fault 28 at 1:22: no worker\nvoid worker(void) { }\n                     ^\nworker has a different type at 1:6\nthread T runs worker(T), defined as void worker(int self)\ntxc explain 28 says more\n",
        ),
        (
            "unsigned long long x;",
            "txc: fault 10 at 1:10: unexpected token\nunsigned long long x;\n         ^^^^\nlong is allowed only in long long, which is signed\nexpected a name\ntxc explain 10 says more\n",
        ),
        (
            "long int x;",
            "txc: fault 10 at 1:6: unexpected token\nlong int x;\n     ^^^\nlong is allowed only in long long, which is signed\nexpected 'long'\ntxc explain 10 says more\n",
        ),
        (
            "int x = 1ul;",
            "txc: fault 01 at 1:11: bad character\nint x = 1ul;\n          ^\na constant's suffix is u or ll\ntxc explain 01 says more\n",
        ),
        (
            "int x = 9223372036854775808;",
            "txc: fault 02 at 1:9: constant too large\nint x = 9223372036854775808;\n        ^^^^^^^^^^^^^^^^^^^\nthe largest constant is 9223372036854775807, or 4294967295 with the suffix u\ntxc explain 02 says more\n",
        ),
    ];
    &ROWS
}

/// The source of the first row with another report.
fn told_otherwise<H: Threads + Wait + Sync>(rt: &H, alloc: Global) -> Option<&'static str> {
    for (source, told) in rows() {
        let wanted = (1, b"".as_slice(), told.as_bytes());
        let line = "txc check a.c";
        if !answers(rt, alloc, line, source.as_bytes(), b"", true, wanted) {
            return Some(*source);
        }
    }
    None
}

#[test]
fn hints_follow_on_a_terminal(rt: HostRuntime) {
    assert_eq!(rt; told_otherwise(&rt, rt.alloc()), None);
}
