//! Values of a wrong type, and the function that each thread runs.

use crate::told::{Row, assert_none, told_otherwise};

fn rows() -> &'static [Row] {
    static ROWS: [Row; 38] = [
        (
            "int x;",
            "28 at 1:7",
            "thread T runs worker(T), defined as void worker(int self)\n",
        ),
        (
            "",
            "28 at 1:1",
            "thread T runs worker(T), defined as void worker(int self)\n",
        ),
        (
            "void worker(void) { }",
            "28 at 1:22",
            "worker has a different type at 1:6\nthread T runs worker(T), defined as void worker(int self)\n",
        ),
        (
            "int worker(int self) { return 0; }",
            "28 at 1:35",
            "worker has a different type at 1:5\nthread T runs worker(T), defined as void worker(int self)\n",
        ),
        (
            "int x;\nvoid Worker(int self) { }\nint f(void) { return 1; }\n",
            "28 at 3:26",
            "worker may be misspelt at 2:6\nthread T runs worker(T), defined as void worker(int self)\n",
        ),
        (
            "void wroker(int self) { }\nint f(void) { return 1; }",
            "28 at 2:26",
            "worker may be misspelt at 1:6\nthread T runs worker(T), defined as void worker(int self)\n",
        ),
        (
            "int main(void) { return 0; }",
            "28 at 1:29",
            "there is no main: thread T runs worker(T), defined as void worker(int self)\n",
        ),
        (
            "void worker(unsigned self) { }",
            "28 at 1:31",
            "worker has a different type at 1:6\nthread T runs worker(T), defined as void worker(int self)\n",
        ),
        (
            "void worker(int self, int n) { }",
            "28 at 1:33",
            "worker has a different type at 1:6\nthread T runs worker(T), defined as void worker(int self)\n",
        ),
        (
            "void thread(int self) { }",
            "28 at 1:26",
            "thread T runs worker(T), defined as void worker(int self)\n",
        ),
        (
            "int x;\nint worker(int);\n",
            "29 at 2:5",
            "it is declared but never defined\n",
        ),
        (
            "void worker();",
            "29 at 1:6",
            "it is declared but never defined\n",
        ),
        (
            "int worker;\n",
            "28 at 1:12",
            "thread T runs worker(T), defined as void worker(int self)\n",
        ),
        (
            "void f(void) { return 1; }\nvoid worker(int self) { }",
            "22 at 1:16",
            "a void function returns no value: write return;\n",
        ),
        (
            "int f(void) { return; }\nvoid worker(int self) { }",
            "22 at 1:15",
            "the function returns a value: write it after return\n",
        ),
        (
            "void f(void) { }\nvoid worker(int self) { int v = f(); }",
            "22 at 2:33",
            "it is a void function and returns no value\n",
        ),
        (
            "void worker(int self) { self(1); }",
            "22 at 1:25",
            "it is not a function\n",
        ),
        (
            "void worker(int self) { self = self(1); }",
            "22 at 1:32",
            "it is not a function\n",
        ),
        (
            "int a[4];\nvoid worker(int self) { __transaction_atomic { self = a; } }",
            "22 at 2:55",
            "it is an array: write an index after its name\n",
        ),
        (
            "int f(void) { return 1; }\nvoid worker(int self) { self = f; }",
            "22 at 2:32",
            "it is a function: its name is not a value\n",
        ),
        (
            "void worker(int self) { self[0] = 1; }",
            "22 at 1:25",
            "it is not an array\n",
        ),
        (
            "int x;\nvoid worker(int self) { __transaction_atomic { self = x[0]; } }",
            "22 at 2:55",
            "it is not an array\n",
        ),
        (
            "int f(int);\nint f(unsigned a) { return 0; }\nvoid worker(int self) { }",
            "22 at 2:5",
            "it is declared with different types at 1:5\n",
        ),
        (
            "int f(int);\nvoid f(int a) { }\nvoid worker(int self) { }",
            "22 at 2:6",
            "it is declared with different types at 1:5\n",
        ),
        (
            "void f(void) { }\nvoid worker(int self) { if (f()) { } }",
            "22 at 2:29",
            "it is a void function and returns no value\n",
        ),
        (
            "void f(void) { }\nvoid worker(int self) { self = 1 + f(); }",
            "22 at 2:36",
            "it is a void function and returns no value\n",
        ),
        (
            "int a[4];\nvoid worker(int self) { __transaction_atomic { a = 1; } }",
            "24 at 2:48",
            "the left side of an assignment must be a variable or an element of an array\n",
        ),
        (
            "int f(void) { return 1; }\nvoid worker(int self) { f = 1; }",
            "24 at 2:25",
            "the left side of an assignment must be a variable or an element of an array\n",
        ),
        (
            "void f(void) { }\nint g(int a) { return a; }\nvoid worker(int self) { g(f()); }",
            "22 at 3:27",
            "it is a void function and returns no value\n",
        ),
        (
            "int a[4];\nint g(int a) { return a; }\nvoid worker(int self) { __transaction_atomic { g(a); } }",
            "22 at 3:50",
            "it is an array: write an index after its name\n",
        ),
        (
            "void worker(int self) { return self; }",
            "22 at 1:25",
            "a void function returns no value: write return;\n",
        ),
        (
            "void f(void) { }\nvoid worker(int self) { printf(\"%d\", f()); }",
            "22 at 2:38",
            "it is a void function and returns no value\n",
        ),
        (
            "int f(int);\nint f(void) { return 0; }\nvoid worker(int self) { }",
            "22 at 2:5",
            "it is declared with different types at 1:5\n",
        ),
        (
            "void worker(int self) { int f = 1; f(); }",
            "22 at 1:36",
            "it is not a function\n",
        ),
        (
            "int a[4];\nvoid worker(int self) { __transaction_atomic { a(); } }",
            "22 at 2:48",
            "it is not a function\n",
        ),
        (
            "void x;",
            "10 at 1:7",
            "a variable can't be void: void is a function's return type, or its empty list of parameters\nexpected '('\n",
        ),
        (
            "void f(void v) { }",
            "10 at 1:13",
            "a variable can't be void: void is a function's return type, or its empty list of parameters\nexpected ')'\n",
        ),
        (
            "void worker(int self) { void v; }",
            "10 at 1:25",
            "a variable can't be void: void is a function's return type, or its empty list of parameters\nexpected '}', a declaration or a statement\n",
        ),
    ];
    &ROWS
}

#[test]
fn types_are_told(rt: HostRuntime) {
    assert_none(&rt, told_otherwise(rt.alloc(), rows()));
}
