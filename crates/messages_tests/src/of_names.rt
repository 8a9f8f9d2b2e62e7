//! Names that are not known.

use crate::told::{Row, assert_none, told_otherwise};

fn rows() -> &'static [Row] {
    static ROWS: [Row; 29] = [
        (
            "void worker(int self) { sleep(1); }",
            "20 at 1:25",
            "printf is the only function of C's library\n",
        ),
        (
            "void worker(int self) { scanf(self); }",
            "20 at 1:25",
            "printf is the only function of C's library\n",
        ),
        (
            "void worker(int self) { pthread_create(self); }",
            "20 at 1:25",
            "the option --threads T starts threads, and transactions replace locks\n",
        ),
        (
            "void worker(int self) { f(); } void f(void) {  }",
            "20 at 1:25",
            "it is declared further down: a name must be declared before it is used\n",
        ),
        (
            "void worker(int self) { retrun; }",
            "20 at 1:25",
            "a similar keyword is return\n",
        ),
        (
            "int count;\nvoid worker(int self) { __transaction_atomic { coumt = 1; } }",
            "20 at 2:48",
            "a similar name is count\n",
        ),
        (
            "void worker(int self) { self = NULL; }",
            "20 at 1:32",
            "only numbers are constants: write 0 or 1\n",
        ),
        (
            "void worker(int self) { self = true; }",
            "20 at 1:32",
            "only numbers are constants: write 0 or 1\n",
        ),
        (
            "void worker(int self) { rand(); }",
            "20 at 1:25",
            "printf is the only function of C's library\n",
        ),
        (
            "void worker(int self) { x = 1; }",
            "20 at 1:25",
            "it is not declared anywhere\n",
        ),
        (
            "void worker(int self) { { int a = 1; } a = 2; }",
            "20 at 1:40",
            "it is declared in a block that has ended, at 1:31\n",
        ),
        (
            "void worker(int self) { self = slef; }",
            "20 at 1:32",
            "a similar name is self\n",
        ),
        (
            "void worker(int self) { assert(self); }",
            "20 at 1:25",
            "there is no assert: 1 / (x > 0); traps if x > 0 is false\n",
        ),
        (
            "void worker(int self) { malloc(4); }",
            "20 at 1:25",
            "printf is the only function of C's library\n",
        ),
        (
            "void worker(int self) { int i = j; int j = 1; }",
            "20 at 1:33",
            "it is declared further down: a name must be declared before it is used\n",
        ),
        (
            "void worker(int self) { self = Self; }",
            "20 at 1:32",
            "a similar name is self\n",
        ),
        (
            "void worker(int self) { print(self); }",
            "20 at 1:25",
            "a similar keyword is printf\n",
        ),
        (
            "void worker(int self) { self = INT_MAX; }",
            "20 at 1:32",
            "only numbers are constants: write the number\n",
        ),
        (
            "void worker(int self) { brake; }",
            "20 at 1:25",
            "a similar keyword is break\n",
        ),
        (
            "void worker(int self) { retun 1; }",
            "10 at 1:31",
            "a similar keyword is return\nexpected ';', '(', '[', an assignment or an operator\n",
        ),
        (
            "void worker(int self) { exit(1); }",
            "20 at 1:25",
            "printf is the only function of C's library\n",
        ),
        (
            "void worker(int self) { for (int i = 0; i < 3; i++) { } self = i; }",
            "20 at 1:64",
            "it is declared in a block that has ended, at 1:34\n",
        ),
        (
            "void worker(int self) { whlie (1) { } }",
            "10 at 1:35",
            "a similar keyword is while\nexpected ';', an assignment or an operator\n",
        ),
        (
            "void worker(int self) { esle { } }",
            "10 at 1:30",
            "a similar keyword is else\nexpected ';', '(', '[', an assignment or an operator\n",
        ),
        (
            "void worker(int self) { intt x = 1; }",
            "10 at 1:30",
            "a similar keyword is int\nexpected ';', '(', '[', an assignment or an operator\n",
        ),
        (
            "void worker(int self) { unsinged x = 1; }",
            "10 at 1:34",
            "a similar keyword is unsigned\nexpected ';', '(', '[', an assignment or an operator\n",
        ),
        (
            "viod f(void) { }",
            "10 at 1:1",
            "a similar keyword is void\nexpected a declaration\n",
        ),
        (
            "itn x;",
            "10 at 1:1",
            "a similar keyword is int\nexpected a declaration\n",
        ),
        (
            "unsigend x;",
            "10 at 1:1",
            "a similar keyword is unsigned\nexpected a declaration\n",
        ),
    ];
    &ROWS
}

#[test]
fn names_are_told(rt: HostRuntime) {
    assert_none(&rt, told_otherwise(rt.alloc(), rows()));
}
