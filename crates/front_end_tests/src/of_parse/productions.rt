//! One source for each production of the grammar.

use crate::asserted::assert_none;
use crate::stages::{Stage, faulty};

/// The rows stand in a function, so that no proof but its own looks at them.
fn items() -> &'static [&'static str] {
    static ROWS: [&str; 34] = [
        // a program without an item
        "",
        // globals: each type's spellings, one and several, with and without a first value
        "int a;",
        "signed a;",
        "signed int a;",
        "unsigned a;",
        "unsigned int a;",
        "int a, b = 1, c;",
        "int a = -1;",
        "unsigned a = 4294967295u;",
        "long long a;",
        "long long int a;",
        "signed long long a;",
        "signed long long int a;",
        "long long a = -9223372036854775807, b[2] = {0x7fffffffffffffffLL, 1u}, c = 0ll;",
        "int a[3LL];",
        "long long f(long long, signed long long int b);",
        // arrays
        "int a[3];",
        "int a[3u] = {1};",
        "int a[3] = {1, -2, 3};",
        "int a[3] = {1, -2, 3,};",
        "int a, b[2] = {1, 2}, c = 3;",
        // functions: results, parameters, prototypes
        "void f() { }",
        "void f(void) { }",
        "int f(int a, unsigned b) { }",
        "unsigned int f(int);",
        "void f(int, unsigned b, signed int);",
        "void f(int a);",
        // attributes
        "[[transaction_safe]] void f(void);",
        "void f(void) [[transaction_unsafe]];",
        "__attribute__((transaction_callable)) int f(void) { }",
        "void f(void) __attribute__((transaction_safe)) { }",
        "[[transaction_safe, transaction_callable]] [[transaction_safe]] void f(void) [[transaction_callable]] __attribute__((transaction_safe));",
        // several items
        "int a; void f(void); int b; void f(void) { } unsigned c[2];",
        "int a; int f(int b) { return b; } void worker(int self) { }",
    ];
    &ROWS
}

fn statements() -> &'static [&'static str] {
    static ROWS: [&str; 69] = [
        // statements in a function: the empty one, blocks, declarations
        "void f() { ; }",
        "void f() { { } }",
        "void f() { { ; { } } }",
        "void f() { int a; }",
        "void f() { unsigned a = 1, b; }",
        "void f() { signed int a = b + 1; }",
        // values, assignments, steps
        "void f() { f(); }",
        "void f() { a; }",
        "void f() { a = 1; }",
        "void f() { a += 1; }",
        "void f() { a -= 1; a *= 2; a /= 2; a %= 2; }",
        "void f() { a <<= 1; a >>= 1; a &= 1; a |= 1; a ^= 1; }",
        "void f() { a[1] = 2; }",
        "void f() { (a) = 2; }",
        "void f() { a++; }",
        "void f() { ++a; }",
        "void f() { a[1]--; }",
        "void f() { --a[1]; }",
        // prints
        "void f() { printf(\"a\"); }",
        "void f() { printf(\"%d %u\\n\", a, f(b)); }",
        // choices and loops
        "void f() { if (a) ; }",
        "void f() { if (a) ; else ; }",
        "void f() { if (a) if (b) ; else ; else ; }",
        "void f() { while (a) ; }",
        "void f() { while (a) if (b) ; else ; }",
        "void f() { do ; while (a); }",
        "void f() { do { } while (a); }",
        "void f() { for (;;) ; }",
        "void f() { for (; a; ) ; }",
        "void f() { for (a = 1; a < 2; a++) { } }",
        "void f() { for (int a = 1, b; a < 2; ++a) ; }",
        "void f() { for (f(); ; f()) ; }",
        "void f() { while (1) { break; continue; } }",
        // leaving
        "void f() { return; }",
        "void f() { return a + 1; }",
        // transactions
        "void f() { __transaction_atomic { } }",
        "void f() { __transaction_relaxed { a = 1; } }",
        "void f() { __transaction_atomic { __transaction_atomic { __transaction_cancel; } } }",
        // expressions: each operator, each kind of operand
        "void f() { a = 1; a = 1u; a = b; a = b[c]; a = f(); a = f(1); a = f(1, b, c); }",
        "void f() { a = (b); }",
        "void f() { a = (int)b; a = (unsigned)b; a = (signed int)b; a = (unsigned int)-(b); }",
        "void f() { a = -b; a = +b; a = !b; a = ~b; a = - - b; }",
        "void f() { a = b * c / d % e; }",
        "void f() { a = b + c - d; }",
        "void f() { a = b << c >> d; }",
        "void f() { a = b < c; a = b > c; a = b <= c; a = b >= c; }",
        "void f() { a = b == c != d; }",
        "void f() { a = b & c ^ d | e; }",
        "void f() { a = b && c || d; }",
        "void f() { a = b ? c : d ? e : f; }",
        "void f() { a = b ? c ? d : e : f; }",
        // `long long`
        "void f() { long long a; signed long long b = 1LL, c; }",
        "void f() { for (long long int a = 1; a < 2; ++a) ; }",
        "void f() { a = (long long)b; a = (signed long long)b; a = (long long int)-(b); a = (signed long long int)(int)b; }",
        "void f(long long int a, signed long long b) { a = 1ll + 1LL; }",
        // transactions that are expressions: as a statement, before an operator, in one another, and where any
        // expression stands
        "void f() { __transaction_atomic (a); }",
        "void f() { __transaction_atomic(a) + 1; }",
        "void f() { __transaction_atomic (a)++; --__transaction_relaxed (a); __transaction_atomic (a) = __transaction_relaxed (b); }",
        "void f() { __transaction_atomic { __transaction_atomic (a); __transaction_relaxed (b) * 2; } __transaction_relaxed { } }",
        "void f() { int a = -__transaction_atomic (b + 1) * !__transaction_relaxed (c), d = (int)__transaction_atomic (e); }",
        "void f() { a[__transaction_relaxed (b)] += __transaction_atomic (__transaction_atomic (c ? d : e)); }",
        "void f() { if (__transaction_atomic (a)) while (__transaction_atomic (b)) ; else do ; while (__transaction_relaxed (c)); }",
        "void f() { for (__transaction_atomic (a); __transaction_atomic (b); __transaction_atomic (c)) ; }",
        "void f() { for (int i = __transaction_atomic (a);;) printf(\"%d\", __transaction_atomic (i)); }",
        "void f() { return __transaction_relaxed (a) && __transaction_atomic (b) ? f(__transaction_atomic (c), 1) : __transaction_relaxed ((d)); }",
        // outer transactions and outer cancels, in both spellings; the word is a name elsewhere
        "void f() { __transaction_atomic [[outer]] { } }",
        "void f() { __transaction_atomic __attribute__((outer)) { __transaction_cancel [[outer]]; } }",
        "void f() { __transaction_atomic [[outer]] { __transaction_atomic { if (a) __transaction_cancel __attribute__ ( ( outer ) ) ; else __transaction_cancel; } } }",
        "void f() { int outer = 1; outer = outer + __transaction_atomic (outer); }",
    ];
    &ROWS
}

#[test]
fn each_item_is_accepted(rt: HostRuntime) {
    assert_none(&rt, faulty(rt.alloc(), Stage::Parse, items()));
}

#[test]
fn each_statement_is_accepted(rt: HostRuntime) {
    assert_none(&rt, faulty(rt.alloc(), Stage::Parse, statements()));
}
