//! Programs whose names and types are right.

use crate::asserted::{assert_none, assert_that};
use crate::stages::{Stage, faulty};
use std::alloc::Global;
use syntax::tree::Unit;
use test_programs::unit_of;
use types::check;

/// The rows stand in a function, so that no proof but its own looks at them.
fn rows() -> &'static [&'static str] {
    static ROWS: [&str; 18] = [
        "void worker(int self) { }",
        "void worker(int); void worker(int self) { }",
        // a local is known in its own initialiser, also where it hides a global or a function
        "int a[2]; void worker(int self) { int v = v; int a = a + 1; int worker = worker; }",
        // a scope inside hides what is outside
        "void worker(int self) { { int self; } for (int self = 1; self; self++) { int self; } do { int k; } while (self); }",
        // a `for` has a scope round its body's
        "int same(int i) { return i; } void worker(int self) { for (int i; i;) { int i; same(i); } }",
        // a value that is dropped may be none
        "void f(void) { } void worker(int self) { f(); (f()); printf(\"%%\"); printf(\"\"); }",
        // the types of specifiers
        "unsigned u; void worker(int self) { printf(\"%d%u%d%u\", u < 1, self + u, -self, self ? u : 1); }",
        "unsigned u; void worker(int self) { printf(\"%d%u%u\", self << u, u >> 1, (unsigned)self); }",
        // loops in loops, and returns of both kinds
        "int f(int a) { while (1) { do { break; } while (0); continue; } return a; } void worker(int self) { return; }",
        "int a[4095] = {1, -2,}, b = 3; void worker(int self) { a[b] = a[a[0]]; b += 1; a[1]++; --b; }",
        // a transaction that is an expression has its operand's type
        "unsigned u; void worker(int self) { printf(\"%d%u%d%u\", __transaction_atomic (self), __transaction_atomic (u), __transaction_relaxed (u < 1), __transaction_atomic (self) + __transaction_relaxed (u)); }",
        "unsigned u; int f(int n) { return __transaction_atomic (n); } void worker(int self) { __transaction_atomic (1) + 1; printf(\"%u%d\", __transaction_atomic (u) >> 1, -__transaction_relaxed (f(__transaction_atomic (self ? 1 : 2)))); }",
        // `long long`: initialisers and lengths, functions, cells and indices, conditions, specifiers
        "int a[3LL] = {1, -2ll, 0x100000000}; unsigned b = 4294967296; long long c = -0x80000000, d[4091ll] = {1u, 2, 3LL}; void worker(int self) { }",
        "long long f(long long); int g(long long a) { return f(a); } long long f(signed long long int b) { return g(b) + b; } void worker(int self) { int v = f(self); long long w = f(1u) + g(v); }",
        "int a[2]; long long x; void worker(int self) { __transaction_atomic { a[x] = 1LL; a[0x100000000] += x; x <<= a[1LL]; x++; a[x - 1]--; } }",
        "void worker(int self) { if (1LL) while (0ll) ; for (; 1LL;) break; do ; while (!0LL); self = 1LL && 2 || 3u; self = 1LL ? 2 : 3; }",
        "void worker(int self) { printf(\"%lld%lld%lld%lldd\", self + 1LL, -(1LL), ~1LL << 1, self ? 1u : 1LL); printf(\"%d%d%d%u\", 1LL == 1, !1LL, self << 1LL, 1u >> 1LL); }",
        "unsigned u; void worker(int self) { printf(\"%lld%%lld%lld%d\", (long long)self, __transaction_atomic (u) * 1LL, (int)1LL); printf(\"%lld%lld\", 2147483648, __transaction_relaxed (1LL)); }",
    ];
    &ROWS
}

#[test]
fn right_programs_are_accepted(rt: HostRuntime) {
    assert_none(&rt, faulty(rt.alloc(), Stage::Types, rows()));
}

/// Whether the program that is given on has so many items.
fn has_items(alloc: Global, unit: Unit, count: usize) -> bool {
    match check(alloc, unit) {
        Ok(typed) => typed.unit().items.len() == count,
        Err(_) => false,
    }
}

/// Whether the program of this text has so many items.
fn has_items_of(alloc: Global, text: &str, count: usize) -> bool {
    match unit_of(alloc, text) {
        Some(unit) => has_items(alloc, unit, count),
        None => false,
    }
}

#[test]
fn the_program_is_given_on(rt: HostRuntime) {
    let text =
        "int x, a[3]; void f(void); unsigned y; void worker(int self) { } void f(void) { } int z;";
    let holds = has_items_of(rt.alloc(), text, 6);
    assert_that(&rt, holds);
}
