//! Depths by the rule: a name, a constant, `;`, `break`, `continue`, `cancel` and `return` without a value have depth
//! 1; any other expression or statement, also one in parentheses, a declaration and a block, has one more than its
//! deepest part. A transaction's block is a part of it. A program is as deep as the deepest block of a function.

use crate::asserted::{assert_none, assert_that};
use crate::of_syntax::texts::each_node;
use std::alloc::Global;
use test_programs::unit_of;

/// A text, and the depth of its tree.
type Row = (&'static str, usize);

fn rows() -> &'static [Row] {
    static ROWS: [Row; 35] = [
        ("int g;", 0),
        ("void f();", 0),
        ("void f() {}", 1),
        ("void f() { ; }", 2),
        ("void f() { break; }", 2),
        ("void f() { continue; }", 2),
        ("void f() { __transaction_cancel; }", 2),
        ("void f() { return; }", 2),
        ("void f() { return x; }", 3),
        ("void f() { x; }", 3),
        ("void f() { 7; }", 3),
        ("void f() { (x); }", 4),
        ("void f() { g(); }", 3),
        ("void f() { g(x, -x); }", 5),
        ("void f() { a[x]; }", 4),
        ("void f() { (7) + x; }", 5),
        ("void f() { !(x) && (int) g(x) ? a[x] : 7 + x; }", 7),
        ("void f() { x++; }", 3),
        ("void f() { x = (1); }", 4),
        ("void f() { int v; }", 2),
        ("void f() { int v, w = x; }", 3),
        ("void f() { {} }", 2),
        ("void f() { { {} } }", 3),
        ("void f() { __transaction_relaxed {} }", 3),
        ("void f() { printf(\"a\"); }", 2),
        ("void f() { printf(\"a\", x); }", 3),
        ("void f() { for (;;) ; }", 3),
        (
            "void f() { for (int v = x; x; x--) { break; continue; } }",
            4,
        ),
        ("void f() { if (x) ; }", 3),
        (
            "void f() { if (x) ; else while (x) do x += x; while (x); }",
            6,
        ),
        ("void f() { __transaction_atomic (x); }", 4),
        (
            "void f() { __transaction_atomic ((__transaction_relaxed (x))); }",
            6,
        ),
        ("void f() { x = __transaction_atomic (x) + 1; }", 5),
        (
            "void f() { __transaction_atomic { __transaction_atomic (x); } }",
            6,
        ),
        (
            "void f() { __transaction_atomic [[outer]] { __transaction_cancel [[outer]]; } }",
            4,
        ),
    ];
    &ROWS
}

/// The depth of a text's tree.
fn depth_of(alloc: Global, text: &str) -> Option<usize> {
    match unit_of(alloc, text) {
        Some(unit) => Some(unit.depth()),
        None => None,
    }
}

/// The first of these texts whose tree has another depth.
fn has_another(alloc: Global, rows: &[Row]) -> Option<&'static str> {
    for (text, depth) in rows {
        if depth_of(alloc, text) != Some(*depth) {
            return Some(*text);
        }
    }
    None
}

#[test]
fn depths_of_programs(rt: HostRuntime) {
    assert_none(&rt, has_another(rt.alloc(), rows()));
    assert_that(&rt, depth_of(rt.alloc(), each_node()).is_some());
}
