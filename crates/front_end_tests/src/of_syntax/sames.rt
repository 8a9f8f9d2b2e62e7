//! Trees of one text are the same, and one other place, name, type or node makes them differ.

use crate::asserted::{assert_none, assert_that};
use crate::of_syntax::texts::each_node;
use containers::Same;
use std::alloc::Global;
use syntax::tree::Unit;
use test_programs::unit_of;

/// Whether a text has this tree; `None` where it has none.
fn has(alloc: Global, one: &Unit, other: &str) -> Option<bool> {
    match unit_of(alloc, other) {
        Some(other) => Some(one.same(&other)),
        None => None,
    }
}

/// Whether two texts have the same tree; `None` where one has none.
fn are_same(alloc: Global, one: &str, other: &str) -> Option<bool> {
    match unit_of(alloc, one) {
        Some(one) => has(alloc, &one, other),
        None => None,
    }
}

/// Two texts, and whether their trees are the same.
type Row = (&'static str, &'static str, bool);

fn rows() -> &'static [Row] {
    static ROWS: [Row; 13] = [
        ("int g;", " int g;", false),
        ("int g;", "int h;", false),
        ("int f;", "int f();", false),
        ("int g, h;", "int g; int h;", false),
        ("void f() { break; }", "void f() {  break;}", false),
        ("void f() { x + 1; }", "void f() { x - 1; }", false),
        ("void f() { return; }", "void f() { ; }", false),
        (
            "void f() { __transaction_atomic(x); }",
            "void f() { __transaction_relaxed(x); }",
            false,
        ),
        (
            "void f() { __transaction_atomic (x); }",
            "void f() { __transaction_atomic(x) ; }",
            false,
        ),
        (
            "void f() { __transaction_atomic(x); }",
            "void f() { __transaction_atomic(y); }",
            false,
        ),
        (
            "void f() { __transaction_atomic [[outer]] { } }",
            "void f() { __transaction_atomic { } }",
            false,
        ),
        (
            "void f() { __transaction_atomic [[outer]] { } }",
            "void f() { __transaction_atomic [[ outer]]{ } }",
            true,
        ),
        // a tree keeps neither spaces nor how a type is spelled
        ("signed g;", "int    g;", true),
    ];
    &ROWS
}

/// The first text of a row whose trees are not as it says.
fn has_another(alloc: Global, rows: &[Row]) -> Option<&'static str> {
    for (one, other, same) in rows {
        if are_same(alloc, one, other) != Some(*same) {
            return Some(*one);
        }
    }
    None
}

#[test]
fn only_trees_made_alike_are_the_same(rt: HostRuntime) {
    assert_none(&rt, has_another(rt.alloc(), rows()));
    let same = are_same(rt.alloc(), each_node(), each_node());
    assert_that(&rt, same == Some(true));
}
