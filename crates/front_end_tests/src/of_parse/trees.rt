//! Trees of sources: what the grammar groups, and what a tree keeps.

use crate::asserted::{assert_none, assert_that};
use lex::token::{Scalar, Span};
use std::alloc::Global;
use syntax::tree;
use syntax::tree::{Attribute, BinaryOp, Expr, Function, Item, Simple, Stmt, Unit};
use test_programs::unit_of;

/// What a tree is to be.
#[derive(Clone, Copy)]
pub enum Shape {
    /// A tree of this depth.
    Depth(usize),
    /// One function with so many statements.
    Statements(usize),
    /// One function with one `if`, and whether the `else` in it is that of an inner one.
    Choice(bool),
    /// One function with one value: its outermost operator, and whether the left operand is an operator's and whether
    /// the right one is.
    Sum(BinaryOp, bool, bool),
    /// The function of `DECLARED`.
    Declared,
    /// The two declarations of `GLOBALS`.
    Globals,
    /// One global of this type.
    Of(Scalar),
}

/// A program, and the tree that it is to have.
type Row = (&'static str, Shape);

/// The rows stand in a function, so that no proof but its own looks at them.
fn choices() -> &'static [Row] {
    static ROWS: [Row; 3] = [
        ("void f() { if (a) if (b) ; else ; }", Shape::Choice(true)),
        (
            "void f() { if (a) { if (b) ; } else ; }",
            Shape::Choice(false),
        ),
        (
            "void f() { if (a) do if (b) ; while (c); else ; }",
            Shape::Choice(false),
        ),
    ];
    &ROWS
}

fn sums() -> &'static [Row] {
    static ROWS: [Row; 10] = [
        (
            "void f() { a - b - c; }",
            Shape::Sum(BinaryOp::Subtract, true, false),
        ),
        (
            "void f() { a - b + c; }",
            Shape::Sum(BinaryOp::Add, true, false),
        ),
        (
            "void f() { a + b * c; }",
            Shape::Sum(BinaryOp::Add, false, true),
        ),
        (
            "void f() { a * b + c; }",
            Shape::Sum(BinaryOp::Add, true, false),
        ),
        (
            "void f() { a << b + c; }",
            Shape::Sum(BinaryOp::ShiftLeft, false, true),
        ),
        (
            "void f() { a < b << c; }",
            Shape::Sum(BinaryOp::Less, false, true),
        ),
        (
            "void f() { a == b < c; }",
            Shape::Sum(BinaryOp::Equal, false, true),
        ),
        (
            "void f() { a & b == c; }",
            Shape::Sum(BinaryOp::And, false, true),
        ),
        (
            "void f() { a ^ b & c; }",
            Shape::Sum(BinaryOp::Xor, false, true),
        ),
        (
            "void f() { a | b ^ c; }",
            Shape::Sum(BinaryOp::Or, false, true),
        ),
    ];
    &ROWS
}

/// The statements of a program's one function.
fn body_of(unit: &Unit) -> Option<&[Stmt]> {
    match unit.items.as_slice() {
        [Item::Function(function)] => match &function.body {
            Some(body) => Some(body.as_slice()),
            None => None,
        },
        _ => None,
    }
}

/// Of a body that is one `if`, whether its `else` is that of an `if` in it.
fn is_nearest(body: Option<&[Stmt]>) -> Option<bool> {
    match body {
        Some([Stmt::If(_, _, Some(_))]) => Some(false),
        Some([Stmt::If(_, then, None)]) => {
            if matches!(then.get(), Stmt::If(_, _, Some(_))) {
                Some(true)
            } else {
                None
            }
        }
        _ => None,
    }
}

/// Of a body that is a value, its outermost operator, and whether the operands are operators' values.
fn grouping_of(body: Option<&[Stmt]>) -> Option<(BinaryOp, bool, bool)> {
    match body {
        Some([Stmt::Do(Simple::Evaluate(Expr::Binary(op, a, b, _)))]) => {
            let left = matches!(a.get(), Expr::Binary(_, _, _, _));
            let right = matches!(b.get(), Expr::Binary(_, _, _, _));
            Some((*op, left, right))
        }
        _ => None,
    }
}

const DECLARED: &str =
    "[[transaction_safe, transaction_unsafe]] unsigned f(int a, unsigned) __attribute__((transaction_callable));";

/// Whether the attributes, the type and the name are those of the text.
fn keeps_head(f: &Function) -> bool {
    let declared = [Attribute::Safe, Attribute::Unsafe, Attribute::Callable];
    f.attributes.as_slice() == declared.as_slice()
        && f.result == Some(Scalar::Unsigned)
        && f.name.text.as_str() == "f"
        && f.body.is_none()
}

/// Whether the parameters are those of the text.
fn keeps_parameters(f: &Function) -> bool {
    match f.parameters.as_slice() {
        [first, second] => {
            first.ty == Scalar::Int
                && first.name.is_some()
                && second.ty == Scalar::Unsigned
                && second.name.is_none()
        }
        _ => false,
    }
}

/// Whether the tree's one item is the function of the text.
fn keeps_function(unit: &Unit) -> bool {
    match unit.items.as_slice() {
        [Item::Function(f)] => {
            unit.end == DECLARED.len() && keeps_head(f) && keeps_parameters(f)
        }
        _ => false,
    }
}

const GLOBALS: &str = "unsigned a = 7u, b[3] = {1, -2,}; signed c;";

/// Whether a global is an `unsigned` with no length, and 7 its first value.
fn is_seven(g: &tree::Global) -> bool {
    match g.first.as_slice() {
        [seven] => {
            g.ty == Scalar::Unsigned
                && g.length.is_none()
                && seven.value == 7
                && seven.ty == Scalar::Unsigned
        }
        _ => false,
    }
}

/// Whether a global is an array of three `unsigned`, of which the second first value is a negative one.
fn is_array(g: &tree::Global) -> bool {
    let long = match g.length {
        Some((length, _)) => length == 3,
        None => false,
    };
    match g.first.as_slice() {
        [one, two] => {
            long && g.ty == Scalar::Unsigned
                && !one.negative
                && two.negative
                && two.span == Span { start: 28, end: 30 }
        }
        _ => false,
    }
}

/// Whether these are the two declarations of the text.
fn keeps_globals(both: &[tree::Global], last: &[tree::Global]) -> bool {
    match (both, last) {
        ([a, b], [c]) => { is_seven(a) && is_array(b) && c.ty == Scalar::Int && c.first.len() == 0 }
        _ => false,
    }
}

/// Whether the tree's items are the two declarations of the text.
fn keeps_values(unit: &Unit) -> bool {
    match unit.items.as_slice() {
        [Item::Globals(both), Item::Globals(last)] => {
            keeps_globals(both.as_slice(), last.as_slice())
        }
        _ => false,
    }
}

/// Whether the tree's one item is a global of this type.
fn is_one_of(unit: &Unit, ty: Scalar) -> bool {
    match unit.items.as_slice() {
        [Item::Globals(globals)] => match globals.as_slice() {
            [global] => global.ty == ty,
            _ => false,
        },
        _ => false,
    }
}

/// Whether the one function of a tree has so many statements.
fn has_statements(body: Option<&[Stmt]>, count: usize) -> bool {
    match body {
        Some(body) => body.len() == count,
        None => false,
    }
}

/// Whether a tree is what it is to be.
fn is_shaped(unit: &Unit, shape: Shape) -> bool {
    match shape {
        Shape::Depth(depth) => unit.depth() == depth,
        Shape::Statements(count) => has_statements(body_of(unit), count),
        Shape::Choice(nearest) => is_nearest(body_of(unit)) == Some(nearest),
        Shape::Sum(op, left, right) => grouping_of(body_of(unit)) == Some((op, left, right)),
        Shape::Declared => keeps_function(unit),
        Shape::Globals => keeps_values(unit),
        Shape::Of(ty) => is_one_of(unit, ty),
    }
}

/// Whether the tree of a text is what it is to be.
pub fn has_shape(alloc: Global, text: &str, shape: Shape) -> bool {
    match unit_of(alloc, text) {
        Some(unit) => is_shaped(&unit, shape),
        None => false,
    }
}

/// The first text of a row whose tree is not what it is to be.
fn shaped_otherwise(alloc: Global, rows: &[Row]) -> Option<&'static str> {
    for (text, shape) in rows {
        if !has_shape(alloc, text, *shape) {
            return Some(*text);
        }
    }
    None
}

#[test]
fn an_else_belongs_to_the_nearest_if(rt: HostRuntime) {
    assert_none(&rt, shaped_otherwise(rt.alloc(), choices()));
}

#[test]
fn operators_group_by_level_and_to_the_left(rt: HostRuntime) {
    assert_none(&rt, shaped_otherwise(rt.alloc(), sums()));
}

fn spellings() -> &'static [Row] {
    static ROWS: [Row; 9] = [
        ("int a;", Shape::Of(Scalar::Int)),
        ("signed a;", Shape::Of(Scalar::Int)),
        ("signed int a;", Shape::Of(Scalar::Int)),
        ("unsigned a;", Shape::Of(Scalar::Unsigned)),
        ("unsigned int a;", Shape::Of(Scalar::Unsigned)),
        ("long long a;", Shape::Of(Scalar::LongLong)),
        ("long long int a;", Shape::Of(Scalar::LongLong)),
        ("signed long long a;", Shape::Of(Scalar::LongLong)),
        ("signed long long int a;", Shape::Of(Scalar::LongLong)),
    ];
    &ROWS
}

#[test]
fn words_spell_types(rt: HostRuntime) {
    assert_none(&rt, shaped_otherwise(rt.alloc(), spellings()));
}

#[test]
fn a_function_keeps_its_attributes_and_parameters(rt: HostRuntime) {
    assert_that(&rt, has_shape(rt.alloc(), DECLARED, Shape::Declared));
}

#[test]
fn globals_keep_their_lengths_and_values(rt: HostRuntime) {
    assert_that(&rt, has_shape(rt.alloc(), GLOBALS, Shape::Globals));
}
