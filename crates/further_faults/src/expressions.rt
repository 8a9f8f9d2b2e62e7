//! Expressions and simple statements without what is left out.

use crate::left_out::LeftOut;
use containers::Copied;
use lex::token::{Scalar, Span};
use std::alloc::{AllocError, Allocator};
use syntax::tree::{Expr, Simple};

/// Whether an expression is left out: a fault stands in it, or a name of which it is not known what it is.
#[cycle(is_out)]
pub(crate) fn is_out<A: Allocator + Copy>(left: &LeftOut<'_, A>, e: &Expr<A>) -> bool {
    match e {
        Expr::Variable(x) => left.has_name(x),
        Expr::Constant(_, _, span) => left.is_at(span.start),
        Expr::Element(x, index, _) => left.has_name(x) || is_out(left, index.get()),
        Expr::Call(f, args, _) => left.has_name(f) || any_out(left, args.as_slice()),
        Expr::Parenthesized(e, span)
        | Expr::Cast(_, e, span)
        | Expr::Unary(_, e, span)
        | Expr::InTransaction(_, _, e, span) => left.is_at(span.start) || is_out(left, e.get()),
        Expr::Binary(_, a, b, _) | Expr::Logical(_, a, b, _) => {
            is_out(left, a.get()) || is_out(left, b.get())
        }
        Expr::Conditional(c, a, b, _) => {
            is_out(left, c.get()) || is_out(left, a.get()) || is_out(left, b.get())
        }
    }
}

/// Whether one of some expressions is left out.
#[cycle(is_out)]
pub(crate) fn any_out<A: Allocator + Copy>(left: &LeftOut<'_, A>, all: &[Expr<A>]) -> bool {
    'each: for one in all {
        if is_out(left, one) {
            return true;
        }
    }
    false
}

/// What stands for an expression that is left out.
pub(crate) fn zero<A: Allocator>() -> Expr<A> {
    Expr::Constant(0, Scalar::Int, Span { start: 0, end: 0 })
}

/// A full expression (C11 6.8), which is 0 where it is left out.
pub(crate) fn expr_without<A: Allocator + Copy>(
    alloc: A,
    left: &LeftOut<'_, A>,
    e: &Expr<A>,
) -> Result<Expr<A>, AllocError> {
    if is_out(left, e) {
        Ok(zero())
    } else {
        e.copy(alloc)
    }
}

/// A full expression, where there is one.
pub(crate) fn option_without<A: Allocator + Copy>(
    alloc: A,
    left: &LeftOut<'_, A>,
    e: Option<&Expr<A>>,
) -> Result<Option<Expr<A>>, AllocError> {
    match e {
        Some(e) => Ok(Some(expr_without(alloc, left, e)?)),
        None => Ok(None),
    }
}

/// Whether a simple statement is left out.
fn is_simple_out<A: Allocator + Copy>(left: &LeftOut<'_, A>, s: &Simple<A>) -> bool {
    match s {
        Simple::Evaluate(e) | Simple::Adjust(e, _) => is_out(left, e),
        Simple::Assign(to, _, e) => is_out(left, to) || is_out(left, e),
    }
}

/// A simple statement, which is an expression of 0 where it is left out.
pub(crate) fn simple_without<A: Allocator + Copy>(
    alloc: A,
    left: &LeftOut<'_, A>,
    s: &Simple<A>,
) -> Result<Simple<A>, AllocError> {
    if is_simple_out(left, s) {
        Ok(Simple::Evaluate(zero()))
    } else {
        Copied::copy(s, alloc)
    }
}

/// Both values, where both were made. Where one was refused the drop of the other is a single call, since its type is a
/// parameter: that of a tree would be written out.
pub(crate) fn both<T: Drop, U: Drop>(
    one: Result<T, AllocError>,
    two: Result<U, AllocError>,
) -> Result<(T, U), AllocError> {
    let one = one?;
    let two = two?;
    Ok((one, two))
}
