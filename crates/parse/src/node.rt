//! Nodes of an expression, by their parts.

ghost use Rattle.std.specs.Prelude.{◌≡◌, IfOk};
ghost use Rattle.syntax.specs.Tree.{Element, Call, Parenthesized, Cast, Unary, Conditional, InTransaction};
ghost use Rattle.syntax.specs.Typing.{span_of};
ghost use Rattle.syntax.specs.Views.{expr_of, exprs_of, name_of};
ghost use Rattle.parse.specs.inner.Reading.{across};
ghost use Rattle.parse.specs.inner.Expressions.{infix_node};

use crate::lead::Infix;
use containers::{Boxed, Items};
use lex::token::{Scalar, Span};
use std::alloc::{AllocError, Allocator};
use syntax::spans::span_of;
use syntax::tree::{Expr, Mode, Name, UnaryOp};

/// From the start of one span to the end of another.
pub fn across(first: Span, last: Span) -> Span
    ensures { result ≡ across first last }
{
    Span {
        start: first.start,
        end: last.end,
    }
}

/// An element of an array, up to the span of its closing bracket.
pub fn element<A: Allocator + Copy>(
    alloc: A,
    name: Name<A>,
    index: Expr<A>,
    last: Span,
) -> Result<Expr<A>, AllocError>
    ensures { IfOk result (λ e. expr_of e ≡ Element (name_of name) (expr_of index) (across name.span last)) }
{
    let span = across(name.span, last);
    Ok(Expr::Element(name, Boxed::new(alloc, index)?, span))
}

/// A call, up to the span of its closing parenthesis.
pub fn call<A: Allocator>(name: Name<A>, args: Items<Expr<A>, A>, last: Span) -> Expr<A>
    ensures { expr_of result ≡ Call (name_of name) (exprs_of args) (across name.span last) }
{
    let span = across(name.span, last);
    Expr::Call(name, args, span)
}

/// An expression in parentheses, which have these spans.
pub fn group<A: Allocator + Copy>(
    alloc: A,
    first: Span,
    inner: Expr<A>,
    last: Span,
) -> Result<Expr<A>, AllocError>
    ensures { IfOk result (λ e. expr_of e ≡ Parenthesized (expr_of inner) (across first last)) }
{
    let span = across(first, last);
    Ok(Expr::Parenthesized(Boxed::new(alloc, inner)?, span))
}

/// An expression that is a transaction: its keyword, which has a span, and its operand, up to the span of its
/// closing parenthesis.
pub fn transaction<A: Allocator + Copy>(
    alloc: A,
    mode: Mode,
    first: Span,
    inner: Expr<A>,
    last: Span,
) -> Result<Expr<A>, AllocError>
    ensures { IfOk result (λ e. expr_of e ≡ InTransaction mode first (expr_of inner) (across first last)) }
{
    let span = across(first, last);
    Ok(Expr::InTransaction(mode, first, Boxed::new(alloc, inner)?, span))
}

/// A cast of an operand, from the span of its opening parenthesis.
pub fn cast<A: Allocator + Copy>(
    alloc: A,
    first: Span,
    ty: Scalar,
    inner: Expr<A>,
) -> Result<Expr<A>, AllocError>
    ensures { IfOk result (λ e. expr_of e ≡ Cast ty (expr_of inner) (across first (span_of (expr_of inner)))) }
{
    let span = across(first, span_of(&inner));
    Ok(Expr::Cast(ty, Boxed::new(alloc, inner)?, span))
}

/// An operator, which has a span, and its operand.
pub fn unary<A: Allocator + Copy>(
    alloc: A,
    first: Span,
    op: UnaryOp,
    inner: Expr<A>,
) -> Result<Expr<A>, AllocError>
    ensures { IfOk result (λ e. expr_of e ≡ Unary op (expr_of inner) (across first (span_of (expr_of inner)))) }
{
    let span = across(first, span_of(&inner));
    Ok(Expr::Unary(op, Boxed::new(alloc, inner)?, span))
}

/// Two values in boxes. Where memory ends, what is left is dropped here, whatever its type: the drop of an expression,
/// written out at each place, is dear to prove.
fn two_boxed<T: Drop, A: Allocator + Copy>(
    alloc: A,
    first: T,
    second: T,
) -> Result<(Boxed<T, A>, Boxed<T, A>), AllocError>
    ensures first { IfOk result (λ x. x.0 ≡ first) }
    ensures second { IfOk result (λ x. x.1 ≡ second) }
{
    let first = Boxed::new(alloc, first)?;
    let second = Boxed::new(alloc, second)?;
    Ok((first, second))
}

/// Three values in boxes.
fn three_boxed<T: Drop, A: Allocator + Copy>(
    alloc: A,
    first: T,
    second: T,
    third: T,
) -> Result<(Boxed<T, A>, Boxed<T, A>, Boxed<T, A>), AllocError>
    ensures first { IfOk result (λ x. x.0 ≡ first) }
    ensures second { IfOk result (λ x. x.1 ≡ second) }
    ensures third { IfOk result (λ x. x.2 ≡ third) }
{
    let first = Boxed::new(alloc, first)?;
    let (second, third) = two_boxed(alloc, second, third)?;
    Ok((first, second, third))
}

/// An operator between its operands.
pub fn infix<A: Allocator + Copy>(
    alloc: A,
    op: Infix,
    left: Expr<A>,
    right: Expr<A>,
) -> Result<Expr<A>, AllocError>
    ensures { IfOk result (λ e. expr_of e ≡ infix_node op (expr_of left) (expr_of right)) }
{
    let span = across(span_of(&left), span_of(&right));
    let (left, right) = two_boxed(alloc, left, right)?;
    match op {
        Infix::Computing(op) => Ok(Expr::Binary(op, left, right, span)),
        Infix::Choosing(op) => Ok(Expr::Logical(op, left, right, span)),
    }
}

/// A condition, and the expressions that it chooses from.
pub fn conditional<A: Allocator + Copy>(
    alloc: A,
    condition: Expr<A>,
    then: Expr<A>,
    other: Expr<A>,
) -> Result<Expr<A>, AllocError>
    ensures { IfOk result
        (λ e. expr_of e
        ≡ Conditional (expr_of condition) (expr_of then) (expr_of other)
        (across (span_of (expr_of condition)) (span_of (expr_of other)))) }
{
    let span = across(span_of(&condition), span_of(&other));
    let (condition, then, other) = three_boxed(alloc, condition, then, other)?;
    Ok(Expr::Conditional(condition, then, other, span))
}
