//! The spans of parts of a tree.

ghost use Rattle.std.specs.Prelude.{◌≡◌};
ghost use Rattle.syntax.specs.Typing.{span_of};
ghost use Rattle.syntax.specs.Views.{expr_of};

use crate::tree::{Declaration, Expr, ForHead, Simple, Stmt};
use lex::token::Span;
use std::alloc::Allocator;

/// The span of an expression.
pub fn span_of<A: Allocator>(e: &Expr<A>) -> Span
    ensures { result ≡ span_of (expr_of e.now) }
{
    match e {
        Expr::Variable(name) => name.span,
        Expr::Constant(_, _, at)
        | Expr::Element(_, _, at)
        | Expr::Call(_, _, at)
        | Expr::Parenthesized(_, at)
        | Expr::Cast(_, _, at)
        | Expr::Unary(_, _, at)
        | Expr::Binary(_, _, _, at)
        | Expr::Logical(_, _, _, at)
        | Expr::Conditional(_, _, _, at)
        | Expr::InTransaction(_, _, _, at) => *at,
    }
}

/// The span of an assignment or an expression; for `x++`, that of `x`.
pub fn span_of_simple<A: Allocator>(s: &Simple<A>) -> Span {
    match s {
        Simple::Evaluate(e) | Simple::Adjust(e, _) => span_of(e),
        Simple::Assign(to, _, e) => Span {
            start: span_of(to).start,
            end: span_of(e).end,
        },
    }
}

/// The span of the first name of a declaration.
fn span_of_declaration<A: Allocator>(d: &Declaration<A>) -> Option<Span> {
    match d.declarators.as_slice().first() {
        Some(first) => Some(first.name.span),
        None => None,
    }
}

/// The span of the condition of a `for`, or else of its step.
pub fn span_of_head<A: Allocator>(head: &ForHead<A>) -> Option<Span> {
    match &head.condition {
        Some(c) => Some(span_of(c)),
        None => match &head.step {
            Some(step) => Some(span_of_simple(step)),
            None => None,
        },
    }
}

/// The span that identifies a statement: its keyword, or if the tree does not keep that, its condition or its action.
/// A block and an empty statement have none of their own.
pub fn span_of_stmt<A: Allocator>(s: &Stmt<A>) -> Option<Span> {
    match s {
        Stmt::Empty | Stmt::Block(_) => None,
        Stmt::Declare(d) => span_of_declaration(d),
        Stmt::Do(s) => Some(span_of_simple(s)),
        Stmt::If(c, _, _) | Stmt::While(c, _) | Stmt::DoWhile(_, c) => Some(span_of(c)),
        Stmt::For(head, _) => span_of_head(head.get()),
        Stmt::Print(at, _, _, _)
        | Stmt::Break(at)
        | Stmt::Continue(at)
        | Stmt::Return(_, at)
        | Stmt::Transaction(_, _, at)
        | Stmt::Cancel(at)
        | Stmt::CancelOuter(at) => Some(*at),
    }
}
