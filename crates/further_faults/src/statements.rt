//! Statements without what is left out.

use crate::declarations::{declaration_without, head_without};
use crate::expressions::{any_out, both, expr_without, simple_without, zero};
use crate::left_out::LeftOut;
use containers::{Boxed, Copied, Items};
use lex::token::Span;
use std::alloc::{AllocError, Allocator};
use syntax::tree::{Expr, Stmt};

/// Whether a print is left out: its word, its format or an argument is.
fn is_print_out<A: Allocator + Copy>(
    left: &LeftOut<'_, A>,
    span: Span,
    format: Span,
    args: &[Expr<A>],
) -> bool {
    left.is_at(span.start) || left.is_at(format.start) || any_out(left, args)
}

/// A `return` with the value that it should have, where a fault stands at it; and else with its own.
fn return_without<A: Allocator + Copy>(
    alloc: A,
    left: &LeftOut<'_, A>,
    value: Option<&Expr<A>>,
    span: Span,
) -> Result<Stmt<A>, AllocError> {
    match (value, left.is_at(span.start)) {
        (Some(_), true) | (None, false) => Ok(Stmt::Return(None, span)),
        (None, true) => Ok(Stmt::Return(Some(zero()), span)),
        (Some(e), false) => Ok(Stmt::Return(Some(expr_without(alloc, left, e)?), span)),
    }
}

/// A statement that is no block and holds no other one, and that is empty where it is left out.
fn short_without<A: Allocator + Copy>(
    alloc: A,
    left: &LeftOut<'_, A>,
    stmt: &Stmt<A>,
) -> Result<Stmt<A>, AllocError> {
    match stmt {
        Stmt::Declare(one) => Ok(Stmt::Declare(declaration_without(alloc, left, one)?)),
        Stmt::Do(s) => Ok(Stmt::Do(simple_without(alloc, left, s)?)),
        Stmt::Print(span, _, format, args) if is_print_out(left, *span, *format, args.as_slice()) =>
            Ok(Stmt::Empty),
        Stmt::Break(span) | Stmt::Continue(span) | Stmt::Cancel(span) | Stmt::CancelOuter(span)
            if left.is_at(span.start) => Ok(Stmt::Empty),
        Stmt::Return(e, span) => return_without(alloc, left, e.as_ref(), *span),
        _ => Copied::copy(stmt, alloc),
    }
}

/// A statement, whose parts are without what is left out.
#[cycle(stmt_without)]
pub(crate) fn stmt_without<A: Allocator + Copy>(
    alloc: A,
    left: &LeftOut<'_, A>,
    stmt: &Stmt<A>,
) -> Result<Stmt<A>, AllocError> {
    match stmt {
        Stmt::Block(all) => Ok(Stmt::Block(stmts_without(alloc, left, all.as_slice())?)),
        Stmt::If(c, a, b) => {
            let (c, a) = both(expr_without(alloc, left, c), boxed_without(alloc, left, a))?;
            Ok(Stmt::If(c, a, else_without(alloc, left, b)?))
        }
        Stmt::While(c, body) => {
            let (c, body) = both(
                expr_without(alloc, left, c),
                boxed_without(alloc, left, body),
            )?;
            Ok(Stmt::While(c, body))
        }
        Stmt::DoWhile(body, c) => {
            let (c, body) = both(
                expr_without(alloc, left, c),
                boxed_without(alloc, left, body),
            )?;
            Ok(Stmt::DoWhile(body, c))
        }
        Stmt::For(head, body) => {
            let head = Boxed::new(alloc, head_without(alloc, left, head.get())?)?;
            Ok(Stmt::For(head, boxed_without(alloc, left, body)?))
        }
        Stmt::Transaction(_, _, span) if left.is_at(span.start) => Ok(Stmt::Empty),
        Stmt::Transaction(kind, all, span) => {
            let all = stmts_without(alloc, left, all.as_slice())?;
            Ok(Stmt::Transaction(*kind, all, *span))
        }
        _ => short_without(alloc, left, stmt),
    }
}

/// A statement in a box of its own.
#[cycle(stmt_without)]
fn boxed_without<A: Allocator + Copy>(
    alloc: A,
    left: &LeftOut<'_, A>,
    stmt: &Boxed<Stmt<A>, A>,
) -> Result<Boxed<Stmt<A>, A>, AllocError> {
    Boxed::new(alloc, stmt_without(alloc, left, stmt.get())?)
}

/// The branch behind an `else`, where there is one.
#[cycle(stmt_without)]
fn else_without<A: Allocator + Copy>(
    alloc: A,
    left: &LeftOut<'_, A>,
    stmt: &Option<Boxed<Stmt<A>, A>>,
) -> Result<Option<Boxed<Stmt<A>, A>>, AllocError> {
    match stmt {
        Some(stmt) => Ok(Some(Boxed::new(alloc, stmt_without(alloc, left, stmt.get())?)?)),
        None => Ok(None),
    }
}

/// Statements in their order.
#[cycle(stmt_without)]
pub(crate) fn stmts_without<A: Allocator + Copy>(
    alloc: A,
    left: &LeftOut<'_, A>,
    all: &[Stmt<A>],
) -> Result<Items<Stmt<A>, A>, AllocError> {
    let mut kept = Items::new(alloc);
    'each: for one in all {
        kept.push(stmt_without(alloc, left, one)?)?;
    }
    Ok(kept)
}
