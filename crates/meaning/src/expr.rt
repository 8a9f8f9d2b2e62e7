//! Expressions (C11 6.5).

ghost use Rattle.syntax.specs.Views.{expr_of};
ghost use Rattle.syntax.specs.Tree as tree;
ghost use Rattle.syntax.specs.Actions as act;
ghost use Rattle.syntax.specs.Meaning as meaning;
ghost use Rattle.meaning.specs.inner.SourceThread.{MeansLvalue, MeansWord, state_in};
ghost use Rattle.program_tables.specs.Views.{program_in};
ghost use Rattle.meaning.specs.inner.Does.{caller_in, does_expr};

use crate::calls::call;
use crate::lvalues::{common_value, element_cell, variable};
use crate::places::note;
use crate::source_thread::{Halted, Lvalue, SourceThread, fetch, operate, operate_unary};
use crate::transactions::value_transaction;
use crate::word::{Word, constant, convert_word, flag, is_zero};
use lex::token::Span;
use program_tables::ProgramTables;
use std::alloc::Allocator;
use syntax::tree::{Expr, LogicalOp, Name};

/// What an expression gives.
#[cycle(run)]
pub(crate) fn eval<'p, A: Allocator + Copy>(
    source: &ProgramTables<'p, A>,
    frames: u64,
    e: &'p Expr<A>,
    m: &mut SourceThread<'p, '_, A>,
) -> Result<Word, Halted>
    ensures { MeansWord result (does_expr source.now frames e.now (state_in m.old)) m.new }
{
    match e {
        Expr::Variable(x) => variable(source, x, m),
        Expr::Constant(n, ty, _) => Ok(constant(*n, *ty)),
        Expr::Element(x, i, span) => {
            let at = element(source, frames, x, i.get(), *span, m)?;
            fetch(m, at)
        }
        Expr::Call(f, args, at) => call(source, frames, f, args.as_slice(), *at, m),
        Expr::Parenthesized(e, _) => eval(source, frames, e.get(), m),
        Expr::Cast(ty, e, _) => {
            let v = eval(source, frames, e.get(), m)?;
            Ok(convert_word(*ty, v))
        }
        Expr::Unary(op, e, at) => {
            let v = eval(source, frames, e.get(), m)?;
            operate_unary(m, *op, v, *at)
        }
        Expr::Binary(op, a, b, at) => {
            let v = eval(source, frames, a.get(), m)?;
            let w = eval(source, frames, b.get(), m)?;
            operate(m, *op, v, w, *at)
        }
        Expr::Logical(op, a, b, _) => logical(source, frames, *op, a.get(), b.get(), m),
        Expr::Conditional(c, a, b, _) => conditional(source, frames, c.get(), a.get(), b.get(), m),
        Expr::InTransaction(mode, keyword, e, _) => {
            note(&mut m.at, *keyword, None);
            value_transaction(source, frames, *mode, e.get(), m)
        }
    }
}

/// The right operand counts only where the left one does not decide.
#[cycle(run)]
fn logical<'p, A: Allocator + Copy>(
    source: &ProgramTables<'p, A>,
    frames: u64,
    op: LogicalOp,
    a: &'p Expr<A>,
    b: &'p Expr<A>,
    m: &mut SourceThread<'p, '_, A>,
) -> Result<Word, Halted>
    ensures { (at : Span)
        → MeansWord result (meaning.expr (program_in source.now) (caller_in source.now frames)
        (tree.Logical op (expr_of a.now) (expr_of b.now) at) (state_in m.old)) m.new }
{
    let v = eval(source, frames, a, m)?;
    let w = match op {
        LogicalOp::AndThen => {
            if is_zero(v) {
                v
            } else {
                eval(source, frames, b, m)?
            }
        }
        LogicalOp::OrElse => {
            if is_zero(v) {
                eval(source, frames, b, m)?
            } else {
                v
            }
        }
    };
    Ok(flag(!is_zero(w)))
}

/// One of two branches, converted to their common type.
#[cycle(run)]
fn conditional<'p, A: Allocator + Copy>(
    source: &ProgramTables<'p, A>,
    frames: u64,
    c: &'p Expr<A>,
    a: &'p Expr<A>,
    b: &'p Expr<A>,
    m: &mut SourceThread<'p, '_, A>,
) -> Result<Word, Halted>
    ensures { (at : Span)
        → MeansWord result (meaning.expr (program_in source.now) (caller_in source.now frames)
        (tree.Conditional (expr_of c.now) (expr_of a.now) (expr_of b.now) at) (state_in m.old)) m.new }
{
    let v = eval(source, frames, c, m)?;
    let w = if is_zero(v) {
        eval(source, frames, b, m)?
    } else {
        eval(source, frames, a, m)?
    };
    common_value(source, a, b, w, m)
}

/// The cell of an element that stands there, its index computed and tested.
#[cycle(run)]
pub(crate) fn element<'p, A: Allocator + Copy>(
    source: &ProgramTables<'p, A>,
    frames: u64,
    x: &Name<A>,
    i: &'p Expr<A>,
    at: Span,
    m: &mut SourceThread<'p, '_, A>,
) -> Result<Lvalue, Halted>
    ensures { MeansLvalue result
        (act.go_on (does_expr source.now frames i.now (state_in m.old))
        (λ k. meaning.element (program_in source.now) (caller_in source.now frames) x.now.text k)) m.new }
{
    let k = eval(source, frames, i, m)?;
    element_cell(source, x, k, at, m)
}
