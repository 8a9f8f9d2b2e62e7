//! Assignments (C11 6.5.16), steps (6.5.2.4, 6.5.3.1) and declarations (6.7).

ghost use Rattle.std.specs.Prelude.{◌≡◌, None, Some, map};
ghost use Rattle.syntax.specs.Views.{declarator_of, expr_of, simple_of};
ghost use Rattle.syntax.specs.Tree as tree;
ghost use Rattle.syntax.specs.Actions as act;
ghost use Rattle.syntax.specs.Meaning as meaning;
ghost use Rattle.syntax.specs.Numbers.{binary};
ghost use Rattle.meaning.specs.inner.SourceThread.{Means, MeansCompletion, MeansLvalue, lvalue_of};
ghost use Rattle.program_tables.specs.Views.{program_in};
ghost use Rattle.meaning.specs.inner.SourceThread.{state_in};
ghost use Rattle.meaning.specs.inner.Word.{value_of};
ghost use Rattle.meaning.specs.inner.Does.{caller_in, declared_one};

use crate::expr::{element, eval};
use crate::lvalues::name_lvalue;
use crate::source_thread::{
    Halted, Local, Lvalue, SourceThread, StmtCompletion, assign, fetch, operate,
};
use crate::word::{Word, flag};
use lex::token::{Scalar, Span};
use program_tables::ProgramTables;
use std::alloc::Allocator;
use syntax::spans::span_of_simple;
use syntax::thread_end::Halt;
use syntax::tree::{BinaryOp, Declarator, Expr, Simple};

/// Writes what an operator gives of an old value and another one in the old one's place.
fn rewrite<A: Allocator>(
    m: &mut SourceThread<A>,
    at: Lvalue,
    op: BinaryOp,
    old: Word,
    by: Word,
    span: Span,
) -> Result<StmtCompletion, Halted>
    ensures { MeansCompletion result
        (act.go_on (act.go_on (act.or_trap (binary op (value_of old) (value_of by)) (state_in m.old))
        (meaning.assign (lvalue_of at))) (λ _. act.pure meaning.Next)) m.new }
{
    let new = operate(m, op, old, by, span)?;
    assign(m, at, new)?;
    Ok(StmtCompletion::Next)
}

/// Where the left side of an assignment stands.
#[cycle(run)]
fn target<'p, A: Allocator + Copy>(
    source: &ProgramTables<'p, A>,
    frames: u64,
    e: &'p Expr<A>,
    m: &mut SourceThread<'p, '_, A>,
) -> Result<Lvalue, Halted>
    ensures { MeansLvalue result
        (meaning.lvalue (program_in source.now) (caller_in source.now frames) (expr_of e.now) (state_in m.old)) m.new }
{
    match e {
        Expr::Variable(x) => name_lvalue(source, x, m),
        Expr::Element(x, i, at) => element(source, frames, x, i.get(), *at, m),
        _ => {
            m.why = Some(Halt::Astray);
            Err(Halted {})
        }
    }
}

/// What an assignment without an operator does.
#[cycle(run)]
fn simple_assignment<'p, A: Allocator + Copy>(
    source: &ProgramTables<'p, A>,
    frames: u64,
    to: &'p Expr<A>,
    e: &'p Expr<A>,
    m: &mut SourceThread<'p, '_, A>,
) -> Result<StmtCompletion, Halted>
    ensures { MeansCompletion result
        (meaning.simple (program_in source.now) (caller_in source.now frames)
        (tree.Assign (expr_of to.now) None (expr_of e.now)) (state_in m.old)) m.new }
{
    let at = target(source, frames, to, m)?;
    let v = eval(source, frames, e, m)?;
    assign(m, at, v)?;
    Ok(StmtCompletion::Next)
}

/// What an assignment with an operator does: the old value is read first.
#[cycle(run)]
fn compound_assignment<'p, A: Allocator + Copy>(
    source: &ProgramTables<'p, A>,
    frames: u64,
    to: &'p Expr<A>,
    op: BinaryOp,
    e: &'p Expr<A>,
    span: Span,
    m: &mut SourceThread<'p, '_, A>,
) -> Result<StmtCompletion, Halted>
    ensures { MeansCompletion result
        (meaning.simple (program_in source.now) (caller_in source.now frames)
        (tree.Assign (expr_of to.now) (Some op) (expr_of e.now)) (state_in m.old)) m.new }
{
    let at = target(source, frames, to, m)?;
    let before = fetch(m, at)?;
    let v = eval(source, frames, e, m)?;
    rewrite(m, at, op, before, v, span)
}

/// What an expression, an assignment or a step does.
#[cycle(run)]
pub(crate) fn simple<'p, A: Allocator + Copy>(
    source: &ProgramTables<'p, A>,
    frames: u64,
    s: &'p Simple<A>,
    m: &mut SourceThread<'p, '_, A>,
) -> Result<StmtCompletion, Halted>
    ensures { MeansCompletion result
        (meaning.simple (program_in source.now) (caller_in source.now frames) (simple_of s.now) (state_in m.old))
        m.new }
{
    match s {
        Simple::Evaluate(e) => {
            eval(source, frames, e, m)?;
            Ok(StmtCompletion::Next)
        }
        Simple::Assign(to, op, e) => match op {
            None => simple_assignment(source, frames, to, e, m),
            Some(op) => { compound_assignment(source, frames, to, *op, e, span_of_simple(s), m) }
        },
        Simple::Adjust(to, by) => {
            let at = target(source, frames, to, m)?;
            let old = fetch(m, at)?;
            rewrite(m, at, by.operator(), old, flag(true), span_of_simple(s))
        }
    }
}

/// New locals, each with its first value.
#[cycle(run)]
pub(crate) fn declare<'p, A: Allocator + Copy>(
    source: &ProgramTables<'p, A>,
    frames: u64,
    ty: Scalar,
    ds: &'p [Declarator<A>],
    m: &mut SourceThread<'p, '_, A>,
) -> Result<StmtCompletion, Halted>
    ensures { MeansCompletion result
        (meaning.declare (program_in source.now) (caller_in source.now frames) ty (map declarator_of ds.now)
        (state_in m.old)) m.new }
{
    'declarators: for d in ds {
        declare_one(source, frames, ty, d, m)?;
    }
    Ok(StmtCompletion::Next)
}

/// A new local, which is 0 and then its first value.
#[cycle(run)]
fn declare_one<'p, A: Allocator + Copy>(
    source: &ProgramTables<'p, A>,
    frames: u64,
    ty: Scalar,
    d: &'p Declarator<A>,
    m: &mut SourceThread<'p, '_, A>,
) -> Result<(), Halted>
    ensures { Means result (declared_one (program_in source.now) (caller_in source.now frames) ty (declarator_of d.now)
        (state_in m.old)) m.new }
{
    let index = m.locals.len();
    let local = Local {
        name: d.name.text.as_str(),
        ty,
        word: 0,
    };
    if m.locals.push(local).is_err() {
        m.why = None;
        return Err(Halted {});
    }
    match &d.first {
        None => Ok(()),
        Some(e) => {
            let v = eval(source, frames, e, m)?;
            assign(m, Lvalue::InLocal(index, ty), v)
        }
    }
}
