//! Statements (C11 6.8).

ghost use Rattle.std.specs.Prelude.{◌≡◌, None, Option, Some, option_map};
ghost use Rattle.lex.specs.declared.token.Span.{Span};
ghost use Rattle.syntax.specs.Views.{expr_of, exprs_of, stmt_of};
ghost use Rattle.syntax.specs.Tree as tree;
ghost use Rattle.syntax.specs.Actions as act;
ghost use Rattle.syntax.specs.Meaning as meaning;
ghost use Rattle.meaning.specs.inner.SourceThread.{MeansCompletion, state_in};
ghost use Rattle.program_tables.specs.Views.{program_in};
ghost use Rattle.meaning.specs.inner.Does.{caller_in, does_stmt, does_stmts, if_of};

use crate::calls::values;
use crate::expr::eval;
use crate::loops::{Loop, for_scoped, repeat};
use crate::places::note_stmt;
use crate::print::{may_print, print_pieces};
use crate::simple::{declare, simple};
use crate::source_thread::{Halted, SourceThread, StmtCompletion, tick};
use crate::transactions::{Body, transaction};
use crate::word::{flag, is_zero};
use containers::Boxed;
use program_tables::ProgramTables;
use std::alloc::Allocator;
use syntax::tree::{Expr, Stmt};

/// What a statement does.
#[cycle(run)]
pub(crate) fn stmt<'p, A: Allocator + Copy>(
    source: &ProgramTables<'p, A>,
    frames: u64,
    s: &'p Stmt<A>,
    m: &mut SourceThread<'p, '_, A>,
) -> Result<StmtCompletion, Halted>
    ensures { MeansCompletion result (does_stmt source.now frames s.now (state_in m.old)) m.new }
{
    note_stmt(&mut m.at, s);
    tick(m)?;
    match s {
        Stmt::Empty => Ok(StmtCompletion::Next),
        Stmt::Declare(d) => declare(source, frames, d.ty, d.declarators.as_slice(), m),
        Stmt::Do(s) => simple(source, frames, s, m),
        Stmt::Block(ss) => block(source, frames, ss.as_slice(), m),
        Stmt::Print(_, format, _, args) => {
            print_output(
                source,
                frames,
                format.as_str().as_bytes(),
                args.as_slice(),
                m,
            )
        }
        Stmt::If(c, a, b) => either(source, frames, c, a.get(), b, m),
        Stmt::While(c, a) => repeat(source, frames, &Loop::While(c, a.get()), m),
        Stmt::DoWhile(a, c) => repeat(source, frames, &Loop::DoWhile(a.get(), c), m),
        Stmt::For(head, a) => for_scoped(source, frames, head.get(), a.get(), m),
        Stmt::Break(_) => Ok(StmtCompletion::Breaks),
        Stmt::Continue(_) => Ok(StmtCompletion::Continues),
        Stmt::Return(e, _) => return_end(source, frames, e, m),
        Stmt::Transaction(kind, ss, _) => {
            transaction(source, frames, *kind, &Body::Block(ss.as_slice()), m)
        }
        Stmt::Cancel(_) => Ok(StmtCompletion::Cancels),
        Stmt::CancelOuter(_) => Ok(StmtCompletion::CancelsOuter),
    }
}

/// What statements do, one after another, up to the first that goes elsewhere.
#[cycle(run)]
pub(crate) fn stmts<'p, A: Allocator + Copy>(
    source: &ProgramTables<'p, A>,
    frames: u64,
    ss: &'p [Stmt<A>],
    m: &mut SourceThread<'p, '_, A>,
) -> Result<StmtCompletion, Halted>
    ensures { MeansCompletion result (does_stmts source.now frames ss.now (state_in m.old)) m.new }
{
    'statements: for s in ss {
        match stmt(source, frames, s, m)? {
            StmtCompletion::Next => {}
            end => return Ok(end),
        }
    }
    Ok(StmtCompletion::Next)
}

/// Statements with names of their own.
#[cycle(run)]
pub(crate) fn block<'p, A: Allocator + Copy>(
    source: &ProgramTables<'p, A>,
    frames: u64,
    ss: &'p [Stmt<A>],
    m: &mut SourceThread<'p, '_, A>,
) -> Result<StmtCompletion, Halted>
    ensures { MeansCompletion result (meaning.in_scope (does_stmts source.now frames ss.now) (state_in m.old)) m.new }
{
    let outer = m.locals.len();
    let end = stmts(source, frames, ss, m)?;
    m.locals.truncate(outer);
    Ok(end)
}

/// A statement with names of its own.
#[cycle(run)]
pub(crate) fn scoped_stmt<'p, A: Allocator + Copy>(
    source: &ProgramTables<'p, A>,
    frames: u64,
    s: &'p Stmt<A>,
    m: &mut SourceThread<'p, '_, A>,
) -> Result<StmtCompletion, Halted>
    ensures { MeansCompletion result (meaning.in_scope (does_stmt source.now frames s.now) (state_in m.old)) m.new }
{
    let outer = m.locals.len();
    let end = stmt(source, frames, s, m)?;
    m.locals.truncate(outer);
    Ok(end)
}

/// What a format and its arguments print behind the statement's tick, where printing is allowed.
#[cycle(run)]
#[inline(never)]
fn print_output<'p, A: Allocator + Copy>(
    source: &ProgramTables<'p, A>,
    frames: u64,
    format: &[u8],
    args: &'p [Expr<A>],
    m: &mut SourceThread<'p, '_, A>,
) -> Result<StmtCompletion, Halted>
    ensures { (at format_at : Span) (begun : act.State) → act.tick begun ≡ act.Gives tt (state_in m.old)
        → MeansCompletion result (meaning.stmt (program_in source.now) (caller_in source.now frames)
        (tree.Print at format.now format_at (exprs_of args.now)) begun) m.new }
{
    may_print(m)?;
    let values = values(source, frames, args, m)?;
    print_pieces(m, format, values.as_slice())?;
    Ok(StmtCompletion::Next)
}

/// One of two statements, or of one and nothing, behind the statement's tick.
#[cycle(run)]
fn either<'p, A: Allocator + Copy>(
    source: &ProgramTables<'p, A>,
    frames: u64,
    c: &'p Expr<A>,
    a: &'p Stmt<A>,
    b: &'p Option<Boxed<Stmt<A>, A>>,
    m: &mut SourceThread<'p, '_, A>,
) -> Result<StmtCompletion, Halted>
    ensures { (begun : act.State) → act.tick begun ≡ act.Gives tt (state_in m.old)
        → MeansCompletion result (meaning.stmt (program_in source.now) (caller_in source.now frames)
        (if_of (expr_of c.now) (stmt_of a.now) (option_map stmt_of b.now)) begun) m.new }
{
    let v = eval(source, frames, c, m)?;
    if !is_zero(v) {
        return scoped_stmt(source, frames, a, m);
    }
    match b {
        Some(b) => scoped_stmt(source, frames, b.get(), m),
        None => Ok(StmtCompletion::Next),
    }
}

/// The end that leaves a function, behind the statement's tick.
#[cycle(run)]
fn return_end<'p, A: Allocator + Copy>(
    source: &ProgramTables<'p, A>,
    frames: u64,
    e: &'p Option<Expr<A>>,
    m: &mut SourceThread<'p, '_, A>,
) -> Result<StmtCompletion, Halted>
    ensures { (at : Span) (begun : act.State) → act.tick begun ≡ act.Gives tt (state_in m.old)
        → MeansCompletion result (meaning.stmt (program_in source.now) (caller_in source.now frames)
        (tree.Return (option_map expr_of e.now) at) begun) m.new }
{
    match e {
        None => Ok(StmtCompletion::Returns(flag(false))),
        Some(e) => {
            let v = eval(source, frames, e, m)?;
            Ok(StmtCompletion::Returns(v))
        }
    }
}
