//! Loops (C11 6.8.5).

ghost use Rattle.std.specs.Prelude.{◌≡◌, None, Option, Some, option_map};
ghost use Rattle.syntax.specs.Views.{expr_of, simple_of, start_of, stmt_of};
ghost use Rattle.syntax.specs.Actions as act;
ghost use Rattle.syntax.specs.Actions.{State};
ghost use Rattle.syntax.specs.Meaning as meaning;
ghost use Rattle.meaning.specs.inner.SourceThread.{Means, MeansCompletion, MeansTurn, completion_of};
ghost use Rattle.program_tables.specs.Views.{program_in};
ghost use Rattle.meaning.specs.inner.SourceThread.{state_in};
ghost use Rattle.meaning.specs.inner.Does.{caller_in, does_turn, do_turn, for_all, for_turn, left_or};
ghost use Rattle.meaning.specs.inner.Does.{loop_condition as tested_due, while_turn};

use crate::expr::eval;
use crate::places::note_loop;
use crate::simple::{declare, simple};
use crate::source_thread::{Halted, SourceThread, StmtCompletion, tick};
use crate::stmt::scoped_stmt;
use crate::word::is_zero;
use program_tables::ProgramTables;
use std::alloc::Allocator;
use syntax::thread_end::Halt;
use syntax::tree::{Expr, ForHead, Simple, Start, Stmt};

/// A loop, by its parts.
#[derive(Drop)]
pub(crate) enum Loop<'p, A: Allocator> {
    While(&'p Expr<A>, &'p Stmt<A>),
    DoWhile(&'p Stmt<A>, &'p Expr<A>),
    For(&'p ForHead<A>, &'p Stmt<A>),
}

/// The end of a loop that its body's end is, if it is one.
pub(crate) fn left_by_body(end: StmtCompletion) -> Option<StmtCompletion>
    ensures { (go : act.Action (Option meaning.Completion)) → (s : State)
        → meaning.after_body go (completion_of end) s ≡ left_or go result s }
{
    match end {
        StmtCompletion::Next | StmtCompletion::Continues => None,
        StmtCompletion::Breaks => Some(StmtCompletion::Next),
        end => Some(end),
    }
}

/// Turns up to the one that ends the loop.
#[cycle(run)]
#[inline(never)]
pub(crate) fn repeat<'p, A: Allocator + Copy>(
    source: &ProgramTables<'p, A>,
    frames: u64,
    which: &Loop<'p, A>,
    m: &mut SourceThread<'p, '_, A>,
) -> Result<StmtCompletion, Halted>
    ensures { MeansCompletion result (meaning.loop (does_turn source.now frames which.now) (state_in m.old)) m.new }
{
    let most = m.ticks;
    'turns: for _ in 0..most {
        note_loop(&mut m.at, which);
        tick(m)?; // the turn's
        if let Some(end) = turn(source, frames, which, m)? {
            return Ok(end);
        }
    }
    m.why = Some(Halt::Spent);
    Err(Halted {})
}

/// One turn of a loop.
#[cycle(run)]
fn turn<'p, A: Allocator + Copy>(
    source: &ProgramTables<'p, A>,
    frames: u64,
    which: &Loop<'p, A>,
    m: &mut SourceThread<'p, '_, A>,
) -> Result<Option<StmtCompletion>, Halted>
    ensures { MeansTurn result (does_turn source.now frames which.now (state_in m.old)) m.new }
{
    match which {
        Loop::While(c, a) => turn_while(source, frames, c, a, m),
        Loop::DoWhile(a, c) => turn_do(source, frames, a, c, m),
        Loop::For(head, a) => turn_for(source, frames, head, a, m),
    }
}

/// One turn of a loop that tests before its body.
#[cycle(run)]
fn turn_while<'p, A: Allocator + Copy>(
    source: &ProgramTables<'p, A>,
    frames: u64,
    c: &'p Expr<A>,
    a: &'p Stmt<A>,
    m: &mut SourceThread<'p, '_, A>,
) -> Result<Option<StmtCompletion>, Halted>
    ensures { MeansTurn result
        (while_turn (program_in source.now) (caller_in source.now frames) (expr_of c.now) (stmt_of a.now)
        (state_in m.old))
        m.new }
{
    if let Some(end) = loop_test(source, frames, c, m)? {
        return Ok(Some(end));
    }
    let end = scoped_stmt(source, frames, a, m)?;
    Ok(left_by_body(end))
}

/// A test before or behind a body.
#[cycle(run)]
pub(crate) fn loop_test<'p, A: Allocator + Copy>(
    source: &ProgramTables<'p, A>,
    frames: u64,
    c: &'p Expr<A>,
    m: &mut SourceThread<'p, '_, A>,
) -> Result<Option<StmtCompletion>, Halted>
    ensures { MeansTurn result
        (tested_due (program_in source.now) (caller_in source.now frames) (expr_of c.now) (state_in m.old)) m.new }
{
    let v = eval(source, frames, c, m)?;
    if is_zero(v) {
        return Ok(Some(StmtCompletion::Next));
    }
    Ok(None)
}

/// One turn of a loop that tests behind its body.
#[cycle(run)]
fn turn_do<'p, A: Allocator + Copy>(
    source: &ProgramTables<'p, A>,
    frames: u64,
    a: &'p Stmt<A>,
    c: &'p Expr<A>,
    m: &mut SourceThread<'p, '_, A>,
) -> Result<Option<StmtCompletion>, Halted>
    ensures { MeansTurn result
        (do_turn (program_in source.now) (caller_in source.now frames) (stmt_of a.now) (expr_of c.now) (state_in m.old))
        m.new }
{
    let end = scoped_stmt(source, frames, a, m)?;
    match left_by_body(end) {
        Some(end) => Ok(Some(end)),
        None => loop_test(source, frames, c, m),
    }
}

/// One turn of a `for`.
#[cycle(run)]
fn turn_for<'p, A: Allocator + Copy>(
    source: &ProgramTables<'p, A>,
    frames: u64,
    head: &'p ForHead<A>,
    a: &'p Stmt<A>,
    m: &mut SourceThread<'p, '_, A>,
) -> Result<Option<StmtCompletion>, Halted>
    ensures { MeansTurn result
        (for_turn (program_in source.now) (caller_in source.now frames) (option_map expr_of head.now.condition)
        (option_map simple_of head.now.step) (stmt_of a.now) (state_in m.old)) m.new }
{
    let more = for_condition(source, frames, &head.condition, m)?;
    if !more {
        return Ok(Some(StmtCompletion::Next));
    }
    let end = scoped_stmt(source, frames, a, m)?;
    match left_by_body(end) {
        Some(end) => Ok(Some(end)),
        None => for_step(source, frames, &head.step, m),
    }
}

/// Whether a condition holds: a missing one does.
#[cycle(run)]
pub(crate) fn for_condition<'p, A: Allocator + Copy>(
    source: &ProgramTables<'p, A>,
    frames: u64,
    c: &'p Option<Expr<A>>,
    m: &mut SourceThread<'p, '_, A>,
) -> Result<bool, Halted>
    ensures { Means result (meaning.for_condition (program_in source.now) (caller_in source.now frames)
        (option_map expr_of c.now)
        (state_in m.old)) m.new }
{
    match c {
        None => Ok(true),
        Some(e) => {
            let v = eval(source, frames, e, m)?;
            Ok(!is_zero(v))
        }
    }
}

/// The step of a `for`.
#[cycle(run)]
pub(crate) fn for_step<'p, A: Allocator + Copy>(
    source: &ProgramTables<'p, A>,
    frames: u64,
    step: &'p Option<Simple<A>>,
    m: &mut SourceThread<'p, '_, A>,
) -> Result<Option<StmtCompletion>, Halted>
    ensures { MeansTurn result
        (meaning.optional_step (program_in source.now) (caller_in source.now frames) (option_map simple_of step.now)
        (state_in m.old)) m.new }
{
    match step {
        None => Ok(None),
        Some(s) => {
            simple(source, frames, s, m)?;
            Ok(None)
        }
    }
}

/// A `for` with names of its own.
#[cycle(run)]
#[inline(never)]
pub(crate) fn for_scoped<'p, A: Allocator + Copy>(
    source: &ProgramTables<'p, A>,
    frames: u64,
    head: &'p ForHead<A>,
    a: &'p Stmt<A>,
    m: &mut SourceThread<'p, '_, A>,
) -> Result<StmtCompletion, Halted>
    ensures { MeansCompletion result
        (meaning.in_scope (for_all (program_in source.now) (caller_in source.now frames) (start_of head.now.start)
        (option_map expr_of head.now.condition) (option_map simple_of head.now.step) (stmt_of a.now)) (state_in m.old))
        m.new }
{
    let outer = m.locals.len();
    let end = for_run(source, frames, head, a, m)?;
    m.locals.truncate(outer);
    Ok(end)
}

/// What a `for` begins with, and then its turns.
#[cycle(run)]
fn for_run<'p, A: Allocator + Copy>(
    source: &ProgramTables<'p, A>,
    frames: u64,
    head: &'p ForHead<A>,
    a: &'p Stmt<A>,
    m: &mut SourceThread<'p, '_, A>,
) -> Result<StmtCompletion, Halted>
    ensures { MeansCompletion result
        (for_all (program_in source.now) (caller_in source.now frames) (start_of head.now.start)
        (option_map expr_of head.now.condition) (option_map simple_of head.now.step) (stmt_of a.now) (state_in m.old))
        m.new }
{
    for_start(source, frames, &head.start, m)?;
    repeat(source, frames, &Loop::For(head, a), m)
}

/// What a `for` begins with.
#[cycle(run)]
pub(crate) fn for_start<'p, A: Allocator + Copy>(
    source: &ProgramTables<'p, A>,
    frames: u64,
    start: &'p Start<A>,
    m: &mut SourceThread<'p, '_, A>,
) -> Result<StmtCompletion, Halted>
    ensures { MeansCompletion result
        (meaning.start_with (program_in source.now) (caller_in source.now frames) (start_of start.now) (state_in m.old))
        m.new }
{
    match start {
        Start::Nothing => Ok(StmtCompletion::Next),
        Start::Declare(d) => declare(source, frames, d.ty, d.declarators.as_slice(), m),
        Start::Do(s) => simple(source, frames, s, m),
    }
}
