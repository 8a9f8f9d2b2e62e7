//! What a thread has still to do, and the steps in which it goes on.

ghost use Rattle.std.specs.Prelude.{◌≡◌, map, option_map, IfSome};
ghost use Rattle.syntax.specs.Actions as act;
ghost use Rattle.syntax.specs.Meaning as meaning;
ghost use Rattle.syntax.specs.declared.thread_end.Trap.TheVariants.{Frames};
ghost use Rattle.syntax.specs.Tree.{Program};
ghost use Rattle.syntax.specs.Views.{expr_of, exprs_of, start_of, stmt_of, stmts_of};
ghost use Rattle.meaning.specs.inner.Going as going;
ghost use Rattle.meaning.specs.inner.Going.{call_left};
ghost use Rattle.meaning.specs.inner.Left as lefts;
ghost use Rattle.meaning.specs.inner.Left.{MeansStepped, follow_of};
ghost use Rattle.meaning.specs.inner.SourceThread.{Means, MeansCompletion, MeansTurn, completion_of, local_in};
ghost use Rattle.program_tables.specs.Views.{program_in};
ghost use Rattle.meaning.specs.inner.SourceThread.{state_in};
ghost use Rattle.meaning.specs.inner.Does.{caller_in, does_turn};

use crate::calls::{Begun, begin as begin_body, result_of, values};
use crate::expr::eval;
use crate::loops::{Loop, for_condition, for_start, for_step, left_by_body, loop_test};
use crate::outcome::TrapCause;
use crate::places::{note, note_stmt};
use crate::source_thread::{Halted, Local, SourceThread, StmtCompletion, tick};
use crate::stmt::stmt;
use crate::transactions::copy_locals;
use crate::word::is_zero;
use containers::Boxed;
use lex::token::{Scalar, Span};
use program_tables::ProgramTables;
use std::alloc::Allocator;
use std::mem;
use syntax::thread_end::{Halt, Trap};
use syntax::tree::{Expr, Name, Simple, Start, Stmt};
use syntax::value::Value;

/// How a statement is to be done.
#[derive(Clone, Copy)]
pub(crate) enum Direction {
    /// In one step.
    Whole,
    /// In one step, with names of its own.
    Scoped,
    /// A loop, of which at most so many turns are left.
    Turns(u64),
}

/// What is to be done, where so many further frames may come to live.
#[derive(Clone, Copy)]
pub(crate) enum Pending<'p, A: Allocator> {
    /// Statements one after another, in steps.
    Apart(u64, &'p [Stmt<A>]),
    /// A statement.
    Alone(Direction, u64, &'p Stmt<A>),
}

/// What a thread has still to do behind something else, by the end that this comes to.
#[derive(Drop)]
pub(crate) enum Left<'p, A: Allocator> {
    /// What comes behind statements that lead on to the next one.
    Next(Pending<'p, A>),
    /// What comes behind the body of a loop's turn, and then at most so many turns.
    Body(u64, &'p Stmt<A>, u64),
    /// The names behind so many go.
    Scope(usize),
    /// A call ends: the type of its value, and its caller's names.
    Call(Option<Scalar>, Vec<Local<'p>, A>),
}

/// How a thread goes on after a step: with an end, with a task, or with a task and what comes behind it.
#[derive(Drop)]
pub(crate) enum Stepped<'p, A: Allocator> {
    Ends(StmtCompletion),
    Goes(Pending<'p, A>),
    Nests(Left<'p, A>, Pending<'p, A>),
}

/// A statement that is made of others, by its parts.
#[derive(Drop)]
pub(crate) enum StmtParts<'p, A: Allocator> {
    Block(&'p [Stmt<A>]),
    Either(&'p Expr<A>, &'p Stmt<A>, &'p Option<Boxed<Stmt<A>, A>>),
    Repeats(Loop<'p, A>),
}

/// The parts of a statement that is made of others.
pub(crate) fn parts_of<'p, A: Allocator + Copy>(s: &'p Stmt<A>) -> Option<StmtParts<'p, A>>
    ensures { IfSome result (λ parts. stmt_of s.now ≡ lefts.stmt_in parts) }
{
    match s {
        Stmt::Block(ss) => Some(StmtParts::Block(ss.as_slice())),
        Stmt::If(c, a, b) => Some(StmtParts::Either(c, a.get(), b)),
        Stmt::While(c, a) => Some(StmtParts::Repeats(Loop::While(c, a.get()))),
        Stmt::DoWhile(a, c) => Some(StmtParts::Repeats(Loop::DoWhile(a.get(), c))),
        Stmt::For(head, a) => Some(StmtParts::Repeats(Loop::For(head.get(), a.get()))),
        _ => None,
    }
}

/// The loop that a statement is.
fn loop_of<'p, A: Allocator + Copy>(s: &'p Stmt<A>) -> Option<Loop<'p, A>>
    ensures { IfSome result (λ w. stmt_of s.now ≡ lefts.loop_in w) }
{
    match parts_of(s) {
        Some(StmtParts::Repeats(which)) => Some(which),
        _ => None,
    }
}

/// The first of statements, and then the others.
fn begin_apart<'p, A: Allocator>(frames: u64, ss: &'p [Stmt<A>]) -> Stepped<'p, A>
    ensures { (source : ProgramTables A) → follow_of source result
        ≡ going.apart_begun (program_in source) (caller_in source frames) (stmts_of ss.now) }
{
    match ss {
        [s, rest @ ..] => Stepped::Nests(
            Left::Next(Pending::Apart(frames, rest)),
            Pending::Alone(Direction::Whole, frames, s),
        ),
        [] => Stepped::Ends(StmtCompletion::Next),
    }
}

/// One of two statements, by the condition, behind the tick.
fn begin_either<'p, A: Allocator + Copy>(
    source: &ProgramTables<'p, A>,
    frames: u64,
    c: &'p Expr<A>,
    a: &'p Stmt<A>,
    b: &'p Option<Boxed<Stmt<A>, A>>,
    m: &mut SourceThread<'p, '_, A>,
) -> Result<Stepped<'p, A>, Halted>
    ensures { MeansStepped source.now result
        (going.either_begun (program_in source.now) (caller_in source.now frames) (expr_of c.now) (stmt_of a.now)
        (option_map stmt_of b.now) (state_in m.old)) m.new }
{
    let v = eval(source, frames, c, m)?;
    if !is_zero(v) {
        return Ok(Stepped::Goes(Pending::Alone(Direction::Scoped, frames, a)));
    }
    match b {
        Some(b) => Ok(Stepped::Goes(Pending::Alone(Direction::Scoped, frames, b.get()))),
        None => Ok(Stepped::Ends(StmtCompletion::Next)),
    }
}

/// A `for` behind its tick: what it begins with, and then as many turns as there are ticks.
fn begin_for<'p, A: Allocator + Copy>(
    source: &ProgramTables<'p, A>,
    frames: u64,
    start: &'p Start<A>,
    s: &'p Stmt<A>,
    m: &mut SourceThread<'p, '_, A>,
) -> Result<Stepped<'p, A>, Halted>
    ensures { MeansStepped source.now result
        (going.for_begun (program_in source.now) (caller_in source.now frames) (start_of start.now)
        (going.turn_of (program_in source.now) (caller_in source.now frames) (stmt_of s.now)) (state_in m.old)) m.new }
{
    let outer = m.locals.len();
    for_start(source, frames, start, m)?;
    Ok(Stepped::Nests(
        Left::Scope(outer),
        Pending::Alone(Direction::Turns(m.ticks), frames, s),
    ))
}

/// The first step of a loop behind its tick.
fn begin_loop<'p, A: Allocator + Copy>(
    source: &ProgramTables<'p, A>,
    frames: u64,
    which: &Loop<'p, A>,
    s: &'p Stmt<A>,
    m: &mut SourceThread<'p, '_, A>,
) -> Result<Stepped<'p, A>, Halted>
    ensures { MeansStepped source.now result
        (lefts.loop_opened source.now frames
        (going.turn_of (program_in source.now) (caller_in source.now frames) (stmt_of s.now)) which.now
        (state_in m.old))
        m.new }
{
    match which {
        Loop::For(head, _) => begin_for(source, frames, &head.start, s, m),
        Loop::While(_, _) | Loop::DoWhile(_, _) => {
            Ok(Stepped::Goes(Pending::Alone(Direction::Turns(m.ticks), frames, s)))
        }
    }
}

/// The first step of a statement that is made of others.
pub(crate) fn open<'p, A: Allocator + Copy>(
    source: &ProgramTables<'p, A>,
    frames: u64,
    s: &'p Stmt<A>,
    parts: &StmtParts<'p, A>,
    m: &mut SourceThread<'p, '_, A>,
) -> Result<Stepped<'p, A>, Halted>
    ensures { MeansStepped source.now result
        (lefts.first_step source.now frames (stmt_of s.now) parts.now (state_in m.old))
        m.new }
{
    note_stmt(&mut m.at, s);
    tick(m)?;
    match parts {
        StmtParts::Block(ss) => Ok(Stepped::Nests(
            Left::Scope(m.locals.len()),
            Pending::Apart(frames, ss),
        )),
        StmtParts::Either(c, a, b) => begin_either(source, frames, c, a, b, m),
        StmtParts::Repeats(which) => begin_loop(source, frames, which, s, m),
    }
}

/// The call that an expression is, perhaps in parentheses: its function's name, its arguments and where it stands.
fn call_in<'p, A: Allocator + Copy>(e: &'p Expr<A>) -> Option<(&'p Name<A>, &'p [Expr<A>], Span)>
    ensures { IfSome result (λ c. (p : Program) (call : meaning.Caller)
        → meaning.expr p call (expr_of e.now) ≡ going.call_of p call c.0.now.text (exprs_of c.1.now)) }
{
    match e {
        Expr::Call(f, args, at) => Some((f, args.as_slice(), *at)),
        Expr::Parenthesized(e, _) => call_in(e.get()),
        _ => None,
    }
}

/// The call that is all of a statement.
pub(crate) fn call_alone<'p, A: Allocator + Copy>(
    s: &'p Stmt<A>,
) -> Option<(&'p Name<A>, &'p [Expr<A>], Span)>
    ensures { IfSome result (λ c. (p : Program) (call : meaning.Caller)
        → meaning.stmt p call (stmt_of s.now) ≡ going.call_alone p call c.0.now.text (exprs_of c.1.now)) }
{
    match s {
        Stmt::Do(i) => match i {
            Simple::Evaluate(e) => call_in(e),
            _ => None,
        },
        _ => None,
    }
}

/// There is no frame for a call: the trap takes a tick.
fn trap_frames<'p, A: Allocator>(m: &mut SourceThread<'p, '_, A>) -> Result<Stepped<'p, A>, Halted>
    ensures { (source : ProgramTables A)
        → MeansStepped source result (act.trap {A = going.Follow} Frames (state_in m.old)) m.new }
{
    tick(m)?;
    m.why = Some(Halt::Trapped(Trap::Frames));
    Err(Halted {})
}

/// A function is entered: its body, behind which the caller's names come back.
fn begin_frame<'p, A: Allocator + Copy>(
    source: &ProgramTables<'p, A>,
    frames: u64,
    f: &str,
    values: &[Value],
    m: &mut SourceThread<'p, '_, A>,
) -> Result<Stepped<'p, A>, Halted>
    ensures { MeansStepped source.now result
        (going.frame_begun (program_in source.now) frames f.now values.now (state_in m.old)) m.new }
{
    if frames == 0 {
        return trap_frames(m);
    }
    let Begun { ty, body, mine } = begin_body(source, f, values, m)?;
    let outer = mem::replace(&mut m.locals, mine);
    Ok(Stepped::Nests(Left::Call(ty, outer), Pending::Apart(frames - 1, body)))
}

/// The first step of a statement that is nothing but a call.
pub(crate) fn open_call<'p, A: Allocator + Copy>(
    source: &ProgramTables<'p, A>,
    frames: u64,
    f: &Name<A>,
    args: &'p [Expr<A>],
    span: Span,
    m: &mut SourceThread<'p, '_, A>,
) -> Result<Stepped<'p, A>, Halted>
    ensures { MeansStepped source.now result
        (going.call_begun (program_in source.now) frames f.now.text (exprs_of args.now) (state_in m.old)) m.new }
{
    note(&mut m.at, span, Some(TrapCause::Call));
    tick(m)?;
    let values = values(source, frames, args, m)?;
    note(&mut m.at, span, Some(TrapCause::Call));
    tick(m)?; // the call's
    begin_frame(source, frames, f.text.as_str(), values.as_slice(), m)
}

/// Whether a turn's body is done, by the test before it.
fn goes<'p, A: Allocator + Copy>(
    source: &ProgramTables<'p, A>,
    frames: u64,
    which: &Loop<'p, A>,
    m: &mut SourceThread<'p, '_, A>,
) -> Result<bool, Halted>
    ensures { Means result (going.test_of (program_in source.now) (caller_in source.now frames)
        (lefts.loop_in which.now)
        (state_in m.old)) m.new }
{
    match which {
        Loop::While(c, _) => {
            let v = eval(source, frames, c, m)?;
            Ok(!is_zero(v))
        }
        Loop::DoWhile(_, _) => Ok(true),
        Loop::For(head, _) => for_condition(source, frames, &head.condition, m),
    }
}

/// A loop's body.
fn body_of<'p, A: Allocator + Copy>(which: &Loop<'p, A>) -> &'p Stmt<A>
    ensures { result.now ≡ lefts.body_in which.now }
{
    match which {
        Loop::While(_, a) => a,
        Loop::DoWhile(a, _) => a,
        Loop::For(_, a) => a,
    }
}

/// The next of so many turns: its tick, its test, and then its body, behind which the others are left.
fn begin_turns<'p, A: Allocator + Copy>(
    source: &ProgramTables<'p, A>,
    frames: u64,
    s: &'p Stmt<A>,
    turns: u64,
    m: &mut SourceThread<'p, '_, A>,
) -> Result<Stepped<'p, A>, Halted>
    ensures { MeansStepped source.now result
        (going.turns_begun (program_in source.now) (caller_in source.now frames) (stmt_of s.now) turns (state_in m.old))
        m.new }
{
    note_stmt(&mut m.at, s);
    let Some(which) = loop_of(s) else {
        m.why = None; // never so: turns are those of a loop
        return Err(Halted {});
    };
    if turns == 0 {
        m.why = Some(Halt::Spent);
        return Err(Halted {});
    }
    tick(m)?;
    if goes(source, frames, &which, m)? {
        Ok(Stepped::Nests(
            Left::Body(frames, s, turns - 1),
            Pending::Alone(Direction::Scoped, frames, body_of(&which)),
        ))
    } else {
        Ok(Stepped::Ends(StmtCompletion::Next))
    }
}

/// What follows the body of a turn where the loop goes on.
fn turn_end<'p, A: Allocator + Copy>(
    source: &ProgramTables<'p, A>,
    frames: u64,
    which: &Loop<'p, A>,
    m: &mut SourceThread<'p, '_, A>,
) -> Result<Option<StmtCompletion>, Halted>
    ensures { MeansTurn result
        (going.turn_end_of (program_in source.now) (caller_in source.now frames) (lefts.loop_in which.now)
        (state_in m.old))
        m.new }
{
    match which {
        Loop::While(_, _) => Ok(None),
        Loop::DoWhile(_, c) => loop_test(source, frames, c, m),
        Loop::For(head, _) => for_step(source, frames, &head.step, m),
    }
}

/// What follows the body of a turn, by its end.
fn after_body<'p, A: Allocator + Copy>(
    source: &ProgramTables<'p, A>,
    frames: u64,
    s: &'p Stmt<A>,
    end: StmtCompletion,
    m: &mut SourceThread<'p, '_, A>,
) -> Result<Option<StmtCompletion>, Halted>
    ensures { MeansTurn result
        (meaning.after_body (going.turn_end_of (program_in source.now) (caller_in source.now frames) (stmt_of s.now))
        (completion_of end) (state_in m.old)) m.new }
{
    if let Some(end) = left_by_body(end) {
        return Ok(Some(end));
    }
    let Some(which) = loop_of(s) else {
        m.why = None; // never so: turns are those of a loop
        return Err(Halted {});
    };
    turn_end(source, frames, &which, m)
}

/// What comes behind a loop's body, by its end.
fn leave_body<'p, A: Allocator + Copy>(
    source: &ProgramTables<'p, A>,
    frames: u64,
    s: &'p Stmt<A>,
    turns: u64,
    end: StmtCompletion,
    m: &mut SourceThread<'p, '_, A>,
) -> Result<Stepped<'p, A>, Halted>
    ensures { MeansStepped source.now result
        (lefts.body_step source.now frames (stmt_of s.now) turns (completion_of end) (state_in m.old)) m.new }
{
    match after_body(source, frames, s, end, m)? {
        Some(end) => Ok(Stepped::Ends(end)),
        None => Ok(Stepped::Goes(Pending::Alone(Direction::Turns(turns), frames, s))),
    }
}

/// A call's end.
fn leave_call<'p, A: Allocator + Copy>(
    alloc: A,
    ty: Option<Scalar>,
    outer: &[Local<'p>],
    end: StmtCompletion,
    m: &mut SourceThread<'p, '_, A>,
) -> Result<StmtCompletion, Halted>
    ensures { MeansCompletion result (call_left ty (map local_in outer.now) (completion_of end) (state_in m.old))
        m.new }
{
    let Ok(mine) = copy_locals(alloc, outer) else {
        m.why = None;
        return Err(Halted {});
    };
    m.locals = mine;
    result_of(m, ty, end)?;
    Ok(StmtCompletion::Next)
}

/// A statement's first step.
fn begin_alone<'p, A: Allocator + Copy>(
    source: &ProgramTables<'p, A>,
    way: Direction,
    frames: u64,
    s: &'p Stmt<A>,
    m: &mut SourceThread<'p, '_, A>,
) -> Result<Stepped<'p, A>, Halted>
    ensures { MeansStepped source.now result (lefts.begun_by source.now way frames (stmt_of s.now) (state_in m.old))
        m.new }
{
    match way {
        Direction::Whole => {
            let end = stmt(source, frames, s, m)?;
            Ok(Stepped::Ends(end))
        }
        Direction::Scoped => Ok(Stepped::Nests(
            Left::Scope(m.locals.len()),
            Pending::Alone(Direction::Whole, frames, s),
        )),
        Direction::Turns(turns) => begin_turns(source, frames, s, turns, m),
    }
}

/// A task's first step.
fn begin<'p, A: Allocator + Copy>(
    source: &ProgramTables<'p, A>,
    task: &Pending<'p, A>,
    m: &mut SourceThread<'p, '_, A>,
) -> Result<Stepped<'p, A>, Halted>
    ensures { MeansStepped source.now result (lefts.first_step_of source.now task.now (state_in m.old)) m.new }
{
    match task {
        Pending::Apart(frames, ss) => Ok(begin_apart(*frames, ss)),
        Pending::Alone(way, frames, s) => begin_alone(source, *way, *frames, s, m),
    }
}

/// What a thread does next, by the end of what it has done.
pub(crate) fn step<'p, A: Allocator + Copy>(
    source: &ProgramTables<'p, A>,
    left: &Left<'p, A>,
    end: StmtCompletion,
    m: &mut SourceThread<'p, '_, A>,
) -> Result<Stepped<'p, A>, Halted>
    ensures { MeansStepped source.now result (lefts.step_of source.now left.now (completion_of end) (state_in m.old))
        m.new }
{
    match left {
        Left::Next(task) => match end {
            StmtCompletion::Next => begin(source, task, m),
            end => Ok(Stepped::Ends(end)),
        },
        Left::Body(frames, s, turns) => leave_body(source, *frames, s, *turns, end, m),
        Left::Scope(outer) => {
            m.locals.truncate(*outer);
            Ok(Stepped::Ends(end))
        }
        Left::Call(ty, outer) => {
            let end = leave_call(source.alloc, *ty, outer.as_slice(), end, m)?;
            Ok(Stepped::Ends(end))
        }
    }
}
