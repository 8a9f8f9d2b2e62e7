//! Threads that stand somewhere, and go on from there.

ghost use Rattle.std.specs.Prelude.{◌≡◌, ◌++◌, [], List, IfOk, IfSome, OnOk};
ghost use Rattle.syntax.specs.Actions as act;
ghost use Rattle.syntax.specs.Behaviours.{Memory};
ghost use Rattle.syntax.specs.Threads.{first_state, worker_run};
ghost use Rattle.meaning.specs.Outcomes.{memories_in};
ghost use Rattle.syntax.specs.Meaning as meaning;
ghost use Rattle.syntax.specs.Views.{exprs_of, stmt_of};
ghost use Rattle.meaning.specs.declared.left.Left.TheVariants as lefts;
ghost use Rattle.meaning.specs.declared.left.Pending.TheVariants as tasks;
ghost use Rattle.meaning.specs.declared.left.Direction.TheVariants as ways;
ghost use Rattle.meaning.specs.inner.Going.{Follow, IsStep, call_begun, follows};
ghost use Rattle.meaning.specs.inner.Left.{follow_of, left_gone_on, first_step, continue_with, step_of};
ghost use Rattle.meaning.specs.inner.SourceThread.{Happened, completion_of, halt_of, state_in};
ghost use Rattle.program_tables.specs.Views.{program_in};
ghost use Rattle.meaning.specs.inner.Standing.{IsGone, IsStop, bare, rest};

use crate::calls::{Begun, begin};
use crate::left::{
    Direction, Left, Pending, Stepped, StmtParts, call_alone, open, open_call, parts_of, step,
};
use crate::outcome::HaltPlace;
use crate::source_thread::{Context, Local, SourceThread, StmtCompletion};
use crate::threads::start;
use crate::transactions::{copy_locals, copy_memory};
use lex::token::{Scalar, Span};
use program_tables::ProgramTables;
use std::alloc::{AllocError, Allocator};
use syntax::thread_end::Halt;
use syntax::tree::{Expr, Name, Stmt};
use syntax::value::Value;

/// Where a thread stands outside transactions: its ticks, its locals, and the memories that are still to be found.
#[derive(Drop)]
pub(crate) struct Point<'p, A: Allocator> {
    pub ticks: u64,
    pub locals: Vec<Local<'p>, A>,
    pub due: Vec<Vec<u64, A>, A>,
}

/// What is left and printed.
#[derive(Drop)]
pub(crate) struct Observed<A: Allocator> {
    pub lefts: Vec<Vec<u64, A>, A>,
    pub text: Vec<u8, A>,

    /// Where the thread goes no further, if it does and that is known.
    pub at: Option<HaltPlace>,
}

/// A thread that stands at a point: what it has still to do, the end of what it did last, and what it has shown so far.
#[derive(Drop)]
pub(crate) struct StandingThread<'p, A: Allocator> {
    pub left: Vec<Left<'p, A>, A>,
    pub end: StmtCompletion,
    pub at: Point<'p, A>,
    pub shown: Observed<A>,
}

/// A thread that goes no further than its point: why, if it has not come to its end, and what it has shown behind the
/// point.
#[derive(Drop)]
pub(crate) struct StoppedThread<A: Allocator> {
    pub why: Option<Halt>,
    pub shown: Observed<A>,
}

/// What a step comes to: how the thread goes on from which point, and what it has shown on the way; or why it goes no
/// further.
#[derive(Drop)]
pub(crate) enum Gone<'p, A: Allocator> {
    Went(Stepped<'p, A>, Point<'p, A>, Observed<A>),
    Stopped(Halt, Observed<A>),
}

/// Copies memories.
fn copy_memories<A: Allocator + Copy>(
    alloc: A,
    memories: &[Vec<u64, A>],
) -> Result<Vec<Vec<u64, A>, A>, AllocError>
    ensures { IfOk result (λ v. memories_in v.items ≡ memories_in memories.now) }
{
    let mut copies = Vec::new(alloc);
    'memories: for memory in memories {
        let copy = copy_memory(alloc, memory.as_slice())?;
        copies.push(copy)?;
    }
    Ok(copies)
}

/// A thread at a point.
fn thread_at<'p, 'f, A: Allocator + Copy>(
    alloc: A,
    at: &'f Point<'p, A>,
) -> Result<SourceThread<'p, 'f, A>, AllocError>
    ensures { IfOk result (λ m. state_in m ≡ bare at.now) }
{
    let locals = copy_locals(alloc, at.locals.as_slice())?;
    Ok(SourceThread {
        ticks: at.ticks,
        why: None,
        at: None,
        locals,
        context: Context::Outside(at.due.as_slice(), Vec::new(alloc)),
        text: Vec::new(alloc),
    })
}

/// How a thread goes on that has made a step.
fn went<'p, A: Allocator + Copy>(
    alloc: A,
    next: Stepped<'p, A>,
    m: SourceThread<'p, '_, A>,
) -> Result<Gone<'p, A>, AllocError>
    ensures { (source : ProgramTables A)
        → IfOk result (λ g. IsGone source g (act.Gives (follow_of source next.entry) (state_in m.entry))) }
{
    let SourceThread {
        ticks,
        why: _,
        at: _,
        locals,
        context,
        text,
    } = m;
    match context {
        Context::Outside(founds, lefts) => {
            let due = copy_memories(alloc, founds)?; // mostly none
            let at = Point { ticks, locals, due };
            Ok(Gone::Went(
                next,
                at,
                Observed {
                    lefts,
                    text,
                    at: None,
                },
            ))
        }
        Context::Inside(_, _) => Err(AllocError), // never so: what begins outside ends outside
    }
}

/// A thread that goes no further.
fn stop_thread<'p, A: Allocator>(m: SourceThread<'p, '_, A>) -> Result<Gone<'p, A>, AllocError>
    ensures { (source : ProgramTables A)
        → IfOk result (λ g. Happened m.entry.why
        × IsGone source g (act.Stops (halt_of m.entry.why) (state_in m.entry))) }
{
    let SourceThread {
        ticks: _,
        why,
        at,
        locals: _locals,
        context,
        text,
    } = m;
    let Some(why) = why else {
        return Err(AllocError);
    };
    match context {
        Context::Outside(_, lefts) => Ok(Gone::Stopped(why, Observed { lefts, text, at })),
        Context::Inside(_, _) => Err(AllocError), // never so: what begins outside stops outside
    }
}

/// A step from a point.
fn go<'p, A: Allocator + Copy>(
    source: &ProgramTables<'p, A>,
    left: &Left<'p, A>,
    end: StmtCompletion,
    at: &Point<'p, A>,
) -> Result<Gone<'p, A>, AllocError>
    ensures { IfOk result (λ g. IsGone source.now g (step_of source.now left.now (completion_of end) (bare at.now))) }
{
    let mut m = thread_at(source.alloc, at)?;
    match step(source, left, end, &mut m) {
        Ok(next) => went(source.alloc, next, m),
        Err(_) => stop_thread(m),
    }
}

/// The first step of a statement that is made of others, from a point.
fn go_open<'p, A: Allocator + Copy>(
    source: &ProgramTables<'p, A>,
    frames: u64,
    s: &'p Stmt<A>,
    parts: &StmtParts<'p, A>,
    at: &Point<'p, A>,
) -> Result<Gone<'p, A>, AllocError>
    ensures { IfOk result
        (λ g. IsGone source.now g (first_step source.now frames (stmt_of s.now) parts.now (bare at.now))) }
{
    let mut m = thread_at(source.alloc, at)?;
    match open(source, frames, s, parts, &mut m) {
        Ok(next) => went(source.alloc, next, m),
        Err(_) => stop_thread(m),
    }
}

/// The first step of a statement that is nothing but a call, from a point.
fn go_call<'p, A: Allocator + Copy>(
    source: &ProgramTables<'p, A>,
    frames: u64,
    f: &Name<A>,
    args: &'p [Expr<A>],
    span: Span,
    at: &Point<'p, A>,
) -> Result<Gone<'p, A>, AllocError>
    ensures { IfOk result
        (λ g. IsGone source.now g
        (call_begun (program_in source.now) frames f.now.text (exprs_of args.now) (bare at.now))) }
{
    let mut m = thread_at(source.alloc, at)?;
    match open_call(source, frames, f, args, span, &mut m) {
        Ok(next) => went(source.alloc, next, m),
        Err(_) => stop_thread(m),
    }
}

/// Puts what comes next behind what is left, and gives the end with which that goes on.
fn push_next<'p, A: Allocator + Copy>(
    left: &mut Vec<Left<'p, A>, A>,
    next: Stepped<'p, A>,
) -> Result<StmtCompletion, AllocError>
    ensures { IfOk result (λ e. (source : ProgramTables A) (s : act.State)
        → left_gone_on source left.new.items (completion_of e) s ≡ act.go_on (follows (follow_of source next.entry) s)
        (left_gone_on source left.old.items)) }
{
    match next {
        Stepped::Ends(end) => Ok(end),
        Stepped::Goes(task) => {
            left.push(Left::Next(task))?;
            Ok(StmtCompletion::Next)
        }
        Stepped::Nests(outer, task) => {
            left.push(outer)?;
            left.push(Left::Next(task))?;
            Ok(StmtCompletion::Next)
        }
    }
}

/// A thread goes on from this point, with what comes next behind what is left.
fn arrive<'p, A: Allocator + Copy>(
    thread: &mut StandingThread<'p, A>,
    next: Stepped<'p, A>,
    at: Point<'p, A>,
    shown: Observed<A>,
) -> Result<(), AllocError>
    ensures left { (source : ProgramTables A)
        → OnOk result ((s : act.State) → left_gone_on source thread.new.left.items (completion_of thread.new.end) s
        ≡ act.go_on (follows (follow_of source next.entry) s) (left_gone_on source thread.old.left.items)) }
    ensures at { OnOk result (thread.new.at ≡ at.entry) }
    ensures lefts { OnOk result (thread.new.shown.lefts.items ≡ thread.old.shown.lefts.items ++ shown.lefts.items) }
    ensures text { OnOk result (thread.new.shown.text.items ≡ thread.old.shown.text.items ++ shown.text.items) }
{
    let mut shown = shown;
    thread.end = push_next(&mut thread.left, next)?;
    thread.at = at;
    thread.shown.lefts.append(&mut shown.lefts)?;
    thread.shown.text.append(&mut shown.text)
}

/// The statement that is next and wants a memory, with its frames.
fn wanting<'p, A: Allocator + Copy>(
    left: &Left<'p, A>,
    end: StmtCompletion,
    why: Halt,
) -> Option<(u64, &'p Stmt<A>)>
    ensures left { IfSome result (λ w. left.now ≡ lefts.Next (tasks.Alone ways.Whole w.0 w.1)) }
    ensures end { IfSome result (λ w. completion_of end ≡ meaning.Next) }
{
    match (left, end, why) {
        (
            Left::Next(Pending::Alone(Direction::Whole, frames, s)),
            StmtCompletion::Next,
            Halt::Wants,
        ) => Some((*frames, s)),
        _ => None,
    }
}

/// A step of a thread: a statement that wants a memory as a whole is done by its parts, or by the body that it calls,
/// if it has such.
fn try_step<'p, A: Allocator + Copy>(
    source: &ProgramTables<'p, A>,
    left: &Left<'p, A>,
    end: StmtCompletion,
    at: &Point<'p, A>,
) -> Result<Gone<'p, A>, AllocError>
    ensures { IfOk result (λ g. (run : act.Action Follow)
        × IsStep (continue_with source.now left.now) (completion_of end) run
        × IsGone source.now g (run (bare at.now))) }
{
    let gone = go(source, left, end, at)?;
    let Gone::Stopped(why, _) = &gone else {
        return Ok(gone);
    };
    let Some((frames, s)) = wanting(left, end, *why) else {
        return Ok(gone);
    };
    if let Some(parts) = parts_of(s) {
        let opened = go_open(source, frames, s, &parts, at)?;
        return Ok(opened);
    }
    match call_alone(s) {
        Some((f, args, span)) => {
            let entered = go_call(source, frames, f, args, span, at)?;
            Ok(entered)
        }
        None => Ok(gone),
    }
}

/// The tick of a thread's end.
fn at_end<A: Allocator + Copy>(alloc: A, ticks: u64) -> StoppedThread<A>
    ensures { (source : ProgramTables A) (thread : StandingThread A) → thread.at.ticks ≡ ticks → thread.left.items ≡ []
        → IsStop source thread result }
{
    let why = if ticks == 0 { Some(Halt::Spent) } else { None };
    let shown = Observed {
        lefts: Vec::new(alloc),
        text: Vec::new(alloc),
        at: None,
    };
    StoppedThread { why, shown }
}

/// One step of a thread, or why it goes no further.
fn advance<'p, A: Allocator + Copy>(
    source: &ProgramTables<'p, A>,
    thread: &mut StandingThread<'p, A>,
) -> Result<Option<StoppedThread<A>>, AllocError>
    ensures same { OnOk result ((founds : List Memory)
        → rest source.now thread.new founds ≡ rest source.now thread.old founds) }
    ensures stops { IfOk result (λ o. IfSome o (λ s. IsStop source.now thread.new s)) }
{
    let Some(left) = thread.left.pop() else {
        return Ok(Some(at_end(source.alloc, thread.at.ticks)));
    };
    match try_step(source, &left, thread.end, &thread.at)? {
        Gone::Went(next, at, shown) => {
            arrive(thread, next, at, shown)?;
            Ok(None)
        }
        Gone::Stopped(why, shown) => {
            thread.left.push(left)?;
            Ok(Some(StoppedThread {
                why: Some(why),
                shown,
            }))
        }
    }
}

/// A thread goes on to where it goes no further.
pub(crate) fn run<'p, A: Allocator + Copy>(
    source: &ProgramTables<'p, A>,
    thread: &mut StandingThread<'p, A>,
) -> Result<StoppedThread<A>, AllocError>
    ensures same { OnOk result ((founds : List Memory)
        → rest source.now thread.new founds ≡ rest source.now thread.old founds) }
    ensures stops { IfOk result (λ s. IsStop source.now thread.new s) }
{
    // each step takes a tick or ends a piece, so there are never so many; only the prover wants an end
    'steps: for _ in 0..u64::MAX {
        if let Some(stop) = advance(source, thread)? {
            return Ok(stop);
        }
    }
    Err(AllocError)
}

/// A thread before its first tick.
pub(crate) fn stand<'p, A: Allocator + Copy>(
    source: &ProgramTables<'p, A>,
    ticks: u64,
    t: u32,
) -> Result<StandingThread<'p, A>, AllocError>
    ensures { IfOk result (λ th. (founds : List Memory)
        → rest source.now th founds ≡ worker_run (program_in source.now) t (first_state founds ticks)) }
{
    let values = [Value {
        ty: Scalar::Unsigned,
        word: u64::from(t),
    }];
    let mut m = start(source.alloc, &[], ticks);
    let Ok(Begun { ty, body, mine }) = begin(source, "worker", &values, &mut m) else {
        return Err(AllocError);
    };
    let mut left = Vec::new(source.alloc);
    left.push(Left::Call(ty, Vec::new(source.alloc)))?;
    left.push(Left::Next(Pending::Apart(63, body)))?;
    Ok(StandingThread {
        left,
        end: StmtCompletion::Next,
        at: Point {
            ticks,
            locals: mine,
            due: Vec::new(source.alloc),
        },
        shown: Observed {
            lefts: Vec::new(source.alloc),
            text: Vec::new(source.alloc),
            at: None,
        },
    })
}
