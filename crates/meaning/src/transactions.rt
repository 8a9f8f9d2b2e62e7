//! Transactions, as statements and as expressions (the C++ draft on transactions 1.1): what they do, and what they
//! leave.

ghost use Rattle.std.specs.Prelude.{◌≡◌, List, map, IfOk};
ghost use Rattle.syntax.specs.Actions as act;
ghost use Rattle.syntax.specs.Meaning as meaning;
ghost use Rattle.syntax.specs.Names as Names;
ghost use Rattle.meaning.specs.Outcomes.{memories_in};
ghost use Rattle.meaning.specs.inner.Does.{does_body, does_expr, is_forbidden as is_forbidden_due};
ghost use Rattle.meaning.specs.inner.SourceThread.{local_in, completion_of, Means, MeansCompletion, MeansWord};
ghost use Rattle.meaning.specs.inner.SourceThread.{context_in};
ghost use Rattle.meaning.specs.inner.SourceThread.{state_in};
ghost use Rattle.meaning.specs.inner.SourceThread.{items_in, left_too, Happened, halt_of};

use crate::expr::eval;
use crate::source_thread::{Context, Halted, Local, SourceThread, StmtCompletion, tick};
use crate::stmt::block;
use crate::word::Word;
use program_tables::ProgramTables;
use std::alloc::{AllocError, Allocator};
use std::mem;
use syntax::thread_end::Halt;
use syntax::tree::{Expr, Mode, Stmt, TransactionKind};

/// What a transaction does: its statements, or its operand where it is an expression.
#[derive(Drop)]
pub(crate) enum Body<'p, A: Allocator> {
    Block(&'p [Stmt<A>]),
    Value(&'p Expr<A>),
}

/// Copies locals.
pub(crate) fn copy_locals<'p, A: Allocator + Copy>(
    alloc: A,
    locals: &[Local<'p>],
) -> Result<Vec<Local<'p>, A>, AllocError>
    ensures { IfOk result (λ mine. items_in mine ≡ map local_in locals.now) }
{
    let mut mine = Vec::new(alloc);
    'locals: for l in locals {
        mine.push(Local {
            name: l.name,
            ty: l.ty,
            word: l.word,
        })?;
    }
    Ok(mine)
}

/// Copies a memory.
pub(crate) fn copy_memory<A: Allocator + Copy>(
    alloc: A,
    memory: &[u64],
) -> Result<Vec<u64, A>, AllocError>
    ensures { IfOk result (λ v. v.items ≡ memory.now) }
{
    let copy = Vec::from_slice(alloc, memory)?;
    Ok(copy)
}

/// Adds a memory to those left, outside transactions.
fn add_left<A: Allocator>(m: &mut SourceThread<A>, memory: Vec<u64, A>) -> Result<(), AllocError>
    ensures left { IfOk result (λ _. state_in m.new ≡ left_too memory.items (state_in m.old)) }
    ensures why { m.new.why ≡ m.old.why }
{
    if let Context::Outside(_, lefts) = &mut m.context {
        lefts.push(memory)?;
    }
    Ok(())
}

/// The memory inside a transaction.
fn memory_of<A: Allocator + Copy>(alloc: A, context: Context<A>) -> Vec<u64, A>
    ensures { result.items ≡ act.memory_in (context_in context.entry) }
{
    match context {
        Context::Outside(_, _) => Vec::new(alloc),
        Context::Inside(_, memory) => memory,
    }
}

/// How a transaction of this kind runs.
fn mode_of(kind: TransactionKind) -> Mode
    ensures { result ≡ meaning.mode_of kind }
{
    match kind {
        TransactionKind::Plain(mode) => mode,
        TransactionKind::Outer => Mode::Atomic,
    }
}

/// Whether a transaction of this kind is undone where its body ends so: an outer cancel undoes an outer one alone.
fn is_undone(end: StmtCompletion, kind: TransactionKind) -> bool
    ensures { result ≡ meaning.undoes (completion_of end) kind }
{
    match end {
        StmtCompletion::Cancels => true,
        StmtCompletion::CancelsOuter => match kind {
            TransactionKind::Outer => true,
            TransactionKind::Plain(_) => false,
        },
        _ => false,
    }
}

/// What a nested transaction does at its end.
fn leave_inner<'p, A: Allocator + Copy>(
    alloc: A,
    outer: Mode,
    kind: TransactionKind,
    before: Vec<Local<'p>, A>,
    found: Vec<u64, A>,
    end: StmtCompletion,
    m: &mut SourceThread<'p, '_, A>,
) -> StmtCompletion
    ensures { meaning.leave_inner outer
        (meaning.left_by kind (items_in before.entry) found.items (completion_of end) (state_in m.old)) (state_in m.old)
        ≡ act.Gives (completion_of result) (state_in m.new) }
{
    if is_undone(end, kind) {
        m.locals = before;
        m.context = Context::Inside(outer, found);
        return StmtCompletion::Next;
    }
    let inside = mem::replace(&mut m.context, Context::Inside(outer, Vec::new(alloc)));
    m.context = Context::Inside(outer, memory_of(alloc, inside));
    end
}

/// What an outermost transaction does at its end.
fn leave<'p, 'f, A: Allocator + Copy>(
    alloc: A,
    kind: TransactionKind,
    founds: &'f [Vec<u64, A>],
    lefts: Vec<Vec<u64, A>, A>,
    mine: Vec<Local<'p>, A>,
    found: &[u64],
    end: StmtCompletion,
    m: &mut SourceThread<'p, 'f, A>,
) -> Result<StmtCompletion, Halted>
    ensures { MeansCompletion result
        (meaning.leave (memories_in founds.now) (memories_in lefts.items)
        (meaning.left_by kind (items_in mine.entry) found.now (completion_of end) (state_in m.old)) (state_in m.old))
        m.new }
{
    let inside = mem::replace(&mut m.context, Context::Outside(founds, lefts));
    tick(m)?;
    if is_undone(end, kind) {
        m.locals = mine;
        let Ok(memory) = copy_memory(alloc, found) else {
            m.why = None;
            return Err(Halted {});
        };
        return match add_left(m, memory) {
            Ok(()) => Ok(StmtCompletion::Next),
            Err(_) => {
                m.why = None;
                Err(Halted {})
            }
        };
    }
    match add_left(m, memory_of(alloc, inside)) {
        Ok(()) => Ok(end),
        Err(_) => {
            m.why = None;
            Err(Halted {})
        }
    }
}

/// What an outermost transaction that traps leaves: the memory that was found.
fn leave_found<A: Allocator + Copy>(
    alloc: A,
    found: &[u64],
    m: &mut SourceThread<A>,
) -> Result<(), AllocError>
    ensures left { IfOk result (λ _. state_in m.new ≡ left_too found.now (state_in m.old)) }
    ensures why { m.new.why ≡ m.old.why }
{
    let memory = copy_memory(alloc, found)?;
    add_left(m, memory)
}

/// What an outermost transaction that stops leaves: a trap leaves the memory that was found.
fn close_stopped<'p, 'f, A: Allocator + Copy>(
    alloc: A,
    founds: &'f [Vec<u64, A>],
    lefts: Vec<Vec<u64, A>, A>,
    found: &[u64],
    m: &mut SourceThread<'p, 'f, A>,
)
    ensures known { Happened m.new.why → Happened m.old.why }
    ensures value { Happened m.new.why → (kind : TransactionKind) (mine : List Names.Local) →
        meaning.close kind (memories_in founds.now) (memories_in lefts.items) mine found.now
        (act.Stops (halt_of m.old.why) (state_in m.old)) ≡ act.Stops (halt_of m.new.why) (state_in m.new) }
{
    m.context = Context::Outside(founds, lefts); // what was written goes
    if let Some(Halt::Trapped(_)) = m.why {
        if leave_found(alloc, found, m).is_err() {
            m.why = None;
        }
    }
}

/// A relaxed transaction does not begin inside an atomic one.
fn is_forbidden(outer: Mode, mode: Mode) -> bool
    ensures { result ≡ is_forbidden_due outer mode }
{
    match outer {
        Mode::Relaxed => false,
        Mode::Atomic => match mode {
            Mode::Atomic => false,
            Mode::Relaxed => true,
        },
    }
}

/// Outside transactions a transaction that is an expression takes a tick before its memory is wanted.
fn begin_value<A: Allocator>(m: &mut SourceThread<A>) -> Result<(), Halted>
    ensures { Means result (meaning.begin_value (state_in m.old)) m.new }
{
    if let Context::Outside(_, _) = &m.context {
        return tick(m);
    }
    Ok(())
}

/// What an expression gives that is a transaction, by its body's end.
fn value_at<A: Allocator>(m: &mut SourceThread<A>, end: StmtCompletion) -> Result<Word, Halted>
    ensures { MeansWord result (meaning.value_at (completion_of end) (state_in m.old)) m.new }
{
    match end {
        StmtCompletion::Returns(v) => Ok(v),
        _ => {
            m.why = Some(Halt::Astray);
            Err(Halted {})
        }
    }
}

/// A transaction that is an expression.
#[cycle(run)]
#[inline(never)]
pub(crate) fn value_transaction<'p, A: Allocator + Copy>(
    source: &ProgramTables<'p, A>,
    frames: u64,
    mode: Mode,
    e: &'p Expr<A>,
    m: &mut SourceThread<'p, '_, A>,
) -> Result<Word, Halted>
    ensures { MeansWord result
        (meaning.value_transaction mode (does_expr source.now frames e.now) (state_in m.old))
        m.new }
{
    begin_value(m)?;
    let end = transaction(
        source,
        frames,
        TransactionKind::Plain(mode),
        &Body::Value(e),
        m,
    )?;
    value_at(m, end)
}

/// A transaction: what it does counts as a whole, or not at all.
#[cycle(run)]
#[inline(never)]
pub(crate) fn transaction<'p, A: Allocator + Copy>(
    source: &ProgramTables<'p, A>,
    frames: u64,
    kind: TransactionKind,
    body: &Body<'p, A>,
    m: &mut SourceThread<'p, '_, A>,
) -> Result<StmtCompletion, Halted>
    ensures { MeansCompletion result (meaning.transaction kind (does_body source.now frames body.now) (state_in m.old))
        m.new }
{
    let none = Context::Inside(Mode::Atomic, Vec::new(source.alloc));
    match mem::replace(&mut m.context, none) {
        Context::Outside(founds, lefts) => outermost(source, frames, kind, founds, lefts, body, m),
        Context::Inside(outer, found) => nested_transaction(
            source, frames, outer, found, kind, body, m,
        ),
    }
}

/// An outermost transaction, with the memories still to be found and those left so far.
#[cycle(run)]
#[inline(never)]
fn outermost<'p, 'f, A: Allocator + Copy>(
    source: &ProgramTables<'p, A>,
    frames: u64,
    kind: TransactionKind,
    founds: &'f [Vec<u64, A>],
    lefts: Vec<Vec<u64, A>, A>,
    body: &Body<'p, A>,
    m: &mut SourceThread<'p, 'f, A>,
) -> Result<StmtCompletion, Halted>
    ensures { MeansCompletion result (let before = act.Outside (memories_in founds.now) (memories_in lefts.items)
        in meaning.enter before kind (does_body source.now frames body.now)
        (record (state_in m.old) { context = before })) m.new }
{
    let [found, rest @ ..] = founds else {
        m.context = Context::Outside(founds, lefts);
        m.why = Some(Halt::Wants);
        return Err(Halted {});
    };
    let Ok(mine) = copy_locals(source.alloc, m.locals.as_slice()) else {
        m.why = None;
        return Err(Halted {});
    };
    let Ok(memory) = copy_memory(source.alloc, found.as_slice()) else {
        m.why = None;
        return Err(Halted {});
    };
    m.context = Context::Inside(mode_of(kind), memory);
    match run_body(source, frames, body, m) {
        Ok(end) => leave(
            source.alloc,
            kind,
            rest,
            lefts,
            mine,
            found.as_slice(),
            end,
            m,
        ),
        Err(halted) => {
            close_stopped(source.alloc, rest, lefts, found.as_slice(), m);
            Err(halted)
        }
    }
}

/// A transaction in another, which runs as `outer` on this memory.
#[cycle(run)]
#[inline(never)]
fn nested_transaction<'p, A: Allocator + Copy>(
    source: &ProgramTables<'p, A>,
    frames: u64,
    outer: Mode,
    found: Vec<u64, A>,
    kind: TransactionKind,
    body: &Body<'p, A>,
    m: &mut SourceThread<'p, '_, A>,
) -> Result<StmtCompletion, Halted>
    ensures { MeansCompletion result (let before = act.Inside outer found.items
        in meaning.enter before kind (does_body source.now frames body.now)
        (record (state_in m.old) { context = before })) m.new }
{
    let mode = mode_of(kind);
    if is_forbidden(outer, mode) {
        m.context = Context::Inside(outer, found);
        m.why = Some(Halt::Astray);
        return Err(Halted {});
    }
    let Ok(mine) = copy_locals(source.alloc, m.locals.as_slice()) else {
        m.why = None;
        return Err(Halted {});
    };
    let Ok(memory) = copy_memory(source.alloc, found.as_slice()) else {
        m.why = None;
        return Err(Halted {});
    };
    m.context = Context::Inside(mode, memory);
    let end = run_body(source, frames, body, m)?;
    Ok(leave_inner(source.alloc, outer, kind, mine, found, end, m))
}

/// What a transaction does between its begin and its end.
#[cycle(run)]
fn run_body<'p, A: Allocator + Copy>(
    source: &ProgramTables<'p, A>,
    frames: u64,
    body: &Body<'p, A>,
    m: &mut SourceThread<'p, '_, A>,
) -> Result<StmtCompletion, Halted>
    ensures { MeansCompletion result (does_body source.now frames body.now (state_in m.old)) m.new }
{
    match body {
        Body::Block(ss) => block(source, frames, ss, m),
        Body::Value(e) => {
            let v = eval(source, frames, e, m)?;
            Ok(StmtCompletion::Returns(v))
        }
    }
}
