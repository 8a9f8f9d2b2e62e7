//! What statements do.

use crate::action::{Action, Part};
use crate::expr::{add_condition, add_exprs, add_first, add_return, add_simple};
use crate::flow::completes;
use crate::known::{Body, FileNames};
use crate::warning::{Warning, WarningKind};
use lex::token::Span;
use std::alloc::{AllocError, Allocator};
use syntax::spans::span_of;
use syntax::tree::{Declaration, Expr, ForHead, Parameter, Simple, Start, Stmt};

/// What declarations of one type do.
fn add_declaration<'a, A: Allocator + Copy>(
    file: &FileNames<'a, A>,
    body: &mut Body<'a, A>,
    declaration: &'a Declaration<A>,
) -> Result<(), AllocError> {
    'each: for one in &declaration.declarators {
        body.declare(one.name.text.as_str(), declaration.ty)?;
        if let Some(e) = &one.first {
            add_first(file, body, &one.name, e)?;
        }
    }
    Ok(())
}

/// What the head of a `for` begins with.
fn add_start<'a, A: Allocator + Copy>(
    file: &FileNames<'a, A>,
    body: &mut Body<'a, A>,
    start: &'a Start<A>,
) -> Result<(), AllocError> {
    match start {
        Start::Nothing => Ok(()),
        Start::Declare(declaration) => add_declaration(file, body, declaration),
        Start::Do(s) => add_simple(file, body, s),
    }
}

/// The condition of a loop, where there is one.
fn add_loop_condition<'a, A: Allocator + Copy>(
    file: &FileNames<'a, A>,
    body: &mut Body<'a, A>,
    condition: Option<&'a Expr<A>>,
) -> Result<(), AllocError> {
    match condition {
        Some(c) => add_condition(file, body, Part::LoopCondition(span_of(c)), c),
        None => Ok(()),
    }
}

/// What a `for` does behind each turn, where there is something.
fn add_step<'a, A: Allocator + Copy>(
    file: &FileNames<'a, A>,
    body: &mut Body<'a, A>,
    step: Option<&'a Simple<A>>,
) -> Result<(), AllocError> {
    match step {
        Some(step) => add_simple(file, body, step),
        None => Ok(()),
    }
}

/// Whether one branch of an `if` does not come to its end, so that what stands behind the `if` is decided by it.
fn decides_more<A: Allocator>(stmt: &Stmt<A>) -> bool {
    match stmt {
        Stmt::If(_, a, b) => {
            !completes(a.get())
                || match b {
                    Some(b) => !completes(b.get()),
                    None => false,
                }
        }
        _ => false,
    }
}

/// Adds that an `if` has nothing to do, where that is so.
fn add_empty<A: Allocator + Copy>(
    body: &mut Body<'_, A>,
    condition: &Expr<A>,
    a: &Stmt<A>,
    is_alone: bool,
) -> Result<(), AllocError> {
    if is_alone && matches!(a, Stmt::Empty) {
        body.found
            .push(Warning::at(WarningKind::EmptyIf, span_of(condition)))?;
    }
    Ok(())
}

/// What stands before the branches of an `if`: its begin and its condition.
fn add_choice<'a, A: Allocator + Copy>(
    file: &FileNames<'a, A>,
    body: &mut Body<'a, A>,
    condition: &'a Expr<A>,
) -> Result<(), AllocError> {
    body.add(Action::Begins(Part::Choice))?;
    add_condition(file, body, Part::Condition, condition)
}

/// A branch of an `if`, or the body of a loop.
#[cycle(add_stmt)]
fn add_branch<'a, A: Allocator + Copy>(
    file: &FileNames<'a, A>,
    body: &mut Body<'a, A>,
    stmt: &'a Stmt<A>,
) -> Result<(), AllocError> {
    let outer = body.locals.len();
    body.add(Action::Begins(Part::Branch))?;
    add_stmt(file, body, stmt)?;
    body.add(Action::Ends(Part::Branch))?;
    body.leave(outer);
    Ok(())
}

/// A `for`, behind what it begins with.
#[cycle(add_stmt)]
fn add_for<'a, A: Allocator + Copy>(
    file: &FileNames<'a, A>,
    body: &mut Body<'a, A>,
    head: &'a ForHead<A>,
    stmt: &'a Stmt<A>,
) -> Result<(), AllocError> {
    body.add(Action::Begins(Part::Loop))?;
    add_loop_condition(file, body, head.condition.as_ref())?;
    add_branch(file, body, stmt)?;
    add_step(file, body, head.step.as_ref())?;
    body.add(Action::Ends(Part::Loop))
}

/// A statement, but for the end of an `if`.
#[cycle(add_stmt)]
fn add_open<'a, A: Allocator + Copy>(
    file: &FileNames<'a, A>,
    body: &mut Body<'a, A>,
    stmt: &'a Stmt<A>,
) -> Result<(), AllocError> {
    match stmt {
        Stmt::Empty => Ok(()),
        Stmt::Declare(declaration) => add_declaration(file, body, declaration),
        Stmt::Do(s) => add_simple(file, body, s),
        Stmt::Block(all) => add_part(file, body, Part::Block, all.as_slice()),
        Stmt::Print(_, _, _, args) => add_exprs(file, body, args.as_slice()),
        Stmt::If(c, a, b) => {
            add_empty(body, c, a.get(), b.is_none())?;
            add_choice(file, body, c)?;
            add_branch(file, body, a.get())?;
            match b {
                Some(b) => add_branch(file, body, b.get()),
                None => Ok(()),
            }
        }
        Stmt::While(c, stmt) => {
            body.add(Action::Begins(Part::Loop))?;
            add_loop_condition(file, body, Some(c))?;
            add_branch(file, body, stmt.get())?;
            body.add(Action::Ends(Part::Loop))
        }
        Stmt::DoWhile(stmt, c) => {
            body.add(Action::Begins(Part::Loop))?;
            add_branch(file, body, stmt.get())?;
            add_loop_condition(file, body, Some(c))?;
            body.add(Action::Ends(Part::Loop))
        }
        Stmt::For(head, stmt) => {
            let outer = body.locals.len();
            add_start(file, body, &head.get().start)?;
            add_for(file, body, head.get(), stmt.get())?;
            body.leave(outer);
            Ok(())
        }
        Stmt::Break(_) | Stmt::Continue(_) => body.add(Action::Jumps),
        Stmt::Return(Some(e), _) => {
            add_return(file, body, e)?;
            body.add(Action::Jumps)
        }
        Stmt::Return(None, _) => body.add(Action::Jumps),
        Stmt::Transaction(kind, all, _) => {
            add_part(file, body, Part::Transaction(*kind), all.as_slice())
        }
        Stmt::Cancel(span) => body.add(cancel(false, *span)),
        Stmt::CancelOuter(span) => body.add(cancel(true, *span)),
    }
}

fn cancel<'a>(is_outer: bool, span: Span) -> Action<'a> {
    Action::Cancels { is_outer, span }
}

/// What a statement does.
#[cycle(add_stmt)]
fn add_stmt<'a, A: Allocator + Copy>(
    file: &FileNames<'a, A>,
    body: &mut Body<'a, A>,
    stmt: &'a Stmt<A>,
) -> Result<(), AllocError> {
    add_open(file, body, stmt)?;
    match stmt {
        Stmt::If(_, _, _) => body.add(Action::Ends(Part::Choice)),
        _ => Ok(()),
    }
}

/// What a block or a transaction does. An `if` that decides more ends where the block does.
#[cycle(add_stmt)]
pub(crate) fn add_part<'a, A: Allocator + Copy>(
    file: &FileNames<'a, A>,
    body: &mut Body<'a, A>,
    part: Part,
    all: &'a [Stmt<A>],
) -> Result<(), AllocError> {
    let outer = body.locals.len();
    let mut open = 0usize;
    body.add(Action::Begins(part))?;
    'each: for one in all {
        if decides_more(one) {
            add_open(file, body, one)?;
            open = open.saturating_add(1);
        } else {
            add_stmt(file, body, one)?;
        }
    }
    'open: for _ in 0..open {
        body.add(Action::Ends(Part::Choice))?;
    }
    body.add(Action::Ends(part))?;
    body.leave(outer);
    Ok(())
}

/// The parameters of a function.
pub(crate) fn add_parameters<'a, A: Allocator + Copy>(
    body: &mut Body<'a, A>,
    all: &'a [Parameter<A>],
) -> Result<(), AllocError> {
    'each: for one in all {
        if let Some(x) = &one.name {
            body.declare(x.text.as_str(), one.ty)?;
        }
    }
    Ok(())
}
