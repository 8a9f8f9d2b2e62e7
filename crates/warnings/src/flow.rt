//! Where control may go.

use crate::constant::constant_of;
use std::alloc::Allocator;
use syntax::tree::{Expr, Mode, Stmt, TransactionKind};

/// A statement that leaves others.
#[derive(Clone, Copy, PartialEq, Eq)]
pub(crate) enum Leaving {
    Break,
    Continue,
    Cancel,
    CancelOuter,
}

/// Whether a condition always holds.
fn always_holds<A: Allocator>(condition: &Expr<A>) -> bool {
    matches!(constant_of(condition), Some(value) if value.word != 0)
}

/// Whether a statement that leaves this one's loop or transaction stands in it: in no loop of its own, or in no
/// transaction.
#[cycle(holds)]
fn holds<A: Allocator>(stmt: &Stmt<A>, leaving: Leaving) -> bool {
    let is_of_loop = matches!(leaving, Leaving::Break | Leaving::Continue);
    match stmt {
        Stmt::Break(_) => leaving == Leaving::Break,
        Stmt::Continue(_) => leaving == Leaving::Continue,
        Stmt::Cancel(_) => leaving == Leaving::Cancel,
        Stmt::CancelOuter(_) => leaving == Leaving::CancelOuter,
        Stmt::Block(all) => any_holds(all.as_slice(), leaving),
        Stmt::Transaction(_, all, _) => {
            leaving != Leaving::Cancel && any_holds(all.as_slice(), leaving)
        }
        Stmt::If(_, a, b) => {
            holds(a.get(), leaving)
                || match b {
                    Some(b) => holds(b.get(), leaving),
                    None => false,
                }
        }
        Stmt::While(_, body) | Stmt::DoWhile(body, _) | Stmt::For(_, body) => {
            !is_of_loop && holds(body.get(), leaving)
        }
        Stmt::Empty
        | Stmt::Declare(_)
        | Stmt::Do(_)
        | Stmt::Print(_, _, _, _)
        | Stmt::Return(_, _) => { false }
    }
}

/// Whether such a statement stands in one of these.
#[cycle(holds)]
fn any_holds<A: Allocator>(all: &[Stmt<A>], leaving: Leaving) -> bool {
    'each: for one in all {
        if holds(one, leaving) {
            return true;
        }
    }
    false
}

/// Whether control may come behind a loop with this condition, none of which always holds, and this body.
fn loop_completes<A: Allocator>(condition: Option<&Expr<A>>, body: &Stmt<A>) -> bool {
    let is_endless = match condition {
        Some(condition) => always_holds(condition),
        None => true,
    };
    !is_endless || holds(body, Leaving::Break)
}

/// Whether control may come behind a transaction by a cancel.
fn is_cancelled<A: Allocator>(kind: TransactionKind, all: &[Stmt<A>]) -> bool {
    match kind {
        TransactionKind::Plain(Mode::Relaxed) => false,
        TransactionKind::Plain(Mode::Atomic) => any_holds(all, Leaving::Cancel),
        TransactionKind::Outer => {
            any_holds(all, Leaving::Cancel) || any_holds(all, Leaving::CancelOuter)
        }
    }
}

/// Whether control may come to the end of a statement.
#[cycle(completes)]
pub(crate) fn completes<A: Allocator>(stmt: &Stmt<A>) -> bool {
    match stmt {
        Stmt::Break(_)
        | Stmt::Continue(_)
        | Stmt::Return(_, _)
        | Stmt::Cancel(_)
        | Stmt::CancelOuter(_) => false,
        Stmt::Block(all) => all_complete(all.as_slice()),
        Stmt::If(_, a, Some(b)) => completes(a.get()) || completes(b.get()),
        Stmt::While(c, body) => loop_completes(Some(c), body.get()),
        Stmt::DoWhile(body, c) => {
            let comes_to_condition = completes(body.get()) || holds(body.get(), Leaving::Continue);
            comes_to_condition && !always_holds(c) || holds(body.get(), Leaving::Break)
        }
        Stmt::For(head, body) => loop_completes(head.get().condition.as_ref(), body.get()),
        Stmt::Transaction(kind, all, _) => {
            all_complete(all.as_slice()) || is_cancelled(*kind, all.as_slice())
        }
        Stmt::If(_, _, None)
        | Stmt::Empty
        | Stmt::Declare(_)
        | Stmt::Do(_)
        | Stmt::Print(_, _, _, _) => { true }
    }
}

/// Whether control may come to the end of statements in their order.
#[cycle(completes)]
pub(crate) fn all_complete<A: Allocator>(all: &[Stmt<A>]) -> bool {
    'each: for one in all {
        if !completes(one) {
            return false;
        }
    }
    true
}
