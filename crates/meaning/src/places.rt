//! Where in the source a thread is, noted as it goes, so that people see where it trapped or goes no further. No
//! definition sees it.

use crate::arithmetic::convert;
use crate::loops::Loop;
use crate::outcome::{HaltPlace, TrapCause};
use lex::token::Span;
use std::alloc::Allocator;
use syntax::spans::{span_of, span_of_head, span_of_stmt};
use syntax::tree::{BinaryOp, Stmt};
use syntax::types::operand_type;
use syntax::value::Value;

/// What an operator on two values could not compute, in the types in which it computes them.
#[cold]
#[inline(never)]
pub(crate) fn operator_cause(op: BinaryOp, x: Value, y: Value) -> TrapCause {
    let ty = operand_type(op, x.ty, y.ty);
    let left = convert(ty, x);
    let right = convert(operand_type(op, y.ty, x.ty), y);
    TrapCause::Operator(op, ty, left.word, right.word)
}

/// A thread traps here, for this.
#[cold]
#[inline(never)]
pub(crate) fn note_trap(at: &mut Option<HaltPlace>, span: Span, cause: TrapCause) {
    *at = Some(HaltPlace {
        at: span,
        cause: Some(cause),
    });
}

/// A thread is here, and where it traps here it is for this.
#[inline(always)]
pub(crate) fn note(at: &mut Option<HaltPlace>, span: Span, cause: Option<TrapCause>) {
    *at = Some(HaltPlace { at: span, cause });
}

/// A thread is at a statement.
//
// What runs statements lies on the stack once for each that is nested: what is done here is to take no room there.
#[inline(never)]
pub(crate) fn note_stmt<A: Allocator>(at: &mut Option<HaltPlace>, s: &Stmt<A>) {
    if let Some(span) = span_of_stmt(s) {
        note(at, span, None);
    }
}

/// A thread is at the next turn of a loop.
#[inline(never)]
pub(crate) fn note_loop<A: Allocator>(at: &mut Option<HaltPlace>, which: &Loop<A>) {
    let span = match which {
        Loop::While(c, _) | Loop::DoWhile(_, c) => Some(span_of(c)),
        Loop::For(head, _) => span_of_head(head),
    };
    if let Some(span) = span {
        note(at, span, None);
    }
}
