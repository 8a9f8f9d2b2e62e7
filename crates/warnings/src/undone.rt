//! Writes that a cancel always undoes.

use crate::action::{Action, Part};
use crate::warning::{Warning, WarningKind};
use lex::token::Span;
use std::alloc::{AllocError, Allocator};
use syntax::tree::{Mode, TransactionKind};

/// The most actions before a cancel that are looked at.
const MOST_ACTIONS: usize = 4096;

/// Whether a cancel, an outer one or not, ends a transaction of this kind that is round it.
fn is_ended(kind: TransactionKind, is_outer: bool) -> bool {
    match kind {
        TransactionKind::Outer => true,
        TransactionKind::Plain(Mode::Atomic) => !is_outer,
        TransactionKind::Plain(Mode::Relaxed) => false,
    }
}

/// The number of the action with which the transaction begins that a cancel behind these actions ends.
fn cancelled(before: &[Action<'_>], is_outer: bool) -> Option<usize> {
    let mut depth = 0usize;
    'before: for (number, action) in before.iter().enumerate().rev() {
        match action {
            Action::Ends(_) => depth = depth.saturating_add(1),
            Action::Begins(Part::Transaction(kind)) if depth == 0 && is_ended(*kind, is_outer) => {
                return Some(number);
            }
            Action::Begins(_) => depth = depth.saturating_sub(1),
            _ => {}
        }
    }
    None
}

/// Adds the writes after which the cancel always comes that is the action of a number and stands at this place. The
/// transaction that it ends begins with another one.
fn add_before<A: Allocator>(
    found: &mut Vec<Warning, A>,
    actions: &[Action<'_>],
    begin: usize,
    at: usize,
    cancel: Span,
) -> Result<(), AllocError> {
    let mut depth = 0usize;
    let between = actions.get(begin..at).unwrap_or(&[]);
    'before: for action in between.iter().rev() {
        match action {
            Action::Jumps | Action::Cancels { .. } => return Ok(()),
            Action::Ends(_) => depth = depth.saturating_add(1),
            Action::Begins(Part::Block | Part::Transaction(_)) if depth == 0 => {}
            Action::Begins(_) if depth == 0 => return Ok(()),
            Action::Begins(_) => depth = depth.saturating_sub(1),
            Action::Writes(written, _) => {
                let is_inner = matches!(written.local, Some(declared) if declared > begin);
                if !is_inner {
                    found.push(Warning {
                        kind: WarningKind::UndoneWrite,
                        span: written.span,
                        other: Some(cancel),
                    })?;
                }
            }
            _ => {}
        }
    }
    Ok(())
}

/// Adds the writes of a body that a cancel always undoes.
pub(crate) fn add_undone<A: Allocator>(
    found: &mut Vec<Warning, A>,
    actions: &[Action<'_>],
) -> Result<(), AllocError> {
    'actions: for (at, action) in actions.iter().enumerate() {
        if let Action::Cancels { is_outer, span } = action {
            let first = at.saturating_sub(MOST_ACTIONS);
            let before = actions.get(first..at).unwrap_or(&[]);
            if let Some(begin) = cancelled(before, *is_outer) {
                add_before(found, actions, first.saturating_add(begin), at, *span)?;
            }
        }
    }
    Ok(())
}
