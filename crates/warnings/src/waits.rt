//! Loops that wait for what no thread writes, or inside a transaction.

use crate::action::{Action, Part};
use crate::codes::Code;
use crate::effects::{Effect, add_called, is_number_among, own_effect};
use crate::facts::{Given, Test};
use crate::globals::Held;
use crate::returned::{GlobalFact, global_fact};
use crate::warning::{Warning, WarningKind};
use crate::whole::Whole;
use lex::token::Span;
use std::alloc::{AllocError, Allocator};

/// The most actions of a loop that is read.
const MOST_ACTIONS: usize = 4096;

/// How a loop stands to transactions.
#[derive(Clone, Copy, PartialEq, Eq)]
enum Where {
    /// Each access is in a transaction of its own.
    Outside,
    /// All of it is in one transaction.
    Inside,
    /// No thread runs it, but a property may.
    Unused,
}

/// The number of the action that ends the loop which begins with the action of a number; that number itself where there
/// are too many between.
pub(crate) fn end_of_loop(actions: &[Action<'_>], at: usize) -> usize {
    let mut depth = 0usize;
    let most = actions.len().min(at.saturating_add(MOST_ACTIONS));
    let some = actions.get(at..most).unwrap_or(&[]);
    'actions: for (number, action) in some.iter().enumerate() {
        match action {
            Action::Begins(_) => depth = depth.saturating_add(1),
            Action::Ends(_) => depth = depth.saturating_sub(1),
            _ => {}
        }
        if depth == 0 {
            return at.saturating_add(number);
        }
    }
    at
}

/// Whether some action leaves a loop of these.
fn is_left(actions: &[Action<'_>]) -> bool {
    'actions: for action in actions {
        if matches!(action, Action::Jumps | Action::Cancels { .. }) {
            return true;
        }
    }
    false
}

/// The condition of a loop: where it stands, and the numbers of the actions from and up to which it goes.
#[derive(Clone, Copy)]
struct Condition {
    span: Span,
    from: usize,
    to: usize,
}

/// The condition of a loop of these actions.
fn condition_of(actions: &[Action<'_>]) -> Option<Condition> {
    let mut depth = 0usize;
    let mut begun = None;
    'actions: for (at, action) in actions.iter().enumerate() {
        match action {
            Action::Begins(Part::LoopCondition(span)) if depth == 0 => {
                begun = Some((*span, at));
                depth = 1;
            }
            Action::Begins(_) => depth = depth.saturating_add(1),
            Action::Ends(_) => depth = depth.saturating_sub(1),
            _ => {}
        }
        if depth == 0 {
            if let Some((span, from)) = begun {
                return Some(Condition { span, from, to: at });
            }
        }
    }
    None
}

/// The test of a condition.
fn test_in<'a>(condition: &[Action<'a>]) -> Test<'a> {
    'actions: for action in condition {
        if let Action::Tests(test) = action {
            return *test;
        }
    }
    Test::nothing()
}

/// The fact that a loop waits for.
#[derive(Clone, Copy)]
pub(crate) struct Awaited<'a> {
    /// The loop ends if this holds.
    pub(crate) fact: GlobalFact<'a>,
    /// Where the condition stands.
    pub(crate) span: Span,
}

/// The fact that a loop of these actions waits for; none if it has another way to end.
pub(crate) fn awaited_by<'a, A: Allocator + Copy>(
    whole: &Whole<'a, A>,
    actions: &[Action<'a>],
) -> Option<Awaited<'a>> {
    if is_left(actions) {
        return None;
    }
    let Some(Condition { span, from, to }) = condition_of(actions) else {
        return None;
    };
    let test = test_in(actions.get(from..to).unwrap_or(&[])).if_false;
    match global_fact(&whole.codes, whole.returned.as_slice(), actions, test) {
        Some(fact) => Some(Awaited { fact, span }),
        None => None,
    }
}

/// Whether what is written may be 0, or may be another number.
fn may_be(given: Given<'_>, is_zero: bool) -> bool {
    match given {
        Given::Zero => is_zero,
        Given::Nonzero => !is_zero,
        Given::Computed(_) => true,
    }
}

/// The effect of actions, with the functions that they call.
fn whole_effect<'a, A: Allocator + Copy>(
    alloc: A,
    whole: &Whole<'a, A>,
    actions: &[Action<'a>],
) -> Result<Effect<A>, AllocError> {
    let mut effect = own_effect(alloc, &whole.file, actions)?;
    add_called(&whole.codes, whole.effects.as_slice(), &mut effect, actions)?;
    Ok(effect)
}

/// Whether these actions may make a fact hold of a global.
pub(crate) fn may_give<'a, A: Allocator + Copy>(
    alloc: A,
    whole: &Whole<'a, A>,
    actions: &[Action<'a>],
    fact: GlobalFact<'a>,
) -> Result<bool, AllocError> {
    'actions: for action in actions {
        match action {
            Action::Writes(variable, given) if variable.local.is_none() => {
                if variable.name == fact.global && may_be(*given, fact.is_zero) {
                    return Ok(true);
                }
            }
            _ => {}
        }
    }
    let mut called = Effect::new(alloc);
    add_called(&whole.codes, whole.effects.as_slice(), &mut called, actions)?;
    Ok(match whole.file.index_of(fact.global) {
        Some(number) => called.is_open || is_number_among(called.writes.as_slice(), number),
        None => true,
    })
}

/// The warning about a wait for a fact that no thread makes hold.
fn unmet(held: Held, fact: GlobalFact<'_>, span: Span) -> Option<Warning> {
    if held.is_constant() || !held.begins_with(fact.is_zero) {
        return Some(Warning::at(WarningKind::EndlessWait, span));
    }
    match held.write_of(!fact.is_zero) {
        Some(taken) => Some(Warning {
            kind: WarningKind::KeptLock,
            span,
            other: Some(taken),
        }),
        None => None,
    }
}

/// The warning about a wait that another thread would have to end.
fn unseen(place: Where, span: Span) -> Option<Warning> {
    match place {
        Where::Outside => None,
        Where::Inside => Some(Warning::at(WarningKind::TransactionWait, span)),
        Where::Unused => Some(Warning::at(WarningKind::EndlessWait, span)),
    }
}

/// The warning about a loop that ends if a fact holds of a global.
fn wait_for<'a, A: Allocator + Copy>(
    alloc: A,
    whole: &Whole<'a, A>,
    actions: &[Action<'a>],
    awaited: Awaited<'a>,
    place: Where,
) -> Result<Option<Warning>, AllocError> {
    let Awaited { fact, span } = awaited;
    let Some(held) = whole.held_of(fact.global) else {
        return Ok(None);
    };
    if held.write_of(fact.is_zero).is_none() {
        return Ok(unmet(held, fact, span));
    }
    if place == Where::Outside || may_give(alloc, whole, actions, fact)? {
        return Ok(None);
    }
    Ok(unseen(place, span))
}

/// Whether a loop of these actions changes a local that its condition reads.
fn changes_local(condition: &[Action<'_>], actions: &[Action<'_>]) -> bool {
    'written: for action in actions {
        if let Action::Writes(written, _) = action {
            if written.local.is_some() && is_read(condition, written.local) {
                return true;
            }
        }
    }
    false
}

/// Whether some action reads a local.
fn is_read(actions: &[Action<'_>], local: Option<usize>) -> bool {
    'actions: for action in actions {
        match action {
            Action::Reads(read) if read.local == local => return true,
            _ => {}
        }
    }
    false
}

/// Whether no thread writes any of these globals.
fn are_constant(held: &[Held], numbers: &[usize]) -> bool {
    'numbers: for number in numbers {
        match held.get(*number) {
            Some(held) if held.is_constant() => {}
            _ => return false,
        }
    }
    true
}

/// Whether two lists have a number in common.
fn have_common(some: &[usize], others: &[usize]) -> bool {
    'numbers: for number in some {
        if is_number_among(others, *number) {
            return true;
        }
    }
    false
}

/// The warning about a loop that follows from the reads of its condition alone.
fn wait_by_reads<'a, A: Allocator + Copy>(
    alloc: A,
    whole: &Whole<'a, A>,
    actions: &[Action<'a>],
    place: Where,
) -> Result<Option<Warning>, AllocError> {
    let Some(Condition { span, from, to }) = condition_of(actions) else {
        return Ok(None);
    };
    let condition = actions.get(from..to).unwrap_or(&[]);
    let read = whole_effect(alloc, whole, condition)?;
    if read.is_open || read.reads.is_empty() || changes_local(condition, actions) {
        return Ok(None);
    }
    if are_constant(whole.held.as_slice(), read.reads.as_slice()) {
        return Ok(Some(Warning::at(WarningKind::EndlessWait, span)));
    }
    let done = whole_effect(alloc, whole, actions)?;
    if done.is_open || have_common(read.reads.as_slice(), done.writes.as_slice()) {
        return Ok(None);
    }
    Ok(unseen(place, span))
}

/// The warning about a loop of these actions as a wait.
fn wait_in<'a, A: Allocator + Copy>(
    alloc: A,
    whole: &Whole<'a, A>,
    actions: &[Action<'a>],
    place: Where,
) -> Result<Option<Warning>, AllocError> {
    if is_left(actions) {
        return Ok(None);
    }
    match awaited_by(whole, actions) {
        Some(awaited) => wait_for(alloc, whole, actions, awaited, place),
        None => wait_by_reads(alloc, whole, actions, place),
    }
}

/// Whether these actions begin a transaction.
fn begins_anew(actions: &[Action<'_>]) -> bool {
    'actions: for action in actions {
        if matches!(
            action,
            Action::Begins(Part::Transaction(_) | Part::ValueTransaction)
        ) {
            return true;
        }
    }
    false
}

/// How a loop stands to transactions that no transaction of its function is round.
fn place_of<A: Allocator + Copy>(
    whole: &Whole<'_, A>,
    name: &str,
    actions: &[Action<'_>],
) -> Where {
    if whole.outside.contains(name) || !whole.reached.contains(name) && begins_anew(actions) {
        Where::Outside
    } else if whole.reached.contains(name) {
        Where::Inside
    } else {
        Where::Unused
    }
}

/// Adds the warning about a loop outside of its function's transactions. Returns where it waits if called in one.
fn add_wait_outside<'a, A: Allocator + Copy>(
    alloc: A,
    whole: &Whole<'a, A>,
    found: &mut Vec<Warning, A>,
    name: &'a str,
    actions: &[Action<'a>],
) -> Result<Option<Span>, AllocError> {
    let place = place_of(whole, name, actions);
    if let Some(warning) = wait_in(alloc, whole, actions, place)? {
        found.push(warning)?;
        return Ok(None);
    }
    match wait_in(alloc, whole, actions, Where::Inside)? {
        Some(warning) if place == Where::Outside => Ok(Some(warning.span)),
        _ => Ok(None),
    }
}

/// The first of two waits.
fn first_wait(one: Option<Span>, other: Option<Span>) -> Option<Span> {
    match one {
        Some(span) => Some(span),
        None => other,
    }
}

/// The wait of a function that is called by its name.
fn called_wait<'a, A: Allocator + Copy>(
    whole: &Whole<'a, A>,
    waits: &[Option<Span>],
    name: &str,
) -> Option<Span> {
    match whole.codes.number_of(name) {
        Some(number) => waits.get(number).copied().unwrap_or(None),
        None => None,
    }
}

/// Adds the waits of a function. Returns its first wait outside of transactions, itself or by a call, that would not end
/// inside one.
fn add_waits_of<'a, A: Allocator + Copy>(
    alloc: A,
    whole: &Whole<'a, A>,
    waits: &[Option<Span>],
    found: &mut Vec<Warning, A>,
    code: &Code<'a, A>,
) -> Result<Option<Span>, AllocError> {
    let actions = code.actions.as_slice();
    let is_inside = whole.reached.contains(code.name) && !whole.outside.contains(code.name);
    let mut depth = 0usize;
    let mut own = None;
    'actions: for (at, action) in actions.iter().enumerate() {
        match action {
            Action::Begins(Part::Transaction(_) | Part::ValueTransaction) => {
                depth = depth.saturating_add(1);
            }
            Action::Ends(Part::Transaction(_) | Part::ValueTransaction) => {
                depth = depth.saturating_sub(1);
            }
            Action::Begins(Part::Loop) if depth > 0 => {
                let end = end_of_loop(actions, at);
                let inner = actions.get(at.saturating_add(1)..end).unwrap_or(&[]);
                if let Some(warning) = wait_in(alloc, whole, inner, Where::Inside)? {
                    found.push(warning)?;
                }
            }
            Action::Begins(Part::Loop) => {
                let end = end_of_loop(actions, at);
                let inner = actions.get(at.saturating_add(1)..end).unwrap_or(&[]);
                let wait = add_wait_outside(alloc, whole, found, code.name, inner)?;
                own = first_wait(own, wait);
            }
            Action::Calls(name, span) => match called_wait(whole, waits, name) {
                Some(wait) if depth > 0 || is_inside => {
                    found.push(Warning {
                        kind: WarningKind::TransactionWait,
                        span: *span,
                        other: Some(wait),
                    })?;
                }
                wait => own = first_wait(own, wait),
            },
            _ => {}
        }
    }
    Ok(own)
}

/// Adds the waits of all functions.
pub(crate) fn add_waits<'a, A: Allocator + Copy>(
    alloc: A,
    whole: &Whole<'a, A>,
    found: &mut Vec<Warning, A>,
) -> Result<(), AllocError> {
    let mut waits = Vec::new(alloc);
    waits.resize(whole.codes.all.len(), None)?;
    'functions: for number in whole.codes.order.iter() {
        if let Some(code) = whole.codes.all.get(*number) {
            let wait = add_waits_of(alloc, whole, waits.as_slice(), found, code)?;
            if let Some(place) = waits.get_mut(*number) {
                *place = wait;
            }
        }
    }
    Ok(())
}
