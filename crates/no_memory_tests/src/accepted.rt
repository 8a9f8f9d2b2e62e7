//! From a text to its accepted program: each call is made again where memory was refused.

use crate::seen::Seen;
use containers::{Copied, Same};
use lex::token::Token;
use lex::{LexFault, lex};
use parse::{ParseFault, parse};
use safety::checked::Safe;
use safety::safe;
use separation::{Accepted, accept};
use std::alloc::Allocator;
use syntax::tree::Unit;
use syntax::violation::Refused;
use types::{Typed, check};

fn tokens_of<'a, A: Allocator + Copy>(alloc: A, text: &'a str) -> Option<Vec<Token<'a>, A>> {
    match lex(alloc, text) {
        Ok(tokens) => Some(tokens),
        Err(LexFault::OutOfMemory) => lex(alloc, text).ok(),
        Err(_) => None,
    }
}

fn tree_of<A: Allocator + Copy>(alloc: A, tokens: &[Token<'_>]) -> Option<Unit<A>> {
    match parse(alloc, tokens) {
        Ok(unit) => Some(unit),
        Err(ParseFault::OutOfMemory) => parse(alloc, tokens).ok(),
        Err(_) => None,
    }
}

fn copy_of<A: Allocator + Copy>(alloc: A, unit: &Unit<A>) -> Option<Unit<A>> {
    match unit.copy(alloc) {
        Ok(copy) => Some(copy),
        Err(_) => unit.copy(alloc).ok(),
    }
}

/// A copy of the tree of a text.
fn unit_of<A: Allocator + Copy>(alloc: A, text: &str, seen: &mut Seen) -> Option<Unit<A>> {
    let Some(tokens) = tokens_of(alloc, text) else {
        return None;
    };
    let Some(()) = seen.tokens("lex", tokens.as_slice()) else {
        return None;
    };
    match tree_of(alloc, tokens.as_slice()) {
        Some(unit) => copy_of(alloc, &unit),
        None => None,
    }
}

/// A refusal gives the tree back, and it is the one that is wanted.
fn typed_of<A: Allocator + Copy>(alloc: A, unit: Unit<A>, wanted: &Typed<A>) -> Option<Typed<A>> {
    if !unit.same(wanted.unit()) {
        return None;
    }
    match check(alloc, unit) {
        Ok(typed) => Some(typed),
        Err(Refused::OutOfMemory(unit)) => {
            if unit.same(wanted.unit()) {
                check(alloc, unit).ok()
            } else {
                None
            }
        }
        Err(_) => None,
    }
}

/// A refusal gives the program back, and it is the one that is wanted.
fn safe_of<A: Allocator + Copy>(alloc: A, typed: Typed<A>, wanted: &Typed<A>) -> Option<Safe<A>> {
    match safe(alloc, typed) {
        Ok(safe) => Some(safe),
        Err(Refused::OutOfMemory(typed)) => {
            if typed.unit().same(wanted.unit()) {
                safe(alloc, typed).ok()
            } else {
                None
            }
        }
        Err(_) => None,
    }
}

/// A refusal gives the program back, and it is the one that is wanted.
fn separate_of<A: Allocator + Copy>(
    alloc: A,
    safe: Safe<A>,
    wanted: &Typed<A>,
) -> Option<Accepted<A>> {
    match accept(alloc, safe) {
        Ok(accepted) => Some(accepted),
        Err(Refused::OutOfMemory(safe)) => {
            if safe.typed().unit().same(wanted.unit()) {
                accept(alloc, safe).ok()
            } else {
                None
            }
        }
        Err(_) => None,
    }
}

/// The accepted program of a tree.
fn accepted_tree<A: Allocator + Copy>(
    alloc: A,
    unit: Unit<A>,
    wanted: &Typed<A>,
    seen: &mut Seen,
) -> Option<Accepted<A>> {
    let Some(typed) = typed_of(alloc, unit, wanted) else {
        return None;
    };
    let Some(()) = seen.line("check") else {
        return None;
    };
    let Some(safe) = safe_of(alloc, typed, wanted) else {
        return None;
    };
    let Some(()) = seen.line("safe") else {
        return None;
    };
    separate_of(alloc, safe, wanted)
}

/// The accepted program of a text, which is this one.
pub fn accepted_of<A: Allocator + Copy>(
    alloc: A,
    text: &str,
    wanted: &Accepted<A>,
    seen: &mut Seen,
) -> Option<Accepted<A>> {
    let wanted = wanted.safe().typed();
    let Some(unit) = unit_of(alloc, text, seen) else {
        return None;
    };
    let Some(()) = seen.line("parse") else {
        return None;
    };
    match accepted_tree(alloc, unit, wanted, seen) {
        Some(accepted) => {
            let same = accepted.safe().typed().unit().same(wanted.unit());
            same.then_some(accepted)
        }
        None => None,
    }
}
