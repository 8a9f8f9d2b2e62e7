//! What the stages that a text goes through make of it, until its program is accepted.

use lex::lex;
use parse::parse;
use safety::checked::Safe;
use safety::safe;
use separation::{Accepted, accept};
use std::alloc::Allocator;
use syntax::tree::Unit;
use types::{Typed, check};

/// The tree of a text; none where it is no program, or memory is refused.
pub fn unit_of<A: Allocator + Copy>(alloc: A, text: &str) -> Option<Unit<A>> {
    match lex(alloc, text) {
        Ok(tokens) => parse(alloc, tokens.as_slice()).ok(),
        Err(_) => None,
    }
}

/// The typed program of a text; none where it is no such program, or memory is refused.
pub fn typed_of<A: Allocator + Copy>(alloc: A, text: &str) -> Option<Typed<A>> {
    match unit_of(alloc, text) {
        Some(unit) => check(alloc, unit).ok(),
        None => None,
    }
}

/// The safe program of a text; none where it is no such program, or memory is refused.
pub fn safe_of<A: Allocator + Copy>(alloc: A, text: &str) -> Option<Safe<A>> {
    match typed_of(alloc, text) {
        Some(typed) => safe(alloc, typed).ok(),
        None => None,
    }
}

/// The accepted program of a text; none where it is no such program, or memory is refused.
pub fn accepted_of<A: Allocator + Copy>(alloc: A, text: &str) -> Option<Accepted<A>> {
    match safe_of(alloc, text) {
        Some(safe) => accept(alloc, safe).ok(),
        None => None,
    }
}
