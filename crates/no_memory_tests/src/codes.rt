//! From an accepted program to its code, a copy and the listing: each call is made again where memory was refused.

use crate::seen::Seen;
use bytecode::{Code, listing};
use lower::{LowerFault, lower};
use separation::Accepted;
use std::alloc::Allocator;

fn code_of_accepted<A: Allocator + Copy>(alloc: A, accepted: &Accepted<A>) -> Option<Code<A>> {
    match lower(alloc, accepted) {
        Ok(code) => Some(code),
        Err(LowerFault::OutOfMemory) => lower(alloc, accepted).ok(),
        Err(_) => None,
    }
}

fn copy_of<A: Allocator + Copy>(alloc: A, code: &Code<A>) -> Option<Code<A>> {
    match code.copy(alloc) {
        Ok(copy) => Some(copy),
        Err(_) => code.copy(alloc).ok(),
    }
}

fn listing_of<A: Allocator + Copy>(alloc: A, code: &Code<A>) -> Option<String<A>> {
    match listing(alloc, code) {
        Ok(text) => Some(text),
        Err(_) => listing(alloc, code).ok(),
    }
}

/// Adds the listing of a code.
fn list<A: Allocator + Copy>(alloc: A, code: &Code<A>, seen: &mut Seen) -> Option<()> {
    match listing_of(alloc, code) {
        Some(text) => seen.line(text.as_str()),
        None => None,
    }
}

/// A copy of the code of a program, both of which are listed.
pub fn code_of<A: Allocator + Copy>(
    alloc: A,
    accepted: &Accepted<A>,
    seen: &mut Seen,
) -> Option<Code<A>> {
    let Some(code) = code_of_accepted(alloc, accepted) else {
        return None;
    };
    let Some(()) = list(alloc, &code, seen) else {
        return None;
    };
    let Some(copy) = copy_of(alloc, &code) else {
        return None;
    };
    match list(alloc, &copy, seen) {
        Some(()) => Some(copy),
        None => None,
    }
}
