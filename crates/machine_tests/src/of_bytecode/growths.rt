//! Each growth of `validate` refused in turn.

use crate::asserted::assert_that;
use crate::of_bytecode::built::{Function, WORKER, is_valid, parts_of};
use bytecode::{Instr, Parts, PartsFault, validate};
use std::alloc::{Allocator, Global};
use test_codes::TEXTS;
use test_memory::{Refusing, growths};

const FUNCTIONS: [Function<'static>; 2] = [WORKER, ("f", 4, 1, 1)];

const INSTRUCTIONS: [Instr; 5] = [
    Instr::Begin(3),
    Instr::Read(1, 0),
    Instr::Commit,
    Instr::Return,
    Instr::ReturnValue(0),
];

/// That parts which came back are valid, as `false`: they were not found so at once.
fn are_valid_later<A: Allocator + Copy>(alloc: A, fault: PartsFault<A>) -> Option<bool> {
    let PartsFault::OutOfMemory(parts) = fault;
    match is_valid(alloc, parts) {
        Some(true) => Some(false),
        _ => None,
    }
}

/// Whether parts are found valid at once, or else when they come back; `None` where they are found not to be.
fn are_valid<A: Allocator + Copy>(alloc: A, parts: Parts<A>) -> Option<bool> {
    match validate(alloc, parts) {
        Ok(Some(_)) => Some(true),
        Ok(None) => None,
        Err(fault) => are_valid_later(alloc, fault),
    }
}

/// Whether parts are valid at once just where growth `nth` does not come, which is refused. Their allocator is the one
/// that refuses.
fn tells_of<A: Allocator, B: Allocator + Copy>(
    refusing: &Refusing<A>,
    alloc: B,
    parts: Parts<B>,
    nth: u64,
) -> bool {
    refusing.refuse(nth);
    are_valid(alloc, parts) == Some(refusing.is_waiting())
}

/// Whether the sample is valid at once just where growth `nth` does not come, which is refused.
fn tells(refusing: &Refusing<Global>, nth: u64) -> bool {
    match parts_of(refusing, &FUNCTIONS, &[], &INSTRUCTIONS, &TEXTS) {
        Ok(parts) => tells_of(refusing, refusing, parts, nth),
        Err(_) => false,
    }
}

#[test]
fn each_growth_may_be_refused(rt: HostRuntime) {
    // names, arrivals, work and two lists
    assert_that(&rt, growths(rt.alloc(), 200, tells).ok() >= Some(5));
}
