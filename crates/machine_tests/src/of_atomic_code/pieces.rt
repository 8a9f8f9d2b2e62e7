//! A thread carried on in pieces.

use crate::asserted::{assert_no_row, assert_that};
use crate::of_atomic_code::built::code_of;
use crate::of_atomic_code::driven::{code_turns, pieces};
use atomic_code::is_memory;
use bytecode::{Code, Instr};
use lex::token::Scalar;
use std::alloc::Allocator;
use syntax::thread_end::Status;
use syntax::tree::BinaryOp;

/// What thread 5 of a worker of these instructions comes to by so many calls, each of so many instructions.
fn by_calls<A: Allocator + Copy>(
    alloc: A,
    instructions: &[Instr],
    calls: u32,
    each: u32,
) -> Option<(Option<u64>, u64, Status)> {
    match code_of(alloc, instructions, None) {
        None => None,
        Some(code) => pieces(alloc, &code, calls, each),
    }
}

fn adds_in_a_transaction() -> &'static [Instr] {
    static CODE: [Instr; 12] = [
        Instr::Begin(11),
        Instr::Constant(1, 2),
        Instr::Write(1, 0),
        Instr::Begin(7),
        Instr::Constant(1, 3),
        Instr::Write(1, 0),
        Instr::Cancel,
        Instr::Read(2, 0),
        Instr::Compute(BinaryOp::Add, Scalar::Int, 1, 1, 2),
        Instr::Write(1, 0),
        Instr::Commit,
        Instr::Return,
    ];
    &CODE
}

/// How many calls, of how many instructions each, and what they come to: the word left last, how many instructions, and
/// how the thread is.
type Calls = (u32, u32, Option<u64>, u64, Status);

fn calls() -> &'static [Calls] {
    static ROWS: [Calls; 4] = [
        (10, 0, None, 0, Status::Running),
        (10, 1, None, 10, Status::Running),
        (11, 1, Some(4), 11, Status::Running),
        (20, 1, Some(4), 12, Status::Ended),
    ];
    &ROWS
}

/// The number of the first row of calls by which a worker that adds in a transaction comes to something else.
fn comes_to_another<A: Allocator + Copy>(alloc: A, rows: &[Calls]) -> Option<usize> {
    for (number, row) in rows.iter().enumerate() {
        let (calls, each, word, steps, status) = row;
        let came = by_calls(alloc, adds_in_a_transaction(), *calls, *each);
        if came != Some((*word, *steps, *status)) {
            return Some(number);
        }
    }
    None
}

#[test]
fn a_transaction_goes_on_in_its_own_memory(rt: HostRuntime) {
    assert_no_row(&rt, comes_to_another(rt.alloc(), calls()));
}

/// x = x + r0, for ever
fn adds_for_ever() -> &'static [Instr] {
    static CODE: [Instr; 6] = [
        Instr::Begin(4),
        Instr::Read(1, 0),
        Instr::Compute(BinaryOp::Add, Scalar::Int, 1, 1, 0),
        Instr::Write(1, 0),
        Instr::Commit,
        Instr::Jump(0),
    ];
    &CODE
}

#[test]
fn each_transaction_finds_the_memory_at_hand(rt: HostRuntime) {
    let found = code_turns(rt.alloc(), adds_for_ever(), None, 5, 49, 9);
    assert_that(&rt, found == Some((254, 293, Status::Running)));
}

/// Whether one word below 2^32 alone is a memory of a code of one cell.
fn are_memories<A: Allocator>(code: &Code<A>) -> bool {
    is_memory(code, &[4_294_967_295])
        && !is_memory(code, &[4_294_967_296])
        && !is_memory(code, &[])
        && !is_memory(code, &[0, 0])
}

fn returns() -> &'static [Instr] {
    static CODE: [Instr; 1] = [Instr::Return];
    &CODE
}

/// Whether one word below 2^32 alone is a memory of a worker that only returns.
fn are_memories_of_one<A: Allocator + Copy>(alloc: A) -> bool {
    match code_of(alloc, returns(), None) {
        None => false,
        Some(code) => are_memories(&code),
    }
}

#[test]
fn a_memory_has_a_word_for_each_cell(rt: HostRuntime) {
    assert_that(&rt, are_memories_of_one(rt.alloc()));
}
