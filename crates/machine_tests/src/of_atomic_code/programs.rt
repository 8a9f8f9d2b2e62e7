//! Small programs.

use crate::asserted::{assert_all, assert_that};
use crate::of_atomic_code::driven::{code_comes_to, code_turns};
use atomic_code::AtomicEnd;
use bytecode::Instr;
use lex::token::Scalar;
use std::alloc::Allocator;
use syntax::thread_end::{Status, Trap};
use syntax::tree::BinaryOp;
use test_codes::calls_for_ever;

/// What a thread comes to: how many instructions it makes, how it is over, and what it has printed.
type Came = (u64, Option<AtomicEnd>, &'static str);

/// Whether thread 5 of a worker, and of a function where it is said where that begins, comes to this within so many
/// instructions.
fn of<A: Allocator + Copy>(
    alloc: A,
    instructions: &[Instr],
    second: Option<u32>,
    most: u32,
    came: Came,
) -> bool {
    let (steps, end, text) = came;
    code_comes_to(alloc, instructions, second, most, text) == Some((steps, None, end, true))
}

/// r1 = f(r0), and f gives minus its parameter
fn gives_back() -> &'static [Instr] {
    static CODE: [Instr; 5] = [
        Instr::Call(1, 1, 1, 0),
        Instr::PrintSigned(1),
        Instr::Return,
        Instr::NegateUnsigned(0, 0),
        Instr::ReturnValue(0),
    ];
    &CODE
}

/// f gives 0
fn gives_none() -> &'static [Instr] {
    static CODE: [Instr; 5] = [
        Instr::Constant(1, 3),
        Instr::Call(1, 1, 1, 0),
        Instr::PrintSigned(1),
        Instr::Return,
        Instr::Return,
    ];
    &CODE
}

#[test]
fn calls_give_values_and_a_65th_frame_traps(rt: HostRuntime) {
    let a = rt.alloc();
    let trapped = Some(AtomicEnd::Trapped(Trap::Frames));
    let value = of(
        a,
        gives_back(),
        Some(3),
        100,
        (5, Some(AtomicEnd::Ended), "-5"),
    );
    let none = of(
        a,
        gives_none(),
        Some(4),
        100,
        (5, Some(AtomicEnd::Ended), "0"),
    );
    let frames = of(a, calls_for_ever(), Some(2), 100, (64, trapped, ""));
    assert_all(
        &rt,
        &[("a value", value), ("none", none), ("a 65th frame", frames)],
    );
}

fn prints() -> &'static [Instr] {
    static CODE: [Instr; 6] = [
        Instr::Constant(1, 4_294_967_295),
        Instr::PrintSigned(1),
        Instr::PrintText(1),
        Instr::Irrevocable,
        Instr::PrintUnsigned(1),
        Instr::ReturnValue(1),
    ];
    &CODE
}

#[test]
fn texts_and_numbers_are_printed(rt: HostRuntime) {
    let came = (6, Some(AtomicEnd::Ended), "-1\\\n4294967295");
    assert_that(&rt, of(rt.alloc(), prints(), None, 100, came));
}

/// r1: the sum; r2: the number; r3: one
fn sums() -> &'static [Instr] {
    static CODE: [Instr; 8] = [
        Instr::Constant(2, 1000),
        Instr::Constant(3, 1),
        Instr::JumpZero(2, 6),
        Instr::Compute(BinaryOp::Add, Scalar::Int, 1, 1, 2),
        Instr::Compute(BinaryOp::Subtract, Scalar::Int, 2, 2, 3),
        Instr::Jump(2),
        Instr::PrintSigned(1),
        Instr::Return,
    ];
    &CODE
}

#[test]
fn the_sum_of_the_first_thousand(rt: HostRuntime) {
    let a = rt.alloc();
    let ended = of(
        a,
        sums(),
        None,
        4005,
        (4005, Some(AtomicEnd::Ended), "500500"),
    );
    let cut = of(a, sums(), None, 4004, (4004, None, "500500"));
    assert_all(&rt, &[("to its end", ended), ("cut short", cut)]);
}

/// f(n) adds n to the cell where n < 2, and otherwise calls f(n - 1) and f(n - 2): 89 calls of 7 instructions and 88 of
/// 10
fn fibonacci() -> &'static [Instr] {
    static CODE: [Instr; 20] = [
        Instr::Begin(5),
        Instr::Call(1, 1, 1, 0),
        Instr::Read(1, 0),
        Instr::Commit,
        Instr::PrintSigned(1),
        Instr::Return,
        // f: adds the number to the cell
        Instr::Constant(1, 2),
        Instr::Compute(BinaryOp::Less, Scalar::Int, 2, 0, 1),
        Instr::JumpNonzero(2, 16),
        Instr::Constant(1, 1),
        Instr::Compute(BinaryOp::Subtract, Scalar::Int, 0, 0, 1),
        Instr::Call(2, 1, 1, 0),
        Instr::Constant(1, 1),
        Instr::Compute(BinaryOp::Subtract, Scalar::Int, 0, 0, 1),
        Instr::Call(2, 1, 1, 0),
        Instr::Return,
        Instr::Read(1, 0),
        Instr::Compute(BinaryOp::Add, Scalar::Int, 1, 1, 0),
        Instr::Write(1, 0),
        Instr::Return,
    ];
    &CODE
}

#[test]
fn fibonacci_numbers_by_calls(rt: HostRuntime) {
    let found = code_turns(rt.alloc(), fibonacci(), Some(6), 10, 20, 0);
    assert_that(&rt, found == Some((55, 1509, Status::Ended)));
}
