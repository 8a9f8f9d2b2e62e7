//! Whole threads.

use crate::asserted::assert_no_row;
use crate::of_atomic_code::built::code_of;
use atomic_code::{AtomicThreadEnd, AtomicThreadOutcome, is_memory, thread};
use bytecode::{Code, Instr};
use lex::token::Scalar;
use std::alloc::{AllocError, Global};
use syntax::thread_end::{Halt, Trap};
use syntax::tree::BinaryOp;

/// What a thread leaves in the one cell in its first transaction and in its second, how it is found, and whether it has
/// printed this.
type Shown = (Option<u64>, Option<u64>, AtomicThreadEnd, bool);

/// The first word of the memory that was left under this number.
fn first_word(lefts: &[Vec<u64>], number: usize) -> Option<u64> {
    match lefts.get(number) {
        None => None,
        Some(memory) => memory.as_slice().first().copied(),
    }
}

fn outcome_shown(outcome: &AtomicThreadOutcome, text: &str) -> Shown {
    let lefts = outcome.lefts.as_slice();
    (
        first_word(lefts, 0),
        first_word(lefts, 1),
        outcome.end,
        outcome.text.as_str() == text,
    )
}

/// The outcome of thread 5 over two memories, if they are memories of the code.
fn outcome(
    alloc: Global,
    code: &Code,
    founds: &[Vec<u64>; 2],
    steps: u64,
    text: &str,
) -> Option<Shown> {
    if !is_memory(code, founds[0].as_slice()) {
        return None;
    }
    if !is_memory(code, founds[1].as_slice()) {
        return None;
    }
    match thread(alloc, code, 5, founds, steps) {
        Ok(outcome) => Some(outcome_shown(&outcome, text)),
        Err(_) => None,
    }
}

/// A memory of one cell.
fn memory(alloc: Global, word: u64) -> Result<Vec<u64>, AllocError> {
    Vec::from_slice(alloc, &[word])
}

/// Two memories of one cell.
fn memories(alloc: Global, first: u64, second: u64) -> Option<[Vec<u64>; 2]> {
    match memory(alloc, first) {
        Ok(first) => match memory(alloc, second) {
            Ok(second) => Some([first, second]),
            Err(_) => None,
        },
        Err(_) => None,
    }
}

/// What thread 5 of a code comes to, whose transactions find these words in the one cell.
fn of_code(
    alloc: Global,
    code: &Code,
    founds: (u64, u64),
    steps: u64,
    text: &str,
) -> Option<Shown> {
    match memories(alloc, founds.0, founds.1) {
        Some(founds) => outcome(alloc, code, &founds, steps, text),
        None => None,
    }
}

/// Words that the transactions of thread 5 find in the one cell, for how many instructions at most it runs, and what it
/// comes to: the words left in its first transaction and in its second, how it is found, and what it has printed.
type Row = (
    (u64, u64),
    u64,
    Option<u64>,
    Option<u64>,
    AtomicThreadEnd,
    &'static str,
);

/// Whether a code's thread comes to this.
fn is_so(alloc: Global, code: &Code, row: &Row) -> bool {
    let (founds, steps, first, second, end, text) = *row;
    of_code(alloc, code, founds, steps, text) == Some((first, second, end, true))
}

/// The number of the first row of which a code's thread comes to something else.
fn wrong_row(alloc: Global, code: &Code, rows: &[Row]) -> Option<usize> {
    for (number, row) in rows.iter().enumerate() {
        if !is_so(alloc, code, row) {
            return Some(number);
        }
    }
    None
}

/// The number of the first row of which the thread of a worker of these instructions comes to something else; of all,
/// where no code is made of them.
fn comes_to_another(alloc: Global, instructions: &[Instr], rows: &[Row]) -> Option<usize> {
    match code_of(alloc, instructions, None) {
        None => Some(0),
        Some(code) => wrong_row(alloc, &code, rows),
    }
}

/// x = x + r0, and then a print; for ever
fn loops() -> &'static [Instr] {
    static CODE: [Instr; 7] = [
        Instr::Begin(4),
        Instr::Read(1, 0),
        Instr::Compute(BinaryOp::Add, Scalar::Int, 1, 1, 0),
        Instr::Write(1, 0),
        Instr::Commit,
        Instr::PrintSigned(1),
        Instr::Jump(0),
    ];
    &CODE
}

fn loop_rows() -> &'static [Row] {
    static ROWS: [Row; 7] = [
        (
            (1, 20),
            0,
            None,
            None,
            AtomicThreadEnd::Stopped(Halt::Spent),
            "",
        ),
        (
            (1, 20),
            4,
            None,
            None,
            AtomicThreadEnd::Stopped(Halt::Spent),
            "",
        ),
        (
            (1, 20),
            5,
            Some(6),
            None,
            AtomicThreadEnd::Stopped(Halt::Spent),
            "",
        ),
        (
            (1, 20),
            6,
            Some(6),
            None,
            AtomicThreadEnd::Stopped(Halt::Spent),
            "6",
        ),
        (
            (1, 20),
            14,
            Some(6),
            Some(25),
            AtomicThreadEnd::Stopped(Halt::Spent),
            "625",
        ),
        (
            (1, 20),
            15,
            Some(6),
            Some(25),
            AtomicThreadEnd::Stopped(Halt::Wants),
            "625",
        ),
        (
            (1, 20),
            1000,
            Some(6),
            Some(25),
            AtomicThreadEnd::Stopped(Halt::Wants),
            "625",
        ),
    ];
    &ROWS
}

#[test]
fn each_transaction_finds_its_memory(rt: HostRuntime) {
    assert_no_row(&rt, comes_to_another(rt.alloc(), loops(), loop_rows()));
}

fn ends() -> &'static [Instr] {
    static CODE: [Instr; 3] = [Instr::Begin(2), Instr::Commit, Instr::Return];
    &CODE
}

fn end_rows() -> &'static [Row] {
    static ROWS: [Row; 1] = [((7, 8), 100, Some(7), None, AtomicThreadEnd::Ended, "")];
    &ROWS
}

/// Traps at a cell that holds 0.
fn traps() -> &'static [Instr] {
    static CODE: [Instr; 5] = [
        Instr::Begin(3),
        Instr::Read(1, 0),
        Instr::Compute(BinaryOp::Divide, Scalar::Int, 1, 0, 1),
        Instr::Commit,
        Instr::Jump(0),
    ];
    &CODE
}

fn trap_rows() -> &'static [Row] {
    static ROWS: [Row; 2] = [
        (
            (7, 0),
            100,
            Some(7),
            Some(0),
            AtomicThreadEnd::Stopped(Halt::Trapped(Trap::ZeroDivisor)),
            "",
        ),
        (
            (0, 7),
            100,
            Some(0),
            None,
            AtomicThreadEnd::Stopped(Halt::Trapped(Trap::ZeroDivisor)),
            "",
        ),
    ];
    &ROWS
}

#[test]
fn a_thread_ends_or_traps(rt: HostRuntime) {
    assert_no_row(&rt, comes_to_another(rt.alloc(), ends(), end_rows()));
    assert_no_row(&rt, comes_to_another(rt.alloc(), traps(), trap_rows()));
}
