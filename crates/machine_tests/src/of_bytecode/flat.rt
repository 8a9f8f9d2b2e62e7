//! Flat code: each instruction's words, and where they begin.

use crate::asserted::{assert_none, assert_that};
use crate::of_bytecode::built::{Function, WORKER, code_of_parts};
use crate::of_bytecode::listed::{BITS, COMPUTES, LEADS, LONGS, LOOPING, OTHER_SUMS, SUMMED, TURN};
use bytecode::{Code, Instr, InstrView, kinds};
use lex::token::Scalar;
use std::alloc::Global;
use test_codes::{TEXTS, code_over_both};

/// What a row is called; functions and instructions; their words, and the first word of each instruction.
type Row = (
    &'static str,
    &'static [Function<'static>],
    &'static [Instr],
    &'static [u32],
    &'static [u32],
);

/// Whether a code's words, and its instructions' first words, are these.
fn is_flat(code: &Code, words: &[u32], firsts: &[u32]) -> bool {
    let flat = code.flat();
    flat.0 == words && flat.1 == firsts
}

/// Whether a row's words are those of its code and of a copy of it.
fn is_told(alloc: Global, row: &Row) -> bool {
    let (_, functions, instructions, words, firsts) = *row;
    match code_of_parts(alloc, functions, &[1, 0], instructions, &TEXTS) {
        None => false,
        Some(code) => match code.copy(alloc) {
            Err(_) => false,
            Ok(copy) => is_flat(&code, words, firsts) && is_flat(&copy, words, firsts),
        },
    }
}

const COMPUTES_WORDS: [u32; 65] = [
    512, 1, 4294967295, 513, 1, 0, 770, 1, 0, 1, 771, 1, 0, 1, 772, 1, 0, 1, 773, 1, 0, 1, 774, 1,
    0, 1, 775, 1, 0, 1, 776, 1, 0, 1, 777, 1, 0, 1, 778, 1, 0, 1, 779, 1, 0, 1, 537, 1, 0, 538, 1,
    0, 539, 1, 0, 817, 1, 0, 1, 817, 1, 4294967294, 4294967295, 299, 1,
];

const COMPUTES_FIRSTS: [u32; 18] = [
    0, 3, 6, 10, 14, 18, 22, 26, 30, 34, 38, 42, 46, 49, 52, 55, 59, 63,
];

const BITS_WORDS: [u32; 53] = [
    780, 1, 0, 1, 781, 1, 0, 1, 782, 1, 0, 1, 783, 1, 0, 1, 784, 1, 0, 1, 785, 1, 0, 1, 786, 1, 0,
    1, 787, 1, 0, 1, 788, 1, 0, 1, 789, 1, 0, 1, 790, 1, 0, 1, 791, 1, 0, 1, 792, 1, 0, 1, 42,
];

const BITS_FIRSTS: [u32; 14] = [0, 4, 8, 12, 16, 20, 24, 28, 32, 36, 40, 44, 48, 52];

const LONGS_WORDS: [u32; 51] = [
    818, 1, 0, 1, 819, 1, 0, 1, 820, 1, 0, 1, 821, 1, 0, 1, 822, 1, 0, 1, 823, 1, 0, 1, 824, 1, 0,
    1, 825, 1, 0, 1, 826, 1, 0, 1, 571, 1, 0, 572, 1, 0, 573, 1, 0, 574, 1, 0, 319, 1, 42,
];

const LONGS_FIRSTS: [u32; 15] = [0, 4, 8, 12, 16, 20, 24, 28, 32, 36, 39, 42, 45, 48, 50];

const LEADS_WORDS: [u32; 49] = [
    284, 1, 541, 0, 2, 542, 0, 3, 543, 0, 7, 292, 13, 292, 12, 544, 1, 0, 1057, 1, 0, 1, 0, 546, 0,
    1, 1059, 0, 1, 0, 1, 38, 295, 2, 37, 40, 300, 1, 301, 0, 302, 1, 809, 1, 1, 0, 42, 299, 0,
];

const LEADS_FIRSTS: [u32; 20] = [
    0, 2, 5, 8, 11, 13, 15, 18, 23, 26, 31, 32, 34, 35, 36, 38, 40, 42, 46, 47,
];

const TURN_WORDS: [u32; 12] = [815, 1, 1, 2, 789, 3, 1, 4, 542, 3, 0, 42];

const TURN_FIRSTS: [u32; 4] = [0, 4, 8, 11];

const SUMMED_WORDS: [u32; 16] = [816, 0, 0, 3, 815, 1, 1, 2, 789, 3, 1, 4, 542, 3, 0, 42];

const SUMMED_FIRSTS: [u32; 5] = [0, 4, 8, 12, 15];

const OTHER_SUMS_WORDS: [u32; 17] = [770, 1, 1, 2, 789, 3, 1, 4, 770, 0, 0, 3, 770, 7, 7, 2, 42];

const OTHER_SUMS_FIRSTS: [u32; 5] = [0, 4, 8, 12, 16];

/// The rows stand in a function, so that no proof but its own looks at them.
fn rows() -> &'static [Row] {
    static ROWS: [Row; 7] = [
        (
            "computes",
            &[WORKER],
            &COMPUTES,
            &COMPUTES_WORDS,
            &COMPUTES_FIRSTS,
        ),
        ("bits", &[WORKER], &BITS, &BITS_WORDS, &BITS_FIRSTS),
        ("long long", &[WORKER], &LONGS, &LONGS_WORDS, &LONGS_FIRSTS),
        (
            "leads",
            &[WORKER, ("f", 19, 1, 1)],
            &LEADS,
            &LEADS_WORDS,
            &LEADS_FIRSTS,
        ),
        (
            "the end of a loop's turn",
            &[LOOPING],
            &TURN,
            &TURN_WORDS,
            &TURN_FIRSTS,
        ),
        (
            "a sum before it",
            &[LOOPING],
            &SUMMED,
            &SUMMED_WORDS,
            &SUMMED_FIRSTS,
        ),
        (
            "sums behind which no turn ends",
            &[("worker", 0, 8, 1)],
            &OTHER_SUMS,
            &OTHER_SUMS_WORDS,
            &OTHER_SUMS_FIRSTS,
        ),
    ];
    &ROWS
}

/// The first row that is not told.
fn told_otherwise(alloc: Global) -> Option<&'static str> {
    for row in rows() {
        if !is_told(alloc, row) {
            return Some(row.0);
        }
    }
    None
}

#[test]
fn every_instruction_has_its_words(rt: HostRuntime) {
    assert_none(&rt, told_otherwise(rt.alloc()));
}

/// Writes over a variable of 32 bits and one of 64.
const WRITES: [Instr; 6] = [
    Instr::Write(1, 0),
    Instr::Write(1, 1),
    Instr::WriteAt(0, 1, 0, 1),
    Instr::WriteAt(0, 1, 1, 1),
    Instr::WriteAt(0, 1, 0, 2),
    Instr::Return,
];

const WRITES_WORDS: [u32; 22] = [
    546, 0, 1, 576, 1, 1, 1059, 0, 1, 0, 1, 1089, 1, 1, 0, 1, 1090, 0, 2, 0, 1, 42,
];

const WRITES_FIRSTS: [u32; 6] = [0, 3, 6, 11, 16, 21];

#[test]
fn writes_tell_how_many_bits_their_cells_have(rt: HostRuntime) {
    match code_over_both(rt.alloc(), &WRITES, None) {
        Some(code) => assert_that(&rt, is_flat(&code, &WRITES_WORDS, &WRITES_FIRSTS)),
        None => assert_that(&rt, false),
    }
}

/// Whether the instruction at a place is read as one of this kind with these operands.
fn is_read(code: &Code, place: usize, kind: u32, operands: &[u32]) -> bool {
    match code.kind_and_operands(place) {
        Some((found, lent)) => found == kind && lent == operands,
        None => false,
    }
}

/// Whether the instructions of a code are read as these kinds with these operands, and nothing is behind the last.
fn are_read(code: &Code, wanted: &[(u32, &[u32])]) -> bool {
    for place in 0..wanted.len() {
        if !is_read(code, place, wanted[place].0, wanted[place].1) {
            return false;
        }
    }
    code.len() == wanted.len() && code.kind_and_operands(wanted.len()).is_none()
}

const LEADS_READ: [(u32, &[u32]); 20] = [
    (kinds::JUMP, &[1]),
    (kinds::JUMP_ZERO, &[0, 2]),
    (kinds::JUMP_NONZERO, &[0, 3]),
    (kinds::CHECK, &[0, 7]),
    (kinds::BEGIN, &[13]),
    (kinds::BEGIN, &[12]),
    (kinds::READ, &[1, 0]),
    (kinds::READ_AT, &[1, 0, 1, 0]),
    (kinds::WRITE, &[0, 1]),
    (kinds::WRITE_AT, &[0, 1, 0, 1]),
    (kinds::CANCEL, &[]),
    (kinds::CANCEL_OUTER, &[2]),
    (kinds::COMMIT, &[]),
    (kinds::IRREVOCABLE, &[]),
    (kinds::PRINT_TEXT, &[1]),
    (kinds::PRINT_SIGNED, &[0]),
    (kinds::PRINT_UNSIGNED, &[1]),
    (kinds::CALL, &[1, 1, 0]),
    (kinds::RETURN, &[]),
    (kinds::RETURN_VALUE, &[0]),
];

/// The code of `worker` and of `f`, with one instruction of each kind that does not compute.
fn leading(alloc: Global) -> Option<Code> {
    code_of_parts(alloc, &[WORKER, ("f", 19, 1, 1)], &[1, 0], &LEADS, &TEXTS)
}

#[test]
fn kinds_and_operands_are_read(rt: HostRuntime) {
    match leading(rt.alloc()) {
        Some(code) => assert_that(&rt, are_read(&code, &LEADS_READ)),
        None => assert_that(&rt, false),
    }
}

#[test]
fn an_instruction_is_read_with_its_operator_and_registers(rt: HostRuntime) {
    match leading(rt.alloc()) {
        Some(code) => {
            assert_that(
                &rt,
                match code.instr(17) {
                    Some(InstrView::Call(1, 1, args)) => args == [0].as_slice(),
                    _ => false,
                },
            );
            assert_that(
                &rt,
                match code.instr(16) {
                    Some(InstrView::PrintNumber(Scalar::Unsigned, 1)) => true,
                    _ => false,
                },
            );
            assert_that(&rt, code.instr(20).is_none());
        }
        None => assert_that(&rt, false),
    }
}
