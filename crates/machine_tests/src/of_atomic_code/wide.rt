//! Threads by themselves whose words need 64 bits.

use crate::asserted::{assert_all, assert_none};
use atomic_code::{AtomicThreadEnd, AtomicThreadOutcome, is_memory, thread};
use bytecode::{Code, Instr};
use std::alloc::Global;
use syntax::thread_end::{Halt, Trap};
use test_codes::{
    WideOperator, WideRow, code_over_both, shown_operator, wide_cells, wide_operators, wide_steps,
};

/// Whether a thread has come to its end and has printed this, or has trapped so.
fn is_given(outcome: &AtomicThreadOutcome, given: Result<&str, Trap>) -> bool {
    match given {
        Ok(text) => outcome.end == AtomicThreadEnd::Ended && outcome.text.as_str() == text,
        Err(why) => outcome.end == AtomicThreadEnd::Stopped(Halt::Trapped(why)),
    }
}

/// Whether a thread's transaction has left these words, where it has made one, and else 0 in each cell.
fn leaves(outcome: &AtomicThreadOutcome, words: [u64; 2]) -> bool {
    match outcome.lefts.as_slice().first() {
        Some(memory) => memory.as_slice() == words.as_slice(),
        None => words == [0, 0],
    }
}

/// The outcome of thread 0 over this memory, if it is one of the code.
fn over(alloc: Global, code: &Code, founds: &[Vec<u64>; 1]) -> Option<AtomicThreadOutcome> {
    if !is_memory(code, founds[0].as_slice()) {
        return None;
    }
    match thread(alloc, code, 0, founds, 100) {
        Ok(outcome) => Some(outcome),
        Err(_) => None,
    }
}

/// The outcome of thread 0 of these instructions, whose transaction finds 0 in each cell.
fn outcome(
    alloc: Global,
    instructions: &[Instr],
    begin: Option<u32>,
) -> Option<AtomicThreadOutcome> {
    match code_over_both(alloc, instructions, begin) {
        Some(code) => match Vec::from_slice(alloc, &[0u64, 0]) {
            Ok(memory) => over(alloc, &code, &[memory]),
            Err(_) => None,
        },
        None => None,
    }
}

/// Whether a thread gives what an operator should.
fn is_computed(alloc: Global, row: &WideOperator) -> bool {
    match outcome(alloc, &shown_operator(row), None) {
        Some(outcome) => is_given(&outcome, row.3),
        None => false,
    }
}

/// Whether threads give what each of these operators should.
fn are_computed(alloc: Global, rows: &[WideOperator]) -> bool {
    for row in rows {
        if !is_computed(alloc, row) {
            return false;
        }
    }
    true
}

/// The first operators of which a thread gives something else than it should.
fn computed_otherwise(alloc: Global) -> Option<&'static str> {
    for (name, rows) in wide_operators() {
        if !are_computed(alloc, *rows) {
            return Some(*name);
        }
    }
    None
}

#[test]
fn operators_on_words_of_64_bits(rt: HostRuntime) {
    assert_none(&rt, computed_otherwise(rt.alloc()));
}

/// Whether a thread does what a row says.
fn is_so(alloc: Global, row: &WideRow) -> bool {
    let (_, instructions, begin, given, words) = *row;
    match outcome(alloc, instructions, begin) {
        Some(outcome) => is_given(&outcome, given) && leaves(&outcome, words),
        None => false,
    }
}

/// The first row that a thread does not do.
fn done_otherwise(alloc: Global, rows: &[WideRow]) -> Option<&'static str> {
    for row in rows {
        if !is_so(alloc, row) {
            return Some(row.0);
        }
    }
    None
}

#[test]
fn registers_of_64_bits_are_looked_at(rt: HostRuntime) {
    assert_none(&rt, done_otherwise(rt.alloc(), wide_steps()));
}

#[test]
fn cells_of_32_and_of_64_bits(rt: HostRuntime) {
    assert_none(&rt, done_otherwise(rt.alloc(), wide_cells()));
}

/// Whether these words are a memory of a code over both variables.
fn is_one(alloc: Global, words: &[u64]) -> Option<bool> {
    match code_over_both(alloc, &[Instr::Return], None) {
        Some(code) => Some(is_memory(&code, words)),
        None => None,
    }
}

#[test]
fn a_memory_has_a_word_of_each_cells_type(rt: HostRuntime) {
    let narrow = is_one(rt.alloc(), &[4294967295, 0]) == Some(true);
    let wide = is_one(rt.alloc(), &[0, 4294967296]) == Some(true);
    let widest = is_one(rt.alloc(), &[0, 18446744073709551615]) == Some(true);
    let none = is_one(rt.alloc(), &[4294967296, 0]) == Some(false);
    let fewer = is_one(rt.alloc(), &[0]) == Some(false);
    assert_all(
        &rt,
        &[
            ("32 bits in an int", narrow),
            ("33 bits in a long long", wide),
            ("64 bits in a long long", widest),
            ("33 bits in an int", none),
            ("one cell of two", fewer),
        ],
    );
}
