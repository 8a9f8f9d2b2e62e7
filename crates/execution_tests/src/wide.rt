//! Worlds of threads whose words need 64 bits.

use crate::asserted::assert_none;
use bytecode::{Code, Instr};
use replay::{read_schedule, replay};
use std::alloc::Global;
use syntax::thread_end::Trap;
use test_codes::{
    WideOperator, WideRow, code_over_both, shown_operator, wide_cells, wide_operators, wide_steps,
};
use world::{Report, WorldEnd};

/// Whether the one thread of a report has come to its end and has printed this, or has trapped so.
fn is_given(report: &Report, given: Result<&str, Trap>) -> bool {
    match report.threads.as_slice().first() {
        Some(found) => match given {
            Ok(text) => found.0 == WorldEnd::Ended && found.1.as_str() == text,
            Err(why) => found.0 == WorldEnd::Trapped(why),
        },
        None => false,
    }
}

/// What a hundred steps of the one thread of a code leave.
fn replay_of(alloc: Global, code: &Code) -> Option<Report> {
    match read_schedule(alloc, "0 100") {
        Ok(lines) => match replay(alloc, code, 1, lines.as_slice()) {
            Ok(report) => Some(report),
            Err(_) => None,
        },
        Err(_) => None,
    }
}

/// Whether a world of these instructions gives this, and leaves these words.
fn comes_to(
    alloc: Global,
    instructions: &[Instr],
    begin: Option<u32>,
    given: Result<&str, Trap>,
    words: [u64; 2],
) -> bool {
    match code_over_both(alloc, instructions, begin) {
        Some(code) => match replay_of(alloc, &code) {
            Some(report) => is_given(&report, given) && report.words.as_slice() == words.as_slice(),
            None => false,
        },
        None => false,
    }
}

/// Whether worlds give what each of these operators should.
fn are_computed(alloc: Global, rows: &[WideOperator]) -> bool {
    for row in rows {
        if !comes_to(alloc, &shown_operator(row), None, row.3, [0, 0]) {
            return false;
        }
    }
    true
}

/// The first operators of which a world gives something else than it should.
fn computed_otherwise(alloc: Global) -> Option<&'static str> {
    for (name, rows) in wide_operators() {
        if !are_computed(alloc, *rows) {
            return Some(*name);
        }
    }
    None
}

#[test]
fn operators_on_words_of_64_bits(rt: HostRuntime) {
    assert_none(&rt, computed_otherwise(rt.alloc()));
}

/// The first row that a world does not do.
fn done_otherwise(alloc: Global, rows: &[WideRow]) -> Option<&'static str> {
    for (name, instructions, begin, given, words) in rows {
        if !comes_to(alloc, *instructions, *begin, *given, *words) {
            return Some(*name);
        }
    }
    None
}

#[test]
fn registers_of_64_bits_are_looked_at(rt: HostRuntime) {
    assert_none(&rt, done_otherwise(rt.alloc(), wide_steps()));
}

#[test]
fn cells_of_32_and_of_64_bits(rt: HostRuntime) {
    assert_none(&rt, done_otherwise(rt.alloc(), wide_cells()));
}
