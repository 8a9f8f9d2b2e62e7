//! Large programs: the limits of registers and instructions, and a text of nearly 1 MiB.

use crate::asserted::{assert_all, assert_that};
use crate::of_lower::codes::{code_of, fault_of};
use bytecode::Code;
use lex::token::Span;
use std::alloc::Global;
use test_programs::{Piece, text_of};

/// How many functions, registers of the first one, and instructions a code has.
type Sizes = (usize, u32, usize);

fn sizes(code: &Code) -> Sizes {
    let registers = match code.functions().first() {
        Some(function) => function.registers,
        None => 0,
    };
    (code.functions().len(), registers, code.len())
}

/// The sizes of a text's code.
fn sizes_of(alloc: Global, text: &str) -> Option<Sizes> {
    match code_of(alloc, text) {
        Ok(code) => Some(sizes(&code)),
        Err(_) => None,
    }
}

/// The sizes of the code of a text of pieces.
fn sizes_in(alloc: Global, pieces: &[Piece]) -> Option<Sizes> {
    match text_of(alloc, pieces) {
        Ok(text) => sizes_of(alloc, text.as_str()),
        Err(_) => None,
    }
}

/// The fault of a text of pieces.
fn fault_in(alloc: Global, pieces: &[Piece]) -> Option<(u32, Option<Span>)> {
    match text_of(alloc, pieces) {
        Ok(text) => fault_of(alloc, text.as_str()),
        Err(_) => None,
    }
}

/// Whether this is the fault of these bytes.
fn is_at(fault: Option<(u32, Option<Span>)>, number: u32, start: usize, end: usize) -> bool {
    fault == Some((number, Some(Span { start, end })))
}

/// Whether a function has so many registers.
fn is_so_wide(sizes: Option<Sizes>, least: u32, most: u32) -> bool {
    match sizes {
        Some((1, registers, _)) => least <= registers && registers <= most,
        _ => false,
    }
}

/// A worker with a parameter and so many locals, and what stands behind them.
fn with_locals(count: u32, behind: &'static str) -> [Piece; 4] {
    [
        Piece::Times("void worker(int self) { ", 1),
        Piece::Numbers("int v", count, ";"),
        Piece::Times(behind, 1),
        Piece::Times(" }", 1),
    ]
}

#[test]
fn a_function_may_have_so_many_registers(rt: HostRuntime) {
    let sizes = sizes_in(rt.alloc(), &with_locals(65_534, ""));
    assert_that(&rt, is_so_wide(sizes, 65_535, 65_535));
}

/// Two constants are preloaded in the last two registers that a function may have, and with a local more there is no
/// room for them.
#[test]
fn constants_lie_ready_where_there_is_room(rt: HostRuntime) {
    let turns = " while (self < 7) self = self + 3;";
    let last = sizes_in(rt.alloc(), &with_locals(65_531, turns));
    let full = sizes_in(rt.alloc(), &with_locals(65_532, turns));
    assert_all(
        &rt,
        &[
            ("the last two", is_so_wide(last, 65_535, 65_535)),
            ("no room", is_so_wide(full, 65_534, 65_534)),
        ],
    );
}

#[test]
fn a_function_may_not_have_more_registers(rt: HostRuntime) {
    let fault = fault_in(rt.alloc(), &with_locals(65_535, ""));
    assert_that(&rt, is_at(fault, 60, 5, 11));
}

/// A sum of 90 ones.
const ONES: [Piece; 3] = [
    Piece::Times("void worker(int self) { int v = 1", 1),
    Piece::Times(" + 1", 89),
    Piece::Times("; }", 1),
];

#[test]
fn ninety_ones_take_few_registers(rt: HostRuntime) {
    assert_that(&rt, is_so_wide(sizes_in(rt.alloc(), &ONES), 0, 8));
}

/// A worker with so many statements of 33 instructions and 17 bytes each.
fn with_statements(count: u32) -> [Piece; 3] {
    [
        Piece::Times("int x; void f(void) { x = 1; } void worker(int s) { ", 1),
        Piece::Times("!!!!!!!!!!!!!!!s;", count),
        Piece::Times(" }", 1),
    ]
}

/// Whether a code has so many instructions.
fn is_so_long(sizes: Option<Sizes>, count: usize) -> bool {
    match sizes {
        Some((_, _, length)) => length == count,
        None => false,
    }
}

#[test]
fn a_code_has_at_most_so_many_instructions(rt: HostRuntime) {
    let most = sizes_in(rt.alloc(), &with_statements(34_952));
    let more = fault_in(rt.alloc(), &with_statements(34_953));
    assert_all(
        &rt,
        &[
            ("the most", is_so_long(most, 1_048_564)),
            ("more", is_at(more, 61, 36, 42)),
        ],
    );
}

/// 13,900 loops.
const LOOPS: [Piece; 3] = [
    Piece::Times("int x[9]; void worker(int s) { int i; ", 1),
    Piece::Times(
        "for (i = 0; i < 9; i++) if (i != s) { __transaction_atomic { x[i] += s; } }",
        13_900,
    ),
    Piece::Times(" }", 1),
];

/// How long a text of pieces is, which has code.
fn length_of(alloc: Global, pieces: &[Piece]) -> Option<usize> {
    match text_of(alloc, pieces) {
        Ok(text) => match fault_of(alloc, text.as_str()) {
            None => Some(text.len()),
            Some(_) => None,
        },
        Err(_) => None,
    }
}

#[test]
fn a_text_of_nearly_a_mebibyte_has_code(rt: HostRuntime) {
    assert_that(&rt, length_of(rt.alloc(), &LOOPS) > Some(1_000_000));
}
