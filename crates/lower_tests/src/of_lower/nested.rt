//! Transactions in one another: 16 may be, and the 17th is the fault, at its keyword.

use crate::asserted::{assert_all, assert_that};
use crate::of_lower::codes::fault_of;
use lex::token::Span;
use std::alloc::Global;
use test_programs::{Piece, text_of};

/// The fault of a text of pieces. One that has code has the number 0, and one that memory is refused 1.
fn fault_at(alloc: Global, pieces: &[Piece]) -> (u32, Option<Span>) {
    match text_of(alloc, pieces) {
        Ok(text) => match fault_of(alloc, text.as_str()) {
            Some(fault) => fault,
            None => (0, None),
        },
        Err(_) => (1, None),
    }
}

/// What stands before, and a worker in which so many transactions lie in one another.
fn worker(before: &'static str, count: u32) -> [Piece; 5] {
    [
        Piece::Times(before, 1),
        Piece::Times("void worker(int self) { ", 1),
        Piece::Times("__transaction_atomic { ", count),
        Piece::Times("} ", count),
        Piece::Times("}", 1),
    ]
}

#[test]
fn sixteen_may_lie_in_one_another(rt: HostRuntime) {
    assert_that(&rt, fault_at(rt.alloc(), &worker("", 16)).0 == 0);
}

#[test]
fn the_seventeenth_is_too_deep(rt: HostRuntime) {
    let keyword = Span {
        start: 392,
        end: 412,
    };
    let found = fault_at(rt.alloc(), &worker("", 17));
    assert_that(&rt, found == (62, Some(keyword)));
}

/// A worker in which 16 lie in one another, and a function with 17 in branches.
fn branches() -> [Piece; 7] {
    [
        Piece::Times("void worker(int self) { ", 1),
        Piece::Times("__transaction_atomic { ", 16),
        Piece::Times("} ", 16),
        Piece::Times("} void f(int c) { if (c) while (c) ", 1),
        Piece::Times("{ __transaction_atomic { ", 17),
        Piece::Times("} }", 17),
        Piece::Times(" }", 1),
    ]
}

#[test]
fn calls_begin_anew_and_branches_do_not(rt: HostRuntime) {
    let called = "int x; void f(void) { __transaction_atomic { x = 1; } } ";
    let anew = fault_at(rt.alloc(), &worker(called, 16)).0;
    let deeper = fault_at(rt.alloc(), &branches()).0;
    assert_all(&rt, &[("calls", anew == 0), ("branches", deeper == 62)]);
}

/// A worker in which so many blocks of transactions lie round so many that are expressions.
fn round(blocks: u32, expressions: u32) -> [Piece; 9] {
    [
        Piece::Times("void worker(int self) { ", 1),
        Piece::Times("__transaction_atomic { ", blocks),
        Piece::Times("if (self) self = 1 + ", 1),
        Piece::Times("__transaction_atomic (", expressions),
        Piece::Times("1", 1),
        Piece::Times(")", expressions),
        Piece::Times("; ", 1),
        Piece::Times("} ", blocks),
        Piece::Times("}", 1),
    ]
}

#[test]
fn expressions_count_as_blocks_do(rt: HostRuntime) {
    let keyword = Span {
        start: 397,
        end: 417,
    };
    let last = fault_at(rt.alloc(), &round(0, 17));
    assert_all(
        &rt,
        &[
            ("16 expressions", fault_at(rt.alloc(), &round(0, 16)).0 == 0),
            ("17 expressions", last == (62, Some(keyword))),
            ("10 round 6", fault_at(rt.alloc(), &round(10, 6)).0 == 0),
            ("10 round 7", fault_at(rt.alloc(), &round(10, 7)).0 == 62),
            ("16 round 1", fault_at(rt.alloc(), &round(16, 1)).0 == 62),
        ],
    );
}
