//! Chains of 20,000 functions, in either order of the file.

use crate::asserted::assert_all;
use crate::large::{FROM_FIRST, FROM_LAST, PROTOTYPES, fault_in};
use crate::stages::{Stage, fault_of};
use lex::token::Span;
use std::alloc::Global;
use test_programs::{Piece, text_of};

const GLOBAL: Piece = Piece::Times("int x;", 1);

const WRITING: Piece = Piece::Times("void f19999(void) { x = 1; }", 1);

const BARE: Piece = Piece::Times("void worker(int k) { f0(); }", 1);

const ENCLOSED: Piece = Piece::Times("void worker(int k) { __transaction_atomic { f0(); } }", 1);

/// Whether the fault of a text is that of the bare call with which it ends, by its place.
fn ends_bare(alloc: Global, text: &str) -> bool {
    let start = text.len().saturating_sub(7);
    let end = text.len().saturating_sub(5);
    fault_of(alloc, Stage::Separation, text) == Some((51, Some(Span { start, end })))
}

/// Whether the fault of a chain is that of the bare call with which it ends, by its place.
fn is_bare(alloc: Global, chain: &[Piece]) -> bool {
    match text_of(alloc, chain) {
        Ok(text) => ends_bare(alloc, text.as_str()),
        Err(_) => false,
    }
}

/// Whether a chain is accepted.
fn is_accepted(alloc: Global, chain: &[Piece]) -> bool {
    fault_in(alloc, Stage::Separation, chain) == Some(None)
}

/// A bare call of the first function is a fault, by its place, and one in a transaction is none.
#[test]
fn a_chain_from_the_first_function(rt: HostRuntime) {
    let bare = [GLOBAL, PROTOTYPES, FROM_FIRST, WRITING, BARE];
    let enclosed = [GLOBAL, PROTOTYPES, FROM_FIRST, WRITING, ENCLOSED];
    assert_all(
        &rt,
        &[
            ("bare", is_bare(rt.alloc(), &bare)),
            ("enclosed", is_accepted(rt.alloc(), &enclosed)),
        ],
    );
}

#[test]
fn a_chain_from_the_last_function(rt: HostRuntime) {
    let bare = [GLOBAL, PROTOTYPES, WRITING, FROM_LAST, BARE];
    let enclosed = [GLOBAL, PROTOTYPES, WRITING, FROM_LAST, ENCLOSED];
    assert_all(
        &rt,
        &[
            ("bare", is_bare(rt.alloc(), &bare)),
            ("enclosed", is_accepted(rt.alloc(), &enclosed)),
        ],
    );
}
