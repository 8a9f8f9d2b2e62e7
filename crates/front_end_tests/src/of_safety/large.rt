//! Chains of 20,000 functions, in either order of the file.

use crate::asserted::assert_that;
use crate::large::{FROM_FIRST, FROM_LAST, PROTOTYPES, fault_in};
use crate::stages::Stage;
use std::alloc::Global;
use test_programs::Piece;

const PRINTING: Piece = Piece::Times("void f19999(void) { printf(\"a\"); }", 1);

const WORKER: Piece = Piece::Times("void worker(int k) { __transaction_atomic { f0(); } }", 1);

/// Whether the fault of a chain is a call of an unsafe function in an atomic transaction.
fn is_unsafe(alloc: Global, chain: &[Piece]) -> bool {
    matches!(fault_in(alloc, Stage::Safety, chain), Some(Some((40, _))))
}

#[test]
fn a_chain_from_the_first_function(rt: HostRuntime) {
    assert_that(
        &rt,
        is_unsafe(rt.alloc(), &[PROTOTYPES, FROM_FIRST, PRINTING, WORKER]),
    );
}

#[test]
fn a_chain_from_the_last_function(rt: HostRuntime) {
    assert_that(
        &rt,
        is_unsafe(rt.alloc(), &[PROTOTYPES, PRINTING, FROM_LAST, WORKER]),
    );
}
