//! Programs with many names: with memory enough, each is checked.

use crate::asserted::assert_none;
use crate::large::{LargeRow, faulty_large};
use crate::stages::Stage;
use test_programs::Piece;

/// The rows stand in a function, so that no proof but its own looks at them.
fn rows() -> &'static [LargeRow] {
    static ROWS: [LargeRow; 4] = [
        (
            "globals",
            &[
                Piece::Numbers("int g", 4096, ";"),
                Piece::Times("void worker(int self) { __transaction_atomic {", 1),
                Piece::Numbers("g", 4096, "++;"),
                Piece::Times("} }", 1),
            ],
        ),
        (
            "functions",
            &[
                Piece::Numbers("void f", 20000, "(void) { }"),
                Piece::Times("void worker(int self) {", 1),
                Piece::Numbers("f", 20000, "();"),
                Piece::Times("}", 1),
            ],
        ),
        (
            "locals",
            &[
                Piece::Times("void worker(int self) {", 1),
                Piece::Numbers("int v", 20000, " = self;"),
                Piece::Numbers("v", 20000, ";"),
                Piece::Times("}", 1),
            ],
        ),
        (
            "parameters",
            &[
                Piece::Times("void worker(int self) { } void f(int self", 1),
                Piece::Numbers(", int q", 10000, ""),
                Piece::Times(") { f(self", 1),
                Piece::Numbers(", q", 10000, ""),
                Piece::Times("); }", 1),
            ],
        ),
    ];
    &ROWS
}

#[test]
fn no_program_has_too_many_names(rt: HostRuntime) {
    assert_none(&rt, faulty_large(rt.alloc(), Stage::Types, rows()));
}
