//! Transactions: what they find, leave and give back.

use crate::asserted::assert_no_row;
use crate::of_atomic_code::driven::code_comes_to;
use atomic_code::AtomicEnd;
use bytecode::Instr;
use lex::token::Scalar;
use std::alloc::Allocator;
use syntax::thread_end::Trap;
use syntax::tree::BinaryOp;

/// Instructions of a worker, and what its thread 5 comes to, whose transaction finds 9 in the one cell: how many it
/// makes, the word that it leaves, how it is over, and what it has printed.
type Row = (
    &'static [Instr],
    u64,
    Option<u64>,
    Option<AtomicEnd>,
    &'static str,
);

/// Whether a thread comes to what a row says.
fn is_so<A: Allocator + Copy>(alloc: A, row: &Row) -> bool {
    let (instructions, steps, left, end, text) = *row;
    code_comes_to(alloc, instructions, None, 100, text) == Some((steps, left, end, true))
}

/// The number of the first row of which a thread comes to something else.
fn wrong_row<A: Allocator + Copy>(alloc: A, rows: &[Row]) -> Option<usize> {
    for (number, row) in rows.iter().enumerate() {
        if !is_so(alloc, row) {
            return Some(number);
        }
    }
    None
}

fn commits() -> &'static [Row] {
    static ROWS: [Row; 3] = [
        (
            &[
                Instr::Begin(4),
                Instr::Read(1, 0),
                Instr::Compute(BinaryOp::Add, Scalar::Int, 1, 1, 0),
                Instr::Commit,
                Instr::Return,
            ],
            4,
            Some(9),
            None,
            "",
        ),
        (
            &[
                Instr::Begin(4),
                Instr::Read(1, 0),
                Instr::Write(0, 0),
                Instr::Commit,
                Instr::Return,
            ],
            4,
            Some(5),
            None,
            "",
        ),
        // register 1 is 0, the one index of the array
        (
            &[
                Instr::Begin(4),
                Instr::ReadAt(2, 1, 0, 1),
                Instr::WriteAt(1, 0, 0, 1),
                Instr::Commit,
                Instr::Return,
            ],
            4,
            Some(5),
            None,
            "",
        ),
    ];
    &ROWS
}

#[test]
fn a_commit_leaves_what_was_written(rt: HostRuntime) {
    assert_no_row(&rt, wrong_row(rt.alloc(), commits()));
}

fn traps() -> &'static [Row] {
    static ROWS: [Row; 4] = [
        (
            &[
                Instr::Begin(4),
                Instr::Write(0, 0),
                Instr::Check(0, 5),
                Instr::Commit,
                Instr::Return,
            ],
            3,
            Some(9),
            Some(AtomicEnd::Trapped(Trap::Index)),
            "",
        ),
        (
            &[
                Instr::Begin(4),
                Instr::Write(0, 0),
                Instr::ReadAt(1, 0, 0, 1),
                Instr::Commit,
                Instr::Return,
            ],
            3,
            Some(9),
            Some(AtomicEnd::Trapped(Trap::Index)),
            "",
        ),
        (
            &[
                Instr::Begin(4),
                Instr::Write(0, 0),
                Instr::WriteAt(0, 0, 0, 1),
                Instr::Commit,
                Instr::Return,
            ],
            3,
            Some(9),
            Some(AtomicEnd::Trapped(Trap::Index)),
            "",
        ),
        // a trap in an inner transaction, after a print
        (
            &[
                Instr::Begin(8),
                Instr::Irrevocable,
                Instr::PrintSigned(0),
                Instr::Write(0, 0),
                Instr::Begin(7),
                Instr::Compute(BinaryOp::Divide, Scalar::Int, 1, 0, 1),
                Instr::Commit,
                Instr::Commit,
                Instr::Return,
            ],
            6,
            Some(9),
            Some(AtomicEnd::Trapped(Trap::ZeroDivisor)),
            "5",
        ),
    ];
    &ROWS
}

#[test]
fn a_trap_leaves_the_memory_found(rt: HostRuntime) {
    assert_no_row(&rt, wrong_row(rt.alloc(), traps()));
}

fn cancels() -> &'static [Row] {
    static ROWS: [Row; 1] = [(
        &[
            Instr::Begin(3),
            Instr::Write(0, 0),
            Instr::Cancel,
            Instr::Return,
        ],
        3,
        Some(9),
        None,
        "",
    )];
    &ROWS
}

#[test]
fn a_cancel_leaves_the_memory_found(rt: HostRuntime) {
    assert_no_row(&rt, wrong_row(rt.alloc(), cancels()));
}

fn inner_cancels() -> &'static [Row] {
    static ROWS: [Row; 1] = [(
        &[
            Instr::Begin(11),
            Instr::Constant(1, 2),
            Instr::Write(1, 0),
            Instr::Begin(7),
            Instr::Constant(1, 3),
            Instr::Write(1, 0),
            Instr::Cancel,
            // register 1 and the cell are 2 again
            Instr::Read(2, 0),
            Instr::Compute(BinaryOp::Add, Scalar::Int, 1, 1, 2),
            Instr::Write(1, 0),
            Instr::Commit,
            Instr::Return,
        ],
        11,
        Some(4),
        None,
        "",
    )];
    &ROWS
}

#[test]
fn a_cancel_of_an_inner_one_gives_back(rt: HostRuntime) {
    assert_no_row(&rt, wrong_row(rt.alloc(), inner_cancels()));
}

fn inner_commits() -> &'static [Row] {
    static ROWS: [Row; 1] = [(
        &[
            Instr::Begin(7),
            Instr::Begin(5),
            Instr::Begin(4),
            Instr::Commit,
            Instr::Write(0, 0),
            Instr::Commit,
            Instr::Commit,
            Instr::Return,
        ],
        7,
        Some(5),
        None,
        "",
    )];
    &ROWS
}

#[test]
fn a_commit_of_an_inner_one_keeps(rt: HostRuntime) {
    assert_no_row(&rt, wrong_row(rt.alloc(), inner_commits()));
}

fn late_inner_cancels() -> &'static [Row] {
    static ROWS: [Row; 1] = [(
        &[
            Instr::Begin(8),
            Instr::Irrevocable,
            Instr::PrintSigned(0),
            Instr::Write(0, 0),
            Instr::Begin(7),
            Instr::Write(1, 0),
            Instr::Cancel,
            Instr::Commit,
            Instr::Return,
        ],
        8,
        Some(5),
        None,
        "5",
    )];
    &ROWS
}

#[test]
fn an_inner_one_is_cancelled_after_an_irrevocable(rt: HostRuntime) {
    assert_no_row(&rt, wrong_row(rt.alloc(), late_inner_cancels()));
}

/// Threads that do all their instructions at one place, and leave nothing.
fn standing_still() -> &'static [Row] {
    static ROWS: [Row; 4] = [
        // a shared access outside transactions
        (&[Instr::Read(1, 0), Instr::Return], 100, None, None, ""),
        (&[Instr::Write(0, 0), Instr::Return], 100, None, None, ""),
        // a print in a transaction that was not made irrevocable
        (
            &[
                Instr::Begin(3),
                Instr::PrintText(0),
                Instr::Commit,
                Instr::Return,
            ],
            100,
            None,
            None,
            "",
        ),
        // an outermost cancel in a transaction that was made irrevocable
        (
            &[
                Instr::Begin(4),
                Instr::Irrevocable,
                Instr::PrintSigned(0),
                Instr::Cancel,
                Instr::Return,
            ],
            100,
            None,
            None,
            "5",
        ),
    ];
    &ROWS
}

#[test]
fn what_may_not_be_done_stands_still(rt: HostRuntime) {
    assert_no_row(&rt, wrong_row(rt.alloc(), standing_still()));
}
