//! Each rule of validity, broken once, beside parts that keep it.

use crate::asserted::{assert_all, assert_none};
use crate::of_bytecode::built::{Function, WORKER, global, is_valid, of, of_functions, parts_over};
use bytecode::{Instr, MOST_CELLS, Parts};
use lex::token::Scalar;
use std::alloc::{AllocError, Global};
use syntax::tree::BinaryOp;

/// What is tried, the functions, the registers that calls hand over, the instructions, and whether they are valid.
type Row = (
    &'static str,
    &'static [Function<'static>],
    &'static [u16],
    &'static [Instr],
    bool,
);

/// The first row of which `validate` says something else.
fn has_another(alloc: Global, rows: &[Row]) -> Option<&'static str> {
    for (what, functions, arguments, instructions, valid) in rows {
        if of_functions(alloc, functions, arguments, instructions) != Some(*valid) {
            return Some(*what);
        }
    }
    None
}

const ALONE: &[Function<'static>] = &[WORKER];

const END: Instr = Instr::Return;

/// The rows stand in a function, so that no proof but its own looks at them.
fn operands() -> &'static [Row] {
    static ROWS: [Row; 10] = [
        ("a register", ALONE, &[], &[Instr::Read(1, 0), END], true),
        ("register 2", ALONE, &[], &[Instr::Read(2, 0), END], false),
        ("cell 1", ALONE, &[], &[Instr::Read(1, 1), END], false),
        (
            "two cells of one",
            ALONE,
            &[],
            &[Instr::WriteAt(0, 1, 0, 2), END],
            false,
        ),
        (
            "cells far behind",
            ALONE,
            &[],
            &[Instr::ReadAt(0, 1, u32::MAX, u32::MAX), END],
            false,
        ),
        (
            "register 2 returned",
            ALONE,
            &[],
            &[Instr::ReturnValue(2)],
            false,
        ),
        ("a place", ALONE, &[], &[Instr::JumpZero(0, 1), END], true),
        ("place 2", ALONE, &[], &[Instr::JumpZero(0, 2), END], false),
        ("a text", ALONE, &[], &[Instr::PrintText(1), END], true),
        ("text 2", ALONE, &[], &[Instr::PrintText(2), END], false),
    ];
    &ROWS
}

#[test]
fn registers_places_cells_and_texts_are_there(rt: HostRuntime) {
    assert_none(&rt, has_another(rt.alloc(), operands()));
}

/// Instructions of which one operand is not there: register 2, place 2 or cell 1.
fn not_there() -> &'static [Instr] {
    static NOT_THERE: [Instr; 22] = [
        Instr::Constant(2, 0),
        Instr::Move(0, 2),
        Instr::Compute(BinaryOp::Add, Scalar::Int, 2, 0, 0),
        Instr::Compute(BinaryOp::Divide, Scalar::Unsigned, 0, 2, 0),
        Instr::Compute(BinaryOp::Less, Scalar::Int, 0, 0, 2),
        Instr::NegateSigned(2, 0),
        Instr::NegateUnsigned(0, 2),
        Instr::Complement(0, 2),
        Instr::Jump(2),
        Instr::JumpZero(2, 0),
        Instr::JumpNonzero(2, 0),
        Instr::JumpNonzero(0, 2),
        Instr::Check(2, 1),
        Instr::ReadAt(2, 0, 0, 1),
        Instr::ReadAt(0, 2, 0, 1),
        Instr::Write(2, 0),
        Instr::Write(0, 1),
        Instr::WriteAt(2, 0, 0, 1),
        Instr::WriteAt(0, 2, 0, 1),
        Instr::Begin(2),
        Instr::PrintSigned(2),
        Instr::PrintUnsigned(2),
    ];
    &NOT_THERE
}

/// What `validate` says of an instruction behind a return.
fn of_unreached(alloc: Global, instr: Instr) -> Option<bool> {
    of(alloc, &[Instr::Return, instr])
}

/// Whether none of these instructions is valid behind a return.
fn none_is_valid(alloc: Global, instrs: &[Instr]) -> bool {
    for instr in instrs {
        if of_unreached(alloc, *instr) != Some(false) {
            return false;
        }
    }
    true
}

/// what no way comes to names what is there, too
#[test]
fn what_no_way_comes_to_is_there(rt: HostRuntime) {
    let there = of_unreached(rt.alloc(), Instr::Move(0, 1));
    assert_all(
        &rt,
        &[
            ("there", there == Some(true)),
            ("not there", none_is_valid(rt.alloc(), not_there())),
        ],
    );
}

const TWO: &[Function<'static>] = &[WORKER, ("f", 2, 1, 1)];

const CALLED: &[Instr] = &[Instr::Call(1, 1, 1, 0), END, Instr::ReturnValue(0)];

fn calls() -> &'static [Row] {
    static ROWS: [Row; 6] = [
        ("a call", TWO, &[1], CALLED, true),
        ("register 2 handed over", TWO, &[2], CALLED, false),
        (
            "fewer arguments in the list than the call counts",
            TWO,
            &[],
            CALLED,
            false,
        ),
        (
            "no argument",
            TWO,
            &[1],
            &[Instr::Call(1, 0, 1, 0), END, Instr::ReturnValue(0)],
            false,
        ),
        (
            "function 2",
            TWO,
            &[1],
            &[Instr::Call(1, 1, 2, 0), END, Instr::ReturnValue(0)],
            false,
        ),
        (
            "an answer to register 2",
            TWO,
            &[1],
            &[Instr::Call(2, 1, 1, 0), END, Instr::ReturnValue(0)],
            false,
        ),
    ];
    &ROWS
}

#[test]
fn calls_name_functions(rt: HostRuntime) {
    assert_none(&rt, has_another(rt.alloc(), calls()));
}

const FROM_ONE: &[Function<'static>] = &[WORKER, ("f", 1, 1, 1)];

fn ways() -> &'static [Row] {
    static ROWS: [Row; 5] = [
        ("a move at last", ALONE, &[], &[Instr::Move(0, 1)], false),
        (
            "a way behind the code",
            ALONE,
            &[],
            &[Instr::JumpNonzero(0, 0)],
            false,
        ),
        ("a jump to itself", ALONE, &[], &[Instr::Jump(0)], true),
        (
            "a way into the next function",
            FROM_ONE,
            &[],
            &[Instr::Move(0, 1), END],
            false,
        ),
        (
            "a jump into the function before",
            FROM_ONE,
            &[],
            &[END, Instr::Jump(0)],
            false,
        ),
    ];
    &ROWS
}

#[test]
fn ways_stay_in_their_function(rt: HostRuntime) {
    assert_none(&rt, has_another(rt.alloc(), ways()));
}

const COMMIT: Instr = Instr::Commit;

const CANCEL: Instr = Instr::Cancel;

const CANCEL_TWO: Instr = Instr::CancelOuter(2);

fn begins() -> &'static [Row] {
    static ROWS: [Row; 6] = [
        (
            "a begin and its commit",
            ALONE,
            &[],
            &[Instr::Begin(2), COMMIT, END],
            true,
        ),
        ("left open", ALONE, &[], &[Instr::Begin(1), END], false),
        (
            "closed twice",
            ALONE,
            &[],
            &[Instr::Begin(2), COMMIT, COMMIT, END],
            false,
        ),
        ("a cancel outside", ALONE, &[], &[CANCEL, END], false),
        (
            "a begin in a loop",
            ALONE,
            &[],
            &[Instr::Begin(0), Instr::Jump(0)],
            false,
        ),
        (
            "two ways to a place with other begins",
            ALONE,
            &[],
            &[Instr::JumpZero(0, 2), Instr::Begin(3), COMMIT, END],
            false,
        ),
    ];
    &ROWS
}

#[test]
fn begins_are_paired(rt: HostRuntime) {
    assert_none(&rt, has_another(rt.alloc(), begins()));
}

fn cancels() -> &'static [Row] {
    static ROWS: [Row; 4] = [
        (
            "to the end",
            ALONE,
            &[],
            &[Instr::Begin(2), CANCEL, END],
            true,
        ),
        (
            "to the cancel itself",
            ALONE,
            &[],
            &[Instr::Begin(1), CANCEL, END],
            false,
        ),
        (
            "to the commit of the enclosing begin",
            ALONE,
            &[],
            &[Instr::Begin(5), Instr::Begin(3), CANCEL, COMMIT, END, END],
            true,
        ),
        (
            "past the commit of the enclosing begin",
            ALONE,
            &[],
            &[Instr::Begin(5), Instr::Begin(5), CANCEL, COMMIT, END, END],
            false,
        ),
    ];
    &ROWS
}

/// a cancel goes on where its begin says, under the enclosing one
#[test]
fn cancels_go_on_under_the_enclosing_begin(rt: HostRuntime) {
    assert_none(&rt, has_another(rt.alloc(), cancels()));
}

/// How many levels a cancel asks for.
fn levels() -> &'static [Row] {
    static ROWS: [Row; 9] = [
        (
            "two of two",
            ALONE,
            &[],
            &[Instr::Begin(3), Instr::Begin(3), CANCEL_TWO, END],
            true,
        ),
        (
            "one of two",
            ALONE,
            &[],
            &[
                Instr::Begin(4),
                Instr::Begin(3),
                Instr::CancelOuter(1),
                COMMIT,
                END,
            ],
            false,
        ),
        (
            "one of one",
            ALONE,
            &[],
            &[Instr::Begin(2), Instr::CancelOuter(1), END],
            false,
        ),
        (
            "none of one",
            ALONE,
            &[],
            &[Instr::Begin(2), Instr::CancelOuter(0), END],
            false,
        ),
        (
            "none of none",
            ALONE,
            &[],
            &[Instr::CancelOuter(0), END],
            false,
        ),
        ("two of none", ALONE, &[], &[CANCEL_TWO, END], false),
        (
            "two of one",
            ALONE,
            &[],
            &[Instr::Begin(2), CANCEL_TWO, END],
            false,
        ),
        (
            "three of two",
            ALONE,
            &[],
            &[Instr::Begin(3), Instr::Begin(3), Instr::CancelOuter(3), END],
            false,
        ),
        (
            "as many as there are numbers",
            ALONE,
            &[],
            &[
                Instr::Begin(3),
                Instr::Begin(3),
                Instr::CancelOuter(u32::MAX),
                END,
            ],
            false,
        ),
    ];
    &ROWS
}

#[test]
fn as_many_begins_are_open_as_a_cancel_takes_away(rt: HostRuntime) {
    assert_none(&rt, has_another(rt.alloc(), levels()));
}

/// Where a cancel of several levels leads.
fn outer_cancels() -> &'static [Row] {
    static ROWS: [Row; 6] = [
        (
            "the last two of three, to the commit of the first",
            ALONE,
            &[],
            &[
                Instr::Begin(5),
                Instr::Begin(4),
                Instr::Begin(5),
                CANCEL_TWO,
                COMMIT,
                END,
            ],
            true,
        ),
        (
            "to where the innermost says",
            ALONE,
            &[],
            &[
                Instr::Begin(5),
                Instr::Begin(5),
                Instr::Begin(4),
                CANCEL_TWO,
                COMMIT,
                END,
            ],
            false,
        ),
        (
            "to where the first says",
            ALONE,
            &[],
            &[
                Instr::Begin(5),
                Instr::Begin(5),
                Instr::Begin(5),
                CANCEL_TWO,
                COMMIT,
                END,
            ],
            false,
        ),
        (
            "all three, to where the first says",
            ALONE,
            &[],
            &[
                Instr::Begin(5),
                Instr::Begin(4),
                Instr::Begin(4),
                Instr::CancelOuter(3),
                COMMIT,
                END,
            ],
            true,
        ),
        (
            "two round a begin that was closed",
            ALONE,
            &[],
            &[
                Instr::Begin(5),
                Instr::Begin(0),
                COMMIT,
                Instr::Begin(0),
                CANCEL_TWO,
                END,
            ],
            true,
        ),
        (
            "three where one was closed",
            ALONE,
            &[],
            &[
                Instr::Begin(5),
                Instr::Begin(0),
                COMMIT,
                Instr::Begin(0),
                Instr::CancelOuter(3),
                END,
            ],
            false,
        ),
    ];
    &ROWS
}

/// a cancel of several levels goes on where the outermost of these says, under those outside it
#[test]
fn outer_cancels_go_on_where_the_outermost_begin_says(rt: HostRuntime) {
    assert_none(&rt, has_another(rt.alloc(), outer_cancels()));
}

/// Two ways to the place where a cancel of two levels goes on.
fn second_ways() -> &'static [Row] {
    static ROWS: [Row; 4] = [
        (
            "none is open on the other way too",
            ALONE,
            &[],
            &[
                Instr::JumpZero(0, 4),
                Instr::Begin(4),
                Instr::Begin(4),
                CANCEL_TWO,
                Instr::Jump(4),
            ],
            true,
        ),
        (
            "both are open on the other way",
            ALONE,
            &[],
            &[
                Instr::Begin(4),
                Instr::Begin(4),
                Instr::JumpZero(0, 4),
                CANCEL_TWO,
                Instr::Jump(4),
            ],
            false,
        ),
        (
            "one is open on the other way",
            ALONE,
            &[],
            &[
                Instr::Begin(4),
                Instr::JumpZero(0, 4),
                Instr::Begin(4),
                CANCEL_TWO,
                Instr::Jump(4),
            ],
            false,
        ),
        (
            "two ways to the cancel with other begins",
            ALONE,
            &[],
            &[
                Instr::Begin(4),
                Instr::JumpZero(0, 3),
                Instr::Begin(4),
                CANCEL_TWO,
                Instr::Jump(4),
            ],
            false,
        ),
    ];
    &ROWS
}

#[test]
fn an_outer_cancel_goes_on_with_the_begins_of_other_ways(rt: HostRuntime) {
    assert_none(&rt, has_another(rt.alloc(), second_ways()));
}

fn layouts() -> &'static [Row] {
    static ROWS: [Row; 6] = [
        ("from 1", FROM_ONE, &[], &[END, END], true),
        (
            "both from 0",
            &[WORKER, ("f", 0, 1, 1)],
            &[],
            &[END, END],
            false,
        ),
        ("from the end", TWO, &[], &[END, END], false),
        (
            "from behind the end",
            &[WORKER, ("f", 9, 1, 1)],
            &[],
            &[END, END],
            false,
        ),
        (
            "an instruction before the first one",
            &[("worker", 1, 2, 1)],
            &[],
            &[END, END],
            false,
        ),
        ("no instruction", ALONE, &[], &[], false),
    ];
    &ROWS
}

#[test]
fn functions_lie_one_after_another(rt: HostRuntime) {
    assert_none(&rt, has_another(rt.alloc(), layouts()));
}

fn workers() -> &'static [Row] {
    static ROWS: [Row; 4] = [
        ("takes none", &[("worker", 0, 2, 0)], &[], &[END], false),
        ("another name", &[("workers", 0, 2, 1)], &[], &[END], false),
        (
            "more parameters than registers",
            &[("worker", 0, 0, 1)],
            &[],
            &[END],
            false,
        ),
        (
            "two functions of one name",
            &[WORKER, ("worker", 1, 2, 1)],
            &[],
            &[END, END],
            false,
        ),
    ];
    &ROWS
}

#[test]
fn one_worker_takes_its_number(rt: HostRuntime) {
    assert_none(&rt, has_another(rt.alloc(), workers()));
}

fn widths() -> &'static [Row] {
    static ROWS: [Row; 2] = [
        (
            "65,535 registers",
            &[("worker", 0, 65_535, 1)],
            &[],
            &[END],
            true,
        ),
        (
            "65,536 registers",
            &[("worker", 0, 65_536, 1)],
            &[],
            &[END],
            false,
        ),
    ];
    &ROWS
}

/// A worker over a variable and an array of that length.
fn over_an_array(alloc: Global, length: u32) -> Result<Parts, AllocError> {
    parts_over(alloc, global(alloc, Some(length))?)
}

/// What `validate` says of a worker over a variable and an array of that length.
fn of_array(alloc: Global, length: u32) -> Option<bool> {
    match over_an_array(alloc, length) {
        Ok(parts) => is_valid(alloc, parts),
        Err(_) => None,
    }
}

#[test]
fn limits_are_obeyed(rt: HostRuntime) {
    assert_none(&rt, has_another(rt.alloc(), widths()));
    // the variable is one cell
    let most = of_array(rt.alloc(), MOST_CELLS as u32 - 1);
    let more = of_array(rt.alloc(), MOST_CELLS as u32);
    let none = of_array(rt.alloc(), 0);
    assert_all(
        &rt,
        &[
            ("an array of no cell", none == Some(false)),
            ("the most cells", most == Some(true)),
            ("more cells", more == Some(false)),
        ],
    );
}
