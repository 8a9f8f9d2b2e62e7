//! A code for every instruction, carried out.

use crate::asserted::{assert_all, assert_that};
use crate::built::{code_of_two, code_of_worker};
use crate::of_frames::carried::run;
use bytecode::{Code, Instr};
use frames::Doing;
use lex::token::Scalar;
use std::alloc::Allocator;
use syntax::thread_end::Trap;
use syntax::tree::BinaryOp;
use test_codes::calls_for_ever;

/// What thread 5 comes to, its local steps and its first two registers.
type Found = (Doing, u64, Option<u64>, Option<u64>);

/// What is found, with the first two of these registers.
fn with_registers(doing: Doing, made: u64, registers: &[u64]) -> Found {
    let first = registers.get(0).copied();
    let second = registers.get(1).copied();
    (doing, made, first, second)
}

/// What is found of a code over a cell that holds 9, where it has printed this.
fn prints<A: Allocator + Copy>(alloc: A, code: &Code<A>, printed: &str) -> Option<Found> {
    let mut memory = [9u64; 1];
    let mut text = String::new(alloc);
    match run(alloc, code, 5, &mut memory, &mut text) {
        Ok((doing, made, registers)) if text.as_str() == printed => {
            Some(with_registers(doing, made, registers.as_slice()))
        }
        _ => None,
    }
}

/// What is found of a code, if there is one, over a cell that holds 9, where it has printed this.
fn what_is_found<A: Allocator + Copy>(
    alloc: A,
    code: Option<Code<A>>,
    printed: &str,
) -> Option<Found> {
    match code {
        Some(code) => prints(alloc, &code, printed),
        None => None,
    }
}

/// What thread 5 comes to in a worker of these instructions, which prints nothing, the local steps that it makes, and
/// its register 1.
fn of<A: Allocator + Copy>(alloc: A, instructions: &[Instr]) -> Option<(Doing, u64, u64)> {
    match what_is_found(alloc, code_of_worker(alloc, instructions), "") {
        Some((doing, made, _, Some(word))) => Some((doing, made, word)),
        _ => None,
    }
}

/// Two words, an operator of registers 2 and 3, which hold them, into register 1, and the word that it gives or why it
/// traps.
type Computed = (u64, u64, Instr, Result<u64, Trap>);

/// What a thread comes to behind an operator that gives this: it ends after three local steps, or traps at the third
/// with nothing written.
fn doing_of(given: Result<u64, Trap>) -> (Doing, u64, u64) {
    match given {
        Ok(word) => (Doing::End, 3, word),
        Err(why) => (Doing::Traps(why), 2, 0),
    }
}

/// Whether an operator gives this.
fn is_computed<A: Allocator + Copy>(alloc: A, row: &Computed) -> bool {
    let (first, second, operator, given) = *row;
    let instructions = [
        Instr::Constant(2, first),
        Instr::Constant(3, second),
        operator,
        Instr::Return,
    ];
    of(alloc, &instructions) == Some(doing_of(given))
}

/// Whether each of these operators gives what its row says.
fn are_computed<A: Allocator + Copy>(alloc: A, rows: &[Computed]) -> bool {
    for row in rows {
        if !is_computed(alloc, row) {
            return false;
        }
    }
    true
}

fn sums() -> &'static [Computed] {
    static ROWS: [Computed; 6] = [
        (
            2147483646,
            1,
            Instr::Compute(BinaryOp::Add, Scalar::Int, 1, 2, 3),
            Ok(2147483647),
        ),
        (
            2147483647,
            1,
            Instr::Compute(BinaryOp::Add, Scalar::Int, 1, 2, 3),
            Err(Trap::OutOfRange),
        ),
        (
            4294967295,
            1,
            Instr::Compute(BinaryOp::Add, Scalar::Unsigned, 1, 2, 3),
            Ok(0),
        ),
        (
            3,
            5,
            Instr::Compute(BinaryOp::Subtract, Scalar::Int, 1, 2, 3),
            Ok(4294967294),
        ),
        (
            2147483648,
            1,
            Instr::Compute(BinaryOp::Subtract, Scalar::Int, 1, 2, 3),
            Err(Trap::OutOfRange),
        ),
        (
            0,
            1,
            Instr::Compute(BinaryOp::Subtract, Scalar::Unsigned, 1, 2, 3),
            Ok(4294967295),
        ),
    ];
    &ROWS
}

fn products() -> &'static [Computed] {
    static ROWS: [Computed; 4] = [
        (
            65536,
            32768,
            Instr::Compute(BinaryOp::Multiply, Scalar::Int, 1, 2, 3),
            Err(Trap::OutOfRange),
        ),
        (
            4294967294,
            3,
            Instr::Compute(BinaryOp::Multiply, Scalar::Int, 1, 2, 3),
            Ok(4294967290),
        ),
        (
            65536,
            65536,
            Instr::Compute(BinaryOp::Multiply, Scalar::Unsigned, 1, 2, 3),
            Ok(0),
        ),
        (
            4294967295,
            4294967295,
            Instr::Compute(BinaryOp::Multiply, Scalar::Unsigned, 1, 2, 3),
            Ok(1),
        ),
    ];
    &ROWS
}

#[test]
fn sums_differences_and_products(rt: HostRuntime) {
    let sums = are_computed(rt.alloc(), sums());
    let products = are_computed(rt.alloc(), products());
    assert_all(&rt, &[("sums", sums), ("products", products)]);
}

fn quotients() -> &'static [Computed] {
    static ROWS: [Computed; 8] = [
        (
            4294967289,
            2,
            Instr::Compute(BinaryOp::Divide, Scalar::Int, 1, 2, 3),
            Ok(4294967293),
        ),
        (
            2147483648,
            4294967295,
            Instr::Compute(BinaryOp::Divide, Scalar::Int, 1, 2, 3),
            Err(Trap::OutOfRange),
        ),
        (
            1,
            0,
            Instr::Compute(BinaryOp::Divide, Scalar::Int, 1, 2, 3),
            Err(Trap::ZeroDivisor),
        ),
        (
            4294967289,
            2,
            Instr::Compute(BinaryOp::Divide, Scalar::Unsigned, 1, 2, 3),
            Ok(2147483644),
        ),
        (
            1,
            0,
            Instr::Compute(BinaryOp::Divide, Scalar::Unsigned, 1, 2, 3),
            Err(Trap::ZeroDivisor),
        ),
        (
            4294967289,
            2,
            Instr::Compute(BinaryOp::Remainder, Scalar::Int, 1, 2, 3),
            Ok(4294967295),
        ),
        (
            2147483648,
            4294967295,
            Instr::Compute(BinaryOp::Remainder, Scalar::Int, 1, 2, 3),
            Err(Trap::OutOfRange),
        ),
        (
            4294967289,
            2,
            Instr::Compute(BinaryOp::Remainder, Scalar::Unsigned, 1, 2, 3),
            Ok(1),
        ),
    ];
    &ROWS
}

fn shifts() -> &'static [Computed] {
    static ROWS: [Computed; 6] = [
        (
            1,
            31,
            Instr::Compute(BinaryOp::ShiftLeft, Scalar::Int, 1, 2, 3),
            Err(Trap::OutOfRange),
        ),
        (
            1,
            30,
            Instr::Compute(BinaryOp::ShiftLeft, Scalar::Int, 1, 2, 3),
            Ok(1073741824),
        ),
        (
            3,
            31,
            Instr::Compute(BinaryOp::ShiftLeft, Scalar::Unsigned, 1, 2, 3),
            Ok(2147483648),
        ),
        (
            1,
            32,
            Instr::Compute(BinaryOp::ShiftLeft, Scalar::Unsigned, 1, 2, 3),
            Err(Trap::ShiftCount),
        ),
        (
            4294967288,
            1,
            Instr::Compute(BinaryOp::ShiftRight, Scalar::Int, 1, 2, 3),
            Ok(4294967292),
        ),
        (
            4294967288,
            1,
            Instr::Compute(BinaryOp::ShiftRight, Scalar::Unsigned, 1, 2, 3),
            Ok(2147483644),
        ),
    ];
    &ROWS
}

#[test]
fn quotients_rests_and_shifts(rt: HostRuntime) {
    let quotients = are_computed(rt.alloc(), quotients());
    let shifts = are_computed(rt.alloc(), shifts());
    assert_all(&rt, &[("quotients", quotients), ("shifts", shifts)]);
}

fn bits() -> &'static [Computed] {
    static ROWS: [Computed; 8] = [
        (
            12,
            10,
            Instr::Compute(BinaryOp::And, Scalar::Unsigned, 1, 2, 3),
            Ok(8),
        ),
        (
            12,
            10,
            Instr::Compute(BinaryOp::Or, Scalar::Unsigned, 1, 2, 3),
            Ok(14),
        ),
        (
            12,
            10,
            Instr::Compute(BinaryOp::Xor, Scalar::Unsigned, 1, 2, 3),
            Ok(6),
        ),
        (5, 0, Instr::NegateSigned(1, 2), Ok(4294967291)),
        (
            2147483648,
            0,
            Instr::NegateSigned(1, 2),
            Err(Trap::OutOfRange),
        ),
        (2147483648, 0, Instr::NegateUnsigned(1, 2), Ok(2147483648)),
        (1, 0, Instr::Complement(1, 2), Ok(4294967294)),
        (1, 0, Instr::Move(1, 0), Ok(5)),
    ];
    &ROWS
}

/// Instructions of narrow types see what lies in a register modulo 2^32, but a shift's count whole.
fn narrow_of_wide() -> &'static [Computed] {
    static ROWS: [Computed; 13] = [
        (
            4294967301,
            1,
            Instr::Compute(BinaryOp::Add, Scalar::Int, 1, 2, 3),
            Ok(6),
        ),
        (
            4294967296,
            1,
            Instr::Compute(BinaryOp::Less, Scalar::Unsigned, 1, 2, 3),
            Ok(1),
        ),
        (
            7,
            4294967296,
            Instr::Compute(BinaryOp::Divide, Scalar::Int, 1, 2, 3),
            Err(Trap::ZeroDivisor),
        ),
        (
            1,
            4294967297,
            Instr::Compute(BinaryOp::ShiftLeft, Scalar::Int, 1, 2, 3),
            Err(Trap::ShiftCount),
        ),
        (1099511627776, 0, Instr::Complement(1, 2), Ok(4294967295)),
        (
            6442450944,
            0,
            Instr::NegateSigned(1, 2),
            Err(Trap::OutOfRange),
        ),
        (
            4294967303,
            8589934596,
            Instr::Compute(BinaryOp::Remainder, Scalar::Unsigned, 1, 2, 3),
            Ok(3),
        ),
        (
            4294967296,
            1,
            Instr::Compute(BinaryOp::Subtract, Scalar::Unsigned, 1, 2, 3),
            Ok(4294967295),
        ),
        (
            1,
            4294967297,
            Instr::Compute(BinaryOp::Equal, Scalar::Unsigned, 1, 2, 3),
            Ok(0),
        ),
        (6442450944, 0, Instr::Extend(1, 2), Ok(18446744071562067968)),
        (6442450944, 0, Instr::Low(1, 2), Ok(2147483648)),
        (
            9223372036854775808,
            18446744073709551615,
            Instr::Compute(BinaryOp::Multiply, Scalar::LongLong, 1, 2, 3),
            Err(Trap::OutOfRange),
        ),
        (5, 0, Instr::ComplementLong(1, 2), Ok(18446744073709551610)),
    ];
    &ROWS
}

#[test]
fn narrow_instructions_see_32_bits(rt: HostRuntime) {
    assert_that(&rt, are_computed(rt.alloc(), narrow_of_wide()));
}

fn comparisons() -> &'static [Computed] {
    static ROWS: [Computed; 6] = [
        (
            12,
            12,
            Instr::Compute(BinaryOp::Equal, Scalar::Unsigned, 1, 2, 3),
            Ok(1),
        ),
        (
            12,
            12,
            Instr::Compute(BinaryOp::NotEqual, Scalar::Unsigned, 1, 2, 3),
            Ok(0),
        ),
        (
            4294967295,
            1,
            Instr::Compute(BinaryOp::Less, Scalar::Int, 1, 2, 3),
            Ok(1),
        ),
        (
            4294967295,
            1,
            Instr::Compute(BinaryOp::Less, Scalar::Unsigned, 1, 2, 3),
            Ok(0),
        ),
        (
            1,
            1,
            Instr::Compute(BinaryOp::LessEqual, Scalar::Int, 1, 2, 3),
            Ok(1),
        ),
        (
            1,
            4294967295,
            Instr::Compute(BinaryOp::LessEqual, Scalar::Unsigned, 1, 2, 3),
            Ok(1),
        ),
    ];
    &ROWS
}

#[test]
fn bits_and_comparisons(rt: HostRuntime) {
    let bits = are_computed(rt.alloc(), bits());
    let comparisons = are_computed(rt.alloc(), comparisons());
    assert_all(&rt, &[("bits", bits), ("comparisons", comparisons)]);
}

/// Constants of 2^32 or above, and operators that see all of their bits or the lower 32.
fn wide_constants() -> &'static [Computed] {
    static ROWS: [Computed; 5] = [
        (4294967296, 0, Instr::Move(1, 2), Ok(4294967296)),
        (
            18446744073709551615,
            18446744073709551614,
            Instr::Compute(BinaryOp::And, Scalar::Unsigned, 1, 2, 3),
            Ok(18446744073709551614),
        ),
        (
            4294967296,
            2,
            Instr::Compute(BinaryOp::Or, Scalar::Unsigned, 1, 2, 3),
            Ok(4294967298),
        ),
        (
            4294967296,
            8589934592,
            Instr::Compute(BinaryOp::Equal, Scalar::Unsigned, 1, 2, 3),
            Ok(0),
        ),
        (
            4294967297,
            1,
            Instr::Compute(BinaryOp::Add, Scalar::Unsigned, 1, 2, 3),
            Ok(2),
        ),
    ];
    &ROWS
}

#[test]
fn constants_of_two_words(rt: HostRuntime) {
    let wide = are_computed(rt.alloc(), wide_constants());
    assert_that(&rt, wide);
}

/// Instructions, what thread 5 comes to in a worker of them, the local steps that it makes, and its register 1.
type Row = (&'static [Instr], Doing, u64, u64);

/// Whether a thread comes to what a row says.
fn is_so<A: Allocator + Copy>(alloc: A, row: &Row) -> bool {
    let (instructions, doing, made, word) = *row;
    of(alloc, instructions) == Some((doing, made, word))
}

/// Whether a thread comes to what each of these rows says.
fn are_so<A: Allocator + Copy>(alloc: A, rows: &[Row]) -> bool {
    for row in rows {
        if !is_so(alloc, row) {
            return false;
        }
    }
    true
}

fn jumps() -> &'static [Row] {
    static ROWS: [Row; 5] = [
        (
            &[Instr::Jump(2), Instr::Constant(1, 1), Instr::Return],
            Doing::End,
            1,
            0,
        ),
        (
            &[Instr::JumpZero(1, 2), Instr::Constant(1, 1), Instr::Return],
            Doing::End,
            1,
            0,
        ),
        (
            &[Instr::JumpZero(0, 2), Instr::Constant(1, 1), Instr::Return],
            Doing::End,
            2,
            1,
        ),
        (
            &[
                Instr::JumpNonzero(0, 2),
                Instr::Constant(1, 1),
                Instr::Return,
            ],
            Doing::End,
            1,
            0,
        ),
        (
            &[
                Instr::JumpNonzero(1, 2),
                Instr::Constant(1, 1),
                Instr::Return,
            ],
            Doing::End,
            2,
            1,
        ),
    ];
    &ROWS
}

fn checks() -> &'static [Row] {
    static ROWS: [Row; 2] = [
        (
            &[Instr::Check(0, 6), Instr::Constant(1, 1), Instr::Return],
            Doing::End,
            2,
            1,
        ),
        (
            &[Instr::Check(0, 5), Instr::Constant(1, 1), Instr::Return],
            Doing::Traps(Trap::Index),
            0,
            0,
        ),
    ];
    &ROWS
}

#[test]
fn jumps_and_checks(rt: HostRuntime) {
    let jumps = are_so(rt.alloc(), jumps());
    let checks = are_so(rt.alloc(), checks());
    assert_all(&rt, &[("jumps", jumps), ("checks", checks)]);
}

fn cells() -> &'static [Row] {
    static ROWS: [Row; 6] = [
        (&[Instr::Read(1, 0), Instr::Return], Doing::End, 0, 9),
        (
            &[Instr::ReadAt(1, 2, 0, 1), Instr::Return],
            Doing::End,
            0,
            9,
        ),
        (
            &[Instr::ReadAt(1, 0, 0, 1), Instr::Return],
            Doing::Traps(Trap::Index),
            0,
            0,
        ),
        (
            &[Instr::Write(0, 0), Instr::Read(1, 0), Instr::Return],
            Doing::End,
            0,
            5,
        ),
        (
            &[Instr::WriteAt(2, 0, 0, 1), Instr::Read(1, 0), Instr::Return],
            Doing::End,
            0,
            5,
        ),
        (
            &[Instr::WriteAt(0, 0, 0, 1), Instr::Return],
            Doing::Traps(Trap::Index),
            0,
            0,
        ),
    ];
    &ROWS
}

fn transactions() -> &'static [Row] {
    static ROWS: [Row; 4] = [
        (
            &[
                Instr::Begin(3),
                Instr::Move(1, 0),
                Instr::Commit,
                Instr::Return,
            ],
            Doing::End,
            1,
            5,
        ),
        (
            &[Instr::Begin(2), Instr::Cancel, Instr::Return],
            Doing::Cancel,
            0,
            0,
        ),
        (
            &[
                Instr::Begin(3),
                Instr::Begin(3),
                Instr::CancelOuter(2),
                Instr::Return,
            ],
            Doing::CancelOuter(2),
            0,
            0,
        ),
        (
            &[Instr::Irrevocable, Instr::Move(1, 0), Instr::Return],
            Doing::End,
            1,
            5,
        ),
    ];
    &ROWS
}

fn returns() -> &'static [Row] {
    static ROWS: [Row; 1] = [(&[Instr::ReturnValue(0)], Doing::End, 0, 0)];
    &ROWS
}

#[test]
fn cells_and_transactions(rt: HostRuntime) {
    let cells = are_so(rt.alloc(), cells());
    let transactions = are_so(rt.alloc(), transactions());
    let returns = are_so(rt.alloc(), returns());
    assert_all(
        &rt,
        &[
            ("cells", cells),
            ("transactions", transactions),
            ("returns", returns),
        ],
    );
}

fn prints_three() -> &'static [Instr] {
    static CODE: [Instr; 5] = [
        Instr::Constant(1, 4294967295),
        Instr::PrintSigned(1),
        Instr::PrintText(1),
        Instr::PrintUnsigned(1),
        Instr::Return,
    ];
    &CODE
}

#[test]
fn texts_and_numbers_are_printed(rt: HostRuntime) {
    let code = code_of_worker(rt.alloc(), prints_three());
    let shown = what_is_found(rt.alloc(), code, "-1\\\n4294967295");
    assert_that(
        &rt,
        shown == Some((Doing::End, 1, Some(5), Some(4294967295))),
    );
}

/// What is found of a worker behind which a function begins at this place.
fn calls<A: Allocator + Copy>(alloc: A, instructions: &[Instr], second: u32) -> Option<Found> {
    what_is_found(alloc, code_of_two(alloc, instructions, second, (2, 1)), "")
}

/// r1 = f(r0), and f gives minus its parameter
fn calls_once() -> &'static [Instr] {
    static CODE: [Instr; 4] = [
        Instr::Call(1, 1, 1, 0),
        Instr::Return,
        Instr::NegateUnsigned(0, 0),
        Instr::ReturnValue(0),
    ];
    &CODE
}

/// The second call finds the room that was made for the first, so that it is a step in the frames.
fn calls_twice() -> &'static [Instr] {
    static CODE: [Instr; 5] = [
        Instr::Call(1, 1, 1, 0),
        Instr::Call(1, 1, 1, 0),
        Instr::Return,
        Instr::NegateUnsigned(0, 0),
        Instr::ReturnValue(0),
    ];
    &CODE
}

/// What is found where `f` has given minus 5, after so many steps.
fn after_steps(made: u64) -> Option<Found> {
    Some((Doing::End, made, Some(5), Some(4294967291)))
}

#[test]
fn calls_return_what_they_give(rt: HostRuntime) {
    let once = calls(rt.alloc(), calls_once(), 2) == after_steps(2);
    let twice = calls(rt.alloc(), calls_twice(), 3) == after_steps(5);
    assert_all(&rt, &[("once", once), ("twice", twice)]);
}

/// Whether a thread traps at its frames, with this one register in the last of them. How many of the calls are made in
/// the frames depends on the room that a growth makes, so that the number of steps is left open.
fn traps_at_frames(found: Option<Found>, word: u64) -> bool {
    match found {
        Some((doing, _, first, second)) => {
            doing == Doing::Traps(Trap::Frames) && first == Some(word) && second.is_none()
        }
        None => false,
    }
}

#[test]
fn a_65th_frame_traps(rt: HostRuntime) {
    let found = calls(rt.alloc(), calls_for_ever(), 2);
    assert_that(&rt, traps_at_frames(found, 5));
}
