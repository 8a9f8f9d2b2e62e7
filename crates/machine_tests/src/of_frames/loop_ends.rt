//! The ends of loops' turns, which are made at once where so many steps are left: as many steps, one by one, come to
//! the same.

ghost use Rattle.frames.specs.Open.{IsConfigurationOf};

use crate::asserted::assert_all;
use crate::built::code_of_worker;
use crate::of_frames::carried::first;
use bytecode::{Code, Instr};
use frames::Frames;
use lex::token::Scalar;
use local_steps::NoAccess;
use std::alloc::Allocator;
use syntax::tree::BinaryOp;

/// What a code is called, its instructions, and how many steps it makes before it pauses; register 0 is at first the
/// thread's number, 5.
type Row = (&'static str, &'static [Instr], u64);

/// Steps in the frames, at most so many: how many they were.
fn go<A: Allocator + Copy>(frames: &mut Frames<A>, code: &Code<A>, most: u64) -> u64
    requires { IsConfigurationOf code.now frames.old.configuration }
    ensures { IsConfigurationOf code.now frames.new.configuration }
{
    // The prover learns here that the code is valid.
    code.note_valid();
    let (made, _) = frames.advance(code, &mut NoAccess, most);
    made
}

/// Steps in the frames, each in a call of its own, at most so many: how many they were.
fn go_singly<A: Allocator + Copy>(frames: &mut Frames<A>, code: &Code<A>, most: u64) -> u64
    requires { IsConfigurationOf code.now frames.old.configuration }
    ensures { IsConfigurationOf code.now frames.new.configuration }
{
    let mut made: u64 = 0;
    'steps: for _ in 0..most {
        made = made.saturating_add(go(frames, code, 1));
    }
    made
}

/// Whether so many steps at once come to the same as one by one, and are so many at most.
fn agree<A: Allocator + Copy>(alloc: A, code: &Code<A>, most: u64, last: u64) -> bool {
    match first(alloc, code, 5) {
        Ok(mut whole) => match first(alloc, code, 5) {
            Ok(mut single) => {
                let made = go(&mut whole, code, most);
                made == go_singly(&mut single, code, most)
                    && made == most.min(last)
                    && whole.place() == single.place()
                    && whole.registers() == single.registers()
            }
            Err(_) => false,
        },
        Err(_) => false,
    }
}

/// Whether steps at once come to the same as one by one, for each number of steps up to 40, where a code makes as many
/// as its row says before it pauses.
fn is_so<A: Allocator + Copy>(alloc: A, row: &Row) -> bool {
    let (_, instructions, last) = *row;
    match code_of_worker(alloc, instructions) {
        None => false,
        Some(code) => {
            'mosts: for most in 0..40u64 {
                if !agree(alloc, &code, most, last) {
                    return false;
                }
            }
            true
        }
    }
}

const COUNTS: [Instr; 6] = [
    Instr::Constant(1, 0),
    Instr::Constant(2, 1),
    Instr::Compute(BinaryOp::Add, Scalar::Int, 1, 1, 2),
    Instr::Compute(BinaryOp::Less, Scalar::Int, 3, 1, 0),
    Instr::JumpNonzero(3, 2),
    Instr::Return,
];

/// The addend of the first sum is the comparison's register, and what is summed is it too.
const SUMS: [Instr; 8] = [
    Instr::Constant(1, 0),
    Instr::Constant(2, 1),
    Instr::Constant(3, 7),
    Instr::Compute(BinaryOp::Add, Scalar::Int, 3, 3, 3),
    Instr::Compute(BinaryOp::Add, Scalar::Int, 1, 1, 2),
    Instr::Compute(BinaryOp::Less, Scalar::Int, 3, 1, 0),
    Instr::JumpNonzero(3, 3),
    Instr::Return,
];

const DOUBLES: [Instr; 5] = [
    Instr::Constant(1, 1),
    Instr::Compute(BinaryOp::Add, Scalar::Int, 1, 1, 1),
    Instr::Compute(BinaryOp::Less, Scalar::Int, 3, 1, 0),
    Instr::JumpNonzero(3, 1),
    Instr::Return,
];

/// The comparison's register is what is added.
const ADDS_ITS_FLAG: [Instr; 6] = [
    Instr::Constant(1, 0),
    Instr::Constant(3, 4),
    Instr::Compute(BinaryOp::Add, Scalar::Int, 1, 1, 3),
    Instr::Compute(BinaryOp::Less, Scalar::Int, 3, 1, 0),
    Instr::JumpNonzero(3, 2),
    Instr::Return,
];

/// The sum is compared with itself.
const NEVER: [Instr; 6] = [
    Instr::Constant(1, 0),
    Instr::Constant(2, 1),
    Instr::Compute(BinaryOp::Add, Scalar::Int, 1, 1, 2),
    Instr::Compute(BinaryOp::Less, Scalar::Int, 3, 1, 1),
    Instr::JumpNonzero(3, 2),
    Instr::Return,
];

/// A loop end whose second sum traps.
const TRAPS: [Instr; 7] = [
    Instr::Constant(0, 2147483647),
    Instr::Constant(1, 500),
    Instr::Constant(2, 2147483000),
    Instr::Compute(BinaryOp::Add, Scalar::Int, 1, 1, 2),
    Instr::Compute(BinaryOp::Less, Scalar::Int, 3, 1, 0),
    Instr::JumpNonzero(3, 3),
    Instr::Return,
];

/// The sum behind the first one traps.
const TRAPS_BEHIND: [Instr; 8] = [
    Instr::Constant(1, 2147483647),
    Instr::Constant(2, 1),
    Instr::Constant(3, 7),
    Instr::Compute(BinaryOp::Add, Scalar::Int, 3, 3, 3),
    Instr::Compute(BinaryOp::Add, Scalar::Int, 1, 1, 2),
    Instr::Compute(BinaryOp::Less, Scalar::Int, 3, 1, 0),
    Instr::JumpNonzero(3, 3),
    Instr::Return,
];

fn rows() -> &'static [Row] {
    static ROWS: [Row; 7] = [
        ("counts", &COUNTS, 17),
        ("sums", &SUMS, 23),
        ("doubles", &DOUBLES, 10),
        ("adds its flag", &ADDS_ITS_FLAG, 8),
        ("never", &NEVER, 5),
        ("traps", &TRAPS, 6),
        ("traps behind", &TRAPS_BEHIND, 4),
    ];
    &ROWS
}

#[test]
fn steps_of_one_call_are_as_many_single_ones(rt: HostRuntime) {
    let alloc = rt.alloc();
    'each: for row in rows() {
        let (what, _, _) = *row;
        assert_all(&rt, &[(what, is_so(alloc, row))]);
    }
}
