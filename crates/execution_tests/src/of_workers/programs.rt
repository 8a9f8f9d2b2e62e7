//! The programs that are run, by their codes: each is the code of the source that stands above it.

use bytecode::{Code, Instr};
use lex::token::Scalar;
use std::alloc::Allocator;
use syntax::tree::BinaryOp;
use test_codes::{WrittenCode, WrittenVariable, worker};

/// A program of one function over a variable `x`: the function's registers, what `x` begins with, and the instructions.
pub type Program<'a> = (u32, u32, &'a [Instr]);

/// `int x; void worker(int self) { __transaction_atomic { x = x + 1; } }`
pub fn adds() -> Program<'static> {
    static CODE: [Instr; 7] = [
        Instr::Begin(6),
        Instr::Read(1, 0),
        Instr::Constant(2, 1),
        Instr::Compute(BinaryOp::Add, Scalar::Int, 1, 1, 2),
        Instr::Write(1, 0),
        Instr::Commit,
        Instr::Return,
    ];
    (3, 0, &CODE)
}

/// `int x; void worker(int self) { int i; for (i = 0; i < TIMES; i++) { __transaction_atomic { x = x + 1; } } }`
pub fn adds_often(times: u32) -> [Instr; 17] {
    [
        Instr::Constant(1, 0),
        Instr::Constant(1, 0),
        Instr::Jump(13),
        Instr::Jump(16),
        Instr::Jump(11),
        Instr::Begin(11),
        Instr::Read(2, 0),
        Instr::Constant(3, 1),
        Instr::Compute(BinaryOp::Add, Scalar::Int, 2, 2, 3),
        Instr::Write(2, 0),
        Instr::Commit,
        Instr::Constant(2, 1),
        Instr::Compute(BinaryOp::Add, Scalar::Int, 1, 1, 2),
        Instr::Constant(2, u64::from(times)),
        Instr::Compute(BinaryOp::Less, Scalar::Int, 2, 1, 2),
        Instr::JumpNonzero(2, 5),
        Instr::Return,
    ]
}

/// `int x; void worker(int self) { __transaction_relaxed { x = x + 1; printf("%d\n", x); } }`
pub fn prints() -> Program<'static> {
    static CODE: [Instr; 11] = [
        Instr::Begin(10),
        Instr::Read(1, 0),
        Instr::Constant(2, 1),
        Instr::Compute(BinaryOp::Add, Scalar::Int, 1, 1, 2),
        Instr::Write(1, 0),
        Instr::Irrevocable,
        Instr::Read(1, 0),
        Instr::PrintSigned(1),
        Instr::PrintText(0),
        Instr::Commit,
        Instr::Return,
    ];
    (3, 0, &CODE)
}

/// Thread 0 writes 2, the other one reads, and prints what it has read: `int x = 1; void worker(int self) { int v; if
/// (self == 0) { __transaction_atomic { x = 2; } } else { __transaction_atomic { v = x; } printf("%d\n", v); } }`
pub fn looks() -> Program<'static> {
    static CODE: [Instr; 14] = [
        Instr::Constant(1, 0),
        Instr::JumpNonzero(0, 7),
        Instr::Begin(6),
        Instr::Constant(2, 2),
        Instr::Write(2, 0),
        Instr::Commit,
        Instr::Jump(13),
        Instr::Begin(10),
        Instr::Read(1, 0),
        Instr::Commit,
        Instr::Irrevocable,
        Instr::PrintSigned(1),
        Instr::PrintText(0),
        Instr::Return,
    ];
    (3, 1, &CODE)
}

/// Thread 0 divides by 0, and thread 1 writes 1:
/// `int x = 9; void worker(int self) { int v = 1 / self; __transaction_atomic { x = v; } }`
pub fn divides() -> Program<'static> {
    static CODE: [Instr; 7] = [
        Instr::Constant(1, 0),
        Instr::Constant(2, 1),
        Instr::Compute(BinaryOp::Divide, Scalar::Int, 1, 2, 0),
        Instr::Begin(6),
        Instr::Write(1, 0),
        Instr::Commit,
        Instr::Return,
    ];
    (3, 9, &CODE)
}

/// `int x; void worker(int self) { }`
pub fn nothing() -> Program<'static> {
    static CODE: [Instr; 1] = [Instr::Return];
    (1, 0, &CODE)
}

/// Thread 0 reads four times, and the other one writes: `int x; void worker(int self) { int v; if (self == 0) {
/// __transaction_atomic { v = x; v = x; v = x; v = x; } } else { __transaction_atomic { x = WORD; } } }`
pub fn reads_again(word: u32) -> [Instr; 14] {
    [
        Instr::Constant(1, 0),
        Instr::JumpNonzero(0, 9),
        Instr::Begin(8),
        Instr::Read(1, 0),
        Instr::Read(1, 0),
        Instr::Read(1, 0),
        Instr::Read(1, 0),
        Instr::Commit,
        Instr::Jump(13),
        Instr::Begin(13),
        Instr::Constant(2, u64::from(word)),
        Instr::Write(2, 0),
        Instr::Commit,
        Instr::Return,
    ]
}

/// The code of a program, with a line feed to print, if it is valid and memory is there.
pub fn code_of<A: Allocator + Copy>(alloc: A, program: Program) -> Option<Code<A>> {
    let (registers, value, instructions) = program;
    let x = WrittenVariable {
        ty: Scalar::Int,
        name: "x",
        value: Some(value),
    };
    let written = WrittenCode {
        functions: &[worker(registers)],
        instructions,
        arguments: &[],
        texts: &["\n"],
        variables: &[x],
    };
    test_codes::code_of(alloc, &written)
}
