//! Codes that tests run in more than one place, each of a `worker` with two registers over a variable `x`.

use bytecode::Instr;
use lex::token::Scalar;
use syntax::tree::BinaryOp;

/// Adds 5 to x, and prints what it then is.
pub fn adds_five() -> &'static [Instr] {
    static CODE: [Instr; 8] = [
        Instr::Constant(1, 5),
        Instr::Begin(7),
        Instr::Read(0, 0),
        Instr::Compute(BinaryOp::Add, Scalar::Int, 0, 0, 1),
        Instr::Write(0, 0),
        Instr::Commit,
        Instr::PrintSigned(0),
        Instr::Return,
    ];
    &CODE
}

/// Calls `f`, which begins at instruction 2 and calls itself with its own parameter: in each frame that is the thread's
/// number.
pub fn calls_for_ever() -> &'static [Instr] {
    static CODE: [Instr; 4] = [
        Instr::Call(1, 1, 1, 0),
        Instr::Return,
        Instr::Call(0, 1, 1, 0),
        Instr::Return,
    ];
    &CODE
}

/// Stores 2 with the lock kept, prints, and traps.
pub fn traps() -> &'static [Instr] {
    static CODE: [Instr; 9] = [
        Instr::Begin(8),
        Instr::Constant(0, 2),
        Instr::Write(0, 0),
        Instr::Irrevocable,
        Instr::PrintSigned(0),
        Instr::Constant(1, 0),
        Instr::Compute(BinaryOp::Divide, Scalar::Int, 0, 0, 1),
        Instr::Commit,
        Instr::Return,
    ];
    &CODE
}
