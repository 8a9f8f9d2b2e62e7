//! Codes to run, over the variable `x` and two texts.

use bytecode::{Code, Instr};
use std::alloc::Allocator;
use test_codes::{TEXTS, WrittenCode, X, code_of, second, worker};

/// The code of a `worker` of four registers and these instructions, if it is valid and memory is there.
pub fn code_of_worker<A: Allocator + Copy>(alloc: A, instructions: &[Instr]) -> Option<Code<A>> {
    let written = WrittenCode {
        functions: &[worker(4)],
        instructions,
        arguments: &[],
        texts: &TEXTS,
        variables: &[X],
    };
    code_of(alloc, &written)
}

/// The code of a `worker` with these instructions and of a function behind it, which begins at `first` and takes
/// register 0, with so many registers each, if it is valid and memory is there.
pub fn code_of_two<A: Allocator + Copy>(
    alloc: A,
    instructions: &[Instr],
    first: u32,
    registers: (u32, u32),
) -> Option<Code<A>> {
    let written = WrittenCode {
        functions: &[worker(registers.0), second(first, registers.1)],
        instructions,
        arguments: &[0],
        texts: &TEXTS,
        variables: &[X],
    };
    code_of(alloc, &written)
}
