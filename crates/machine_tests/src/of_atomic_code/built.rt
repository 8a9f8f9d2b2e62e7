//! Codes of one function or of two.

use crate::built::{code_of_two, code_of_worker};
use bytecode::{Code, Instr};
use std::alloc::Allocator;

/// The code of a worker of four registers and these instructions, and of a function `f` of three, where it is said
/// where that begins; if it is valid and memory is there.
pub fn code_of<A: Allocator + Copy>(
    alloc: A,
    instructions: &[Instr],
    second: Option<u32>,
) -> Option<Code<A>> {
    match second {
        Some(first) => code_of_two(alloc, instructions, first, (4, 3)),
        None => code_of_worker(alloc, instructions),
    }
}
