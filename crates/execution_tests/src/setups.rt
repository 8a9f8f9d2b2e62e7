//! A code to open a table for.

use bytecode::{Code, Instr};
use lex::token::Scalar;
use shared_words::Setup;
use std::alloc::Allocator;
use test_codes::{WrittenCode, WrittenVariable, code_of, worker};

/// A variable that begins with this value.
fn variable(value: u32) -> WrittenVariable<'static> {
    WrittenVariable {
        ty: Scalar::Int,
        name: "x",
        value: Some(value),
    }
}

/// The code of a `worker` that returns at once, over two variables `x`, which begin with these values.
fn code<A: Allocator + Copy>(alloc: A, first: u32, second: u32) -> Option<Code<A>> {
    let written = WrittenCode {
        functions: &[worker(1)],
        instructions: &[Instr::Return],
        arguments: &[],
        texts: &[],
        variables: &[variable(first), variable(second)],
    };
    code_of(alloc, &written)
}

/// The setup of so many threads of a `worker` that returns at once, over two variables `x`, which begin with these
/// values.
pub fn setup<A: Allocator + Copy>(
    alloc: A,
    first: u32,
    second: u32,
    threads: u32,
) -> Option<Setup<A>> {
    match code(alloc, first, second) {
        Some(code) => Some(Setup::new(code, threads)),
        None => None,
    }
}
