//! Parts to look at.

use bytecode::{Code, FunctionCode, Instr, Parts, validate};
use containers::{Items, Text};
use lex::token::{Scalar, Span};
use std::alloc::{AllocError, Allocator, Global};
use syntax::tree;
use syntax::tree::Name;
use test_codes::{TEXTS, no_parts, push_each, push_texts};

/// A function's name, its first place, its registers and its parameters.
pub type Function<'a> = (&'a str, u32, u32, u32);

/// `worker` with two registers.
pub const WORKER: Function<'static> = ("worker", 0, 2, 1);

/// Appends a function.
fn push_function<A: Allocator + Copy>(
    alloc: A,
    to: &mut Items<FunctionCode<A>, A>,
    function: &Function,
) -> Result<(), AllocError> {
    let (name, first, registers, parameters) = *function;
    to.push(FunctionCode {
        name: Text::from_str(alloc, name)?,
        first,
        registers,
        parameters,
    })
}

/// Appends functions.
fn push_functions<A: Allocator + Copy>(
    alloc: A,
    to: &mut Items<FunctionCode<A>, A>,
    functions: &[Function],
) -> Result<(), AllocError> {
    for function in functions {
        push_function(alloc, to, function)?;
    }
    Ok(())
}

/// The variable `x`, or an array of that length.
pub fn global<A: Allocator + Copy>(
    alloc: A,
    length: Option<u32>,
) -> Result<tree::Global<A>, AllocError> {
    let nowhere = Span { start: 0, end: 0 };
    let text = Text::from_str(alloc, "x")?;
    Ok(tree::Global {
        ty: Scalar::Int,
        name: Name {
            text,
            span: nowhere,
        },
        length: match length {
            Some(cells) => Some((u64::from(cells), nowhere)),
            None => None,
        },
        first: Items::new(alloc),
    })
}

/// Appends the variable `x`.
fn push_variable<A: Allocator + Copy>(
    alloc: A,
    to: &mut Items<tree::Global<A>, A>,
) -> Result<(), AllocError> {
    to.push(global(alloc, None)?)
}

/// Appends functions, texts and the variable `x`.
fn push_names<A: Allocator + Copy>(
    alloc: A,
    to: &mut Parts<A>,
    functions: &[Function],
    texts: &[&str],
) -> Result<(), AllocError> {
    push_functions(alloc, &mut to.functions, functions)?;
    push_texts(alloc, &mut to.texts, texts)?;
    push_variable(alloc, &mut to.globals)
}

/// Appends registers that calls hand over and instructions.
fn push_code<A: Allocator>(
    to: &mut Parts<A>,
    arguments: &[u16],
    instructions: &[Instr],
) -> Result<(), AllocError> {
    push_each(&mut to.arguments, arguments)?;
    push_each(&mut to.instructions, instructions)
}

/// These functions, registers that calls hand over, instructions and texts, over a variable `x`.
pub fn parts_of<A: Allocator + Copy>(
    alloc: A,
    functions: &[Function],
    arguments: &[u16],
    instructions: &[Instr],
    texts: &[&str],
) -> Result<Parts<A>, AllocError> {
    let mut parts = no_parts(alloc);
    push_names(alloc, &mut parts, functions, texts)?;
    push_code(&mut parts, arguments, instructions)?;
    Ok(parts)
}

/// A worker that returns at once, over a variable `x` and this global.
pub fn parts_over<A: Allocator + Copy>(
    alloc: A,
    other: tree::Global<A>,
) -> Result<Parts<A>, AllocError> {
    let mut parts = parts_of(alloc, &[WORKER], &[], &[Instr::Return], &[])?;
    parts.globals.push(other)?;
    Ok(parts)
}

/// What `validate` says of parts: that they are a code or that they are not, and nothing where memory was refused.
pub fn is_valid<A: Allocator + Copy>(alloc: A, parts: Parts<A>) -> Option<bool> {
    match validate(alloc, parts) {
        Ok(found) => Some(found.is_some()),
        Err(_) => None,
    }
}

/// The code of parts, if they are valid and memory is there.
pub fn code_of<A: Allocator + Copy>(alloc: A, parts: Parts<A>) -> Option<Code<A>> {
    match validate(alloc, parts) {
        Ok(found) => found,
        Err(_) => None,
    }
}

/// The code of these functions, registers that calls hand over, instructions and texts, if it is valid and memory is
/// there.
pub fn code_of_parts<A: Allocator + Copy>(
    alloc: A,
    functions: &[Function],
    arguments: &[u16],
    instructions: &[Instr],
    texts: &[&str],
) -> Option<Code<A>> {
    match parts_of(alloc, functions, arguments, instructions, texts) {
        Ok(parts) => code_of(alloc, parts),
        Err(_) => None,
    }
}

/// What `validate` says of these functions, registers that calls hand over and instructions, with two texts.
pub fn of_functions(
    alloc: Global,
    functions: &[Function],
    arguments: &[u16],
    instructions: &[Instr],
) -> Option<bool> {
    match parts_of(alloc, functions, arguments, instructions, &TEXTS) {
        Ok(parts) => is_valid(alloc, parts),
        Err(_) => None,
    }
}

/// What `validate` says of `worker` with 2 registers and these instructions.
pub fn of(alloc: Global, instructions: &[Instr]) -> Option<bool> {
    of_functions(alloc, &[WORKER], &[], instructions)
}
