//! The longest codes, codes of many functions and texts, and what an instruction takes.

use crate::asserted::assert_that;
use crate::of_bytecode::built::{WORKER, is_valid, of, parts_of};
use bytecode::{FunctionCode, Instr, MOST_INSTRUCTIONS, Parts};
use containers::Text;
use std::alloc::{AllocError, Global};
use std::mem::size_of;

/// Instructions of which so many are jumps, and the last is a return.
fn jumps(alloc: Global, count: usize) -> Result<Vec<Instr>, AllocError> {
    let mut instructions = Vec::new(alloc);
    for _ in 0..count {
        instructions.push(Instr::JumpZero(0, 0))?;
    }
    instructions.push(Instr::Return)?;
    Ok(instructions)
}

/// What `validate` says of a worker of so many instructions.
fn is_valid_at(alloc: Global, count: usize) -> Option<bool> {
    match jumps(alloc, count.saturating_sub(1)) {
        Ok(instructions) => of(alloc, instructions.as_slice()),
        Err(_) => None,
    }
}

#[test]
fn an_instruction_takes_at_most_16_bytes(rt: HostRuntime) {
    assert_that(&rt, size_of::<Instr>() <= 16);
}

#[test]
fn the_longest_code_is_valid(rt: HostRuntime) {
    let valid = is_valid_at(rt.alloc(), MOST_INSTRUCTIONS);
    assert_that(&rt, valid == Some(true));
}

#[test]
fn a_longer_code_is_not_valid(rt: HostRuntime) {
    let valid = is_valid_at(rt.alloc(), MOST_INSTRUCTIONS + 1);
    assert_that(&rt, valid == Some(false));
}

/// The beginning of names that all have one hash, where a hash multiplies eight bytes by eight with a constant and no
/// key: behind it one factor is 0.
const COLLIDING: &str = "aaaaaaaaaaaaassTNo3qMD1o";

/// Appends a function that returns at once, whose name begins so and ends in its number, and whose instruction stands
/// at `first`.
fn push_function(
    alloc: Global,
    to: &mut Parts,
    beginning: &str,
    number: u32,
    first: u32,
) -> Result<(), AllocError> {
    let name = format!(in alloc; "{beginning}{number:08}")?;
    to.functions.push(FunctionCode {
        name: Text::from_string(name),
        first,
        registers: 0,
        parameters: 0,
    })?;
    to.instructions.push(Instr::Return)
}

/// Appends a text of this number.
fn push_text(alloc: Global, to: &mut Parts, number: u32) -> Result<(), AllocError> {
    let text = format!(in alloc; "{number},")?;
    to.texts.push(Text::from_string(text))
}

/// `worker`, which prints text `at` and calls function `at`, as many functions behind it, each with a name of its own,
/// and as many texts.
fn many(alloc: Global, count: u32, at: u32) -> Result<Parts, AllocError> {
    let body = [
        Instr::PrintText(at),
        Instr::Call(0, 0, at, 0),
        Instr::Return,
    ];
    let mut parts = parts_of(alloc, &[WORKER], &[], &body, &[])?;
    for number in 0..count {
        push_function(alloc, &mut parts, "f", number, number.saturating_add(3))?;
        push_text(alloc, &mut parts, number)?;
    }
    Ok(parts)
}

/// Parts as `many` gives them, and behind them one more function with this number.
fn one_more(alloc: Global, count: u32, number: u32) -> Result<Parts, AllocError> {
    let mut parts = many(alloc, count, 1)?;
    push_function(alloc, &mut parts, "f", number, count.saturating_add(3))?;
    Ok(parts)
}

/// `worker`, 31,000 functions behind it whose names all collide, and one more with this number.
fn colliding(alloc: Global, last: u32) -> Result<Parts, AllocError> {
    let mut parts = parts_of(alloc, &[WORKER], &[], &[Instr::Return], &[])?;
    for number in 0..31_000u32 {
        push_function(
            alloc,
            &mut parts,
            COLLIDING,
            number,
            number.saturating_add(1),
        )?;
    }
    push_function(alloc, &mut parts, COLLIDING, last, 31_001)?;
    Ok(parts)
}

/// What `validate` says of parts, where there was memory for them.
fn is_valid_made(alloc: Global, parts: Result<Parts, AllocError>) -> Option<bool> {
    match parts {
        Ok(parts) => is_valid(alloc, parts),
        Err(_) => None,
    }
}

#[test]
fn two_thousand_functions_and_texts_are_valid(rt: HostRuntime) {
    let alloc = rt.alloc();
    let last = is_valid_made(alloc, many(alloc, 2_000, 1_999));
    assert_that(&rt, last == Some(true));
    let no_text = is_valid_made(alloc, many(alloc, 2_000, 2_000));
    assert_that(&rt, no_text == Some(false));
}

#[test]
fn the_last_of_two_thousand_names_is_another(rt: HostRuntime) {
    let alloc = rt.alloc();
    let another = is_valid_made(alloc, one_more(alloc, 2_000, 2_000));
    assert_that(&rt, another == Some(true));
    let first = is_valid_made(alloc, one_more(alloc, 2_000, 0));
    assert_that(&rt, first == Some(false));
}

#[test]
fn colliding_names_are_told_apart(rt: HostRuntime) {
    let alloc = rt.alloc();
    let another = is_valid_made(alloc, colliding(alloc, 31_000));
    assert_that(&rt, another == Some(true));
    let oldest = is_valid_made(alloc, colliding(alloc, 0));
    assert_that(&rt, oldest == Some(false));
    let newest = is_valid_made(alloc, colliding(alloc, 30_999));
    assert_that(&rt, newest == Some(false));
}
