//! The first word of each cell.

use crate::asserted::assert_that;
use crate::of_bytecode::built::{code_of, global, is_valid, parts_over};
use bytecode::{Code, Parts};
use lex::token::{Scalar, Span};
use std::alloc::{AllocError, Allocator, Global};
use syntax::tree;
use syntax::tree::Initialiser;
use test_memory::{Refusing, growths};

/// Appends a first word to a variable's.
fn push_first<A: Allocator>(
    to: &mut tree::Global<A>,
    negative: bool,
    value: u32,
) -> Result<(), AllocError> {
    to.first.push(Initialiser {
        negative,
        value: u64::from(value),
        ty: Scalar::Int,
        span: Span { start: 0, end: 0 },
    })
}

/// Appends the first words -1 and 7.
fn push_two<A: Allocator>(to: &mut tree::Global<A>) -> Result<(), AllocError> {
    push_first(to, true, 1)?;
    push_first(to, false, 7)
}

/// An array of so many cells, with the first words -1 and 7.
fn array<A: Allocator + Copy>(alloc: A, cells: u32) -> Result<tree::Global<A>, AllocError> {
    let mut array = global(alloc, Some(cells))?;
    push_two(&mut array)?;
    Ok(array)
}

/// A worker over a variable and that array.
fn over<A: Allocator + Copy>(alloc: A, cells: u32) -> Result<Parts<A>, AllocError> {
    parts_over(alloc, array(alloc, cells)?)
}

/// A worker over a variable and an array of three cells, of which -1 and 7 are the first words of two.
fn over_an_array<A: Allocator + Copy>(alloc: A) -> Result<Parts<A>, AllocError> {
    over(alloc, 3)
}

/// What `validate` says of a worker over an array of so many cells with two first words.
fn is_valid_over(alloc: Global, cells: u32) -> Option<bool> {
    match over(alloc, cells) {
        Ok(parts) => is_valid(alloc, parts),
        Err(_) => None,
    }
}

#[test]
fn each_first_word_has_a_cell(rt: HostRuntime) {
    assert_that(&rt, is_valid_over(rt.alloc(), 2) == Some(true));
    assert_that(&rt, is_valid_over(rt.alloc(), 1) == Some(false));
}

/// The code over the array.
fn code_over_an_array<A: Allocator + Copy>(alloc: A) -> Option<Code<A>> {
    match over_an_array(alloc) {
        Ok(parts) => code_of(alloc, parts),
        Err(_) => None,
    }
}

/// Whether these are the first words of a code's cells, if memory is there.
fn begins_with<A: Allocator + Copy>(alloc: A, code: &Code<A>, wanted: &[u64]) -> Option<bool> {
    let mut words = Vec::new(alloc);
    match code.push_initial(&mut words) {
        Ok(()) => Some(words.as_slice() == wanted),
        Err(_) => None,
    }
}

/// Whether the first words of a code's cells are 0, 4294967295, 7 and 0, and growth `nth` is not met, or else that is
/// told. The allocator of the code is the one that refuses.
fn tells_of<A: Allocator, B: Allocator + Copy>(
    refusing: &Refusing<A>,
    alloc: B,
    code: &Code<B>,
    nth: u64,
) -> bool {
    refusing.refuse(nth);
    match begins_with(alloc, code, &[0, 4294967295, 7, 0]) {
        Some(same) => same && refusing.is_waiting(),
        None => !refusing.is_waiting(),
    }
}

/// Whether the array's code begins with these words where growth `nth` is not met, and else that is told. The
/// allocator is the one that refuses.
fn tells(refusing: &Refusing<Global>, nth: u64) -> bool {
    match code_over_an_array(refusing) {
        Some(code) => tells_of(refusing, refusing, &code, nth),
        None => false,
    }
}

#[test]
fn each_cell_has_its_first_word(rt: HostRuntime) {
    assert_that(&rt, growths(rt.alloc(), 20, tells).ok() >= Some(1));
}

/// A worker over a variable and an array of three cells of type `long long`, with the first words -1 and 7.
fn over_a_long_array<A: Allocator + Copy>(alloc: A) -> Result<Parts<A>, AllocError> {
    let mut array = array(alloc, 3)?;
    array.ty = Scalar::LongLong;
    parts_over(alloc, array)
}

/// Whether the first words of a code over an array of type `long long` are -1 in 64 bits and 7, and 0 in the other
/// cells.
fn is_long(alloc: Global) -> Option<bool> {
    match over_a_long_array(alloc) {
        Ok(parts) => match code_of(alloc, parts) {
            Some(code) => begins_with(alloc, &code, &[0, 18446744073709551615, 7, 0]),
            None => None,
        },
        Err(_) => None,
    }
}

#[test]
fn first_words_of_long_long_have_64_bits(rt: HostRuntime) {
    assert_that(&rt, is_long(rt.alloc()) == Some(true));
}
