//! What is shown of the place at which a thread stands.

use bytecode::{Code, InstrView};
use std::alloc::Allocator;

/// What is shown of the place at which a thread stands, so that people see where it trapped or goes no further. No
/// contract speaks of it.
#[derive(Clone, Copy, PartialEq, Eq)]
pub struct PlaceShown {
    /// The place in the code.
    pub place: u32,

    /// The word that the instruction there computes with, where it is one that may trap: an operator's left one, or an
    /// index; else 0.
    pub left: u64,

    /// An operator's right word, or else 0.
    pub right: u64,
}

/// The word in a register, or 0 where there is no such register.
fn word_in(registers: &[u64], r: u32) -> u64 {
    match registers.get(r as usize) {
        Some(word) => *word,
        None => 0,
    }
}

/// The words that an instruction computes with, where it is one that may trap.
fn words_of(instr: InstrView<'_>, registers: &[u64]) -> (u64, u64) {
    match instr {
        InstrView::Compute(_, _, _, a, b) => (word_in(registers, a), word_in(registers, b)),
        InstrView::Negate(_, _, a)
        | InstrView::Check(a, _)
        | InstrView::ReadAt(_, _, _, a)
        | InstrView::WriteAt(_, _, a, _) => (word_in(registers, a), 0),
        _ => (0, 0),
    }
}

/// What is shown of a place where a frame has these registers.
pub(crate) fn place_shown<B: Allocator>(
    code: &Code<B>,
    place: u32,
    registers: &[u64],
) -> PlaceShown {
    let (left, right) = match code.instr(place as usize) {
        Some(instr) => words_of(instr, registers),
        None => (0, 0),
    };
    PlaceShown { place, left, right }
}
