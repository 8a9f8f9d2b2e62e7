//! Large texts, and their faults.

use crate::stages::{Fault, Stage, fault_of};
use std::alloc::Global;
use test_programs::{Piece, text_of};

/// How many functions a chain has.
const LENGTH: u32 = 20000;

/// The prototypes of a chain's functions.
pub const PROTOTYPES: Piece = Piece::Numbers("void f", LENGTH, "(void);");

/// The functions of a chain that call the next one, which are all but the last one, from the first one on.
pub const FROM_FIRST: Piece = Piece::Links(LENGTH - 1, false);

/// The functions of a chain that call the next one, which are all but the last one, from the last of these on.
pub const FROM_LAST: Piece = Piece::Links(LENGTH - 1, true);

/// The fault of pieces in a stage; none where memory is refused.
pub fn fault_in(alloc: Global, stage: Stage, pieces: &[Piece]) -> Option<Option<Fault>> {
    match text_of(alloc, pieces) {
        Ok(text) => Some(fault_of(alloc, stage, text.as_str())),
        Err(_) => None,
    }
}

/// What there is much of, and a text with so much.
pub type LargeRow = (&'static str, &'static [Piece]);

/// The first of these texts that has a fault in a stage, or no room in memory.
pub fn faulty_large(alloc: Global, stage: Stage, rows: &[LargeRow]) -> Option<&'static str> {
    for (what, pieces) in rows {
        if fault_in(alloc, stage, pieces) != Some(None) {
            return Some(*what);
        }
    }
    None
}
