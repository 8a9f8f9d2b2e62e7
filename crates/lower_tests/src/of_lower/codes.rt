//! A text's code.

use bytecode::{Code, listing};
use lex::token::Span;
use lower::lower;
use std::alloc::Global;
use test_programs::accepted_of;

/// The code of a text, or in its place the number and the place of the fault. A text that is not accepted has the
/// number 1.
pub fn code_of(alloc: Global, text: &str) -> Result<Code, (u32, Option<Span>)> {
    match accepted_of(alloc, text) {
        None => Err((1, None)),
        Some(accepted) => match lower(alloc, &accepted) {
            Ok(code) => Ok(code),
            Err(fault) => Err((fault.number(), fault.span())),
        },
    }
}

/// The number and the place of the fault of a text that has no code.
pub fn fault_of(alloc: Global, text: &str) -> Option<(u32, Option<Span>)> {
    match code_of(alloc, text) {
        Ok(_) => None,
        Err(fault) => Some(fault),
    }
}

/// The listing of a text's code, or in its place the fault's number.
pub fn listing_of(alloc: Global, text: &str) -> Result<String, u32> {
    match code_of(alloc, text) {
        Ok(code) => match listing(alloc, &code) {
            Ok(text) => Ok(text),
            Err(_) => Err(0),
        },
        Err(fault) => Err(fault.0),
    }
}
