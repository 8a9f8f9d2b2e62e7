//! Estimates the memory that the orders of a list take, with the text generated from them. No contract covers this.

use report::ReportedOrder;
use std::alloc::Allocator;

/// The bytes that an order, a thread or a global takes in addition to what it lists.
const HEAD: usize = 128;

/// The bytes of an entry of an order: a number, and its digits.
const ENTRY: usize = 7;

/// The bytes of a word: itself, and its digits.
const WORD: usize = 24;

/// The bytes of a listed order, as it is stored and as it is written.
pub(crate) fn bytes_of<A: Allocator>(one: &ReportedOrder<A>) -> u64 {
    let mut bytes = one
        .order
        .as_slice()
        .len()
        .saturating_mul(ENTRY)
        .saturating_add(HEAD);
    'threads: for thread in one.shown.threads.as_slice() {
        let text = thread.text.as_slice().len().saturating_mul(2);
        bytes = bytes.saturating_add(text).saturating_add(HEAD);
    }
    'globals: for global in one.shown.globals.as_slice() {
        let words = global.words.as_slice().len().saturating_mul(WORD);
        bytes = bytes.saturating_add(words).saturating_add(HEAD);
    }
    bytes as u64
}
