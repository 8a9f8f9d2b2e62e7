//! Thread numbers that a file lists.

ghost use Rattle.std.specs.Prelude.{◌≡◌, ◌≤◌, ℕ, IfOk, List, MatchOption, length, not};
ghost use Rattle.std.specs.List.{prefix_len};
ghost use Rattle.command.specs.Asked.{IsDecimal, IsListedOrder, is_between};

use crate::order::thread_number;
use std::alloc::{AllocError, Allocator};
use std::str;

/// Whether a byte parts words.
fn is_between(byte: u8) -> bool
    ensures { result ≡ is_between byte }
{
    byte == b',' || byte == b' ' || byte == b'\t' || byte == b'\n' || byte == b'\r'
}

/// Whether a byte is of a word.
fn is_of_word(byte: u8) -> bool
    ensures { result ≡ not (is_between byte) }
{
    !is_between(byte)
}

/// How many bytes of a word stand at the front.
fn word_len(text: &[u8]) -> usize
    ensures value { result ≡ prefix_len (λ b. not (is_between b)) text.now }
    ensures within { result ≤ length text.now }
{
    text.iter().take_while(|b| is_of_word(**b)).count()
}

/// The number of a thread, in decimal digits alone.
fn number_of(word: &[u8]) -> Option<u32>
    ensures { MatchOption result ((n : ℕ) → IsDecimal word.now n → ⊥) (IsDecimal word.now) }
{
    match str::from_utf8(word) {
        Ok(word) => thread_number(word),
        Err(_) => None,
    }
}

/// The thread numbers that the text of a file lists, if it lists nothing else.
pub fn listed_order<A: Allocator>(alloc: A, text: &[u8]) -> Result<Option<Vec<u32, A>>, AllocError>
    ensures { IfOk result (λ o. MatchOption o ((ns : List ℕ) → IsListedOrder text.now ns → ⊥)
        (λ v. IsListedOrder text.now v.items)) }
{
    let mut order = Vec::new(alloc);
    let mut rest = text;
    'words: while !rest.is_empty() {
        let (word, more) = rest.split_at(word_len(rest));
        rest = &more[more.len().min(1)..];
        if word.is_empty() {
            continue;
        }
        match number_of(word) {
            Some(number) => order.push(number)?,
            None => return Ok(None),
        }
    }
    Ok(Some(order))
}
