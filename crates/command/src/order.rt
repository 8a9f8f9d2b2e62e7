//! Thread numbers joined by commas.

ghost use Rattle.std.specs.Prelude.{◌≡◌, ◌==◌, ℕ, List, IfOk, MatchOption, map};
ghost use Rattle.std.specs.List.{slice_split};
ghost use Rattle.command.specs.Asked.{AreThreads, IsDecimal, IsOrder};

use std::alloc::{AllocError, Global};

/// The pieces between commas.
fn pieces<'a>(alloc: Global, text: &'a str) -> Result<Vec<&'a str>, AllocError>
    ensures { IfOk result (λ v. map (λ p. p.now) v.items ≡ slice_split (λ b. b == 44) text.now) }
{
    text.split(',').collect(alloc)
}

/// The number of a thread, in decimal digits alone.
pub(crate) fn thread_number(piece: &str) -> Option<u32>
    ensures { MatchOption result ((n : ℕ) → IsDecimal piece.now n → ⊥) (IsDecimal piece.now) }
{
    if piece.starts_with('+') {
        return None;
    }
    piece.parse().ok()
}

/// The numbers of the threads that pieces are.
fn thread_numbers(alloc: Global, pieces: &[&str]) -> Result<Option<Vec<u32>>, AllocError>
    ensures { let texts = map (λ p. p.now) pieces.now
        in IfOk result (λ o. MatchOption o ((ns : List ℕ) → AreThreads texts ns → ⊥) (λ v. AreThreads texts v.items)) }
{
    let mut numbers = Vec::new(alloc);
    'pieces: for piece in pieces {
        match thread_number(piece) {
            Some(number) => numbers.push(number)?,
            None => return Ok(None),
        }
    }
    Ok(Some(numbers))
}

/// The thread numbers that a text lists, joined by commas; an empty text lists none.
pub fn order(alloc: Global, text: &str) -> Result<Option<Vec<u32>>, AllocError>
    ensures { IfOk result (λ o. MatchOption o ((ns : List ℕ) → IsOrder text.now ns → ⊥)
        (λ v. IsOrder text.now v.items)) }
{
    if text.is_empty() {
        return Ok(Some(Vec::new(alloc)));
    }
    let pieces = pieces(alloc, text)?;
    thread_numbers(alloc, pieces.as_slice())
}
