//! Turns that come again.

ghost use Rattle.std.specs.Prelude.{◌≡◌, ◌++◌, ◌+◌, ◌-◌, ◌*◌, IfOk, OnOk, Some, decimal};
ghost use Rattle.traces.specs.Trace.{fold_line, number_after};

use crate::push::{push_bytes, push_number};
use crate::turn::Fold;
use std::alloc::{AllocError, Allocator};

/// A number that is below 2 ^ 64; there are fewer turns.
fn within(number: Option<u64>) -> Result<u64, AllocError>
    ensures { IfOk result (λ n. number ≡ Some n) }
{
    match number {
        Some(number) => Ok(number),
        None => Err(AllocError),
    }
}

/// The number of the first of the turns that end with this one.
fn first_of(number: u64, fold: Fold) -> Result<u64, AllocError>
    ensures { IfOk result (λ n. n ≡ number - fold.period + 1) }
{
    within(number.saturating_sub(fold.period).checked_add(1))
}

/// The number after that of a turn, where turns that come again are counted each time.
fn number_after_fold(number: u64, fold: Fold) -> Result<u64, AllocError>
    ensures { IfOk result (λ n. n ≡ number + 1 + fold.period * (fold.times - 1)) }
{
    let next = within(number.checked_add(1))?;
    let again = within(fold.period.checked_mul(fold.times.saturating_sub(1)))?;
    within(next.checked_add(again))
}

/// The number after that of a turn.
pub(crate) fn number_after(number: u64, fold: Option<Fold>) -> Result<u64, AllocError>
    ensures { IfOk result (λ n. n ≡ number_after number fold) }
{
    match fold {
        Some(fold) => number_after_fold(number, fold),
        None => within(number.checked_add(1)),
    }
}

/// Adds the line that says which turns come again, the last of which has this number.
pub(crate) fn push_fold<A: Allocator>(
    text: &mut Vec<u8, A>,
    number: u64,
    fold: Option<Fold>,
) -> Result<(), AllocError>
    ensures { OnOk result (text.new.items ≡ text.old.items ++ fold_line number fold) }
{
    let Some(fold) = fold else {
        return Ok(());
    };
    push_bytes(text, b"  turns ")?;
    push_number(text, first_of(number, fold)?)?;
    push_bytes(text, b" to ")?;
    push_number(text, number)?;
    push_bytes(text, b", ")?;
    push_number(text, fold.times)?;
    push_bytes(text, b" times\n")
}
