//! Turns that come again: a loop that waits does the same in each of its turns.

use crate::inner::Inner;
use crate::turn::Details;
use crate::turns::Traced;
use containers::Items;
use std::alloc::{AllocError, Allocator};
use traces::{Fold, Mark, TurnShown};

/// The most turns that are found to come again together.
const LONGEST: usize = 64;

/// Whether two marks are equal.
fn is_same_mark(one: Mark, other: Mark) -> bool {
    one.cell == other.cell
        && one.found == other.found
        && one.left == other.left
        && one.is_written == other.is_written
}

/// Whether marks are equal.
fn are_same_marks(one: &[Mark], other: &[Mark]) -> bool {
    if one.len() != other.len() {
        return false;
    }
    'marks: for number in 0..one.len() {
        match other.get(number) {
            Some(mark) if is_same_mark(one[number], *mark) => {}
            _ => return false,
        }
    }
    true
}

/// Whether two turns show the same.
fn is_same_turn<A: Allocator>(one: &TurnShown<A>, other: &TurnShown<A>) -> bool {
    one.thread == other.thread
        && one.is_idle == other.is_idle
        && one.is_cancelled == other.is_cancelled
        && one.status == other.status
        && one.at.as_slice() == other.at.as_slice()
        && one.printed.as_slice() == other.printed.as_slice()
        && are_same_marks(one.marks.as_slice(), other.marks.as_slice())
}

/// Whether inner transactions are equal.
fn are_same_inner(one: &[Inner], other: &[Inner]) -> bool {
    if one.len() != other.len() {
        return false;
    }
    'inner: for number in 0..one.len() {
        match other.get(number) {
            Some(inner) if inner.start == one[number].start && inner.end == one[number].end => {}
            _ => return false,
        }
    }
    true
}

/// Whether the turns of these numbers show the same.
fn is_same<A: Allocator>(traced: &Traced<A>, one: usize, other: usize) -> bool {
    let turns = traced.turns.as_slice();
    let (Some(a), Some(b)) = (turns.get(one), turns.get(other)) else {
        return false;
    };
    let details = traced.details.as_slice();
    let (Some(c), Some(d)) = (details.get(one), details.get(other)) else {
        return false;
    };
    is_same_turn(a, b) && are_same_inner(c.inner.as_slice(), d.inner.as_slice())
}

/// Whether so many turns from each of these numbers on show the same.
fn are_same<A: Allocator>(traced: &Traced<A>, one: usize, other: usize, period: usize) -> bool {
    'turns: for number in 0..period {
        if !is_same(
            traced,
            one.saturating_add(number),
            other.saturating_add(number),
        ) {
            return false;
        }
    }
    true
}

/// How many times so many turns from this number on come one after another.
fn times_at<A: Allocator>(traced: &Traced<A>, at: usize, period: usize) -> usize {
    let mut times: usize = 1;
    let mut next = at.saturating_add(period);
    'times: for _ in 0..traced.turns.len() {
        if !are_same(traced, at, next, period) {
            return times;
        }
        times = times.saturating_add(1);
        next = next.saturating_add(period);
    }
    times
}

/// The turns from this number on that come again, the fewest together, if at least two lines can be left out.
fn fold_at<A: Allocator>(traced: &Traced<A>, at: usize) -> Option<(usize, usize)> {
    'periods: for less in 0..LONGEST {
        let period = less.saturating_add(1);
        let times = times_at(traced, at, period);
        if period.saturating_mul(times.saturating_sub(1)) > 1 {
            return Some((period, times));
        }
    }
    None
}

/// Which turns are left when those that come again are shown once, by their numbers, with what the last one of these says.
fn kept_of<A: Allocator + Copy>(
    alloc: A,
    traced: &Traced<A>,
) -> Result<Vec<(usize, Option<Fold>), A>, AllocError> {
    let mut kept = Vec::new(alloc);
    let mut next = 0;
    'turns: for at in 0..traced.turns.len() {
        if at >= next {
            let (period, times) = fold_at(traced, at).unwrap_or((1, 1));
            next = at.saturating_add(period.saturating_mul(times));
            push_kept(&mut kept, at, period, times)?;
        }
    }
    Ok(kept)
}

/// Adds so many turns from this number on, which come so many times.
fn push_kept<A: Allocator>(
    kept: &mut Vec<(usize, Option<Fold>), A>,
    at: usize,
    period: usize,
    times: usize,
) -> Result<(), AllocError> {
    'turns: for number in 0..period {
        let is_last = number.saturating_add(1) == period;
        let fold = if is_last && times > 1 {
            Some(Fold {
                period: period as u64,
                times: times as u64,
            })
        } else {
            None
        };
        kept.push((at.saturating_add(number), fold))?;
    }
    Ok(())
}

/// The turns of these numbers.
fn turns_kept<A: Allocator + Copy>(
    alloc: A,
    turns: Items<TurnShown<A>, A>,
    kept: &[(usize, Option<Fold>)],
) -> Result<Items<TurnShown<A>, A>, AllocError> {
    let mut left = Items::new(alloc);
    let mut number: usize = 0;
    'turns: for mut turn in turns.into_vec() {
        if let Some((at, fold)) = kept.get(left.len()) {
            if *at == number {
                turn.fold = *fold;
                left.push(turn)?;
            }
        }
        number = number.saturating_add(1);
    }
    Ok(left)
}

/// The details of the turns with these numbers.
fn details_kept<A: Allocator + Copy>(
    alloc: A,
    details: Items<Details<A>, A>,
    kept: &[(usize, Option<Fold>)],
) -> Result<Items<Details<A>, A>, AllocError> {
    let mut left = Items::new(alloc);
    let mut number: usize = 0;
    'turns: for one in details.into_vec() {
        if let Some((at, _)) = kept.get(left.len()) {
            if *at == number {
                left.push(one)?;
            }
        }
        number = number.saturating_add(1);
    }
    Ok(left)
}

/// Shows turns that come again once, so that at least two lines are left out each time.
pub(crate) fn folded<A: Allocator + Copy>(
    alloc: A,
    traced: Traced<A>,
) -> Result<Traced<A>, AllocError> {
    let kept = kept_of(alloc, &traced)?;
    let Traced {
        first,
        begun,
        turns,
        details,
        last,
        ends,
    } = traced;
    Ok(Traced {
        first,
        begun,
        turns: turns_kept(alloc, turns, kept.as_slice())?,
        details: details_kept(alloc, details, kept.as_slice())?,
        last,
        ends,
    })
}
