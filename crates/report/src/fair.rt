//! The text of the findings about fair schedules.

ghost use Rattle.std.specs.Prelude.{◌≡◌, IfOk};
ghost use Rattle.report.specs.Fair as spec;

use crate::outcome_list::{WalkEnd, push_order, push_walk_words};
use crate::push::{push_bytes, push_number};
use std::alloc::{AllocError, Allocator};

/// The text of a fair schedule that never terminates: an order, and the cycle that is repeated after it.
pub fn endless_text<A: Allocator + Copy>(
    alloc: A,
    order: &[u32],
    cycle: &[u32],
) -> Result<Vec<u8, A>, AllocError>
    ensures { IfOk result (λ r. r.items ≡ spec.endless_text order.now cycle.now) }
{
    let mut line = Vec::new(alloc);
    push_bytes(&mut line, b"== endless --order ")?;
    push_order(&mut line, order)?;
    push_bytes(&mut line, b" --then ")?;
    push_order(&mut line, cycle)?;
    push_bytes(&mut line, b"\n")?;
    Ok(line)
}

/// The text if it is open whether every fair schedule terminates: the number of states that were found, the number of
/// threads, and the limit that stopped the walk, if one did.
pub fn open_text<A: Allocator + Copy>(
    alloc: A,
    states: u64,
    threads: u32,
    end: WalkEnd,
) -> Result<Vec<u8, A>, AllocError>
    ensures { IfOk result (λ r. r.items ≡ spec.open_text states threads end) }
{
    let mut line = Vec::new(alloc);
    push_bytes(&mut line, b"== open fair: states ")?;
    push_number(&mut line, states)?;
    push_walk_words(&mut line, threads, end)?;
    Ok(line)
}
