//! Validation whose steps are made by functions of their own.

use crate::asserted::assert_that;
use crate::cores::step;
use norec_core::{Core, Op, OpOutcome};
use std::alloc::{Allocator, Global};

/// Whether a read of this cell finds this word and then this lock value, with this outcome.
fn reads<A: Allocator + Copy>(
    core: &mut Core<A>,
    cell: u32,
    word: u64,
    lock: u64,
    outcome: OpOutcome,
) -> bool {
    if step(core, Op::Read(cell), word).is_err() {
        return false;
    }
    match step(core, Op::Read(cell), lock) {
        Ok((_, found)) => found == outcome,
        Err(_) => false,
    }
}

/// Whether an attempt begins at lock value 2, reads three cells, and then one where the lock has changed.
fn comes_to_validation<A: Allocator + Copy>(core: &mut Core<A>) -> bool {
    step(core, Op::Begin, 2).is_ok()
        && reads(core, 5, 50, 2, OpOutcome::Read(50))
        && reads(core, 6, 60, 2, OpOutcome::Read(60))
        && reads(core, 7, 70, 2, OpOutcome::Read(70))
        && reads(core, 8, 80, 3, OpOutcome::Going)
}

/// Whether validation loads the lock, this value.
fn waits<A: Allocator + Copy>(core: &mut Core<A>, lock: u64) -> bool {
    if !core.is_waiting() {
        return false;
    }
    core.take_wait(lock);
    true
}

/// Whether validation compares an entry of this cell, or where there is no cell the lock; this value is loaded.
fn compares<A: Allocator + Copy>(core: &mut Core<A>, cell: Option<u32>, found: u64) -> bool {
    let Some((time, place)) = core.comparing() else {
        return false;
    };
    match core.entry(time, place) {
        Some(entry) => {
            if found == entry.1 {
                core.take_equal(time, place, entry);
            } else {
                core.take_unequal(time, place, entry, found);
            }
            cell == Some(entry.0)
        }
        None => {
            core.take_validation(time, place, found);
            cell.is_none()
        }
    }
}

/// Whether validation waits for lock value 4 and finds all three words again.
fn compares_all<A: Allocator + Copy>(core: &mut Core<A>) -> bool {
    waits(core, 3)
        && waits(core, 4)
        && !core.is_waiting()
        && compares(core, Some(5), 50)
        && compares(core, Some(6), 60)
        && compares(core, Some(7), 70)
}

/// Whether validation waits for lock value 4, finds all three words again and then the lock changed again, and then
/// not, and the read is made at the new lock value.
fn goes_on<A: Allocator + Copy>(core: &mut Core<A>) -> bool {
    comes_to_validation(core)
        && compares_all(core)
        && compares(core, None, 6)
        && compares_all(core)
        && compares(core, None, 4)
        && !core.is_waiting()
        && core.comparing().is_none()
        && reads(core, 8, 81, 4, OpOutcome::Read(81))
}

/// Whether validation drops the attempt at its second entry, and goes back to what was saved.
fn drops<A: Allocator + Copy>(core: &mut Core<A>) -> bool {
    comes_to_validation(core)
        && waits(core, 4)
        && compares(core, Some(5), 50)
        && compares(core, Some(6), 61)
        && !core.has_attempt()
        && core.saved().place() == 7
}

/// Whether validation goes on in a new core, and drops the attempt of another one.
fn validates(alloc: Global) -> bool {
    let mut first = Core::new(alloc);
    let mut second = Core::new(alloc);
    goes_on(&mut first) && drops(&mut second)
}

#[test]
fn validation_is_made_by_its_own_functions(rt: HostRuntime) {
    assert_that(&rt, validates(rt.alloc()));
}
