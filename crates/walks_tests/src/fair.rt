//! Whether every fair schedule terminates. The answers were found by hand, and the lengths by another implementation. It
//! distinguishes states by registers that are never read, so its orders may be longer.

ghost use Rattle.bytecode.specs.Code.{Code};
ghost use Rattle.walks.specs.Walks.{IsWalk};

use crate::fair_programs::{
    ALTERNATES, CONSPIRES, LOWERS, OWNS, PETERSON, POLITE, RAISES, READS, RETRIES, SERVES_TWICE,
    TAKES_ONE_MORE, TEST_AND_SET, TOGGLES, TURNS,
};
use crate::walked::{code_of, walk_of};
use livelocks::{Decision, blocked_states, components_of, decide};
use std::alloc::{AllocError, Allocator};
use test_programs::accepted_of;
use walks::Walk;

/// The lengths of an order and of a cycle, or none if every fair schedule terminates.
type Lengths = Option<(usize, usize)>;

/// A program, its number of threads, the lengths, and the number of blocked states.
type Row = (&'static str, u32, Lengths, usize);

fn rows() -> &'static [Row] {
    static ROWS: [Row; 18] = [
        (TEST_AND_SET, 2, None, 0),
        (TEST_AND_SET, 4, None, 0),
        (SERVES_TWICE, 2, Some((1, 4)), 0),
        (SERVES_TWICE, 3, Some((1, 5)), 0),
        (POLITE, 2, Some((4, 6)), 0),
        (TURNS, 2, None, 0),
        (PETERSON, 2, None, 0),
        (RETRIES, 3, Some((0, 9)), 0),
        (CONSPIRES, 3, Some((1, 4)), 0),
        (RAISES, 4, None, 0),
        (LOWERS, 2, Some((2, 1)), 1),
        (TOGGLES, 2, Some((0, 3)), 0),
        (OWNS, 2, Some((1, 4)), 0),
        (OWNS, 3, Some((1, 6)), 0),
        (READS, 2, Some((0, 3)), 0),
        (READS, 3, Some((0, 5)), 0),
        (TAKES_ONE_MORE, 2, Some((5, 1)), 1),
        (ALTERNATES, 2, Some((7, 1)), 1),
    ];
    &ROWS
}

/// The lengths, and the number of blocked states. None if nothing is decided.
fn decided<A: Allocator + Copy>(
    alloc: A,
    walk: &Walk<A>,
) -> Result<Option<(Lengths, usize)>, AllocError>
    requires { (code : Code) × IsWalk code walk.now }
{
    if walk.states() == 0 {
        return Ok(None);
    }
    let components = components_of(alloc, walk)?;
    let blocked = blocked_states(alloc, walk, &components)?;
    match decide(alloc, walk, &components)? {
        Decision::AllTerminate => Ok(Some((None, blocked.len()))),
        Decision::Endless(lasso) => Ok(Some((
            Some((lasso.order.len(), lasso.cycle.len())),
            blocked.len(),
        ))),
        Decision::Unknown => Ok(None),
    }
}

/// Whether what is found is as it was found elsewhere, with an order that is at most as long.
fn agrees(found: (Lengths, usize), lengths: Lengths, blocked: usize) -> bool {
    match (found.0, lengths) {
        (None, None) => found.1 == blocked,
        (Some((order, cycle)), Some((most, wanted))) => {
            order <= most && cycle == wanted && found.1 == blocked
        }
        _ => false,
    }
}

/// Whether a row is so.
fn is_so<A: Allocator + Copy>(alloc: A, row: &Row) -> bool {
    let Some(accepted) = accepted_of(alloc, row.0) else {
        return false;
    };
    let Some(code) = code_of(alloc, &accepted) else {
        return false;
    };
    match walk_of(alloc, &code, row.1, 100000) {
        Ok(Some(walk)) => match decided(alloc, &walk) {
            Ok(Some(found)) => agrees(found, row.2, row.3),
            _ => false,
        },
        _ => false,
    }
}

/// The first row that is not so.
fn first_other<A: Allocator + Copy>(alloc: A, rows: &[Row]) -> Option<(&'static str, u32)> {
    'rows: for row in rows {
        if !is_so(alloc, row) {
            return Some((row.0, row.1));
        }
    }
    None
}

#[test]
fn fair_schedules_are_decided(rt: HostRuntime) {
    assert_eq!(rt; first_other(rt.alloc(), rows()), None);
}
