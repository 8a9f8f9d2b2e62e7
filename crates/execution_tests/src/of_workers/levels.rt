//! Real threads that cancel several levels: of 2 to 16, into a level that is left and out of the outermost one, with
//! the lock kept and without.

use crate::asserted::assert_that;
use crate::of_workers::programs::Program;
use crate::of_workers::reports::{Wanted, runs_as};
use crate::of_workers::sums::Never;
use std::alloc::{AllocError, Global};
use std::sync::Wait;
use std::thread::Threads;
use syntax::thread_end::Status;
use test_codes::{Levels, cancels_levels};

/// Whether three threads all end, and leave x with this number.
fn all_end<R: Threads + Wait + Sync>(rt: &R, alloc: Global, program: Program, left: u32) -> bool {
    let wanted = Wanted {
        ended: Some(3),
        threads: &[],
        word: Some(u64::from(left)),
        overheld: &[],
    };
    runs_as(rt, alloc, program, 3, 1 << 40, &Never, &wanted) == Ok(true)
}

/// A thread that stands still with the lock kept has made two accesses: it has loaded the lock and swapped it.
fn standing_still() -> &'static Wanted<'static> {
    static WANTED: Wanted<'static> = Wanted {
        ended: None,
        threads: &[(0, "", Status::Running, 2)],
        word: None,
        overheld: &[],
    };
    &WANTED
}

/// Whether a thread of a thousand steps stands still with the lock kept.
fn stands_still<R: Threads + Wait + Sync>(rt: &R, alloc: Global, program: Program) -> bool {
    runs_as(rt, alloc, program, 1, 1000, &Never, standing_still()) == Ok(true)
}

/// Whether threads that cancel so many levels do what they should: where levels are left they leave x with the number
/// of these.
fn run<R: Threads + Wait + Sync>(
    rt: &R,
    alloc: Global,
    levels: Levels,
) -> Result<bool, AllocError> {
    let instructions = cancels_levels(alloc, levels)?;
    let program = (2, 0, instructions.as_slice());
    if levels.levels_left() == 0 && levels.kept {
        Ok(stands_still(rt, alloc, program))
    } else {
        Ok(all_end(rt, alloc, program, levels.levels_left()))
    }
}

/// Whether threads that cancel so many levels of that depth do what they should, with the lock kept and without.
fn both_run<R: Threads + Wait + Sync>(rt: &R, alloc: Global, depth: u32, cancelled: u32) -> bool {
    let free = Levels {
        depth,
        cancelled,
        kept: false,
    };
    let kept = Levels { kept: true, ..free };
    run(rt, alloc, free) == Ok(true) && run(rt, alloc, kept) == Ok(true)
}

/// The first depth at which threads do something else, where two levels, all but one and all are cancelled.
fn run_otherwise<R: Threads + Wait + Sync>(rt: &R, alloc: Global) -> Option<u32> {
    for depth in 2..17u32 {
        for cancelled in [2, depth.saturating_sub(1).max(2), depth] {
            if !both_run(rt, alloc, depth, cancelled) {
                return Some(depth);
            }
        }
    }
    None
}

#[test]
fn several_levels_are_cancelled(rt: HostRuntime) {
    assert_that(&rt, run_otherwise(&rt, rt.alloc()).is_none());
}
