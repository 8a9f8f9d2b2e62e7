//! Replays of codes that cancel several levels: of 2 to 16, into a level that is left and out of the outermost one,
//! with the lock kept and without.

use crate::asserted::assert_that;
use crate::wanted::{Wanted, is_as};
use bytecode::Code;
use machine::Event;
use replay::{read_schedule, replay};
use std::alloc::{AllocError, Allocator, Global};
use test_codes::{Levels, NUMBERS, cancels_levels, code_of, over_x};
use test_memory::Refusing;
use world::{World, WorldEnd};

/// Whether the report of one thread that makes a hundred steps is as wanted.
fn replays(alloc: Global, code: &Code, wanted: &Wanted) -> bool {
    match read_schedule(alloc, "0 100") {
        Ok(lines) => match replay(alloc, code, 1, lines.as_slice()) {
            Ok(report) => is_as(&report, wanted),
            Err(_) => false,
        },
        Err(_) => false,
    }
}

/// Whether levels are left, which the thread commits: with its fourth access, since a kept lock is taken before the
/// stores.
fn commits(alloc: Global, code: &Code, levels: Levels) -> bool {
    let Some(text) = NUMBERS.get(levels.levels_left() as usize).copied() else {
        return false;
    };
    let cancelled = if levels.kept { 2u64 } else { 1 };
    let wanted = Wanted {
        events: &[(cancelled, 0, Event::Cancel), (4, 0, Event::Commit)],
        threads: &[(WorldEnd::Ended, text)],
        words: &[u64::from(levels.levels_left())],
        holder: None,
        stop: None,
    };
    replays(alloc, code, &wanted)
}

/// All levels are cancelled, and the outermost one takes effect, having written nothing.
fn all_cancelled() -> &'static Wanted<'static> {
    static WANTED: Wanted<'static> = Wanted {
        events: &[(1, 0, Event::Cancel)],
        threads: &[(WorldEnd::Ended, "0")],
        words: &[0],
        holder: None,
        stop: None,
    };
    &WANTED
}

/// With the lock kept the thread stands still at an outermost cancel.
fn standing_still() -> &'static Wanted<'static> {
    static WANTED: Wanted<'static> = Wanted {
        events: &[],
        threads: &[(WorldEnd::Running, "")],
        words: &[0],
        holder: Some(0),
        stop: None,
    };
    &WANTED
}

/// Whether the thread of a code does what it should.
fn does(alloc: Global, code: &Code, levels: Levels) -> bool {
    if levels.levels_left() > 0 {
        commits(alloc, code, levels)
    } else if levels.kept {
        replays(alloc, code, standing_still())
    } else {
        replays(alloc, code, all_cancelled())
    }
}

/// Whether the thread of the code that cancels so many levels does what it should.
fn a_code_does(alloc: Global, levels: Levels) -> Result<bool, AllocError> {
    let instructions = cancels_levels(alloc, levels)?;
    match code_of(alloc, &over_x(instructions.as_slice())) {
        None => Ok(false),
        Some(code) => Ok(does(alloc, &code, levels)),
    }
}

/// Whether the threads that cancel so many levels of that depth do what they should, with the lock kept and without.
fn both_do(alloc: Global, depth: u32, cancelled: u32) -> bool {
    let free = Levels {
        depth,
        cancelled,
        kept: false,
    };
    let kept = Levels { kept: true, ..free };
    a_code_does(alloc, free) == Ok(true) && a_code_does(alloc, kept) == Ok(true)
}

/// The first depth at which a thread does something else.
fn done_otherwise(alloc: Global) -> Option<u32> {
    for depth in 2..17u32 {
        for cancelled in 2..depth.saturating_add(1) {
            if !both_do(alloc, depth, cancelled) {
                return Some(depth);
            }
        }
    }
    None
}

#[test]
fn several_levels_are_cancelled(rt: HostRuntime) {
    assert_that(&rt, done_otherwise(rt.alloc()).is_none());
}

/// Whether a world makes a step of thread 0, so often.
fn steps<A: Allocator + Copy>(world: &mut World<A>, times: u32) -> bool {
    for _ in 0..times {
        if world.run(&[0]).is_err() {
            return false;
        }
    }
    true
}

/// Whether a world's thread makes the steps up to the cancel, and then that one without a growth.
fn cancels_in_place<A: Allocator + Copy, B: Allocator>(
    world: &mut World<A>,
    refusing: &Refusing<B>,
    levels: Levels,
) -> bool {
    if !steps(world, levels.opening()) {
        return false;
    }
    refusing.refuse(1);
    steps(world, 1) && refusing.is_waiting()
}

/// Whether the thread of a new world makes the steps up to the cancel of so many levels, and then that one without a
/// growth.
fn a_world_cancels<A: Allocator + Copy, B: Allocator>(
    alloc: A,
    refusing: &Refusing<B>,
    levels: Levels,
) -> Result<bool, AllocError> {
    let instructions = cancels_levels(alloc, levels)?;
    match code_of(alloc, &over_x(instructions.as_slice())) {
        None => Ok(false),
        Some(code) => match World::new(alloc, &code, 1) {
            Ok(mut world) => Ok(cancels_in_place(&mut world, refusing, levels)),
            Err(_) => Ok(false),
        },
    }
}

/// Whether the thread of a new world over a new allocator makes the cancel of so many levels without a growth.
fn is_in_place(inner: Global, levels: Levels) -> bool {
    let alloc = Refusing::new(inner, 0);
    a_world_cancels(&alloc, &alloc, levels) == Ok(true)
}

/// Whether the thread of a new world makes each cancel of levels of four without a growth, where the trace has room for
/// a step more.
fn are_in_place(inner: Global) -> bool {
    for cancelled in 2..5u32 {
        let free = Levels {
            depth: 4,
            cancelled,
            kept: false,
        };
        if !is_in_place(inner, free) || !is_in_place(inner, Levels { kept: true, ..free }) {
            return false;
        }
    }
    true
}

#[test]
fn a_cancel_of_several_levels_takes_no_memory(rt: HostRuntime) {
    assert_that(&rt, are_in_place(rt.alloc()));
}
