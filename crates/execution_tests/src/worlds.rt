//! Worlds: steps of two threads, steps that are not made, and each growth refused.

use crate::asserted::{assert_all, assert_that};
use crate::wanted::{Wanted, is_as};
use std::alloc::{Allocator, Global};
use test_codes::{adds_five, code_of, over_x};
use world::{StopReason, World, WorldEnd, WorldFault};

/// Of two threads that add 5 to x: thread 1 has the word of x when thread 0 changes it. It reads again, and makes 10
/// accesses in place of 6.
fn crossing_steps() -> &'static [u32] {
    static STEPS: [u32; 29] = [
        1, 1, 1, 0, 0, 0, 0, 0, 0, 0, 0, 0, 0, 0, 1, 1, 1, 1, 1, 1, 1, 1, 1, 1, 1, 1, 1, 1, 1,
    ];
    &STEPS
}

/// A world of so many threads that add, before any step.
fn new_world<A: Allocator + Copy>(alloc: A, threads: u32) -> Result<World<A>, WorldFault> {
    match code_of(alloc, &over_x(adds_five())) {
        Some(code) => World::new(alloc, &code, threads),
        None => Err(WorldFault::OutOfMemory),
    }
}

/// Which step was not made and why, where one was not.
fn stop_of<A: Allocator + Copy>(world: &mut World<A>, steps: &[u32]) -> Option<(u64, StopReason)> {
    match world.run(steps) {
        Ok(()) => None,
        Err(stop) => Some((stop.step, stop.reason)),
    }
}

fn reports(alloc: Global, world: &World, wanted: &Wanted) -> bool {
    match world.report(alloc) {
        Ok(report) => is_as(&report, wanted),
        Err(_) => false,
    }
}

/// What steps leave: the lock, how many accesses were made, and the rest.
type Left<'a> = (u64, u64, &'a Wanted<'a>);

/// Whether a world stands so behind these steps.
fn stands(world: &World, steps: &[u32], left: Left) -> bool {
    let (lock, accesses, wanted) = left;
    if world.lock() != lock || world.accesses() != accesses || world.holder() != wanted.holder {
        return false;
    }
    world.words() == wanted.words && world.trace() == steps
}

/// Whether all these steps of two threads are made, and leave what is wanted.
fn goes(alloc: Global, world: &mut World, steps: &[u32], left: Left) -> bool {
    stop_of(world, steps).is_none() && stands(world, steps, left) && reports(alloc, world, left.2)
}

/// Whether all these steps of two threads of a new world are made, and leave what is wanted.
fn leads_to(alloc: Global, steps: &[u32], left: Left) -> bool {
    match new_world(alloc, 2) {
        Ok(mut world) => goes(alloc, &mut world, steps, left),
        Err(_) => false,
    }
}

fn read_again() -> &'static Wanted<'static> {
    static WANTED: Wanted<'static> = Wanted {
        events: &[],
        threads: &[(WorldEnd::Ended, "5"), (WorldEnd::Ended, "10")],
        words: &[10],
        holder: None,
        stop: None,
    };
    &WANTED
}

#[test]
fn a_word_is_read_again(rt: HostRuntime) {
    let holds = leads_to(rt.alloc(), crossing_steps(), (4, 16, read_again()));
    assert_that(&rt, holds);
}

fn lock_held_report() -> &'static Wanted<'static> {
    static WANTED: Wanted<'static> = Wanted {
        events: &[],
        threads: &[(WorldEnd::Running, ""), (WorldEnd::Running, "")],
        words: &[0],
        holder: Some(1),
        stop: None,
    };
    &WANTED
}

#[test]
fn a_thread_has_the_lock(rt: HostRuntime) {
    let holds = leads_to(
        rt.alloc(),
        &[1, 1, 1, 1, 1, 1, 1],
        (1, 4, lock_held_report()),
    );
    assert_that(&rt, holds);
}

/// Whether a stranger's step, the third one, is not made, and those before it are.
fn stops_at_a_stranger(world: &mut World) -> bool {
    let stop = stop_of(world, &[0, 1, 7, 0]);
    stop == Some((2, StopReason::Stranger)) && world.trace() == [0u32, 1].as_slice()
}

/// Whether a stranger's step in a new world, the third one, is not made, and those before it are.
fn meets_a_stranger(alloc: Global) -> bool {
    match new_world(alloc, 2) {
        Ok(mut world) => stops_at_a_stranger(&mut world),
        Err(_) => false,
    }
}

#[test]
fn a_stranger_makes_no_step(rt: HostRuntime) {
    assert_that(&rt, meets_a_stranger(rt.alloc()));
}

/// Why a world of so many threads is not opened, where it is not.
fn refusal(alloc: Global, threads: u32) -> Option<WorldFault> {
    match new_world(alloc, threads) {
        Ok(_) => None,
        Err(fault) => Some(fault),
    }
}

#[test]
fn there_are_1_to_64_threads(rt: HostRuntime) {
    let none = refusal(rt.alloc(), 0) == Some(WorldFault::WrongThreads);
    let more = refusal(rt.alloc(), 65) == Some(WorldFault::WrongThreads);
    let most = refusal(rt.alloc(), 64).is_none();
    assert_all(&rt, &[("none", none), ("65", more), ("64", most)]);
}
