//! Schedules, replays and worlds of two threads: each call is made again where memory was refused.

use crate::seen::Seen;
use bytecode::Code;
use replay::{Line, ScheduleFault, read_schedule, replay, seeded};
use std::alloc::Allocator;
use world::{Report, World, WorldFault, WorldStop};

fn read<A: Allocator + Copy>(alloc: A, text: &str) -> Option<Vec<Line, A>> {
    match read_schedule(alloc, text) {
        Ok(lines) => Some(lines),
        Err(ScheduleFault::OutOfMemory) => read_schedule(alloc, text).ok(),
        Err(_) => None,
    }
}

fn lines_of_seed<A: Allocator + Copy>(alloc: A) -> Option<Vec<Line, A>> {
    match seeded(alloc, 42, 4, 12) {
        Ok(lines) => Some(lines),
        Err(ScheduleFault::OutOfMemory) => seeded(alloc, 42, 4, 12).ok(),
        Err(_) => None,
    }
}

fn replay_of<A: Allocator + Copy>(alloc: A, code: &Code<A>, lines: &[Line]) -> Option<Report<A>> {
    match replay(alloc, code, 2, lines) {
        Ok(report) => Some(report),
        Err(WorldFault::OutOfMemory) => replay(alloc, code, 2, lines).ok(),
        Err(_) => None,
    }
}

/// The report of these lines, where no step was refused memory: a replay that was is made again from its beginning.
fn replayed_whole<A: Allocator + Copy>(
    alloc: A,
    code: &Code<A>,
    lines: &[Line],
) -> Option<Report<A>> {
    let Some(report) = replay_of(alloc, code, lines) else {
        return None;
    };
    match report.stop {
        None => Some(report),
        Some(stop) => {
            if stop.number() == 0 && stop.step == report.trace.len() as u64 {
                replay_of(alloc, code, lines)
            } else {
                None
            }
        }
    }
}

/// Adds the events and threads of a report.
fn add_report<A: Allocator>(report: &Report<A>, seen: &mut Seen) -> Option<()> {
    for event in &report.events {
        let Some(()) = seen.words("event", &[event.0, u64::from(event.1)]) else {
            return None;
        };
    }
    for thread in &report.threads {
        let Some(()) = seen.bytes("replay", thread.1.as_str().as_bytes()) else {
            return None;
        };
    }
    let Some(()) = seen.words("replay", report.words.as_slice()) else {
        return None;
    };
    report.stop.is_none().then_some(())
}

/// Whether two worlds have the same lock, words, steps, accesses and outputs.
fn are_alike<A: Allocator + Copy>(one: &World<A>, other: &World<A>) -> bool {
    if one.threads() != 2 || other.threads() != 2 {
        return false;
    }
    one.lock() == other.lock()
        && one.words() == other.words()
        && one.trace() == other.trace()
        && one.accesses() == other.accesses()
        && one.output(0) == other.output(0)
        && one.output(1) == other.output(1)
}

/// A world of two threads.
fn new_world<A: Allocator + Copy>(alloc: A, code: &Code<A>) -> Option<World<A>> {
    match World::new(alloc, code, 2) {
        Ok(world) => Some(world),
        Err(WorldFault::OutOfMemory) => World::new(alloc, code, 2).ok(),
        Err(_) => None,
    }
}

/// Whether a world that was refused a step stands where one does that made the steps before it.
fn stands_before<A: Allocator + Copy>(
    alloc: A,
    code: &Code<A>,
    world: &World<A>,
    steps: &[u32],
) -> bool {
    match new_world(alloc, code) {
        Some(mut beside) => beside.run(steps).is_ok() && are_alike(world, &beside),
        None => false,
    }
}

/// Makes the rest of the steps, where the one that was not made was refused memory.
fn run_rest<A: Allocator + Copy>(
    alloc: A,
    code: &Code<A>,
    world: &mut World<A>,
    steps: &[u32],
    stop: WorldStop,
) -> bool {
    if stop.number() != 0 {
        return false;
    }
    match steps.split_at_checked(stop.step as usize) {
        Some((made, rest)) => { stands_before(alloc, code, world, made) && world.run(rest).is_ok() }
        None => false,
    }
}

/// Makes these steps.
fn run<A: Allocator + Copy>(alloc: A, code: &Code<A>, world: &mut World<A>, steps: &[u32]) -> bool {
    match world.run(steps) {
        Ok(()) => true,
        Err(stop) => run_rest(alloc, code, world, steps, stop),
    }
}

/// Adds the lock, the words, the accesses and the outputs of a world of two threads.
fn add_world<A: Allocator + Copy>(world: &World<A>, seen: &mut Seen) -> Option<()> {
    if world.threads() != 2 {
        return None;
    }
    let Some(()) = seen.words("world", &[world.lock(), world.accesses()]) else {
        return None;
    };
    let Some(()) = seen.words("world", world.words()) else {
        return None;
    };
    let Some(()) = seen.bytes("world", world.output(0).as_bytes()) else {
        return None;
    };
    seen.bytes("world", world.output(1).as_bytes())
}

/// Adds what these steps lead to.
fn step<A: Allocator + Copy>(
    alloc: A,
    code: &Code<A>,
    steps: &[u32],
    seen: &mut Seen,
) -> Option<()> {
    let Some(mut world) = new_world(alloc, code) else {
        return None;
    };
    if !run(alloc, code, &mut world, steps) || world.trace() != steps {
        return None;
    }
    add_world(&world, seen)
}

/// Adds what a replay of these lines leaves, and what a world does by the same steps.
fn add_lines<A: Allocator + Copy>(
    alloc: A,
    code: &Code<A>,
    lines: &[Line],
    seen: &mut Seen,
) -> Option<()> {
    let Some(report) = replayed_whole(alloc, code, lines) else {
        return None;
    };
    let Some(()) = add_report(&report, seen) else {
        return None;
    };
    step(alloc, code, report.trace.as_slice(), seen)
}

/// Adds the threads of lines that ask for one step each.
fn add_threads(lines: &[Line], seen: &mut Seen) -> Option<()> {
    for line in lines {
        let Some(()) = seen.words("seeded", &[u64::from(line.thread)]) else {
            return None;
        };
    }
    Some(())
}

/// Adds what a schedule leaves, and which threads a seed names.
pub fn make<A: Allocator + Copy>(
    alloc: A,
    code: &Code<A>,
    schedule: &str,
    seen: &mut Seen,
) -> Option<()> {
    let Some(lines) = read(alloc, schedule) else {
        return None;
    };
    let Some(()) = add_lines(alloc, code, lines.as_slice(), seen) else {
        return None;
    };
    match lines_of_seed(alloc) {
        Some(lines) => add_threads(lines.as_slice(), seen),
        None => None,
    }
}
