//! Schedules of orders.

ghost use Rattle.std.specs.Prelude.{◌≡◌, ◌⊎◌, ◌↔◌, ◌+◌, ◌<◌, ◌≤◌, ◌++◌, ◌∷◌, List, [], IfOk, map, replicate, All};
ghost use Rattle.bytecode.specs.Code.{effect};
ghost use Rattle.machine.specs.Turns.{AreBegun, AreTurns, IsTurnOf, RestsAfter, Span, steps_in};
ghost use Rattle.world.specs.Simulations.{further, world_of};
ghost use Rattle.replay.specs.Schedules.{counts};
ghost use Rattle.replay.specs.Turns.{AreLinesOfOrder, line_of};
ghost use Rattle.replay.specs.declared.line.TheConstants.{MOST_STEPS};

use crate::line::{Line, MOST_STEPS};
use bytecode::Code;
use norec_core::Stop;
use std::alloc::Allocator;
use syntax::thread_end::Status;
use thiserror::Error;
use world::{World, WorldFault};

/// Why no schedule is made of an order.
#[derive(Clone, Copy, PartialEq, Eq, Debug, Error)]
pub enum TurnsFault {
    /// Memory was refused.
    #[error("out of memory")]
    OutOfMemory,
    /// There are to be 1 to 64 threads.
    #[error("wrong number of threads")]
    WrongThreads,
    /// The order names a thread that there is not.
    #[error("stranger thread")]
    Stranger,
    /// The steps are more than 1,048,576.
    #[error("schedule too long")]
    TooLong,
}

/// Why a step was not made. The lock does not come to its last value in so few steps.
fn fault_of(stop: Stop) -> TurnsFault {
    match stop {
        Stop::OutOfMemory => TurnsFault::OutOfMemory,
        Stop::SequenceUsedUp => TurnsFault::TooLong,
    }
}

/// Makes steps of a thread alone up to where it rests, and so many at most. It says how many it made.
fn come_to_rest<A: Allocator + Copy>(
    world: &mut World<A>,
    t: u32,
    most: u32,
) -> Result<u32, TurnsFault>
    requires { t < world.old.threads }
    ensures made { IfOk result (λ n. (n ≤ most) × (world.new ≡ further world.old (replicate n t))) }
    ensures rests { IfOk result (λ n. RestsAfter (effect world.old.code) (world_of world.old) t n) }
    ensures threads { world.new.threads ≡ world.old.threads }
{
    match world.run_alone(t, most) {
        Ok(made) if world.rests(t) => Ok(made),
        Ok(_) => Err(TurnsFault::TooLong),
        Err(stop) => Err(fault_of(stop)),
    }
}

/// Makes the turn of a thread that rests, in so many steps at most. It says how many it made.
fn take_turn<A: Allocator + Copy>(
    world: &mut World<A>,
    t: u32,
    most: u32,
) -> Result<u32, TurnsFault>
    requires { t < world.old.threads }
    ensures made { IfOk result (λ n. (n ≤ most) × (world.new ≡ further world.old (replicate n t))) }
    ensures turn { IfOk result (λ n. IsTurnOf (effect world.old.code) (world_of world.old) t n) }
    ensures threads { world.new.threads ≡ world.old.threads }
{
    match world.status(t) {
        Status::Running => {}
        Status::Ended => return Ok(0),
        Status::Trapped(_) => return Ok(0),
    }
    if most == 0 {
        return Err(TurnsFault::TooLong);
    }
    match world.step(t) {
        Ok(_) => {
            let more = come_to_rest(world, t, most - 1)?;
            Ok(more + 1)
        }
        Err(stop) => Err(fault_of(stop)),
    }
}

fn line(thread: u32, count: u32) -> Line
    ensures { result ≡ line_of (thread, count) }
{
    Line {
        thread,
        count,
        accesses: false,
    }
}

/// Brings each thread to where it rests, and adds a line for each. It says for how many steps there still is room.
fn begin_all<A: Allocator + Copy>(
    world: &mut World<A>,
    found: &mut Vec<Line, A>,
) -> Result<u32, TurnsFault>
    requires { found.old.items ≡ [] }
    ensures begun { IfOk result (λ room. (spans : List Span) × (found.new.items ≡ map line_of spans)
        × AreBegun (effect world.old.code) (world_of world.old) 0 world.old.threads spans
        × (world.new ≡ further world.old (steps_in spans))) }
    ensures room { IfOk result (λ room. counts found.new.items + room ≡ MOST_STEPS) }
    ensures threads { world.new.threads ≡ world.old.threads }
{
    let mut room = MOST_STEPS;
    'threads: for t in 0..world.threads() {
        let made = come_to_rest(world, t, room)?;
        let Ok(()) = found.push(line(t, made)) else {
            return Err(TurnsFault::OutOfMemory);
        };
        room -= made;
    }
    Ok(room)
}

/// Makes the turns of an order, for which there is room for so many steps, and adds a line for each.
fn take_turns<A: Allocator + Copy>(
    world: &mut World<A>,
    found: &mut Vec<Line, A>,
    order: &[u32],
    room: u32,
) -> Result<(), TurnsFault>
    requires { counts found.old.items + room ≡ MOST_STEPS }
    ensures turns { IfOk result (λ v. (spans : List Span) × (found.new.items ≡ found.old.items ++ map line_of spans)
        × AreTurns (effect world.old.code) (world_of world.old) order.now spans) }
    ensures few { IfOk result (λ v. counts found.new.items ≤ MOST_STEPS) }
    ensures named { IfOk result (λ v. All (λ t. t < world.old.threads) order.now) }
{
    let threads = world.threads();
    let mut left = room;
    'order: for at in 0..order.len() {
        let t = order[at];
        if t >= threads {
            return Err(TurnsFault::Stranger);
        }
        let made = take_turn(world, t, left)?;
        let Ok(()) = found.push(line(t, made)) else {
            return Err(TurnsFault::OutOfMemory);
        };
        left -= made;
    }
    Ok(())
}

/// The schedule of an order: so many threads of the code, each of them alone, come to where they rest before any
/// transaction, and then those that the order names make a whole transaction each, up to where they rest again. A thread
/// that is over makes no step.
///
/// `WrongThreads` comes exactly where the number of threads is not 1 to 64. Else `Stranger` comes only where the order
/// names a thread that there is not; `TooLong` where the threads have not made their turns in 1,048,576 steps, and
/// `OutOfMemory` where memory was refused.
pub fn turns<A: Allocator + Copy>(
    alloc: A,
    code: &Code<A>,
    threads: u32,
    order: &[u32],
) -> Result<Vec<Line, A>, TurnsFault>
    ensures lines { IfOk result (λ v. AreLinesOfOrder code.now threads order.now v.items) }
    ensures few { IfOk result (λ v. counts v.items ≤ MOST_STEPS) }
    ensures named { IfOk result (λ v. All (λ t. t < threads) order.now) }
{
    let mut world = match World::new(alloc, code, threads) {
        Ok(world) => world,
        Err(WorldFault::OutOfMemory) => return Err(TurnsFault::OutOfMemory),
        Err(WorldFault::WrongThreads) => return Err(TurnsFault::WrongThreads),
    };
    let mut found = Vec::new(alloc);
    let room = begin_all(&mut world, &mut found)?;
    take_turns(&mut world, &mut found, order, room)?;
    Ok(found)
}
