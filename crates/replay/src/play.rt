//! Replays: the steps that a schedule names, made one after another.

ghost use Rattle.std.specs.Prelude.{◌≡◌, ◌+◌, ◌<◌, ◌≤◌, ◌⊎◌, ◌↔◌, ◌∷◌, ◌++◌, [], true, IfOk, IfErr, OnOk, Some};
ghost use Rattle.std.specs.Prelude.{if◌then◌else◌, length, slice_get};
ghost use Rattle.world.specs.Simulations.{IsExplained, further, world_of};
ghost use Rattle.world.specs.inner.Costs.{cost_at};
ghost use Rattle.replay.specs.Replays.{IsReplay, events_of, is_cut_off as is_cut_off_spec, is_quiet as is_quiet_spec};
ghost use Rattle.replay.specs.Replays.{simulation_after};
ghost use Rattle.replay.specs.inner.Playing.{ComesTo, HaltsAt, HaltsIn, Plays};

use crate::line::{Line, MOST_STEPS};
use bytecode::Code;
use machine::Event;
use norec_core::Stop;
use std::alloc::{AllocError, Allocator};
use syntax::thread_end::Status;
use world::{Report, StopReason, World, WorldFault};

/// What happened in which step: the accesses to the lock or the words that all threads had made with it, and its
/// thread.
type Events<A> = Vec<(u64, u32, Event), A>;

/// Why a line was not made to its end.
enum ReplayHalt {
    /// A step was not made.
    Stopped(StopReason),
    /// The growth of the events was refused.
    Refused,
}

/// Whether a line counts accesses and its thread is over.
fn is_cut_off<A: Allocator + Copy>(world: &World<A>, line: Line) -> bool
    requires { line.thread < world.now.threads }
    ensures { result ≡ is_cut_off_spec (world_of world.now) line }
{
    if !line.accesses {
        return false;
    }
    match world.status(line.thread) {
        Status::Running => false,
        Status::Ended => true,
        Status::Trapped(_) => true,
    }
}

fn is_quiet(event: Event) -> bool
    ensures { result ≡ is_quiet_spec event }
{
    match event {
        Event::Quiet => true,
        Event::Commit => false,
        Event::Abort => false,
        Event::Cancel => false,
        Event::Trap(_) => false,
    }
}

/// Makes the next step of a thread, and notes what happened in it. It says how many accesses the step made.
fn step<A: Allocator + Copy>(
    world: &mut World<A>,
    events: &mut Events<A>,
    t: u32,
) -> Result<u32, ReplayHalt>
    requires thread { t < world.old.threads }
    requires events { events.old.items ≡ events_of world.old }
    ensures ok { OnOk result (world.new ≡ further world.old (t ∷ [])) }
    ensures events { OnOk result (events.new.items ≡ events_of world.new) }
    ensures cost { IfOk result (λ n. n ≡ cost_at world.old t) }
    ensures halt { IfErr result (λ e. HaltsAt t e world.old world.new events.new.items) }
    ensures explained { IsExplained world.new }
{
    let before = world.accesses();
    let event = match world.step(t) {
        Ok(event) => event,
        Err(Stop::OutOfMemory) => return Err(ReplayHalt::Stopped(StopReason::OutOfMemory)),
        Err(Stop::SequenceUsedUp) => return Err(ReplayHalt::Stopped(StopReason::SequenceUsedUp)),
    };
    let accesses = world.accesses();
    let made = (accesses - before) as u32;
    if is_quiet(event) {
        return Ok(made);
    }
    match events.push((accesses, t, event)) {
        Ok(()) => Ok(made),
        Err(_) => Err(ReplayHalt::Refused),
    }
}

/// What a step takes of a line's count, where it made so many accesses.
fn spent_count(line: Line, made: u32) -> u32
    ensures { result ≡ (if line.accesses then made else 1) }
{
    if line.accesses { made } else { 1 }
}

/// Makes the steps of a line, for which there is room for so many. It says for how many there still is.
fn play<A: Allocator + Copy>(
    world: &mut World<A>,
    events: &mut Events<A>,
    line: Line,
    room: u32,
) -> Result<u32, ReplayHalt>
    requires events { events.old.items ≡ events_of world.old }
    ensures plays { IfOk result (λ left. Plays line room left world.old world.new) }
    ensures events { OnOk result (events.new.items ≡ events_of world.new) }
    ensures halt { IfErr result (λ e. HaltsIn line room e world.old world.new events.new.items) }
{
    let threads = world.threads();
    let mut count = line.count;
    let mut left = room;
    'steps: while left > 0 {
        if count == 0 {
            return Ok(left);
        }
        if line.thread >= threads {
            return Err(ReplayHalt::Stopped(StopReason::Stranger));
        }
        if is_cut_off(world, line) {
            return Ok(left);
        }
        let made = match step(world, events, line.thread) {
            Ok(made) => made,
            Err(halt) => return Err(halt),
        };
        count -= spent_count(line, made);
        left -= 1;
    }
    Ok(left)
}

fn line_at(lines: &[Line], at: usize) -> Line
    requires { at < length lines.now }
    ensures { slice_get lines.now at ≡ Some result }
{
    lines[at]
}

/// Makes the steps that lines name, one after another, up to the first one that is not made: that one's thread, and
/// why. The error comes only where the growth of the events is refused.
fn play_all<A: Allocator + Copy>(
    world: &mut World<A>,
    events: &mut Events<A>,
    lines: &[Line],
) -> Result<Option<(u32, StopReason)>, AllocError>
    requires first { world.old ≡ simulation_after world.old.code world.old.threads [] }
    requires events { events.old.items ≡ events_of world.old }
    ensures ends { IfOk result (λ stop. ComesTo world.old.code world.old.threads lines.now stop world.new) }
    ensures events { OnOk result (events.new.items ≡ events_of world.new) }
{
    let mut room = MOST_STEPS;
    'lines: for at in 0..lines.len() {
        let line = line_at(lines, at);
        match play(world, events, line, room) {
            Ok(left) => room = left,
            Err(ReplayHalt::Refused) => return Err(AllocError),
            Err(ReplayHalt::Stopped(reason)) => return Ok(Some((line.thread, reason))),
        }
    }
    Ok(None)
}

/// Makes the steps that lines name in a world that has made none, and reports what they leave.
fn report_played<A: Allocator + Copy>(
    alloc: A,
    world: &mut World<A>,
    lines: &[Line],
) -> Result<Report<A>, AllocError>
    requires first { world.old ≡ simulation_after world.old.code world.old.threads [] }
    ensures { IfOk result (λ r. IsReplay world.old.code world.old.threads lines.now r) }
{
    let mut events = Vec::new(alloc);
    let stop = play_all(world, &mut events, lines)?;
    // The prover learns here that the world is explained.
    let _threads = world.threads();
    let mut report = world.report_with(alloc, stop)?;
    report.events = events;
    Ok(report)
}

/// Makes the steps that the lines of a schedule name, one after another, with so many threads of the code, and reports
/// what they leave. It ends where all are made, after 1,048,576 steps, or at the first step that is not made: that one
/// stands in the report. `WrongThreads` comes exactly where the number of threads is not 1 to 64, and `OutOfMemory`
/// where the memory of the world, of the events or of the report was refused.
pub fn replay<A: Allocator + Copy>(
    alloc: A,
    code: &Code<A>,
    threads: u32,
    lines: &[Line],
) -> Result<Report<A>, WorldFault>
    ensures wrong { (result ≡ Err WorldFault.WrongThreads) ↔ ((threads ≡ 0) ⊎ (64 < threads)) }
    ensures report { IfOk result (λ r. IsReplay code.now threads lines.now r) }
{
    let mut world = match World::new(alloc, code, threads) {
        Ok(world) => world,
        Err(why) => return Err(why),
    };
    match report_played(alloc, &mut world, lines) {
        Ok(report) => Ok(report),
        Err(_) => Err(WorldFault::OutOfMemory),
    }
}
