//! Timelines: what is shown of each step of a world.

ghost use Rattle.std.specs.Prelude.{◌≡◌, ◌∷◌, [], IfSome, OnSome};
ghost use Rattle.world.specs.Simulations.{further};
ghost use Rattle.replay.specs.Replays.{simulation_after, timeline_of};

use bytecode::Code;
use machine::StepShown;
use std::alloc::Allocator;
use world::World;

/// Makes the next step of a thread, and shows it; there is no answer where it cannot be made or shown.
fn show<A: Allocator + Copy>(
    world: &mut World<A>,
    shown: &mut Vec<(u64, u32, StepShown), A>,
    t: u32,
) -> Option<()>
    requires { shown.old.items ≡ timeline_of world.old }
    ensures made { OnSome result (world.new ≡ further world.old (t ∷ [])) }
    ensures shown { OnSome result (shown.new.items ≡ timeline_of world.new) }
{
    if t >= world.threads() {
        return None;
    }
    let Ok(step) = world.step_shown(t) else {
        return None;
    };
    let Ok(()) = shown.push((world.accesses(), t, step)) else {
        return None;
    };
    Some(())
}

/// Makes steps of a world that has made none, and shows each.
fn show_all<A: Allocator + Copy>(
    alloc: A,
    world: &mut World<A>,
    steps: &[u32],
) -> Option<Vec<(u64, u32, StepShown), A>>
    requires first { world.old ≡ simulation_after world.old.code world.old.threads [] }
    ensures { IfSome result (λ v. v.items ≡ timeline_of (simulation_after world.old.code world.old.threads steps.now)) }
{
    let mut shown = Vec::new(alloc);
    'steps: for at in 0..steps.len() {
        show(world, &mut shown, steps[at])?;
    }
    Some(shown)
}

/// Makes these steps of so many threads of the code from their beginnings on, and shows each: how many accesses to the
/// lock or the words all threads had made with it, its thread, and what is shown of that. There is no answer where
/// memory was refused, where the number of threads is not 1 to 64, or where one of the steps cannot be made.
pub fn timeline<A: Allocator + Copy>(
    alloc: A,
    code: &Code<A>,
    threads: u32,
    steps: &[u32],
) -> Option<Vec<(u64, u32, StepShown), A>>
    ensures { IfSome result (λ v. v.items ≡ timeline_of (simulation_after code.now threads steps.now)) }
{
    let Ok(mut world) = World::new(alloc, code, threads) else {
        return None;
    };
    show_all(alloc, &mut world, steps)
}
