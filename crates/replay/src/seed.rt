//! Schedules from seeds.

ghost use Rattle.std.specs.Prelude.{◌≡◌, ◌<◌, ◌≤◌, IfOk, IfErr, OnOk, map, ◌%◌};
ghost use Rattle.rand_core.specs.Steps.{first_words};
ghost use Rattle.rand_pcg.specs.Pcg.{pcg32};
ghost use Rattle.replay.specs.Seeds.{generator_of, one_step, IsFaultOfSeed};
ghost use Rattle.replay.specs.declared.line.TheConstants.{MOST_STEPS};

use crate::line::{Line, MOST_STEPS};
use crate::schedule::ScheduleFault;
use rand_core::SeedableRng;
use rand_core::utils::NextWord;
use rand_pcg::Lcg64Xsh32;
use std::alloc::Allocator;

/// The step that a word names.
fn step_of(word: u32, threads: u32) -> Line
    requires { 0 < threads }
    ensures { result ≡ one_step (word % threads) }
{
    Line {
        thread: word % threads,
        count: 1,
        accesses: false,
    }
}

/// One step a line: the thread of each is the next 32-bit word of PCG-XSH-RR 64/32 from this seed, modulo the number of
/// threads. A fault is `TooLong` where there are to be more than 1,048,576 steps.
pub fn seeded<A: Allocator + Copy>(
    alloc: A,
    seed: u64,
    threads: u32,
    steps: u32,
) -> Result<Vec<Line, A>, ScheduleFault>
    requires { 0 < threads }
    ensures few { OnOk result (steps ≤ MOST_STEPS) }
    ensures lines { IfOk result
        (λ v. v.items ≡ map (λ w. one_step (w % threads)) (first_words pcg32 steps (generator_of seed))) }
    ensures fault { IfErr result (λ e. IsFaultOfSeed steps e) }
{
    if steps > MOST_STEPS {
        return Err(ScheduleFault::TooLong);
    }
    let mut generator = Lcg64Xsh32::seed_from_u64(seed);
    let mut found = Vec::new(alloc);
    'steps: for i in 0..steps {
        let word = generator.next_word();
        let Ok(()) = found.push(step_of(word, threads)) else {
            return Err(ScheduleFault::OutOfMemory);
        };
    }
    Ok(found)
}
