//! The turns of an order.

use crate::passage::Source;
use crate::turn::{Details, begin_shown, status_of, turn_shown};
use bytecode::Code;
use containers::Items;
use replay::Line;
use std::alloc::{AllocError, Allocator, Global};
use syntax::thread_end::Status;
use traces::TurnShown;
use world::World;

/// The turns of an order.
#[derive(Drop)]
pub struct Traced<A: Allocator = Global> {
    /// The memory before the first turn.
    pub first: Vec<u64, A>,
    /// What threads do before their first turns, of those that print or terminate there.
    pub begun: Items<TurnShown<A>, A>,
    pub turns: Items<TurnShown<A>, A>,
    /// The details of each turn.
    pub(crate) details: Items<Details<A>, A>,
    /// The memory after the last turn.
    pub last: Vec<u64, A>,
    /// How each thread is after the last turn.
    pub ends: Vec<Status, A>,
}

/// Makes the steps of lines that bring threads to their first transactions, and shows what happens there.
fn begun_of<A: Allocator + Copy>(
    alloc: A,
    world: &mut World<A>,
    lines: &[Line],
) -> Result<Items<TurnShown<A>, A>, AllocError> {
    let mut begun = Items::new(alloc);
    'lines: for line in lines {
        if let Some(turn) = begin_shown(alloc, world, line.thread, line.count)? {
            begun.push(turn)?;
        }
    }
    Ok(begun)
}

/// Makes the turns of lines, and shows each.
fn turns_of<A: Allocator + Copy>(
    alloc: A,
    code: &Code<A>,
    source: Source<'_>,
    world: &mut World<A>,
    lines: &[Line],
) -> Result<(Items<TurnShown<A>, A>, Items<Details<A>, A>), AllocError> {
    let mut turns = Items::new(alloc);
    let mut all = Items::new(alloc);
    'lines: for line in lines {
        let (turn, details) = turn_shown(alloc, code, source, world, line.thread, line.count)?;
        turns.push(turn)?;
        all.push(details)?;
    }
    Ok((turns, all))
}

/// How the threads of a world are.
fn ends_of<A: Allocator + Copy>(alloc: A, world: &World<A>) -> Result<Vec<Status, A>, AllocError> {
    let mut ends = Vec::new(alloc);
    'threads: for t in 0..world.threads() {
        ends.push(status_of(world, t))?;
    }
    Ok(ends)
}

/// Shows the turns of an order of so many threads of a code, by the schedule of the order: a line that brings each
/// thread to its first transaction, and one for each turn. The places are those of the source.
pub fn turns_shown<A: Allocator + Copy>(
    alloc: A,
    code: &Code<A>,
    source: Source<'_>,
    threads: u32,
    lines: &[Line],
) -> Result<Traced<A>, AllocError> {
    let Ok(mut world) = World::new(alloc, code, threads) else {
        return Err(AllocError);
    };
    let (starts, taken) = lines.split_at((threads as usize).min(lines.len()));
    let begun = begun_of(alloc, &mut world, starts)?;
    let first = Vec::from_slice(alloc, world.words())?;
    let (turns, details) = turns_of(alloc, code, source, &mut world, taken)?;
    let last = Vec::from_slice(alloc, world.words())?;
    let ends = ends_of(alloc, &world)?;
    Ok(Traced {
        first,
        begun,
        turns,
        details,
        last,
        ends,
    })
}
