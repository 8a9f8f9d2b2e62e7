//! Codes that cancel several levels as one, each of a `worker` with two registers over a variable `x`.

use bytecode::Instr;
use std::alloc::{AllocError, Allocator};

/// How many levels are opened, how many of them are cancelled as one, and whether the lock is kept before that.
#[derive(Clone, Copy)]
pub struct Levels {
    pub depth: u32,
    pub cancelled: u32,
    pub kept: bool,
}

impl Levels {
    /// How many levels are left.
    pub fn levels_left(&self) -> u32 {
        self.depth.saturating_sub(self.cancelled)
    }

    /// The number of instructions up to the cancel.
    pub fn opening(&self) -> u32 {
        let kept = if self.kept { 1 } else { 0 };
        self.depth.saturating_mul(3).saturating_add(kept)
    }

    /// Where a cancel of this level, counted from 1 for the outermost one, goes on: the levels round it are open there.
    fn cancelled_to(&self, level: u32) -> u32 {
        let after = self.opening().saturating_add(1);
        after.saturating_add(self.depth.saturating_sub(level))
    }
}

/// The numbers from 0 to 16, as they are printed.
pub const NUMBERS: [&str; 17] = [
    "0", "1", "2", "3", "4", "5", "6", "7", "8", "9", "10", "11", "12", "13", "14", "15", "16",
];

/// Opens a level, which sets register 1 and x to its number.
fn push_level<A: Allocator>(
    to: &mut Vec<Instr, A>,
    levels: Levels,
    level: u32,
) -> Result<(), AllocError> {
    to.push(Instr::Begin(levels.cancelled_to(level)))?;
    to.push(Instr::Constant(1, u64::from(level)))?;
    to.push(Instr::Write(1, 0))?;
    Ok(())
}

/// Opens all levels, and keeps the lock where it is to be kept.
fn push_levels<A: Allocator>(to: &mut Vec<Instr, A>, levels: Levels) -> Result<(), AllocError> {
    for level in 0..levels.depth {
        push_level(to, levels, level.saturating_add(1))?;
    }
    if levels.kept {
        to.push(Instr::Irrevocable)?;
    }
    Ok(())
}

/// Cancels, commits what a cancel leaves open, and prints register 1.
fn push_rest<A: Allocator>(to: &mut Vec<Instr, A>, levels: Levels) -> Result<(), AllocError> {
    to.push(Instr::CancelOuter(levels.cancelled))?;
    for _ in 1..levels.depth {
        to.push(Instr::Commit)?;
    }
    to.push(Instr::PrintSigned(1))?;
    to.push(Instr::Return)?;
    Ok(())
}

/// The instructions of a worker that cancels several levels as one: each level sets register 1 and x to its number,
/// counted from 1 for the outermost one. Behind the cancel, the levels that are left are committed, and register 1 is
/// printed.
pub fn cancels_levels<A: Allocator>(alloc: A, levels: Levels) -> Result<Vec<Instr, A>, AllocError> {
    let mut instructions = Vec::new(alloc);
    push_levels(&mut instructions, levels)?;
    push_rest(&mut instructions, levels)?;
    Ok(instructions)
}
