//! What a begin saves.

ghost use Rattle.std.specs.Prelude.{◌≡◌, ◌<◌, ◌≤◌, [], OnOk, OnErr, length, vec_capacity, vec_len};

use std::alloc::{AllocError, Allocator, Global};
use std::marker::Model;

/// What a begin saves of its thread: the registers of the frame on top, the number of frames, and the begin's place,
/// which counts instructions.
#[derive(Drop)]
pub struct Saved<A: Allocator = Global> {
    registers: Vec<u64, A>,
    frames: usize,
    place: u32,
}

impl<A: Allocator> Model for Saved<A> {
    ghost use Rattle.nesting.specs.Begins.{Saved as SavedState};

    ghost Value = { SavedState };

    ghost view = { λ s. record { registers = s.registers.items; frames = s.frames; place = s.place } };
}

/// Puts these registers in place of those that were there. It takes no memory.
#[inline(never)]
fn refill<A: Allocator>(registers: &mut Vec<u64, A>, from: &[u64])
    requires { length from.now ≤ vec_capacity registers.old }
    ensures { registers.new.items ≡ from.now }
{
    registers.clear();
    for register in from {
        registers.push_reserved(*register);
    }
}

/// Puts these registers in place of those that were there, with more room where they need it. The error comes only
/// where there is none and the allocator refuses it.
#[inline(never)]
fn regrow<A: Allocator>(registers: &mut Vec<u64, A>, from: &[u64]) -> Result<(), AllocError>
    ensures ok { OnOk result (registers.new.items ≡ from.now) }
    ensures err { OnErr result (registers.new.items ≡ registers.old.items) }
    ensures full { OnErr result (vec_len registers.old < length from.now) }
{
    if registers.capacity() < from.len() {
        let more = from.len().saturating_sub(registers.len());
        registers.reserve(more)?;
    }
    refill(registers, from);
    Ok(())
}

impl<A: Allocator + Copy> Saved<A> {
    /// No registers, no frames, place 0. It takes no memory yet.
    pub(crate) fn new(alloc: A) -> Saved<A> {
        Saved {
            registers: Vec::new(alloc),
            frames: 0,
            place: 0,
        }
    }

    /// Saves these in place of what was saved. The error comes only where there are more registers than were saved, and
    /// the allocator refuses them room.
    #[inline(always)]
    pub(crate) fn save(
        &mut self,
        registers: &[u64],
        frames: usize,
        place: u32,
    ) -> Result<(), AllocError>
        ensures ok { OnOk result (self.new ≡ record { registers = registers.now; frames = frames; place = place }) }
        ensures err { OnErr result (self.new ≡ self.old) }
        ensures full { OnErr result (length self.old.registers < length registers.now) }
    {
        // A thread mostly saves as many registers as it saved before.
        if self.registers.len() == registers.len() {
            self.registers.as_mut_slice().copy_from_slice(registers);
        } else {
            regrow(&mut self.registers, registers)?;
        }
        self.frames = frames;
        self.place = place;
        Ok(())
    }

    /// The registers of the frame on top.
    pub fn registers(&self) -> &[u64]
        ensures { result.now ≡ self.now.registers }
    {
        self.registers.as_slice()
    }

    /// The number of frames.
    pub fn frames(&self) -> usize
        ensures { result ≡ self.now.frames }
    {
        self.frames
    }

    /// The place of the begin.
    pub fn place(&self) -> u32
        ensures { result ≡ self.now.place }
    {
        self.place
    }
}
