//! Registers laid at the end of those of the frames below.

ghost use Rattle.std.specs.Prelude.{◌≡◌, ◌+◌, ◌<◌, ◌≤◌, ◌++◌, ◌∷◌, [], All, OnOk, map, length, drop, replicate};
ghost use Rattle.std.specs.Prelude.{slice_index, vec_len, vec_capacity};

use std::alloc::{AllocError, Allocator};

/// Lays so many zeros behind the registers. There is room for them.
#[inline(always)]
fn push_zeros<A: Allocator>(registers: &mut Vec<u64, A>, count: usize)
    requires { vec_len registers.old + count ≤ vec_capacity registers.old }
    ensures { registers.new.items ≡ registers.old.items ++ replicate count 0 }
{
    'zeros: for _ in 0..count {
        registers.push_reserved(0);
    }
}

/// How many words lie at least between the registers of two threads that are laid one after another: two of the
/// processor's lines, so that no thread waits for a line in which another one writes.
const APART: usize = 16;

/// The registers of a thread's first frame: the thread's number, and so many zeros. The error comes only where the
/// allocator refuses the memory.
pub(crate) fn lay_first<A: Allocator>(
    registers: &mut Vec<u64, A>,
    thread: u64,
    zeros: usize,
) -> Result<(), AllocError>
    ensures { OnOk result (registers.new.items ≡ registers.old.items ++ thread ∷ replicate zeros 0) }
{
    registers.reserve(zeros.saturating_add(1 + APART))?;
    registers.push_reserved(thread);
    push_zeros(registers, zeros);
    Ok(())
}

/// The values of arguments, which are registers of the frame that begins at `base`. There is room.
#[inline(always)]
fn push_arguments<A: Allocator>(registers: &mut Vec<u64, A>, base: usize, args: &[u32])
    requires room { vec_len registers.old + length args.now ≤ vec_capacity registers.old }
    requires base { base ≤ vec_len registers.old }
    requires there { All (λ r. r < length (drop base registers.old.items)) args.now }
    ensures items { registers.new.items ≡ registers.old.items
        ++ map (λ r. slice_index (drop base registers.old.items) r) args.now }
    ensures capacity { vec_capacity registers.new ≡ vec_capacity registers.old }
{
    'each: for arg in args {
        let value = registers[base + *arg as usize];
        registers.push_reserved(value);
    }
}

/// The registers of a frame that is called: the values of the arguments, and so many zeros. There is room.
#[inline(always)]
pub(crate) fn lay_frame<A: Allocator>(
    registers: &mut Vec<u64, A>,
    base: usize,
    args: &[u32],
    zeros: usize,
)
    requires room { vec_len registers.old + (length args.now + zeros) ≤ vec_capacity registers.old }
    requires base { base ≤ vec_len registers.old }
    requires there { All (λ r. r < length (drop base registers.old.items)) args.now }
    ensures { registers.new.items ≡ registers.old.items
        ++ map (λ r. slice_index (drop base registers.old.items) r) args.now ++ replicate zeros 0 }
{
    push_arguments(registers, base, args);
    push_zeros(registers, zeros);
}

/// The registers that a begin saved. There is room.
pub(crate) fn refill<A: Allocator>(registers: &mut Vec<u64, A>, saved: &[u64])
    requires { vec_len registers.old + length saved.now ≤ vec_capacity registers.old }
    ensures { registers.new.items ≡ registers.old.items ++ saved.now }
{
    'saved: for word in saved {
        registers.push_reserved(*word);
    }
}
