//! Open transactions.

ghost use Rattle.std.specs.Prelude.{◌≡◌, ◌∷◌, ◌-◌, ◌<◌, ◌≤◌, [], List, ℕ, length, drop, IfOk, IfSome, IfNone, OnOk};
ghost use Rattle.std.specs.Prelude.{OnErr, slice_index, slice_set};
ghost use Rattle.frames.specs.Open.{saved_in};
ghost use Rattle.atomic_code.specs.inner.Making.{begun_in, inner_of, saved_by, transaction_of, with_memory};

use frames::Frames;
use std::alloc::{AllocError, Allocator};

/// What a begin keeps: the registers of the frame on top, the number of frames, its place, and the memory that it
/// found.
#[derive(Drop)]
pub(crate) struct OpenBegin<A: Allocator> {
    pub registers: Vec<u64, A>,
    pub frames: usize,
    pub place: u32,
    pub found: Vec<u64, A>,
}

/// An open outermost transaction, with those inside it in the order of their begins. It keeps the lock once it was made
/// irrevocable.
#[derive(Drop)]
pub(crate) struct Open<A: Allocator> {
    pub outermost: OpenBegin<A>,
    pub memory: Vec<u64, A>,
    pub inner: Vec<OpenBegin<A>, A>,
    pub kept: bool,
}

/// What a begin keeps that stands at the place, and finds this memory.
fn save_begin<A: Allocator + Copy>(
    alloc: A,
    frames: &Frames<A>,
    found: &[u64],
) -> Result<OpenBegin<A>, AllocError>
    requires { length frames.now.configuration.frames < 64 }
    ensures saved { IfOk result (λ b. saved_by b ≡ saved_in frames.now.configuration) }
    ensures found { IfOk result (λ b. b.found.items ≡ found.now) }
{
    let registers = Vec::from_slice(alloc, frames.registers())?;
    let found = Vec::from_slice(alloc, found)?;
    Ok(OpenBegin {
        registers,
        frames: frames.frames(),
        place: frames.place(),
        found,
    })
}

/// An outermost transaction that begins at the place, and finds this memory.
pub(crate) fn open_outermost<A: Allocator + Copy>(
    alloc: A,
    frames: &Frames<A>,
    found: &[u64],
) -> Result<Open<A>, AllocError>
    requires { length frames.now.configuration.frames < 64 }
    ensures { IfOk result (λ o. transaction_of o ≡ begun_in frames.now.configuration found.now) }
{
    let outermost = save_begin(alloc, frames, found)?;
    let memory = Vec::from_slice(alloc, found)?;
    Ok(Open {
        outermost,
        memory,
        inner: Vec::new(alloc),
        kept: false,
    })
}

/// An inner transaction that begins at the place.
pub(crate) fn open_inner<A: Allocator + Copy>(
    alloc: A,
    frames: &Frames<A>,
    transaction: &mut Open<A>,
) -> Result<(), AllocError>
    requires { length frames.now.configuration.frames < 64 }
    ensures ok { OnOk result (transaction_of transaction.new
        ≡ with_memory (transaction_of transaction.old) (transaction_of transaction.old).mem
        (record { cancelled = saved_in frames.now.configuration; mem = (transaction_of transaction.old).mem }
        ∷ (transaction_of transaction.old).inner)) }
    ensures err { OnErr result (transaction_of transaction.new ≡ transaction_of transaction.old) }
{
    transaction.inner.reserve(1)?;
    let inner = save_begin(alloc, frames, transaction.memory.as_slice())?;
    transaction.inner.push_reserved(inner);
    Ok(())
}

/// Closes the innermost inner transaction, if there is one: what its begin saved.
pub(crate) fn close_inner<A: Allocator>(transaction: &mut Open<A>) -> Option<OpenBegin<A>>
    ensures some { IfSome result (λ b. transaction_of transaction.old
        ≡ with_memory (transaction_of transaction.new) (transaction_of transaction.new).mem
        (inner_of b ∷ (transaction_of transaction.new).inner)) }
    ensures none { IfNone result ((transaction_of transaction.old).inner ≡ []) }
    ensures same { IfNone result (transaction_of transaction.new ≡ transaction_of transaction.old) }
{
    transaction.inner.pop()
}

/// Closes so many inner transactions, the innermost ones.
fn close_inside<A: Allocator>(transaction: &mut Open<A>, count: usize)
    requires { count ≤ length (transaction_of transaction.old).inner }
    ensures { transaction_of transaction.new ≡ with_memory (transaction_of transaction.old)
        (transaction_of transaction.old).mem (drop count (transaction_of transaction.old).inner) }
{
    let left = transaction.inner.len() - count;
    transaction.inner.truncate(left);
}

/// Closes so many inner transactions, the innermost ones, if there are as many: what the begin of the outermost of
/// these saved.
pub(crate) fn close_several<A: Allocator>(
    transaction: &mut Open<A>,
    levels: u32,
) -> Option<OpenBegin<A>>
    ensures some { IfSome result
        (λ b. with_memory (transaction_of transaction.old) (transaction_of transaction.old).mem
        (drop (levels - 1) (transaction_of transaction.old).inner)
        ≡ with_memory (transaction_of transaction.new) (transaction_of transaction.new).mem
        (inner_of b ∷ (transaction_of transaction.new).inner)) }
    ensures none { IfNone result (drop (levels - 1) (transaction_of transaction.old).inner ≡ []) }
    ensures same { IfNone result (transaction_of transaction.new ≡ transaction_of transaction.old) }
{
    let inside = (levels as usize).saturating_sub(1);
    if transaction.inner.len() <= inside {
        return None;
    }
    close_inside(transaction, inside);
    close_inner(transaction)
}

/// The word of a cell.
pub(crate) fn word_in<A: Allocator>(transaction: &Open<A>, cell: u32) -> u64
    requires { cell < length (transaction_of transaction.now).mem }
    ensures { result ≡ slice_index (transaction_of transaction.now).mem cell }
{
    transaction.memory[cell as usize]
}

/// Sets the word of a cell.
pub(crate) fn set_word<A: Allocator>(transaction: &mut Open<A>, cell: u32, word: u64)
    requires { cell < length (transaction_of transaction.old).mem }
    ensures { transaction_of transaction.new ≡ with_memory (transaction_of transaction.old)
        (slice_set (transaction_of transaction.old).mem cell word) (transaction_of transaction.old).inner }
{
    transaction.memory[cell as usize] = word;
}
