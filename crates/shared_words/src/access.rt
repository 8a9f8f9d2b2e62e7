//! One access on the table.

ghost use Rattle.std.specs.Prelude.{◌≡◌, ◌+◌, ◌^◌, ◌<◌, ◌≤◌, false};
ghost use Rattle.bytecode.specs.Valid.{cells_of};
ghost use Rattle.syntax.specs.declared.limits.TheConstants.{MOST_CELLS};
ghost use Rattle.norec_core.specs.Accesses.{stops};
ghost use Rattle.norec_core.specs.declared.step.Access.TheVariants.{LoadLock, LoadWord, Swap, StoreWord, StoreLock};
ghost use Rattle.machine.specs.NamedCells.{IsMakeable};
ghost use Rattle.shared_words.specs.Rule.{IsNext, IsSeatStep, Took};

use crate::rule::{Accessed, Ruled, Setup, View};
use atomic_table::{Seat, Shared};
use norec_core::{Access, Answer};
use std::alloc::Allocator;

/// The words that all seats step on: word 0 is the lock, and the cells follow.
pub type Words<A> = Shared<(), View, Setup<A>, Ruled>;

/// A load of the lock.
#[inline(always)]
pub fn load_lock<A: Allocator>(words: &Words<A>, seat: &mut Seat<(), View>) -> u64
    requires table { (seat.old.table_id ≡ words.now.table_id) × (0 < words.now.table_id.words) }
    requires next { IsNext words.now.key seat.old.me LoadLock }
    ensures seat { (seat.new.table_id ≡ seat.old.table_id) × (seat.new.id ≡ seat.old.id) }
    ensures took { Took seat.old.me result seat.new.me }
{
    words.load::<Accessed>(seat, 0)
}

/// A load of a cell's word.
#[inline(always)]
pub fn load_word<A: Allocator>(words: &Words<A>, seat: &mut Seat<(), View>, cell: usize) -> u64
    requires table { (seat.old.table_id ≡ words.now.table_id) × (cell + 1 < words.now.table_id.words) }
    requires room { words.now.table_id.words < 2 ^ 64 }
    requires next { IsNext words.now.key seat.old.me (LoadWord cell) }
    ensures seat { (seat.new.table_id ≡ seat.old.table_id) × (seat.new.id ≡ seat.old.id) }
    ensures took { Took seat.old.me result seat.new.me }
{
    words.load::<Accessed>(seat, cell + 1)
}

#[inline(always)]
fn swap<A: Allocator>(words: &Words<A>, seat: &mut Seat<(), View>, from: u64) -> u64
    requires table { (seat.old.table_id ≡ words.now.table_id) × (0 < words.now.table_id.words) }
    requires room { from + 1 < 2 ^ 64 }
    requires next { IsNext words.now.key seat.old.me (Swap from) }
    requires goes_on { stops (Swap from) ≡ false }
    ensures seat { (seat.new.table_id ≡ seat.old.table_id) × (seat.new.id ≡ seat.old.id) }
    ensures took { Took seat.old.me result seat.new.me }
{
    words.compare_exchange::<Accessed>(seat, 0, from, from + 1)
}

#[inline(always)]
fn store_word<A: Allocator>(words: &Words<A>, seat: &mut Seat<(), View>, cell: usize, value: u64)
    requires table { (seat.old.table_id ≡ words.now.table_id) × (cell + 1 < words.now.table_id.words) }
    requires room { words.now.table_id.words < 2 ^ 64 }
    requires next { IsNext words.now.key seat.old.me (StoreWord cell value) }
    ensures seat { (seat.new.table_id ≡ seat.old.table_id) × (seat.new.id ≡ seat.old.id) }
    ensures took { Took seat.old.me value seat.new.me }
{
    words.store::<Accessed>(seat, cell + 1, value);
}

#[inline(always)]
fn store_lock<A: Allocator>(words: &Words<A>, seat: &mut Seat<(), View>, value: u64)
    requires table { (seat.old.table_id ≡ words.now.table_id) × (0 < words.now.table_id.words) }
    requires next { IsNext words.now.key seat.old.me (StoreLock value) }
    ensures seat { (seat.new.table_id ≡ seat.old.table_id) × (seat.new.id ≡ seat.old.id) }
    ensures took { Took seat.old.me value seat.new.me }
{
    words.store::<Accessed>(seat, 0, value);
}

/// Makes the next access of the one thread that the seat speaks for, by one atomic step, and gives its answer. A local
/// step is none, and is answered `Done`.
#[inline(always)]
pub fn make<A: Allocator>(words: &Words<A>, seat: &mut Seat<(), View>, access: Access) -> Answer
    requires table { (seat.old.table_id ≡ words.now.table_id)
        × (words.now.table_id.words ≡ cells_of words.now.key.code + 1) }
    requires few { cells_of words.now.key.code ≤ MOST_CELLS }
    requires next { IsNext words.now.key seat.old.me access }
    requires goes_on { stops access ≡ false }
    requires makeable { IsMakeable (cells_of words.now.key.code) access }
    ensures seat { (seat.new.table_id ≡ seat.old.table_id) × (seat.new.id ≡ seat.old.id) }
    ensures made { IsSeatStep access seat.old.me result seat.new.me }
{
    match access {
        Access::Local => Answer::Done,
        Access::LoadLock => Answer::Value(load_lock(words, seat)),
        Access::LoadWord(cell) => Answer::Value(load_word(words, seat, cell as usize)),
        Access::Swap(from) => {
            let found = swap(words, seat, from);
            if found == from {
                Answer::Won
            } else {
                Answer::Lost(found)
            }
        }
        Access::StoreWord(cell, value) => {
            store_word(words, seat, cell as usize, value);
            Answer::Done
        }
        Access::StoreLock(value) => {
            store_lock(words, seat, value);
            Answer::Done
        }
    }
}
