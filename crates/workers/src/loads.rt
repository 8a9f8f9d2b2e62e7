//! A seat as what loads for the reads of its thread.

ghost use Rattle.std.specs.Prelude.{◌≡◌};
ghost use Rattle.workers.specs.inner.Seated.{CanStepSeated, LeadsSeated};

use atomic_table::Seat;
use machine::Loads;
use shared_words::{View, Words, load_lock, load_word};
use std::alloc::Allocator;

/// The seat of a worker, and the words of its hall.
#[derive(Drop)]
pub(crate) struct SeatLoads<'a, A: Allocator> {
    pub words: &'a Words<A>,
    pub seat: &'a mut Seat<(), View>,
}

impl<A: Allocator> Loads for SeatLoads<'_, A> {
    ghost leads = { λ code a from n b at. (b.words.now ≡ a.words.now) × (b.seat.ghost_name ≡ a.seat.ghost_name)
        × (b.seat.now.table_id ≡ a.seat.now.table_id)
        × LeadsSeated a.words.now.key code a.seat.now.me from n b.seat.now.me at };

    ghost can_step = { λ code a from m. CanStepSeated a.words.now.table_id a.words.now.key code a.seat.now.table_id
        a.seat.now.me from m };

    #[inline(always)]
    fn load(&mut self, cell: u32) -> (u64, u64) {
        let word = load_word(self.words, self.seat, cell as usize);
        let lock = load_lock(self.words, self.seat);
        (word, lock)
    }

    #[inline(always)]
    fn stays(&self) {}

    #[inline(always)]
    fn goes_on(&self) {}
}
