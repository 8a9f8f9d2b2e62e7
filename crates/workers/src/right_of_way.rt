//! How workers wait for each other. Waiting is no step of the machine, and no contract speaks of it.
//!
//! A commit anywhere makes NOrec compare every entry of an open read log again, so a long transaction may starve while
//! other threads commit many short ones. The worker of one that was validated or aborted often claims the right of way:
//! the others then wait before they take the lock, for a bounded time. A transaction that only reads never waits.

use std::hint::spin_loop;
use std::sync::atomic::{AtomicU64, Ordering};
use std::thread::yield_now;

/// After how many tries of a transaction its worker claims the right of way: at most, and at least where its last
/// transactions claimed it too. A validation is one try.
const MOST_PATIENCE: u32 = 64;

const LEAST_PATIENCE: u32 = 4;

/// An abort counts as so many tries.
const ABORT: u32 = 16;

/// How often a worker looks, at most, whether another one still has the right of way: about a millisecond.
const MOST_LOOKS: u64 = 20_000;

/// A worker that waits gives its processor to another thread at each so many looks, since the thread that it waits for
/// may not be running.
const LOOKS: u64 = 128;

/// Gives the processor to another thread.
#[cold]
#[inline(never)]
fn yield_processor() {
    yield_now();
}

/// Waits for a moment, by the number of the look at what another thread has taken.
#[inline(always)]
pub(crate) fn pause(look: u64) {
    if look % LOOKS == LOOKS - 1 {
        yield_processor();
    } else {
        spin_loop();
    }
}

/// The number, plus 1, of the worker that has the right of way, or 0.
#[derive(Drop)]
pub(crate) struct RightOfWay {
    owner: AtomicU64,
}

/// A worker's number, plus 1.
fn name_of(worker: u32) -> u64 {
    u64::from(worker) + 1
}

impl RightOfWay {
    pub(crate) fn new() -> RightOfWay {
        RightOfWay {
            owner: AtomicU64::new(0),
        }
    }

    fn owner(&self) -> u64 {
        self.owner.load(Ordering::SeqCst)
    }

    /// Hands the right of way on if it is still this one's: whether it was.
    fn hand_on(&self, from: u64, to: u64) -> bool {
        if self.owner() != from {
            return false;
        }
        self.owner
            .compare_exchange(from, to, Ordering::SeqCst, Ordering::SeqCst)
            .is_ok()
    }

    /// Gives up the right of way of this worker, if it has it.
    pub(crate) fn give_up(&self, worker: u32) {
        let _had = self.hand_on(name_of(worker), 0);
    }

    /// Before this worker takes the lock: waits if another one has the right of way.
    #[inline(always)]
    pub(crate) fn give_way(&self, worker: u32) {
        let owner = self.owner();
        if owner != 0 {
            self.wait_for(owner, worker);
        }
    }

    /// Waits while another worker has the right of way. A worker that has waited long takes it away, so that the others
    /// wait no longer for a transaction that may not end.
    #[cold]
    #[inline(never)]
    fn wait_for(&self, owner: u64, worker: u32) {
        if owner == name_of(worker) {
            return;
        }
        'looks: for look in 0..MOST_LOOKS {
            if self.owner() != owner {
                return;
            }
            pause(look);
        }
        let _had = self.hand_on(owner, 0);
    }
}

/// How long a worker goes without the right of way.
#[derive(Clone, Copy)]
pub(crate) struct Patience {
    /// Tries of the transaction, since it claimed the right of way if it did.
    tries: u32,
    /// After how many tries a transaction claims the right of way.
    most: u32,
    /// Whether this one has claimed it.
    has_claimed: bool,
    /// Whether its last attempt was aborted.
    is_aborted: bool,
}

impl Patience {
    pub(crate) fn new() -> Patience {
        Patience {
            tries: 0,
            most: MOST_PATIENCE,
            has_claimed: false,
            is_aborted: false,
        }
    }

    /// Whether the transaction has claimed the right of way.
    pub(crate) fn has_claimed(&self) -> bool {
        self.has_claimed
    }

    /// The worker begins an attempt.
    #[inline(always)]
    pub(crate) fn begin(&mut self, right_of_way: &RightOfWay, worker: u32) {
        if self.tries > 0 {
            self.begin_after_tries(right_of_way, worker);
        }
    }

    /// The worker begins an attempt after tries: of the same transaction, if that was aborted. Else it begins a
    /// transaction, and gives up the right of way.
    #[inline(never)]
    fn begin_after_tries(&mut self, right_of_way: &RightOfWay, worker: u32) {
        if self.is_aborted {
            self.is_aborted = false;
            return;
        }
        if self.has_claimed {
            right_of_way.give_up(worker);
            self.most = (self.most / 2).max(LEAST_PATIENCE);
        } else {
            self.most = self.most.saturating_mul(2).min(MOST_PATIENCE);
        }
        self.tries = 0;
        self.has_claimed = false;
    }

    /// The worker's attempt was validated, and continues or is aborted. A transaction that has lost the right of way,
    /// since others waited too long, claims it again only after the most tries that there are.
    pub(crate) fn count(&mut self, continues: bool, right_of_way: &RightOfWay, worker: u32) {
        self.is_aborted = !continues;
        let more = if continues { 1 } else { ABORT };
        self.tries = self.tries.saturating_add(more);
        let most = if self.has_claimed {
            MOST_PATIENCE
        } else {
            self.most
        };
        if self.tries >= most && right_of_way.hand_on(0, name_of(worker)) {
            self.has_claimed = true;
            self.tries = 1;
        }
    }
}
