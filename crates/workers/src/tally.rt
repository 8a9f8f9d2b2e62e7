//! What a worker counts of its thread's attempts, so that people see how often threads get in each other's way.

use frames::Doing;
use machine::Event;
use norec_core::Answer;

/// Counts of attempts at outermost transactions. No contract speaks of them.
#[derive(Clone, Copy, PartialEq, Eq)]
pub struct Tally {
    /// Attempts that were begun.
    pub begun: u64,
    /// Attempts that were dropped, each to be begun anew.
    pub dropped: u64,
    /// Loads of the lock, by a begin or by validation, that found it taken, each to be made again.
    pub retried: u64,
    /// Accesses of validation that compared an entry, or confirmed the lock behind the last one.
    pub compared: u64,
}

/// A count of one more. No worker makes 2 ^ 64 steps, so it never wraps.
#[inline(always)]
fn one_more(count: u64) -> u64 {
    count.wrapping_add(1)
}

impl Tally {
    pub(crate) fn new() -> Tally {
        Tally {
            begun: 0,
            dropped: 0,
            retried: 0,
            compared: 0,
        }
    }

    /// An outermost begin has loaded the lock.
    #[inline(always)]
    pub(crate) fn count_begin(&mut self, lock: u64) {
        if lock % 2 == 0 {
            self.begun = one_more(self.begun);
        } else {
            self.retried = one_more(self.retried);
        }
    }

    /// Validation that waits has loaded the lock.
    #[inline(always)]
    pub(crate) fn count_wait(&mut self, lock: u64) {
        if lock % 2 == 1 {
            self.retried = one_more(self.retried);
        }
    }

    /// Validation has made so many accesses.
    #[inline(always)]
    pub(crate) fn count_compared(&mut self, accesses: u64) {
        self.compared = self.compared.wrapping_add(accesses);
    }

    #[inline(always)]
    pub(crate) fn count_drop(&mut self) {
        self.dropped = one_more(self.dropped);
    }

    /// A step was made: what was to be done in it, whether validation waited in it, its answer, and what happened. Of
    /// begins the outermost alone makes an access.
    pub(crate) fn count_step(&mut self, doing: Doing, waits: bool, answer: Answer, event: Event) {
        match (doing, answer) {
            (Doing::Begin(_), Answer::Value(lock)) => self.count_begin(lock),
            (_, Answer::Value(lock)) => {
                if waits {
                    self.count_wait(lock);
                }
            }
            _ => {}
        }
        if event == Event::Abort {
            self.count_drop();
        }
    }
}
