//! Loads for the reads that a thread makes between its local steps.

ghost use Rattle.std.specs.Prelude.{◌+◌, ◌<◌, ◌^◌, ℕ, []};
ghost use Rattle.bytecode.specs.Code.{Code as Plain, Configuration, effect};
ghost use Rattle.machine.specs.Threads.{Thread as PlainThread};
ghost use Rattle.machine.specs.Answered.{StepsHearing};
ghost use Rattle.machine.specs.Standing.{IsThreadOf};
ghost use Rattle.machine.specs.Loads.{Counted, IsLoad, LoadsNext, MayLoad, after_load};

/// Makes the two accesses of a read at which nothing disturbs a thread.
pub trait Loads {
    /// From one value of this type, for a thread, so many steps lead to another value, for a thread: local ones, and
    /// reads with what was loaded here.
    ghost leads: { Plain → Self → Counted → ℕ → Self → Counted → Type 0 };

    /// From a value of this type, for this thread, so many steps can be made.
    ghost can_step: { Plain → Self → Counted → ℕ → Type 0 };

    /// Loads the cell's word, and then the lock's value.
    fn load(&mut self, cell: u32) -> (u64, u64)
        requires { MayLoad leads can_step self.old cell }
        ensures word { result.0 < 2 ^ 64 }
        ensures count { (code : Plain) → (s : Self) → (from : Counted) → (n : ℕ) → (m : ℕ) → (at : Counted)
            → IsLoad leads can_step code s from n m self.old at cell → at.accesses + 2 < 2 ^ 64 }
        ensures leads { (code : Plain) → (s : Self) → (from : Counted) → (n : ℕ) → (at : Counted)
            → leads code s from n self.old at → LoadsNext code at.thread cell
            → IsThreadOf code (after_load code at result.0 result.1).thread
            → leads code s from (n + 2) self.new (after_load code at result.0 result.1) };

    /// The prover learns here that no step leads nowhere; it does nothing.
    fn stays(&self)
        ensures { (code : Plain) → (from : Counted) → leads code self.now from 0 self.now from };

    /// The prover learns here that local steps lead on; it does nothing.
    fn goes_on(&self)
        ensures { (code : Plain) → (s : Self) → (from : Counted) → (n : ℕ) → (at : Counted) → (k : ℕ)
            → (next : PlainThread Configuration) → leads code s from n self.now at
            → StepsHearing (effect code) at.thread k [] next → IsThreadOf code next
            → leads code s from (n + k) self.now (record { thread = next; accesses = at.accesses }) };
}
