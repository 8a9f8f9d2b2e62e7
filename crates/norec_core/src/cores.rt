//! The core of a thread: an operation's step is prepared, then told the answer to its access.

ghost use Rattle.std.specs.Prelude.{◌≡◌, ◌≢◌, ◌↔◌, ◌+◌, ◌^◌, ◌<◌, ℕ, true, false, None, Some, IsTrue, IsSome};
ghost use Rattle.std.specs.Prelude.{IsSomeAnd, IfNone, IfOk, IfSome, OnOk, OnErr, OnSome, length};
ghost use Rattle.norec_core.specs.Accesses.{stops};
ghost use Rattle.norec_core.specs.Phases.{core_access, core_step};
ghost use Rattle.norec_core.specs.Cores.{CommitsLocally, ComparesWith, IsAnswered, IsAskedAgain, IsComparing};
ghost use Rattle.norec_core.specs.Cores.{IsDoneLocally, IsDropped, IsStoring, IsUnlocked, IsWaiting, LoadsBoth};
ghost use Rattle.norec_core.specs.Cores.{core_step_with};
ghost use Rattle.norec_core.specs.Cores.{stepped_twice, is_kept, has_lock, MayWantRoom};
ghost use Rattle.norec_core.specs.declared.step.Answer.{Answer as Reply};
ghost use Rattle.norec_core.specs.declared.step.Op.{Op as Operation};
ghost use Rattle.norec_core.specs.declared.step.Answer.TheVariants.{Value};

use super::step::{Access, Answer, Op, OpOutcome, ReadStep, Stop};
use super::steps::CoreSteps;
use nesting::Saved;
use std::alloc::{Allocator, Global};
use std::marker::Model;

/// The last even value of the lock: a swap from it would leave no value for the release.
const LAST_SNAPSHOT: u64 = u64::MAX - 1;

/// The attempt of one thread, if one is under way.
///
/// Each step is made in two calls, with the step's one access to the lock or the words between them: `prepare` names
/// the access and makes all room that the step needs, `told` takes the answer, and neither fails nor takes memory. An
/// operation is prepared again until it is done or the attempt is dropped.
#[derive(Drop)]
pub struct Core<A: Allocator = Global> {
    steps: CoreSteps<A>,
    /// The operation that was prepared last, and whether its step is still to be told.
    op: Op,
    is_asked: bool,
}

impl<A: Allocator> Model for Core<A> {
    ghost use Rattle.norec_core.specs.Cores.{CoreState};
    ghost use Rattle.norec_core.specs.inner.Runs.{asked_of, attempt_of, IsReadyFor};

    ghost Value = { CoreState };

    ghost view = { λ c. record {
      attempt = attempt_of c.steps;
      asked = asked_of c.is_asked c.op;
      saved = c.steps.aside;
      read_room = c.steps.read_room;
      write_room = c.steps.write_room;
    } };

    ghost invariant = { λ c. IsReadyFor (asked_of c.is_asked c.op) c.steps };
}

impl<A: Allocator + Copy> Core<A> {
    /// No attempt is under way, and nothing was prepared. It takes no memory yet.
    pub fn new(alloc: A) -> Core<A>
        ensures attempt { result.attempt ≡ None }
        ensures asked { result.asked ≡ None }
    {
        Core {
            steps: CoreSteps::new(alloc),
            op: Op::Release,
            is_asked: false,
        }
    }

    /// Prepares the next step of an operation, and names its access. A begin saves these registers, this number of
    /// frames and this place, which counts instructions; other operations do not look at them.
    ///
    /// An error leaves all as it was: `OutOfMemory` where room was refused, for a begin, or for a read or a write whose
    /// log has none, and never under validation; `SequenceUsedUp` where the step would swap the lock from its last even
    /// value.
    #[inline(always)]
    pub fn prepare(
        &mut self,
        op: Op,
        registers: &[u64],
        frames: usize,
        place: u32,
    ) -> Result<Access, Stop>
        ensures access { IfOk result (λ access. access ≡ core_access self.old.attempt op) }
        ensures asked { OnOk result (self.new.asked ≡ Some op) }
        ensures saved { op ≡ Op.Begin
            → OnOk result (self.new.saved ≡ record { registers = registers.now; frames = frames; place = place }) }
        ensures same { op ≢ Op.Begin → self.new.saved ≡ self.old.saved }
        ensures attempt { self.new.attempt ≡ self.old.attempt }
        ensures err { OnErr result ((self.new.asked ≡ self.old.asked) × (self.new.saved ≡ self.old.saved)) }
        ensures used_up { (result ≡ Err Stop.SequenceUsedUp) ↔ (stops (core_access self.old.attempt op) ≡ true) }
        ensures full { result ≡ Err Stop.OutOfMemory
            → MayWantRoom self.old.read_room self.old.write_room self.old.attempt op }
    {
        let access = self.steps.access(op);
        if let Access::Swap(LAST_SNAPSHOT) = access {
            return Err(Stop::SequenceUsedUp);
        }
        if self.steps.make_room(op, registers, frames, place).is_err() {
            return Err(Stop::OutOfMemory);
        }
        self.op = op;
        self.is_asked = true;
        Ok(access)
    }

    /// Makes the step that was prepared, with the answer to its access. It takes no memory.
    pub fn told(&mut self, answer: Answer) -> OpOutcome
        requires { IsAnswered self.old answer }
        ensures attempt { self.new.attempt ≡ (core_step_with self.old answer).attempt }
        ensures outcome { result ≡ (core_step_with self.old answer).outcome }
        ensures back { IfSome (core_step_with self.old answer).back (λ s. self.new.saved ≡ s) }
        ensures asked { self.new.asked ≡ None }
    {
        if self.is_asked {
            self.told_as(self.op, answer)
        } else {
            OpOutcome::Going
        }
    }

    /// `told`, by the operation that was prepared.
    #[inline(always)]
    pub fn told_as(&mut self, op: Op, answer: Answer) -> OpOutcome
        requires asked { self.old.asked ≡ Some op }
        requires answered { IsAnswered self.old answer }
        ensures attempt { self.new.attempt ≡ (core_step_with self.old answer).attempt }
        ensures outcome { result ≡ (core_step_with self.old answer).outcome }
        ensures back { IfSome (core_step_with self.old answer).back (λ s. self.new.saved ≡ s) }
        ensures asked { self.new.asked ≡ None }
    {
        self.is_asked = false;
        self.steps.told(op, answer)
    }

    /// Makes the step of a read of this cell whose word the write log has, where the attempt stands at an operation
    /// without the lock, or prepares both steps of one that loads the cell's word and then the lock. Where the room for
    /// the read's entry is refused it does neither.
    #[inline(always)]
    pub fn read(&mut self, cell: u32) -> ReadStep
        ensures written { (word : ℕ) → result ≡ ReadStep.Written word
            → IsDoneLocally self.old (Op.Read cell) (OpOutcome.Read word) self.new }
        ensures loads { result ≡ ReadStep.Loads → IsSomeAnd self.old.attempt (λ a. LoadsBoth a cell) }
        ensures room { result ≡ ReadStep.Loads → 0 < self.new.read_room }
        ensures full { result ≡ ReadStep.Other → IsSomeAnd self.old.attempt (λ a. IsUnlocked a)
            → self.old.read_room ≡ 0 }
        ensures attempt { self.new.attempt ≡ self.old.attempt }
    {
        match self.steps.reading(cell) {
            ReadStep::Written(word) => {
                self.is_asked = false;
                ReadStep::Written(word)
            }
            ReadStep::Loads if self.steps.make_read_room() => ReadStep::Loads,
            _ => ReadStep::Other,
        }
    }

    /// Makes both steps of a read that were prepared, with the word and the lock's value that were loaded. It takes no
    /// memory.
    #[inline(always)]
    pub fn take_read(&mut self, cell: u32, word: u64, lock: u64) -> OpOutcome
        requires loads { IsSomeAnd self.old.attempt (λ a. LoadsBoth a cell) }
        requires room { 0 < self.old.read_room }
        ensures attempt { self.new.attempt ≡ (stepped_twice self.old (Op.Read cell) (Value word) (Value lock)).attempt }
        ensures outcome { result ≡ (stepped_twice self.old (Op.Read cell) (Value word) (Value lock)).outcome }
        ensures asked { self.new.asked ≡ None }
    {
        self.is_asked = false;
        self.steps.take_read(cell, word, lock)
    }

    /// Makes the step of a write, where the attempt stands at an operation without the lock: whether it did. It makes
    /// the room that the write needs; where that is refused nothing changes.
    #[inline(always)]
    pub fn write(&mut self, cell: u32, word: u64) -> bool
        ensures done { result ≡ true → IsDoneLocally self.old (Op.Write cell word) OpOutcome.Done self.new }
        ensures not_done { result ≡ false → self.new.attempt ≡ self.old.attempt }
        ensures full { result ≡ false → IsSomeAnd self.old.attempt (λ a. IsUnlocked a) → self.old.write_room ≡ 0 }
    {
        if !self.steps.is_plain() || !self.steps.make_write_room() {
            return false;
        }
        self.is_asked = false;
        self.steps.write(cell, word);
        true
    }

    /// Makes the step of a commit that makes no access and has not the lock, that of an inner transaction or of one
    /// that wrote nothing: whether it did. It takes no memory.
    #[inline(always)]
    pub fn commit(&mut self) -> bool
        ensures done { result ≡ true → IsDoneLocally self.old Op.Commit OpOutcome.Done self.new }
        ensures not_done { result ≡ false → self.new.attempt ≡ self.old.attempt }
        ensures locally { result ≡ false → IsSomeAnd self.old.attempt (λ a. CommitsLocally a) → ⊥ }
    {
        if !self.steps.is_plain() || !self.steps.commits_locally() {
            return false;
        }
        self.is_asked = false;
        self.steps.commit();
        true
    }

    /// Prepares an outermost begin, which saves these registers, this number of frames and this place: whether it did.
    /// It does not where an attempt is under way, nor where room is refused.
    #[inline(always)]
    pub fn prepare_begin(&mut self, registers: &[u64], frames: usize, place: u32) -> bool
        ensures none { result ≡ true → self.new.attempt ≡ None }
        ensures saved { result ≡ true
            → self.new.saved ≡ record { registers = registers.now; frames = frames; place = place } }
        ensures full { result ≡ false → self.old.attempt ≡ None
            → length self.old.saved.registers < length registers.now }
        ensures attempt { self.new.attempt ≡ self.old.attempt }
    {
        if self.steps.has_begun() {
            return false;
        }
        self.is_asked = false;
        self.steps.set_aside(registers, frames, place)
    }

    /// Makes the step of an outermost begin that was prepared, with the lock's value that was loaded. It takes no
    /// memory.
    #[inline(always)]
    pub fn take_begin(&mut self, lock: u64) -> OpOutcome
        requires { self.old.attempt ≡ None }
        ensures attempt { self.new.attempt ≡ (core_step self.old.saved self.old.attempt Op.Begin (Value lock)).attempt }
        ensures outcome { result ≡ (core_step self.old.saved self.old.attempt Op.Begin (Value lock)).outcome }
        ensures asked { self.new.asked ≡ None }
    {
        self.is_asked = false;
        self.steps.told_begin(Answer::Value(lock))
    }

    /// From which value of the lock the next step of a commit swaps it, where it does; none where that is its last even
    /// value.
    #[inline(always)]
    pub fn swaps_from(&self) -> Option<u64>
        ensures some { IfSome result (λ from. (core_access self.now.attempt Op.Commit ≡ Access.Swap from)
            × (stops (Access.Swap from) ≡ false)) }
        ensures none { IfNone result ((from : ℕ) → core_access self.now.attempt Op.Commit ≡ Access.Swap from
            → stops (Access.Swap from) ≡ true) }
    {
        if !self.steps.is_plain() {
            return None;
        }
        match self.steps.commit_access() {
            Access::Swap(from) => {
                if from == LAST_SNAPSHOT {
                    None
                } else {
                    Some(from)
                }
            }
            _ => None,
        }
    }

    /// Makes the step of a commit that swaps the lock from this value, which was not prepared, with the swap's answer.
    /// It takes no memory.
    #[inline(always)]
    pub fn take_swap(&mut self, from: u64, answer: Answer) -> OpOutcome
        requires swaps { core_access self.old.attempt Op.Commit ≡ Access.Swap from }
        requires goes_on { stops (Access.Swap from) ≡ false }
        ensures attempt { self.new.attempt ≡ (core_step self.old.saved self.old.attempt Op.Commit answer).attempt }
        ensures outcome { result ≡ (core_step self.old.saved self.old.attempt Op.Commit answer).outcome }
        ensures back { IfSome (core_step self.old.saved self.old.attempt Op.Commit answer).back
            (λ s. self.new.saved ≡ s) }
        ensures asked { self.new.asked ≡ None }
    {
        self.is_asked = false;
        self.steps.take_swap(from, answer)
    }

    /// The index in the write log that a commit stores next, where one stores; past the last pair it stores the lock.
    #[inline(always)]
    pub fn storing(&self) -> Option<usize>
        ensures some { IfSome result (λ index. IsSomeAnd self.now.attempt (λ a. IsStoring index a)) }
        ensures none { IfNone result ((index : ℕ) → IsSomeAnd self.now.attempt (λ a. IsStoring index a) → ⊥) }
    {
        self.steps.storing()
    }

    /// The access of the step in which a commit stores a pair or the lock.
    #[inline(always)]
    pub fn store_access(&self, index: usize) -> Access
        requires { IsSomeAnd self.now.attempt (λ a. IsStoring index a) }
        ensures { result ≡ core_access self.now.attempt Op.Commit }
    {
        self.steps.next_store(index)
    }

    /// Makes the step in which a commit stores a pair or the lock, whose access was made. It takes no memory.
    #[inline(always)]
    pub fn take_store(&mut self, index: usize) -> OpOutcome
        requires { IsSomeAnd self.old.attempt (λ a. IsStoring index a) }
        ensures attempt { (answer : Reply)
            → self.new.attempt ≡ (core_step self.old.saved self.old.attempt Op.Commit answer).attempt }
        ensures outcome { (answer : Reply)
            → result ≡ (core_step self.old.saved self.old.attempt Op.Commit answer).outcome }
        ensures asked { self.new.asked ≡ None }
    {
        self.is_asked = false;
        self.steps.take_store(index)
    }

    /// What to go back to, after a step that cancelled or aborted: the thread's state at that begin.
    pub fn saved(&self) -> &Saved<A>
        ensures { result.now ≡ self.now.saved }
    {
        self.steps.aside()
    }

    /// Whether an attempt is under way.
    pub fn has_attempt(&self) -> bool
        ensures { IsTrue result ↔ IsSome self.now.attempt }
    {
        self.steps.has_begun()
    }

    /// Whether an attempt is under way that keeps the lock.
    pub fn is_kept(&self) -> bool
        ensures { result ≡ is_kept self.now.attempt }
    {
        self.steps.has_begun() && self.steps.is_kept()
    }

    /// Whether an attempt is under way that has the lock: it keeps it, or its commit stores.
    pub fn has_lock(&self) -> bool
        ensures { result ≡ has_lock self.now.attempt }
    {
        self.steps.has_begun() && self.steps.has_lock()
    }

    /// Whether validation loads the lock next, until it is even.
    #[inline(always)]
    pub fn is_waiting(&self) -> bool
        ensures waits { result ≡ true → IsSomeAnd self.now.attempt (λ a. IsWaiting a) }
        ensures not_waits { result ≡ false → IsSomeAnd self.now.attempt (λ a. IsWaiting a) → ⊥ }
    {
        self.steps.is_waiting()
    }

    /// Makes the step of validation that loads the lock, with the lock's value that was loaded. It takes no memory.
    #[inline(always)]
    pub fn take_wait(&mut self, lock: u64)
        requires { IsSomeAnd self.old.attempt (λ a. IsWaiting a) }
        ensures step { (op : Operation) → IsAskedAgain self.old (Value lock) op self.new }
        ensures asked { self.new.asked ≡ None }
    {
        self.is_asked = false;
        self.steps.take_wait(lock);
    }

    /// Where validation compares an entry next, or past the last one the lock: at which lock value, and the entry's
    /// index in the read log.
    #[inline(always)]
    pub fn comparing(&self) -> Option<(u64, usize)>
        ensures some { IfSome result (λ at. IsSomeAnd self.now.attempt (λ a. IsComparing at.0 at.1 a)) }
        ensures none { IfNone result ((time index : ℕ) → IsSomeAnd self.now.attempt (λ a. IsComparing time index a)
            → ⊥) }
    {
        self.steps.comparing()
    }

    /// The entry that validation compares next, the cell whose word is loaded and the word that it must have; none past
    /// the last entry, where the lock is loaded.
    #[inline(always)]
    pub fn entry(&self, time: u64, index: usize) -> Option<(u32, u64)>
        requires { IsSomeAnd self.now.attempt (λ a. IsComparing time index a) }
        ensures entry { IsSomeAnd self.now.attempt (λ a. ComparesWith time index result a) }
        ensures next { OnSome result (index + 1 < 2 ^ 64) }
    {
        // The prover names by it the lock value.
        let _time = time;
        self.steps.entry(index)
    }

    /// Makes the step that compares this entry, where its word was loaded again: validation compares the one behind it
    /// next. It takes no memory.
    #[inline(always)]
    pub fn take_equal(&mut self, time: u64, index: usize, entry: (u32, u64))
        requires entry { IsSomeAnd self.old.attempt (λ a. ComparesWith time index (Some entry) a) }
        requires next { index + 1 < 2 ^ 64 }
        ensures step { (op : Operation) → IsAskedAgain self.old (Value entry.1) op self.new }
        ensures next { IsSomeAnd self.new.attempt (λ a. IsComparing time (index + 1) a) }
        ensures asked { self.new.asked ≡ None }
    {
        // The prover names by it the word.
        let _entry = entry;
        self.is_asked = false;
        self.steps.take_equal(time, index);
    }

    /// Makes the step that compares this entry, where another word was loaded: the attempt is dropped. It takes no
    /// memory.
    #[inline(always)]
    pub fn take_unequal(&mut self, time: u64, index: usize, entry: (u32, u64), word: u64)
        requires entry { IsSomeAnd self.old.attempt (λ a. ComparesWith time index (Some entry) a) }
        requires differs { word ≢ entry.1 }
        ensures step { (op : Operation) → IsDropped self.old (Value word) op self.new }
        ensures asked { self.new.asked ≡ None }
    {
        // The prover names by them the entry and the word.
        let _compared = (time, index, entry, word);
        self.is_asked = false;
        self.steps.take_unequal();
    }

    /// Makes the step of validation past the last entry, with the lock's value that was loaded: where it is the one at
    /// which validation began it is the new snapshot, else validation begins again. It takes no memory.
    #[inline(always)]
    pub fn take_validation(&mut self, time: u64, index: usize, lock: u64)
        requires { IsSomeAnd self.old.attempt (λ a. ComparesWith time index None a) }
        ensures step { (op : Operation) → IsAskedAgain self.old (Value lock) op self.new }
        ensures asked { self.new.asked ≡ None }
    {
        self.is_asked = false;
        self.steps.take_validation(time, index, lock);
    }
}
