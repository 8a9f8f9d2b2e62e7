//! The steps of an attempt, phase by phase: the access of each, and what comes of its answer.

ghost use Rattle.std.specs.Prelude.{◌≡◌, ◌≢◌, ◌+◌, ◌-◌, ◌^◌, ◌<◌, ◌≤◌, ℕ, true, false, None, IfNone, IfSome, OnOk};
ghost use Rattle.std.specs.Prelude.{OnErr, OnSome, drop, length, slice_get};
ghost use Rattle.write_log.specs.Overlay.{with_write, overlay_word};
ghost use Rattle.norec_core.specs.Accesses.{stops};
ghost use Rattle.norec_core.specs.Phases.{core_access, core_step, core_phase, core_operation, core_read, core_commit};
ghost use Rattle.norec_core.specs.Phases.{core_cancel, core_store, core_swap, core_check, core_time, core_compare};
ghost use Rattle.norec_core.specs.Phases.{operation_access, commit_access, entry_access, store_access};
ghost use Rattle.norec_core.specs.Cores.{LoadsBoth, MayLog, MayWantRoom, holds_lock};
ghost use Rattle.norec_core.specs.declared.step.Answer.TheVariants.{Value};
ghost use Rattle.norec_core.specs.declared.step.Phase.TheVariants.{ReadsLock};
ghost use Rattle.norec_core.specs.inner.Runs.{attempt_of, IsStep, IsWritten, GainsRoom, HasRoom, IsPlain, CanRelease};
ghost use Rattle.norec_core.specs.inner.Runs.{SwapsLock};

use super::step::{Access, Answer, Op, OpOutcome, Phase, ReadStep};
use nesting::{Attempt, Saved};
use std::alloc::{AllocError, Allocator};
use std::marker::Model;

/// The attempt of a thread, if one is under way, and where it stands.
#[derive(Drop)]
pub(crate) struct CoreSteps<A: Allocator> {
    logs: Attempt<A>,
    begun: bool,
    /// Whether an attempt stands at an operation without the lock.
    plain: bool,
    first: u64,
    snapshot: u64,
    phase: Phase,
}

impl<A: Allocator> Model for CoreSteps<A> {
    ghost use Rattle.std.specs.Prelude.{◌≡◌, ◌↔◌, ◌%◌, true};
    ghost use Rattle.norec_core.specs.inner.Runs.{Run, attempt_by, IsPlain, IsStanding};

    ghost Value = { Run };

    ghost view = { λ s. record {
      begun = s.begun;
      attempt = attempt_by s.logs s.first s.snapshot s.phase;
      aside = s.logs.aside;
      begin_room = s.logs.begin_room;
      read_room = s.logs.read_room;
      write_room = s.logs.write_room;
    } };

    ghost invariant = { λ s. (s.snapshot % 2 ≡ 0) × IsStanding s.phase s.logs.kept s.snapshot
        × (s.plain ≡ true ↔ IsPlain s.begun s.logs.kept s.phase) };
}

impl<A: Allocator + Copy> CoreSteps<A> {
    /// No attempt is under way. It takes no memory yet.
    pub(crate) fn new(alloc: A) -> CoreSteps<A>
        ensures { result.begun ≡ false }
    {
        CoreSteps {
            logs: Attempt::new(alloc),
            begun: false,
            plain: false,
            first: 0,
            snapshot: 0,
            phase: Phase::AtOperation,
        }
    }

    /// Makes room for what a step of this operation may add, and sets aside what a begin saves.
    #[inline(always)]
    pub(crate) fn make_room(
        &mut self,
        op: Op,
        registers: &[u64],
        frames: usize,
        place: u32,
    ) -> Result<(), AllocError>
        ensures room { OnOk result (HasRoom op self.new) }
        ensures aside { op ≡ Op.Begin
            → OnOk result (self.new.aside ≡ record { registers = registers.now; frames = frames; place = place }) }
        ensures same { op ≢ Op.Begin → self.new.aside ≡ self.old.aside }
        ensures err { OnErr result (self.new.aside ≡ self.old.aside) }
        ensures others { GainsRoom (record self.old { aside = self.new.aside }) self.new }
        ensures full { OnErr result (MayWantRoom self.old.read_room self.old.write_room (attempt_of self.old) op) }
    {
        match op {
            Op::Begin => self.logs.prepare_begin(registers, frames, place),
            Op::Read(_) if self.may_log() => self.logs.prepare_read(),
            Op::Write(_, _) if self.may_log() => self.logs.prepare_write(),
            _ => Ok(()),
        }
    }

    /// Whether an operation under way may yet add to a log.
    #[inline(always)]
    fn may_log(&self) -> bool
        ensures may { result ≡ true → MayLog self.now.attempt.phase }
        ensures may_not { result ≡ false → MayLog self.now.attempt.phase → ⊥ }
    {
        match self.phase {
            Phase::AtOperation => true,
            Phase::ReadsLock(_) => true,
            Phase::ValidatesTime => false,
            Phase::ValidatesEntry(_, _) => false,
            Phase::Stores(_) => false,
        }
    }

    #[inline(always)]
    pub(crate) fn has_begun(&self) -> bool
        ensures { result ≡ self.now.begun }
    {
        self.begun
    }

    #[inline(always)]
    pub(crate) fn is_kept(&self) -> bool
        ensures { result ≡ self.now.attempt.kept }
    {
        self.logs.is_kept()
    }

    pub(crate) fn has_lock(&self) -> bool
        ensures { result ≡ holds_lock self.now.attempt.kept self.now.attempt.phase }
    {
        match self.phase {
            Phase::Stores(_) => true,
            _ => self.logs.is_kept(),
        }
    }

    pub(crate) fn aside(&self) -> &Saved<A>
        ensures { result.now ≡ self.now.aside }
    {
        self.logs.aside()
    }

    /// How a read of this cell is made next, where the attempt stands at an operation without the lock.
    #[inline(always)]
    pub(crate) fn reading(&self, cell: u32) -> ReadStep
        ensures written { (word : ℕ) → result ≡ ReadStep.Written word
            → (self.now.begun ≡ true) × IsWritten self.now.attempt cell word }
        ensures loads { result ≡ ReadStep.Loads → (self.now.begun ≡ true) × LoadsBoth self.now.attempt cell }
        ensures other { result ≡ ReadStep.Other → IsPlain self.now.begun self.now.attempt.kept self.now.attempt.phase
            → ⊥ }
    {
        if !self.plain {
            return ReadStep::Other;
        }
        match self.logs.written_word(cell) {
            Some(word) => ReadStep::Written(word),
            None => ReadStep::Loads,
        }
    }

    /// Makes room for a read's entry: whether there is.
    #[inline(always)]
    pub(crate) fn make_read_room(&mut self) -> bool
        ensures room { result ≡ true → 0 < self.new.read_room }
        ensures full { result ≡ false → self.old.read_room ≡ 0 }
        ensures others { GainsRoom self.old self.new }
    {
        self.logs.prepare_read().is_ok()
    }

    /// Both steps of a read that loads the cell's word and then the lock.
    #[inline(always)]
    pub(crate) fn take_read(&mut self, cell: u32, word: u64, lock: u64) -> OpOutcome
        requires begun { self.old.begun ≡ true }
        requires loads { LoadsBoth self.old.attempt cell }
        requires room { 0 < self.old.read_room }
        ensures { IsStep (core_check (record self.old.attempt { phase = ReadsLock word }) (Op.Read cell) word
            (Value lock)) result self.new }
    {
        if self.snapshot == lock {
            self.logs.log_read(cell, word);
            return OpOutcome::Read(word);
        }
        self.plain = false;
        self.phase = Phase::ValidatesTime;
        OpOutcome::Going
    }

    /// Whether the attempt stands at an operation without the lock.
    #[inline(always)]
    pub(crate) fn is_plain(&self) -> bool
        ensures plain { result ≡ true → (self.now.begun ≡ true) × (self.now.attempt.phase ≡ Phase.AtOperation) }
        ensures not_plain { IsPlain self.now.begun self.now.attempt.kept self.now.attempt.phase → result ≡ true }
    {
        self.plain
    }

    /// The attempt is no longer under way.
    #[inline(always)]
    fn end(&mut self)
        ensures begun { self.new.begun ≡ false }
        ensures attempt { self.new.attempt ≡ self.old.attempt }
        ensures aside { self.new.aside ≡ self.old.aside }
    {
        self.begun = false;
        self.plain = false;
    }

    /// Makes room for a write: whether there is.
    #[inline(always)]
    pub(crate) fn make_write_room(&mut self) -> bool
        ensures room { result ≡ true → 0 < self.new.write_room }
        ensures full { result ≡ false → self.old.write_room ≡ 0 }
        ensures others { GainsRoom self.old self.new }
    {
        self.logs.prepare_write().is_ok()
    }

    /// Writes a word.
    #[inline(always)]
    pub(crate) fn write(&mut self, cell: u32, word: u64)
        requires { 0 < self.old.write_room }
        ensures begun { self.new.begun ≡ self.old.begun }
        ensures attempt { self.new.attempt
            ≡ record self.old.attempt { writes = with_write cell word self.old.attempt.writes } }
    {
        self.logs.write(cell, word);
    }

    /// Whether a commit makes no access.
    #[inline(always)]
    pub(crate) fn commits_locally(&self) -> bool
        requires { self.now.attempt.phase ≡ Phase.AtOperation }
        ensures local { result ≡ true
            → commit_access self.now.attempt self.now.attempt.inner self.now.attempt.kept self.now.attempt.writes
            ≡ Access.Local }
        ensures not_local { result ≡ false
            → commit_access self.now.attempt self.now.attempt.inner self.now.attempt.kept self.now.attempt.writes
            ≢ Access.Local }
    {
        match self.commit_access() {
            Access::Local => true,
            _ => false,
        }
    }

    /// Commits without an access.
    #[inline(always)]
    pub(crate) fn commit(&mut self)
        requires begun { self.old.begun ≡ true }
        requires phase { self.old.attempt.phase ≡ Phase.AtOperation }
        requires local { commit_access self.old.attempt self.old.attempt.inner self.old.attempt.kept
            self.old.attempt.writes ≡ Access.Local }
        ensures { attempt_of self.new
            ≡ (core_commit self.old.attempt self.old.attempt.inner self.old.attempt.kept self.old.attempt.writes
            Answer.Done).attempt }
    {
        self.told_commit(Answer::Done);
    }

    /// Sets aside what an outermost begin saves: whether there was room.
    #[inline(always)]
    pub(crate) fn set_aside(&mut self, registers: &[u64], frames: usize, place: u32) -> bool
        ensures aside { result ≡ true
            → self.new.aside ≡ record { registers = registers.now; frames = frames; place = place } }
        ensures full { result ≡ false → length self.old.aside.registers < length registers.now }
        ensures others { GainsRoom (record self.old { aside = self.new.aside }) self.new }
    {
        self.logs
            .prepare_outermost(registers, frames, place)
            .is_ok()
    }

    /// The step of a commit that swaps the lock from this value, with the swap's answer.
    #[inline(always)]
    pub(crate) fn take_swap(&mut self, from: u64, answer: Answer) -> OpOutcome
        requires begun { self.old.begun ≡ true }
        requires swaps { SwapsLock from self.old }
        requires goes_on { stops (Access.Swap from) ≡ false }
        ensures { IsStep (core_step self.old.aside (attempt_of self.old) Op.Commit answer) result self.new }
    {
        // The prover names by it the lock's value, which is the snapshot.
        let _from = from;
        self.after_swap(answer)
    }

    /// The index in the write log that a commit stores next, where one stores.
    #[inline(always)]
    pub(crate) fn storing(&self) -> Option<usize>
        ensures some { IfSome result (λ index. (self.now.begun ≡ true)
            × (self.now.attempt.phase ≡ Phase.Stores index)) }
        ensures none { IfNone result ((index : ℕ) → self.now.begun ≡ true → self.now.attempt.phase ≡ Phase.Stores index
            → ⊥) }
    {
        match self.phase {
            Phase::Stores(index) => { if self.begun { Some(index) } else { None } }
            _ => None,
        }
    }

    /// The access of a commit that stores this pair next, or past the last one the lock.
    #[inline(always)]
    pub(crate) fn next_store(&self, index: usize) -> Access
        requires { self.now.attempt.phase ≡ Phase.Stores index }
        ensures { result ≡ store_access self.now.attempt.snapshot (slice_get self.now.attempt.writes index) }
    {
        // The prover learns here that the lock can be released.
        let _phase = self.phase;
        self.store_access(index)
    }

    /// A commit goes on whose store of this pair, or past the last one of the lock, was made.
    #[inline(always)]
    pub(crate) fn take_store(&mut self, index: usize) -> OpOutcome
        requires begun { self.old.begun ≡ true }
        requires phase { self.old.attempt.phase ≡ Phase.Stores index }
        ensures { IsStep (core_store self.old.attempt index (slice_get self.old.attempt.writes index)) result self.new }
    {
        // The prover learns here that the lock can be released.
        let _phase = self.phase;
        self.told_store(index)
    }

    /// The access of the next step.
    #[inline(always)]
    pub(crate) fn access(&self, op: Op) -> Access
        ensures { result ≡ core_access (attempt_of self.now) op }
    {
        if !self.begun {
            return match op {
                Op::Begin => Access::LoadLock,
                _ => Access::Local,
            };
        }
        match self.phase {
            Phase::AtOperation => self.operation_access(op),
            Phase::ReadsLock(_) => Access::LoadLock,
            Phase::ValidatesTime => Access::LoadLock,
            Phase::ValidatesEntry(_, index) => self.entry_access(index),
            Phase::Stores(index) => self.store_access(index),
        }
    }

    #[inline(always)]
    fn operation_access(&self, op: Op) -> Access
        requires { self.now.attempt.phase ≡ Phase.AtOperation }
        ensures { result ≡ operation_access self.now.attempt op }
    {
        match op {
            Op::Read(cell) => match self.logs.written_word(cell) {
                Some(_) => Access::Local,
                None => Access::LoadWord(cell),
            },
            Op::Commit => self.commit_access(),
            Op::Irrevocable if !self.logs.is_kept() => Access::Swap(self.snapshot),
            Op::Release if self.logs.is_kept() => Access::StoreLock(self.snapshot + 2),
            _ => Access::Local,
        }
    }

    #[inline(always)]
    pub(crate) fn commit_access(&self) -> Access
        requires { self.now.attempt.phase ≡ Phase.AtOperation }
        ensures { result ≡ commit_access self.now.attempt self.now.attempt.inner self.now.attempt.kept
            self.now.attempt.writes }
    {
        if self.logs.depth() > 0 {
            return Access::Local;
        }
        if self.logs.is_kept() {
            return self.store_access(0);
        }
        match self.logs.write_at(0) {
            Some(_) => Access::Swap(self.snapshot),
            None => Access::Local,
        }
    }

    #[inline(never)]
    fn entry_access(&self, index: usize) -> Access
        ensures { result ≡ entry_access (slice_get self.now.attempt.reads index) }
    {
        match self.logs.read_at(index) {
            Some(entry) => Access::LoadWord(entry.0),
            None => Access::LoadLock,
        }
    }

    #[inline(always)]
    fn store_access(&self, index: usize) -> Access
        requires { CanRelease self.now.attempt.snapshot }
        ensures { result ≡ store_access self.now.attempt.snapshot (slice_get self.now.attempt.writes index) }
    {
        match self.logs.write_at(index) {
            Some(pair) => Access::StoreWord(pair.0, pair.1),
            None => Access::StoreLock(self.snapshot + 2),
        }
    }

    /// Makes the step with the answer to its access. It takes no memory.
    #[inline(always)]
    pub(crate) fn told(&mut self, op: Op, answer: Answer) -> OpOutcome
        requires room { HasRoom op self.old }
        requires goes_on { stops (core_access (attempt_of self.old) op) ≡ false }
        ensures { IsStep (core_step self.old.aside (attempt_of self.old) op answer) result self.new }
    {
        if self.begun {
            return self.told_inside(op, answer);
        }
        if let Op::Begin = op {
            return self.told_begin(answer);
        }
        OpOutcome::Going
    }

    /// An outermost begin: an even lock value is the snapshot.
    #[inline(always)]
    pub(crate) fn told_begin(&mut self, answer: Answer) -> OpOutcome
        requires { self.old.begun ≡ false }
        ensures { IsStep (core_step self.old.aside None Op.Begin answer) result self.new }
    {
        if let Answer::Value(lock) = answer {
            if lock % 2 == 0 {
                self.logs.begin();
                self.begun = true;
                self.plain = true;
                self.first = lock;
                self.snapshot = lock;
                self.phase = Phase::AtOperation;
                return OpOutcome::Done;
            }
        }
        OpOutcome::Going
    }

    #[inline(always)]
    fn told_inside(&mut self, op: Op, answer: Answer) -> OpOutcome
        requires begun { self.old.begun ≡ true }
        requires room { HasRoom op self.old }
        requires goes_on { stops (core_access (attempt_of self.old) op) ≡ false }
        ensures { IsStep (core_phase self.old.aside self.old.attempt self.old.attempt.phase op answer) result self.new }
    {
        match (self.phase, op) {
            (Phase::AtOperation, _) => self.told_operation(op, answer),
            (Phase::ReadsLock(word), Op::Read(cell)) => self.told_check(cell, word, answer),
            (Phase::ValidatesTime, _) => self.told_time(answer),
            (Phase::ValidatesEntry(time, index), _) => self.told_compare(time, index, answer),
            (Phase::Stores(index), Op::Commit) => self.told_store(index),
            _ => OpOutcome::Going,
        }
    }

    /// The first step of an operation.
    #[inline(always)]
    fn told_operation(&mut self, op: Op, answer: Answer) -> OpOutcome
        requires begun { self.old.begun ≡ true }
        requires phase { self.old.attempt.phase ≡ Phase.AtOperation }
        requires room { HasRoom op self.old }
        requires goes_on { stops (operation_access self.old.attempt op) ≡ false }
        ensures { IsStep (core_operation self.old.aside self.old.attempt op answer) result self.new }
    {
        match op {
            Op::Begin => self.logs.begin_inner(),
            Op::Read(cell) => return self.told_read(cell, answer),
            Op::Write(cell, word) => self.logs.write(cell, word),
            Op::Commit => return self.told_commit(answer),
            Op::Cancel => return self.told_cancel(),
            Op::CancelOuter(levels) => return self.told_cancel_outer(levels),
            Op::Irrevocable => return self.told_irrevocable(answer),
            Op::Release => self.end(),
        }
        OpOutcome::Done
    }

    #[inline(always)]
    fn told_read(&mut self, cell: u32, answer: Answer) -> OpOutcome
        requires begun { self.old.begun ≡ true }
        requires phase { self.old.attempt.phase ≡ Phase.AtOperation }
        ensures { IsStep (core_read self.old.attempt (overlay_word cell self.old.attempt.writes) answer) result
            self.new }
    {
        if let Some(word) = self.logs.written_word(cell) {
            return OpOutcome::Read(word);
        }
        if let Answer::Value(word) = answer {
            let unlogged = self.logs.is_kept();
            if unlogged {
                return OpOutcome::Read(word);
            }
            self.plain = false;
            self.phase = Phase::ReadsLock(word);
        }
        OpOutcome::Going
    }

    #[inline(always)]
    fn told_commit(&mut self, answer: Answer) -> OpOutcome
        requires begun { self.old.begun ≡ true }
        requires phase { self.old.attempt.phase ≡ Phase.AtOperation }
        requires goes_on { stops
            (commit_access self.old.attempt self.old.attempt.inner self.old.attempt.kept self.old.attempt.writes)
            ≡ false }
        ensures { IsStep
            (core_commit self.old.attempt self.old.attempt.inner self.old.attempt.kept self.old.attempt.writes answer)
            result self.new }
    {
        if self.logs.depth() > 0 {
            self.logs.commit_inner();
            return OpOutcome::Done;
        }
        if self.logs.is_kept() {
            return self.told_store(0);
        }
        if self.logs.write_at(0).is_none() {
            self.end();
            return OpOutcome::Done;
        }
        self.after_swap(answer)
    }

    /// A commit has swapped the lock: where the swap was won it stores next, where it was lost it validates.
    #[inline(always)]
    fn after_swap(&mut self, answer: Answer) -> OpOutcome
        requires begun { self.old.begun ≡ true }
        requires kept { self.old.attempt.kept ≡ false }
        requires goes_on { stops (Access.Swap self.old.attempt.snapshot) ≡ false }
        ensures { IsStep
            (core_swap self.old.attempt (record self.old.attempt { phase = Phase.Stores 0 }) OpOutcome.Going answer)
            result self.new }
    {
        match answer {
            Answer::Won => self.phase = Phase::Stores(0),
            Answer::Lost(_) => self.phase = Phase::ValidatesTime,
            _ => return OpOutcome::Going,
        }
        self.plain = false;
        OpOutcome::Going
    }

    /// The write log goes back to the begin, the read log stays. With the lock kept the outermost one stands still.
    #[inline(never)]
    fn told_cancel(&mut self) -> OpOutcome
        requires { self.old.begun ≡ true }
        ensures { IsStep (core_cancel self.old.attempt self.old.attempt.inner self.old.attempt.kept) result self.new }
    {
        if self.logs.depth() > 0 {
            self.logs.cancel();
            return OpOutcome::Done;
        }
        if self.logs.is_kept() {
            return OpOutcome::Going;
        }
        self.logs.abort();
        self.end();
        OpOutcome::Done
    }

    /// A cancel of several levels, or of all that are open where these are fewer: the log and the lock as at a cancel
    /// of one.
    #[inline(never)]
    fn told_cancel_outer(&mut self, levels: u32) -> OpOutcome
        requires { self.old.begun ≡ true }
        ensures { IsStep (core_cancel self.old.attempt (drop (levels - 1) self.old.attempt.inner) self.old.attempt.kept)
            result self.new }
    {
        let inner = self.logs.depth();
        let open = (levels as usize).min(inner.saturating_add(1));
        if open < 2 {
            return self.told_cancel();
        }
        let is_outermost = inner < open;
        if is_outermost && self.logs.is_kept() {
            return OpOutcome::Going;
        }
        self.logs.cancel_outer(open);
        if is_outermost {
            self.end();
        }
        OpOutcome::Done
    }

    #[inline(never)]
    fn told_irrevocable(&mut self, answer: Answer) -> OpOutcome
        requires begun { self.old.begun ≡ true }
        requires phase { self.old.attempt.phase ≡ Phase.AtOperation }
        requires goes_on { stops (operation_access self.old.attempt Op.Irrevocable) ≡ false }
        ensures { IsStep (core_operation self.old.aside self.old.attempt Op.Irrevocable answer) result self.new }
    {
        if self.logs.is_kept() {
            return OpOutcome::Done;
        }
        match answer {
            Answer::Won => {
                self.plain = false;
                self.logs.keep();
                OpOutcome::Done
            }
            Answer::Lost(_) => {
                self.plain = false;
                self.phase = Phase::ValidatesTime;
                OpOutcome::Going
            }
            _ => OpOutcome::Going,
        }
    }

    /// The word at an index of the write log, or past the last one the lock, was stored. What has the lock is not
    /// plain.
    #[inline(always)]
    fn told_store(&mut self, index: usize) -> OpOutcome
        requires begun { self.old.begun ≡ true }
        requires lock { CanRelease self.old.attempt.snapshot }
        requires has { holds_lock self.old.attempt.kept self.old.attempt.phase ≡ true }
        ensures { IsStep (core_store self.old.attempt index (slice_get self.old.attempt.writes index)) result self.new }
    {
        if self.logs.write_at(index).is_some() {
            self.phase = Phase::Stores(index + 1);
            return OpOutcome::Going;
        }
        self.begun = false;
        OpOutcome::Done
    }

    /// A read that has its word is logged where the lock is still the snapshot.
    #[inline(always)]
    fn told_check(&mut self, cell: u32, word: u64, answer: Answer) -> OpOutcome
        requires begun { self.old.begun ≡ true }
        requires phase { self.old.attempt.phase ≡ Phase.ReadsLock word }
        requires room { 0 < self.old.read_room }
        ensures { IsStep (core_check self.old.attempt (Op.Read cell) word answer) result self.new }
    {
        if let Answer::Value(lock) = answer {
            if lock == self.snapshot {
                self.logs.log_read(cell, word);
                self.plain = true;
                self.phase = Phase::AtOperation;
                return OpOutcome::Read(word);
            }
            self.phase = Phase::ValidatesTime;
        }
        OpOutcome::Going
    }

    /// Validation begins at an even lock.
    #[inline(never)]
    fn told_time(&mut self, answer: Answer) -> OpOutcome
        requires begun { self.old.begun ≡ true }
        requires phase { self.old.attempt.phase ≡ Phase.ValidatesTime }
        ensures { IsStep (core_time self.old.attempt answer) result self.new }
    {
        match answer {
            Answer::Value(lock) if lock % 2 == 0 => self.phase = Phase::ValidatesEntry(lock, 0),
            _ => {}
        }
        OpOutcome::Going
    }

    /// An entry with another word drops the attempt. Past the last entry the lock, unchanged since the time, is the new
    /// snapshot.
    #[inline(never)]
    fn told_compare(&mut self, time: u64, index: usize, answer: Answer) -> OpOutcome
        requires begun { self.old.begun ≡ true }
        requires phase { self.old.attempt.phase ≡ Phase.ValidatesEntry time index }
        ensures { IsStep (core_compare self.old.attempt time index (slice_get self.old.attempt.reads index) answer)
            result self.new }
    {
        if let Answer::Value(found) = answer {
            match self.logs.read_at(index) {
                Some(entry) if found == entry.1 => {
                    self.phase = Phase::ValidatesEntry(time, index + 1);
                }
                Some(_) => {
                    self.logs.abort();
                    self.begun = false;
                    return OpOutcome::Aborted;
                }
                None if found == time => {
                    self.snapshot = time;
                    self.plain = true;
                    self.phase = Phase::AtOperation;
                }
                None => self.phase = Phase::ValidatesTime,
            }
        }
        OpOutcome::Going
    }

    /// Whether validation loads the lock next, until it is even.
    #[inline(always)]
    pub(crate) fn is_waiting(&self) -> bool
        ensures waits { result ≡ true → (self.now.begun ≡ true) × (self.now.attempt.phase ≡ Phase.ValidatesTime) }
        ensures not_waits { result ≡ false → self.now.begun ≡ true → self.now.attempt.phase ≡ Phase.ValidatesTime → ⊥ }
    {
        match self.phase {
            Phase::ValidatesTime => self.begun,
            _ => false,
        }
    }

    /// The step of a validation that waits for an even lock, with the lock's value.
    #[inline(always)]
    pub(crate) fn take_wait(&mut self, lock: u64)
        requires begun { self.old.begun ≡ true }
        requires phase { self.old.attempt.phase ≡ Phase.ValidatesTime }
        ensures { IsStep (core_time self.old.attempt (Value lock)) OpOutcome.Going self.new }
    {
        if lock % 2 == 1 {
            return;
        }
        self.phase = Phase::ValidatesEntry(lock, 0);
    }

    /// The lock value at which validation compares an entry next, and the entry's index in the read log.
    #[inline(always)]
    pub(crate) fn comparing(&self) -> Option<(u64, usize)>
        ensures some { IfSome result (λ at. (self.now.begun ≡ true)
            × (self.now.attempt.phase ≡ Phase.ValidatesEntry at.0 at.1)) }
        ensures none { IfNone result ((time index : ℕ) → self.now.begun ≡ true
            → self.now.attempt.phase ≡ Phase.ValidatesEntry time index → ⊥) }
    {
        match self.phase {
            Phase::ValidatesEntry(time, index) => {
                if self.begun {
                    Some((time, index))
                } else {
                    None
                }
            }
            _ => None,
        }
    }

    /// The entry at an index.
    #[inline(always)]
    pub(crate) fn entry(&self, index: usize) -> Option<(u32, u64)>
        ensures value { result ≡ slice_get self.now.attempt.reads index }
        ensures next { OnSome result (index + 1 < 2 ^ 64) }
    {
        self.logs.read_at(index)
    }

    /// The step in which an entry's word was found again.
    #[inline(always)]
    pub(crate) fn take_equal(&mut self, time: u64, index: usize)
        requires phase { self.old.attempt.phase ≡ Phase.ValidatesEntry time index }
        requires next { index + 1 < 2 ^ 64 }
        ensures begun { self.new.begun ≡ self.old.begun }
        ensures attempt { self.new.attempt ≡ record self.old.attempt { phase = Phase.ValidatesEntry time (index + 1) } }
    {
        let next = index + 1;
        self.phase = Phase::ValidatesEntry(time, next);
    }

    /// The step in which an entry's word was not found again.
    #[inline(always)]
    pub(crate) fn take_unequal(&mut self)
        ensures begun { self.new.begun ≡ false }
        ensures aside { self.new.aside ≡ self.old.attempt.saved }
    {
        self.logs.abort();
        self.end();
    }

    /// The step past the last entry, with the lock's value.
    #[inline(always)]
    pub(crate) fn take_validation(&mut self, time: u64, index: usize, lock: u64)
        requires begun { self.old.begun ≡ true }
        requires phase { self.old.attempt.phase ≡ Phase.ValidatesEntry time index }
        ensures { IsStep (core_compare self.old.attempt time index None (Value lock)) OpOutcome.Going self.new }
    {
        if lock == time {
            self.snapshot = time;
            self.plain = true;
            self.phase = Phase::AtOperation;
        } else {
            self.phase = Phase::ValidatesTime;
        }
    }
}
