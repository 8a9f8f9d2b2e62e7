//! One thread of the machine, with its seat at the table.

ghost use Rattle.std.specs.Prelude.{◌≡◌, ◌+◌, ◌%◌, ◌^◌, ◌<◌, ◌≤◌, ℕ, List, true, false, None, Some, OnOk, OnErr, OnSome};
ghost use Rattle.std.specs.Prelude.{IfErr, IfNone, IfOk, IfSome};
ghost use Rattle.atomic_table.specs.Seated.{TableId};
ghost use Rattle.bytecode.specs.Code.{effect};
ghost use Rattle.bytecode.specs.Valid.{cells_of};
ghost use Rattle.machine.specs.Threads.{access as access_of};
ghost use Rattle.machine.specs.Standing.{IsThreadOf};
ghost use Rattle.machine.specs.States.{ComparesEntry, ComparesNext, StandsAt, StandsStill, StoresNext, WaitsNext};
ghost use Rattle.shared_words.specs.Setup.{Setup};
ghost use Rattle.workers.specs.Seen.{accesses_of, setup_of, state_of, steps_of, table_of, tally_of, thread_of};
ghost use Rattle.workers.specs.Seen.{worker_number};
ghost use Rattle.workers.specs.Workers.{IsStatusOf};
ghost use Rattle.workers.specs.Works.{Because, StopsAt};
ghost use Rattle.norec_core.specs.Cores.{MayLog};
ghost use Rattle.syntax.specs.declared.thread_end.Status.TheVariants.{Running};

use crate::hall::Hall;
use crate::loads::SeatLoads;
use crate::right_of_way::{Patience, RightOfWay, pause};
use crate::tally::Tally;
use atomic_table::Seat;
use bytecode::Code;
use frames::Doing;
use machine::Thread;
use norec_core::{Access, Stop};
use shared_words::{View, Words, load_lock, load_word, make};
use std::alloc::{Allocator, Global};
use syntax::thread_end::{Status, Trap};

/// A thread of a hall. Contracts say of it that it is a worker of that hall; it may move to any thread of the program.
#[derive(Drop)]
pub struct Worker<A: Allocator = Global> {
    pub(crate) number: u32,
    pub(crate) thread: Thread<A>,
    pub(crate) steps: u64,
    pub(crate) seat: Seat<(), View>,
    pub(crate) tally: Tally,
    pub(crate) patience: Patience,
}

/// How a run of one worker ended.
#[derive(Clone, Copy, PartialEq, Eq)]
pub enum RunEnd {
    /// The thread has ended.
    Ended,
    /// The thread has trapped.
    Trapped(Trap),
    /// All steps of the budget were made, and the thread is neither ended nor trapped.
    Budget,
}

/// Waits for a moment if the lock was found taken, by the number of such looks.
#[inline(always)]
fn pause_if_taken(lock: u64, look: u64) {
    if lock % 2 == 1 {
        pause(look);
    }
}

/// For how many pauses a worker waits after an abort, before it retries.
const BACKOFF: u64 = 512;

/// Leaves the lock and the words to the other threads for a while, unless they wait for this worker.
#[inline(never)]
fn back_off(patience: &Patience) {
    if patience.has_claimed() {
        return;
    }
    'turns: for turn in 0..BACKOFF {
        pause(turn);
    }
}

impl<A: Allocator + Copy> Worker<A> {
    ghost use Rattle.workers.specs.Workers.{IsWorkerOf, StandsOn, StepsOn, FloorsAt, Reports};
    ghost use Rattle.workers.specs.inner.Stepping.{CanStep, StepsBy};

    // Steps are counted where `step` and `run` end, and not by what they call.

    /// Local steps of the thread, and reads between them, at most so many steps: how many were made, and where they are
    /// fewer what is to be done then.
    #[inline(always)]
    fn advance(&mut self, words: &Words<A>, code: &Code<A>, most: u64) -> (u64, Option<Doing>)
        requires table { words.now.table_id.words ≡ cells_of code.now + 1 }
        requires code { words.now.key.code ≡ code.now }
        requires worker { CanStep words.now.table_id words.now.key most self.old }
        ensures goes_on { StepsBy words.now.table_id words.now.key result.0 self.old self.new }
        ensures few { result.0 ≤ most }
        ensures all { IfNone result.1 (result.0 ≡ most) }
        ensures stands { IfSome result.1 (λ doing. (result.0 < most) × StandsAt code.now self.new.thread doing) }
    {
        let mut loads = SeatLoads {
            words,
            seat: &mut self.seat,
        };
        self.thread.advance(code, &mut loads, most)
    }

    /// One step of the thread, in which this is to be done.
    #[inline(always)]
    fn step_at(&mut self, words: &Words<A>, code: &Code<A>, doing: Doing) -> Result<(), Stop>
        requires table { words.now.table_id.words ≡ cells_of code.now + 1 }
        requires code { words.now.key.code ≡ code.now }
        requires worker { CanStep words.now.table_id words.now.key 1 self.old }
        requires stands { StandsAt code.now self.old.thread doing }
        ensures ok { OnOk result (StepsBy words.now.table_id words.now.key 1 self.old self.new) }
        ensures err { OnErr result (StepsBy words.now.table_id words.now.key 0 self.old self.new) }
        ensures stop { IfErr result (λ e. StopsAt code.now self.new.thread.thread e) }
    {
        let access = match self.thread.prepare_at(code, doing) {
            Ok(access) => access,
            Err(stop) => return Err(stop),
        };
        let waits = self.thread.is_waiting(code, doing);
        let answer = make(words, &mut self.seat, access);
        let told = self.thread.told_at(code, doing, answer);
        self.tally.count_step(doing, waits, answer, told.0);
        Ok(())
    }

    /// One step of the thread.
    #[inline(never)]
    fn step_on(&mut self, words: &Words<A>, code: &Code<A>) -> Result<(), Stop>
        requires table { words.now.table_id.words ≡ cells_of code.now + 1 }
        requires code { words.now.key.code ≡ code.now }
        requires worker { CanStep words.now.table_id words.now.key 1 self.old }
        ensures ok { OnOk result (StepsBy words.now.table_id words.now.key 1 self.old self.new) }
        ensures err { OnErr result (StepsBy words.now.table_id words.now.key 0 self.old self.new) }
        ensures stop { IfErr result (λ e. StopsAt code.now self.new.thread.thread e) }
    {
        let doing = self.thread.doing(code);
        self.step_at(words, code, doing)
    }

    /// One step of the thread, counted.
    pub(crate) fn step(&mut self, words: &Words<A>, code: &Code<A>) -> Result<(), Stop>
        requires table { words.now.table_id.words ≡ cells_of code.now + 1 }
        requires code { words.now.key.code ≡ code.now }
        requires worker { IsWorkerOf words.now.table_id words.now.key self.old }
        requires room { self.old.steps + 1 < 2 ^ 64 }
        ensures goes_on { (self.new.number ≡ self.old.number)
            × StepsOn words.now.table_id words.now.key self.old self.new }
        ensures ok { OnOk result (self.new.steps ≡ self.old.steps + 1) }
        ensures err { OnErr result (self.new.steps ≡ self.old.steps) }
        ensures stop { IfErr result (λ e. StopsAt code.now self.new.thread.thread e) }
    {
        match self.step_on(words, code) {
            Ok(()) => {
                self.steps += 1;
                Ok(())
            }
            Err(stop) => Err(stop),
        }
    }

    /// Whether the next step of the thread may want memory that grows with how long it runs: a begin, a print, or a read
    /// that is not under validation.
    pub(crate) fn wants_memory(&self, code: &Code<A>) -> bool
        requires { IsThreadOf code.now self.now.thread.thread }
        ensures { result ≡ true → self.now.thread.thread.status ≡ Running
            → Because Stop.OutOfMemory code.now self.now.thread.thread }
    {
        let doing = self.thread.doing(code);
        match doing {
            Doing::Begin(_) => true,
            Doing::PrintText(_) => true,
            Doing::PrintNumber(_) => true,
            Doing::Read(_, _) => self.may_log(code, doing),
            _ => false,
        }
    }

    /// Whether the thread's attempt is neither under validation nor stores, where what is to be done is a read.
    fn may_log(&self, code: &Code<A>, doing: Doing) -> bool
        requires of { IsThreadOf code.now self.now.thread.thread }
        requires stands { StandsAt code.now self.now.thread doing }
        ensures { result ≡ true → (m cell : ℕ) → doing ≡ Doing.Read m cell → self.now.thread.thread.status ≡ Running
            → IfSome self.now.thread.thread.attempt (λ a. MayLog a.phase) }
    {
        let validates = self.thread.is_waiting(code, doing);
        if validates {
            return false;
        }
        match self.thread.comparing(code, doing) {
            Some(_) => false,
            None => match self.thread.storing() {
                Some(_) => false,
                None => true,
            },
        }
    }

    /// The step of a begin, which loads the lock, where no attempt is under way: the lock's value that was found, if it
    /// was made. Where that is odd the begin stands there still.
    #[inline(always)]
    fn load_begin(&mut self, words: &Words<A>, code: &Code<A>, to: u32) -> Option<u64>
        requires table { words.now.table_id.words ≡ cells_of code.now + 1 }
        requires code { words.now.key.code ≡ code.now }
        requires worker { CanStep words.now.table_id words.now.key 1 self.old }
        requires stands { StandsAt code.now self.old.thread (Doing.Begin to) }
        ensures made { OnSome result (StepsBy words.now.table_id words.now.key 1 self.old self.new) }
        ensures again { IfSome result (λ lock. lock % 2 ≡ 1 → StandsAt code.now self.new.thread (Doing.Begin to)) }
        ensures not_made { IfNone result (StepsBy words.now.table_id words.now.key 0 self.old self.new) }
        ensures still { IfNone result (StandsAt code.now self.new.thread (Doing.Begin to)) }
    {
        if !self.thread.prepare_begin(code, to) {
            return None;
        }
        let lock = load_lock(words, &mut self.seat);
        self.thread.take_begin(code, to, lock);
        Some(lock)
    }

    /// The steps of a begin, one after another, at most so many, until the lock is found even: how many were made.
    #[inline(always)]
    fn begin(
        &mut self,
        words: &Words<A>,
        code: &Code<A>,
        right_of_way: &RightOfWay,
        to: u32,
        most: u64,
    ) -> u64
        requires table { words.now.table_id.words ≡ cells_of code.now + 1 }
        requires code { words.now.key.code ≡ code.now }
        requires worker { CanStep words.now.table_id words.now.key most self.old }
        requires stands { StandsAt code.now self.old.thread (Doing.Begin to) }
        ensures goes_on { StepsBy words.now.table_id words.now.key result self.old self.new }
        ensures few { result ≤ most }
        ensures none { result ≡ 0 → StandsAt code.now self.new.thread (Doing.Begin to) }
    {
        self.patience.begin(right_of_way, self.number);
        'loads: for loaded in 0..most {
            let Some(lock) = self.load_begin(words, code, to) else {
                return loaded;
            };
            self.tally.count_begin(lock);
            if lock % 2 == 0 {
                return loaded + 1;
            }
            pause(self.tally.retried);
        }
        most
    }

    /// The step of a commit that swaps the lock, where that is its next one: whether it was made.
    #[inline(always)]
    fn swap(&mut self, words: &Words<A>, code: &Code<A>, right_of_way: &RightOfWay) -> bool
        requires table { words.now.table_id.words ≡ cells_of code.now + 1 }
        requires code { words.now.key.code ≡ code.now }
        requires worker { CanStep words.now.table_id words.now.key 1 self.old }
        requires stands { StandsAt code.now self.old.thread Doing.Commit }
        ensures made { result ≡ true → StepsBy words.now.table_id words.now.key 1 self.old self.new }
        ensures not_made { result ≡ false → StepsBy words.now.table_id words.now.key 0 self.old self.new }
        ensures stands { StandsAt code.now self.new.thread Doing.Commit }
    {
        let Some(from) = self.thread.swaps_from(code) else {
            return false;
        };
        right_of_way.give_way(self.number);
        let answer = make(words, &mut self.seat, Access::Swap(from));
        self.thread.take_swap(code, from, answer);
        true
    }

    /// The step of a commit that stores the pair at this index of the write log, or past the last one the lock: whether
    /// the commit goes on.
    #[inline(always)]
    fn store(&mut self, words: &Words<A>, code: &Code<A>, index: usize) -> bool
        requires table { words.now.table_id.words ≡ cells_of code.now + 1 }
        requires code { words.now.key.code ≡ code.now }
        requires worker { CanStep words.now.table_id words.now.key 1 self.old }
        requires stands { StandsAt code.now self.old.thread Doing.Commit }
        requires stores { StoresNext self.old.thread index }
        ensures goes_on { StepsBy words.now.table_id words.now.key 1 self.old self.new }
        ensures again { result ≡ true → StandsAt code.now self.new.thread Doing.Commit }
    {
        let access = self.thread.store_access(code, index);
        let _answer = make(words, &mut self.seat, access);
        self.thread.take_store(code, index)
    }

    /// The steps of a commit's stores, one after another, at most so many: how many were made.
    #[inline(always)]
    fn store_all(&mut self, words: &Words<A>, code: &Code<A>, most: u64) -> u64
        requires table { words.now.table_id.words ≡ cells_of code.now + 1 }
        requires code { words.now.key.code ≡ code.now }
        requires worker { CanStep words.now.table_id words.now.key most self.old }
        requires stands { StandsAt code.now self.old.thread Doing.Commit }
        ensures goes_on { StepsBy words.now.table_id words.now.key result self.old self.new }
        ensures few { result ≤ most }
        ensures none { result ≡ 0 → StandsAt code.now self.new.thread Doing.Commit }
    {
        'stores: for made in 0..most {
            let Some(index) = self.thread.storing() else {
                return made;
            };
            if !self.store(words, code, index) {
                return made + 1;
            }
        }
        most
    }

    /// The swap of a commit and what follows it, at most so many steps, where it goes on with the swap or stores: how
    /// many were made.
    #[inline(always)]
    fn commit(
        &mut self,
        words: &Words<A>,
        code: &Code<A>,
        right_of_way: &RightOfWay,
        most: u64,
    ) -> u64
        requires table { words.now.table_id.words ≡ cells_of code.now + 1 }
        requires code { words.now.key.code ≡ code.now }
        requires worker { CanStep words.now.table_id words.now.key most self.old }
        requires some { 0 < most }
        requires stands { StandsAt code.now self.old.thread Doing.Commit }
        ensures goes_on { StepsBy words.now.table_id words.now.key result self.old self.new }
        ensures few { result ≤ most }
        ensures none { result ≡ 0 → StandsAt code.now self.new.thread Doing.Commit }
    {
        if !self.swap(words, code, right_of_way) {
            return self.store_all(words, code, most);
        }
        let stored = self.store_all(words, code, most - 1);
        stored + 1
    }

    /// Steps of what is to be done, at most so many, where a function of its own makes them: how many were made.
    #[inline(always)]
    fn complete(
        &mut self,
        words: &Words<A>,
        code: &Code<A>,
        right_of_way: &RightOfWay,
        doing: Doing,
        most: u64,
    ) -> u64
        requires table { words.now.table_id.words ≡ cells_of code.now + 1 }
        requires code { words.now.key.code ≡ code.now }
        requires worker { CanStep words.now.table_id words.now.key most self.old }
        requires some { 0 < most }
        requires stands { StandsAt code.now self.old.thread doing }
        ensures goes_on { StepsBy words.now.table_id words.now.key result self.old self.new }
        ensures few { result ≤ most }
        ensures none { result ≡ 0 → StandsAt code.now self.new.thread doing }
    {
        match doing {
            Doing::Begin(to) => self.begin(words, code, right_of_way, to, most),
            Doing::Commit => self.commit(words, code, right_of_way, most),
            _ => 0,
        }
    }

    /// The step of validation that loads the lock, until it is even.
    #[inline(always)]
    fn wait(&mut self, words: &Words<A>, code: &Code<A>)
        requires table { words.now.table_id.words ≡ cells_of code.now + 1 }
        requires code { words.now.key.code ≡ code.now }
        requires worker { CanStep words.now.table_id words.now.key 1 self.old }
        requires waits { WaitsNext code.now self.old.thread }
        requires access { access_of (effect code.now) self.old.thread.thread ≡ Access.LoadLock }
        ensures goes_on { StepsBy words.now.table_id words.now.key 1 self.old self.new }
        ensures still { StandsStill code.now self.old.thread self.new.thread }
    {
        let lock = load_lock(words, &mut self.seat);
        self.thread.take_wait(code, lock);
        self.tally.count_wait(lock);
        pause_if_taken(lock, self.tally.retried);
    }

    /// The step of validation that compares this entry: whether its word was loaded again.
    #[inline(always)]
    fn compare_word(
        &mut self,
        words: &Words<A>,
        code: &Code<A>,
        time: u64,
        index: usize,
        entry: (u32, u64),
    ) -> bool
        requires table { words.now.table_id.words ≡ cells_of code.now + 1 }
        requires code { words.now.key.code ≡ code.now }
        requires worker { CanStep words.now.table_id words.now.key 1 self.old }
        requires compares { ComparesNext code.now self.old.thread time index }
        requires entry { ComparesEntry self.old.thread time index (Some entry) }
        requires next { index + 1 < 2 ^ 64 }
        requires access { access_of (effect code.now) self.old.thread.thread ≡ Access.LoadWord entry.0 }
        ensures goes_on { StepsBy words.now.table_id words.now.key 1 self.old self.new }
        ensures next { result ≡ true → ComparesNext code.now self.new.thread time (index + 1) }
        ensures still { result ≡ true → StandsStill code.now self.old.thread self.new.thread }
    {
        let (cell, word) = entry;
        let found = load_word(words, &mut self.seat, cell as usize);
        if found != word {
            self.thread.take_unequal(code, time, index, entry, found);
            return false;
        }
        self.thread.take_equal(code, time, index, entry);
        true
    }

    /// The step of validation past the last entry, which loads the lock.
    #[inline(always)]
    fn confirm(&mut self, words: &Words<A>, code: &Code<A>, time: u64, index: usize)
        requires table { words.now.table_id.words ≡ cells_of code.now + 1 }
        requires code { words.now.key.code ≡ code.now }
        requires worker { CanStep words.now.table_id words.now.key 1 self.old }
        requires compares { ComparesNext code.now self.old.thread time index }
        requires entry { ComparesEntry self.old.thread time index None }
        requires access { access_of (effect code.now) self.old.thread.thread ≡ Access.LoadLock }
        ensures goes_on { StepsBy words.now.table_id words.now.key 1 self.old self.new }
        ensures still { StandsStill code.now self.old.thread self.new.thread }
    {
        let lock = load_lock(words, &mut self.seat);
        self.thread.take_validation(code, time, index, lock);
    }

    /// Steps of validation at this lock value, from this index of the read log on, one after another, at most so many,
    /// up to an entry whose word is another one, or past the last one: how many were made, and whether the attempt goes
    /// on.
    #[inline(always)]
    fn compare(
        &mut self,
        words: &Words<A>,
        code: &Code<A>,
        time: u64,
        from: usize,
        most: u64,
    ) -> (u64, bool)
        requires table { words.now.table_id.words ≡ cells_of code.now + 1 }
        requires code { words.now.key.code ≡ code.now }
        requires worker { CanStep words.now.table_id words.now.key most self.old }
        requires compares { ComparesNext code.now self.old.thread time from }
        ensures goes_on { StepsBy words.now.table_id words.now.key result.0 self.old self.new }
        ensures few { result.0 ≤ most }
        ensures some { 0 < most → 0 < result.0 }
        ensures still { result.1 ≡ true → StandsStill code.now self.old.thread self.new.thread }
    {
        let mut index = from;
        'entries: for passed in 0..most {
            let Some(entry) = self.thread.entry(code, time, index) else {
                self.confirm(words, code, time, index);
                return (passed + 1, true);
            };
            if !self.compare_word(words, code, time, index, entry) {
                return (passed + 1, false);
            }
            index += 1;
        }
        (most, true)
    }

    /// Steps of validation, one after another, at most so many, where what is to be done is under it: how many were
    /// made.
    #[inline(never)]
    fn validate(
        &mut self,
        words: &Words<A>,
        code: &Code<A>,
        right_of_way: &RightOfWay,
        most: u64,
    ) -> u64
        requires table { words.now.table_id.words ≡ cells_of code.now + 1 }
        requires code { words.now.key.code ≡ code.now }
        requires worker { CanStep words.now.table_id words.now.key most self.old }
        ensures goes_on { StepsBy words.now.table_id words.now.key result self.old self.new }
        ensures few { result ≤ most }
    {
        // Asked here and not handed over, so that whoever calls keeps it in the processor's registers.
        let doing = self.thread.doing(code);
        let mut left = most;
        'steps: while left > 0 {
            if self.thread.is_waiting(code, doing) {
                self.wait(words, code);
                left -= 1;
                continue;
            }
            let Some((time, index)) = self.thread.comparing(code, doing) else {
                return most - left;
            };
            let (compared, goes_on) = self.compare(words, code, time, index, left);
            left -= compared;
            self.tally.count_compared(compared);
            self.patience.count(goes_on, right_of_way, self.number);
            if !goes_on {
                self.tally.count_drop();
                back_off(&self.patience);
                return most - left;
            }
        }
        most
    }

    /// Gives way before a step that takes the lock and is no commit's.
    #[inline(always)]
    fn give_way(&self, doing: Doing, right_of_way: &RightOfWay) {
        if let Doing::Irrevocable = doing {
            if !self.thread.has_lock() {
                right_of_way.give_way(self.number);
            }
        }
    }

    /// Steps of the thread in which this is to be done, at most so many, and one at least: how many were made.
    #[inline(always)]
    fn operate(
        &mut self,
        words: &Words<A>,
        code: &Code<A>,
        right_of_way: &RightOfWay,
        doing: Doing,
        most: u64,
    ) -> Result<u64, Stop>
        requires table { words.now.table_id.words ≡ cells_of code.now + 1 }
        requires code { words.now.key.code ≡ code.now }
        requires worker { CanStep words.now.table_id words.now.key most self.old }
        requires some { 0 < most }
        requires stands { StandsAt code.now self.old.thread doing }
        ensures ok { IfOk result (λ made. (0 < made) × (made ≤ most)
            × StepsBy words.now.table_id words.now.key made self.old self.new) }
        ensures err { OnErr result (StepsBy words.now.table_id words.now.key 0 self.old self.new) }
        ensures stop { IfErr result (λ e. StopsAt code.now self.new.thread.thread e) }
    {
        let made = self.complete(words, code, right_of_way, doing, most);
        if made > 0 {
            return Ok(made);
        }
        let passed = self.validate(words, code, right_of_way, most);
        if passed > 0 {
            return Ok(passed);
        }
        self.give_way(doing, right_of_way);
        match self.step_on(words, code) {
            Ok(()) => Ok(1),
            Err(stop) => Err(stop),
        }
    }

    /// How the worker's thread is, after all steps of a budget.
    fn report_of(&self, budget: u64) -> RunEnd
        ensures { Reports result self.now.thread.thread.status budget budget }
    {
        // The prover names by it the budget.
        let _budget = budget;
        match self.thread.status() {
            Status::Running => RunEnd::Budget,
            Status::Ended => RunEnd::Ended,
            Status::Trapped(cause) => RunEnd::Trapped(cause),
        }
    }

    /// `run`, whose steps are not yet counted: how many they were, and how it ended.
    #[inline(always)]
    fn run_on(&mut self, hall: &Hall<A>, budget: u64) -> (u64, Result<RunEnd, Stop>)
        requires worker { IsWorkerOf hall.now.table.shared.table_id hall.now.setup self.old }
        requires room { self.old.steps + budget < 2 ^ 64 }
        ensures goes_on { StepsBy hall.now.table.shared.table_id hall.now.setup result.0 self.old self.new }
        ensures few { result.0 ≤ budget }
        ensures status { IfOk result.1 (λ s. Reports s self.new.thread.thread.status budget result.0) }
        ensures stop { IfErr result.1 (λ e. StopsAt hall.now.setup.code self.new.thread.thread e
            × (result.0 < budget)) }
    {
        let mut left = budget;
        'turns: while left > 0 {
            match self.thread.status() {
                Status::Running => {}
                Status::Ended => return (budget - left, Ok(RunEnd::Ended)),
                Status::Trapped(cause) => {
                    return (budget - left, Ok(RunEnd::Trapped(cause)));
                }
            }
            let (rested, doing) = self.advance(&hall.table.shared, hall.setup.code(), left);
            left -= rested;
            let Some(doing) = doing else {
                return (budget, Ok(self.report_of(budget)));
            };
            let words = &hall.table.shared;
            let code = hall.setup.code();
            match self.operate(words, code, &hall.right_of_way, doing, left) {
                Ok(made) => left -= made,
                Err(stop) => return (budget - left, Err(stop)),
            }
        }
        (budget, Ok(self.report_of(budget)))
    }

    /// Makes `budget` steps of the machine, or fewer where the thread is over or a step stops. An access to the lock or
    /// to a cell is one atomic step on the hall's table. Between steps it may wait for another worker, for a bounded time.
    ///
    /// A stop, `OutOfMemory` where the memory that a step wants was refused and `SequenceUsedUp` where the lock has no
    /// value left, comes only where the thread runs still and has made fewer steps than the budget. It leaves all
    /// earlier steps, and the same call may go on from there. Memory is wanted by a begin, a read, a write, a call or a
    /// print, and by no step of validation, no store and no release.
    ///
    /// After it there is a run of every program that the code means in which the thread stands as it is then, local
    /// steps since its last access and commits without a write among them, and in which its earlier transactions come
    /// first among its own. An attempt that it has is where the code comes on one memory of that run, also where it
    /// will be dropped.
    pub fn run(&mut self, hall: &Hall<A>, budget: u64) -> Result<RunEnd, Stop>
        requires worker { IsWorkerOf (table_of hall.now) (setup_of hall.now) self.old }
        requires room { steps_of self.old + budget < 2 ^ 64 }
        ensures worker { IsWorkerOf (table_of hall.now) (setup_of hall.now) self.new }
        ensures goes_on { (worker_number self.new ≡ worker_number self.old)
            × StepsOn (table_of hall.now) (setup_of hall.now) self.old self.new }
        ensures runs { StandsOn (table_of hall.now) (setup_of hall.now) self.old self.new }
        ensures steps { (steps_of self.old ≤ steps_of self.new) × (steps_of self.new ≤ steps_of self.old + budget) }
        ensures status { IfOk result
            (λ s. Reports s (thread_of self.new).status (steps_of self.old + budget) (steps_of self.new)) }
        ensures stop { IfErr result (λ e. StopsAt (setup_of hall.now).code (thread_of self.new) e
            × (steps_of self.new < steps_of self.old + budget)) }
    {
        let (made, ended) = self.run_on(hall, budget);
        self.steps += made;
        hall.right_of_way.give_up(self.number);
        ended
    }

    /// From now on neither thread is answered a lock value below what either was answered so far, nor one that is not
    /// above the number of a transaction of either that took the lock.
    ///
    /// Both have then seen the same steps of all threads, in the order in which they were made, among them all that
    /// either of the two has made or seen. So what one of them begins later stands behind all that had taken effect in
    /// these steps, whoever made them and also where it stored nothing, in the order of all that takes effect until the
    /// hall is closed (`what_is_begun_after_a_meeting_stands_behind`). An attempt that is open now is not placed by it.
    ///
    /// It loads the lock for each of the two, and before that swaps the lock for itself, if at all, once for each.
    pub fn meet(&mut self, hall: &Hall<A>, other: &mut Worker<A>)
        requires mine { IsWorkerOf (table_of hall.now) (setup_of hall.now) self.old }
        requires theirs { IsWorkerOf (table_of hall.now) (setup_of hall.now) other.old }
        ensures same { (worker_number self.new ≡ worker_number self.old) × (state_of self.new ≡ state_of self.old)
            × (steps_of self.new ≡ steps_of self.old) }
        ensures other { (worker_number other.new ≡ worker_number other.old) × (state_of other.new ≡ state_of other.old)
            × (steps_of other.new ≡ steps_of other.old) }
        ensures mine { IsWorkerOf (table_of hall.now) (setup_of hall.now) self.new }
        ensures theirs { IsWorkerOf (table_of hall.now) (setup_of hall.now) other.new }
        ensures floors { (n : ℕ) × (seen : List ℕ)
            × FloorsAt (table_of hall.now) (setup_of hall.now) n seen self.old self.new
            × FloorsAt (table_of hall.now) (setup_of hall.now) n seen other.old other.new }
    {
        shared_words::settle(&hall.table.shared, &mut self.seat, self.steps);
        shared_words::settle(&hall.table.shared, &mut other.seat, other.steps);
        let _found = shared_words::meet(&hall.table.shared, &mut self.seat, &mut other.seat);
    }

    /// The number of the worker's thread, from 0 on.
    pub fn thread(&self) -> u32
        ensures { result ≡ worker_number self.now }
    {
        self.number
    }

    /// How the worker is: `Budget` wherever its thread is neither ended nor trapped, also before its first `run`.
    pub fn status(&self) -> RunEnd
        ensures { IsStatusOf result (thread_of self.now).status }
    {
        match self.thread_status() {
            Status::Running => RunEnd::Budget,
            Status::Ended => RunEnd::Ended,
            Status::Trapped(cause) => RunEnd::Trapped(cause),
        }
    }

    /// Whether the worker's thread runs, has ended or has trapped.
    pub fn thread_status(&self) -> Status
        ensures { result ≡ (thread_of self.now).status }
    {
        self.thread.status()
    }

    /// What the worker's thread has printed so far.
    pub fn output(&self) -> &str
        ensures { result.now ≡ (thread_of self.now).text }
    {
        self.thread.output()
    }

    /// How many steps the worker has made.
    pub fn steps(&self) -> u64
        ensures { result ≡ steps_of self.now }
    {
        self.steps
    }

    /// How many of the worker's steps were accesses to the lock or a cell.
    pub fn accesses(&self) -> u64
        ensures { result ≡ accesses_of self.now }
    {
        self.thread.accesses()
    }

    /// What the worker has counted of its thread's attempts.
    pub fn tally(&self) -> Tally
        ensures { result ≡ tally_of self.now }
    {
        self.tally
    }
}
