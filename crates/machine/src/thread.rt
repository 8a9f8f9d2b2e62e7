//! A thread of the machine.

ghost use Rattle.std.specs.Prelude.{◌≡◌, ◌≢◌, ◌+◌, ◌<◌, ◌≤◌, ◌^◌, ◌↔◌, ℕ, [], None, Some, true, false, IfOk, IfNone};
ghost use Rattle.std.specs.Prelude.{IfSome, OnOk, OnErr, OnSome, length};
ghost use Rattle.syntax.specs.declared.thread_end.Status.TheVariants.{Running};
ghost use Rattle.bytecode.specs.Beginning.{beginning};
ghost use Rattle.bytecode.specs.Code.{effect};
ghost use Rattle.norec_core.specs.Accesses.{IsAnswerTo, cost, stops};
ghost use Rattle.norec_core.specs.declared.step.Answer.{Answer as Reply};
ghost use Rattle.norec_core.specs.declared.step.Answer.TheVariants.{Value};
ghost use Rattle.norec_core.specs.Phases.{entry_access};
ghost use Rattle.machine.specs.Threads.{access, step_with as told_spec};
ghost use Rattle.machine.specs.Resting.{IsThreadAtRest};
ghost use Rattle.machine.specs.inner.Doings.{IsBegin};
ghost use Rattle.machine.specs.Standing.{IsThreadOf};
ghost use Rattle.machine.specs.Loads.{counted_thread};
ghost use Rattle.machine.specs.States.{BeginsNext, ComparesEntry, ComparesNext, IsLeft, IsPrepared, IsWordOf};
ghost use Rattle.machine.specs.States.{MayWantMemory, StandsAt};
ghost use Rattle.machine.specs.States.{StandsStill, StoresNext, SwapsNext, WaitsNext, first_thread, thread_has_lock};
ghost use Rattle.machine.specs.inner.Contexts.{cost_if};

use crate::context::ThreadContext;
use crate::event::Event;
use crate::loads::Loads;
use crate::place::{PlaceShown, place_shown};
use crate::validation::is_validated;
use bytecode::Code;
use frames::{Doing, Frames};
use norec_core::{Access, Answer, Core, Stop};
use std::alloc::{AllocError, Allocator, Global};
use std::marker::Model;
use syntax::thread_end::Status;

/// One thread of the machine. It keeps no code: each call is given the code of `new`.
///
/// A step is made in two calls, with its one access to the lock or the words between them: `prepare` names the access
/// and makes all room that the step needs, `told` takes the answer, and neither fails nor takes memory.
#[derive(Drop)]
pub struct Thread<A: Allocator = Global> {
    context: ThreadContext<A>,
    accesses: u64,
    prepared: Option<Access>,
}

impl<A: Allocator> Model for Thread<A> {
    ghost use Rattle.machine.specs.States.{ThreadState};

    ghost Value = { ThreadState };

    ghost use Rattle.machine.specs.Standing.{begins_of};
    ghost use Rattle.machine.specs.inner.Contexts.{AreWithin, context_of, ready, machine_thread};

    ghost view = { λ t. record {
      thread = machine_thread (context_of t.context);
      prepared = t.prepared;
      accesses = t.accesses;
      ready = ready t.context;
    } };

    // The frames of all open begins are still there.
    ghost invariant = { λ t. AreWithin t.context.frames.configuration (begins_of t.context.core.attempt) };
}

/// How many accesses to the lock or the words what was prepared makes.
#[inline(always)]
fn cost_of(prepared: Option<Access>) -> u64
    ensures { result ≡ cost_if prepared }
{
    match prepared {
        None => 0,
        Some(Access::Local) => 0,
        Some(_) => 1,
    }
}

/// What stands to be done where no step is made of so many.
fn idle(most: u64) -> Option<Doing>
    ensures all { IfNone result (0 ≡ most) }
    ensures local { IfSome result (λ doing. (0 < most) × (doing ≡ Doing.Local)) }
{
    if most == 0 { None } else { Some(Doing::Local) }
}

fn is_begin(doing: Doing) -> bool
    ensures { result ≡ true ↔ IsBegin doing }
{
    match doing {
        Doing::Begin(_) => true,
        _ => false,
    }
}

impl<A: Allocator + Copy> Thread<A> {
    /// Thread `number` at its beginning. The error comes only where memory is refused.
    pub fn new<B: Allocator>(alloc: A, code: &Code<B>, number: u32) -> Result<Thread<A>, AllocError>
        ensures thread { IfOk result (λ t. t.thread ≡ first_thread code.now number) }
        ensures of { IfOk result (λ t. IsThreadOf code.now t.thread) }
        ensures accesses { IfOk result (λ t. t.accesses ≡ 0) }
    {
        // The prover learns here that the code is valid.
        code.note_valid();
        // Room that is written in seldom lies before and behind the registers, so that no two threads write in one of
        // the processor's lines.
        let mut text = String::new(alloc);
        text.reserve(128)?;
        let frames = Frames::new(alloc, code, number)?;
        let core = Core::new(alloc);
        Ok(Thread {
            context: ThreadContext {
                frames,
                core,
                trapping: false,
                text,
                status: Status::Running,
            },
            accesses: 0,
            prepared: None,
        })
    }

    /// What stands at the thread's place to be done, where it runs.
    pub fn doing<B: Allocator>(&self, code: &Code<B>) -> Doing
        requires { IsThreadOf code.now self.now.thread }
        ensures { StandsAt code.now self.now result }
    {
        match self.context.status {
            Status::Running => self.context.frames.doing(code),
            Status::Ended => Doing::Local,
            Status::Trapped(_) => Doing::Local,
        }
    }

    /// Makes local steps, at most so many steps: those in its registers and frames, calls and returns too, writes in a
    /// transaction, reads of what was written in it, and commits that make no access; and between them the two steps of
    /// each other read at which nothing disturbs it, with what is loaded for it. It ends before the first instruction
    /// that does something else, or that wants memory which is refused: how many steps it made, and where they are
    /// fewer what stands there to be done.
    #[inline(always)]
    pub fn advance<B: Allocator, L: Loads>(
        &mut self,
        code: &Code<B>,
        loads: &mut L,
        most: u64,
    ) -> (u64, Option<Doing>)
        requires of { IsThreadOf code.now self.old.thread }
        requires can { L.can_step code.now loads.old (counted_thread self.old) most }
        ensures leads { L.leads code.now loads.old (counted_thread self.old) result.0 loads.new
            (counted_thread self.new) }
        ensures count { result.0 ≤ most }
        ensures all { IfNone result.1 (result.0 ≡ most) }
        ensures stands { IfSome result.1 (λ doing. (result.0 < most) × StandsAt code.now self.new doing) }
        ensures left { self.old.thread.status ≡ Running
            → IfSome result.1 (λ doing. IsLeft self.new.thread.attempt doing) }
        ensures of { IsThreadOf code.now self.new.thread }
    {
        match self.context.status {
            Status::Running => self.context.advance(code, loads, &mut self.accesses, most),
            Status::Ended => {
                loads.stays();
                (0, idle(most))
            }
            Status::Trapped(_) => {
                loads.stays();
                (0, idle(most))
            }
        }
    }

    /// `prepare_at` for what stands at the thread's place to be done.
    pub fn prepare<B: Allocator>(&mut self, code: &Code<B>) -> Result<Access, Stop>
        requires { IsThreadOf code.now self.old.thread }
        ensures thread { self.new.thread ≡ self.old.thread }
        ensures accesses { self.new.accesses ≡ self.old.accesses }
        ensures access { IfOk result (λ x. (x ≡ access (effect code.now) self.old.thread) × (stops x ≡ false)) }
        ensures prepared { OnOk result (IsPrepared code.now self.new) }
        ensures err { OnErr result ((self.old.thread.status ≡ Running) × (self.new.prepared ≡ self.old.prepared)
            × (IsPrepared code.now self.old → IsPrepared code.now self.new)) }
        ensures used_up { (result ≡ Err Stop.SequenceUsedUp)
            ↔ (stops (access (effect code.now) self.old.thread) ≡ true) }
        ensures full { result ≡ Err Stop.OutOfMemory → MayWantMemory code.now self.old.thread self.old.ready }
    {
        let doing = self.doing(code);
        self.prepare_at(code, doing)
    }

    /// `told_at` for what stands at the thread's place to be done.
    pub fn told<B: Allocator>(&mut self, code: &Code<B>, answer: Answer) -> Event
        requires of { IsThreadOf code.now self.old.thread }
        requires prepared { IsPrepared code.now self.old }
        requires fits { IsAnswerTo (access (effect code.now) self.old.thread) answer }
        requires word { IsWordOf code.now (access (effect code.now) self.old.thread) answer }
        requires count { self.old.accesses + cost (access (effect code.now) self.old.thread) < 2 ^ 64 }
        ensures thread { self.new.thread ≡ (told_spec (effect code.now) self.old.thread answer).thread }
        ensures event { result ≡ (told_spec (effect code.now) self.old.thread answer).event }
        ensures of { IsThreadOf code.now self.new.thread }
        ensures accesses { self.new.accesses ≡ self.old.accesses + cost (access (effect code.now) self.old.thread) }
    {
        let doing = self.doing(code);
        let (event, _) = self.told_at(code, doing, answer);
        event
    }

    /// Names the access of the next step, by what is to be done in it, and makes all ready for its answer. A thread
    /// that is over makes local steps that change nothing.
    ///
    /// An error comes only where the thread runs, and leaves it as it was, with what was prepared before: `OutOfMemory`
    /// where room was refused that a begin, a read, a write, a call or a print wants (`MayWantMemory`), and so at no step
    /// of validation, no store and no release; `SequenceUsedUp` where the step would swap the lock from its last even
    /// value.
    #[inline(always)]
    pub fn prepare_at<B: Allocator>(&mut self, code: &Code<B>, doing: Doing) -> Result<Access, Stop>
        requires of { IsThreadOf code.now self.old.thread }
        requires stands { StandsAt code.now self.old doing }
        ensures thread { self.new.thread ≡ self.old.thread }
        ensures accesses { self.new.accesses ≡ self.old.accesses }
        ensures access { IfOk result (λ x. (x ≡ access (effect code.now) self.old.thread) × (stops x ≡ false)) }
        ensures prepared { OnOk result (IsPrepared code.now self.new) }
        ensures err { OnErr result ((self.old.thread.status ≡ Running) × (self.new.prepared ≡ self.old.prepared)
            × (IsPrepared code.now self.old → IsPrepared code.now self.new)) }
        ensures used_up { (result ≡ Err Stop.SequenceUsedUp)
            ↔ (stops (access (effect code.now) self.old.thread) ≡ true) }
        ensures full { result ≡ Err Stop.OutOfMemory → MayWantMemory code.now self.old.thread self.old.ready }
    {
        match self.context.status {
            Status::Running => match self.context.prepare(code, doing) {
                Ok(access) => {
                    self.prepared = Some(access);
                    Ok(access)
                }
                Err(why) => Err(why),
            },
            Status::Ended => {
                self.prepared = Some(Access::Local);
                Ok(Access::Local)
            }
            Status::Trapped(_) => {
                self.prepared = Some(Access::Local);
                Ok(Access::Local)
            }
        }
    }

    /// Makes the step that was prepared, by what is to be done in it, with the answer to its access: what happened, and
    /// whether the same is to be done in the next step. It takes no memory.
    #[inline(always)]
    pub fn told_at<B: Allocator>(
        &mut self,
        code: &Code<B>,
        doing: Doing,
        answer: Answer,
    ) -> (Event, bool)
        requires of { IsThreadOf code.now self.old.thread }
        requires stands { StandsAt code.now self.old doing }
        requires prepared { IsPrepared code.now self.old }
        requires fits { IsAnswerTo (access (effect code.now) self.old.thread) answer }
        requires word { IsWordOf code.now (access (effect code.now) self.old.thread) answer }
        requires count { self.old.accesses + cost (access (effect code.now) self.old.thread) < 2 ^ 64 }
        ensures thread { self.new.thread ≡ (told_spec (effect code.now) self.old.thread answer).thread }
        ensures event { result.0 ≡ (told_spec (effect code.now) self.old.thread answer).event }
        ensures again { result.1 ≡ true → StandsAt code.now self.new doing }
        ensures of { IsThreadOf code.now self.new.thread }
        ensures accesses { self.new.accesses ≡ self.old.accesses + cost (access (effect code.now) self.old.thread) }
    {
        self.accesses += cost_of(self.prepared);
        self.prepared = None;
        match self.context.status {
            Status::Running => self.context.told(code, doing, answer),
            Status::Ended => (Event::Quiet, false),
            Status::Trapped(_) => (Event::Quiet, false),
        }
    }

    /// Prepares the load of the begin that stands at the thread's place, where no attempt is under way: whether it did.
    /// It does not where the room that the begin needs is refused.
    #[inline(always)]
    pub fn prepare_begin<B: Allocator>(&mut self, code: &Code<B>, to: u32) -> bool
        requires of { IsThreadOf code.now self.old.thread }
        requires stands { StandsAt code.now self.old (Doing.Begin to) }
        ensures thread { self.new.thread ≡ self.old.thread }
        ensures accesses { self.new.accesses ≡ self.old.accesses }
        ensures begins { result ≡ true → BeginsNext code.now self.new }
        ensures access { result ≡ true → access (effect code.now) self.new.thread ≡ Access.LoadLock }
        ensures full { result ≡ false → self.old.thread.status ≡ Running → self.old.thread.attempt ≡ None
            → length self.old.ready.saved.registers < length self.old.thread.configuration.registers }
    {
        // The prover names by it where the begin leads.
        let _to = to;
        match self.context.status {
            Status::Running => self.context.core.prepare_begin(
                self.context.frames.registers(),
                self.context.frames.frames(),
                self.context.frames.place(),
            ),
            Status::Ended => false,
            Status::Trapped(_) => false,
        }
    }

    /// Makes the load of the begin that stands at the thread's place, with the lock's value that was loaded. It takes
    /// no memory.
    #[inline(always)]
    pub fn take_begin<B: Allocator>(&mut self, code: &Code<B>, to: u32, lock: u64)
        requires of { IsThreadOf code.now self.old.thread }
        requires stands { StandsAt code.now self.old (Doing.Begin to) }
        requires begins { BeginsNext code.now self.old }
        requires count { self.old.accesses + 1 < 2 ^ 64 }
        ensures thread { self.new.thread ≡ (told_spec (effect code.now) self.old.thread (Value lock)).thread }
        ensures of { IsThreadOf code.now self.new.thread }
        ensures accesses { self.new.accesses ≡ self.old.accesses + 1 }
    {
        self.accesses += 1;
        let _event = self.context.take_begin(code, to, lock);
    }

    /// From which value of the lock the commit that stands at the thread's place swaps it in its next step, where it
    /// does.
    #[inline(always)]
    pub fn swaps_from<B: Allocator>(&self, code: &Code<B>) -> Option<u64>
        requires of { IsThreadOf code.now self.now.thread }
        requires stands { StandsAt code.now self.now Doing.Commit }
        ensures some { IfSome result (λ from. SwapsNext code.now self.now from) }
        ensures none { IfNone result ((from : ℕ) → SwapsNext code.now self.now from → ⊥) }
    {
        match self.context.status {
            Status::Running => self.context.core.swaps_from(),
            Status::Ended => None,
            Status::Trapped(_) => None,
        }
    }

    /// Makes the step in which the commit that stands at the thread's place swaps the lock, with the answer to its
    /// access. The commit stands there still. It takes no memory.
    #[inline(always)]
    pub fn take_swap<B: Allocator>(&mut self, code: &Code<B>, from: u64, answer: Answer)
        requires of { IsThreadOf code.now self.old.thread }
        requires stands { StandsAt code.now self.old Doing.Commit }
        requires swaps { SwapsNext code.now self.old from }
        requires count { self.old.accesses + 1 < 2 ^ 64 }
        ensures thread { self.new.thread ≡ (told_spec (effect code.now) self.old.thread answer).thread }
        ensures of { IsThreadOf code.now self.new.thread }
        ensures stands { StandsAt code.now self.new Doing.Commit }
        ensures accesses { self.new.accesses ≡ self.old.accesses + 1 }
    {
        self.accesses += 1;
        let _event = self.context.take_swap(code, from, answer);
    }

    /// The index in the write log that the thread's commit stores next, where it stores; past the last pair it stores
    /// the lock.
    #[inline(always)]
    pub fn storing(&self) -> Option<usize>
        ensures some { IfSome result (λ index. StoresNext self.now index) }
        ensures none { IfNone result ((index : ℕ) → StoresNext self.now index → ⊥) }
    {
        match self.context.status {
            Status::Running => self.context.core.storing(),
            Status::Ended => None,
            Status::Trapped(_) => None,
        }
    }

    /// The access of the step in which the commit that stands at the thread's place stores a pair or the lock.
    #[inline(always)]
    pub fn store_access<B: Allocator>(&self, code: &Code<B>, index: usize) -> Access
        requires of { IsThreadOf code.now self.now.thread }
        requires stands { StandsAt code.now self.now Doing.Commit }
        requires stores { StoresNext self.now index }
        ensures access { result ≡ access (effect code.now) self.now.thread }
        ensures goes_on { stops result ≡ false }
        ensures cost { cost result ≡ 1 }
    {
        self.context.core.store_access(index)
    }

    /// Makes the step in which the commit that stands at the thread's place stores a pair or the lock, whose access was
    /// made: whether the commit stands there still. It takes no memory.
    #[inline(always)]
    pub fn take_store<B: Allocator>(&mut self, code: &Code<B>, index: usize) -> bool
        requires of { IsThreadOf code.now self.old.thread }
        requires stands { StandsAt code.now self.old Doing.Commit }
        requires stores { StoresNext self.old index }
        requires count { self.old.accesses + 1 < 2 ^ 64 }
        ensures thread { (answer : Reply)
            → self.new.thread ≡ (told_spec (effect code.now) self.old.thread answer).thread }
        ensures again { result ≡ true → StandsAt code.now self.new Doing.Commit }
        ensures of { IsThreadOf code.now self.new.thread }
        ensures accesses { self.new.accesses ≡ self.old.accesses + 1 }
    {
        self.accesses += 1;
        let (_event, again) = self.context.take_store(code, index);
        again
    }

    /// Whether the thread runs, has ended or has trapped.
    pub fn status(&self) -> Status
        ensures { result ≡ self.now.thread.status }
    {
        self.context.status
    }

    /// Whether the thread rests between its transactions: it is over, or has no attempt and stands at a begin.
    pub fn is_at_rest<B: Allocator>(&self, code: &Code<B>) -> bool
        requires { IsThreadOf code.now self.now.thread }
        ensures rests { result ≡ true → IsThreadAtRest (effect code.now) self.now.thread }
        ensures goes_on { result ≡ false → IsThreadAtRest (effect code.now) self.now.thread → ⊥ }
    {
        match self.context.status {
            Status::Running => { !self.context.core.has_attempt() && is_begin(self.doing(code)) }
            Status::Ended => true,
            Status::Trapped(_) => true,
        }
    }

    /// The place in the code at which the thread stands.
    pub fn place(&self) -> u32
        ensures { result ≡ self.now.thread.configuration.place }
    {
        self.context.frames.place()
    }

    /// What is shown of the place at which the thread stands, with the words that it computes with there.
    pub fn place_shown<B: Allocator>(&self, code: &Code<B>) -> PlaceShown {
        let frames = &self.context.frames;
        place_shown(code, frames.place(), frames.registers())
    }

    /// What the thread has printed.
    pub fn output(&self) -> &str
        ensures { result.now ≡ self.now.thread.text }
    {
        self.context.text.as_str()
    }

    /// How many accesses to the lock or the words the thread has made.
    pub fn accesses(&self) -> u64
        ensures { result ≡ self.now.accesses }
    {
        self.accesses
    }

    /// Whether the thread has the lock: from the won swap of a commit, or of an operation that cannot be taken back, to
    /// the release.
    pub fn has_lock(&self) -> bool
        ensures { result ≡ thread_has_lock self.now.thread }
    {
        self.context.core.has_lock()
    }

    /// Whether the operation that stands at the thread's place is under validation, and loads the lock next, until it
    /// is even.
    #[inline(always)]
    pub fn is_waiting<B: Allocator>(&self, code: &Code<B>, doing: Doing) -> bool
        requires of { IsThreadOf code.now self.now.thread }
        requires stands { StandsAt code.now self.now doing }
        ensures waits { result ≡ true → WaitsNext code.now self.now }
        ensures not_waits { result ≡ false → WaitsNext code.now self.now → ⊥ }
        ensures access { result ≡ true → access (effect code.now) self.now.thread ≡ Access.LoadLock }
    {
        match self.context.status {
            Status::Running => is_validated(doing) && self.context.core.is_waiting(),
            Status::Ended => false,
            Status::Trapped(_) => false,
        }
    }

    /// Makes the step of validation that loads the lock, with the lock's value that was loaded. It takes no memory.
    #[inline(always)]
    pub fn take_wait<B: Allocator>(&mut self, code: &Code<B>, lock: u64)
        requires of { IsThreadOf code.now self.old.thread }
        requires waits { WaitsNext code.now self.old }
        requires count { self.old.accesses + 1 < 2 ^ 64 }
        ensures thread { self.new.thread ≡ (told_spec (effect code.now) self.old.thread (Value lock)).thread }
        ensures of { IsThreadOf code.now self.new.thread }
        ensures still { StandsStill code.now self.old self.new }
        ensures accesses { self.new.accesses ≡ self.old.accesses + 1 }
    {
        self.accesses += 1;
        self.context.take_wait(code, lock);
    }

    /// Where the operation that stands at the thread's place is under validation, and compares an entry next, or past
    /// the last one the lock: at which lock value, and the entry's index in the read log.
    #[inline(always)]
    pub fn comparing<B: Allocator>(&self, code: &Code<B>, doing: Doing) -> Option<(u64, usize)>
        requires of { IsThreadOf code.now self.now.thread }
        requires stands { StandsAt code.now self.now doing }
        ensures some { IfSome result (λ at. ComparesNext code.now self.now at.0 at.1) }
        ensures none { IfNone result ((time index : ℕ) → ComparesNext code.now self.now time index → ⊥) }
    {
        match self.context.status {
            Status::Running => {
                if is_validated(doing) {
                    self.context.core.comparing()
                } else {
                    None
                }
            }
            Status::Ended => None,
            Status::Trapped(_) => None,
        }
    }

    /// The entry that validation compares next, the cell whose word is loaded and the word that it must have; none past
    /// the last entry, where the lock is loaded.
    #[inline(always)]
    pub fn entry<B: Allocator>(&self, code: &Code<B>, time: u64, index: usize) -> Option<(u32, u64)>
        requires of { IsThreadOf code.now self.now.thread }
        requires compares { ComparesNext code.now self.now time index }
        ensures entry { ComparesEntry self.now time index result }
        ensures next { OnSome result (index + 1 < 2 ^ 64) }
        ensures access { access (effect code.now) self.now.thread ≡ entry_access result }
    {
        self.context.core.entry(time, index)
    }

    /// Makes the step that compares this entry, where its word was loaded again: the entry behind it is compared next.
    /// It takes no memory.
    #[inline(always)]
    pub fn take_equal<B: Allocator>(
        &mut self,
        code: &Code<B>,
        time: u64,
        index: usize,
        entry: (u32, u64),
    )
        requires of { IsThreadOf code.now self.old.thread }
        requires compares { ComparesNext code.now self.old time index }
        requires entry { ComparesEntry self.old time index (Some entry) }
        requires next { index + 1 < 2 ^ 64 }
        requires word { IsWordOf code.now (Access.LoadWord entry.0) (Value entry.1) }
        requires count { self.old.accesses + 1 < 2 ^ 64 }
        ensures thread { self.new.thread ≡ (told_spec (effect code.now) self.old.thread (Value entry.1)).thread }
        ensures next { ComparesNext code.now self.new time (index + 1) }
        ensures of { IsThreadOf code.now self.new.thread }
        ensures still { StandsStill code.now self.old self.new }
        ensures accesses { self.new.accesses ≡ self.old.accesses + 1 }
    {
        self.accesses += 1;
        self.context.take_equal(code, time, index, entry);
    }

    /// Makes the step that compares this entry, where another word was loaded: the attempt is dropped. It takes no
    /// memory.
    #[inline(always)]
    pub fn take_unequal<B: Allocator>(
        &mut self,
        code: &Code<B>,
        time: u64,
        index: usize,
        entry: (u32, u64),
        word: u64,
    )
        requires of { IsThreadOf code.now self.old.thread }
        requires compares { ComparesNext code.now self.old time index }
        requires entry { ComparesEntry self.old time index (Some entry) }
        requires differs { word ≢ entry.1 }
        requires word { IsWordOf code.now (Access.LoadWord entry.0) (Value word) }
        requires count { self.old.accesses + 1 < 2 ^ 64 }
        ensures thread { self.new.thread ≡ (told_spec (effect code.now) self.old.thread (Value word)).thread }
        ensures of { IsThreadOf code.now self.new.thread }
        ensures accesses { self.new.accesses ≡ self.old.accesses + 1 }
    {
        self.accesses += 1;
        self.context.take_unequal(code, time, index, entry, word);
    }

    /// Makes the step of validation past the last entry, with the lock's value that was loaded: where it is the one at
    /// which validation began it is the new snapshot, else validation begins again. It takes no memory.
    #[inline(always)]
    pub fn take_validation<B: Allocator>(
        &mut self,
        code: &Code<B>,
        time: u64,
        index: usize,
        lock: u64,
    )
        requires of { IsThreadOf code.now self.old.thread }
        requires compares { ComparesNext code.now self.old time index }
        requires entry { ComparesEntry self.old time index None }
        requires count { self.old.accesses + 1 < 2 ^ 64 }
        ensures thread { self.new.thread ≡ (told_spec (effect code.now) self.old.thread (Value lock)).thread }
        ensures of { IsThreadOf code.now self.new.thread }
        ensures still { StandsStill code.now self.old self.new }
        ensures accesses { self.new.accesses ≡ self.old.accesses + 1 }
    {
        self.accesses += 1;
        self.context.take_validation(code, time, index, lock);
    }
}
