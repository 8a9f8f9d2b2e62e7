//! Validation as a thread keeps it, step by step.

ghost use Rattle.std.specs.Prelude.{◌≡◌, ◌≢◌, ◌↔◌, ◌+◌, ◌<◌, ◌^◌, true, None, Some, IsSomeAnd};
ghost use Rattle.syntax.specs.declared.thread_end.Status.TheVariants.{Running};
ghost use Rattle.bytecode.specs.Code.{effect};
ghost use Rattle.bytecode.specs.Valid.{IsValid};
ghost use Rattle.norec_core.specs.declared.step.Answer.TheVariants.{Value};
ghost use Rattle.norec_core.specs.Cores.{ComparesWith, IsComparing, IsWaiting};
ghost use Rattle.machine.specs.Threads.{step_with as told_spec};
ghost use Rattle.machine.specs.States.{IsValidated, asks};
ghost use Rattle.machine.specs.inner.Doings.{MayValidate};
ghost use Rattle.machine.specs.inner.Contexts.{context_of, machine_thread, RunsInContext, Makes};

use crate::context::{ThreadContext, go_back};
use crate::event::Event;
use bytecode::Code;
use frames::Doing;
use std::alloc::Allocator;

/// Whether what is to be done is an operation under which an attempt is validated.
#[inline(always)]
pub(crate) fn is_validated(doing: Doing) -> bool
    ensures { result ≡ true ↔ MayValidate doing }
{
    match doing {
        Doing::Read(_, _) => true,
        Doing::Commit => true,
        Doing::Irrevocable => true,
        _ => false,
    }
}

impl<A: Allocator + Copy> ThreadContext<A> {
    /// A step that waits for an even lock, with the lock's value that was loaded.
    #[inline(always)]
    pub(crate) fn take_wait<B: Allocator>(&mut self, code: &Code<B>, lock: u64)
        requires valid { IsValid code.now }
        requires running { self.old.status ≡ Running }
        requires runs { RunsInContext code.now (context_of self.old) }
        requires operation { IsSomeAnd (asks (effect code.now) (machine_thread (context_of self.old))) IsValidated }
        requires waits { IsSomeAnd self.old.core.attempt (λ a. IsWaiting a) }
        ensures makes { Makes code.now (told_spec (effect code.now) (machine_thread (context_of self.old)) (Value lock))
            (context_of self.new) Event.Quiet }
        ensures still { self.new.frames.configuration ≡ self.old.frames.configuration }
    {
        // The prover names by it the code.
        let _code = code;
        self.core.take_wait(lock);
        self.trapping = false;
    }

    /// A step that compares this entry, whose word was loaded again. The entry behind it is compared next.
    #[inline(always)]
    pub(crate) fn take_equal<B: Allocator>(
        &mut self,
        code: &Code<B>,
        time: u64,
        index: usize,
        entry: (u32, u64),
    )
        requires valid { IsValid code.now }
        requires running { self.old.status ≡ Running }
        requires runs { RunsInContext code.now (context_of self.old) }
        requires operation { IsSomeAnd (asks (effect code.now) (machine_thread (context_of self.old))) IsValidated }
        requires entry { IsSomeAnd self.old.core.attempt (λ a. ComparesWith time index (Some entry) a) }
        requires next { index + 1 < 2 ^ 64 }
        requires word { entry.1 < 2 ^ 64 }
        ensures makes { Makes code.now
            (told_spec (effect code.now) (machine_thread (context_of self.old)) (Value entry.1))
            (context_of self.new) Event.Quiet }
        ensures operation { IsSomeAnd (asks (effect code.now) (machine_thread (context_of self.new))) IsValidated }
        ensures next { IsSomeAnd self.new.core.attempt (λ a. IsComparing time (index + 1) a) }
        ensures running { self.new.status ≡ Running }
        ensures still { self.new.frames.configuration ≡ self.old.frames.configuration }
    {
        // The prover names by it the code.
        let _code = code;
        self.core.take_equal(time, index, entry);
        self.trapping = false;
    }

    /// A step that compares this entry, where another word was loaded.
    #[inline(always)]
    pub(crate) fn take_unequal<B: Allocator>(
        &mut self,
        code: &Code<B>,
        time: u64,
        index: usize,
        entry: (u32, u64),
        word: u64,
    )
        requires valid { IsValid code.now }
        requires running { self.old.status ≡ Running }
        requires runs { RunsInContext code.now (context_of self.old) }
        requires operation { IsSomeAnd (asks (effect code.now) (machine_thread (context_of self.old))) IsValidated }
        requires entry { IsSomeAnd self.old.core.attempt (λ a. ComparesWith time index (Some entry) a) }
        requires differs { word ≢ entry.1 }
        requires word { word < 2 ^ 64 }
        ensures { Makes code.now (told_spec (effect code.now) (machine_thread (context_of self.old)) (Value word))
            (context_of self.new) Event.Abort }
    {
        // The prover names by it the code.
        let _code = code;
        self.core.take_unequal(time, index, entry, word);
        self.trapping = false;
        go_back(&mut self.frames, &self.core);
    }

    /// A step past the last entry, with the lock's value that was loaded.
    #[inline(always)]
    pub(crate) fn take_validation<B: Allocator>(
        &mut self,
        code: &Code<B>,
        time: u64,
        index: usize,
        lock: u64,
    )
        requires valid { IsValid code.now }
        requires running { self.old.status ≡ Running }
        requires runs { RunsInContext code.now (context_of self.old) }
        requires operation { IsSomeAnd (asks (effect code.now) (machine_thread (context_of self.old))) IsValidated }
        requires entry { IsSomeAnd self.old.core.attempt (λ a. ComparesWith time index None a) }
        ensures makes { Makes code.now (told_spec (effect code.now) (machine_thread (context_of self.old)) (Value lock))
            (context_of self.new) Event.Quiet }
        ensures still { self.new.frames.configuration ≡ self.old.frames.configuration }
    {
        // The prover names by it the code.
        let _code = code;
        self.core.take_validation(time, index, lock);
        self.trapping = false;
    }
}
