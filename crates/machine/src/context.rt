//! A thread as code keeps it: its frames, its core, and what it has printed.

ghost use Rattle.std.specs.Prelude.{◌≡◌, ◌<◌, ◌≤◌, ◌^◌, ◌↔◌, ◌++◌, ◌+◌, ◌-◌, ℕ, true, false, None, Some, IsSomeAnd};
ghost use Rattle.std.specs.Prelude.{if◌then◌else◌, IfNone, IfOk, IfSome, OnOk, OnErr, length, string_bytes, string_len};
ghost use Rattle.std.specs.Prelude.{slice_get, string_capacity};
ghost use Rattle.syntax.specs.declared.thread_end.Status.TheVariants.{Running};
ghost use Rattle.bytecode.specs.Effects.{Effect, after_cancel};
ghost use Rattle.bytecode.specs.Code.{effect, onward};
ghost use Rattle.bytecode.specs.Valid.{IsValid};
ghost use Rattle.local_steps.specs.Local.{MayEnd};
ghost use Rattle.frames.specs.Open.{IsConfigurationOf, CanRestore, begin_configuration, saved_in};
ghost use Rattle.frames.specs.Stack.{HasRoom};
ghost use Rattle.frames.specs.Doings.{IsCall, IsDoingAt, IsPauseAt, piece_of};
ghost use Rattle.norec_core.specs.Accesses.{IsAnswerTo, stops};
ghost use Rattle.norec_core.specs.declared.step.Answer.{Answer as Reply};
ghost use Rattle.norec_core.specs.declared.step.Answer.TheVariants.{Value};
ghost use Rattle.machine.specs.Threads.{access, step_with as told_spec, resume as resume_spec, status_after};
ghost use Rattle.machine.specs.Threads.{with_value};
ghost use Rattle.norec_core.specs.Cores.{CommitsLocally, IsStoring};
ghost use Rattle.norec_core.specs.Phases.{core_access};
ghost use Rattle.machine.specs.Standing.{begins_of};
ghost use Rattle.machine.specs.States.{IsLeft, IsReady, IsWordOf, MayWantMemory};
ghost use Rattle.machine.specs.inner.Inside.{LeadsTo, MayAdvance};
ghost use Rattle.machine.specs.inner.Contexts.{context_of, ready, machine_thread, AreWithin, IsContextOf};
ghost use Rattle.machine.specs.inner.Contexts.{RunsInContext, MayGoBack, Makes, LacksRoom};
ghost use Rattle.machine.specs.inner.Contexts.{Advances, back_by, back_done, event_by, event_done, op_by, op_asked};

use crate::event::Event;
use crate::inside::Inside;
use crate::loads::Loads;
use bytecode::Code;
use frames::{Doing, Frames, prepare_piece, push_piece};
use local_steps::Pause;
use norec_core::{Access, Answer, Core, Op, OpOutcome, Stop};
use std::alloc::{AllocError, Allocator};
use syntax::thread_end::Status;

/// What a thread keeps.
#[derive(Drop)]
pub(crate) struct ThreadContext<A: Allocator> {
    pub frames: Frames<A>,
    pub core: Core<A>,
    /// A trap has made its local step, and releases the kept lock next.
    pub trapping: bool,
    pub text: String<A>,
    pub status: Status,
}

/// What is to be done in a transaction, asked of the core.
#[inline(always)]
fn op_of(doing: Doing, keeps: bool, trapping: bool) -> Option<Op>
    ensures { result ≡ op_by doing keeps trapping }
{
    match doing {
        Doing::Begin(_) => Some(Op::Begin),
        Doing::Read(_, cell) => Some(Op::Read(cell)),
        Doing::Write(cell, word) => Some(Op::Write(cell, word)),
        Doing::Commit => Some(Op::Commit),
        Doing::Cancel => Some(Op::Cancel),
        Doing::CancelOuter(levels) => Some(Op::CancelOuter(levels)),
        Doing::Irrevocable => Some(Op::Irrevocable),
        Doing::Traps(_) => {
            if keeps && !trapping {
                None
            } else {
                Some(Op::Release)
            }
        }
        Doing::Local => None,
        Doing::Call => None,
        Doing::Return(_) => None,
        Doing::End => None,
        Doing::PrintText(_) => None,
        Doing::PrintNumber(_) => None,
    }
}

/// Goes back to what the core set aside.
#[inline(never)]
pub(crate) fn go_back<A: Allocator + Copy>(frames: &mut Frames<A>, core: &Core<A>)
    requires { CanRestore frames.old.configuration core.now.saved }
    ensures { frames.new.configuration ≡ begin_configuration frames.old.configuration core.now.saved }
{
    let saved = core.saved();
    frames.restore(saved.registers(), saved.frames(), saved.place());
}

/// Goes on where a cancel of the begin that stands here does.
#[inline(never)]
fn cancel<A: Allocator + Copy, B: Allocator>(frames: &mut Frames<A>, code: &Code<B>)
    requires { IsConfigurationOf code.now frames.old.configuration }
    ensures { frames.new.configuration ≡ after_cancel (effect code.now frames.old.configuration)
        frames.old.configuration }
{
    if let Doing::Begin(to) = frames.doing(code) {
        frames.go_to(to);
    }
}

/// A cancel is done: the thread goes back to the begin that it was of, and on where that says.
#[inline(always)]
fn take_cancel<A: Allocator + Copy, B: Allocator>(
    frames: &mut Frames<A>,
    core: &Core<A>,
    code: &Code<B>,
) -> Event
    requires can { CanRestore frames.old.configuration core.now.saved }
    requires of { IsConfigurationOf code.now (begin_configuration frames.old.configuration core.now.saved) }
    ensures configuration { frames.new.configuration
        ≡ after_cancel (effect code.now (begin_configuration frames.old.configuration core.now.saved))
        (begin_configuration frames.old.configuration core.now.saved) }
    ensures event { result ≡ Event.Cancel }
{
    go_back(frames, core);
    cancel(frames, code);
    Event::Cancel
}

/// A read has this word.
fn take<A: Allocator + Copy, B: Allocator>(
    frames: &mut Frames<A>,
    code: &Code<B>,
    doing: Doing,
    word: u64,
)
    requires of { IsConfigurationOf code.now frames.old.configuration }
    requires tells { IsDoingAt code.now frames.old.configuration doing }
    ensures { frames.new.configuration ≡ with_value (effect code.now frames.old.configuration) frames.old.configuration
        word }
{
    if let Doing::Read(d, _) = doing {
        frames.set(code, d, word);
    }
}

/// The operation is done.
#[inline(always)]
fn finish<A: Allocator + Copy, B: Allocator>(
    frames: &mut Frames<A>,
    core: &Core<A>,
    status: &mut Status,
    code: &Code<B>,
    doing: Doing,
) -> Event
    requires of { IsConfigurationOf code.now frames.old.configuration }
    requires tells { IsDoingAt code.now frames.old.configuration doing }
    requires back { MayGoBack code.now frames.old.configuration core.now.saved
        (back_done (effect code.now frames.old.configuration)
        (begin_configuration frames.old.configuration core.now.saved)) }
    ensures configuration { frames.new.configuration ≡ resume_spec (effect code.now)
        (effect code.now frames.old.configuration) frames.old.configuration OpOutcome.Done
        (back_done (effect code.now frames.old.configuration)
        (begin_configuration frames.old.configuration core.now.saved)) }
    ensures status { status.new ≡ status_after OpOutcome.Done (effect code.now frames.old.configuration) status.old }
    ensures event { result ≡ event_done (effect code.now frames.old.configuration) core.now.attempt }
{
    match doing {
        Doing::Begin(_) => {
            frames.go_on(code);
            Event::Quiet
        }
        Doing::Write(_, _) => {
            frames.go_on(code);
            Event::Quiet
        }
        Doing::Irrevocable => {
            frames.go_on(code);
            Event::Quiet
        }
        Doing::Commit => {
            frames.go_on(code);
            if core.has_attempt() {
                Event::Quiet
            } else {
                Event::Commit
            }
        }
        Doing::Cancel => take_cancel(frames, core, code),
        Doing::CancelOuter(_) => take_cancel(frames, core, code),
        Doing::Traps(cause) => {
            *status = Status::Trapped(cause);
            Event::Trap(cause)
        }
        Doing::Read(_, _) => Event::Quiet,
        Doing::Local => Event::Quiet,
        Doing::Call => Event::Quiet,
        Doing::Return(_) => Event::Quiet,
        Doing::End => Event::Quiet,
        Doing::PrintText(_) => Event::Quiet,
        Doing::PrintNumber(_) => Event::Quiet,
    }
}

/// The thread goes where its operation leads, by what has come of it.
#[inline(always)]
fn resume<A: Allocator + Copy, B: Allocator>(
    frames: &mut Frames<A>,
    core: &Core<A>,
    status: &mut Status,
    code: &Code<B>,
    doing: Doing,
    outcome: OpOutcome,
) -> Event
    requires of { IsConfigurationOf code.now frames.old.configuration }
    requires tells { IsDoingAt code.now frames.old.configuration doing }
    requires back { MayGoBack code.now frames.old.configuration core.now.saved
        (back_by (effect code.now frames.old.configuration) outcome
        (begin_configuration frames.old.configuration core.now.saved)) }
    ensures configuration { frames.new.configuration ≡ resume_spec (effect code.now)
        (effect code.now frames.old.configuration) frames.old.configuration outcome
        (back_by (effect code.now frames.old.configuration) outcome
        (begin_configuration frames.old.configuration core.now.saved)) }
    ensures status { status.new ≡ status_after outcome (effect code.now frames.old.configuration) status.old }
    ensures event { result ≡ event_by (effect code.now frames.old.configuration) outcome core.now.attempt }
{
    match outcome {
        OpOutcome::Going => Event::Quiet,
        OpOutcome::Read(word) => {
            take(frames, code, doing, word);
            Event::Quiet
        }
        OpOutcome::Aborted => {
            go_back(frames, core);
            Event::Abort
        }
        OpOutcome::Done => finish(frames, core, status, code, doing),
    }
}

/// Prints. There is room.
#[inline(never)]
fn print<A: Allocator + Copy, B: Allocator>(
    frames: &mut Frames<A>,
    text: &mut String<A>,
    code: &Code<B>,
    doing: Doing,
)
    requires of { IsConfigurationOf code.now frames.old.configuration }
    requires room { string_len text.old + length (piece_of code.now doing) ≤ string_capacity text.old }
    ensures configuration { frames.new.configuration ≡ onward frames.old.configuration }
    ensures text { string_bytes text.new ≡ string_bytes text.old ++ piece_of code.now doing }
{
    match push_piece(text, code, doing) {
        Ok(()) => frames.go_on(code),
        Err(_) => unreachable!(),
    }
}

/// Makes room for what a step of the thread's own may add. The error comes only where there is none.
#[inline(never)]
fn make_room<A: Allocator + Copy, B: Allocator>(
    frames: &mut Frames<A>,
    text: &mut String<A>,
    code: &Code<B>,
    doing: Doing,
) -> Result<(), AllocError>
    requires of { IsConfigurationOf code.now frames.old.configuration }
    requires tells { IsDoingAt code.now frames.old.configuration doing }
    ensures configuration { frames.new.configuration ≡ frames.old.configuration }
    ensures text { string_bytes text.new ≡ string_bytes text.old }
    ensures call { OnOk result (IsCall code.now frames.old.configuration → HasRoom code.now frames.new) }
    ensures print { OnOk result (string_len text.new + length (piece_of code.now doing) ≤ string_capacity text.new) }
    ensures more { (frames.old.room ≤ frames.new.room) × (string_capacity text.old ≤ string_capacity text.new) }
    ensures full { OnErr result (LacksRoom code.now frames.old.configuration frames.old.room
        (string_capacity text.old - string_len text.old) (effect code.now frames.old.configuration)) }
{
    match doing {
        Doing::Local => frames.prepare_call(code),
        Doing::Call => frames.prepare_call(code),
        Doing::Return(_) => frames.prepare_call(code),
        Doing::PrintText(_) => prepare_piece(text, code, doing),
        Doing::PrintNumber(_) => prepare_piece(text, code, doing),
        _ => Ok(()),
    }
}

/// Whether an operation is asked for again.
#[inline(always)]
fn goes_on(outcome: OpOutcome) -> bool
    ensures { result ≡ true → outcome ≡ OpOutcome.Going }
{
    match outcome {
        OpOutcome::Going => true,
        _ => false,
    }
}

/// Enters the function that is called here, with room made for its frame: whether it did. It does not where no room is
/// given.
#[inline(never)]
fn enter<A: Allocator + Copy, B: Allocator>(
    frames: &mut Frames<A>,
    code: &Code<B>,
    doing: Doing,
) -> bool
    requires of { IsConfigurationOf code.now frames.old.configuration }
    requires tells { IsDoingAt code.now frames.old.configuration doing }
    ensures passed { result ≡ true → effect code.now frames.old.configuration ≡ Effect.Pure frames.new.configuration }
    ensures still { result ≡ false → frames.new.configuration ≡ frames.old.configuration }
    ensures full { result ≡ false → doing ≡ Doing.Call → HasRoom code.now frames.old → ⊥ }
{
    match doing {
        Doing::Call => match frames.prepare_call(code) {
            Ok(()) => {
                frames.call(code);
                true
            }
            Err(_) => false,
        },
        _ => false,
    }
}

/// Makes the call that stands here: whether it did. It does not where no room is given.
#[inline(always)]
fn call<A: Allocator + Copy, B: Allocator>(
    frames: &mut Frames<A>,
    code: &Code<B>,
    pause: Pause,
) -> bool
    requires of { IsConfigurationOf code.now frames.old.configuration }
    requires pauses { IsPauseAt code.now frames.old.configuration pause }
    ensures passed { result ≡ true → effect code.now frames.old.configuration ≡ Effect.Pure frames.new.configuration }
    ensures still { result ≡ false → frames.new.configuration ≡ frames.old.configuration }
{
    if frames.enter(code) {
        return true;
    }
    let doing = frames.doing_at_pause(code, pause);
    enter(frames, code, doing)
}

/// Makes the call or the return that stands here: whether it did. It does not where no room is given, or no caller is.
#[inline(always)]
fn change_frames<A: Allocator + Copy, B: Allocator>(
    frames: &mut Frames<A>,
    code: &Code<B>,
    pause: Pause,
) -> bool
    requires of { IsConfigurationOf code.now frames.old.configuration }
    requires pauses { IsPauseAt code.now frames.old.configuration pause }
    ensures passed { result ≡ true → effect code.now frames.old.configuration ≡ Effect.Pure frames.new.configuration }
    ensures still { result ≡ false → frames.new.configuration ≡ frames.old.configuration }
    ensures returns { (word : ℕ) → result ≡ false → pause ≡ Pause.Return word
        → length frames.new.configuration.frames ≡ 0 }
{
    match pause {
        Pause::Return(word) => {
            if !frames.has_caller() {
                return false;
            }
            frames.give_back(code, word);
            true
        }
        Pause::Call => call(frames, code, pause),
        _ => false,
    }
}

impl<A: Allocator + Copy> ThreadContext<A> {
    /// What the next step asks of the core, if anything.
    #[inline(always)]
    fn asks(&self, doing: Doing) -> Option<Op>
        ensures { result ≡ op_asked doing self.now.core.attempt self.now.trapping }
    {
        if self.core.has_attempt() {
            return op_of(doing, self.core.is_kept(), self.trapping);
        }
        match doing {
            Doing::Begin(_) => Some(Op::Begin),
            _ => None,
        }
    }

    /// Makes the step of a commit, where the core makes it at once: whether it did.
    #[inline(always)]
    fn commit<B: Allocator>(&mut self, code: &Code<B>) -> bool
        requires valid { IsValid code.now }
        requires running { self.old.status ≡ Running }
        requires runs { RunsInContext code.now (context_of self.old) }
        requires tells { IsDoingAt code.now self.old.frames.configuration Doing.Commit }
        ensures advances { Advances code.now (context_of self.old) (if result then 1 else 0) (context_of self.new) }
        ensures running { self.new.status ≡ Running }
        ensures still { result ≡ false → self.new.frames.configuration ≡ self.old.frames.configuration }
        ensures not_done { result ≡ false → self.new.core.attempt ≡ self.old.core.attempt }
        ensures locally { result ≡ false → IsSomeAnd self.old.core.attempt (λ a. CommitsLocally a) → ⊥ }
    {
        if !self.core.commit() {
            return false;
        }
        self.trapping = false;
        self.frames.go_on(code);
        true
    }

    /// Makes the step that stands here, where it is a call or a return, or a commit that makes no access: whether it
    /// did.
    #[inline(always)]
    fn pass<B: Allocator>(&mut self, code: &Code<B>, pause: Pause) -> bool
        requires valid { IsValid code.now }
        requires running { self.old.status ≡ Running }
        requires runs { RunsInContext code.now (context_of self.old) }
        requires pauses { IsPauseAt code.now self.old.frames.configuration pause }
        ensures advances { Advances code.now (context_of self.old) (if result then 1 else 0) (context_of self.new) }
        ensures running { self.new.status ≡ Running }
        ensures still { result ≡ false → self.new.frames.configuration ≡ self.old.frames.configuration }
        ensures commits { result ≡ false → pause ≡ Pause.Commit
            → IsSomeAnd self.new.core.attempt (λ a. CommitsLocally a) → ⊥ }
        ensures returns { (word : ℕ) → result ≡ false → pause ≡ Pause.Return word
            → length self.new.frames.configuration.frames ≡ 0 }
    {
        match pause {
            Pause::Commit => self.commit(code),
            _ => change_frames(&mut self.frames, code, pause),
        }
    }

    /// Steps in the frames, and accesses between them, at most so many: how many they were, and where they are fewer
    /// what they tell of the instruction that stands there.
    #[inline(always)]
    fn advance_frames<B: Allocator, L: Loads>(
        &mut self,
        code: &Code<B>,
        loads: &mut L,
        accesses: &mut u64,
        most: u64,
    ) -> (u64, Option<Pause>)
        requires valid { IsValid code.now }
        requires running { self.old.status ≡ Running }
        requires runs { RunsInContext code.now (context_of self.old) }
        requires can { MayAdvance L.leads L.can_step code.now loads.old
            (record { thread = machine_thread (context_of self.old); accesses = accesses.old }) most }
        ensures leads { LeadsTo L.leads code.now loads.old
            (record { thread = machine_thread (context_of self.old); accesses = accesses.old }) result.0 loads.new
            (record { thread = machine_thread (context_of self.new); accesses = accesses.new }) }
        ensures running { self.new.status ≡ Running }
        ensures runs { RunsInContext code.now (context_of self.new) }
        ensures within { AreWithin self.new.frames.configuration (begins_of self.new.core.attempt) }
        ensures count { result.0 ≤ most }
        ensures all { IfNone result.1 (result.0 ≡ most) }
        ensures pauses { IfSome result.1 (λ pause. (result.0 < most)
            × IsPauseAt code.now self.new.frames.configuration pause) }
        ensures ends { result.0 < most
            → MayEnd (slice_get code.now.instructions self.new.frames.configuration.place)
            (effect code.now self.new.frames.configuration) }
    {
        let mut inside = Inside {
            core: &mut self.core,
            trapping: &mut self.trapping,
            accesses,
            loads,
        };
        self.frames.advance(code, &mut inside, most)
    }

    /// Makes local steps, and reads and writes between them where these can be made, at most so many, as far as it can:
    /// how many they were, and where they are fewer what is to be done then.
    #[inline(always)]
    pub(crate) fn advance<B: Allocator, L: Loads>(
        &mut self,
        code: &Code<B>,
        loads: &mut L,
        accesses: &mut u64,
        most: u64,
    ) -> (u64, Option<Doing>)
        requires valid { IsValid code.now }
        requires running { self.old.status ≡ Running }
        requires runs { RunsInContext code.now (context_of self.old) }
        requires can { L.can_step code.now loads.old
            (record { thread = machine_thread (context_of self.old); accesses = accesses.old }) most }
        ensures leads { L.leads code.now loads.old
            (record { thread = machine_thread (context_of self.old); accesses = accesses.old })
            result.0 loads.new (record { thread = machine_thread (context_of self.new); accesses = accesses.new }) }
        ensures of { IsContextOf code.now (context_of self.new) }
        ensures within { AreWithin self.new.frames.configuration (begins_of self.new.core.attempt) }
        ensures count { result.0 ≤ most }
        ensures all { IfNone result.1 (result.0 ≡ most) }
        ensures tells { IfSome result.1 (λ doing. (result.0 < most)
            × IsDoingAt code.now self.new.frames.configuration doing) }
        ensures left { IfSome result.1 (λ doing. IsLeft self.new.core.attempt doing) }
    {
        let mut left = most;
        loads.stays();
        'passes: while left > 0 {
            let (steps, paused) = self.advance_frames(code, loads, accesses, left);
            left -= steps;
            let Some(pause) = paused else {
                return (most, None);
            };
            loads.goes_on();
            if !self.pass(code, pause) {
                return (most - left, Some(self.frames.doing_at_pause(code, pause)));
            }
            left -= 1;
        }
        (most, None)
    }

    /// Names the access of the next step of a thread that runs, and makes all ready for it.
    #[inline(always)]
    pub(crate) fn prepare<B: Allocator>(
        &mut self,
        code: &Code<B>,
        doing: Doing,
    ) -> Result<Access, Stop>
        requires running { self.old.status ≡ Running }
        requires runs { RunsInContext code.now (context_of self.old) }
        requires tells { IsDoingAt code.now self.old.frames.configuration doing }
        ensures attempt { self.new.core.attempt ≡ self.old.core.attempt }
        ensures configuration { self.new.frames.configuration ≡ self.old.frames.configuration }
        ensures trapping { self.new.trapping ≡ self.old.trapping }
        ensures text { string_bytes self.new.text ≡ string_bytes self.old.text }
        ensures status { self.new.status ≡ self.old.status }
        ensures access { IfOk result (λ x. (x ≡ access (effect code.now) (machine_thread (context_of self.old)))
            × (stops x ≡ false)) }
        ensures ready { OnOk result (IsReady code.now (machine_thread (context_of self.old)) (ready self.new)) }
        ensures still { OnErr result (IsReady code.now (machine_thread (context_of self.old)) (ready self.old)
            → IsReady code.now (machine_thread (context_of self.old)) (ready self.new)) }
        ensures used_up { (result ≡ Err Stop.SequenceUsedUp)
            ↔ (stops (access (effect code.now) (machine_thread (context_of self.old))) ≡ true) }
        ensures full { result ≡ Err Stop.OutOfMemory
            → MayWantMemory code.now (machine_thread (context_of self.old)) (ready self.old) }
    {
        match self.asks(doing) {
            Some(op) => self.core.prepare(
                op,
                self.frames.registers(),
                self.frames.frames(),
                self.frames.place(),
            ),
            None => match make_room(&mut self.frames, &mut self.text, code, doing) {
                Ok(()) => Ok(Access::Local),
                Err(_) => Err(Stop::OutOfMemory),
            },
        }
    }

    /// The step of an operation: what happened, and whether the operation goes on.
    #[inline(always)]
    fn told_operation<B: Allocator>(
        &mut self,
        code: &Code<B>,
        doing: Doing,
        op: Op,
        answer: Answer,
    ) -> (Event, bool)
        requires valid { IsValid code.now }
        requires running { self.old.status ≡ Running }
        requires runs { RunsInContext code.now (context_of self.old) }
        requires tells { IsDoingAt code.now self.old.frames.configuration doing }
        requires asked { op_asked doing self.old.core.attempt self.old.trapping ≡ Some op }
        requires ready { IsReady code.now (machine_thread (context_of self.old)) (ready self.old) }
        requires fits { IsAnswerTo (access (effect code.now) (machine_thread (context_of self.old))) answer }
        requires word { IsWordOf code.now (access (effect code.now) (machine_thread (context_of self.old))) answer }
        ensures makes { Makes code.now (told_spec (effect code.now) (machine_thread (context_of self.old)) answer)
            (context_of self.new) result.0 }
        ensures again { result.1 ≡ true → self.new.frames.configuration ≡ self.old.frames.configuration }
    {
        let outcome = self.core.told_as(op, answer);
        self.trapping = false;
        let event = resume(
            &mut self.frames,
            &self.core,
            &mut self.status,
            code,
            doing,
            outcome,
        );
        (event, goes_on(outcome))
    }

    /// A step of the thread's own.
    #[inline(never)]
    fn work<B: Allocator>(&mut self, code: &Code<B>, doing: Doing) -> Event
        requires valid { IsValid code.now }
        requires running { self.old.status ≡ Running }
        requires runs { RunsInContext code.now (context_of self.old) }
        requires tells { IsDoingAt code.now self.old.frames.configuration doing }
        requires asked { op_asked doing self.old.core.attempt self.old.trapping ≡ None }
        requires ready { IsReady code.now (machine_thread (context_of self.old)) (ready self.old) }
        ensures { (answer : Reply)
            → Makes code.now (told_spec (effect code.now) (machine_thread (context_of self.old)) answer)
            (context_of self.new) result }
    {
        let inside = self.core.has_attempt();
        match doing {
            Doing::Local => {
                self.frames.step(code);
                Event::Quiet
            }
            Doing::Call => {
                self.frames.call(code);
                Event::Quiet
            }
            Doing::Return(word) => {
                self.frames.give_back(code, word);
                Event::Quiet
            }
            Doing::PrintText(_) => self.work_print(code, doing),
            Doing::PrintNumber(_) => self.work_print(code, doing),
            Doing::Irrevocable => {
                self.frames.go_on(code);
                Event::Quiet
            }
            Doing::Traps(cause) => {
                if inside {
                    self.trapping = true;
                    return Event::Quiet;
                }
                self.status = Status::Trapped(cause);
                Event::Trap(cause)
            }
            Doing::End => {
                if !inside {
                    self.status = Status::Ended;
                }
                Event::Quiet
            }
            Doing::Read(_, _) => Event::Quiet,
            Doing::Write(_, _) => Event::Quiet,
            Doing::Begin(_) => Event::Quiet,
            Doing::Commit => Event::Quiet,
            Doing::Cancel => Event::Quiet,
            Doing::CancelOuter(_) => Event::Quiet,
        }
    }

    /// A print stands still in a transaction while the lock is not kept.
    fn work_print<B: Allocator>(&mut self, code: &Code<B>, doing: Doing) -> Event
        requires valid { IsValid code.now }
        requires running { self.old.status ≡ Running }
        requires runs { RunsInContext code.now (context_of self.old) }
        requires prints { effect code.now self.old.frames.configuration
            ≡ Effect.Print (piece_of code.now doing) (onward self.old.frames.configuration) }
        requires ready { IsReady code.now (machine_thread (context_of self.old)) (ready self.old) }
        ensures { (answer : Reply)
            → Makes code.now (told_spec (effect code.now) (machine_thread (context_of self.old)) answer)
            (context_of self.new) result }
    {
        if self.core.has_attempt() && !self.core.is_kept() {
            return Event::Quiet;
        }
        print(&mut self.frames, &mut self.text, code, doing);
        Event::Quiet
    }

    /// The step of an outermost begin that was prepared, with the lock's value that was loaded.
    #[inline(always)]
    pub(crate) fn take_begin<B: Allocator>(&mut self, code: &Code<B>, to: u32, lock: u64) -> Event
        requires valid { IsValid code.now }
        requires running { self.old.status ≡ Running }
        requires runs { RunsInContext code.now (context_of self.old) }
        requires tells { IsDoingAt code.now self.old.frames.configuration (Doing.Begin to) }
        requires none { self.old.core.attempt ≡ None }
        requires saved { self.old.core.saved ≡ saved_in self.old.frames.configuration }
        ensures { Makes code.now (told_spec (effect code.now) (machine_thread (context_of self.old)) (Value lock))
            (context_of self.new) result }
    {
        let outcome = self.core.take_begin(lock);
        self.trapping = false;
        resume(
            &mut self.frames,
            &self.core,
            &mut self.status,
            code,
            Doing::Begin(to),
            outcome,
        )
    }

    /// The step of a commit that swaps the lock, with its answer.
    #[inline(always)]
    pub(crate) fn take_swap<B: Allocator>(
        &mut self,
        code: &Code<B>,
        from: u64,
        answer: Answer,
    ) -> Event
        requires valid { IsValid code.now }
        requires running { self.old.status ≡ Running }
        requires runs { RunsInContext code.now (context_of self.old) }
        requires tells { IsDoingAt code.now self.old.frames.configuration Doing.Commit }
        requires swaps { core_access self.old.core.attempt Op.Commit ≡ Access.Swap from }
        requires goes_on { stops (Access.Swap from) ≡ false }
        ensures makes { Makes code.now (told_spec (effect code.now) (machine_thread (context_of self.old)) answer)
            (context_of self.new) result }
        ensures still { self.new.frames.configuration ≡ self.old.frames.configuration }
    {
        let outcome = self.core.take_swap(from, answer);
        self.trapping = false;
        resume(
            &mut self.frames,
            &self.core,
            &mut self.status,
            code,
            Doing::Commit,
            outcome,
        )
    }

    /// A step of a commit that stores, whose access was made: what happened, and whether the commit goes on.
    #[inline(always)]
    pub(crate) fn take_store<B: Allocator>(&mut self, code: &Code<B>, index: usize) -> (Event, bool)
        requires valid { IsValid code.now }
        requires running { self.old.status ≡ Running }
        requires runs { RunsInContext code.now (context_of self.old) }
        requires tells { IsDoingAt code.now self.old.frames.configuration Doing.Commit }
        requires stores { IsSomeAnd self.old.core.attempt (λ a. IsStoring index a) }
        ensures makes { (answer : Reply)
            → Makes code.now (told_spec (effect code.now) (machine_thread (context_of self.old)) answer)
            (context_of self.new) result.0 }
        ensures again { result.1 ≡ true → self.new.frames.configuration ≡ self.old.frames.configuration }
    {
        let outcome = self.core.take_store(index);
        self.trapping = false;
        let event = resume(
            &mut self.frames,
            &self.core,
            &mut self.status,
            code,
            Doing::Commit,
            outcome,
        );
        (event, goes_on(outcome))
    }

    /// The step of a thread that runs, with the answer to its access: what happened, and whether the same is to be done
    /// again.
    #[inline(always)]
    pub(crate) fn told<B: Allocator>(
        &mut self,
        code: &Code<B>,
        doing: Doing,
        answer: Answer,
    ) -> (Event, bool)
        requires valid { IsValid code.now }
        requires running { self.old.status ≡ Running }
        requires runs { RunsInContext code.now (context_of self.old) }
        requires tells { IsDoingAt code.now self.old.frames.configuration doing }
        requires ready { IsReady code.now (machine_thread (context_of self.old)) (ready self.old) }
        requires fits { IsAnswerTo (access (effect code.now) (machine_thread (context_of self.old))) answer }
        requires word { IsWordOf code.now (access (effect code.now) (machine_thread (context_of self.old))) answer }
        ensures makes { Makes code.now (told_spec (effect code.now) (machine_thread (context_of self.old)) answer)
            (context_of self.new) result.0 }
        ensures again { result.1 ≡ true → self.new.frames.configuration ≡ self.old.frames.configuration }
    {
        match self.asks(doing) {
            Some(op) => self.told_operation(code, doing, op, answer),
            None => (self.work(code, doing), false),
        }
    }
}
