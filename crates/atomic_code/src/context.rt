//! The context of a thread between instructions, and one instruction of it.

ghost use Rattle.std.specs.Prelude.{◌≡◌, ◌<◌, ◌↔◌, ℕ, Option, None, Some, IfOk, OnErr, IsTrue, length, option_map};
ghost use Rattle.syntax.specs.declared.thread_end.Status.TheVariants.{Running};
ghost use Rattle.syntax.specs.Behaviours.{Memory};
ghost use Rattle.bytecode.specs.Effects.{Effect, after_cancel};
ghost use Rattle.bytecode.specs.Code.{effect, going, onward, return_effect, setting};
ghost use Rattle.bytecode.specs.Valid.{IsValid, bounds_of};
ghost use Rattle.frames.specs.Open.{CanRestore, IsConfigurationOf, begin_configuration};
ghost use Rattle.frames.specs.Doings.{IsCall, IsLocalStep, piece_of};
ghost use Rattle.atomic_code.specs.Threads.{RunsAtomically, cancelled_from};
ghost use Rattle.atomic_code.specs.inner.Making.{Cancels, HasMemoryAtHand, Makes, MayPrint, at_hand, thread_of};
ghost use Rattle.atomic_code.specs.inner.Making.{saved_by, transaction_of};

use crate::open::{
    Open, OpenBegin, close_inner, close_several, open_inner, open_outermost, set_word, word_in,
};
use bytecode::Code;
use frames::{Doing, Frames, push_piece};
use std::alloc::{AllocError, Allocator};
use syntax::thread_end::{Status, Trap};

/// What a thread keeps.
#[derive(Drop)]
pub(crate) struct AtomicContext<A: Allocator> {
    pub frames: Frames<A>,
    pub open_in: Option<Open<A>>,
    pub text: String<A>,
    pub status: Status,
}

/// What an instruction comes to, for whoever carries the thread on.
#[derive(Drop)]
pub(crate) enum Signal<A: Allocator> {
    /// The thread goes on, or is over.
    Goes,

    /// An outermost transaction has left this memory.
    Leaves(Vec<u64, A>),

    /// An outermost transaction begins, and there is no memory to find.
    Wants,
}

/// Goes on where a cancel of the begin that stands here does.
fn cancel_here<A: Allocator + Copy, B: Allocator>(frames: &mut Frames<A>, code: &Code<B>)
    requires { IsConfigurationOf code.now frames.old.configuration }
    ensures { frames.new.configuration ≡ after_cancel (effect code.now frames.old.configuration)
        frames.old.configuration }
{
    if let Doing::Begin(to) = frames.doing(code) {
        frames.go_to(to);
    }
}

/// Goes back to an open begin, and on where a cancel of it does.
fn go_back<A: Allocator + Copy, B: Allocator>(
    frames: &mut Frames<A>,
    code: &Code<B>,
    begun: &OpenBegin<A>,
)
    requires back { CanRestore frames.old.configuration (saved_by begun.now) }
    requires of { IsConfigurationOf code.now (begin_configuration frames.old.configuration (saved_by begun.now)) }
    ensures { frames.new.configuration ≡ cancelled_from code.now frames.old.configuration (saved_by begun.now) }
{
    frames.restore(begun.registers.as_slice(), begun.frames, begun.place);
    cancel_here(frames, code);
}

/// Whether a print may be made.
fn may_print<A: Allocator>(open_in: &Option<Open<A>>) -> bool
    ensures { IsTrue result ↔ MayPrint (option_map transaction_of open_in.now) }
{
    match open_in {
        None => true,
        Some(open) => open.kept,
    }
}

impl<A: Allocator + Copy> AtomicContext<A> {
    /// A local step.
    fn work<B: Allocator>(&mut self, code: &Code<B>) -> Signal<A>
        requires valid { IsValid code.now }
        requires running { self.old.status ≡ Running }
        requires runs { RunsAtomically code.now (thread_of self.old) }
        requires told { IsLocalStep code.now self.old.frames.configuration }
        ensures { (m : Option Memory) → Makes code.now m (thread_of self.old) result (thread_of self.new) }
    {
        self.frames.step(code);
        Signal::Goes
    }

    fn call<B: Allocator>(&mut self, code: &Code<B>) -> Result<Signal<A>, AllocError>
        requires valid { IsValid code.now }
        requires running { self.old.status ≡ Running }
        requires runs { RunsAtomically code.now (thread_of self.old) }
        requires told { IsCall code.now self.old.frames.configuration }
        ensures ok { IfOk result (λ s. (m : Option Memory)
            → Makes code.now m (thread_of self.old) s (thread_of self.new)) }
        ensures err { OnErr result (thread_of self.new ≡ thread_of self.old) }
    {
        self.frames.prepare_call(code)?;
        self.frames.call(code);
        Ok(Signal::Goes)
    }

    fn give_back<B: Allocator>(&mut self, code: &Code<B>, word: u64) -> Signal<A>
        requires valid { IsValid code.now }
        requires running { self.old.status ≡ Running }
        requires runs { RunsAtomically code.now (thread_of self.old) }
        requires returns { effect code.now self.old.frames.configuration
            ≡ return_effect self.old.frames.configuration.frames word }
        requires caller { 0 < length self.old.frames.configuration.frames }
        ensures { (m : Option Memory) → Makes code.now m (thread_of self.old) result (thread_of self.new) }
    {
        self.frames.give_back(code, word);
        Signal::Goes
    }

    /// A print stands still in a transaction that was not made irrevocable.
    fn print<B: Allocator>(&mut self, code: &Code<B>, doing: Doing) -> Result<Signal<A>, AllocError>
        requires valid { IsValid code.now }
        requires running { self.old.status ≡ Running }
        requires runs { RunsAtomically code.now (thread_of self.old) }
        requires prints { effect code.now self.old.frames.configuration
            ≡ Effect.Print (piece_of code.now doing) (onward self.old.frames.configuration) }
        ensures ok { IfOk result (λ s. (m : Option Memory)
            → Makes code.now m (thread_of self.old) s (thread_of self.new)) }
        ensures err { OnErr result (thread_of self.new ≡ thread_of self.old) }
    {
        if !may_print(&self.open_in) {
            return Ok(Signal::Goes);
        }
        push_piece(&mut self.text, code, doing)?;
        self.frames.go_on(code);
        Ok(Signal::Goes)
    }

    /// An outermost transaction begins where there is none.
    fn begin_outermost<B: Allocator>(
        &mut self,
        alloc: A,
        code: &Code<B>,
        found: Option<&[u64]>,
        to: u32,
    ) -> Result<Signal<A>, AllocError>
        requires valid { IsValid code.now }
        requires running { self.old.status ≡ Running }
        requires runs { RunsAtomically code.now (thread_of self.old) }
        requires outside { option_map transaction_of self.old.open_in ≡ None }
        requires found { HasMemoryAtHand (bounds_of code.now) (at_hand (λ m. m.now) found) }
        requires begins { effect code.now self.old.frames.configuration
            ≡ Effect.Begin (onward self.old.frames.configuration) (going self.old.frames.configuration to) }
        ensures ok { IfOk result
            (λ s. Makes code.now (at_hand (λ m. m.now) found.entry) (thread_of self.old) s (thread_of self.new)) }
        ensures err { OnErr result (thread_of self.new ≡ thread_of self.old) }
    {
        // The prover names by it where a cancel goes on.
        let _cancelled = to;
        match found {
            None => Ok(Signal::Wants),
            Some(memory) => {
                let outermost = open_outermost(alloc, &self.frames, memory)?;
                self.open_in = Some(outermost);
                self.frames.go_on(code);
                Ok(Signal::Goes)
            }
        }
    }

    fn begin<B: Allocator>(
        &mut self,
        alloc: A,
        code: &Code<B>,
        found: Option<&[u64]>,
        to: u32,
    ) -> Result<Signal<A>, AllocError>
        requires valid { IsValid code.now }
        requires running { self.old.status ≡ Running }
        requires runs { RunsAtomically code.now (thread_of self.old) }
        requires found { HasMemoryAtHand (bounds_of code.now) (at_hand (λ m. m.now) found) }
        requires begins { effect code.now self.old.frames.configuration
            ≡ Effect.Begin (onward self.old.frames.configuration) (going self.old.frames.configuration to) }
        ensures ok { IfOk result
            (λ s. Makes code.now (at_hand (λ m. m.now) found.entry) (thread_of self.old) s (thread_of self.new)) }
        ensures err { OnErr result (thread_of self.new ≡ thread_of self.old) }
    {
        match &mut self.open_in {
            None => self.begin_outermost(alloc, code, found, to),
            Some(outer) => {
                open_inner(alloc, &self.frames, outer)?;
                self.frames.go_on(code);
                Ok(Signal::Goes)
            }
        }
    }

    /// A shared access stands still outside transactions.
    fn read<B: Allocator>(&mut self, code: &Code<B>, d: u32, cell: u32) -> Signal<A>
        requires valid { IsValid code.now }
        requires running { self.old.status ≡ Running }
        requires runs { RunsAtomically code.now (thread_of self.old) }
        requires reads { effect code.now self.old.frames.configuration
            ≡ Effect.Read cell (setting self.old.frames.configuration d) }
        requires there { d < length self.old.frames.configuration.registers }
        ensures { (m : Option Memory) → Makes code.now m (thread_of self.old) result (thread_of self.new) }
    {
        match &self.open_in {
            None => Signal::Goes,
            Some(open) => {
                let word = word_in(open, cell);
                self.frames.set(code, d, word);
                Signal::Goes
            }
        }
    }

    fn write<B: Allocator>(&mut self, code: &Code<B>, cell: u32, word: u64) -> Signal<A>
        requires valid { IsValid code.now }
        requires running { self.old.status ≡ Running }
        requires runs { RunsAtomically code.now (thread_of self.old) }
        requires writes { effect code.now self.old.frames.configuration
            ≡ Effect.Write cell word (onward self.old.frames.configuration) }
        ensures { (m : Option Memory) → Makes code.now m (thread_of self.old) result (thread_of self.new) }
    {
        match &mut self.open_in {
            None => Signal::Goes,
            Some(open) => {
                set_word(open, cell, word);
                self.frames.go_on(code);
                Signal::Goes
            }
        }
    }

    fn make_irrevocable<B: Allocator>(&mut self, code: &Code<B>) -> Signal<A>
        requires valid { IsValid code.now }
        requires running { self.old.status ≡ Running }
        requires runs { RunsAtomically code.now (thread_of self.old) }
        requires told { effect code.now self.old.frames.configuration
            ≡ Effect.Irrevocable (onward self.old.frames.configuration) }
        ensures { (m : Option Memory) → Makes code.now m (thread_of self.old) result (thread_of self.new) }
    {
        self.frames.go_on(code);
        match &mut self.open_in {
            None => Signal::Goes,
            Some(open) => {
                open.kept = true;
                Signal::Goes
            }
        }
    }

    /// A commit stands still outside transactions.
    fn commit<B: Allocator>(&mut self, code: &Code<B>) -> Signal<A>
        requires valid { IsValid code.now }
        requires running { self.old.status ≡ Running }
        requires runs { RunsAtomically code.now (thread_of self.old) }
        requires commits { effect code.now self.old.frames.configuration
            ≡ Effect.Commit (onward self.old.frames.configuration) }
        ensures { (m : Option Memory) → Makes code.now m (thread_of self.old) result (thread_of self.new) }
    {
        match self.open_in.take() {
            None => Signal::Goes,
            Some(mut open) => {
                self.frames.go_on(code);
                match close_inner(&mut open) {
                    Some(_) => {
                        self.open_in = Some(open);
                        Signal::Goes
                    }
                    None => Signal::Leaves(open.memory),
                }
            }
        }
    }

    /// A cancel of so many levels stands still outside transactions, and where it would undo the outermost one after
    /// that was made irrevocable.
    fn cancel<B: Allocator>(&mut self, code: &Code<B>, levels: u32) -> Signal<A>
        requires valid { IsValid code.now }
        requires running { self.old.status ≡ Running }
        requires runs { RunsAtomically code.now (thread_of self.old) }
        requires cancels { Cancels (effect code.now self.old.frames.configuration) levels }
        ensures { (m : Option Memory) → Makes code.now m (thread_of self.old) result (thread_of self.new) }
    {
        match self.open_in.take() {
            None => Signal::Goes,
            Some(mut open) => match close_several(&mut open, levels) {
                Some(inner) => {
                    go_back(&mut self.frames, code, &inner);
                    open.memory = inner.found;
                    self.open_in = Some(open);
                    Signal::Goes
                }
                None => {
                    if open.kept {
                        self.open_in = Some(open);
                        return Signal::Goes;
                    }
                    go_back(&mut self.frames, code, &open.outermost);
                    Signal::Leaves(open.outermost.found)
                }
            },
        }
    }

    /// A trap leaves the memory that the outermost transaction found.
    fn trap<B: Allocator>(&mut self, code: &Code<B>, cause: Trap) -> Signal<A>
        requires valid { IsValid code.now }
        requires running { self.old.status ≡ Running }
        requires runs { RunsAtomically code.now (thread_of self.old) }
        requires traps { effect code.now self.old.frames.configuration ≡ Effect.Traps cause }
        ensures { (m : Option Memory) → Makes code.now m (thread_of self.old) result (thread_of self.new) }
    {
        // The prover names the code by it.
        let _code = code;
        self.status = Status::Trapped(cause);
        match self.open_in.take() {
            None => Signal::Goes,
            Some(open) => Signal::Leaves(open.outermost.found),
        }
    }

    fn end<B: Allocator>(&mut self, code: &Code<B>) -> Signal<A>
        requires valid { IsValid code.now }
        requires running { self.old.status ≡ Running }
        requires runs { RunsAtomically code.now (thread_of self.old) }
        requires ends { effect code.now self.old.frames.configuration ≡ Effect.End }
        ensures { (m : Option Memory) → Makes code.now m (thread_of self.old) result (thread_of self.new) }
    {
        // The prover names the code by it.
        let _code = code;
        if self.open_in.is_none() {
            self.status = Status::Ended;
        }
        Signal::Goes
    }

    /// Makes one instruction, with this memory at hand. The error comes only where memory is refused; nothing is
    /// changed then.
    pub(crate) fn step<B: Allocator>(
        &mut self,
        alloc: A,
        code: &Code<B>,
        found: Option<&[u64]>,
    ) -> Result<Signal<A>, AllocError>
        requires valid { IsValid code.now }
        requires running { self.old.status ≡ Running }
        requires runs { RunsAtomically code.now (thread_of self.old) }
        requires found { HasMemoryAtHand (bounds_of code.now) (at_hand (λ m. m.now) found) }
        ensures ok { IfOk result
            (λ s. Makes code.now (at_hand (λ m. m.now) found.entry) (thread_of self.old) s (thread_of self.new)) }
        ensures err { OnErr result (thread_of self.new ≡ thread_of self.old) }
    {
        match self.frames.doing(code) {
            Doing::Local => Ok(self.work(code)),
            Doing::Call => self.call(code),
            Doing::Return(word) => Ok(self.give_back(code, word)),
            Doing::Read(d, cell) => Ok(self.read(code, d, cell)),
            Doing::Write(cell, word) => Ok(self.write(code, cell, word)),
            Doing::Begin(to) => self.begin(alloc, code, found, to),
            Doing::Commit => Ok(self.commit(code)),
            Doing::Cancel => Ok(self.cancel(code, 1)),
            Doing::CancelOuter(levels) => Ok(self.cancel(code, levels)),
            Doing::Irrevocable => Ok(self.make_irrevocable(code)),
            Doing::PrintText(k) => self.print(code, Doing::PrintText(k)),
            Doing::PrintNumber(z) => self.print(code, Doing::PrintNumber(z)),
            Doing::Traps(cause) => Ok(self.trap(code, cause)),
            Doing::End => Ok(self.end(code)),
        }
    }
}
