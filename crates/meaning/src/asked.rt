//! Functions that are asked of a memory: each is called without arguments, within a transaction over it.

ghost use Rattle.std.specs.Prelude.{◌≡◌, IfOk};
ghost use Rattle.syntax.specs.Views.{program_of};
ghost use Rattle.meaning.specs.Asked.{IsReply, program_asked, state_over};
ghost use Rattle.meaning.specs.inner.SourceThread.{state_in};

use crate::calls::enter_function;
use crate::source_thread::{Context, SourceThread};
use crate::transactions::copy_memory;
use crate::word::is_zero;
use program_tables::{ProgramTables, tables};
use separation::Accepted;
use std::alloc::{AllocError, Allocator};
use syntax::thread_end::Halt;
use syntax::tree::Mode;

/// What a function says of a memory.
#[derive(Clone, Copy, PartialEq, Eq)]
pub enum Reply {
    /// It gives a value that is not 0.
    Holds,
    /// It gives 0, or it traps.
    Fails,
    /// It takes more ticks.
    Spent,
}

/// A program that is asked, with the tables of its names.
#[derive(Drop)]
pub struct AskedProgram<'p, A: Allocator> {
    pub(crate) source: ProgramTables<'p, A>,
}

/// A program that is to be asked. Takes memory for the tables of its names.
pub fn asked_program<'p, A: Allocator + Copy>(
    alloc: A,
    accepted: &'p Accepted<A>,
) -> Result<AskedProgram<'p, A>, AllocError>
    ensures { IfOk result (λ a. program_asked a ≡ program_of accepted.now.safe.typed.unit) }
{
    match tables(alloc, accepted.safe().typed()) {
        Ok(source) => Ok(AskedProgram { source }),
        Err(refused) => Err(refused),
    }
}

/// A thread that is within an atomic transaction over this memory, and has so many ticks.
fn thread_over<'p, 'f, A: Allocator + Copy>(
    alloc: A,
    memory: Vec<u64, A>,
    ticks: u64,
) -> SourceThread<'p, 'f, A>
    ensures { state_in result ≡ state_over memory.items ticks }
{
    SourceThread {
        ticks,
        why: None,
        at: None,
        locals: Vec::new(alloc),
        context: Context::Inside(Mode::Atomic, memory),
        text: Vec::new(alloc),
    }
}

impl<'p, A: Allocator + Copy> AskedProgram<'p, A> {
    /// What the function of this name, called without arguments within an atomic transaction, says of a memory within so
    /// many ticks. Takes memory for a copy of it and for what the function takes. The error comes where memory is
    /// refused, and where the function does what no transaction may: where it prints, or begins a relaxed one.
    pub fn reply(&self, name: &str, memory: &[u64], ticks: u64) -> Result<Reply, AllocError>
        ensures { IfOk result (IsReply (program_asked self.now) name.now memory.now ticks) }
    {
        let alloc = self.source.alloc;
        let copy = copy_memory(alloc, memory)?;
        let mut m = thread_over(alloc, copy, ticks);
        let none = Vec::new(alloc);
        match enter_function(&self.source, 64, name, none.as_slice(), &mut m) {
            Ok(value) => {
                if is_zero(value) {
                    Ok(Reply::Fails)
                } else {
                    Ok(Reply::Holds)
                }
            }
            Err(_) => match m.why {
                Some(why) => match why {
                    Halt::Trapped(_) => Ok(Reply::Fails),
                    Halt::Spent => Ok(Reply::Spent),
                    Halt::Wants | Halt::Astray => Err(AllocError),
                },
                None => Err(AllocError),
            },
        }
    }
}
