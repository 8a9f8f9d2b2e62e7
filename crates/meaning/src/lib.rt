//! What a program's threads do, computed from the tree: the plain program beside the source's meaning.
//!
//! A thread's state is a `SourceThread`, and each function does with it what the source's meaning says of the same
//! thing. Where memory is refused, nothing is said of it.
#![tactic(auto)]

mod arithmetic;
mod asked;
mod calls;
mod expr;
pub mod laws;
mod left;
mod loops;
mod lvalues;
mod memory;
mod names;
mod orders;
mod outcome;
mod places;
mod print;
mod simple;
mod source_thread;
mod standing;
mod stmt;
mod threads;
mod transactions;
mod word;

pub use asked::{AskedProgram, Reply, asked_program};
pub use orders::{last_memory, run_order, wants};
pub use outcome::{
    HaltPlace, MeaningFault, SourceOutcome, ThreadEnd, ThreadOutcome, ThreadReport, TrapCause,
};
pub use threads::thread;
