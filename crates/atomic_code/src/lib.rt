//! Threads of register code, with transactions as single steps.
//!
//! An `AtomicThread` carries a thread on in pieces. Nothing interrupts a transaction: it finds a memory as it begins
//! and leaves one as it ends, as the code's meaning has it.
#![tactic(auto)]

mod atomic;
mod carry;
mod context;
pub mod laws;
mod memory;
mod open;
mod ran;
mod whole;

pub use atomic::AtomicThread;
pub use memory::is_memory;
pub use ran::{AtomicEnd, Ran};
pub use whole::{AtomicThreadEnd, AtomicThreadOutcome, thread};
