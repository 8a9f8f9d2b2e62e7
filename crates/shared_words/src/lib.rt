//! The lock and the cells as the words of one table, under the rule of the machine: each access of a thread is one
//! atomic step on a word, and one step of the machine. There is no lock, no queue and no waiting.
//!
//! A seat is the right to step on the table for some threads. What it knows is plain data for each of them, a *view*,
//! which is not there when the program runs. Who has a seat may step, and seats may go to any thread of the program.
#![tactic(auto)]

mod access;
mod closing;
pub mod laws;
mod opening;
mod rule;
mod sharing;

pub use access::{Words, load_lock, load_word, make};
pub use closing::close;
pub use opening::{WordsTable, open};
pub use rule::{Ruled, Setup, View};
pub use sharing::{join, meet, settle, split_first};
