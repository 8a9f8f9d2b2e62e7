//! A thread's place, registers and callers, as running code keeps them.
//!
//! `Frames` is a configuration of a code, with room for one more frame; `doing` says what stands at its place to be
//! done, and one call each makes the moves. Whoever runs threads, with transactions as single steps or with logs and a
//! lock, stands on these.
#![tactic(auto)]

mod calls;
mod dispatch;
mod doing;
pub mod laws;
mod lay;
mod stack;

pub use doing::{Doing, prepare_piece, push_piece};
pub use stack::Frames;
