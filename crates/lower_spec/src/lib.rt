//! Which code stands for a program, and that such code means the program. No code: what it says are laws.
#![tactic(auto)]

pub mod laws;
