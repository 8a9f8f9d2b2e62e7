//! Orders of the source as steps of the machine: each order of whole transactions is a list of steps that leads the
//! machine to where the order leads. No code: what it says are laws.
#![tactic(auto)]

pub mod laws;
