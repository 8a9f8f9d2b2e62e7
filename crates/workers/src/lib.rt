//! Threads of the machine, run by threads of the program over one table of words.
//!
//! A worker makes the steps of one thread, each shared access by one atomic step on the table, with no lock and no queue.
//! Before it takes the machine's lock it may wait for another worker, for a bounded time.
#![tactic(auto)]

mod close;
mod hall;
pub mod laws;
mod loads;
mod open;
mod right_of_way;
mod run;
mod tally;
mod worker;

pub use close::{CloseFault, CloseReason, Finished, HallReport};
pub use hall::Hall;
pub use open::HallFault;
pub use run::{Driven, Ending, Gate, RunFault, RunMemory, RunReport, run_all};
pub use tally::Tally;
pub use worker::{RunEnd, Worker};
