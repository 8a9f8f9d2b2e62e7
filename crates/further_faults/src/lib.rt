//! The faults of a source that can be told independently of one another, by the checks that find the first one.
//!
//! Where a fault is told, what it stands in is left out, and the checks are asked again: of a copy in which a full
//! expression is 0, a statement is empty, a name is declared once. So each fault is one that a check tells, and no rule
//! stands here a second time.
#![tactic(auto)]

mod declarations;
mod expressions;
mod fault;
mod left_out;
mod listed;
mod statements;
mod units;

pub use fault::Fault;
pub use listed::{MOST_FAULTS, further_faults};
