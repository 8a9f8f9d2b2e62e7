//! Safety (the C++ draft on transactions 1.1): which functions are safe, and which programs keep unsafe code out of
//! atomic transactions.
#![tactic(auto)]

pub mod checked;
mod closure;
mod demands;
mod expr;
mod graph;
pub mod laws;
mod links;
mod locals;
mod program;
mod rules;
mod set;
mod site;
mod stmt;

pub use closure::least;
pub use links::{LinkRule, links_by};
pub use program::safe;
pub use set::{FunctionSet, Link};
pub use site::{Construct, Site};
pub use stmt::body_sites;
