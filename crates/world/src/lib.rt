//! Worlds: a lock, shared words and some threads of one code, whose steps are made one at a time in any order.
#![tactic(auto)]

mod make;
mod report;
mod stop;
mod world;

pub use report::{Report, WorldEnd};
pub use stop::{StopReason, WorldFault, WorldStop};
pub use world::World;
