//! Separation: which functions touch shared data outside transactions, and which programs are accepted.
#![tactic(auto)]

mod checked;
mod demands;
pub mod laws;
mod links;
mod program;

pub use checked::Accepted;
pub use program::accept;
