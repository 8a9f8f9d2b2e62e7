//! What the names of a program stand for: its globals with their cells, its functions with their bodies, and what each
//! name is first declared as, in tables that are made once.
#![tactic(auto)]

mod entries;
mod functions;
mod globals;
mod make;
mod names;
mod program;
mod symbols;

pub use entries::{FunctionEntry, Shared, Symbol};
pub use make::tables;
pub use program::ProgramTables;
