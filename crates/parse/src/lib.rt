//! The parser: from tokens to the one tree that they spell, or to the first place where they spell none.
#![tactic(auto)]

mod attributes;
mod cursor;
mod expr;
mod fault;
mod functions;
mod globals;
mod lead;
mod list;
mod node;
mod outer;
mod plain;
mod scalar;
mod simple;
mod stmt;
mod unit;

pub use fault::ParseFault;
pub use unit::{one_tree, parse};
