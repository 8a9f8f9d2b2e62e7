//! Warnings: what an accepted program says and hardly means, each with its place.
//!
//! A body is read once, into the list of what it does in the order of its text (`action`), over which each group of
//! warnings goes by itself: waits, writes that are undone, reads that are stale. What is told of numbers is told
//! expression by expression.
#![tactic(auto)]

mod action;
mod body;
mod codes;
mod constant;
mod contexts;
mod decided;
mod decisions;
mod effects;
mod expr;
mod facts;
mod flow;
mod globals;
mod indices;
mod known;
mod numbers;
mod program;
mod returned;
mod undone;
mod waits;
mod warning;
mod whole;

pub use program::warnings;
pub use warning::{Warning, WarningKind};
