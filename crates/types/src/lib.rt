//! Names and types: which programs are typed, and what the first rule is that another one breaks.
#![tactic(auto)]

mod expr;
mod expr_type;
mod fault;
mod format;
mod function;
mod global;
mod names;
mod scope;
mod simple;
mod stmt;
mod symbol;
mod table;
mod typed;
mod unit;

pub use stmt::as_declaration;
pub use typed::Typed;
pub use unit::check;
