//! Code generation for what a program computes: expressions, conditions, assignments and declarations.
//!
//! The code is that of `selection`: each function's contract names the definition there that it adds. `lower` makes the
//! code of statements, functions and programs of it.
#![tactic(auto)]

mod aim;
mod call;
mod cond;
mod convert;
pub mod draft;
pub mod expr;
pub mod fault;
pub mod lists;
mod names;
pub mod origins;
pub mod preloaded;
pub mod put;
pub mod scope;
pub mod simple;
mod value_type;
