//! Code generation: from an accepted program to register code that means it.
//!
//! The code is that of `selection`: each function's contract names the definition there that it adds. That this code is
//! valid and means the program are laws of `selection` and `lower_spec`. The code of expressions, assignments and
//! declarations is made by `lower_exprs`.
#![tactic(auto)]

mod deep;
mod fault;
mod function;
mod generate;
mod loops;
mod origins;
mod print;
mod stmt;

pub use fault::LowerFault;
pub use generate::lower;
