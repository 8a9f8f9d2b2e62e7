//! Which code is picked for a program: definitions, laws of them, and the types that they share with code generation.
//!
//! The definitions are functions on plain trees and lists that compute: they give a program's code, instruction by
//! instruction. They rest on the trees of `syntax`, the numbers of functions of `program_tables` and the instructions
//! of `bytecode` alone. The laws say that this code stands for its program, by the relation of `lower_spec`, and that
//! it is valid. `lower` makes it: each function there promises what a definition here gives, and hands on values of
//! `locations` and `draft`, of which the definitions speak too.
#![tactic(auto)]

pub mod draft;
pub mod laws;
pub mod locations;
