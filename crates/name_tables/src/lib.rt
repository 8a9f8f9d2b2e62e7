//! Symbol tables: what a program's names stand for, in order of declaration.
//!
//! A `Table` keeps what each name was first declared as. A `Scope` has the declarations that are known at a point of a
//! body, where a later one of a name hides an earlier one until its block ends (C11 6.2.1). Each look-up is one of a
//! hash map, whose hash is keyed (`Keyed`); the key decides how long it takes and nothing else.
#![tactic(auto)]

mod entries;
mod hasher;
mod scope;
mod table;

pub use entries::{Scope, Table};
pub use hasher::Keyed;
