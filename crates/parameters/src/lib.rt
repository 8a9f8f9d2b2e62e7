//! Numbers in place of names: what `NAME=VALUE` defines, and the text of a source with its numbers in their places.
#![tactic(auto)]

mod definition;
mod put;

pub use definition::{Definition, Number, read_definition};
pub use put::{put_in, uses};
