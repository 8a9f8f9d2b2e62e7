//! Tests of the parser.

mod depths;
mod faults;
mod productions;
mod trees;
