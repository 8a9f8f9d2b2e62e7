//! Tests of the check of names and types.

mod accepted;
mod faults;
mod large;
