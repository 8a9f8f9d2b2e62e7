//! Tests of the check of safety.

mod large;
mod rows;
