//! Tests of the check of separation.

mod large;
mod rows;
