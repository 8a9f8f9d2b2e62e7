//! Tests of `atomic_code`.

mod built;
mod driven;
mod levels;
mod pieces;
mod programs;
mod resting;
mod transactions;
mod wholes;
mod wide;
