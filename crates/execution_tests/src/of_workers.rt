//! Tests of workers.

mod closing;
mod gates;
mod hall;
mod levels;
mod programs;
mod reports;
mod sums;
mod turns;
mod validation;
