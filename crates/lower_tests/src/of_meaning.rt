//! Tests of `meaning`.

mod deep;
mod evaluation;
mod examples;
mod memory;
mod orders;
mod run;
mod ticks;
mod traps;
