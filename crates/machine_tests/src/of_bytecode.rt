//! Tests of register code.

mod built;
mod flat;
mod growths;
mod initial;
mod large;
mod listed;
mod rules;
