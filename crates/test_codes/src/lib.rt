//! Test support: codes that are written out as instructions, for the tests of the runtime.
#![tactic(auto)]

mod built;
mod levels;
mod samples;
mod wide;
mod written;

pub use built::{code_of, no_parts, push_each, push_texts};
pub use levels::{Levels, NUMBERS, cancels_levels};
pub use samples::{adds_five, calls_for_ever, traps};
pub use wide::{
    WideOperator, WideRow, code_over_both, shown_operator, wide_cells, wide_operators, wide_steps,
};
pub use written::{
    TEXTS, WrittenCode, WrittenFunction, WrittenVariable, X, Y, over_x, second, worker,
};
