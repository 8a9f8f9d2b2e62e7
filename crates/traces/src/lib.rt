//! Traces: the turns of threads in an order as text, a line for each, with the cells that it reads and writes.
#![tactic(auto)]

mod columns;
mod ends;
mod folds;
mod marks;
mod names;
mod push;
mod trace;
mod turn;

pub use columns::columns_width;
pub use ends::push_ends;
pub use marks::{Touched, marks_of};
pub use names::{named_cell, names_of};
pub use push::{push_number, push_quoted, push_value};
pub use trace::trace_text;
pub use turn::{Fold, Mark, Named, ThreadAt, TurnShown};
