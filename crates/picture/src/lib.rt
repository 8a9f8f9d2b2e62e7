//! The picture of a replay: one SVG in which time goes from top to bottom, a row for each access or event. A lane for
//! each thread has a box for each attempt at a transaction, with what became of it; a column has the lock; an arrow
//! leads from a store to the attempt that was dropped for it; and at the foot stands the order in which transactions
//! took effect.
#![tactic(auto)]

mod arrow;
mod attempt;
mod boxes;
mod cells;
mod figure;
mod foot;
mod glyph;
pub mod laws;
mod layout;
mod legend;
mod lock;
mod make;
mod pieces;
mod replayed;
mod sheet;
mod source;
mod step;
mod svg;
mod words;

pub use replayed::replay_picture;
