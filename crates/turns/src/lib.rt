//! The turns of an order, each with the cells that it reads and writes, from the steps of the machine, and their text.
#![tactic(auto)]

mod again;
mod asked;
mod full;
mod functions;
mod inner;
mod objects;
mod passage;
mod turn;
mod turns;
mod view;

pub use passage::{Source, push_passage};
pub use turns::{Traced, turns_shown};
pub use view::{Asked, Form, Standing, View, view_text};
