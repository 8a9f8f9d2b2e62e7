//! HTML pages on which every order of a program's threads can be played: fixed text, and between its two parts the
//! program's states and turns as JSON.
#![tactic(auto)]

mod cells;
mod content;
mod data;
mod escaped;
pub mod laws;
mod page;
mod text;

pub use content::{NO_STATE, Page, PropertyShown, RestShown, States};
pub use page::page_text;
