//! Test support: what the front end makes of a text, up to its accepted program, and large texts, made of pieces.
#![tactic(auto)]

mod accepted;
mod pieces;

pub use accepted::{accepted_of, safe_of, typed_of, unit_of};
pub use pieces::{Piece, text_of};
