//! The base of every layer: a box, a list and a text whose contracts show what they hold and nothing else.
//!
//! A `Box`, a `Vec` and a `String` are compared in a contract with their pointers and capacities, so a copy of a tree
//! would not equal the tree. These three are seen as the value, the list of items and the bytes that they hold: a tree
//! over them is plain data, `≡` on it means "the same tree", and a refused call can promise to hand back the very value
//! that it was given. A type may hold itself through a `Boxed` or an `Items` (`specs/formers`).
//!
//! `Same` and `Copied` are equality and copies of what is built from these three: their contracts say `≡`, where that
//! of `==` says no more than that two values compare as equal.
#![tactic(auto)]

mod boxed;
mod copied;
mod items;
mod same;
mod text;

pub use boxed::Boxed;
pub use copied::Copied;
pub use items::Items;
pub use same::Same;
pub use text::Text;
