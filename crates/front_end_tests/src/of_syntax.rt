//! Tests of the trees, which are those of short texts.

mod depths;
mod sames;
mod texts;
mod widths;
