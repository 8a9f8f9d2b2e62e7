//! Tests of frames and of local steps.

mod carried;
mod growths;
mod instructions;
mod loop_ends;
