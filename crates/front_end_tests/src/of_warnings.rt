//! Tests of what is warned of a program.

mod rows;
