//! Tests of `lower`, and of its code beside the source.

mod codes;
mod examples;
mod large;
mod listed;
mod nested;
mod outcomes;
