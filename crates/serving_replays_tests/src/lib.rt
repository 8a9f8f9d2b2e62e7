//! Tests of replays that are served, and of what is shown of the examples, in a crate of their own: with the other
//! tests of `serving` they would take too much memory to prove.
#![tactic(auto)]

#[cfg(test)]
mod examples;
#[cfg(test)]
mod expressions;
#[cfg(test)]
mod orders;
#[cfg(test)]
mod outer_cancels;
#[cfg(test)]
mod pictures;
#[cfg(test)]
mod replays;
