//! Tests of `lower` and of `meaning`, in a crate of their own: a crate with tests is proved twice, and each crate of
//! tests reads and links all that it stands on.
#![tactic(auto)]

#[cfg(test)]
mod asserted;
#[cfg(test)]
mod of_lower;
#[cfg(test)]
mod of_meaning;
