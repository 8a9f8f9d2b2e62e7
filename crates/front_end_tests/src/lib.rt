//! Tests of the parser, of the trees of `syntax`, of the checks that accept a program, of names and types, of safety and
//! of separation, and of what is told besides, warnings and further faults, in a crate of their own: a crate with tests is
//! proved twice, and each crate of tests reads and links all that it stands on.
#![tactic(auto)]

#[cfg(test)]
mod asserted;
#[cfg(test)]
mod large;
#[cfg(test)]
mod of_further_faults;
#[cfg(test)]
mod of_name_tables;
#[cfg(test)]
mod of_parse;
#[cfg(test)]
mod of_safety;
#[cfg(test)]
mod of_separation;
#[cfg(test)]
mod of_syntax;
#[cfg(test)]
mod of_types;
#[cfg(test)]
mod of_warnings;
#[cfg(test)]
mod stages;
