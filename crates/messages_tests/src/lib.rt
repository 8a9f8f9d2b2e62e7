//! Tests of hints: first mistakes of C programmers, each with its fault and all its hints. In a crate of their own,
//! because a crate with tests is proved twice.
#![tactic(auto)]

#[cfg(test)]
mod of_characters;
#[cfg(test)]
mod of_counts;
#[cfg(test)]
mod of_names;
#[cfg(test)]
mod of_tokens;
#[cfg(test)]
mod of_transactions;
#[cfg(test)]
mod of_types;
#[cfg(test)]
mod of_words;
#[cfg(test)]
mod told;
