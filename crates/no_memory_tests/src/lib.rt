//! Tests in which each growth of a program's whole way is refused once, from its text to what its threads leave: a
//! refusal has number 0 and leaves what it was handed, the same call made again goes on, and the end is that of a way
//! without refusals.
#![tactic(auto)]

#[cfg(test)]
mod accepted;
#[cfg(test)]
mod codes;
#[cfg(test)]
mod halls;
#[cfg(test)]
mod meant;
#[cfg(test)]
mod seen;
#[cfg(test)]
mod steps;
#[cfg(test)]
mod whole;
