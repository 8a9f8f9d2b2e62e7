//! Tests of `walks`.
#![tactic(auto)]

#[cfg(test)]
mod asserted;
#[cfg(test)]
mod breadth;
#[cfg(test)]
mod counted;
#[cfg(test)]
mod cut;
#[cfg(test)]
mod fair;
#[cfg(test)]
mod fair_programs;
#[cfg(test)]
mod led;
#[cfg(test)]
mod programs;
#[cfg(test)]
mod shortest;
#[cfg(test)]
mod walked;
