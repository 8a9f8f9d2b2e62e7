//! Tests of worlds, replays, schedules, reports, seats and workers, in a crate of their own: a crate with tests is
//! proved twice, and each crate of tests reads and links all that it stands on.
#![tactic(auto)]

#[cfg(test)]
mod asserted;
#[cfg(test)]
mod levels;
#[cfg(test)]
mod of_workers;
#[cfg(test)]
mod replays;
#[cfg(test)]
mod schedules;
#[cfg(test)]
mod setups;
#[cfg(test)]
mod shown;
#[cfg(test)]
mod tables;
#[cfg(test)]
mod wanted;
#[cfg(test)]
mod wide;
#[cfg(test)]
mod worlds;
