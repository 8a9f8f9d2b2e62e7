//! Tests of register code, of local steps, of frames, of threads of the machine and of `atomic_code`, in a crate of
//! their own: a crate with tests is proved twice, and each crate of tests reads and links all that it stands on.
#![tactic(auto)]

#[cfg(test)]
mod asserted;
#[cfg(test)]
mod built;
#[cfg(test)]
mod of_atomic_code;
#[cfg(test)]
mod of_bytecode;
#[cfg(test)]
mod of_frames;
#[cfg(test)]
mod rows;
#[cfg(test)]
mod threads;
