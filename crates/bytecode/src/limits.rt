//! Limits of a code.

/// The most instructions of a code.
pub const MOST_INSTRUCTIONS: usize = 1_048_576;

/// The most registers of a function's frame.
pub const MOST_REGISTERS: u32 = 65_535;
