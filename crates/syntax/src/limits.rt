//! Limits of programs.

/// The maximum number of cells of all globals.
pub const MOST_CELLS: usize = 4_096;
