//! The lists of a code as it is made.

use bytecode::Origin;
use containers::Text;
use std::alloc::Allocator;

/// The lists of a code as it is made, but that of its instructions, and what is known of the function that is made.
#[derive(Drop)]
pub struct Lists<A: Allocator> {
    /// The arguments of all calls, one call behind the other: registers of the caller.
    pub arguments: Vec<u16, A>,

    /// The texts that are printed.
    pub texts: Vec<Text<A>, A>,

    /// Where the instructions come from, one entry a place. No contract speaks of it.
    pub origins: Vec<Origin, A>,

    /// How many registers the function needs as far as it is made.
    pub registers: u32,

    /// The register from which on the function's constants are preloaded.
    pub writable: u16,

    /// The constants that are preloaded, in registers one after another.
    pub constants: Vec<u64, A>,
}
