//! Which programs are safe.

ghost use Rattle.safety.specs.Answers.{ChecksSafety};

use crate::checked::Safe;
use crate::demands::fault_of;
use std::alloc::Allocator;
use syntax::violation::Refused;
use types::Typed;

/// Checks safety. The fault is the first rule that the program breaks, in the order of the text. The program lies in
/// what is given, or comes back in the fault. Takes memory for the sites of one body at a time, for the calls of the
/// program and for a number of each function; the time is that of the text, and of finding each called name by a map.
pub fn safe<A: Allocator + Copy>(alloc: A, typed: Typed<A>) -> Result<Safe<A>, Refused<Typed<A>>>
    ensures { ChecksSafety typed result }
{
    let unit = typed.unit();
    match fault_of(alloc, unit.key, unit.items.as_slice()) {
        Ok(None) => Ok(Safe { typed }),
        Ok(Some(violation)) => Err(Refused::Broken(typed, violation)),
        Err(_) => Err(Refused::OutOfMemory(typed)),
    }
}
