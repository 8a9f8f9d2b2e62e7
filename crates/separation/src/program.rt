//! Which programs are accepted.

ghost use Rattle.separation.specs.Answers.{ChecksSeparation};

use crate::checked::Accepted;
use crate::demands::fault_of;
use safety::checked::Safe;
use std::alloc::Allocator;
use syntax::violation::Refused;

/// Checks separation. The fault is the first rule that `worker` breaks, in the order of the text. The program lies
/// in what is given, or comes back in the fault. Takes memory for the sites of one body at a time, for the bare calls
/// of the program and for a number of each function; the time is that of the text, and of finding each called name by a
/// map.
pub fn accept<A: Allocator + Copy>(alloc: A, safe: Safe<A>) -> Result<Accepted<A>, Refused<Safe<A>>>
    ensures { ChecksSeparation safe result }
{
    let unit = safe.typed().unit();
    match fault_of(alloc, unit.key, unit.items.as_slice()) {
        Ok(None) => Ok(Accepted { safe }),
        Ok(Some(violation)) => Err(Refused::Broken(safe, violation)),
        Err(_) => Err(Refused::OutOfMemory(safe)),
    }
}
