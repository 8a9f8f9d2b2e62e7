//! Laws of safe functions and programs. A law has no code: its contract is what it says.

ghost use Rattle.safety.specs.Laws.{CancelsStay, SafeHasNoFault, SafeIsSafeSet};

/// The safe functions of a program, those that some safe set has, are a safe set: no one of them is
/// declared unsafe, holds anything unsafe or calls a function that is not safe.
pub fn safe_functions_are_a_safe_set()
    ensures { SafeIsSafeSet }
{}

/// A safe program has no fault of safety.
pub fn a_safe_program_has_no_fault()
    ensures { SafeHasNoFault }
{}

/// In a safe program no `cancel` leaves the body of a definition: each ends a transaction of that body.
pub fn cancels_stay()
    ensures { CancelsStay }
{}
