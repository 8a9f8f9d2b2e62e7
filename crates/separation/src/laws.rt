//! Laws of touching functions, and of accepted programs. A law has no code: its contract is what it says.

ghost use Rattle.separation.specs.Laws.{FaultTouches, NeverAstray, TouchingIsTouchingSet};

/// The touching functions of a program, those that each touching set has, are a touching set: each function
/// with a bare access, or a bare call of one of them, is one of them.
pub fn touching_functions_are_a_touching_set()
    ensures { TouchingIsTouchingSet }
{}

/// Where there is a fault of separation, `worker` is touching: so no accepted program has one.
pub fn a_fault_touches()
    ensures { FaultTouches }
{}

/// No thread of an accepted program goes astray, whatever its number, the memories that its transactions find and its
/// ticks.
pub fn never_astray()
    ensures { NeverAstray }
{}
