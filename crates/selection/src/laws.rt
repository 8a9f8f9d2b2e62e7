//! Laws of the code that is picked. A law has no code: its contract is what it says.

ghost use Rattle.selection.specs.Laws.{EveryProgramHasCode, PickedCodeIsValid, PickedCodeStands};

/// The code that is picked for a typed and safe program stands for it.
pub fn picked_code_stands()
    ensures { PickedCodeStands }
{}

/// The code that is picked is valid, where no function needs too many registers and it has not too many instructions.
pub fn picked_code_is_valid()
    ensures { PickedCodeIsValid }
{}

/// For each program that is typed and safe there is code that stands for it. That is the code that is picked: each
/// instruction of it follows from the program alone.
pub fn every_program_has_code()
    ensures { EveryProgramHasCode }
{}
