//! Theorems on codes. A law has no code: its contract states the theorem.

ghost use Rattle.bytecode.specs.Code.{Code as Plain, effect};
ghost use Rattle.bytecode.specs.Effects.{FitsCells};
ghost use Rattle.bytecode.specs.Valid.{bounds_of, IsValid};

/// A valid code reads and writes only shared cells, and writes words below their bounds, in every configuration.
pub fn valid_code_fits_its_cells()
    ensures { (code : Plain) → IsValid code → FitsCells (effect code) (bounds_of code) }
{}
