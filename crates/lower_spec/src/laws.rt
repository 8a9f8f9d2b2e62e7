//! Laws of code that stands for a program. A law has no code: its contract is what it says.

ghost use Rattle.lower_spec.specs.Laws.{AcceptedCodeMeans, AcceptedCodeMeetsMachine, LoweredCodeHasItsCells};
ghost use Rattle.lower_spec.specs.Laws.{LoweredCodeMeans};

use bytecode::laws::valid_code_fits_its_cells;
use separation::laws::never_astray;
use syntax::laws::threads_leave_memories;

/// Code that stands for a typed program means it, in both directions, where no thread of the program goes astray. For
/// every thread and every list of memories that its transactions find: what the source's thread shows after some number
/// of ticks, the code's thread shows after some number of instructions, and the other way round.
pub fn lowered_code_means()
    ensures { LoweredCodeMeans }
{}

/// Code that stands for an accepted program means it, in both directions, since no thread of an accepted program goes
/// astray. So what holds of every program that a code means, holds of the accepted program and this code.
pub fn accepted_code_means()
    ensures { AcceptedCodeMeans }
{
    never_astray();
}

/// The bounds of a code's cells are those of the program that it stands for.
pub fn lowered_code_has_its_cells()
    ensures { LoweredCodeHasItsCells }
{}

/// Of a valid code that stands for an accepted program, and of the program's first memory, all that the theorems about
/// the machine ask: the code uses the program's cells alone and writes words below their bounds, the first memory is a
/// memory of the program, and the code means the program.
pub fn accepted_code_meets_the_machine()
    ensures { AcceptedCodeMeetsMachine }
{
    never_astray();
    valid_code_fits_its_cells();
    threads_leave_memories();
}
