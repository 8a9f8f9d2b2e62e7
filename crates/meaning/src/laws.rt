//! Laws of what a thread does. A law has no code: its contract is what it says.

ghost use Rattle.std.specs.Prelude.{ℕ};
ghost use Rattle.syntax.specs.Tree.{Expr, Program, Stmt};
ghost use Rattle.syntax.specs.Meaning.{calls, expr, stmt};
ghost use Rattle.meaning.specs.Frames.{IsFramed};

/// What stands round a run changes nothing: with memories to find behind those that there are, and behind memories left
/// and a text printed before, an expression and a statement give the same, and leave and print the same behind them.
/// Only where no memory is left to find one that comes behind may be found.
pub fn same_in_frames()
    ensures values { (p : Program) (frames : ℕ) (e : Expr) → IsFramed (expr p (calls p frames) e) }
    ensures statements { (p : Program) (frames : ℕ) (s : Stmt) → IsFramed (stmt p (calls p frames) s) }
{}
