//! Where statements stand, noted of their instructions.

ghost use Rattle.std.specs.Prelude.{◌≡◌, ◌≤◌};
ghost use Rattle.lower_exprs.specs.Lists.{lists_of};

use lower_exprs::lists::Lists;
use lower_exprs::origins::note;
use lower_exprs::put::after;
use std::alloc::{AllocError, Allocator};
use syntax::spans::span_of_stmt;
use syntax::tree::Stmt;

/// How many instructions of its own a statement begins with.
fn own_first<A: Allocator>(s: &Stmt<A>) -> u32
    ensures { result ≤ 4 }
{
    match s {
        Stmt::Transaction(_, _, _) | Stmt::Print(_, _, _, _) => 1,
        Stmt::While(_, _) => 2,
        Stmt::DoWhile(_, _) => 3,
        _ => 0,
    }
}

/// Notes where a statement stands of its instructions before this place.
pub(crate) fn note_stmt<A: Allocator>(
    lists: &mut Lists<A>,
    to: u32,
    s: &Stmt<A>,
) -> Result<(), AllocError>
    ensures { lists_of lists.new ≡ lists_of lists.old }
{
    match span_of_stmt(s) {
        Some(at) => note(lists, to, at),
        None => Ok(()),
    }
}

/// Notes where a statement stands of the instructions that it begins with at this place.
pub(crate) fn note_first<A: Allocator>(
    lists: &mut Lists<A>,
    from: u32,
    s: &Stmt<A>,
) -> Result<(), AllocError>
    ensures { lists_of lists.new ≡ lists_of lists.old }
{
    let to = after(from, own_first(s))?;
    note_stmt(lists, to, s)
}
