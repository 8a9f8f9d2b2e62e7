//! Looks at cells, counted.

ghost use Rattle.std.specs.Prelude.{◌≡◌, ◌+◌, ◌<◌, ℕ};
ghost use Rattle.std.specs.Ordering.{MatchOrdering};

use std::cmp::Ordering;
use std::marker::Model;
use std::sync::ledger::{Blank, Book, Ledger, Share};

/// How many cells of a log were looked at. It takes no bytes, and nothing changes it but a look, which tells
/// whether a cell is less than, equal to or greater than the one that is sought.
#[derive(Drop)]
pub struct Looks<L: Ledger> {
    book: Book<L>,
    share: Share<L>,
}

impl<L: Ledger> Model for Looks<L> {
    ghost Value = { ℕ };

    ghost view = { λ looks. looks.book.total };

    ghost invariant = { λ looks. 0 < looks.share.parts };
}

impl<L: Ledger> Looks<L> {
    /// No looks yet. The ledger that `L` names has to be that of the blank: a caller passes `Brand` for `L` to a
    /// function over `L: Ledger`, with `Blank::new(1)`, and its proof picks the ledger.
    pub fn new(blank: Blank) -> Looks<L>
        requires name { blank.name ≡ L.name }
        requires parts { blank.parts ≡ L.parts }
        requires some { 0 < blank.parts }
        ensures { result ≡ 0 }
    {
        let (book, share) = blank.open::<L>();
        Looks { book, share }
    }

    /// Looks at a cell that a log has.
    pub(crate) fn compare(&mut self, found: u32, sought: u32) -> Ordering
        ensures order { MatchOrdering result (found < sought) (found ≡ sought) (sought < found) }
        ensures count { self.new ≡ self.old + 1 }
    {
        self.book.add(&mut self.share, 1);
        // Written out, the search branches on the two numbers and makes no `Ordering`.
        if found < sought {
            Ordering::Less
        } else if found == sought {
            Ordering::Equal
        } else {
            Ordering::Greater
        }
    }
}
