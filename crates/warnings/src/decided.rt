//! What the callers of a function see of its reads and writes of shared data.

use crate::action::Cell;
use containers::Items;
use lex::token::Span;
use std::alloc::{AllocError, Allocator};

/// The most reads, writes or names that are kept in mind at one time.
pub(crate) const MOST_KEPT: usize = 64;

/// A global, or an element of an array.
#[derive(Clone, Copy)]
pub(crate) struct Place<'a> {
    pub(crate) global: &'a str,
    pub(crate) cell: Cell,
}

impl<'a> Place<'a> {
    /// Whether two are the same.
    pub(crate) fn is_same(self, other: Place<'_>) -> bool {
        self.global == other.global && self.cell.is_same(other.cell)
    }

    /// Whether it is this global, and no element.
    pub(crate) fn is_whole_of(self, global: &str) -> bool {
        self.global == global && matches!(self.cell, Cell::Whole)
    }

    /// The place as another function sees it, whose locals are others.
    fn from_outside(self) -> Place<'a> {
        match self.cell {
            Cell::Local(_) => Place {
                global: self.global,
                cell: Cell::Unknown,
            },
            Cell::Whole | Cell::Constant(_) | Cell::Unknown => self,
        }
    }
}

/// A write of shared data.
#[derive(Clone, Copy)]
pub(crate) struct Written<'a> {
    pub(crate) place: Place<'a>,
    pub(crate) span: Span,
    /// Whether its transaction looks at the global before, or no other thread writes there.
    pub(crate) is_checked: bool,
    /// Whether it ends what a wait for 0, or for another number, has waited for.
    pub(crate) ends_zero: bool,
    pub(crate) ends_nonzero: bool,
    /// The parameter that decides what is written, or whether, if that is what this write tells.
    pub(crate) by: Option<usize>,
}

/// What the callers of a function see.
#[derive(Drop)]
pub(crate) struct Decided<'a, A: Allocator> {
    /// The shared data that what it returns comes from. A transaction that read it has not written it.
    pub(crate) returns: Items<Place<'a>, A>,
    /// The globals that its conditions read.
    pub(crate) checks: Items<&'a str, A>,
    pub(crate) writes: Items<Written<'a>, A>,
}

/// Whether a name is among some.
pub(crate) fn is_among(names: &[&str], wanted: &str) -> bool {
    'names: for name in names {
        if *name == wanted {
            return true;
        }
    }
    false
}

/// Whether a place is among some.
fn is_place_among(places: &[Place<'_>], wanted: Place<'_>) -> bool {
    'places: for place in places {
        if place.is_same(wanted) {
            return true;
        }
    }
    false
}

/// Whether two writes tell callers the same.
fn is_same_write(one: Written<'_>, other: Written<'_>) -> bool {
    one.place.is_same(other.place)
        && one.is_checked == other.is_checked
        && one.ends_zero == other.ends_zero
        && one.ends_nonzero == other.ends_nonzero
        && one.by == other.by
}

/// Whether one of some writes tells callers the same.
fn is_write_among(writes: &[Written<'_>], wanted: Written<'_>) -> bool {
    'writes: for written in writes {
        if is_same_write(*written, wanted) {
            return true;
        }
    }
    false
}

impl<'a, A: Allocator + Copy> Decided<'a, A> {
    /// Nothing is read or written.
    pub(crate) fn new(alloc: A) -> Decided<'a, A> {
        Decided {
            returns: Items::new(alloc),
            checks: Items::new(alloc),
            writes: Items::new(alloc),
        }
    }

    /// Adds a place that the returned value comes from.
    pub(crate) fn add_returned(&mut self, place: Place<'a>) -> Result<(), AllocError> {
        let place = place.from_outside();
        if self.returns.len() < MOST_KEPT && !is_place_among(self.returns.as_slice(), place) {
            self.returns.push(place)?;
        }
        Ok(())
    }

    /// A condition reads this global.
    pub(crate) fn add_check(&mut self, global: &'a str) -> Result<(), AllocError> {
        if self.checks.len() < MOST_KEPT && !is_among(self.checks.as_slice(), global) {
            self.checks.push(global)?;
        }
        Ok(())
    }

    /// One write more.
    pub(crate) fn add_write(&mut self, written: Written<'a>) -> Result<(), AllocError> {
        let written = Written {
            place: written.place.from_outside(),
            ..written
        };
        if self.writes.len() < MOST_KEPT && !is_write_among(self.writes.as_slice(), written) {
            self.writes.push(written)?;
        }
        Ok(())
    }
}
