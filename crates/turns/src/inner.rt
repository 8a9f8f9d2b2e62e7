//! The transactions inside that of a turn.

use bytecode::{Code, InstrView};
use machine::{Event, StepShown};
use norec_core::Access;
use std::alloc::{AllocError, Allocator, Global};

/// How an inner transaction ends.
#[derive(Clone, Copy, PartialEq, Eq)]
pub(crate) enum InnerEnd {
    Committed,
    Cancelled,
    /// A trap or a cancel of an outer transaction ends it.
    Ended,
}

/// An inner transaction: the offset at which it begins in the source, if that is known, and how it ends.
#[derive(Clone, Copy)]
pub(crate) struct Inner {
    pub start: Option<usize>,
    pub end: InnerEnd,
}

/// The transactions of a turn.
#[derive(Drop)]
pub(crate) struct Nested<A: Allocator = Global> {
    /// Those inside the outermost one, in the order in which they begin.
    pub inner: Vec<Inner, A>,
    /// Which of these are open, the innermost one last.
    open: Vec<usize, A>,
    /// Whether the outermost one was cancelled.
    pub is_cancelled: bool,
}

impl<A: Allocator + Copy> Nested<A> {
    /// None yet.
    pub(crate) fn new(alloc: A) -> Nested<A> {
        Nested {
            inner: Vec::new(alloc),
            open: Vec::new(alloc),
            is_cancelled: false,
        }
    }

    /// An inner transaction begins at an offset.
    fn begin(&mut self, start: Option<usize>) -> Result<(), AllocError> {
        self.open.push(self.inner.len())?;
        self.inner.push(Inner {
            start,
            end: InnerEnd::Ended,
        })?;
        Ok(())
    }

    /// The innermost one ends.
    fn end(&mut self, end: InnerEnd) {
        if let Some(number) = self.open.pop() {
            if let Some(inner) = self.inner.as_mut_slice().get_mut(number) {
                inner.end = end;
            }
        }
    }

    /// Cancels this many transactions, the innermost ones.
    fn cancel(&mut self, levels: usize) {
        if levels > self.open.len() {
            self.is_cancelled = true;
        }
        'levels: for _ in 0..levels.min(self.open.len()) {
            self.end(InnerEnd::Cancelled);
        }
    }

    /// Notes which transaction a step begins or ends; the first one begins the outermost one.
    pub(crate) fn note(
        &mut self,
        code: &Code<A>,
        shown: StepShown,
        is_first: bool,
    ) -> Result<(), AllocError> {
        if is_first || shown.access != Access::Local {
            return Ok(());
        }
        if shown.event == Event::Cancel {
            self.cancel(levels_at(code, shown.place) as usize);
            return Ok(());
        }
        match code.instr(shown.place as usize) {
            Some(InstrView::Begin(_)) => self.begin(start_at(code, shown.place)),
            Some(InstrView::Commit) => {
                self.end(InnerEnd::Committed);
                Ok(())
            }
            _ => Ok(()),
        }
    }
}

/// How many transactions the instruction at a place cancels.
fn levels_at<A: Allocator>(code: &Code<A>, place: u32) -> u32 {
    match code.instr(place as usize) {
        Some(InstrView::CancelOuter(levels)) => levels,
        _ => 1,
    }
}

/// The offset in the source of the instruction at a place.
pub(crate) fn start_at<A: Allocator>(code: &Code<A>, place: u32) -> Option<usize> {
    match code.span_at(place as usize) {
        Some(span) => Some(span.start),
        None => None,
    }
}
