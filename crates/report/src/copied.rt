//! Copies of reports.

ghost use Rattle.std.specs.Prelude.{◌≡◌, IfOk};

use crate::outcome_list::ReportedOrder;
use crate::printed::{Printed, Shown, ThreadShown};
use containers::{Copied, Items};
use machine::Event;
use std::alloc::{AllocError, Allocator};

impl<A: Allocator + Copy> Copied<A> for ThreadShown<A> {
    fn copy(&self, alloc: A) -> Result<ThreadShown<A>, AllocError> {
        let text = Vec::from_slice(alloc, self.text.as_slice())?;
        Ok(ThreadShown {
            end: self.end,
            text: Items::from_vec(text),
        })
    }
}

impl<A: Allocator + Copy> Copied<A> for Shown<A> {
    fn copy(&self, alloc: A) -> Result<Shown<A>, AllocError> {
        let name = self.name.copy(alloc)?;
        let words = Vec::from_slice(alloc, self.words.as_slice())?;
        Ok(Shown {
            name,
            ty: self.ty,
            words: Items::from_vec(words),
        })
    }
}

/// A copy of a report's events.
fn copied_events<A: Allocator + Copy>(
    alloc: A,
    events: &Option<Items<(u64, u32, Event), A>>,
) -> Result<Option<Items<(u64, u32, Event), A>>, AllocError>
    ensures { IfOk result (λ x. x ≡ events.now) }
{
    match events {
        None => Ok(None),
        Some(events) => {
            let all = Vec::from_slice(alloc, events.as_slice())?;
            Ok(Some(Items::from_vec(all)))
        }
    }
}

impl<A: Allocator + Copy> Copied<A> for Printed<A> {
    fn copy(&self, alloc: A) -> Result<Printed<A>, AllocError> {
        let events = copied_events(alloc, &self.events)?;
        let threads = self.threads.copy(alloc)?;
        let globals = self.globals.copy(alloc)?;
        Ok(Printed {
            events,
            threads,
            globals,
            holder: self.holder,
        })
    }
}

impl<A: Allocator + Copy> Copied<A> for ReportedOrder<A> {
    fn copy(&self, alloc: A) -> Result<ReportedOrder<A>, AllocError> {
        let order = Vec::from_slice(alloc, self.order.as_slice())?;
        let shown = self.shown.copy(alloc)?;
        Ok(ReportedOrder {
            order: Items::from_vec(order),
            shown,
        })
    }
}
