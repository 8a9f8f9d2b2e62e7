//! Whether reports show the same.

ghost use Rattle.std.specs.Prelude.{◌≡◌, ◌↔◌, IsTrue};

use crate::printed::{End, Printed, Shown, ThreadShown};
use containers::Same;
use machine::Event;
use std::alloc::Allocator;

impl Same for End {
    fn same(&self, other: &End) -> bool {
        *self == *other
    }
}

impl<A: Allocator> Same for ThreadShown<A> {
    fn same(&self, other: &ThreadShown<A>) -> bool {
        self.end.same(&other.end) && self.text.as_slice() == other.text.as_slice()
    }
}

impl<A: Allocator> Same for Shown<A> {
    fn same(&self, other: &Shown<A>) -> bool {
        self.name.same(&other.name)
            && self.ty == other.ty
            && self.words.as_slice() == other.words.as_slice()
    }
}

/// Whether two events are the same.
fn same_event(a: &(u64, u32, Event), b: &(u64, u32, Event)) -> bool
    ensures { IsTrue result ↔ (a.now ≡ b.now) }
{
    a.0 == b.0 && a.1 == b.1 && a.2 == b.2
}

/// Whether two lists of events are the same.
fn same_events(a: &[(u64, u32, Event)], b: &[(u64, u32, Event)]) -> bool
    ensures { IsTrue result ↔ (a.now ≡ b.now) }
{
    if a.len() != b.len() {
        return false;
    }
    'each: for i in 0..a.len() {
        if !same_event(&a[i], &b[i]) {
            return false;
        }
    }
    true
}

impl<A: Allocator> Same for Printed<A> {
    fn same(&self, other: &Printed<A>) -> bool {
        let events = match (&self.events, &other.events) {
            (Some(a), Some(b)) => same_events(a.as_slice(), b.as_slice()),
            (None, None) => true,
            _ => false,
        };
        events
            && self.threads.same(&other.threads)
            && self.globals.same(&other.globals)
            && self.holder == other.holder
    }
}
