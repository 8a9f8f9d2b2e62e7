//! What is left out of a program.

use crate::fault::Fault;
use std::alloc::{AllocError, Allocator};
use syntax::tree::{Function, Global, Item, Name, Unit};

/// A name that is not known.
const UNKNOWN_NAME: u32 = 20;

/// A second declaration.
pub(crate) const DECLARED_TWICE: u32 = 21;

/// A function that is declared with other types than before.
const WRONG_TYPE: u32 = 22;

/// A program without a `worker`.
pub(crate) const NO_WORKER: u32 = 28;

/// What is left out: what these faults stand in, and each full expression that has one of these names, since it is not
/// known what they are declared as.
#[derive(Drop)]
pub(crate) struct LeftOut<'t, A: Allocator> {
    text: &'t str,
    faults: Vec<Fault, A>,
    names: Vec<&'t [u8], A>,
}

impl<'t, A: Allocator + Copy> LeftOut<'t, A> {
    /// Nothing of this text.
    pub(crate) fn new(alloc: A, text: &'t str) -> LeftOut<'t, A> {
        LeftOut {
            text,
            faults: Vec::new(alloc),
            names: Vec::new(alloc),
        }
    }

    /// The faults, in the order in which they were found.
    pub(crate) fn faults(&self) -> &[Fault] {
        self.faults.as_slice()
    }

    /// Whether a fault begins at an offset.
    pub(crate) fn is_at(&self, offset: usize) -> bool {
        'faults: for fault in self.faults() {
            if fault.span.start == offset {
                return true;
            }
        }
        false
    }

    /// Whether a fault of this number begins at an offset.
    pub(crate) fn has(&self, number: u32, offset: usize) -> bool {
        'faults: for fault in self.faults() {
            if fault.number == number && fault.span.start == offset {
                return true;
            }
        }
        false
    }

    /// Whether there is no `worker`.
    pub(crate) fn has_no_worker(&self) -> bool {
        'faults: for fault in self.faults() {
            if fault.number == NO_WORKER {
                return true;
            }
        }
        false
    }

    /// The bytes of the text at a fault.
    fn text_at(&self, fault: Fault) -> &'t [u8] {
        self.text
            .as_bytes()
            .get(fault.span.start..fault.span.end)
            .unwrap_or(b"")
    }

    /// Whether there is a fault of this number at this name.
    pub(crate) fn is_named(&self, number: u32, name: &str) -> bool {
        'faults: for fault in self.faults() {
            if fault.number == number && self.text_at(*fault) == name.as_bytes() {
                return true;
            }
        }
        false
    }

    /// Whether it is not known what a name is declared as.
    pub(crate) fn is_unknown(&self, wanted: &[u8]) -> bool {
        'names: for name in self.names.iter() {
            if *name == wanted {
                return true;
            }
        }
        false
    }

    /// Whether a fault begins at a name, or it is not known what the name is declared as.
    pub(crate) fn has_name(&self, x: &Name<A>) -> bool {
        self.is_at(x.span.start) || self.is_unknown(x.text.as_str().as_bytes())
    }

    /// Whether a fault stands in a global's declaration.
    pub(crate) fn has_global(&self, global: &Global<A>) -> bool {
        'first: for first in &global.first {
            if self.is_at(first.span.start) {
                return true;
            }
        }
        match global.length {
            Some((_, span)) if self.is_at(span.start) => true,
            _ => self.is_at(global.name.span.start),
        }
    }

    /// Whether a fault says of a function's name that it is declared as something else.
    pub(crate) fn has_function(&self, f: &Function<A>) -> bool {
        let start = f.name.span.start;
        self.has(DECLARED_TWICE, start) || self.has(WRONG_TYPE, start)
    }

    /// Adds the names of globals in whose declarations a fault stands.
    fn add_globals(&mut self, all: &'t [Global<A>]) -> Result<(), AllocError> {
        'each: for one in all {
            if self.has_global(one) {
                self.names.push(one.name.text.as_str().as_bytes())?;
            }
        }
        Ok(())
    }

    /// Adds the names of an item that is left out.
    fn add_item(&mut self, item: &'t Item<A>) -> Result<(), AllocError> {
        match item {
            Item::Function(f) if self.has_function(f) => {
                self.names.push(f.name.text.as_str().as_bytes())?;
                Ok(())
            }
            Item::Function(_) => Ok(()),
            Item::Globals(all) => self.add_globals(all.as_slice()),
        }
    }

    /// Adds a fault of a program, and the names of which it is not known then what they are declared as.
    pub(crate) fn add(&mut self, unit: &'t Unit<A>, fault: Fault) -> Result<(), AllocError> {
        self.faults.push(fault)?;
        self.names.clear();
        'faults: for at in 0..self.faults.len() {
            if let Some(fault) = self.faults.get(at).copied() {
                if fault.number == UNKNOWN_NAME {
                    let name = self.text_at(fault);
                    self.names.push(name)?;
                }
            }
        }
        if self.has_no_worker() {
            self.names.push(b"worker")?;
        }
        'items: for item in &unit.items {
            self.add_item(item)?;
        }
        Ok(())
    }
}
