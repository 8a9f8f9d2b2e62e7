//! What a whole program writes into each global.

use crate::action::{Action, Cell, Variable};
use crate::codes::Codes;
use crate::contexts::Context;
use crate::facts::Given;
use crate::known::FileNames;
use lex::token::Span;
use std::alloc::{AllocError, Allocator};
use syntax::tree::{Global, Item};

/// What a global can hold.
#[derive(Clone, Copy)]
pub(crate) struct Held {
    /// Whether 0 is among its first values.
    pub(crate) begins_zero: bool,
    /// Whether another number is.
    pub(crate) begins_nonzero: bool,
    /// A write that may give 0.
    pub(crate) zero: Option<Span>,
    /// A write that may give another number.
    pub(crate) nonzero: Option<Span>,
    /// Whether a write may be to an element that is not the writing thread's own.
    pub(crate) is_shared: bool,
}

impl Held {
    /// A write that may give 0, or another number.
    pub(crate) fn write_of(self, is_zero: bool) -> Option<Span> {
        if is_zero { self.zero } else { self.nonzero }
    }

    /// Whether 0, or another number, is among the first values.
    pub(crate) fn begins_with(self, is_zero: bool) -> bool {
        if is_zero {
            self.begins_zero
        } else {
            self.begins_nonzero
        }
    }

    /// Whether nothing is written.
    pub(crate) fn is_constant(self) -> bool {
        self.zero.is_none() && self.nonzero.is_none()
    }
}

/// What a global holds at the start.
fn first_of<A: Allocator>(global: &Global<A>) -> Held {
    let cells = match global.length {
        Some((length, _)) => length,
        None => 1,
    };
    let mut held = Held {
        begins_zero: (global.first.len() as u64) < cells,
        begins_nonzero: false,
        zero: None,
        nonzero: None,
        is_shared: false,
    };
    'first: for one in global.first.iter() {
        held.begins_zero = held.begins_zero || one.value == 0;
        held.begins_nonzero = held.begins_nonzero || one.value != 0;
    }
    held
}

/// A write of no number.
fn nothing_held() -> Held {
    Held {
        begins_zero: false,
        begins_nonzero: false,
        zero: None,
        nonzero: None,
        is_shared: false,
    }
}

/// What each name of the file holds at the start, by its number; nothing if it is a function's.
fn held_at_start<A: Allocator + Copy>(
    alloc: A,
    file: &FileNames<'_, A>,
    items: &[Item<A>],
) -> Result<Vec<Held, A>, AllocError> {
    let mut all = Vec::new(alloc);
    all.resize(file.len(), nothing_held())?;
    'items: for item in items {
        if let Item::Globals(globals) = item {
            'globals: for global in globals {
                if let Some(number) = file.index_of(global.name.text.as_str()) {
                    if let Some(held) = all.get_mut(number) {
                        *held = first_of(global);
                    }
                }
            }
        }
    }
    Ok(all)
}

/// The first of two places, where there is one.
fn first_span(one: Option<Span>, other: Span) -> Option<Span> {
    match one {
        Some(span) => Some(span),
        None => Some(other),
    }
}

/// Whether an access is to the element of the thread's own number, given which locals of the function are that number.
pub(crate) fn is_own(own: &[bool], variable: Variable<'_>) -> bool {
    match variable.cell {
        Cell::Local(local) => own.get(local).copied().unwrap_or(false),
        Cell::Whole | Cell::Constant(_) | Cell::Unknown => false,
    }
}

/// Adds a write.
fn add_given(held: &mut Held, variable: Variable<'_>, given: Given<'_>, is_own: bool) {
    if !matches!(given, Given::Nonzero) {
        held.zero = first_span(held.zero, variable.span);
    }
    if !matches!(given, Given::Zero) {
        held.nonzero = first_span(held.nonzero, variable.span);
    }
    held.is_shared = held.is_shared || !is_own;
}

/// Adds the writes of a function.
fn add_writes<'a, A: Allocator + Copy>(
    file: &FileNames<'a, A>,
    all: &mut Vec<Held, A>,
    own: &[bool],
    actions: &[Action<'a>],
) {
    'actions: for action in actions {
        match action {
            Action::Writes(variable, given) if variable.local.is_none() => {
                if let Some(number) = file.index_of(variable.name) {
                    if let Some(held) = all.get_mut(number) {
                        add_given(held, *variable, *given, is_own(own, *variable));
                    }
                }
            }
            _ => {}
        }
    }
}

/// What each name of the file can hold, by its number.
pub(crate) fn held_by<'a, A: Allocator + Copy>(
    alloc: A,
    file: &FileNames<'a, A>,
    items: &[Item<A>],
    codes: &Codes<'a, A>,
    contexts: &[Context<A>],
) -> Result<Vec<Held, A>, AllocError> {
    let mut all = held_at_start(alloc, file, items)?;
    'functions: for (number, code) in codes.all.iter().enumerate() {
        let own = match contexts.get(number) {
            Some(context) => context.own.as_slice(),
            None => &[],
        };
        add_writes(file, &mut all, own, code.actions.as_slice());
    }
    Ok(all)
}
