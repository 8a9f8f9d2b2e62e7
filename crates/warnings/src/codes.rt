//! The functions of a program by number, with what their bodies do, and an order in which callees come before their
//! callers.

use crate::action::Action;
use containers::Items;
use name_tables::Table;
use std::alloc::{AllocError, Allocator};

/// A function that has a body, and what it does.
#[derive(Drop)]
pub(crate) struct Code<'a, A: Allocator> {
    pub(crate) name: &'a str,
    /// How many parameters it has: the first actions declare them.
    pub(crate) parameters: usize,
    pub(crate) actions: Vec<Action<'a>, A>,
}

/// The functions of a program.
#[derive(Drop)]
pub(crate) struct Codes<'a, A: Allocator + Copy> {
    numbers: Table<'a, usize, A>,
    pub(crate) all: Vec<Code<'a, A>, A>,
    /// The numbers of all functions. A callee comes before its caller, unless it leads back to it.
    pub(crate) order: Vec<usize, A>,
    /// Whether a function leads back to itself.
    pub(crate) is_cyclic: bool,
}

/// Calls between functions, by number.
#[derive(Drop)]
struct Calls<A: Allocator> {
    /// The callers of each function, once for each call.
    callers: Vec<Items<usize, A>, A>,
    /// How many calls each function makes of functions that are not in the order yet.
    waiting: Vec<usize, A>,
}

/// The functions that have a place in the order so far.
#[derive(Drop)]
struct Ordered<A: Allocator> {
    is_placed: Vec<bool, A>,
    order: Vec<usize, A>,
    is_cyclic: bool,
}

impl<'a, A: Allocator + Copy> Codes<'a, A> {
    /// No functions; the hashes of names are by this key.
    pub(crate) fn new(alloc: A, key: u64) -> Codes<'a, A> {
        Codes {
            numbers: Table::new(alloc, key),
            all: Vec::new(alloc),
            order: Vec::new(alloc),
            is_cyclic: false,
        }
    }

    /// The number of the function of a name.
    pub(crate) fn number_of(&self, name: &str) -> Option<usize> {
        self.numbers.get(name).copied()
    }

    /// One function more.
    pub(crate) fn add(&mut self, code: Code<'a, A>) -> Result<(), AllocError> {
        let number = self.all.len();
        self.numbers.declare(code.name, number)?;
        let Ok(()) = self.all.push(code) else {
            return Err(AllocError);
        };
        Ok(())
    }

    /// Finds the order of the functions.
    pub(crate) fn set_order(&mut self, alloc: A) -> Result<(), AllocError> {
        let mut calls = calls_between(alloc, self)?;
        let Ordered {
            is_placed: _,
            order,
            is_cyclic,
        } = order_of(alloc, &mut calls)?;
        self.order = order;
        self.is_cyclic = is_cyclic;
        Ok(())
    }
}

/// Adds a call of one function by another.
fn add_call<A: Allocator + Copy>(
    calls: &mut Calls<A>,
    caller: usize,
    called: usize,
) -> Result<(), AllocError> {
    if let Some(callers) = calls.callers.get_mut(called) {
        callers.push(caller)?;
        if let Some(waiting) = calls.waiting.get_mut(caller) {
            *waiting = waiting.saturating_add(1);
        }
    }
    Ok(())
}

/// Adds the calls of a function.
fn add_calls<'a, A: Allocator + Copy>(
    codes: &Codes<'a, A>,
    calls: &mut Calls<A>,
    caller: usize,
    actions: &[Action<'a>],
) -> Result<(), AllocError> {
    'actions: for action in actions {
        if let Action::Calls(name, _) = action {
            if let Some(called) = codes.number_of(name) {
                add_call(calls, caller, called)?;
            }
        }
    }
    Ok(())
}

/// The calls between functions.
fn calls_between<A: Allocator + Copy>(
    alloc: A,
    codes: &Codes<'_, A>,
) -> Result<Calls<A>, AllocError> {
    let mut calls = Calls {
        callers: Vec::new(alloc),
        waiting: Vec::new(alloc),
    };
    'functions: for _ in 0..codes.all.len() {
        calls.callers.push(Items::new(alloc))?;
        calls.waiting.push(0)?;
    }
    'callers: for (caller, code) in codes.all.iter().enumerate() {
        add_calls(codes, &mut calls, caller, code.actions.as_slice())?;
    }
    Ok(calls)
}

/// Appends a function to the order, unless it is there.
fn place<A: Allocator + Copy>(ordered: &mut Ordered<A>, number: usize) -> Result<(), AllocError> {
    if let Some(is_placed) = ordered.is_placed.get_mut(number) {
        if !*is_placed {
            *is_placed = true;
            ordered.order.push(number)?;
        }
    }
    Ok(())
}

/// Appends those callers of a function that wait for no other one.
fn place_callers<A: Allocator + Copy>(
    callers: &[usize],
    waiting: &mut Vec<usize, A>,
    ordered: &mut Ordered<A>,
) -> Result<(), AllocError> {
    'callers: for caller in callers {
        if let Some(waiting) = waiting.get_mut(*caller) {
            *waiting = waiting.saturating_sub(1);
            if *waiting == 0 {
                place(ordered, *caller)?;
            }
        }
    }
    Ok(())
}

/// Appends a function to the order, and then each caller that waits for no other function.
fn place_from<A: Allocator + Copy>(
    calls: &mut Calls<A>,
    ordered: &mut Ordered<A>,
    number: usize,
) -> Result<(), AllocError> {
    let first = ordered.order.len();
    place(ordered, number)?;
    'placed: for at in first..calls.callers.len() {
        let Some(called) = ordered.order.get(at).copied() else {
            return Ok(());
        };
        if let Some(callers) = calls.callers.get(called) {
            place_callers(callers.as_slice(), &mut calls.waiting, ordered)?;
        }
    }
    Ok(())
}

/// The order of functions.
fn order_of<A: Allocator + Copy>(alloc: A, calls: &mut Calls<A>) -> Result<Ordered<A>, AllocError> {
    let count = calls.callers.len();
    let mut is_placed = Vec::new(alloc);
    is_placed.resize(count, false)?;
    let mut ordered = Ordered {
        is_placed,
        order: Vec::new(alloc),
        is_cyclic: false,
    };
    'ready: for number in 0..count {
        if calls.waiting.get(number).copied() == Some(0) {
            place_from(calls, &mut ordered, number)?;
        }
    }
    ordered.is_cyclic = ordered.order.len() < count;
    'rest: for number in 0..count {
        place_from(calls, &mut ordered, number)?;
    }
    Ok(ordered)
}
