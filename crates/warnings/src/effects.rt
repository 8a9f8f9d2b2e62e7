//! Which globals a function reads and writes, itself or by calls.

use crate::action::{Action, Variable};
use crate::codes::Codes;
use crate::known::FileNames;
use std::alloc::{AllocError, Allocator};

/// The most globals that are kept for one function; if there are more, its effect is not known.
const MOST_GLOBALS: usize = 32;

/// The most passes over all functions; if these are not enough, no effect is known.
const MOST_PASSES: usize = 32;

/// What a function reads and writes: globals by number, an array as a whole.
#[derive(Drop)]
pub(crate) struct Effect<A: Allocator> {
    pub(crate) reads: Vec<usize, A>,
    pub(crate) writes: Vec<usize, A>,
    /// Whether there may be more.
    pub(crate) is_open: bool,
}

impl<A: Allocator + Copy> Effect<A> {
    /// No reads and no writes.
    pub(crate) fn new(alloc: A) -> Effect<A> {
        Effect {
            reads: Vec::new(alloc),
            writes: Vec::new(alloc),
            is_open: false,
        }
    }

    /// How much is known.
    fn len(&self) -> usize {
        let more = if self.is_open { 1 } else { 0 };
        self.reads
            .len()
            .saturating_add(self.writes.len())
            .saturating_add(more)
    }

    /// Adds what another effect has.
    pub(crate) fn extend(&mut self, other: &Effect<A>) -> Result<(), AllocError> {
        self.is_open = self.is_open || other.is_open;
        'reads: for number in other.reads.iter() {
            self.add_read(*number)?;
        }
        'writes: for number in other.writes.iter() {
            self.add_write(*number)?;
        }
        Ok(())
    }

    fn add_read(&mut self, number: usize) -> Result<(), AllocError> {
        let is_kept = keep(&mut self.reads, number)?;
        self.is_open = self.is_open || !is_kept;
        Ok(())
    }

    fn add_write(&mut self, number: usize) -> Result<(), AllocError> {
        let is_kept = keep(&mut self.writes, number)?;
        self.is_open = self.is_open || !is_kept;
        Ok(())
    }
}

/// Whether a number is among some.
pub(crate) fn is_number_among(numbers: &[usize], wanted: usize) -> bool {
    'numbers: for number in numbers {
        if *number == wanted {
            return true;
        }
    }
    false
}

/// Adds a number if it is new. Whether it is there afterwards.
fn keep<A: Allocator>(kept: &mut Vec<usize, A>, number: usize) -> Result<bool, AllocError> {
    if is_number_among(kept.as_slice(), number) {
        return Ok(true);
    }
    if kept.len() < MOST_GLOBALS {
        kept.push(number)?;
        return Ok(true);
    }
    Ok(false)
}

/// The number of the global that a variable is.
fn global_of<A: Allocator + Copy>(
    file: &FileNames<'_, A>,
    variable: Variable<'_>,
) -> Option<usize> {
    match variable.local {
        Some(_) => None,
        None => file.index_of(variable.name),
    }
}

/// What actions read and write themselves.
pub(crate) fn own_effect<'a, A: Allocator + Copy>(
    alloc: A,
    file: &FileNames<'a, A>,
    actions: &[Action<'a>],
) -> Result<Effect<A>, AllocError> {
    let mut effect = Effect::new(alloc);
    'actions: for action in actions {
        match action {
            Action::Reads(variable) => {
                if let Some(number) = global_of(file, *variable) {
                    effect.add_read(number)?;
                }
            }
            Action::Writes(variable, _) => {
                if let Some(number) = global_of(file, *variable) {
                    effect.add_write(number)?;
                }
            }
            _ => {}
        }
    }
    Ok(effect)
}

/// Adds what the functions do that these actions call, as far as that is known.
pub(crate) fn add_called<'a, A: Allocator + Copy>(
    codes: &Codes<'a, A>,
    effects: &[Effect<A>],
    effect: &mut Effect<A>,
    actions: &[Action<'a>],
) -> Result<(), AllocError> {
    'actions: for action in actions {
        if let Action::Calls(name, _) = action {
            let called = match codes.number_of(name) {
                Some(number) => effects.get(number),
                None => None,
            };
            match called {
                Some(called) => effect.extend(called)?,
                None => effect.is_open = true,
            }
        }
    }
    Ok(())
}

/// Adds to the effect of each function those of its callees, in the order of the functions. Whether that changed one.
fn is_extended<'a, A: Allocator + Copy>(
    alloc: A,
    codes: &Codes<'a, A>,
    effects: &mut Vec<Effect<A>, A>,
) -> Result<bool, AllocError> {
    let mut differs = false;
    'functions: for number in codes.order.iter() {
        let mut effect = Effect::new(alloc);
        if let Some(own) = effects.get(*number) {
            effect.extend(own)?;
        }
        let before = effect.len();
        if let Some(code) = codes.all.get(*number) {
            add_called(
                codes,
                effects.as_slice(),
                &mut effect,
                code.actions.as_slice(),
            )?;
        }
        differs = differs || before != effect.len();
        if let Some(place) = effects.get_mut(*number) {
            *place = effect;
        }
    }
    Ok(differs)
}

/// Forgets what is known of effects.
fn open_all<A: Allocator>(effects: &mut [Effect<A>]) {
    'effects: for effect in effects.iter_mut() {
        effect.is_open = true;
    }
}

/// The effect of each function, by its number. Each pass over the functions adds what the passes before it found of
/// callees, until a pass adds nothing.
pub(crate) fn effects_of<'a, A: Allocator + Copy>(
    alloc: A,
    file: &FileNames<'a, A>,
    codes: &Codes<'a, A>,
) -> Result<Vec<Effect<A>, A>, AllocError> {
    let mut effects = Vec::new(alloc);
    'functions: for code in codes.all.iter() {
        let effect = own_effect(alloc, file, code.actions.as_slice())?;
        let Ok(()) = effects.push(effect) else {
            return Err(AllocError);
        };
    }
    'passes: for _ in 0..MOST_PASSES {
        if !is_extended(alloc, codes, &mut effects)? {
            return Ok(effects);
        }
    }
    open_all(effects.as_mut_slice());
    Ok(effects)
}
