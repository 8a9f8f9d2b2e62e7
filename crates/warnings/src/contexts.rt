//! In which threads a function runs, and which of its parameters are the number of the thread.

use crate::action::{Action, Argument, Part, Variable};
use crate::codes::{Code, Codes};
use std::alloc::{AllocError, Allocator};

/// The most passes over all functions; if these are not enough, nothing is known.
const MOST_PASSES: usize = 32;

/// Facts about all runs of a function.
#[derive(Drop)]
pub(crate) struct Context<A: Allocator> {
    /// For each parameter whether it is the thread's own number.
    pub(crate) own: Vec<bool, A>,
    /// Whether each call depends on a comparison of the own number, so that it may be that of a single thread.
    pub(crate) is_selected: bool,
    /// Whether some call depends on the own number in any way.
    pub(crate) is_limited: bool,
}

/// The conditions on the own number that hold at a point of a body.
#[derive(Drop)]
pub(crate) struct Guards<A: Allocator> {
    /// How many conditions are read.
    conditions: usize,
    /// How many remainders are read.
    remainders: usize,
    selecting: usize,
    limiting: usize,
    /// How many of both there were where each part began.
    levels: Vec<(usize, usize), A>,
}

impl<A: Allocator + Copy> Guards<A> {
    /// The begin of a body.
    pub(crate) fn new(alloc: A) -> Guards<A> {
        Guards {
            conditions: 0,
            remainders: 0,
            selecting: 0,
            limiting: 0,
            levels: Vec::new(alloc),
        }
    }

    /// Whether a comparison of the own number decides that this point is reached.
    pub(crate) fn is_selected(&self) -> bool {
        self.selecting > 0
    }

    /// Whether the own number has a say in whether this point is reached.
    pub(crate) fn is_limited(&self) -> bool {
        self.limiting > 0
    }

    /// Begins a part.
    fn begin(&mut self, part: Part) -> Result<(), AllocError> {
        self.levels.push((self.selecting, self.limiting))?;
        match part {
            Part::Condition | Part::LoopCondition(_) => {
                self.conditions = self.conditions.saturating_add(1);
            }
            Part::Remainder => self.remainders = self.remainders.saturating_add(1),
            _ => {}
        }
        Ok(())
    }

    /// Ends a part.
    fn end(&mut self, part: Part) {
        let (selecting, limiting) = self.levels.pop().unwrap_or((0, 0));
        match part {
            Part::Condition | Part::LoopCondition(_) => {
                self.conditions = self.conditions.saturating_sub(1);
            }
            Part::Remainder => self.remainders = self.remainders.saturating_sub(1),
            Part::Choice | Part::Loop if self.conditions == 0 => {
                self.selecting = selecting;
                self.limiting = limiting;
            }
            _ => {}
        }
    }

    /// Reads a variable.
    fn read(&mut self, own: &[bool], variable: Variable<'_>) {
        if self.conditions == 0 || !is_local_own(own, variable.local) {
            return;
        }
        self.limiting = self.limiting.saturating_add(1);
        if self.remainders == 0 {
            self.selecting = self.selecting.saturating_add(1);
        }
    }

    /// Takes an action into account.
    pub(crate) fn take(&mut self, own: &[bool], action: Action<'_>) -> Result<(), AllocError> {
        match action {
            Action::Begins(part) => self.begin(part),
            Action::Ends(part) => {
                self.end(part);
                Ok(())
            }
            Action::Reads(variable) => {
                self.read(own, variable);
                Ok(())
            }
            _ => Ok(()),
        }
    }
}

/// Whether a local is the own number.
pub(crate) fn is_local_own(own: &[bool], local: Option<usize>) -> bool {
    match local {
        Some(local) => own.get(local).copied().unwrap_or(false),
        None => false,
    }
}

/// The context of a function before its calls are read. A parameter that is written is not the own number.
fn first_context<A: Allocator + Copy>(
    alloc: A,
    code: &Code<'_, A>,
) -> Result<Context<A>, AllocError> {
    let mut own = Vec::new(alloc);
    own.resize(code.parameters, true)?;
    'actions: for action in code.actions.iter() {
        if let Action::Writes(
            Variable {
                local: Some(local),
                ..
            },
            _,
        ) = action
        {
            if let Some(is_own) = own.get_mut(*local) {
                *is_own = false;
            }
        }
    }
    Ok(Context {
        own,
        is_selected: code.name != "worker",
        is_limited: false,
    })
}

/// Notes that an argument is not the own number. Whether that is new.
fn is_refuted<A: Allocator + Copy>(
    codes: &Codes<'_, A>,
    contexts: &mut [Context<A>],
    argument: Argument<'_>,
) -> bool {
    if let Some(number) = codes.number_of(argument.called) {
        if let Some(context) = contexts.get_mut(number) {
            if let Some(is_own) = context.own.get_mut(argument.number) {
                let was_own = *is_own;
                *is_own = false;
                return was_own;
            }
        }
    }
    false
}

/// Notes of a function that it is called. Whether that says anything new.
fn is_called<A: Allocator + Copy>(
    contexts: &mut [Context<A>],
    called: usize,
    is_selected: bool,
    is_limited: bool,
) -> bool {
    match contexts.get_mut(called) {
        Some(context) => {
            let differs = context.is_selected && !is_selected || !context.is_limited && is_limited;
            context.is_selected = context.is_selected && is_selected;
            context.is_limited = context.is_limited || is_limited;
            differs
        }
        None => false,
    }
}

/// Notes what the calls of a function say of its callees. Whether that is anything new.
fn passes_on<'a, A: Allocator + Copy>(
    alloc: A,
    codes: &Codes<'a, A>,
    contexts: &mut [Context<A>],
    caller: usize,
    code: &Code<'a, A>,
) -> Result<bool, AllocError> {
    let mut guards = Guards::new(alloc);
    let mut own = Vec::new(alloc);
    let mut is_selected = false;
    let mut is_limited = false;
    if let Some(context) = contexts.get(caller) {
        own.extend_from_slice(context.own.as_slice())?;
        is_selected = context.is_selected;
        is_limited = context.is_limited;
    }
    let mut differs = false;
    'actions: for action in code.actions.iter() {
        guards.take(own.as_slice(), *action)?;
        match action {
            Action::Passes(argument) => {
                if !is_local_own(own.as_slice(), argument.local) {
                    let is_new = is_refuted(codes, contexts, *argument);
                    differs = differs || is_new;
                }
            }
            Action::Calls(name, _) => {
                if let Some(called) = codes.number_of(name) {
                    let is_new = is_called(
                        contexts,
                        called,
                        is_selected || guards.is_selected(),
                        is_limited || guards.is_limited(),
                    );
                    differs = differs || is_new;
                }
            }
            _ => {}
        }
    }
    Ok(differs)
}

/// Nothing is known any more.
fn forget<A: Allocator + Copy>(contexts: &mut [Context<A>]) {
    'contexts: for context in contexts.iter_mut() {
        'own: for is_own in context.own.iter_mut() {
            *is_own = false;
        }
        context.is_selected = true;
        context.is_limited = true;
    }
}

/// Goes over all functions, each caller before what it calls. Whether something new was found.
fn is_passed_on<'a, A: Allocator + Copy>(
    alloc: A,
    codes: &Codes<'a, A>,
    contexts: &mut [Context<A>],
) -> Result<bool, AllocError> {
    let mut differs = false;
    'functions: for number in codes.order.iter().rev() {
        if let Some(code) = codes.all.get(*number) {
            let is_new = passes_on(alloc, codes, contexts, *number, code)?;
            differs = differs || is_new;
        }
    }
    Ok(differs)
}

/// The context of each function, by its number.
pub(crate) fn contexts_of<'a, A: Allocator + Copy>(
    alloc: A,
    codes: &Codes<'a, A>,
) -> Result<Vec<Context<A>, A>, AllocError> {
    let mut contexts = Vec::new(alloc);
    'functions: for code in codes.all.iter() {
        let context = first_context(alloc, code)?;
        let Ok(()) = contexts.push(context) else {
            return Err(AllocError);
        };
    }
    'passes: for _ in 0..MOST_PASSES {
        if !is_passed_on(alloc, codes, contexts.as_mut_slice())? {
            return Ok(contexts);
        }
    }
    forget(contexts.as_mut_slice());
    Ok(contexts)
}
