//! Indices by a thread's own number that are too large for some threads, which other places count on.

use crate::action::{Action, Variable};
use crate::contexts::{Guards, is_local_own};
use crate::globals::is_own;
use crate::known::FileName;
use crate::warning::{Warning, WarningKind};
use crate::whole::Whole;
use lex::token::Span;
use std::alloc::{AllocError, Allocator};

/// A place that is of use if there are so many numbers of threads.
#[derive(Clone, Copy)]
struct Count {
    threads: u64,
    span: Span,
}

/// What was found in all functions.
#[derive(Drop)]
struct Counts<A: Allocator> {
    /// The place that counts on most threads.
    most: Option<Count>,
    /// The accesses by own numbers, each with the length of its array.
    accesses: Vec<Count, A>,
}

/// The length of an array.
fn length_of<A: Allocator + Copy>(whole: &Whole<'_, A>, name: &str) -> Option<u64> {
    match whole.file.get(name) {
        Some(FileName::Array(_, length)) => Some(*length),
        _ => None,
    }
}

impl<A: Allocator + Copy> Counts<A> {
    /// One place more.
    fn add(&mut self, count: Count) {
        match self.most {
            Some(most) if most.threads >= count.threads => {}
            _ => self.most = Some(count),
        }
    }

    /// An access to an array.
    fn add_access(
        &mut self,
        whole: &Whole<'_, A>,
        variable: Variable<'_>,
    ) -> Result<(), AllocError> {
        if let Some(threads) = length_of(whole, variable.name) {
            let span = variable.span;
            self.add(Count { threads, span });
            self.accesses.push(Count { threads, span })?;
        }
        Ok(())
    }
}

/// Adds what a function counts on.
fn add_counts<'a, A: Allocator + Copy>(
    alloc: A,
    whole: &Whole<'a, A>,
    counts: &mut Counts<A>,
    number: usize,
    actions: &[Action<'a>],
) -> Result<(), AllocError> {
    let own = whole.own_of(number);
    let is_limited = match whole.contexts.get(number) {
        Some(context) => context.is_limited,
        None => true,
    };
    let mut guards = Guards::new(alloc);
    'actions: for action in actions {
        guards.take(own, *action)?;
        match action {
            Action::Counts {
                local,
                threads,
                span,
            } if is_local_own(own, Some(*local)) => counts.add(Count {
                threads: *threads,
                span: *span,
            }),
            Action::Reads(variable) | Action::Writes(variable, _) => {
                if is_own(own, *variable) && !is_limited && !guards.is_limited() {
                    counts.add_access(whole, *variable)?;
                }
            }
            _ => {}
        }
    }
    Ok(())
}

/// Adds the indices by own numbers that are outside their arrays in some threads, if another place counts on these.
pub(crate) fn add_indices<'a, A: Allocator + Copy>(
    alloc: A,
    whole: &Whole<'a, A>,
    found: &mut Vec<Warning, A>,
) -> Result<(), AllocError> {
    let mut counts = Counts {
        most: None,
        accesses: Vec::new(alloc),
    };
    'functions: for (number, code) in whole.codes.all.iter().enumerate() {
        if whole.reached.contains(code.name) {
            add_counts(alloc, whole, &mut counts, number, code.actions.as_slice())?;
        }
    }
    if let Some(most) = counts.most {
        'accesses: for access in counts.accesses.iter() {
            if access.threads < most.threads {
                found.push(Warning {
                    kind: WarningKind::OwnIndex,
                    span: access.span,
                    other: Some(most.span),
                })?;
            }
        }
    }
    Ok(())
}
