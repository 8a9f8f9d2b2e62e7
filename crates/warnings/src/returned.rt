//! Facts about one global that follow from the values of locals and of calls.

use crate::action::Action;
use crate::codes::{Code, Codes};
use crate::facts::{Fact, Given, Subject, Test};
use std::alloc::{AllocError, Allocator};

/// The most values of a function that are read.
const MOST_VALUES: usize = 16;

/// A global, or some element of an array, is 0, or it is not.
#[derive(Clone, Copy)]
pub(crate) struct GlobalFact<'a> {
    pub(crate) global: &'a str,
    pub(crate) is_zero: bool,
}

/// The facts that hold if a function returns 0, and if it does not.
#[derive(Clone, Copy)]
pub(crate) struct Returned<'a> {
    if_true: Option<GlobalFact<'a>>,
    if_false: Option<GlobalFact<'a>>,
}

/// The fact that several values have in common.
#[derive(Clone, Copy)]
enum Gathered<'a> {
    /// No value says anything yet.
    Nothing,
    /// Each value that is 0, or is not, says this.
    Says(GlobalFact<'a>),
    /// They differ, or one says nothing.
    Unknown,
}

/// Whether two facts are the same.
fn is_same(one: GlobalFact<'_>, other: GlobalFact<'_>) -> bool {
    one.global == other.global && one.is_zero == other.is_zero
}

impl<'a> Gathered<'a> {
    /// One fact more, if there is one.
    fn and(self, fact: Option<GlobalFact<'a>>) -> Gathered<'a> {
        match (self, fact) {
            (Gathered::Nothing, Some(fact)) => Gathered::Says(fact),
            (Gathered::Says(one), Some(fact)) if is_same(one, fact) => Gathered::Says(one),
            _ => Gathered::Unknown,
        }
    }

    /// The fact that all values give.
    fn fact(self) -> Option<GlobalFact<'a>> {
        match self {
            Gathered::Says(fact) => Some(fact),
            Gathered::Nothing | Gathered::Unknown => None,
        }
    }
}

/// The fact about a global that a fact is, unless its subject is a local.
fn direct_fact<'a, A: Allocator + Copy>(
    codes: &Codes<'a, A>,
    returned: &[Returned<'a>],
    fact: Option<Fact<'a>>,
) -> Option<GlobalFact<'a>> {
    let Some(Fact { subject, is_zero }) = fact else {
        return None;
    };
    match subject {
        Subject::Global(global) => Some(GlobalFact { global, is_zero }),
        Subject::Local(_) => None,
        Subject::Call(name) => {
            let known = match codes.number_of(name) {
                Some(number) => returned.get(number).copied(),
                None => None,
            };
            match known {
                Some(known) if is_zero => known.if_false,
                Some(known) => known.if_true,
                None => None,
            }
        }
    }
}

/// The common fact about a global, with one more value that is 0, or is not.
fn with_given<'a, A: Allocator + Copy>(
    codes: &Codes<'a, A>,
    returned: &[Returned<'a>],
    gathered: Gathered<'a>,
    given: Given<'a>,
    is_zero: bool,
) -> Gathered<'a> {
    match given {
        Given::Zero if !is_zero => gathered,
        Given::Nonzero if is_zero => gathered,
        Given::Zero | Given::Nonzero => Gathered::Unknown,
        Given::Computed(test) => gathered.and(direct_fact(codes, returned, test.if_zero(is_zero))),
    }
}

/// The fact about a global that holds if a local is 0, or is not, and has its value from one of these actions.
fn fact_of_local<'a, A: Allocator + Copy>(
    codes: &Codes<'a, A>,
    returned: &[Returned<'a>],
    actions: &[Action<'a>],
    local: usize,
    is_zero: bool,
) -> Option<GlobalFact<'a>> {
    let mut gathered = Gathered::Nothing;
    'actions: for action in actions {
        match action {
            Action::Writes(variable, given) if variable.local == Some(local) => {
                gathered = with_given(codes, returned, gathered, *given, is_zero);
            }
            _ => {}
        }
    }
    gathered.fact()
}

/// The fact about a global that follows from a fact, where locals have their values from these actions.
pub(crate) fn global_fact<'a, A: Allocator + Copy>(
    codes: &Codes<'a, A>,
    returned: &[Returned<'a>],
    actions: &[Action<'a>],
    fact: Option<Fact<'a>>,
) -> Option<GlobalFact<'a>> {
    match fact {
        Some(
            Fact {
                subject: Subject::Local(local),
                is_zero,
            },
        ) => fact_of_local(codes, returned, actions, local, is_zero),
        _ => direct_fact(codes, returned, fact),
    }
}

/// The fact about a global that holds if a returned value is 0, or is not.
fn fact_returned<'a, A: Allocator + Copy>(
    codes: &Codes<'a, A>,
    returned: &[Returned<'a>],
    code: &Code<'a, A>,
    test: Test<'a>,
    is_zero: bool,
) -> Option<GlobalFact<'a>> {
    match test.if_zero(is_zero) {
        // A local is 0 before it is written, and a parameter has a value from outside.
        Some(
            Fact {
                subject: Subject::Local(local),
                is_zero,
            },
        ) if !is_zero && local >= code.parameters => fact_of_local(
            codes,
            returned,
            code.actions.as_slice(),
            local,
            is_zero,
        ),
        fact => direct_fact(codes, returned, fact),
    }
}

/// The fact about a global that holds if a function returns 0, or something else.
fn fact_of_return<'a, A: Allocator + Copy>(
    codes: &Codes<'a, A>,
    returned: &[Returned<'a>],
    code: &Code<'a, A>,
    is_zero: bool,
) -> Option<GlobalFact<'a>> {
    let mut gathered = Gathered::Nothing;
    let mut values = 0usize;
    'actions: for action in code.actions.iter() {
        if let Action::Returns(given) = action {
            if values == MOST_VALUES {
                return None;
            }
            values = values.saturating_add(1);
            gathered = match given {
                Given::Computed(test) => gathered.and(fact_returned(
                    codes, returned, code, *test, is_zero,
                )),
                given => with_given(codes, returned, gathered, *given, is_zero),
            };
        }
    }
    gathered.fact()
}

/// The facts that the values of each function give, by its number. A function that leads back to itself gives none.
pub(crate) fn returned_by<'a, A: Allocator + Copy>(
    alloc: A,
    codes: &Codes<'a, A>,
) -> Result<Vec<Returned<'a>, A>, AllocError> {
    let mut all = Vec::new(alloc);
    let unknown = Returned {
        if_true: None,
        if_false: None,
    };
    all.resize(codes.all.len(), unknown)?;
    'functions: for number in codes.order.iter() {
        if let Some(code) = codes.all.get(*number) {
            let if_true = fact_of_return(codes, all.as_slice(), code, false);
            let if_false = fact_of_return(codes, all.as_slice(), code, true);
            if let Some(place) = all.get_mut(*number) {
                *place = Returned { if_true, if_false };
            }
        }
    }
    Ok(all)
}
