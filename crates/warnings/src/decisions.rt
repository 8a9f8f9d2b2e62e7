//! Reads in one transaction by which another one writes what was read: what was so then need not be so any more.

use crate::action::{Action, Argument, Part, Variable};
use crate::codes::Code;
use crate::contexts::Guards;
use crate::decided::{Decided, MOST_KEPT, Place, Written, is_among};
use crate::facts::Given;
use crate::globals::is_own;
use crate::returned::GlobalFact;
use crate::waits::{awaited_by, end_of_loop, may_give};
use crate::warning::{Warning, WarningKind};
use crate::whole::Whole;
use lex::token::Span;
use std::alloc::{AllocError, Allocator};

/// The most passes over all functions, if one of them leads back to itself.
const MOST_PASSES: usize = 3;

/// The number of a transaction that a function runs in.
const AROUND: usize = 18_446_744_073_709_551_615;

/// A read of shared data: in the outermost transaction that begins with the action of a number.
#[derive(Clone, Copy)]
struct Read<'a> {
    place: Place<'a>,
    transaction: usize,
    span: Span,
}

/// What a value comes from.
#[derive(Clone, Copy)]
enum Source<'a> {
    Shared(Read<'a>),
    /// A parameter, by its number.
    Parameter(usize),
}

/// A source of a local's value. The local is known by the number of the action that declares it.
#[derive(Clone, Copy)]
struct Origin<'a> {
    local: usize,
    source: Source<'a>,
}

/// A wait that has ended, and the fact about a global that ended it.
#[derive(Clone, Copy)]
struct Waited<'a> {
    fact: GlobalFact<'a>,
    span: Span,
}

/// A transaction, or a condition, that is open: the number of the action with which it begins, or that of the
/// transaction in which it stands, and how many parts were open round it.
#[derive(Clone, Copy)]
struct Opened {
    number: Option<usize>,
    depth: usize,
}

/// The facts at a point of a body.
#[derive(Drop)]
struct State<'a, A: Allocator> {
    origins: Vec<Origin<'a>, A>,
    /// The sources of the conditions that decide whether this point is reached.
    deciding: Vec<Source<'a>, A>,
    /// The waits before this point.
    waited: Vec<Waited<'a>, A>,
    /// How many of both there were where each open part began.
    levels: Vec<(usize, usize), A>,
    /// The numbers of the actions with which the open loops begin.
    loops: Vec<usize, A>,
    /// What the full expression under way comes from.
    assigned: Vec<Source<'a>, A>,
    /// How many of these there were where each open argument began.
    arguments: Vec<usize, A>,
    /// The outermost transaction.
    transaction: Option<Opened>,
    /// The outermost condition.
    condition: Option<Opened>,
    /// The globals that conditions of the open transaction have read.
    checked: Vec<&'a str, A>,
    /// The globals that the open transaction has written.
    written: Vec<&'a str, A>,
    guards: Guards<A>,
    /// Warnings so far.
    found: Vec<Warning, A>,
    /// The summary for callers.
    decided: Decided<'a, A>,
}

/// Adds one more, where there is room for it.
fn keep<T: Drop, A: Allocator>(kept: &mut Vec<T, A>, one: T) -> Result<(), AllocError> {
    if kept.len() < MOST_KEPT {
        kept.push(one)?;
    }
    Ok(())
}

/// The number of what is open.
fn number_of(opened: Option<Opened>) -> Option<usize> {
    match opened {
        Some(opened) => opened.number,
        None => None,
    }
}

/// Whether what is open began where so many parts were open.
fn is_at(opened: Option<Opened>, depth: usize) -> bool {
    matches!(opened, Some(it) if it.depth == depth)
}

/// Adds the facts where a part begins with the action of a number.
fn add_begin<A: Allocator>(
    state: &mut State<'_, A>,
    part: Part,
    number: usize,
) -> Result<(), AllocError> {
    let depth = state.levels.len();
    match part {
        Part::Transaction(_) | Part::ValueTransaction if state.transaction.is_none() => {
            state.transaction = Some(Opened {
                number: Some(number),
                depth,
            });
            state.checked.clear();
            state.written.clear();
        }
        Part::Condition | Part::LoopCondition(_) if state.condition.is_none() => {
            let number = number_of(state.transaction);
            state.condition = Some(Opened { number, depth });
        }
        Part::Value => state.assigned.clear(),
        Part::Argument => state.arguments.push(state.assigned.len())?,
        Part::Loop => state.loops.push(number)?,
        _ => {}
    }
    state
        .levels
        .push((state.deciding.len(), state.waited.len()))?;
    Ok(())
}

/// Forgets what came of reads of a transaction that has written what it read: it has decided itself.
fn forget_own<A: Allocator>(
    origins: &mut Vec<Origin<'_>, A>,
    written: &[&str],
    transaction: Option<usize>,
) {
    origins.retain(|it| match it.source {
        Source::Shared(read) => {
            Some(read.transaction) != transaction || !is_among(written, read.place.global)
        }
        Source::Parameter(_) => true,
    });
}

/// Adds the facts after a part. What a condition reads decides until the end of its `if` or its loop.
fn add_end<A: Allocator>(state: &mut State<'_, A>, part: Part) {
    let (deciding, waited) = state.levels.pop().unwrap_or((0, 0));
    let depth = state.levels.len();
    if is_at(state.condition, depth) {
        state.condition = None;
    }
    if state.condition.is_none() && matches!(part, Part::Choice | Part::Loop) {
        state.deciding.truncate(deciding);
        state.waited.truncate(waited);
    }
    if matches!(part, Part::Argument) {
        state.arguments.pop();
    }
    if is_at(state.transaction, depth) {
        let number = number_of(state.transaction);
        forget_own(&mut state.origins, state.written.as_slice(), number);
        state.transaction = None;
    }
}

/// Adds the fact that ends a loop, if the loop only reads.
fn add_loop<'a, A: Allocator + Copy>(
    alloc: A,
    whole: &Whole<'a, A>,
    state: &mut State<'a, A>,
    actions: &[Action<'a>],
) -> Result<(), AllocError> {
    let Some(begin) = state.loops.pop() else {
        return Ok(());
    };
    if state.transaction.is_some() {
        return Ok(());
    }
    let end = end_of_loop(actions, begin);
    let inner = actions.get(begin.saturating_add(1)..end).unwrap_or(&[]);
    if let Some(awaited) = awaited_by(whole, inner) {
        let fact = awaited.fact;
        let undone = GlobalFact {
            global: fact.global,
            is_zero: !fact.is_zero,
        };
        if !may_give(alloc, whole, inner, fact)? && !may_give(alloc, whole, inner, undone)? {
            let span = awaited.span;
            keep(&mut state.waited, Waited { fact, span })?;
        }
    }
    Ok(())
}

/// Adds a source of a value.
fn add_source<'a, A: Allocator + Copy>(
    state: &mut State<'a, A>,
    source: Source<'a>,
) -> Result<(), AllocError> {
    if let Some(condition) = state.condition {
        match source {
            Source::Shared(read) if condition.number == Some(read.transaction) => {
                keep(&mut state.checked, read.place.global)?;
                state.decided.add_check(read.place.global)?;
            }
            source => keep(&mut state.deciding, source)?,
        }
    }
    keep(&mut state.assigned, source)
}

/// Adds the facts after a read of a variable.
fn add_read<'a, A: Allocator + Copy>(
    state: &mut State<'a, A>,
    variable: Variable<'a>,
) -> Result<(), AllocError> {
    match (variable.local, number_of(state.transaction)) {
        (None, Some(transaction)) => add_source(
            state,
            Source::Shared(Read {
                place: place_of(variable),
                transaction,
                span: variable.span,
            }),
        ),
        (Some(local), _) => {
            'origins: for at in 0..state.origins.len() {
                if let Some(origin) = state.origins.get(at).copied() {
                    if origin.local == local {
                        add_source(state, origin.source)?;
                    }
                }
            }
            Ok(())
        }
        (None, None) => Ok(()),
    }
}

/// The place that a variable is.
fn place_of<'a>(variable: Variable<'a>) -> Place<'a> {
    Place {
        global: variable.name,
        cell: variable.cell,
    }
}

/// Sets what a local has its value of.
fn set_origins<'a, A: Allocator>(
    origins: &mut Vec<Origin<'a>, A>,
    local: usize,
    sources: &[Source<'a>],
) -> Result<(), AllocError> {
    origins.retain(|it| it.local != local);
    'sources: for source in sources {
        let source = *source;
        keep(origins, Origin { local, source })?;
    }
    Ok(())
}

/// Whether a read is reported already.
fn is_told(found: &[Warning], span: Span) -> bool {
    'found: for warning in found {
        if warning.span == span {
            return true;
        }
    }
    false
}

/// Reports a read that a write relies on, unless it is reported.
fn tell<A: Allocator>(
    found: &mut Vec<Warning, A>,
    span: Span,
    written: Span,
) -> Result<(), AllocError> {
    if !is_told(found.as_slice(), span) {
        found.push(Warning {
            kind: WarningKind::StaleRead,
            span,
            other: Some(written),
        })?;
    }
    Ok(())
}

/// Adds those of some sources that are reads of another transaction of what is written, and what callers see of the
/// others.
fn add_stale<'a, A: Allocator + Copy>(
    found: &mut Vec<Warning, A>,
    decided: &mut Decided<'a, A>,
    sources: &[Source<'a>],
    written: Written<'a>,
    transaction: usize,
) -> Result<(), AllocError> {
    'sources: for source in sources {
        match source {
            Source::Shared(read) => {
                if read.transaction != transaction && read.place.is_same(written.place) {
                    tell(found, read.span, written.span)?;
                }
            }
            Source::Parameter(number) => decided.add_write(Written {
                by: Some(*number),
                ..written
            })?,
        }
    }
    Ok(())
}

/// Whether a write ends what a wait has waited for.
fn ends(written: Written<'_>, fact: GlobalFact<'_>) -> bool {
    let is_ended = if fact.is_zero {
        written.ends_zero
    } else {
        written.ends_nonzero
    };
    is_ended && written.place.is_whole_of(fact.global)
}

/// Adds the waits whose end a write relies on, while another thread may have waited for the same.
fn add_waited<A: Allocator + Copy>(
    state: &mut State<'_, A>,
    written: Written<'_>,
) -> Result<(), AllocError> {
    if state.guards.is_selected() {
        return Ok(());
    }
    'waits: for waited in state.waited.iter() {
        if ends(written, waited.fact) {
            tell(&mut state.found, waited.span, written.span)?;
        }
    }
    Ok(())
}

/// Adds the facts after a write of shared data, by the function itself or by one that it calls.
fn add_written<'a, A: Allocator + Copy>(
    state: &mut State<'a, A>,
    written: Written<'a>,
    transaction: usize,
) -> Result<(), AllocError> {
    if !written.is_checked {
        add_stale(
            &mut state.found,
            &mut state.decided,
            state.deciding.as_slice(),
            written,
            transaction,
        )?;
        add_waited(state, written)?;
    }
    state.decided.add_write(written)?;
    let global = written.place.global;
    state.waited.retain(|it| it.fact.global != global);
    if state.transaction.is_some() {
        keep(&mut state.written, global)?;
    }
    Ok(())
}

/// Whether some source is a read of a global by a transaction.
fn relies_on(sources: &[Source<'_>], global: &str, transaction: usize) -> bool {
    'sources: for source in sources {
        if let Source::Shared(read) = source {
            if read.place.global == global && read.transaction == transaction {
                return true;
            }
        }
    }
    false
}

/// Adds the facts after a write of a variable, and what is warned of it.
fn add_write<'a, A: Allocator + Copy>(
    state: &mut State<'a, A>,
    variable: Variable<'a>,
    given: Given<'a>,
    is_alone: bool,
) -> Result<(), AllocError> {
    match (variable.local, number_of(state.transaction)) {
        (Some(local), _) => set_origins(&mut state.origins, local, state.assigned.as_slice()),
        (None, Some(transaction)) => {
            let relies = relies_on(state.assigned.as_slice(), variable.name, transaction);
            let written = Written {
                place: place_of(variable),
                span: variable.span,
                is_checked: is_alone || is_among(state.checked.as_slice(), variable.name),
                ends_zero: relies || matches!(given, Given::Nonzero),
                ends_nonzero: relies || matches!(given, Given::Zero),
                by: None,
            };
            if !written.is_checked {
                add_stale(
                    &mut state.found,
                    &mut state.decided,
                    state.assigned.as_slice(),
                    written,
                    transaction,
                )?;
            }
            add_written(state, written, transaction)
        }
        (None, None) => Ok(()),
    }
}

/// Whether no other thread writes a variable: an element that each thread has for itself.
fn is_alone<A: Allocator + Copy>(
    whole: &Whole<'_, A>,
    own: &[bool],
    variable: Variable<'_>,
) -> bool {
    match whole.held_of(variable.name) {
        Some(held) => !held.is_shared && is_own(own, variable),
        None => false,
    }
}

/// The summary of the function of a name.
fn called_by<'s, 'a, A: Allocator + Copy>(
    whole: &Whole<'a, A>,
    all: &'s [Decided<'a, A>],
    name: &str,
) -> Option<&'s Decided<'a, A>> {
    match whole.codes.number_of(name) {
        Some(number) => all.get(number),
        None => None,
    }
}

/// Adds the writes of a function that an argument decides.
fn add_argument<'a, A: Allocator + Copy>(
    state: &mut State<'a, A>,
    called: &Decided<'a, A>,
    argument: Argument<'a>,
    number: usize,
) -> Result<(), AllocError> {
    let begin = state.arguments.last().copied().unwrap_or(0);
    let sources = state.assigned.as_slice().get(begin..).unwrap_or(&[]);
    let transaction = number_of(state.transaction).unwrap_or(number);
    'writes: for written in called.writes.iter() {
        if written.by == Some(argument.number)
            && !is_among(state.checked.as_slice(), written.place.global)
        {
            add_stale(
                &mut state.found,
                &mut state.decided,
                sources,
                *written,
                transaction,
            )?;
        }
    }
    Ok(())
}

/// Adds the facts after a call.
fn add_call<'a, A: Allocator + Copy>(
    state: &mut State<'a, A>,
    called: &Decided<'a, A>,
    number: usize,
    span: Span,
) -> Result<(), AllocError> {
    let is_inside = state.transaction.is_some();
    let transaction = number_of(state.transaction).unwrap_or(number);
    'writes: for written in called.writes.iter() {
        if written.by.is_none() {
            let is_seen = is_inside && is_among(state.checked.as_slice(), written.place.global);
            let written = Written {
                is_checked: written.is_checked || is_seen,
                ..*written
            };
            add_written(state, written, transaction)?;
        }
    }
    'checks: for global in called.checks.iter() {
        if is_inside {
            keep(&mut state.checked, *global)?;
            state.decided.add_check(*global)?;
        }
    }
    'returns: for place in called.returns.iter() {
        let place = *place;
        add_source(
            state,
            Source::Shared(Read {
                place,
                transaction,
                span,
            }),
        )?;
    }
    Ok(())
}

/// Adds that a returned value comes from these sources, in a transaction that has written these globals.
fn add_returned<'a, A: Allocator + Copy>(
    decided: &mut Decided<'a, A>,
    sources: &[Source<'a>],
    written: &[&str],
    transaction: Option<usize>,
) -> Result<(), AllocError> {
    'sources: for source in sources {
        if let Source::Shared(read) = source {
            let is_own = Some(read.transaction) == transaction;
            if !is_own || !is_among(written, read.place.global) {
                decided.add_returned(read.place)?;
            }
        }
    }
    Ok(())
}

/// Adds what is known of a returned value: what it comes from, and what decides that it is returned.
fn add_return<'a, A: Allocator + Copy>(state: &mut State<'a, A>) -> Result<(), AllocError> {
    let transaction = number_of(state.transaction);
    add_returned(
        &mut state.decided,
        state.assigned.as_slice(),
        state.written.as_slice(),
        transaction,
    )?;
    add_returned(
        &mut state.decided,
        state.deciding.as_slice(),
        state.written.as_slice(),
        transaction,
    )
}

/// The facts at the start of a body.
fn first_state<'a, A: Allocator + Copy>(
    alloc: A,
    code: &Code<'a, A>,
    is_outside: bool,
) -> Result<State<'a, A>, AllocError> {
    let around = Opened {
        number: Some(AROUND),
        depth: AROUND,
    };
    let mut origins = Vec::new(alloc);
    'parameters: for number in 0..code.parameters {
        let source = Source::Parameter(number);
        keep(
            &mut origins,
            Origin {
                local: number,
                source,
            },
        )?;
    }
    Ok(State {
        origins,
        deciding: Vec::new(alloc),
        waited: Vec::new(alloc),
        levels: Vec::new(alloc),
        loops: Vec::new(alloc),
        assigned: Vec::new(alloc),
        arguments: Vec::new(alloc),
        transaction: if is_outside { None } else { Some(around) },
        condition: None,
        checked: Vec::new(alloc),
        written: Vec::new(alloc),
        guards: Guards::new(alloc),
        found: Vec::new(alloc),
        decided: Decided::new(alloc),
    })
}

/// Adds the facts after the action of a number.
fn add_action<'a, A: Allocator + Copy>(
    whole: &Whole<'a, A>,
    all: &[Decided<'a, A>],
    state: &mut State<'a, A>,
    own: &[bool],
    (number, action): (usize, Action<'a>),
) -> Result<(), AllocError> {
    match action {
        Action::Begins(part) => add_begin(state, part, number),
        Action::Ends(part) => {
            add_end(state, part);
            Ok(())
        }
        Action::Reads(variable) => add_read(state, variable),
        Action::Writes(variable, given) => {
            let is_alone = is_alone(whole, own, variable);
            add_write(state, variable, given, is_alone)
        }
        Action::Passes(argument) => match called_by(whole, all, argument.called) {
            Some(called) => add_argument(state, called, argument, number),
            None => Ok(()),
        },
        Action::Calls(name, span) => match called_by(whole, all, name) {
            Some(called) => add_call(state, called, number, span),
            None => Ok(()),
        },
        Action::Returns(_) => add_return(state),
        _ => Ok(()),
    }
}

/// The facts at the end of the function of a number.
fn read_function<'a, A: Allocator + Copy>(
    alloc: A,
    whole: &Whole<'a, A>,
    all: &[Decided<'a, A>],
    number: usize,
    code: &Code<'a, A>,
) -> Result<State<'a, A>, AllocError> {
    let own = whole.own_of(number);
    let is_selected = match whole.contexts.get(number) {
        Some(context) => context.is_selected,
        None => true,
    };
    let mut state = first_state(alloc, code, whole.outside.contains(code.name))?;
    'actions: for (at, action) in code.actions.iter().enumerate() {
        state.guards.take(own, *action)?;
        add_action(whole, all, &mut state, own, (at, *action))?;
        if matches!(action, Action::Ends(Part::Loop)) && !is_selected {
            add_loop(alloc, whole, &mut state, code.actions.as_slice())?;
        }
    }
    Ok(state)
}

/// Adds the reads of all functions by which another transaction writes what was read. The summary of a function is
/// found before its callers are read. If functions lead back to themselves, all are read again.
pub(crate) fn add_decisions<'a, A: Allocator + Copy>(
    alloc: A,
    whole: &Whole<'a, A>,
    found: &mut Vec<Warning, A>,
) -> Result<(), AllocError> {
    let mut all = Vec::new(alloc);
    'functions: for _ in 0..whole.codes.all.len() {
        let Ok(()) = all.push(Decided::new(alloc)) else {
            return Err(AllocError);
        };
    }
    let passes = if whole.codes.is_cyclic {
        MOST_PASSES
    } else {
        1
    };
    'passes: for pass in 0..passes {
        'order: for number in whole.codes.order.iter() {
            if let Some(code) = whole.codes.all.get(*number) {
                let State {
                    found: told,
                    decided,
                    ..
                } = read_function(alloc, whole, all.as_slice(), *number, code)?;
                if pass.saturating_add(1) == passes {
                    found.extend_from_slice(told.as_slice())?;
                }
                if let Some(seen) = all.get_mut(*number) {
                    *seen = decided;
                }
            }
        }
    }
    Ok(())
}
