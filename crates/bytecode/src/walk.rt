//! Paths through a function.

ghost use Rattle.std.specs.Prelude.{◌≡◌, ◌+◌, ◌≤◌, ◌<◌, ◌^◌, IfOk, IfSome, IsTrue, ◌↔◌, length, slice_get, Some, None};
ghost use Rattle.std.specs.Prelude.{map, option_map, replicate, ◌-◌, ℕ, List, []};
ghost use Rattle.bytecode.specs.Valid.{KeepsOpen};
ghost use Rattle.bytecode.specs.Views.{code_of, function_of, instr_of};
ghost use Rattle.bytecode.specs.Code.{Code as Plain, FunctionCode as FunctionPlain, Instr as PlainInstr};
ghost use Rattle.bytecode.specs.declared.walk.Arrival.TheVariants.{Unseen};
ghost use Rattle.bytecode.specs.inner.Walking.{way_of, visit_place, walk_answer, arrival_at, reopen_begin, begun_by};
ghost use Rattle.bytecode.specs.inner.Walking.{begin_target};
ghost use Rattle.bytecode.specs.inner.Walking.{cancel_to, begin_round, cancelled_at, went_by};

use crate::code::{FunctionCode, Parts};
use crate::instr::Instr;
use std::alloc::{AllocError, Allocator};

/// The analysis result for a place: whether a path reaches it, and the innermost begin that is open there.
#[derive(Clone, Copy)]
pub(crate) enum Arrival {
    /// No path so far.
    Unseen,

    /// A path on which no begin is open.
    Outside,

    /// A path on which the begin at this place is the innermost open one.
    Inside(usize),
}

/// Where an instruction leads.
#[derive(Clone, Copy)]
pub(crate) enum Successor {
    On,
    To(u32),
    Both(u32),
    Opens,
    Closes,
    Cancels,
    CancelsOuter(u32),
    Ends,
}

/// Where an instruction leads.
fn way_on(instr: &Instr) -> Successor
    ensures { (arguments : List ℕ) → result ≡ way_of (instr_of arguments instr.now) }
{
    match instr {
        Instr::Jump(to) => Successor::To(*to),
        Instr::JumpZero(_, to) => Successor::Both(*to),
        Instr::JumpNonzero(_, to) => Successor::Both(*to),
        Instr::Begin(_) => Successor::Opens,
        Instr::Commit => Successor::Closes,
        Instr::Cancel => Successor::Cancels,
        Instr::CancelOuter(levels) => Successor::CancelsOuter(*levels),
        Instr::Return => Successor::Ends,
        Instr::ReturnValue(_) => Successor::Ends,
        _ => Successor::On,
    }
}

/// A path reaches a place: whether it may.
fn visit<A: Allocator>(
    arrivals: &mut [Arrival],
    work: &mut Vec<usize, A>,
    first: usize,
    to: usize,
    arrival: Arrival,
) -> Result<bool, AllocError>
    ensures visited { IfOk result (λ b. visit_place first arrivals.old work.old.items to arrival
        ≡ walk_answer b arrivals.new work.new.items) }
    ensures len { length arrivals.new ≡ length arrivals.old }
{
    if to < first {
        return Ok(false);
    }
    match arrivals.get(to - first) {
        None => Ok(false),
        Some(Arrival::Unseen) => {
            arrivals[to - first] = arrival;
            work.push(to)?;
            Ok(true)
        }
        Some(Arrival::Outside) => match arrival {
            Arrival::Outside => Ok(true),
            _ => Ok(false),
        },
        Some(Arrival::Inside(b)) => match arrival {
            Arrival::Inside(c) => Ok(*b == c),
            _ => Ok(false),
        },
    }
}

/// The arrival at a place.
fn arrival_of(arrivals: &[Arrival], first: usize, at: usize) -> Option<Arrival>
    ensures { result ≡ arrival_at first arrivals.now at }
{
    if at < first {
        return None;
    }
    arrivals.get(at - first).copied()
}

/// A path reaches a place, back inside the begin that encloses the one at `under`.
fn reopen<A: Allocator>(
    arrivals: &mut [Arrival],
    work: &mut Vec<usize, A>,
    first: usize,
    to: usize,
    under: usize,
) -> Result<bool, AllocError>
    ensures reopened { IfOk result
        (λ b. reopen_begin first arrivals.old work.old.items to (arrival_at first arrivals.old under)
        ≡ walk_answer b arrivals.new work.new.items) }
    ensures len { length arrivals.new ≡ length arrivals.old }
{
    match arrival_of(arrivals, first, under) {
        None | Some(Arrival::Unseen) => Ok(false),
        Some(arrival) => visit(arrivals, work, first, to, arrival),
    }
}

/// Where a cancel of the begin at a place continues, if a begin is there.
fn cancel_in(instr: &Instr) -> Option<u32>
    ensures { (arguments : List ℕ) → result ≡ begun_by (instr_of arguments instr.now) }
{
    match instr {
        Instr::Begin(to) => Some(*to),
        _ => None,
    }
}

fn cancel_at(instrs: &[Instr], at: usize) -> Option<u32>
    ensures { (arguments : List ℕ) → result ≡ begin_target (slice_get (map (instr_of arguments) instrs.now) at) }
{
    match instrs.get(at) {
        Some(instr) => cancel_in(instr),
        None => None,
    }
}

/// Continues where a cancel of the begin at a place does: whether a path may reach that.
fn cancel<A: Allocator>(
    instrs: &[Instr],
    arrivals: &mut [Arrival],
    work: &mut Vec<usize, A>,
    first: usize,
    begin: usize,
) -> Result<bool, AllocError>
    ensures cancelled { (arguments : List ℕ)
        → IfOk result (λ b. cancel_to first arrivals.old work.old.items (arrival_at first arrivals.old begin)
        (begin_target (slice_get (map (instr_of arguments) instrs.now) begin))
        ≡ walk_answer b arrivals.new work.new.items) }
    ensures len { length arrivals.new ≡ length arrivals.old }
{
    match cancel_at(instrs, begin) {
        Some(to) => reopen(arrivals, work, first, to as usize, begin),
        None => Ok(false),
    }
}

/// The begin that encloses the one at a place, and the one that encloses that, and so on this many times.
fn begin_round(arrivals: &[Arrival], first: usize, times: u32, begin: usize) -> Option<usize>
    ensures { result ≡ begin_round first arrivals.now times begin }
{
    let mut round = begin;
    'outward: for made in 0..times {
        match arrival_of(arrivals, first, round) {
            Some(Arrival::Inside(next)) => {
                round = next;
            }
            None | Some(Arrival::Unseen) | Some(Arrival::Outside) => return None,
        }
    }
    Some(round)
}

/// Continues where a cancel of several levels does, the innermost of which is the begin at a place: whether there are
/// that many, and a path may reach that. Visits an arrival for each level.
fn cancel_outer<A: Allocator>(
    instrs: &[Instr],
    arrivals: &mut [Arrival],
    work: &mut Vec<usize, A>,
    first: usize,
    begin: usize,
    levels: u32,
) -> Result<bool, AllocError>
    ensures cancelled { (arguments : List ℕ)
        → IfOk result (λ b. cancelled_at (map (instr_of arguments) instrs.now) first arrivals.old work.old.items
        (begin_round first arrivals.old (levels - 1) begin) ≡ walk_answer b arrivals.new work.new.items) }
    ensures len { length arrivals.new ≡ length arrivals.old }
{
    match begin_round(arrivals, first, levels.saturating_sub(1), begin) {
        Some(outer) => cancel(instrs, arrivals, work, first, outer),
        None => Ok(false),
    }
}

/// Continues from a place by its instruction's successors: whether each path may reach its next place.
fn go_by<A: Allocator>(
    instrs: &[Instr],
    arrivals: &mut [Arrival],
    work: &mut Vec<usize, A>,
    first: usize,
    at: usize,
    arrival: Arrival,
    way: Successor,
) -> Result<bool, AllocError>
    requires { at < length instrs.now }
    ensures went { (arguments : List ℕ)
        → IfOk result
        (λ b. went_by (map (instr_of arguments) instrs.now) first arrivals.old work.old.items at arrival way
        ≡ walk_answer b arrivals.new work.new.items) }
    ensures len { length arrivals.new ≡ length arrivals.old }
{
    match way {
        Successor::On => visit(arrivals, work, first, at + 1, arrival),
        Successor::To(to) => visit(arrivals, work, first, to as usize, arrival),
        Successor::Both(to) => {
            if !visit(arrivals, work, first, at + 1, arrival)? {
                return Ok(false);
            }
            visit(arrivals, work, first, to as usize, arrival)
        }
        Successor::Opens => visit(arrivals, work, first, at + 1, Arrival::Inside(at)),
        Successor::Closes => match arrival {
            Arrival::Inside(b) => reopen(arrivals, work, first, at + 1, b),
            _ => Ok(false),
        },
        Successor::Cancels => match arrival {
            Arrival::Inside(b) => cancel(instrs, arrivals, work, first, b),
            _ => Ok(false),
        },
        Successor::CancelsOuter(levels) => match arrival {
            Arrival::Inside(b) => cancel_outer(instrs, arrivals, work, first, b, levels),
            // A cancel of no levels requires no begin.
            _ => Ok(levels == 0),
        },
        Successor::Ends => match arrival {
            Arrival::Outside => Ok(true),
            _ => Ok(false),
        },
    }
}

/// Continues from a place by its instruction: whether each path may reach its next place.
fn go_on<A: Allocator>(
    instrs: &[Instr],
    arrivals: &mut [Arrival],
    work: &mut Vec<usize, A>,
    first: usize,
    at: usize,
    arrival: Arrival,
) -> Result<bool, AllocError>
    requires { at < length instrs.now }
    ensures went { (arguments : List ℕ) → (i : PlainInstr) → slice_get (map (instr_of arguments) instrs.now) at ≡ Some i
        → IfOk result (λ b. went_by (map (instr_of arguments) instrs.now) first arrivals.old work.old.items at arrival
        (way_of i) ≡ walk_answer b arrivals.new work.new.items) }
    ensures len { length arrivals.new ≡ length arrivals.old }
{
    let way = way_on(&instrs[at]);
    go_by(instrs, arrivals, work, first, at, arrival, way)
}

/// The walk over a function's paths, given arrivals that are all unseen and an empty work list.
fn walk_over<A: Allocator>(
    instrs: &[Instr],
    first: usize,
    behind: usize,
    arrivals: &mut [Arrival],
    work: &mut Vec<usize, A>,
) -> Result<bool, AllocError>
    requires starts { first < behind }
    requires ends { behind ≤ length instrs.now }
    requires arrivals { arrivals.old ≡ replicate (behind - first) Unseen }
    requires work { work.old.items ≡ [] }
    ensures { IfOk result (λ b. (code : Plain) → (arguments : List ℕ) → (f : FunctionPlain)
        → code.instructions ≡ map (instr_of arguments) instrs.now → f.first ≡ first
        → IsTrue b ↔ KeepsOpen code f behind) }
{
    if !visit(arrivals, work, first, first, Arrival::Outside)? {
        return Ok(false);
    }
    'places: for made in 0..behind - first {
        match work.pop() {
            None => return Ok(true),
            Some(at) => match arrival_of(arrivals, first, at) {
                None => return Ok(false),
                Some(arrival) => {
                    if !go_on(instrs, arrivals, work, first, at, arrival)? {
                        return Ok(false);
                    }
                }
            },
        }
    }
    Ok(true)
}

/// Whether the paths through a function stay in it, reach each place with one list of open begins, and have the begins
/// that its instructions require. Takes time linear in the function's length, and for each reachable cancel of several
/// levels also in the minimum of these and the begins that are open there.
pub(crate) fn walk<A: Allocator + Copy>(
    alloc: A,
    parts: &Parts<A>,
    f: &FunctionCode<A>,
    behind: usize,
) -> Result<bool, AllocError>
    requires starts { f.now.first < behind }
    requires ends { behind ≤ length parts.now.instructions }
    ensures { IfOk result (λ b. IsTrue b ↔ KeepsOpen (code_of parts.now) (function_of f.now) behind) }
{
    let first = f.first as usize;
    let mut arrivals = vec![in alloc; Arrival::Unseen; behind - first]?;
    let mut work = Vec::new(alloc);
    walk_over(
        parts.instructions.as_slice(),
        first,
        behind,
        &mut arrivals,
        &mut work,
    )
}
