//! The text of a list of outcomes, each with an order of threads that leads to it and the report of that order, and of
//! stuck orders.

ghost use Rattle.std.specs.Prelude.{◌≡◌, ◌++◌, OnOk, IfOk, codes, decimal, flat_map, map};
ghost use Rattle.report.specs.OutcomeList.{count_line, order_text, order_word, stop_words, walk_words};
ghost use Rattle.report.specs.OutcomeList as spec;
ghost use Rattle.report.specs.Views.{reported_of};

use crate::printed::Printed;
use crate::push::{push_bytes, push_number};
use crate::report::report_text;
use containers::Items;
use std::alloc::{AllocError, Allocator};

/// An order of a source's threads, with its report.
#[derive(Drop)]
pub struct ReportedOrder<A: Allocator = std::alloc::Global> {
    /// The threads' numbers.
    pub order: Items<u32, A>,
    /// The content of the report of that order.
    pub shown: Printed<A>,
}

/// How a walk over the states of threads ended.
#[derive(Clone, Copy, PartialEq, Eq)]
pub enum WalkEnd {
    /// All states were found.
    Whole,
    /// There are more of them than the limit.
    AtLimit,
    /// A thread makes more steps in one turn than it may.
    AtSteps,
    /// The states and the list take more memory than they may.
    AtMemory,
    /// The search or the list takes more time than it may.
    AtTime,
}

/// Adds thread numbers, with a comma before each.
fn push_others<A: Allocator>(list: &mut Vec<u8, A>, threads: &[u32]) -> Result<(), AllocError>
    ensures { OnOk result (list.new.items ≡ list.old.items ++ flat_map (λ u. codes "," ++ decimal u) threads.now) }
{
    'threads: for thread in threads {
        push_bytes(list, b",")?;
        push_number(list, u64::from(*thread))?;
    }
    Ok(())
}

/// Adds an order, as a word of a command line.
pub(crate) fn push_order<A: Allocator>(
    list: &mut Vec<u8, A>,
    order: &[u32],
) -> Result<(), AllocError>
    ensures { OnOk result (list.new.items ≡ list.old.items ++ order_word order.now) }
{
    let [first, others @ ..] = order else {
        return push_bytes(list, b"''");
    };
    push_number(list, u64::from(*first))?;
    push_others(list, others)
}

/// Adds orders, each after these words and with its report.
pub(crate) fn push_orders<A: Allocator + Copy>(
    alloc: A,
    list: &mut Vec<u8, A>,
    words: &[u8],
    orders: &[ReportedOrder<A>],
) -> Result<(), AllocError>
    ensures { OnOk result (list.new.items
        ≡ list.old.items ++ flat_map (order_text words.now) (map reported_of orders.now)) }
{
    'orders: for one in orders {
        push_reported(alloc, list, words, one)?;
    }
    Ok(())
}

/// Adds an order after these words, and its report.
pub(crate) fn push_reported<A: Allocator + Copy>(
    alloc: A,
    list: &mut Vec<u8, A>,
    words: &[u8],
    one: &ReportedOrder<A>,
) -> Result<(), AllocError>
    ensures { OnOk result (list.new.items ≡ list.old.items ++ order_text words.now (reported_of one.now)) }
{
    push_bytes(list, words)?;
    push_order(list, one.order.as_slice())?;
    push_bytes(list, b"\n")?;
    let report = report_text(alloc, &one.shown)?;
    push_bytes(list, report.as_slice())
}

/// Adds the end of a line: the limit that stopped the walk, if one did.
pub(crate) fn push_stop<A: Allocator>(list: &mut Vec<u8, A>, end: WalkEnd) -> Result<(), AllocError>
    ensures { OnOk result (list.new.items ≡ list.old.items ++ stop_words end) }
{
    match end {
        WalkEnd::Whole => push_bytes(list, b"\n"),
        WalkEnd::AtLimit => push_bytes(list, b", stopped at the limit\n"),
        WalkEnd::AtSteps => push_bytes(list, b", stopped at the steps\n"),
        WalkEnd::AtMemory => push_bytes(list, b", stopped at the memory\n"),
        WalkEnd::AtTime => push_bytes(list, b", stopped at the time\n"),
    }
}

/// Adds the end of a line about a walk: the number of threads, and the limit that stopped the walk, if one did.
pub(crate) fn push_walk_words<A: Allocator>(
    list: &mut Vec<u8, A>,
    threads: u32,
    end: WalkEnd,
) -> Result<(), AllocError>
    ensures { OnOk result (list.new.items ≡ list.old.items ++ walk_words threads end) }
{
    push_bytes(list, b", threads: ")?;
    push_number(list, u64::from(threads))?;
    push_stop(list, end)
}

/// Adds how many outcomes and stuck orders so many threads have, over how many states, and whether there may be more.
fn push_count<A: Allocator>(
    list: &mut Vec<u8, A>,
    outcomes: u64,
    stuck: u64,
    states: u64,
    threads: u32,
    end: WalkEnd,
) -> Result<(), AllocError>
    ensures { OnOk result (list.new.items ≡ list.old.items ++ count_line outcomes stuck states threads end) }
{
    push_bytes(list, b"== outcomes: ")?;
    push_number(list, outcomes)?;
    push_bytes(list, b", stuck: ")?;
    push_number(list, stuck)?;
    push_bytes(list, b", states: ")?;
    push_number(list, states)?;
    push_walk_words(list, threads, end)
}

/// The text of a list: each outcome with its order and the report of that, each stuck order likewise, and then a line
/// with their number, the number of states over which they were found, the number of threads, and the limit that
/// stopped the walk, if one did.
pub fn list_text<A: Allocator + Copy>(
    alloc: A,
    outcomes: &[ReportedOrder<A>],
    stuck: &[ReportedOrder<A>],
    states: u64,
    threads: u32,
    end: WalkEnd,
) -> Result<Vec<u8, A>, AllocError>
    ensures { IfOk result (λ r. r.items
        ≡ spec.list_text (map reported_of outcomes.now) (map reported_of stuck.now) states threads end) }
{
    let mut list = Vec::new(alloc);
    push_orders(alloc, &mut list, b"== outcome --order ", outcomes)?;
    push_orders(alloc, &mut list, b"== stuck --order ", stuck)?;
    push_count(
        &mut list,
        outcomes.len() as u64,
        stuck.len() as u64,
        states,
        threads,
        end,
    )?;
    Ok(list)
}
