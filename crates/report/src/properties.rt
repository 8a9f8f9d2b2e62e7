//! The text of the findings about properties: functions of a program that must hold in its states.

ghost use Rattle.std.specs.Prelude.{◌≡◌, ◌++◌, OnOk, IfOk, codes, flat_map, map};
ghost use Rattle.report.specs.OutcomeList.{order_text, walk_words};
ghost use Rattle.report.specs.Properties.{finding_text, head_words, property_text, state_words, states_text};
ghost use Rattle.report.specs.Properties as spec;
ghost use Rattle.report.specs.PropertyViews.{finding_of, property_of};
ghost use Rattle.report.specs.Views.{reported_of};
ghost use Rattle.report.specs.declared.outcome_list.WalkEnd.TheVariants.{Whole};

use crate::outcome_list::{ReportedOrder, WalkEnd, push_orders, push_reported, push_walk_words};
use crate::push::{push_bytes, push_number};
use containers::Text;
use std::alloc::{AllocError, Allocator};

/// A finding about a property.
#[derive(Drop)]
pub enum Finding<A: Allocator = std::alloc::Global> {
    /// It holds in so many states, which are all.
    Holds(u64),
    /// It fails after this order.
    Fails(ReportedOrder<A>),
    /// It takes too long after this order.
    Spent(ReportedOrder<A>),
    /// It was evaluated in so many states, and there may be more.
    Open(u64),
}

/// A property, and the finding about it.
#[derive(Drop)]
pub struct Property<A: Allocator = std::alloc::Global> {
    /// The name of a function.
    pub name: Text<A>,
    /// Whether it is evaluated only once all threads have terminated.
    pub is_last: bool,
    pub finding: Finding<A>,
}

/// Adds the words before a property that holds.
fn push_head<A: Allocator>(list: &mut Vec<u8, A>, is_last: bool) -> Result<(), AllocError>
    ensures { OnOk result (list.new.items ≡ list.old.items ++ head_words is_last) }
{
    if is_last {
        push_bytes(list, b"== final ")
    } else {
        push_bytes(list, b"== always ")
    }
}

/// Adds the words before a number of states.
fn push_state_words<A: Allocator>(list: &mut Vec<u8, A>, is_last: bool) -> Result<(), AllocError>
    ensures { OnOk result (list.new.items ≡ list.old.items ++ state_words is_last) }
{
    if is_last {
        push_bytes(list, b": outcomes ")
    } else {
        push_bytes(list, b": states ")
    }
}

/// Adds a number of states.
fn push_states<A: Allocator>(
    list: &mut Vec<u8, A>,
    is_last: bool,
    states: u64,
) -> Result<(), AllocError>
    ensures { OnOk result (list.new.items ≡ list.old.items ++ states_text is_last states) }
{
    push_state_words(list, is_last)?;
    push_number(list, states)
}

/// Adds that a property holds in so many states of so many threads.
fn push_held<A: Allocator>(
    list: &mut Vec<u8, A>,
    name: &str,
    is_last: bool,
    states: u64,
    threads: u32,
) -> Result<(), AllocError>
    ensures { OnOk result (list.new.items
        ≡ list.old.items
        ++ (head_words is_last ++ name.now ++ states_text is_last states ++ walk_words threads Whole)) }
{
    push_head(list, is_last)?;
    push_bytes(list, name.as_bytes())?;
    push_states(list, is_last, states)?;
    push_walk_words(list, threads, WalkEnd::Whole)
}

/// Adds that a property was evaluated in so many states of so many threads, and the limit that stopped the walk.
fn push_open<A: Allocator>(
    list: &mut Vec<u8, A>,
    name: &str,
    is_last: bool,
    states: u64,
    threads: u32,
    end: WalkEnd,
) -> Result<(), AllocError>
    ensures { OnOk result (list.new.items
        ≡ list.old.items ++ (codes "== open " ++ name.now ++ states_text is_last states ++ walk_words threads end)) }
{
    push_bytes(list, b"== open ")?;
    push_bytes(list, name.as_bytes())?;
    push_states(list, is_last, states)?;
    push_walk_words(list, threads, end)
}

/// Adds an order after these words and a property's name, and its report.
fn push_order_of<A: Allocator + Copy>(
    alloc: A,
    list: &mut Vec<u8, A>,
    words: &[u8],
    name: &str,
    one: &ReportedOrder<A>,
) -> Result<(), AllocError>
    ensures { OnOk result (list.new.items
        ≡ list.old.items ++ (words.now ++ name.now ++ order_text (codes " --order ") (reported_of one.now))) }
{
    push_bytes(list, words)?;
    push_bytes(list, name.as_bytes())?;
    push_reported(alloc, list, b" --order ", one)
}

/// Adds the finding about a property.
fn push_finding<A: Allocator + Copy>(
    alloc: A,
    list: &mut Vec<u8, A>,
    name: &str,
    is_last: bool,
    threads: u32,
    end: WalkEnd,
    finding: &Finding<A>,
) -> Result<(), AllocError>
    ensures { OnOk result (list.new.items
        ≡ list.old.items ++ finding_text name.now is_last threads end (finding_of finding.now)) }
{
    match finding {
        Finding::Holds(states) => push_held(list, name, is_last, *states, threads),
        Finding::Fails(one) => push_order_of(alloc, list, b"== not ", name, one),
        Finding::Spent(one) => push_order_of(alloc, list, b"== spent ", name, one),
        Finding::Open(states) => push_open(list, name, is_last, *states, threads, end),
    }
}

/// Adds a property, and the finding about it.
fn push_property<A: Allocator + Copy>(
    alloc: A,
    list: &mut Vec<u8, A>,
    threads: u32,
    end: WalkEnd,
    one: &Property<A>,
) -> Result<(), AllocError>
    ensures { OnOk result (list.new.items ≡ list.old.items ++ property_text threads end (property_of one.now)) }
{
    push_finding(
        alloc,
        list,
        one.name.as_str(),
        one.is_last,
        threads,
        end,
        &one.finding,
    )
}

/// Adds properties, and the finding about each.
fn push_properties<A: Allocator + Copy>(
    alloc: A,
    list: &mut Vec<u8, A>,
    threads: u32,
    end: WalkEnd,
    properties: &[Property<A>],
) -> Result<(), AllocError>
    ensures { OnOk result (list.new.items
        ≡ list.old.items ++ flat_map (property_text threads end) (map property_of properties.now)) }
{
    'properties: for one in properties {
        push_property(alloc, list, threads, end, one)?;
    }
    Ok(())
}

/// The text of the findings about properties of so many threads, and of stuck orders.
pub fn properties_text<A: Allocator + Copy>(
    alloc: A,
    properties: &[Property<A>],
    stuck: &[ReportedOrder<A>],
    threads: u32,
    end: WalkEnd,
) -> Result<Vec<u8, A>, AllocError>
    ensures { IfOk result (λ r. r.items
        ≡ spec.properties_text (map property_of properties.now) (map reported_of stuck.now) threads end) }
{
    let mut list = Vec::new(alloc);
    push_properties(alloc, &mut list, threads, end, properties)?;
    push_orders(alloc, &mut list, b"== stuck --order ", stuck)?;
    Ok(list)
}
