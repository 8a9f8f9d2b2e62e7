//! The text of the findings about properties for every number of threads.

ghost use Rattle.std.specs.Prelude.{◌≡◌, ◌++◌, OnOk, IfOk, codes, decimal, flat_map, map};
ghost use Rattle.report.specs.Coverings.{covered_text, covered_words, counted_text};
ghost use Rattle.report.specs.Coverings as spec;
ghost use Rattle.report.specs.CoveringViews.{covered_of, covering_of};
ghost use Rattle.report.specs.OutcomeList.{order_text, stop_words};
ghost use Rattle.report.specs.Views.{reported_of};

use crate::outcome_list::{ReportedOrder, WalkEnd, push_reported, push_stop};
use crate::push::{push_bytes, push_number};
use containers::Text;
use std::alloc::{AllocError, Allocator};

/// A finding about a property for every number of threads.
#[derive(Drop)]
pub enum CoveredFinding<A: Allocator = std::alloc::Global> {
    /// It holds for 1 to 64 threads, as so many nodes show.
    Holds(u64),
    /// It fails with so many threads after this order.
    Fails(u32, ReportedOrder<A>),
    /// It takes too long with so many threads after this order.
    Spent(u32, ReportedOrder<A>),
    /// It holds for up to so many threads, and may fail with more.
    MayFail(u32),
    /// It holds in so many nodes, and there may be more.
    Open(u64, WalkEnd),
}

/// A property, and the finding about it.
#[derive(Drop)]
pub struct CoveredProperty<A: Allocator = std::alloc::Global> {
    /// The name of a function.
    pub name: Text<A>,
    pub finding: CoveredFinding<A>,
}

/// Adds a property's name after these words, and then other words and a number.
fn push_counted<A: Allocator>(
    list: &mut Vec<u8, A>,
    head: &[u8],
    name: &str,
    words: &[u8],
    number: u64,
) -> Result<(), AllocError>
    ensures { OnOk result (list.new.items
        ≡ list.old.items ++ counted_text head.now name.now words.now number) }
{
    push_bytes(list, head)?;
    push_bytes(list, name.as_bytes())?;
    push_bytes(list, words)?;
    push_number(list, number)
}

/// Adds a line with a number.
fn push_line<A: Allocator>(
    list: &mut Vec<u8, A>,
    head: &[u8],
    name: &str,
    words: &[u8],
    number: u64,
    tail: &[u8],
) -> Result<(), AllocError>
    ensures { OnOk result (list.new.items
        ≡ list.old.items ++ (counted_text head.now name.now words.now number ++ tail.now)) }
{
    push_counted(list, head, name, words, number)?;
    push_bytes(list, tail)
}

/// Adds an order of so many threads, and its report.
fn push_order_with<A: Allocator + Copy>(
    alloc: A,
    list: &mut Vec<u8, A>,
    head: &[u8],
    name: &str,
    threads: u32,
    one: &ReportedOrder<A>,
) -> Result<(), AllocError>
    ensures { OnOk result (list.new.items ≡ list.old.items
        ++ (counted_text head.now name.now (codes " --threads ") threads
        ++ order_text (codes " --order ") (reported_of one.now))) }
{
    push_counted(list, head, name, b" --threads ", u64::from(threads))?;
    push_reported(alloc, list, b" --order ", one)
}

/// Adds that a property holds in so many nodes, and the limit that stopped the search.
fn push_open<A: Allocator>(
    list: &mut Vec<u8, A>,
    name: &str,
    nodes: u64,
    end: WalkEnd,
) -> Result<(), AllocError>
    ensures { OnOk result (list.new.items ≡ list.old.items
        ++ (counted_text (codes "== open ") name.now (codes ": nodes ") nodes ++ stop_words end)) }
{
    push_counted(list, b"== open ", name, b": nodes ", nodes)?;
    push_stop(list, end)
}

/// Adds the finding about a property.
fn push_finding<A: Allocator + Copy>(
    alloc: A,
    list: &mut Vec<u8, A>,
    name: &str,
    finding: &CoveredFinding<A>,
) -> Result<(), AllocError>
    ensures { OnOk result (list.new.items
        ≡ list.old.items ++ covered_words name.now (covered_of finding.now)) }
{
    match finding {
        CoveredFinding::Holds(nodes) => {
            let words = b": 1 to 64 threads, nodes ";
            push_line(list, b"== always ", name, words, *nodes, b"\n")
        }
        CoveredFinding::Fails(threads, one) => {
            push_order_with(alloc, list, b"== not ", name, *threads, one)
        }
        CoveredFinding::Spent(threads, one) => {
            push_order_with(alloc, list, b"== spent ", name, *threads, one)
        }
        CoveredFinding::MayFail(threads) => {
            let words = b": holds with 1 to ";
            let most = u64::from(*threads);
            push_line(
                list,
                b"== open ",
                name,
                words,
                most,
                b" threads, may fail with more\n",
            )
        }
        CoveredFinding::Open(nodes, end) => push_open(list, name, *nodes, *end),
    }
}

/// Adds a property, and the finding about it.
fn push_property<A: Allocator + Copy>(
    alloc: A,
    list: &mut Vec<u8, A>,
    one: &CoveredProperty<A>,
) -> Result<(), AllocError>
    ensures { OnOk result (list.new.items ≡ list.old.items ++ covered_text (covering_of one.now)) }
{
    push_finding(alloc, list, one.name.as_str(), &one.finding)
}

/// Adds properties, and the finding about each.
fn push_properties<A: Allocator + Copy>(
    alloc: A,
    list: &mut Vec<u8, A>,
    properties: &[CoveredProperty<A>],
) -> Result<(), AllocError>
    ensures { OnOk result (list.new.items
        ≡ list.old.items ++ flat_map covered_text (map covering_of properties.now)) }
{
    'properties: for one in properties {
        push_property(alloc, list, one)?;
    }
    Ok(())
}

/// The text of the findings about properties.
pub fn coverings_text<A: Allocator + Copy>(
    alloc: A,
    properties: &[CoveredProperty<A>],
) -> Result<Vec<u8, A>, AllocError>
    ensures { IfOk result (λ r. r.items ≡ spec.coverings_text (map covering_of properties.now)) }
{
    let mut list = Vec::new(alloc);
    push_properties(alloc, &mut list, properties)?;
    Ok(list)
}
