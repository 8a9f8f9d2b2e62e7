//! What is told of outcomes that are another program's, or are not.

ghost use Rattle.std.specs.Prelude.{◌≡◌, ◌++◌, IfOk, OnOk, codes, decimal, flat_map};
ghost use Rattle.report.specs.OutcomeList.{order_word, walk_words};
ghost use Rattle.report.specs.Views.{reported_of};
ghost use Rattle.report.specs.declared.outcome_list.WalkEnd.TheVariants.{Whole};
ghost use Rattle.refinements.specs.Told as spec;

use itoa::Buffer;
use report::{ReportedOrder, report_text};
use std::alloc::{AllocError, Allocator};

/// Adds bytes.
pub(crate) fn push_bytes<A: Allocator>(
    text: &mut Vec<u8, A>,
    bytes: &[u8],
) -> Result<(), AllocError>
    ensures { OnOk result (text.new.items ≡ text.old.items ++ bytes.now) }
{
    text.extend_from_slice(bytes)
}

/// Adds a number.
pub(crate) fn push_number<A: Allocator>(
    text: &mut Vec<u8, A>,
    number: u64,
) -> Result<(), AllocError>
    ensures { OnOk result (text.new.items ≡ text.old.items ++ decimal number) }
{
    push_bytes(text, Buffer::new().format(number).as_bytes())
}

/// Adds thread numbers, with a comma before each.
fn push_others<A: Allocator>(text: &mut Vec<u8, A>, threads: &[u32]) -> Result<(), AllocError>
    ensures { OnOk result (text.new.items ≡ text.old.items ++ flat_map (λ u. codes "," ++ decimal u) threads.now) }
{
    'threads: for thread in threads {
        push_bytes(text, b",")?;
        push_number(text, u64::from(*thread))?;
    }
    Ok(())
}

/// Adds an order, as a word of a command line.
pub(crate) fn push_order<A: Allocator>(
    text: &mut Vec<u8, A>,
    order: &[u32],
) -> Result<(), AllocError>
    ensures { OnOk result (text.new.items ≡ text.old.items ++ order_word order.now) }
{
    let [first, others @ ..] = order else {
        return push_bytes(text, b"''");
    };
    push_number(text, u64::from(*first))?;
    push_others(text, others)
}

/// Adds the number of threads, and ends the line.
pub(crate) fn push_threads<A: Allocator>(
    text: &mut Vec<u8, A>,
    threads: u32,
) -> Result<(), AllocError>
    ensures { OnOk result (text.new.items ≡ text.old.items ++ walk_words threads Whole) }
{
    push_bytes(text, b", threads: ")?;
    push_number(text, u64::from(threads))?;
    push_bytes(text, b"\n")
}

/// The line that says that each of so many outcomes is one of another program's.
pub fn refined_text<A: Allocator>(
    alloc: A,
    name: &str,
    outcomes: u64,
    others: u64,
    threads: u32,
) -> Result<Vec<u8, A>, AllocError>
    ensures { IfOk result (λ r. r.items ≡ spec.refined_text name.now outcomes others threads) }
{
    let mut text = Vec::new(alloc);
    push_bytes(&mut text, b"== refines ")?;
    push_bytes(&mut text, name.as_bytes())?;
    push_bytes(&mut text, b": outcomes ")?;
    push_number(&mut text, outcomes)?;
    push_bytes(&mut text, b" of ")?;
    push_number(&mut text, others)?;
    push_threads(&mut text, threads)?;
    Ok(text)
}

/// An outcome that is none of another program's, with its order and its report.
pub fn beyond_text<A: Allocator + Copy>(
    alloc: A,
    name: &str,
    one: &ReportedOrder<A>,
) -> Result<Vec<u8, A>, AllocError>
    ensures { IfOk result (λ r. r.items ≡ spec.beyond_text name.now (reported_of one.now)) }
{
    let report = report_text(alloc, &one.shown)?;
    let mut text = Vec::new(alloc);
    push_bytes(&mut text, b"== not an outcome of ")?;
    push_bytes(&mut text, name.as_bytes())?;
    push_bytes(&mut text, b" --order ")?;
    push_order(&mut text, one.order.as_slice())?;
    push_bytes(&mut text, b"\n")?;
    push_bytes(&mut text, report.as_slice())?;
    Ok(text)
}
