//! The report of a program's threads in an order, found by its code. The code makes the same turns as the source, in a
//! fraction of the time.

ghost use Rattle.std.specs.Prelude.{◌≡◌, ◌<◌, All, IfOk, IfSome, map, true};
ghost use Rattle.states.specs.Rests.{end_at_rest, text_at_rest};
ghost use Rattle.states.specs.Shown.{told_at_rest};
ghost use Rattle.meaning.specs.InOrder.{report_in};
ghost use Rattle.report.specs.Views.{printed_of};
ghost use Rattle.syntax.specs.Views.{program_of};
ghost use Rattle.walks.specs.Ordered.{all_resting};
ghost use Rattle.serving.specs.Codes.{IsCodeOf};
ghost use Rattle.serving.specs.Orders.{IsUnspentOrder};

use crate::at_rest::thread_told;
use crate::certify::DueFault;
use crate::program::unit_of;
use crate::source::shown_with;
use crate::walked::MOST_THREADS;
use atomic_code::AtomicThread;
use bytecode::Code;
use lower::lower;
use meaning::{MeaningFault, ThreadReport};
use report::Printed;
use separation::Accepted;
use std::alloc::{AllocError, Allocator};
use walks::rest_in_order;

/// Whether each entry of an order names one of this many threads.
fn names_threads(threads: u32, order: &[u32]) -> bool
    ensures { result ≡ true → All (λ t. t < threads) order.now }
{
    'entries: for entry in 0..order.len() {
        if order[entry] >= threads {
            return false;
        }
    }
    true
}

/// The texts and ends of threads at rest.
fn all_told<A: Allocator + Copy>(
    alloc: A,
    threads: &Vec<AtomicThread<A>, A>,
) -> Result<Vec<ThreadReport<A>, A>, AllocError>
    ensures { IfOk result (λ rs. map report_in rs.items ≡ map (told_at_rest end_at_rest text_at_rest)
        (all_resting threads.now.items)) }
{
    let mut told = Vec::new(alloc);
    'threads: for t in 0..threads.len() {
        told.push(thread_told(alloc, &threads[t])?)?;
    }
    Ok(told)
}

/// The contents of the report of a program's threads in an order, by its code. None if a thread executes too many
/// instructions in one turn.
fn shown_by_code<A: Allocator + Copy>(
    alloc: A,
    accepted: &Accepted<A>,
    code: &Code<A>,
    threads: u32,
    order: &[u32],
) -> Result<Option<Printed<A>>, AllocError>
    requires code { IsCodeOf (program_of accepted.now.safe.typed.unit) code.now }
    requires named { All (λ t. t < threads) order.now }
    ensures { IfOk result (λ r. IfSome r (λ shown.
        IsUnspentOrder (program_of accepted.now.safe.typed.unit) threads order.now (printed_of shown))) }
{
    let mut memory = Vec::new(alloc);
    code.push_initial(&mut memory)?;
    let words = memory.as_slice();
    let Some(rest) = rest_in_order(alloc, code, words, threads, order)? else {
        return Ok(None);
    };
    let told = all_told(alloc, &rest.threads)?;
    let unit = unit_of(accepted);
    let left = rest.memory.as_slice();
    let shown = shown_with(alloc, unit, left, told)?;
    Ok(Some(shown))
}

/// The contents of the report of a program's threads in an order, by its code. None if the program has no code, the
/// number of threads is not 1 to 64, or an entry names none of them.
pub(crate) fn order_by_code<A: Allocator + Copy>(
    alloc: A,
    accepted: &Accepted<A>,
    threads: u32,
    order: &[u32],
) -> Result<Option<Printed<A>>, DueFault>
    ensures { IfOk result (λ r. IfSome r (λ shown.
        IsUnspentOrder (program_of accepted.now.safe.typed.unit) threads order.now (printed_of shown))) }
{
    if threads == 0 || threads > MOST_THREADS {
        return Ok(None);
    }
    if !names_threads(threads, order) {
        return Ok(None);
    }
    let Ok(code) = lower(alloc, accepted) else {
        return Ok(None);
    };
    match shown_by_code(alloc, accepted, &code, threads, order) {
        Ok(Some(shown)) => Ok(Some(shown)),
        Ok(None) => Err(DueFault::Long),
        Err(_) => Err(DueFault::Order(MeaningFault::OutOfMemory)),
    }
}
