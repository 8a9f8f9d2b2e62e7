//! Whether an outcome has a report, and how that is told.

ghost use Rattle.std.specs.Prelude.{◌≡◌, ◌++◌, ◌∷◌, ℕ, [], Contains, IfOk, List, MatchOption, OnOk, false, map, true};
ghost use Rattle.report.specs.OutcomeList.{ReportedOrder as Reported};
ghost use Rattle.report.specs.Views.{reported_of};
ghost use Rattle.refinements.specs.Admitted.{DiffersAt, HasReport, SaysAdmitted, ShowsUnadmitted, order_options};
ghost use Rattle.refinements.specs.Admitted as spec;
ghost use Rattle.refinements.specs.inner.Closest.{IsClosest};

use crate::told::{push_bytes, push_number, push_order, push_threads};
use differences::{difference, first_line};
use report::{ReportedOrder, report_text};
use std::alloc::{AllocError, Allocator};

/// Whether an outcome has a report.
#[derive(Drop)]
pub struct Admission<'a, A: Allocator> {
    pub is_admitted: bool,
    /// The outcome that has the report, or else one that agrees with it up to the latest line. There is none if there
    /// are no outcomes.
    pub one: Option<&'a ReportedOrder<A>>,
    /// The text that says so.
    pub text: Vec<u8, A>,
}

/// The outcome that is closest to a report.
#[derive(Drop)]
pub(crate) enum Closest<'a, A: Allocator> {
    /// It has the report.
    Has(&'a ReportedOrder<A>),
    /// Its report first differs in this line, counted from 0, and no other one in a later line.
    Differs(&'a ReportedOrder<A>, usize),
    /// There are no outcomes.
    Nothing,
}

/// The line, counted from 0, in which the report of an outcome first differs from this one, if it does.
fn line_of<A: Allocator + Copy>(
    alloc: A,
    one: &ReportedOrder<A>,
    report: &[u8],
) -> Result<Option<usize>, AllocError>
    ensures { IfOk result (λ o. MatchOption o (HasReport report.now (reported_of one.now))
        (DiffersAt report.now (reported_of one.now))) }
{
    let text = report_text(alloc, &one.shown)?;
    first_line(alloc, text.as_slice(), report)
}

/// The closest one so far, or an outcome that first differs in this line.
fn closer<'a, A: Allocator>(
    closest: Closest<'a, A>,
    one: &'a ReportedOrder<A>,
    line: usize,
) -> Closest<'a, A>
    ensures { (os : List Reported) (report : List ℕ) → IsClosest os report closest.entry
        → DiffersAt report (reported_of one.now) line → IsClosest (os ++ reported_of one.now ∷ []) report result }
{
    match closest {
        Closest::Nothing => Closest::Differs(one, line),
        Closest::Differs(other, before) => {
            if before < line {
                Closest::Differs(one, line)
            } else {
                Closest::Differs(other, before)
            }
        }
        Closest::Has(other) => Closest::Has(other),
    }
}

/// The outcome that is closest to a report: the first one that has it, or else one that agrees with it up to the latest
/// line.
fn find_closest<'a, A: Allocator + Copy>(
    alloc: A,
    outcomes: &'a [ReportedOrder<A>],
    report: &[u8],
) -> Result<Closest<'a, A>, AllocError>
    ensures { IfOk result (IsClosest (map reported_of outcomes.now) report.now) }
{
    let mut closest = Closest::Nothing;
    'outcomes: for one in outcomes {
        match line_of(alloc, one, report)? {
            Some(line) => closest = closer(closest, one, line),
            None => return Ok(Closest::Has(one)),
        }
    }
    Ok(closest)
}

/// Adds an order of so many threads, as options of a command line, and ends the line.
fn push_options<A: Allocator>(
    text: &mut Vec<u8, A>,
    threads: u32,
    order: &[u32],
) -> Result<(), AllocError>
    ensures { OnOk result (text.new.items ≡ text.old.items ++ order_options threads order.now) }
{
    push_bytes(text, b" --threads ")?;
    push_number(text, u64::from(threads))?;
    push_bytes(text, b" --order ")?;
    push_order(text, order)?;
    push_bytes(text, b"\n")
}

/// The line that says that the outcome with this order has the report in a file.
fn admitted_text<A: Allocator>(
    alloc: A,
    name: &str,
    threads: u32,
    one: &ReportedOrder<A>,
) -> Result<Vec<u8, A>, AllocError>
    ensures { IfOk result (λ r. r.items ≡ spec.admitted_text name.now threads (reported_of one.now).order) }
{
    let mut text = Vec::new(alloc);
    push_bytes(&mut text, b"== admits ")?;
    push_bytes(&mut text, name.as_bytes())?;
    push_options(&mut text, threads, one.order.as_slice())?;
    Ok(text)
}

/// The line in which the report of an outcome first differs from this one, in both reports.
fn lines_text<A: Allocator + Copy>(
    alloc: A,
    one: &ReportedOrder<A>,
    report: &[u8],
) -> Result<Vec<u8, A>, AllocError>
    ensures { IfOk result (λ r. (line : ℕ) → DiffersAt report.now (reported_of one.now) line
        → r.items ≡ spec.lines_text (reported_of one.now) report.now line) }
{
    let text = report_text(alloc, &one.shown)?;
    match difference(alloc, b"outcome", text.as_slice(), b"report", report)? {
        Some(lines) => Ok(lines),
        None => Ok(Vec::new(alloc)),
    }
}

/// The text that says that no outcome has the report in a file, and where that of this one first differs.
fn nearest_text<A: Allocator + Copy>(
    alloc: A,
    name: &str,
    threads: u32,
    one: &ReportedOrder<A>,
    report: &[u8],
) -> Result<Vec<u8, A>, AllocError>
    ensures { IfOk result (λ r. (line : ℕ) → DiffersAt report.now (reported_of one.now) line
        → r.items ≡ spec.nearest_text name.now threads (reported_of one.now) report.now line) }
{
    let lines = lines_text(alloc, one, report)?;
    let mut text = Vec::new(alloc);
    push_bytes(&mut text, b"== does not admit ")?;
    push_bytes(&mut text, name.as_bytes())?;
    push_bytes(&mut text, b", nearest outcome")?;
    push_options(&mut text, threads, one.order.as_slice())?;
    push_bytes(&mut text, lines.as_slice())?;
    Ok(text)
}

/// The line that says that there are no outcomes.
fn none_text<A: Allocator>(alloc: A, name: &str, threads: u32) -> Result<Vec<u8, A>, AllocError>
    ensures { IfOk result (λ r. r.items ≡ spec.none_text name.now threads) }
{
    let mut text = Vec::new(alloc);
    push_bytes(&mut text, b"== does not admit ")?;
    push_bytes(&mut text, name.as_bytes())?;
    push_bytes(&mut text, b", outcomes: 0")?;
    push_threads(&mut text, threads)?;
    Ok(text)
}

/// Whether one of these outcomes has the report in a file of this name, and the text that says so. If none has it, the
/// text shows the first line that differs in the outcome that agrees with the report up to the latest line.
pub fn admission_of<'a, A: Allocator + Copy>(
    alloc: A,
    name: &str,
    threads: u32,
    outcomes: &'a [ReportedOrder<A>],
    report: &[u8],
) -> Result<Admission<'a, A>, AllocError>
    ensures so { IfOk result (λ r. r.is_admitted ≡ true
        → SaysAdmitted (Contains (map reported_of outcomes.now)) name.now threads report.now r.text.items) }
    ensures not_so { IfOk result (λ r. r.is_admitted ≡ false
        → ShowsUnadmitted (Contains (map reported_of outcomes.now)) name.now threads report.now r.text.items) }
{
    match find_closest(alloc, outcomes, report)? {
        Closest::Has(one) => Ok(Admission {
            is_admitted: true,
            one: Some(one),
            text: admitted_text(alloc, name, threads, one)?,
        }),
        Closest::Differs(one, _) => Ok(Admission {
            is_admitted: false,
            one: Some(one),
            text: nearest_text(alloc, name, threads, one, report)?,
        }),
        Closest::Nothing => Ok(Admission {
            is_admitted: false,
            one: None,
            text: none_text(alloc, name, threads)?,
        }),
    }
}
