//! With what outcomes are compared.

ghost use Rattle.std.specs.Prelude.{◌≡◌, IfOk, IfErr, None, OnOk, codes, false, string_bytes, true};
ghost use Rattle.clap.specs.Words.{Text, first_of, found_of, rows_of};
ghost use Rattle.command.specs.Asked.{AreUncompared, IsAgainst, IsComparison, IsGivenAlone, IsListedFor};
ghost use Rattle.command.specs.declared.request.Against.{Against};
ghost use Rattle.command.specs.declared.request.Comparison.{Comparison};
ghost use Rattle.command.specs.inner.Refusals.{IsOwn};

use crate::claim::file_given;
use crate::given::{number_given, text_given, wrong};
use crate::range::threads_explored;
use crate::request::{Against, Comparison, ThreadRange, UsageFault};
use crate::task::number;
use clap::ArgMatches;
use std::alloc::Global;

/// Whether a text is given for an argument.
pub(crate) fn has_text(given: &ArgMatches<'_>, id: &str) -> bool
    ensures yes { result ≡ true → first_of id.now (rows_of (found_of given.now)) ≡ None → ⊥ }
    ensures no { result ≡ false → first_of id.now (rows_of (found_of given.now)) ≡ None }
{
    text_given(given, id).is_some()
}

/// Whether outcomes are compared.
fn are_compared(given: &ArgMatches<'_>) -> bool
    ensures yes { result ≡ true → AreUncompared (rows_of (found_of given.now)) → ⊥ }
    ensures no { result ≡ false → AreUncompared (rows_of (found_of given.now)) }
{
    has_text(given, "refines") || has_text(given, "expect") || has_text(given, "admits")
}

/// Whether a command compares outcomes.
pub(crate) fn compares(name: &str, given: &ArgMatches<'_>) -> bool
    ensures named { result ≡ true → name.now ≡ codes "outcomes" }
    ensures yes { result ≡ true → AreUncompared (rows_of (found_of given.now)) → ⊥ }
    ensures no { result ≡ false → name.now ≡ codes "outcomes" → AreUncompared (rows_of (found_of given.now)) }
{
    name == "outcomes" && are_compared(given)
}

/// Refuses an argument if another one is given too.
fn refuse_beside(
    alloc: Global,
    given: &ArgMatches<'_>,
    id: &str,
    other: &str,
) -> Result<(), UsageFault>
    ensures ok { OnOk result (first_of other.now (rows_of (found_of given.now)) ≡ None) }
    ensures err { IfErr result (IsOwn (first_of other.now (rows_of (found_of given.now)) ≡ None → ⊥)) }
{
    if !has_text(given, other) {
        return Ok(());
    }
    match format!(in alloc; "one of --{id} and --{other}") {
        Ok(why) => Err(wrong(alloc, why.as_str())),
        Err(_) => Err(UsageFault::OutOfMemory),
    }
}

/// The file given for one of three arguments. It is refused if another one is given too, or if the source is standard
/// input as well.
fn given_alone(
    alloc: Global,
    given: &ArgMatches<'_>,
    id: &str,
    other: &str,
    another: &str,
    why: &str,
) -> Result<String, UsageFault>
    ensures ok { IfOk result
        (λ s. IsGivenAlone (rows_of (found_of given.now)) id.now other.now another.now (string_bytes s)) }
    ensures err { IfErr result (IsOwn ((file : Text)
        → IsGivenAlone (rows_of (found_of given.now)) id.now other.now another.now file → ⊥)) }
{
    refuse_beside(alloc, given, id, other)?;
    refuse_beside(alloc, given, id, another)?;
    file_given(alloc, given, id, why)
}

/// With what outcomes are compared, where they are.
fn against(alloc: Global, given: &ArgMatches<'_>) -> Result<Against, UsageFault>
    ensures ok { IfOk result (IsAgainst (rows_of (found_of given.now))) }
    ensures err { IfErr result (IsOwn ((a : Against) → IsAgainst (rows_of (found_of given.now)) a → ⊥)) }
{
    if has_text(given, "refines") {
        let why = "FILE and B can't both be -";
        Ok(Against::Refined {
            file: given_alone(alloc, given, "refines", "expect", "admits", why)?,
        })
    } else if has_text(given, "expect") {
        let why = "FILE and LIST can't both be -";
        Ok(Against::Expected {
            file: given_alone(alloc, given, "expect", "refines", "admits", why)?,
        })
    } else {
        let why = "FILE and REPORT can't both be -";
        Ok(Against::Admitted {
            file: given_alone(alloc, given, "admits", "refines", "expect", why)?,
        })
    }
}

/// Whether there is one number of threads where outcomes are compared with a list or a report, which is of one.
fn are_comparable(threads: ThreadRange, against: &Against) -> bool
    ensures yes { result ≡ true → IsListedFor against.now threads.first threads.last }
    ensures no { result ≡ false → IsListedFor against.now threads.first threads.last → ⊥ }
{
    match against {
        Against::Refined { .. } => true,
        Against::Expected { .. } => threads.last == threads.first,
        Against::Admitted { .. } => threads.last == threads.first,
    }
}

/// Says that a comparison needs one number of threads.
fn several_numbers(alloc: Global, against: &Against) -> UsageFault
    ensures { IsOwn (Unit {0}) result }
{
    match against {
        Against::Refined { .. } | Against::Expected { .. } => {
            wrong(alloc, "--expect needs one number of threads")
        }
        Against::Admitted { .. } => wrong(alloc, "--admits needs one number of threads"),
    }
}

/// How outcomes are compared, where they are.
pub(crate) fn comparison(alloc: Global, given: &ArgMatches<'_>) -> Result<Comparison, UsageFault>
    ensures ok { IfOk result (IsComparison (rows_of (found_of given.now))) }
    ensures err { IfErr result (IsOwn ((c : Comparison) → IsComparison (rows_of (found_of given.now)) c → ⊥)) }
{
    let threads = threads_explored(alloc, given)?;
    let steps = number(alloc, given, "steps", 1000000, 0, u32::MAX)?;
    let limit = number(alloc, given, "limit", 1000000, 0, u32::MAX)?;
    let memory = number(alloc, given, "memory", 1024, 0, u32::MAX)?;
    let time = number_given(alloc, given, "time", 0, u32::MAX)?;
    let against = against(alloc, given)?;
    if !are_comparable(threads, &against) {
        return Err(several_numbers(alloc, &against));
    }
    Ok(Comparison {
        threads,
        steps,
        limit,
        memory,
        time,
        against,
    })
}
