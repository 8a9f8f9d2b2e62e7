//! What is claimed of a report.

ghost use Rattle.std.specs.Prelude.{◌≡◌, IfOk, IfErr, Some, codes, string_bytes};
ghost use Rattle.clap.specs.Words.{Text, first_of, found_of, rows_of};
ghost use Rattle.command.specs.Asked.{AreClaimFiles, IsClaim, IsNotBoth};
ghost use Rattle.command.specs.declared.request.Claim.{Claim};
ghost use Rattle.command.specs.inner.Refusals.{IsOwn};

use crate::given::{number_given, text_wanted, wrong};
use crate::request::{Claim, UsageFault};
use crate::task::{are_both, threads};
use clap::ArgMatches;
use std::alloc::Global;

/// The file that is given for an argument, where the source isn't standard input too.
pub(crate) fn file_given(
    alloc: Global,
    given: &ArgMatches<'_>,
    id: &str,
    why: &str,
) -> Result<String, UsageFault>
    ensures named { IfOk result (λ s. first_of id.now (rows_of (found_of given.now)) ≡ Some (string_bytes s)) }
    ensures not_both { IfOk result (λ s. IsNotBoth (rows_of (found_of given.now)) (string_bytes s)) }
    ensures err { IfErr result (IsOwn ((file : Text)
        → first_of id.now (rows_of (found_of given.now)) ≡ Some file
        → IsNotBoth (rows_of (found_of given.now)) file → ⊥)) }
{
    let file = text_wanted(alloc, given, id)?;
    if are_both(given, file.as_str()) {
        return Err(wrong(alloc, why));
    }
    Ok(file)
}

/// The claim that is given.
pub(crate) fn claim(alloc: Global, given: &ArgMatches<'_>) -> Result<Claim, UsageFault>
    ensures ok { IfOk result (IsClaim (rows_of (found_of given.now))) }
    ensures err { IfErr result (IsOwn ((c : Claim) → IsClaim (rows_of (found_of given.now)) c → ⊥)) }
{
    let threads = threads(alloc, given)?;
    let ticks = number_given(alloc, given, "ticks", 0, u32::MAX)?;
    let order = file_given(alloc, given, "order-file", "FILE and S can't both be -")?;
    let report = file_given(alloc, given, "report", "FILE and R can't both be -")?;
    if order.as_str() == "-" && report.as_str() == "-" {
        return Err(wrong(alloc, "S and R can't both be -"));
    }
    Ok(Claim {
        threads,
        order,
        report,
        ticks,
    })
}
