//! The files to test, and how answers are reported.

ghost use Rattle.std.specs.Prelude.{◌≡◌, [], IfErr, IfOk, codes, map, string_bytes, unwrap_or};
ghost use Rattle.clap.specs.Words.{all_of, first_of, found_of, rows_of};
ghost use Rattle.command.specs.Tests.{AreTests, IsTestFormat};
ghost use Rattle.command.specs.declared.request.TestFormat.{TestFormat};
ghost use Rattle.command.specs.declared.request.Tests.{Tests};
ghost use Rattle.command.specs.inner.Refusals.{IsOwn};

use crate::given::{flag_given, text_given, wrong};
use crate::request::{TestFormat, Tests, UsageFault};
use clap::ArgMatches;
use std::alloc::{AllocError, Global};

/// Copies names.
fn copied(alloc: Global, names: &[&str]) -> Result<Vec<String>, AllocError>
    ensures { IfOk result (λ v. map string_bytes v.items ≡ map (λ w. w.now) names.now) }
{
    let mut files = Vec::new(alloc);
    'names: for name in names {
        let file = String::from_str(alloc, *name)?;
        files.push(file)?;
    }
    Ok(files)
}

/// The given files.
fn files_given(alloc: Global, given: &ArgMatches<'_>) -> Result<Vec<String>, AllocError>
    ensures { IfOk result (λ v. map string_bytes v.items
        ≡ unwrap_or (all_of (codes "FILE") (rows_of (found_of given.now))) []) }
{
    match given.get_strs("FILE") {
        Some(names) => copied(alloc, names),
        None => Ok(Vec::new(alloc)),
    }
}

/// How answers are reported.
fn format_given(alloc: Global, given: &ArgMatches<'_>) -> Result<TestFormat, UsageFault>
    ensures ok { IfOk result (IsTestFormat (first_of (codes "format") (rows_of (found_of given.now)))) }
    ensures err { IfErr result
        (IsOwn ((f : TestFormat) → IsTestFormat (first_of (codes "format") (rows_of (found_of given.now))) f → ⊥)) }
{
    match text_given(given, "format") {
        None => Ok(TestFormat::Plain),
        Some("github") => Ok(TestFormat::Github),
        Some("json") => Ok(TestFormat::Json),
        Some(_) => Err(wrong(alloc, "--format is github or json")),
    }
}

/// The files to test, and the options of the test.
pub(crate) fn tests(alloc: Global, given: &ArgMatches<'_>) -> Result<Tests, UsageFault>
    ensures ok { IfOk result (AreTests (rows_of (found_of given.now))) }
    ensures err { IfErr result (IsOwn ((t : Tests) → AreTests (rows_of (found_of given.now)) t → ⊥)) }
{
    let format = format_given(alloc, given)?;
    let files = files_given(alloc, given)?;
    Ok(Tests {
        files,
        format,
        lists: flag_given(given, "list"),
    })
}
