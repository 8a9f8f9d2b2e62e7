//! Numbers of threads that are explored one after another.

ghost use Rattle.std.specs.Prelude.{◌≡◌, ◌≤◌, ◌==◌, ℕ, IfErr, IfOk, IsSomeAnd, MatchOption, codes, map};
ghost use Rattle.std.specs.List.{slice_split};
ghost use Rattle.clap.specs.Words.{found_of, one_of, rows_of};
ghost use Rattle.command.specs.Asked.{AreThreadsExplored, AreThreadsInTurn, IsNoNumber, IsNumberInRange, IsRange};
ghost use Rattle.command.specs.inner.Refusals.{IsOutOfRange, IsOwn};

use crate::given::{NoNumber, read_number, text_wanted, wrong};
use crate::order::thread_number;
use crate::request::{ThreadRange, UsageFault};
use crate::task::{MOST_THREADS, number};
use clap::ArgMatches;
use std::alloc::{AllocError, Global};

/// The pieces between dots.
fn pieces<'a>(alloc: Global, text: &'a str) -> Result<Vec<&'a str>, AllocError>
    ensures { IfOk result (λ v. map (λ p. p.now) v.items ≡ slice_split (λ b. b == 46) text.now) }
{
    text.split('.').collect(alloc)
}

/// The numbers that pieces say, if these are a number, nothing and a number.
fn range_of(pieces: &[&str]) -> Option<ThreadRange>
    ensures { let texts = map (λ p. p.now) pieces.now in
        MatchOption result ((first last : ℕ) → IsRange texts first last → ⊥) (λ r. IsRange texts r.first r.last) }
{
    let [first, between, last] = pieces else {
        return None;
    };
    if !between.is_empty() {
        return None;
    }
    match (thread_number(*first), thread_number(*last)) {
        (Some(first), Some(last)) => Some(ThreadRange { first, last }),
        _ => None,
    }
}

/// The numbers of threads that a text says, as 2..4.
fn range(alloc: Global, text: &str) -> Result<Option<ThreadRange>, AllocError>
    ensures { let texts = slice_split (λ b. b == 46) text.now in
        IfOk result (λ o. MatchOption o ((first last : ℕ) → IsRange texts first last → ⊥)
        (λ r. IsRange texts r.first r.last)) }
{
    let pieces = pieces(alloc, text)?;
    Ok(range_of(pieces.as_slice()))
}

/// Refuses a range that is none, or that has a number of threads out of bounds.
fn bad_range(alloc: Global) -> UsageFault
    ensures { IsOwn (Unit {0}) result }
{
    wrong(alloc, "--threads is 1 to 64, or a range such as 2..4")
}

/// The range itself, if each of its numbers is a possible number of threads, and the smaller one is first.
fn checked(alloc: Global, range: ThreadRange) -> Result<ThreadRange, UsageFault>
    ensures ok { IfOk result (λ r. (r ≡ range) × (1 ≤ r.first) × (r.first ≤ r.last) × (r.last ≤ 64)) }
    ensures err { IfErr result (IsOwn (1 ≤ range.first → range.first ≤ range.last → range.last ≤ 64 → ⊥)) }
{
    if range.first == 0 || MOST_THREADS < range.first || MOST_THREADS < range.last {
        Err(bad_range(alloc))
    } else if range.last < range.first {
        Err(wrong(
            alloc,
            "--threads needs the smaller number first, as in 2..4",
        ))
    } else {
        Ok(range)
    }
}

/// The numbers of threads of a range that is given.
fn range_given(alloc: Global, given: &ArgMatches<'_>) -> Result<ThreadRange, UsageFault>
    requires { IsSomeAnd (one_of (codes "threads") (rows_of (found_of given.now))) IsNoNumber }
    ensures ok { IfOk result (λ r. AreThreadsInTurn (rows_of (found_of given.now)) r.first r.last) }
    ensures err { IfErr result (IsOwn ((first last : ℕ)
        → AreThreadsInTurn (rows_of (found_of given.now)) first last → ⊥)) }
{
    let text = text_wanted(alloc, given, "threads")?;
    match range(alloc, text.as_str())? {
        Some(range) => checked(alloc, range),
        None => Err(bad_range(alloc)),
    }
}

/// The number of threads that is given alone.
fn one_given(alloc: Global, given: &ArgMatches<'_>) -> Result<ThreadRange, UsageFault>
    ensures ok { IfOk result (λ r. IsNumberInRange (rows_of (found_of given.now)) (codes "threads") 2 1 64 r.first
        × (r.last ≡ r.first)) }
    ensures err { IfErr result (IsOwn (IsOutOfRange (rows_of (found_of given.now)) (codes "threads") 2 1 64)) }
{
    let threads = number(alloc, given, "threads", 2, 1, MOST_THREADS)?;
    Ok(ThreadRange {
        first: threads,
        last: threads,
    })
}

/// The numbers of threads whose orders are explored: one thread has a single order, so the default is two.
pub(crate) fn threads_explored(
    alloc: Global,
    given: &ArgMatches<'_>,
) -> Result<ThreadRange, UsageFault>
    ensures ok { IfOk result (λ r. AreThreadsExplored (rows_of (found_of given.now)) r.first r.last) }
    ensures err { IfErr result (IsOwn ((first last : ℕ)
        → AreThreadsExplored (rows_of (found_of given.now)) first last → ⊥)) }
{
    match read_number(given, "threads") {
        Ok(_) => one_given(alloc, given),
        Err(NoNumber) => range_given(alloc, given),
    }
}
