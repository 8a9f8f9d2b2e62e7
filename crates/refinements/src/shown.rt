//! Which outcomes of one program show what outcomes of another do.

ghost use Rattle.std.specs.Prelude.{◌≡◌, ◌↔◌, All, Contains, IfOk, IsTrue, MatchOption, map, true};
ghost use Rattle.report.specs.OutcomeList.{reports};
ghost use Rattle.refinements.specs.ShownBy.{IsShownAmong, IsShownBy};
ghost use Rattle.report.specs.Views.{printed_of, reported_of, shown_of};

use containers::Same;
use report::{End, Printed, ReportedOrder, Shown};
use std::alloc::{AllocError, Allocator};
use std::collections::BTreeMap;
use std::hash::{DefaultHasher, Hasher};

/// Whether a global is among these.
fn has_global<A: Allocator>(globals: &[Shown<A>], global: &Shown<A>) -> bool
    ensures { IsTrue result ↔ Contains (map shown_of globals.now) (shown_of global.now) }
{
    'globals: for one in globals {
        if one.same(global) {
            return true;
        }
    }
    false
}

/// Whether all of these globals are among the others.
fn has_globals<A: Allocator>(globals: &[Shown<A>], wanted: &[Shown<A>]) -> bool
    ensures { IsTrue result ↔ All (Contains (map shown_of globals.now)) (map shown_of wanted.now) }
{
    'wanted: for one in wanted {
        if !has_global(globals, one) {
            return false;
        }
    }
    true
}

/// Whether the second shows what the first does.
fn is_shown_by<A: Allocator>(this: &Printed<A>, that: &Printed<A>) -> bool
    ensures { IsTrue result ↔ IsShownBy (printed_of this.now) (printed_of that.now) }
{
    if !this.threads.same(&that.threads) {
        return false;
    }
    has_globals(that.globals.as_slice(), this.globals.as_slice())
}

/// Whether one of these shows it.
fn is_shown_among<A: Allocator>(those: &[ReportedOrder<A>], this: &Printed<A>) -> bool
    ensures { IsTrue result ↔ IsShownAmong (map reported_of those.now) (printed_of this.now) }
{
    'those: for one in those {
        if is_shown_by(this, &one.shown) {
            return true;
        }
    }
    false
}

/// Whether the one of this number shows it.
fn is_shown_at<A: Allocator>(those: &[ReportedOrder<A>], at: usize, this: &Printed<A>) -> bool
    ensures { result ≡ true → IsShownAmong (map reported_of those.now) (printed_of this.now) }
{
    match those.get(at) {
        Some(one) => is_shown_by(this, &one.shown),
        None => false,
    }
}

/// Where a global of this one's name stands among these; beyond them, where none does.
fn place_of<A: Allocator>(globals: &[Shown<A>], wanted: &Shown<A>) -> usize {
    'globals: for at in 0..globals.len() {
        if globals[at].name.same(&wanted.name) {
            return at;
        }
    }
    globals.len()
}

/// Where among the globals of those outcomes those of these stand, by name.
fn places_in<A: Allocator + Copy>(
    alloc: A,
    those: &[ReportedOrder<A>],
    these: &[ReportedOrder<A>],
) -> Result<Vec<usize, A>, AllocError> {
    let mut places = Vec::new(alloc);
    if let (Some(that), Some(this)) = (those.first(), these.first()) {
        'globals: for global in this.shown.globals.as_slice() {
            places.push(place_of(that.shown.globals.as_slice(), global))?;
        }
    }
    Ok(places)
}

/// The number of the trap of an end, or 0.
fn trap_of(end: End) -> u32 {
    match end {
        End::Trapped(trap) => trap.number(),
        _ => 0,
    }
}

/// Adds words to a hash.
fn hash_words(hasher: &mut DefaultHasher, words: &[u64]) {
    'words: for word in words {
        hasher.write_u64(*word);
    }
}

/// The hash of what threads showed, and of the globals at these places, one behind another. What is shown by another
/// outcome has the same hash as that, by the places where its globals stand there.
fn hash_at<A: Allocator>(shown: &Printed<A>, places: &[usize]) -> u64 {
    let mut hasher = DefaultHasher::new();
    'threads: for thread in shown.threads.as_slice() {
        hasher.write_u32(trap_of(thread.end));
        hasher.write(thread.text.as_slice());
    }
    'places: for place in places {
        if let Some(global) = shown.globals.as_slice().get(*place) {
            hash_words(&mut hasher, global.words.as_slice());
        }
    }
    hasher.finish()
}

/// By which hash each of these is found.
fn numbers_of<A: Allocator + Copy>(
    alloc: A,
    those: &[ReportedOrder<A>],
    places: &[usize],
) -> Result<BTreeMap<u64, usize, A>, AllocError> {
    let mut numbers = BTreeMap::new(alloc);
    'those: for number in 0..those.len() {
        let Ok(_) = numbers.insert(hash_at(&those[number].shown, places), number) else {
            return Err(AllocError);
        };
    }
    Ok(numbers)
}

/// Whether one of these shows it: the one that is found by its hash, or else any.
fn is_found<A: Allocator>(
    those: &[ReportedOrder<A>],
    found: Option<usize>,
    this: &Printed<A>,
) -> bool
    ensures { IsTrue result ↔ IsShownAmong (map reported_of those.now) (printed_of this.now) }
{
    match found {
        None => is_shown_among(those, this),
        Some(at) => is_shown_at(those, at, this) || is_shown_among(those, this),
    }
}

/// The first of these outcomes which none of those shows, if there is one. All of these are of one program, and so are
/// all of those.
pub fn first_beyond<'a, A: Allocator + Copy>(
    alloc: A,
    these: &'a [ReportedOrder<A>],
    those: &[ReportedOrder<A>],
) -> Result<Option<&'a ReportedOrder<A>>, AllocError>
    ensures { IfOk result (λ o. MatchOption o
        (All (IsShownAmong (map reported_of those.now)) (reports (map reported_of these.now)))
        (λ one. Contains (map reported_of these.now) (reported_of one.now)
        × (IsShownAmong (map reported_of those.now) (reported_of one.now).shown → ⊥))) }
{
    let own = places_in(alloc, these, these)?;
    let places = places_in(alloc, those, these)?;
    let numbers = numbers_of(alloc, those, places.as_slice())?;
    'these: for one in these {
        let found = numbers.get(&hash_at(&one.shown, own.as_slice())).copied();
        if !is_found(those, found, &one.shown) {
            return Ok(Some(one));
        }
    }
    Ok(None)
}
